// Cases of case kind 0: a stream, cut into calls of the filter of `recorder`. A case is a head, the length of each call's chunk, and the
// chunks; each is read when its turn comes, so that a chunk that is cut short ends the program after the answers before it.
ghost use Rattle.std.specs.Prelude.{◌≡◌, ◌+◌, ◌*◌, ◌≤◌, length, IfSome};
ghost use Rattle.meaning.specs.Writing.{Wrote};
ghost use Rattle.recorder.specs.Filter.{record_in};
ghost use Rattle.cases.specs.Streams.{asked_at, head_fits, Fits, FitTold, LengthsFit, call_bytes, CallAs};

use crate::{BODIES, INPUT, MAP_ROOM, OUTPUT, Rooms, WORK, modes_of, put_three};
use meaning::{Counts, Modes, Options};
use octets::{be16, be32, id16, put8, put32};
use programs::asked::{answer_number, options_of};
use programs::pipe::{fill_all, write_all};
use recorder::{Dropped, Filter, Pushed, Started, start};
use std::rt::HostRuntime;

// The most calls of a case.
const CALLS: usize = 1024;

// What the head of a case asks for: service and wishes, the modes, the lengths of the rooms and of the output, the most bytes of one message, and how
// many calls follow. In a case of case kind 4 each call has an output of its own, and none is asked for here.
#[derive(Clone, Copy)]
pub struct Asked {
    pub options: Options,
    pub modes: Modes,
    pub work: usize,
    pub total: usize,
    pub most: usize,
    pub map_room: usize,
    pub out: usize,
    pub calls: usize,
}

// What a head asks for whose service and rooms stand from `at` on; output and number of calls have a place of their own in each case kind.
pub fn asked_at(head: &[u8], at: usize, modes: u8, out: usize, calls: usize) -> Asked
    requires { at + 18 ≤ length head.now }
    ensures { result ≡ asked_at head.now at modes out calls }
{
    Asked {
        options: options_of(head[0], id16(head, at)),
        modes: modes_of(modes),
        work: be32(head, at + 2),
        total: be32(head, at + 6),
        most: be32(head, at + 10),
        map_room: be32(head, at + 14),
        out,
        calls,
    }
}

// Whether rooms of these lengths hold what is asked for.
#[tactic(auto, unfolding(crate::specs::Streams::head_fits))]
pub fn head_fits(h: Asked, work: usize, total: usize, map_room: usize, out: usize) -> bool
    ensures { result ≡ head_fits h work total map_room out }
{
    h.work <= work && h.total <= total && h.map_room <= map_room && h.out <= out && h.calls <= CALLS
}

// The next bytes of the input, to the front of a room; none where there were not so many.
pub fn read_front(rt: HostRuntime, room: &mut [u8], len: usize) -> Option<()>
    requires { len ≤ length room.old }
{
    fill_all(rt, &mut room[0..len])
}

// Whether each of the first `n` lengths is at most `most`.
fn lengths_fit(lengths: &[u8], n: usize, most: usize) -> bool
    requires { 4 * n ≤ length lengths.now }
    ensures { FitTold result lengths.now n most }
{
    for i in 0..n {
        if most < be32(lengths, 4 * i) {
            return false;
        }
    }
    true
}

// Writes what comes before the bytes of a call's answer; answers the offset past it.
fn put_call(out: &mut [u8], number: u8, c: Counts, held_count: usize) -> usize
    requires { 29 ≤ length out.old }
    ensures { Wrote (call_bytes number c held_count) out.old 0 out.new result }
{
    let a = put8(out, 0, number);
    let b = put_three(out, a, c.bytes, c.accepted, c.written);
    let d = put_three(out, b, c.rewritten, c.skipped, held_count);
    put32(out, d, c.lost)
}

// The answer to a call, and the bytes that it wrote; none where a write failed.
fn tell(rt: HostRuntime, p: Pushed, out: &[u8]) -> Option<()>
    requires { p.counts.bytes ≤ length out.now }
{
    let mut head = [0u8; 29];
    let a = p.answer;
    let c = p.counts;
    let f = p.filter;
    put_call(&mut head, answer_number(a), c, f.held_count);
    write_all(rt, &head)?;
    let n = c.bytes;
    write_all(rt, &out[0..n])
}

// One call and its answer; hands back the record for the next, where the answer was taken.
fn one_call(
    rt: HostRuntime,
    f: Filter,
    chunk: &[u8],
    work: &mut [u8],
    bodies: &mut [u8],
    map_room: &mut [u16],
    out: &mut [u8],
) -> Option<Filter>
    ensures { CallAs (record_in f) work.old bodies.old map_room.old chunk.now out.old result work.new bodies.new map_room.new out.new }
{
    let p = f.push(chunk, work, bodies, map_room, out);
    tell(rt, p, out)?;
    Some(p.filter)
}

// The same with the parts of the rooms that are asked for, and an output of `n` bytes.
pub fn call_in(
    rt: HostRuntime,
    f: Filter,
    h: Asked,
    n: usize,
    chunk: &[u8],
    rooms: &mut Rooms,
) -> Option<Filter>
    requires { Fits h × (n ≤ 262400) }
{
    let Rooms {
        work,
        bodies,
        map_room,
        out,
    } = rooms;
    one_call(
        rt,
        f,
        chunk,
        &mut work[0..h.work],
        &mut bodies[0..h.total],
        &mut map_room[0..h.map_room],
        &mut out[0..n],
    )
}

// How many identifiers are dropped now, with the parts of the rooms that are asked for.
pub fn dropped_in(f: Filter, h: Asked, rooms: &Rooms) -> Dropped
    requires { Fits h }
{
    f.dropped(
        &rooms.work[0..h.work],
        &rooms.bodies[0..h.total],
        &rooms.map_room[0..h.map_room],
    )
}

// A start in the parts of the rooms that are asked for, and its number.
pub fn start_in(rt: HostRuntime, h: Asked, rooms: &Rooms) -> Option<Started>
    requires { Fits h }
{
    let o = h.options;
    let s = start(
        &rooms.work[0..h.work],
        &rooms.bodies[0..h.total],
        &rooms.map_room[0..h.map_room],
        h.most,
        o,
        h.modes,
    );
    let a = s.answer;
    let number = [answer_number(a); 1];
    write_all(rt, &number)?;
    Some(s)
}

// How many identifiers are dropped after the last call.
fn tell_dropped(rt: HostRuntime, f: Filter, h: Asked, rooms: &Rooms) -> Option<()>
    requires { Fits h }
{
    let d = dropped_in(f, h, rooms);
    let mut last = [0u8; 4];
    put32(&mut last, 0, d.count as usize);
    write_all(rt, &last)
}

// The calls in turn, each with the record that the one before handed back; none where a chunk is cut short or a write failed.
fn calls(
    rt: HostRuntime,
    first: Filter,
    h: Asked,
    lengths: &[u8],
    chunk: &mut [u8; INPUT],
    rooms: &mut Rooms,
) -> Option<()>
    requires { Fits h × (4 * h.calls ≤ length lengths.now) × LengthsFit lengths.now h.calls 131200 }
{
    let mut f = first;
    for i in 0..h.calls {
        let len = be32(lengths, 4 * i);
        read_front(rt, chunk, len)?;
        f = call_in(rt, f, h, h.out, &chunk[0..len], rooms)?;
    }
    tell_dropped(rt, f, h, rooms)
}

// Reads past the chunks of a stream whose start was refused.
fn read_past(rt: HostRuntime, lengths: &[u8], n: usize, chunk: &mut [u8; INPUT]) -> Option<()>
    requires { (4 * n ≤ length lengths.now) × LengthsFit lengths.now n 131200 }
{
    for i in 0..n {
        read_front(rt, chunk, be32(lengths, 4 * i))?;
    }
    Some(())
}

// The start and its answer, then the calls.
fn started(
    rt: HostRuntime,
    h: Asked,
    lengths: &[u8],
    chunk: &mut [u8; INPUT],
    rooms: &mut Rooms,
) -> Option<()>
    requires { Fits h × (4 * h.calls ≤ length lengths.now) × LengthsFit lengths.now h.calls 131200 }
{
    let s = start_in(rt, h, rooms)?;
    if s.answer.is_err() {
        return read_past(rt, lengths, h.calls, chunk);
    }
    calls(rt, s.filter, h, lengths, chunk, rooms)
}

// A stream in rooms of the lengths that are asked for.
fn in_lent(rt: HostRuntime, h: Asked, chunk: &mut [u8; INPUT], rooms: &mut Rooms) -> Option<()>
    requires { Fits h }
{
    let mut lengths = [0u8; 4 * CALLS];
    let n = h.calls;
    read_front(rt, &mut lengths, 4 * n)?;
    if !lengths_fit(&lengths, n, INPUT) {
        return None;
    }
    started(rt, h, &lengths, chunk, rooms)
}

// One case of case kind 0.
pub fn stream(rt: HostRuntime, chunk: &mut [u8; INPUT], rooms: &mut Rooms) -> Option<()> {
    let mut head = [0u8; 25];
    fill_all(rt, &mut head)?;
    if 15 < head[0] {
        return None;
    }
    let h = asked_at(&head, 1, 0, be32(&head, 19), be16(&head, 23));
    if !head_fits(h, WORK, BODIES, MAP_ROOM, OUTPUT) {
        return None;
    }
    in_lent(rt, h, chunk, rooms)
}
