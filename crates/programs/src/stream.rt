// A whole input: 01, the paragraph after the examples. Standard input has a flag byte, a service and a stream; the filtered stream is
// written, or a line of sums, or the line of a refusal. No contract can say which bytes are read or written. All else is promised:
// whatever was read, sums, record, rooms and last line are the definition's for it. A read or a write that fails ends the program: then
// nothing is answered.
ghost use Rattle.std.specs.Prelude.{◌≡◌, ◌≤◌, true, List, length, take, replicate, Some};
ghost use Rattle.meaning.specs.Bytes.{Bytes};
ghost use Rattle.meaning.specs.Wishes.{wants_assets};
ghost use Rattle.meaning.specs.Refusals.{answer_number};
ghost use Rattle.meaning.specs.Calls.{counts_of};
ghost use Rattle.recorder.specs.Filter.{record_in};
ghost use Rattle.programs.specs.Pipe.{came_of};
ghost use Rattle.programs.specs.Stream.{first_of, to_write, RoomsLong, TakenAs, standing_if, WrittenAs, NextAs, goes_on, Goes, begun_as, ComeIn, Left, ending_of, unasked_as, Ran, HeadedAs, HeadIn, RanBy, Told};

use crate::asked::asked_of;
use crate::lines::{Ending, Writes, put_last};
use crate::pipe::{fill, write_all, write_last};
use meaning::{Answer, Counts, Modes, Options, Refusal};
use recorder::{Filter, Started, start};
use std::rt::HostRuntime;
use tally::{sum_of, tally_answer};

// The chunks, and the lengths of the rooms: W, T and M alike.
const CHUNK: usize = 32768;

const ROOM: usize = 65536;

const MAP_ROOM: usize = 32768;

// The longest line, that of the sums.
const LINE: usize = 170;

// The rooms that a program lends beside a chunk: the filter's three, and the output of a call.
// Stays: a chunk is lent by itself, since a check knows the lengths of four array fields behind a reference and not of a fifth.
#[derive(Drop)]
pub struct Rooms {
    pub work: [u8; ROOM],
    pub bodies: [u8; ROOM],
    pub map_room: [u16; MAP_ROOM],
    pub out: [u8; ROOM],
}

// ---- one chunk

// How far a stream has come: what was answered last, how many bytes the last call wrote, the sums, and the record to go on with.
// Stays: a refusal ends the stream, yet `Come` says what record there is then and `TakenAs` what sums, so that all stand beside the answer.
#[derive(Clone, Copy)]
pub struct Standing {
    pub answer: Answer,
    pub bytes: usize,
    pub sums: Counts,
    pub filter: Filter,
}

// The first refusal of two answers.
#[tactic(auto, unfolding(meaning::specs::Refusals::answer_number))]
fn first_of(a: Answer, b: Answer) -> Answer
    ensures { answer_number result ≡ first_of (answer_number a) (answer_number b) }
{
    a.and(b)
}

// One chunk, without writing what goes on: the call, and its counts added. A refused call has none. What stands is lent: the record is
// large, and each step by value would copy it.
fn take_in(x: &mut Standing, chunk: &[u8], rooms: &mut Rooms)
    ensures taken { TakenAs (record_in x.old.filter) x.old.sums chunk.now rooms.old x.new rooms.new }
    ensures long { RoomsLong rooms.new }
{
    let Rooms {
        work,
        bodies,
        map_room,
        out,
    } = rooms;
    let p = x.filter.push(chunk, work, bodies, map_room, out);
    let c = p.counts;
    x.answer = first_of(p.answer, tally_answer(x.sums, c));
    x.bytes = c.bytes;
    x.sums = sum_of(x.sums, c);
    x.filter = p.filter;
}

// Writes the bytes where that is asked for.
fn write_out(rt: HostRuntime, writes: Writes, bytes: &[u8]) -> Option<()>
    ensures { to_write writes (length bytes.now) ≡ 0 → result ≡ Some tt }
{
    match writes {
        Writes::Stream => write_all(rt, bytes),
        Writes::Sums => Some(()),
    }
}

// One chunk; what goes on is written where that is asked for. None where a write failed.
fn one_chunk(
    rt: HostRuntime,
    x: &mut Standing,
    writes: Writes,
    chunk: &[u8],
    rooms: &mut Rooms,
) -> Option<()>
    ensures written { WrittenAs writes (record_in x.old.filter) x.old.sums chunk.now rooms.old (standing_if result x.new) rooms.new }
    ensures long { RoomsLong rooms.new }
{
    take_in(x, chunk, rooms);
    let n = x.bytes;
    write_out(rt, writes, &rooms.out[0..n])
}

// ---- all chunks

// A stream by what was read: the bytes that came are the next chunk, and where none came it has ended. None where a read or a write
// failed.
fn next(
    rt: HostRuntime,
    x: &mut Standing,
    came: Option<usize>,
    writes: Writes,
    chunk: &[u8],
    rooms: &mut Rooms,
) -> Option<()>
    requires { came_of came ≤ length chunk.now }
    ensures next { NextAs writes x.old came chunk.now rooms.old (standing_if result x.new) rooms.new }
    ensures long { RoomsLong rooms.new }
{
    let n = came?;
    if n == 0 {
        return Some(());
    }
    one_chunk(rt, x, writes, &chunk[0..n], rooms)
}

// Whether bytes came and nothing was refused.
fn goes_on(x: Standing, came: Option<usize>) -> bool
    ensures { result ≡ goes_on x came }
{
    came.unwrap_or(0) != 0 && x.answer.is_ok()
}

// All chunks in turn, each with the record that the one before handed back. A refusal ends the program, and so does a failure.
fn pass(
    rt: HostRuntime,
    first: Standing,
    writes: Writes,
    chunk: &mut [u8; CHUNK],
    rooms: &mut Rooms,
) -> Option<Standing>
    requires { answer_number first.answer ≡ 0 }
    ensures { Goes first rooms.old result rooms.new }
{
    let mut x = first;
    for _ in 0..u64::MAX {
        let came = fill(rt, chunk);
        next(rt, &mut x, came, writes, chunk, rooms)?;
        if !goes_on(x, came) {
            return Some(x);
        }
    }
    Some(x)
}

fn no_counts() -> Counts
    ensures { result ≡ counts_of 0 }
{
    Counts {
        bytes: 0,
        accepted: 0,
        written: 0,
        rewritten: 0,
        skipped: 0,
        lost: 0,
    }
}

// A stream whose start is done.
fn begun(s: Started) -> Standing
    ensures { result ≡ begun_as s }
{
    let answer = s.answer;
    let filter = s.filter;
    Standing {
        answer,
        bytes: 0,
        sums: no_counts(),
        filter,
    }
}

// A start, which these rooms and wishes allow, then all chunks.
fn started(
    rt: HostRuntime,
    o: Options,
    modes: Modes,
    writes: Writes,
    chunk: &mut [u8; CHUNK],
    rooms: &mut Rooms,
) -> Option<Standing>
    requires { (wants_assets o ≡ true) × (rooms.old.map_room ≡ replicate 32768 0) }
    ensures { (cs : List Bytes) × ComeIn modes o cs result rooms.new }
{
    let s = start(&rooms.work, &rooms.bodies, &rooms.map_room, ROOM, o, modes);
    pass(rt, begun(s), writes, chunk, rooms)
}

// ---- an input

// What a stream leaves to be told.
fn ending(x: Standing) -> Ending
    ensures { result ≡ ending_of x }
{
    let answer = x.answer;
    let sums = x.sums;
    let f = x.filter;
    Ending {
        answer,
        sums,
        held_count: f.held_count,
    }
}

// An input whose head is refused.
fn unasked(refusal: Refusal) -> Ending
    ensures { result ≡ unasked_as refusal }
{
    Ending {
        answer: Err(refusal),
        sums: no_counts(),
        held_count: 0,
    }
}

// An input with this head, then its stream.
fn headed(
    rt: HostRuntime,
    head: &[u8],
    writes: Writes,
    chunk: &mut [u8; CHUNK],
    rooms: &mut Rooms,
) -> Option<Ending>
    requires { (length head.now ≤ 3) × (rooms.old.map_room ≡ replicate 32768 0) }
    ensures { HeadedAs head.now rooms.old result rooms.new }
{
    match asked_of(head) {
        Err(refusal) => Some(unasked(refusal)),
        Ok(o) => {
            // No flag of an input turns a mode on.
            let modes = Modes { plain_ip: false };
            let x = started(rt, o, modes, writes, chunk, rooms)?;
            Some(ending(x))
        }
    }
}

// An input by what was read of its head.
fn by_head(
    rt: HostRuntime,
    came: Option<usize>,
    head: &[u8],
    writes: Writes,
    chunk: &mut [u8; CHUNK],
    rooms: &mut Rooms,
) -> Option<Ending>
    requires { HeadIn came head.now × (rooms.old.map_room ≡ replicate 32768 0) }
    ensures { RanBy came head.now rooms.old result rooms.new }
{
    let len = came?;
    headed(rt, &head[0..len], writes, chunk, rooms)
}

// An input, head and stream.
fn run(
    rt: HostRuntime,
    writes: Writes,
    chunk: &mut [u8; CHUNK],
    rooms: &mut Rooms,
) -> Option<Ending>
    requires { rooms.old.map_room ≡ replicate 32768 0 }
    ensures { (head : Bytes) × (cs : List Bytes) × Left (λ e. Ran head cs rooms.old e rooms.new) result }
{
    let mut head = [0u8; 3];
    let came = fill(rt, &mut head);
    by_head(rt, came, &head, writes, chunk, rooms)
}

// An input, and its last line; answers the line's length.
fn told(
    rt: HostRuntime,
    writes: Writes,
    chunk: &mut [u8; CHUNK],
    rooms: &mut Rooms,
    line: &mut [u8; LINE],
) -> Option<usize>
    requires { rooms.old.map_room ≡ replicate 32768 0 }
    ensures { Told writes rooms.old line.old result rooms.new line.new }
{
    let e = run(rt, writes, chunk, rooms)?;
    Some(put_last(Some(e), writes, line))
}

// A stream through a filter: it writes the filtered stream, or else a line of sums.
pub fn stream(rt: HostRuntime, writes: Writes) {
    let mut chunk = [0u8; CHUNK];
    let mut rooms = Rooms {
        work: [0u8; ROOM],
        bodies: [0u8; ROOM],
        map_room: [0u16; MAP_ROOM],
        out: [0u8; ROOM],
    };
    let mut line = [0u8; LINE];
    if let Some(n) = told(rt, writes, &mut chunk, &mut rooms, &mut line) {
        write_last(rt, &line[0..n]);
    }
}
