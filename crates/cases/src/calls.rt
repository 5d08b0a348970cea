// Cases of case kind 4: calls in general, each an operation on the record that the one before handed back. An operation is read when its
// turn comes, so that one that cannot be read ends the program after the answers before it. Rests on `streams` for a push and its answer.
ghost use Rattle.std.specs.Prelude.{◌≡◌, ◌≤◌, length, IfSome, Some};
ghost use Rattle.meaning.specs.Writing.{Wrote};
ghost use Rattle.cases.specs.Streams.{Fits};
ghost use Rattle.cases.specs.Calls.{lengths_of, NextFits, ReadAs, dropped_bytes};

use crate::streams::{Asked, asked_at, call_in, dropped_in, head_fits, read_front, start_in};
use crate::{BODIES, INPUT, MAP_ROOM, OUTPUT, Rooms, WORK};
use octets::{be16, be32, put8, put32};
use programs::asked::answer_number;
use programs::pipe::{fill_all, write_all};
use recorder::Filter;
use std::rt::HostRuntime;

// The lengths of the output and of the chunk of a push.
#[derive(Clone, Copy)]
pub struct Lengths {
    pub out: usize,
    pub chunk: usize,
}

// The next operation: a push, whose chunk stands at the front of the room for chunks, or the question how many identifiers are dropped.
#[derive(Clone, Copy)]
pub enum Next {
    Push(Lengths),
    Dropped,
}

fn lengths_of(s: &[u8; 8]) -> Lengths
    ensures { result ≡ lengths_of s.now }
{
    Lengths {
        out: be32(s, 0),
        chunk: be32(s, 4),
    }
}

// A push; none where it could not be read, or fits no room.
fn read_push(rt: HostRuntime, chunk: &mut [u8; INPUT]) -> Option<Next>
    ensures { IfSome result NextFits }
{
    let mut lengths = [0u8; 8];
    fill_all(rt, &mut lengths)?;
    let l = lengths_of(&lengths);
    if OUTPUT < l.out {
        return None;
    }
    if INPUT < l.chunk {
        return None;
    }
    read_front(rt, chunk, l.chunk)?;
    Some(Next::Push(l))
}

// The operation of a number; none where it could not be read, or there is none of its number.
fn next_of(rt: HostRuntime, number: u8, chunk: &mut [u8; INPUT]) -> Option<Next>
    ensures { ReadAs number result }
{
    match number {
        0 => read_push(rt, chunk),
        1 => Some(Next::Dropped),
        _ => None,
    }
}

fn read_next(rt: HostRuntime, chunk: &mut [u8; INPUT]) -> Option<Next>
    ensures { IfSome result NextFits }
{
    let mut operation = [0u8; 1];
    fill_all(rt, &mut operation)?;
    next_of(rt, operation[0], chunk)
}

// Writes the answer to the question how many identifiers are dropped; answers the offset past it.
fn put_dropped(out: &mut [u8], number: u8, count: usize) -> usize
    requires { 5 ≤ length out.old }
    ensures { Wrote (dropped_bytes number count) out.old 0 out.new result }
{
    let n = put8(out, 0, number);
    put32(out, n, count)
}

// How many identifiers are dropped now.
fn tell_dropped(rt: HostRuntime, f: Filter, h: Asked, rooms: &Rooms) -> Option<()>
    requires { Fits h }
{
    let d = dropped_in(f, h, rooms);
    let a = d.answer;
    let mut told = [0u8; 5];
    put_dropped(&mut told, answer_number(a), d.count as usize);
    write_all(rt, &told)
}

// The next operation, read and answered; hands back the record for the one behind it.
fn one_operation(
    rt: HostRuntime,
    f: Filter,
    h: Asked,
    chunk: &mut [u8; INPUT],
    rooms: &mut Rooms,
) -> Option<Filter>
    requires { Fits h }
{
    match read_next(rt, chunk)? {
        Next::Push(l) => call_in(rt, f, h, l.out, &chunk[0..l.chunk], rooms),
        Next::Dropped => {
            tell_dropped(rt, f, h, rooms)?;
            Some(f)
        }
    }
}

// The operations in turn; none where one could not be read or a write failed.
fn operations(
    rt: HostRuntime,
    first: Filter,
    h: Asked,
    chunk: &mut [u8; INPUT],
    rooms: &mut Rooms,
) -> Option<()>
    requires { Fits h }
{
    let mut f = first;
    for _ in 0..h.calls {
        f = one_operation(rt, f, h, chunk, rooms)?;
    }
    Some(())
}

// Reads past the operations of a run whose start was refused.
fn read_past(rt: HostRuntime, n: usize, chunk: &mut [u8; INPUT]) -> Option<()> {
    for _ in 0..n {
        read_next(rt, chunk)?;
    }
    Some(())
}

// The start and its answer, then the operations.
fn started(rt: HostRuntime, h: Asked, chunk: &mut [u8; INPUT], rooms: &mut Rooms) -> Option<()>
    requires { Fits h }
{
    let s = start_in(rt, h, rooms)?;
    if s.answer.is_err() {
        return read_past(rt, h.calls, chunk);
    }
    operations(rt, s.filter, h, chunk, rooms)
}

// One case of case kind 4.
pub fn calls(rt: HostRuntime, chunk: &mut [u8; INPUT], rooms: &mut Rooms) -> Option<()> {
    let mut head = [0u8; 22];
    fill_all(rt, &mut head)?;
    if 31 < head[0] {
        return None;
    }
    let modes = head[1];
    if 1 < modes {
        return None;
    }
    let h = asked_at(&head, 2, modes, 0, be16(&head, 20));
    if !head_fits(h, WORK, BODIES, MAP_ROOM, OUTPUT) {
        return None;
    }
    started(rt, h, chunk, rooms)
}
