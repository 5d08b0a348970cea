// Answers to a batch of cases on standard input, in the format of docs/ARCHITECTURE.md: a stream (case kind 0, in `streams`), calls (case
// kind 4, in `calls`), or a narrowing (case kinds 1 to 3, and 7 to 9 with modes). No contract can say which bytes are read or written, so
// the promises stop at what is read from and written to the arrays here. A read or a write that fails ends the program; `programs.pipe`
// tells it.
#![tactic(auto)]

ghost use Rattle.std.specs.Prelude.{◌≡◌, ◌+◌, ◌≤◌, length};
ghost use Rattle.meaning.specs.Writing.{Wrote};
ghost use Rattle.meaning.specs.Narrow.{narrow_refusal};
ghost use Rattle.meaning.specs.Refusals.{narrowing_number, narrowing_length};
ghost use Rattle.narrowing.specs.Answers.{NarrowedAs};
ghost use Rattle.cases.specs.Answers.{changed_flag, three_bytes, row_bytes, front_bytes, head_bytes, kind_of, change_as, modes_of, head_at};

mod calls;
mod streams;

use crate::calls::calls;
use crate::streams::stream;
use meaning::{Modes, Narrowing, Options};
use narrowing::narrow::{Narrowed, narrow_packet, narrow_payload, narrow_table};
use octets::{be32, id16, put8, put32};
use programs::asked::{number_of, options_of};
use programs::pipe::{fill_all, write_all};
use std::rt::HostRuntime;

// The rooms: the longest chunk or narrowing input, the longest output, and the longest rooms of a stream's filter.
pub const INPUT: usize = 131200;

pub const OUTPUT: usize = 262400;

pub const WORK: usize = 131200;

pub const BODIES: usize = 1048576;

pub const MAP_ROOM: usize = 33000;

// The rooms beside that of a chunk: the filter's three, and the output.
// Stays: a chunk is lent by itself, since a check knows the lengths of four array fields behind a reference and not of a fifth.
#[derive(Drop)]
pub struct Rooms {
    pub work: [u8; WORK],
    pub bodies: [u8; BODIES],
    pub map_room: [u16; MAP_ROOM],
    pub out: [u8; OUTPUT],
}

// What is given to be narrowed.
#[derive(Clone, Copy)]
pub enum Given {
    Table,
    Payload,
    Packet,
}

// A case's kind: a stream, calls, or a narrowing, with no modes or with modes.
#[derive(Clone, Copy)]
pub enum CaseKind {
    Stream,
    Calls,
    Narrowing(Given),
    WithModes(Given),
}

impl TryFrom<u8> for CaseKind {
    type Error = u8;

    ghost try_from_gives = { λ number kind. kind ≡ kind_of number };

    #[tactic(auto, unfolding(crate::specs::Answers::kind_of))]
    fn try_from(number: u8) -> Result<Self, u8> {
        match number {
            0 => Ok(CaseKind::Stream),
            1 => Ok(CaseKind::Narrowing(Given::Table)),
            2 => Ok(CaseKind::Narrowing(Given::Payload)),
            3 => Ok(CaseKind::Narrowing(Given::Packet)),
            4 => Ok(CaseKind::Calls),
            7 => Ok(CaseKind::WithModes(Given::Table)),
            8 => Ok(CaseKind::WithModes(Given::Payload)),
            9 => Ok(CaseKind::WithModes(Given::Packet)),
            _ => Err(number),
        }
    }
}

// Stays: the format of the answers (docs/ARCHITECTURE.md) has a number, a flag and a length for each, and these three give them.
#[tactic(auto, unfolding(meaning::specs::Refusals::narrowing_number))]
fn refused_number(n: Narrowing) -> u8
    ensures { result ≡ narrowing_number n }
{
    match n {
        Err(r) => number_of(r),
        Ok(None) => 0,
        Ok(Some(_)) => 0,
    }
}

#[tactic(auto, unfolding(crate::specs::Answers::changed_flag))]
fn changed_flag(n: Narrowing) -> u8
    ensures { result ≡ changed_flag n }
{
    match n {
        Err(_) => 0,
        Ok(None) => 0,
        Ok(Some(_)) => 1,
    }
}

#[tactic(auto, unfolding(meaning::specs::Refusals::narrowing_length))]
fn changed_length(n: Narrowing) -> usize
    ensures { result ≡ narrowing_length n }
{
    match n {
        Err(_) => 0,
        Ok(None) => 0,
        Ok(Some(k)) => k,
    }
}

// Writes three numbers of 32 bits at `to`; answers the offset past them.
pub fn put_three(out: &mut [u8], to: usize, a: usize, b: usize, c: usize) -> usize
    requires { to + 12 ≤ length out.old }
    ensures { Wrote (three_bytes a b c) out.old to out.new result }
{
    let second = put32(out, to, a);
    let third = put32(out, second, b);
    put32(out, third, c)
}

// Writes three counts at `to`; answers the offset past them.
fn put_row(out: &mut [u8], to: usize, row: [u64; 3]) -> usize
    requires { to + 12 ≤ length out.old }
    ensures { Wrote (row_bytes row) out.old to out.new result }
{
    put_three(out, to, row[0] as usize, row[1] as usize, row[2] as usize)
}

// Writes the refusal's number, whether it is changed, and the length; answers the offset past them.
fn put_front(out: &mut [u8], n: Narrowing) -> usize
    requires { 6 ≤ length out.old }
    ensures { Wrote (front_bytes n) out.old 0 out.new result }
{
    let a = put8(out, 0, refused_number(n));
    let b = put8(out, a, changed_flag(n));
    put32(out, b, changed_length(n))
}

// Writes the head of an answer; answers the offset past it.
fn put_head(out: &mut [u8], r: Narrowed) -> usize
    requires { 30 ≤ length out.old }
    ensures { Wrote (head_bytes r.narrowing r.stayed r.went) out.old 0 out.new result }
{
    let n = r.narrowing;
    let a = put_front(out, n);
    let stayed = r.stayed;
    let b = put_row(out, a, stayed);
    let went = r.went;
    put_row(out, b, went)
}

// The head of an answer, and the bytes that were written; none where a write failed.
fn tell(rt: HostRuntime, r: Narrowed, out: &[u8]) -> Option<()>
    requires { narrowing_length r.narrowing ≤ length out.now }
{
    let mut head = [0u8; 30];
    put_head(&mut head, r);
    write_all(rt, &head)?;
    let n = r.narrowing;
    let len = changed_length(n);
    write_all(rt, &out[0..len])
}

// The answer to a narrowing.
fn narrow(given: Given, o: Options, modes: Modes, id: u16, input: &[u8], out: &mut [u8]) -> Narrowed
    ensures { NarrowedAs (narrow_refusal (length input.now) (length out.old)) (change_as given modes o id input.now) out.old out.new result.narrowing result.stayed result.went }
{
    match given {
        Given::Table => narrow_table(input, o, out),
        Given::Payload => narrow_payload(input, id, o, modes, out),
        Given::Packet => narrow_packet(input, o, modes, out),
    }
}

// The modes of a byte, one bit each.
pub fn modes_of(bits: u8) -> Modes
    ensures { result ≡ modes_of bits }
{
    Modes {
        plain_ip: bits % 2 == 1,
    }
}

// The head of a narrowing: service and wishes, the modes, the identifier, and the lengths of the output and of the input.
#[derive(Clone, Copy)]
pub struct Head {
    pub options: Options,
    pub modes: Modes,
    pub id: u16,
    pub out: usize,
    pub input: usize,
}

// A head whose service, identifier and lengths stand from `at` on, behind flags or wishes, with the modes of a byte.
fn head_at(head: &[u8], at: usize, modes: u8) -> Head
    requires { at + 12 ≤ length head.now }
    ensures { result ≡ head_at head.now at modes }
{
    Head {
        options: options_of(head[0], id16(head, at)),
        modes: modes_of(modes),
        id: id16(head, at + 2),
        out: be32(head, at + 4),
        input: be32(head, at + 8),
    }
}

// One narrowing: its input and the answer. None, here and below, where the program ends: no other case may follow.
fn one_narrowing(
    rt: HostRuntime,
    given: Given,
    h: Head,
    input: &mut [u8; INPUT],
    out: &mut [u8; OUTPUT],
) -> Option<()> {
    let lent = out.get_mut(0..h.out)?;
    let came = input.get_mut(0..h.input)?;
    fill_all(rt, came)?;
    let o = h.options;
    let m = h.modes;
    let r = narrow(given, o, m, h.id, came, lent);
    tell(rt, r, lent)
}

// A narrowing with no modes.
fn plain_case(
    rt: HostRuntime,
    given: Given,
    input: &mut [u8; INPUT],
    out: &mut [u8; OUTPUT],
) -> Option<()> {
    let mut head = [0u8; 13];
    fill_all(rt, &mut head)?;
    if 15 < head[0] {
        return None;
    }
    one_narrowing(rt, given, head_at(&head, 1, 0), input, out)
}

// A narrowing with the wishes of case kind 4 and a byte of modes, of which bit 0 has a meaning.
fn case_with_modes(
    rt: HostRuntime,
    given: Given,
    input: &mut [u8; INPUT],
    out: &mut [u8; OUTPUT],
) -> Option<()> {
    let mut head = [0u8; 14];
    fill_all(rt, &mut head)?;
    if 31 < head[0] {
        return None;
    }
    let modes = head[1];
    if 1 < modes {
        return None;
    }
    one_narrowing(rt, given, head_at(&head, 2, modes), input, out)
}

// One case.
fn one_case(rt: HostRuntime, input: &mut [u8; INPUT], rooms: &mut Rooms) -> Option<()> {
    let mut number = [0u8; 1];
    fill_all(rt, &mut number)?;
    match CaseKind::try_from(number[0]).ok()? {
        CaseKind::Stream => stream(rt, input, rooms),
        CaseKind::Calls => calls(rt, input, rooms),
        CaseKind::Narrowing(given) => plain_case(rt, given, input, &mut rooms.out),
        CaseKind::WithModes(given) => case_with_modes(rt, given, input, &mut rooms.out),
    }
}

// The cases in turn, in rooms that the caller lends: a loop beside large arrays of its own takes long to prove.
fn in_turn(rt: HostRuntime, input: &mut [u8; INPUT], rooms: &mut Rooms) {
    for _ in 0..u64::MAX {
        if one_case(rt, input, rooms).is_none() {
            return;
        }
    }
}

// Answers to all cases of the input.
pub fn answer_all(rt: HostRuntime) {
    let mut input = [0u8; INPUT];
    let mut rooms = Rooms {
        work: [0u8; WORK],
        bodies: [0u8; BODIES],
        map_room: [0u16; MAP_ROOM],
        out: [0u8; OUTPUT],
    };
    in_turn(rt, &mut input, &mut rooms);
}
