// The program `unsound`: refusal 4, run. For each clause of 01's "Unsound", and for that of 02 [1], it hands a record that is unsound by
// this clause alone, and the nearest that is sound, to push and then to dropped, with the record that push handed back. It prints a line
// for each clause: its words, the two answers to the one record, the two to the other. `clauses` names them, `calls` runs them, `records`
// makes the records.
#![tactic(auto)]

mod calls;
mod clauses;
mod records;

use crate::calls::{Told, calls_with, start_in};
use crate::clauses::{CLAUSES, Clause};
use crate::records::{lent_with, total_sound};
use programs::pipe::{close_output, write_all};
use recorder::Filter;
use std::rt::HostRuntime;

// The longest of each room, and an output for the bytes held and the chunk.
const WORK: usize = 131079;

const BODIES: usize = 17;

const MAP_ROOM: usize = 32769;

const OUTPUT: usize = 4096;

#[derive(Drop)]
pub struct Rooms {
    pub work: [u8; WORK],
    pub bodies: [u8; BODIES],
    pub map_room: [u16; MAP_ROOM],
    pub out: [u8; OUTPUT],
}

// A number below ten as text.
fn digit(n: u8) -> u8 {
    48 + n % 10
}

// Words for what must not be: that a refused call changed anything, or that a call that was not refused did nothing.
fn faults(unsound: Told, sound: Told) -> &'static [u8] {
    if !unsound.same {
        return b", changed\n";
    }
    if sound.same {
        return b", nothing done\n";
    }
    b"\n"
}

// The answers to the two records.
fn put_told(rt: HostRuntime, unsound: Told, sound: Told) -> Option<()> {
    let numbers = [
        58,
        32,
        digit(unsound.push),
        32,
        digit(unsound.dropped),
        44,
        32,
        digit(sound.push),
        32,
        digit(sound.dropped),
    ];
    write_all(rt, &numbers)?;
    write_all(rt, faults(unsound, sound))
}

// A room of 16 MiB does not fit a stack, so of this clause the lengths alone are asked.
fn put_total(rt: HostRuntime, f: Filter) -> Option<()> {
    let n = Clause::TAbove.numbers();
    if total_sound(f, n.unsound) {
        return write_all(rt, b": sound\n");
    }
    if total_sound(f, n.sound) {
        return write_all(rt, b": unsound, sound\n");
    }
    write_all(rt, b": unsound, unsound\n")
}

// One clause and its line; none where a write failed.
fn one_clause(rt: HostRuntime, clause: Clause, f: Filter, rooms: &mut Rooms) -> Option<()> {
    write_all(rt, clause.words())?;
    if clause == Clause::TAbove {
        return put_total(rt, f);
    }
    let n = clause.numbers();
    let x = lent_with(f, clause, n.unsound);
    let unsound = calls_with(x, rooms);
    let y = lent_with(f, clause, n.sound);
    let sound = calls_with(y, rooms);
    put_told(rt, unsound, sound)
}

// All clauses in turn.
fn all_clauses(rt: HostRuntime, f: Filter, rooms: &mut Rooms) -> Option<()> {
    for clause in CLAUSES {
        one_clause(rt, clause, f, rooms)?;
    }
    Some(())
}

// A start, then all clauses with changes of its record.
fn started(rt: HostRuntime, rooms: &mut Rooms) -> Option<()> {
    let s = start_in(rooms);
    if s.answer.is_err() {
        return write_all(rt, b"the start is refused\n");
    }
    all_clauses(rt, s.filter, rooms)
}

fn main(rt: HostRuntime) {
    let mut rooms = Rooms {
        work: [0u8; WORK],
        bodies: [0u8; BODIES],
        map_room: [0u16; MAP_ROOM],
        out: [0u8; OUTPUT],
    };
    if started(rt, &mut rooms).is_some() {
        close_output(rt);
    }
}
