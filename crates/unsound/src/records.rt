// The records: for each clause one that a number makes unsound by this clause alone, or sound. So the two records of a clause differ in
// this number only, by one where that is enough. Over the record of a start: W 4,096, so P is 2,048, T and M 16.
ghost use Rattle.std.specs.Prelude.{◌≤◌, length};

use crate::clauses::Clause;
use learning::Kept;
use learning::pairs::Pair;
use meaning::{Limits, Options, Service};
use recorder::Filter;
use recorder::sound::is_sound;
use std::array::from_fn;

// The start's W, its T, which is its M too, and the length of the map room.
pub const W: usize = 4096;

pub const T: usize = 16;

pub const MAPS: usize = 32768;

// A record, and the lengths of the rooms that are lent with it.
#[derive(Clone, Copy)]
pub struct Lent {
    pub filter: Filter,
    pub work: usize,
    pub total: usize,
    pub map_room: usize,
}

// ---- rooms and limits

fn in_rooms(filter: Filter, work: usize, total: usize, map_room: usize) -> Lent {
    Lent {
        filter,
        work,
        total,
        map_room,
    }
}

fn limited(f: Filter, work: usize, total: usize, most: usize) -> Filter {
    Filter {
        limits: Limits { work, total, most },
        ..f
    }
}

// Whether a record is sound with a fragment room of so many bytes, the start's.
pub fn total_sound(f: Filter, total: usize) -> bool {
    is_sound(limited(f, W, total, T), W, total, MAPS)
}

// ---- held bytes and wishes

fn holding(f: Filter, held_count: usize) -> Filter {
    Filter { held_count, ..f }
}

// All that is no asset, carousels, and captions and other assets by these wishes. With both it copies all.
fn wanting(f: Filter, caption: bool, other: bool) -> Filter {
    let options = Options {
        service: Service::Every,
        caption,
        carousel: true,
        eit: true,
        other,
    };
    Filter { options, ..f }
}

// ---- packages, maps, fragments

// Two numbers of 16 bits in one: service and identifier, or identifier and count.
fn pair(first: usize, second: usize) -> u32 {
    let packed = Pair {
        first: (first % 65536) as u16,
        second: (second % 65536) as u16,
    };
    packed.into()
}

// A fragment's identifier and length, its flags 0.
fn head(id: usize, length: usize) -> u64 {
    (id % 65536 * 281474976710656 + length % 65536) as u64
}

// So many packages, the first of them these.
// Stays: the three differ in the field that they fill, and a field cannot be a parameter.
fn with_packages(f: Filter, package_count: usize, first: &[u32]) -> Filter
    requires { length first.now ≤ 255 }
{
    let mut packages = [0u32; 255];
    packages[0..first.len()].copy_from_slice(first);
    Filter {
        package_count,
        kept: Kept { packages, ..f.kept },
        ..f
    }
}

fn with_maps(f: Filter, map_count: usize, first: &[u32]) -> Filter
    requires { length first.now ≤ 64 }
{
    let mut map_heads = [0u32; 64];
    map_heads[0..first.len()].copy_from_slice(first);
    Filter {
        map_count,
        kept: Kept {
            map_heads,
            ..f.kept
        },
        ..f
    }
}

fn with_fragments(f: Filter, fragment_count: usize, first: &[u64]) -> Filter
    requires { length first.now ≤ 256 }
{
    let mut fragment_heads = [0u64; 256];
    fragment_heads[0..first.len()].copy_from_slice(first);
    Filter {
        fragment_count,
        kept: Kept {
            fragment_heads,
            ..f.kept
        },
        ..f
    }
}

// So many packages, all slots used, their services rising from 1.
fn packages_of(f: Filter, n: usize) -> Filter {
    let all: [u32; 255] = from_fn(|i| pair(i % 65536 + 1, 0));
    with_packages(f, n, &all)
}

fn maps_of(f: Filter, n: usize) -> Filter {
    let all: [u32; 64] = from_fn(|i| pair(i % 65536 + 1, 0));
    with_maps(f, n, &all)
}

// The same of fragments, without a byte.
fn fragments_of(f: Filter, n: usize) -> Filter {
    let all: [u64; 256] = from_fn(|i| head(i % 65536 + 1, 0));
    with_fragments(f, n, &all)
}

// ---- by clause

// The record of a clause that is of the record alone: one map with so many assets; service 2, then this one, with a higher identifier; maps
// of identifiers 7, 9 and this one; fragments of identifiers 7, 9 and this one, a byte each; a fragment of 8 bytes, and one of so many.
fn changed(f: Filter, clause: Clause, n: usize) -> Filter {
    match clause {
        Clause::Held => holding(f, n),
        Clause::HeldInCopyAll => holding(wanting(f, true, true), n),
        Clause::Packages => packages_of(f, n),
        Clause::Fragments => fragments_of(f, n),
        Clause::Maps => maps_of(f, n),
        Clause::MapCount => with_maps(f, 1, &[pair(7, n)]),
        Clause::ServiceEqual | Clause::ServiceFalling => {
            with_packages(f, 2, &[pair(2, 7), pair(n, 9)])
        }
        Clause::MapTwice => with_maps(f, 3, &[pair(7, 1), pair(9, 1), pair(n, 1)]),
        Clause::FragmentTwice => with_fragments(f, 3, &[head(7, 1), head(9, 1), head(n, 1)]),
        Clause::FragmentLengths => with_fragments(f, 2, &[head(7, 8), head(9, n)]),
        _ => wanting(f, false, n != 0),
    }
}

// The record of a clause with its number, and the rooms for it. Of a room that is longer than the start's the lent length is the number, of
// one that is shorter the record's. Where T is the number, M is 1: the least that can be in range.
pub fn lent_with(f: Filter, clause: Clause, n: usize) -> Lent {
    match clause {
        Clause::WorkRoomLonger => in_rooms(f, n, T, MAPS),
        Clause::WorkRoomShorter => in_rooms(limited(f, n, T, T), W, T, MAPS),
        Clause::FragmentRoomLonger => in_rooms(f, W, n, MAPS),
        Clause::FragmentRoomShorter => in_rooms(limited(f, W, n, T), W, T, MAPS),
        Clause::MapRoomLonger | Clause::MapRoomShorter => in_rooms(f, W, T, n),
        Clause::WBelow | Clause::WAbove => in_rooms(limited(f, n, T, T), n, T, MAPS),
        Clause::TBelow | Clause::TAbove => in_rooms(limited(f, W, n, 1), W, n, MAPS),
        Clause::MBelow | Clause::MAboveT => in_rooms(limited(f, W, T, n), W, T, MAPS),
        _ => in_rooms(changed(f, clause, n), W, T, MAPS),
    }
}
