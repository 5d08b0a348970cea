// A record handed to push, and the record that push hands back to dropped: what both answer, and whether all is as it was before. Rooms
// and output are filled anew each time, so that a byte that was written shows.
use crate::Rooms;
use crate::records::{Lent, MAPS, T, W};
use meaning::{Counts, Modes, Options, Service};
use programs::asked::answer_number;
use recorder::{Filter, Started, start};

// The numbers of the two answers, and whether rooms, output and record are as they were and nothing was counted.
#[derive(Clone, Copy)]
pub struct Told {
    pub push: u8,
    pub dropped: u8,
    pub same: bool,
}

// What rooms and output are filled with.
const FILL: u8 = 85;

fn filled(xs: &[u8]) -> bool {
    xs.iter().all(|&x| x == FILL)
}

// The map room is zero from the start on: no packet here teaches a list.
fn zero(xs: &[u16]) -> bool {
    xs.iter().all(|&x| x == 0)
}

const NONE_COUNTED: Counts = Counts {
    bytes: 0,
    accepted: 0,
    written: 0,
    rewritten: 0,
    skipped: 0,
    lost: 0,
};

// Whether the two calls left the record as it was and counted nothing.
fn left(f: Filter, g: Filter, h: Filter, c: Counts, dropped: u32) -> bool {
    c == NONE_COUNTED && dropped == 0 && f == g && g == h
}

// The packet of 01's example 12 is pushed: a call that is not refused writes it.
fn both_calls(
    f: Filter,
    work: &mut [u8],
    bodies: &mut [u8],
    map_room: &mut [u16],
    out: &mut [u8],
) -> Told {
    let p = f.push(b"\x7F\xFF\x00\x01\xAA", work, bodies, map_room, out);
    let a = p.answer;
    let c = p.counts;
    let g = p.filter;
    let d = g.dropped(work, bodies, map_room);
    let b = d.answer;
    let h = d.filter;
    Told {
        push: answer_number(a),
        dropped: answer_number(b),
        same: left(f, g, h, c, d.count)
            && filled(work)
            && filled(bodies)
            && zero(map_room)
            && filled(out),
    }
}

// The calls with parts of the rooms, as long as goes with the record, once they are filled.
pub fn calls_with(x: Lent, rooms: &mut Rooms) -> Told {
    let Rooms {
        work,
        bodies,
        map_room,
        out,
    } = rooms;
    work.fill(FILL);
    bodies.fill(FILL);
    out.fill(FILL);
    let w = x.work.min(work.len());
    let t = x.total.min(bodies.len());
    let m = x.map_room.min(map_room.len());
    let f = x.filter;
    both_calls(
        f,
        &mut work[0..w],
        &mut bodies[0..t],
        &mut map_room[0..m],
        out,
    )
}

// A start with the rooms that most records go with; it wants all but captions, and has the mode on, which no refusal asks.
pub fn start_in(rooms: &Rooms) -> Started {
    let o = Options {
        service: Service::Every,
        caption: false,
        carousel: true,
        eit: true,
        other: true,
    };
    start(
        &rooms.work[0..W],
        &rooms.bodies[0..T],
        &rooms.map_room[0..MAPS],
        T,
        o,
        Modes { plain_ip: true },
    )
}
