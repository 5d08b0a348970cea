// Where bodies stand in the room, by numbers, and how they move: the free bytes go elsewhere, or all bodies but one are packed at the front.
// Rests on the moves of `octets`.
ghost use Rattle.std.specs.Prelude.{◌≡◌, ◌+◌, ◌-◌, ◌≤◌, ◌<◌, ◌&&◌, length, leb, ltb};
ghost use Rattle.fragments.specs.Room.{FreeMoved, Packed};

use octets::{move_down, move_up};

// So many fragments that lead, and the bytes of their bodies: the free bytes stand behind these.
#[derive(Clone, Copy)]
pub struct Leading {
    pub count: usize,
    pub bytes: usize,
}

// The free bytes, behind those that lead, go behind those that lead `to`: what stands between goes to their other side.
pub fn move_free(from: Leading, to: Leading, all: usize, bodies: &mut [u8])
    requires { (from.count < to.count → from.bytes ≤ to.bytes) × (to.count ≤ from.count → to.bytes ≤ from.bytes) × (from.bytes ≤ all) × (to.bytes ≤ all) × (all ≤ length bodies.old) }
    ensures { FreeMoved from.count to.count from.bytes to.bytes all bodies.old bodies.new }
{
    if from.count < to.count {
        move_down(
            bodies,
            bodies.len() - (all - from.bytes),
            to.bytes - from.bytes,
            from.bytes,
        );
        return;
    }
    move_up(
        bodies,
        to.bytes,
        from.bytes - to.bytes,
        bodies.len() - (all - to.bytes),
    );
}

// Where the fragment at `index` stands, and where the free bytes do, behind those that lead. Counted as if none were free, it has `own` bytes
// from `start` on; all fragments have `all` bytes.
// Stays: `index` is the count where there is no fragment: a first stands there, and `place_of`, `pack` and `first_fits` would unwrap an Option to that.
#[derive(Clone, Copy)]
pub struct Place {
    pub index: usize,
    pub start: usize,
    pub own: usize,
    pub leading: Leading,
    pub all: usize,
    ghost own_within: { start + own ≤ all },
    ghost leading_within: { leading.bytes ≤ all },
    ghost led: { index < leading.count → start + own ≤ leading.bytes },
    ghost behind: { leading.count ≤ index → leading.bytes ≤ start },
}

impl Place {
    // Packs all bodies at the front but the one of this place: first what stands between it and the free bytes goes down, then what stands
    // behind both. Were it given up before, what leads behind it would go up, and then down again.
    pub fn pack(self, bodies: &mut [u8])
        requires { self.all ≤ length bodies.old }
        ensures { Packed self.index self.leading.count self.start (self.start + self.own) self.leading.bytes self.all bodies.old bodies.new }
    {
        let total = bodies.len();
        let start = self.start;
        let end = start + self.own;
        let free = self.leading.bytes;
        let all = self.all;
        if self.index < self.leading.count {
            move_down(bodies, end, free - end, start);
            move_down(bodies, total - (all - free), all - free, free - self.own);
            return;
        }
        move_down(bodies, total - (all - free), start - free, free);
        move_down(bodies, total - (all - end), all - end, start);
    }

    // Whether a first of `m` bytes can be held in the place of this one: there is a free slot, or its own, and room beside the others.
    pub fn first_fits(self, m: usize, total: usize) -> bool
        requires { self.all ≤ total }
        ensures { result ≡ (ltb self.index 256 && leb (self.all - self.own + m) total) }
    {
        self.index < 256 && m <= total - (self.all - self.own)
    }

    // Whether `m` bytes more keep this fragment within `most`, and all fragments within `total`.
    pub fn fits(self, m: usize, most: usize, total: usize) -> bool
        requires { self.all ≤ total }
        ensures { result ≡ (leb (self.own + m) most && leb (self.all + m) total) }
    {
        m <= most && self.own <= most - m && m <= total - self.all
    }
}
