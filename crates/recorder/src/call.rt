// A call that is not refused: in copy-all the chunk is copied, else held bytes and chunk are one run, and its packets are passed: those that
// the held bytes begin in the work room, all others where they stand in the chunk. Rests on `front` and on `passing`.
ghost use Rattle.std.specs.Prelude.{◌≡◌, ◌+◌, ◌≤◌, true, cond, length};
ghost use Rattle.meaning.specs.Writing.{Wrote};
ghost use Rattle.meaning.specs.Wishes.{copies_all};
ghost use Rattle.meaning.specs.Rooms.{packet_limit};
ghost use Rattle.meaning.specs.Refusals.{answer_number};
ghost use Rattle.meaning.specs.Calls.{counts_of};
ghost use Rattle.meaning.specs.Leading.{leading_pushed};
ghost use Rattle.meaning.specs.Push.{push, length_refusal};
ghost use Rattle.observing.specs.Observed.{HoldingSome};
ghost use Rattle.soundness.specs.Parts.{parts_sound};
ghost use Rattle.recorder.specs.Front.{PartsPassed, ended_of, HeldOn};
ghost use Rattle.recorder.specs.Calls.{RoomFor, CarriesOut};

use crate::front::{counts_of, decided, front_of};
use learning::{Extent, Kept};
use meaning::{Answer, Counts, Limits, Modes, Options, Refusal};
use octets::{copy, move_down};
use passing::{Progress, Terms, packets};
use rules::first_drops;
use soundness::{copies_all, packet_limit, parts_sound};

// What a call leaves beside the arrays.
#[derive(Clone, Copy)]
pub struct CarriedOut {
    pub extent: Extent,
    pub counts: Counts,
    pub held_count: usize,
}

// The lost maps of the call go to its counts.
fn ended(p: Progress, held_count: usize) -> CarriedOut
    ensures { result ≡ ended_of p held_count }
{
    CarriedOut {
        extent: p.extent,
        counts: Counts {
            lost: p.extent.lost,
            ..p.counts
        },
        held_count,
    }
}

// ---- the packets of held bytes and chunk

// No packet is whole yet: all is held, and nothing is worked out.
fn all_held(held_count: usize, chunk: &[u8], e: Extent, work: &mut [u8]) -> CarriedOut
    requires { held_count + length chunk.now ≤ length work.old }
    ensures { (result ≡ record { extent = e; counts = counts_of 0; held_count = held_count + length chunk.now }) × Wrote chunk.now work.old held_count work.new (held_count + length chunk.now) }
{
    let n = copy(chunk, work, held_count);
    CarriedOut {
        extent: e,
        counts: counts_of(0),
        held_count: n,
    }
}

// How far a run in two parts was taken in, and where the bytes to keep begin in each.
#[derive(Clone, Copy)]
pub struct InParts {
    pub progress: Progress,
    pub first_at: usize,
    pub second_at: usize,
}

// The packets of a run in two parts, each where it stands.
fn in_parts(
    first: &[u8],
    second: &[u8],
    e: Extent,
    t: Terms,
    kept: &mut Kept,
    map_room: &mut [u16],
    bodies: &mut [u8],
    out: &mut [u8],
) -> InParts
    requires { (e.lost ≡ 0) × (length first.now + length second.now ≤ 131078) × (length first.now + length second.now ≤ length out.old) × HoldingSome e kept.old map_room.old bodies.old }
    ensures { PartsPassed first.now second.now t e kept.old map_room.old bodies.old out.old result kept.new map_room.new bodies.new out.new }
{
    let o = t.options;
    let mut set = first_drops(o, &kept.data_set);
    let s = decided(e, o, kept, map_room, &mut set);
    let x = packets(first, s, t, kept, map_room, bodies, &mut set, out);
    let y = packets(second, x.progress, t, kept, map_room, bodies, &mut set, out);
    InParts {
        progress: y.progress,
        first_at: x.at,
        second_at: y.at,
    }
}

// What is left of both parts is held: of the first `n` bytes of the work room, then of `rest`.
fn held_on(x: InParts, n: usize, rest: &[u8], work: &mut [u8]) -> CarriedOut
    requires { (x.first_at ≤ n) × (n + length rest.now ≤ length work.old) × (x.second_at ≤ length rest.now) }
    ensures { HeldOn x n rest.now work.old result work.new }
{
    let left = n - x.first_at;
    move_down(work, x.first_at, left, 0);
    let at = x.second_at;
    let held_count = copy(&rest[at..], work, left);
    ended(x.progress, held_count)
}

// ---- a call

fn copied(chunk: &[u8], e: Extent, out: &mut [u8]) -> CarriedOut
    requires { length chunk.now ≤ length out.old }
    ensures { (result ≡ record { extent = e; counts = counts_of (length chunk.now); held_count = 0 }) × Wrote chunk.now out.old 0 out.new (length chunk.now) }
{
    let n = copy(chunk, out, 0);
    CarriedOut {
        extent: e,
        counts: counts_of(n),
        held_count: 0,
    }
}

// What a call begins with beside the arrays: its record's limits, modes and wishes, how many bytes are held, and how much is known.
#[derive(Clone, Copy)]
pub struct Begun {
    pub limits: Limits,
    pub modes: Modes,
    pub options: Options,
    pub held_count: usize,
    pub extent: Extent,
}

fn terms_of(b: Begun, work: usize) -> Terms
    ensures { result ≡ record { modes = b.modes; options = b.options; limit = packet_limit work; most = b.limits.most } }
{
    Terms {
        modes: b.modes,
        options: b.options,
        limit: packet_limit(work),
        most: b.limits.most,
    }
}

// A call that is not refused.
pub fn carry_out(
    b: Begun,
    chunk: &[u8],
    kept: &mut Kept,
    map_room: &mut [u16],
    bodies: &mut [u8],
    work: &mut [u8],
    out: &mut [u8],
) -> CarriedOut
    requires { RoomFor b.extent b.held_count chunk.now work.old out.old × (copies_all b.options ≡ true → b.held_count ≡ 0) × HoldingSome b.extent kept.old map_room.old bodies.old }
    ensures { CarriesOut (λ L st. push L b.modes b.options st chunk.now) (λ L st. leading_pushed L b.options st chunk.now) b.limits.most b.held_count b.extent kept.old map_room.old bodies.old work.old out.old result kept.new map_room.new bodies.new work.new out.new }
{
    let o = b.options;
    let e = b.extent;
    if copies_all(o) {
        return copied(chunk, e, out);
    }
    let t = terms_of(b, work.len());
    let Some(k) = front_of(b.held_count, t.limit, chunk, work) else {
        return all_held(b.held_count, chunk, e, work);
    };
    let n = copy(&chunk[0..k], work, b.held_count);
    let x = in_parts(&work[0..n], &chunk[k..], e, t, kept, map_room, bodies, out);
    held_on(x, n, &chunk[k..], work)
}

// ---- its answer

// The lengths of what a call is lent.
#[derive(Clone, Copy)]
pub struct Lengths {
    pub work: usize,
    pub bodies: usize,
    pub map_room: usize,
    pub chunk: usize,
    pub out: usize,
}

// Why a call is refused: its record, then the chunk's length, then the output's.
pub fn call_answer(b: Begun, kept: &Kept, n: Lengths) -> Answer
    ensures { answer_number result ≡ cond (parts_sound b.limits b.options b.held_count b.extent kept.now.packages kept.now.map_heads kept.now.fragment_heads n.work n.bodies n.map_room) (length_refusal n.work b.held_count n.chunk n.out) 4 }
{
    let w = n.work;
    if !parts_sound(
        b.limits,
        b.options,
        b.held_count,
        b.extent,
        kept,
        w,
        n.bodies,
        n.map_room,
    ) {
        return Err(Refusal::Unsound);
    }
    if w - packet_limit(w) < n.chunk {
        return Err(Refusal::Long);
    }
    if n.out < b.held_count + n.chunk {
        return Err(Refusal::Short);
    }
    Ok(())
}
