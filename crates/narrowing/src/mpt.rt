// The body of an MPT without the entries that are not wanted.
ghost use Rattle.std.specs.Prelude.{◌≡◌, ℕ, ◌+◌, ◌-◌, ◌*◌, ◌≤◌, ◌<◌, length, take, drop, get_or};
ghost use Rattle.meaning.specs.Writing.{Wrote};
ghost use Rattle.meaning.specs.Readers.{many};
ghost use Rattle.meaning.specs.Tables.{entry};
ghost use Rattle.meaning.specs.Wishes.{wanted};
ghost use Rattle.meaning.specs.Narrow.{mpt_without};
ghost use Rattle.std.proofs.Math.Option;
ghost use Rattle.std.proofs.Math.Option.{IsSome};
ghost use Rattle.narrowing.specs.Bodies.{kept_bytes, WalkIs, MptLess, MptIs};

use meaning::{Options, Part};
use octets::{copy, put8, wide};
use tables::assets::{asset_at, mpt_front};

// The entries of a body: where they end, how many are wanted, and how many bytes those are.
#[derive(Clone, Copy)]
pub struct EntryWalk {
    pub end: usize,
    pub kept: usize,
    pub size: usize,
}

// What narrowing makes of an MPT's body: where its count is, where its entries end, how many stay and how many bytes they are.
#[derive(Clone, Copy)]
pub struct MptChange {
    pub front: usize,
    pub end: usize,
    pub kept: usize,
    pub size: usize,
}

// Stays: `rules` asks the same. A crate under both would be `meaning`, which holds data and no code, so that its definitions are tried by themselves.
pub fn wanted(o: Options, part: Part) -> bool
    ensures { result ≡ wanted o part }
{
    match part {
        Part::Caption => o.caption,
        Part::Carousel => o.carousel,
        Part::Other => o.other,
    }
}

// `count` entries at `at`.
pub fn entries(b: &[u8], at: usize, count: usize, o: Options) -> Option<EntryWalk>
    requires { (at ≤ length b.now) × (count < 256) }
    ensures { WalkIs o b.now at count result }
{
    let mut end = at;
    let mut kept = 0;
    let mut size = 0;
    for _ in 0..count {
        let start = end;
        let asset = asset_at(b, start)?;
        end = asset.end;
        if wanted(o, asset.part) {
            kept += 1;
            size += end - start;
        }
    }
    Some(EntryWalk { end, kept, size })
}

// The wanted ones of `count` entries, written at `to`: each row of them, from `row` on, in one copy.
fn entries_to(b: &[u8], at: usize, count: usize, o: Options, out: &mut [u8], to: usize) -> usize
    requires { (at ≤ length b.now) × IsSome (many count entry (drop at b.now)) × (to + length (kept_bytes o (many count entry (drop at b.now))) ≤ length out.old) }
    ensures { Wrote (kept_bytes o (many count entry (drop at b.now))) out.old to out.new result }
{
    let mut from = at;
    let mut put = to;
    let mut row = at;
    for _ in 0..count {
        let start = from;
        let Some(asset) = asset_at(b, start) else {
            return put;
        };
        from = asset.end;
        if !wanted(o, asset.part) {
            put = copy(&b[row..start], out, put);
            row = from;
        }
    }
    copy(&b[row..from], out, put)
}

// What narrowing makes of an MPT's body.
pub fn mpt_without(b: &[u8], o: Options) -> Option<MptChange>
    ensures { MptIs o b.now result }
{
    let front = mpt_front(b)?;
    if b.len() <= front {
        return None;
    }
    let count = wide(b[front]);
    let walk = entries(b, front + 1, count, o)?;
    if walk.kept == count {
        return None;
    }
    Some(MptChange {
        front,
        end: walk.end,
        kept: walk.kept,
        size: walk.size,
    })
}

// The new body, written at `to`.
pub fn mpt_to(b: &[u8], change: MptChange, o: Options, out: &mut [u8], to: usize) -> usize
    requires { ((size : ℕ) × MptLess o b.now (record change { size = size })) × (to + length b.now ≤ length out.old) }
    ensures { Wrote (Option.get_or (mpt_without o b.now) b.now) out.old to out.new result }
{
    let front = change.front;
    let c = copy(&b[0..front], out, to);
    let d = put8(out, c, (change.kept % 256) as u8);
    let e = entries_to(b, front + 1, wide(b[front]), o, out, d);
    copy(&b[change.end..], out, e)
}
