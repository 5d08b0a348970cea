// The body of a PLT with one service.
ghost use Rattle.std.specs.Prelude.{◌≡◌, ℕ, ◌+◌, ◌-◌, ◌*◌, ◌≤◌, ◌<◌, length, take, drop, get_or};
ghost use Rattle.meaning.specs.Writing.{Wrote};
ghost use Rattle.meaning.specs.Narrow.{plt_only};
ghost use Rattle.narrowing.specs.Bodies.{one_entry, PltBounds, PltIs};

use octets::{copy, put8, wide};
use tables::packages::package_at;

// What narrowing makes of a PLT's body: the entry that stays, and where the entries end.
#[derive(Clone, Copy)]
pub struct PltChange {
    pub start: usize,
    pub end: usize,
    pub past: usize,
}

// The last entry of the service stays.
pub fn plt_only(b: &[u8], service: u16) -> Option<PltChange>
    ensures { PltIs service b.now result }
{
    if b.len() == 0 {
        return None;
    }
    let mut past = 1;
    let mut stays = None;
    for _ in 0..wide(b[0]) {
        let start = past;
        let package = package_at(b, start)?;
        past = package.end;
        if package.name == Some(service) {
            stays = Some((start, past));
        }
    }
    let (start, end) = stays?;
    Some(PltChange { start, end, past })
}

// The new body, written at `to`.
pub fn plt_to(b: &[u8], change: PltChange, out: &mut [u8], to: usize) -> usize
    requires { PltBounds b.now change × (to + length b.now ≤ length out.old) }
    ensures { Wrote (one_entry b.now change) out.old to out.new result }
{
    let c = put8(out, to, 1);
    let d = copy(&b[change.start..change.end], out, c);
    copy(&b[change.past..], out, d)
}
