// The front of a call's run: what is done by what stands there, and what is worked out before the first packet. Rests on `tlv` for the front,
// on `rules` for the rest.
ghost use Rattle.std.specs.Prelude.{◌≡◌, ◌&&◌, not, ◌++◌, ◌≤◌, length, take};
ghost use Rattle.meaning.specs.Sets.{Words, in_set};
ghost use Rattle.meaning.specs.Packets.{step_of};
ghost use Rattle.meaning.specs.Calls.{counts_of};
ghost use Rattle.meaning.specs.Learn.{Known};
ghost use Rattle.learning.specs.Kept.{Keeps};
ghost use Rattle.rules.specs.Changes.{SetIs};
ghost use Rattle.recorder.specs.Front.{front_by, DecidedAs};

use learning::{Extent, Kept};
use meaning::{Counts, Options, Step};
use octets::IdSet;
use passing::Progress;
use rules::{decide_on, ready};
use tlv::next_across;

// How many bytes of the chunk are put behind the held ones: as far as they complete the packet that those begin, all where they begin none.
// The rest of the chunk is read where it stands. None where no packet is whole yet: then all is held.
fn front_by(step: Step, held_count: usize, length: usize) -> Option<usize>
    ensures { result ≡ front_by step held_count length }
{
    match step {
        Step::Keep => None,
        Step::Skip => {
            if held_count == 0 {
                return Some(0);
            }
            Some(length)
        }
        Step::Packet(size) => {
            if held_count == 0 {
                return Some(0);
            }
            if size < held_count {
                return Some(length);
            }
            Some(size - held_count)
        }
    }
}

// By what stands at the front of the held bytes and the chunk.
pub fn front_of(held_count: usize, limit: usize, chunk: &[u8], work: &[u8]) -> Option<usize>
    requires { held_count ≤ length work.now }
    ensures { result ≡ front_by (step_of limit (take held_count work.now ++ chunk.now)) held_count (length chunk.now) }
{
    let step = next_across(&work[0..held_count], chunk, limit);
    front_by(step, held_count, chunk.len())
}

pub fn counts_of(bytes: usize) -> Counts
    ensures { result ≡ counts_of bytes }
{
    Counts {
        bytes,
        accepted: 0,
        written: 0,
        rewritten: 0,
        skipped: 0,
        lost: 0,
    }
}

// Before the first packet the drop set is worked out, from the set that the rules begin with.
pub fn decided(e: Extent, o: Options, kept: &Kept, map_room: &[u16], set: &mut IdSet) -> Progress
    requires { ((k : Known) × (ds : Words) × Keeps k e ds kept.now.packages kept.now.map_heads map_room.now) }
    ensures { (ds : Words) → SetIs (λ q. not o.carousel && in_set ds q) set.old.words → DecidedAs o e ds kept.now.packages kept.now.map_heads map_room.now set.new.words result }
{
    decide_on(o, e, kept, map_room, set);
    Progress {
        extent: e,
        counts: counts_of(0),
        ready: ready(o.service, e, kept),
    }
}
