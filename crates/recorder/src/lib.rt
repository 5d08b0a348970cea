// The filter's record, what a recorder has between two calls beside the three lent rooms, and its calls: start, push, dropped. Rests on
// `call` for a push, on `soundness` for what is asked of rooms and record, on `rules` for the number of dropped identifiers.
#![tactic(auto)]

mod call;
mod front;
pub mod profiles;
mod slots;
pub mod sound;

ghost use Rattle.std.specs.Prelude.{◌≡◌, length};
ghost use Rattle.meaning.specs.Refusals.{number_of, answer_number};
ghost use Rattle.meaning.specs.Calls.{counts_of};
ghost use Rattle.meaning.specs.Start.{blank};
ghost use Rattle.soundness.specs.Parts.{limits_of};
ghost use Rattle.recorder.specs.Filter.{record_in, fresh_record, extent_of, begun_of, handed_of};
ghost use Rattle.recorder.specs.Slots.{cleared_in};
ghost use Rattle.recorder.specs.Calls.{StartedAs, PushedAs, DroppedAs};

use crate::call::{Begun, CarriedOut, Lengths, call_answer, carry_out};
use crate::front::counts_of;
use crate::slots::clear;
use crate::sound::is_sound;
use learning::{Extent, Kept, no_news};
use meaning::{Answer, Counts, Limits, Modes, Options, Refusal, Service};
use octets::IdSet;
use rules::dropped;
use soundness::{good_fragment_room, good_map_room, good_work_room, wants_assets};

// The record, as specs/Record.antt of `meaning` has it. In one that a start or a push that is not refused hands back, unused slots are zero;
// in one handed in they may hold anything (D9), and `dropped` leaves them as they are.
#[derive(Clone, Copy, PartialEq, Eq)]
pub struct Filter {
    // The start's.
    pub limits: Limits,
    pub modes: Modes,
    pub options: Options,
    // How many bytes are held, at the front of the work room.
    pub held_count: usize,
    // Whether a PLT was seen.
    // Stays: a flag and counts beside the arrays, as in the definition `Record`, which `record_in` makes of this; no heap, so no Vec.
    pub seen: bool,
    pub package_count: usize,
    pub map_count: usize,
    pub fragment_count: usize,
    // How many fragments lead: their bodies stand at the front of the fragment room, the others' at its end. Every number has a sense.
    pub leading: usize,
    // The arrays.
    pub kept: Kept,
}

// What a start answers, and the record to begin with; refused, one that can be used for nothing.
// Stays: `Refusing` of `demands` says of a refused start that its record is blank, so that one is handed back.
#[derive(Clone, Copy)]
pub struct Started {
    pub answer: Answer,
    pub filter: Filter,
}

// Nothing held and nothing known.
fn fresh(limits: Limits, options: Options, modes: Modes) -> Filter
    ensures { record_in result ≡ fresh_record limits modes options }
{
    Filter {
        limits,
        modes,
        options,
        held_count: 0,
        seen: false,
        package_count: 0,
        map_count: 0,
        fragment_count: 0,
        leading: 0,
        kept: Kept {
            data_set: IdSet::empty(),
            packages: [0; 255],
            map_heads: [0; 64],
            fragment_heads: [0; 256],
        },
    }
}

fn not_started(r: Refusal) -> Started
    ensures { (answer_number result.answer ≡ number_of r) × (record_in result.filter ≡ blank) }
{
    let o = Options {
        service: Service::Every,
        caption: false,
        carousel: false,
        eit: false,
        other: false,
    };
    let none = Limits {
        work: 0,
        total: 0,
        most: 0,
    };
    Started {
        answer: Err(r),
        filter: fresh(none, o, Modes { plain_ip: false }),
    }
}

// A recorder with these rooms. A middle or last that takes a message above `most` bytes discards it; a first is not asked.
pub fn start(
    work: &[u8],
    bodies: &[u8],
    map_room: &[u16],
    most: usize,
    options: Options,
    modes: Modes,
) -> Started
    ensures { StartedAs (limits_of (length work.now) (length bodies.now) most) modes options map_room.now result }
{
    if !good_work_room(work.len()) {
        return not_started(Refusal::WorkRoom);
    }
    if !good_fragment_room(bodies.len(), most) {
        return not_started(Refusal::FragmentRoom);
    }
    if !good_map_room(map_room.len()) {
        return not_started(Refusal::MapRoom);
    }
    if !wants_assets(options) {
        return not_started(Refusal::Wishes);
    }
    let limits = Limits {
        work: work.len(),
        total: bodies.len(),
        most,
    };
    Started {
        answer: Ok(()),
        filter: fresh(limits, options, modes),
    }
}

// What a push answers, its counts, and the record to go on with.
// Stays: 01 names this form, the record handed back beside the counts, and `Refusing` speaks of both where a push is refused.
#[derive(Clone, Copy)]
pub struct Pushed {
    pub answer: Answer,
    pub counts: Counts,
    pub filter: Filter,
}

// How many identifiers the rules drop, 0 where the record is refused, and the record, which is the one given.
// Stays: `Refusing.ask` says that the count is 0 where it is refused, and the record the one given.
#[derive(Clone, Copy)]
pub struct Dropped {
    pub answer: Answer,
    pub count: u32,
    pub filter: Filter,
}

// ---- a record taken apart

// How much is known as a call begins: no map is lost yet, and nothing is new.
fn extent_of(f: Filter) -> Extent
    ensures { result ≡ extent_of f }
{
    Extent {
        seen: f.seen,
        package_count: f.package_count,
        map_count: f.map_count,
        fragment_count: f.fragment_count,
        leading: f.leading,
        lost: 0,
        news: no_news(),
    }
}

fn begun(f: Filter) -> Begun
    ensures { result ≡ begun_of f }
{
    Begun {
        limits: f.limits,
        modes: f.modes,
        options: f.options,
        held_count: f.held_count,
        extent: extent_of(f),
    }
}

// Unused slots set to zero.
fn clear_unused(e: Extent, kept: &mut Kept)
    ensures { kept.new ≡ cleared_in e kept.old }
{
    clear(&mut kept.packages, e.package_count, 0);
    clear(&mut kept.map_heads, e.map_count, 0);
    clear(&mut kept.fragment_heads, e.fragment_count, 0);
}

// ---- and put together

// The record after a call.
fn handed(b: Begun, r: CarriedOut, kept: Kept) -> Filter
    ensures { result ≡ handed_of b r kept }
{
    let e = r.extent;
    Filter {
        limits: b.limits,
        modes: b.modes,
        options: b.options,
        held_count: r.held_count,
        seen: e.seen,
        package_count: e.package_count,
        map_count: e.map_count,
        fragment_count: e.fragment_count,
        leading: e.leading,
        kept,
    }
}

// What a push that was carried out answers.
fn hand_back(a: Answer, b: Begun, r: CarriedOut, kept: Kept) -> Pushed
    ensures { result ≡ record { answer = a; counts = r.counts; filter = handed_of b r kept } }
{
    Pushed {
        answer: a,
        counts: r.counts,
        filter: handed(b, r, kept),
    }
}

// Refused: nothing is counted, and the record is handed back as it came.
fn not_pushed(why: Answer, f: Filter) -> Pushed
    ensures { result ≡ record { answer = why; counts = counts_of 0; filter = f } }
{
    Pushed {
        answer: why,
        counts: counts_of(0),
        filter: f,
    }
}

impl Filter {
    // Takes in a chunk; what goes on is written to the output. The arrays change where they came to, and are put back once: they are large.
    pub fn push(
        mut self,
        chunk: &[u8],
        work: &mut [u8],
        bodies: &mut [u8],
        map_room: &mut [u16],
        out: &mut [u8],
    ) -> Pushed
        ensures { PushedAs (record_in self) work.old bodies.old map_room.old chunk.now out.old result work.new bodies.new map_room.new out.new }
    {
        let b = begun(self);
        let n = Lengths {
            work: work.len(),
            bodies: bodies.len(),
            map_room: map_room.len(),
            chunk: chunk.len(),
            out: out.len(),
        };
        let a = call_answer(b, &self.kept, n);
        if a.is_err() {
            return not_pushed(a, self);
        }
        clear_unused(b.extent, &mut self.kept);
        let r = carry_out(b, chunk, &mut self.kept, map_room, bodies, work, out);
        hand_back(a, b, r, self.kept)
    }

    // How many identifiers the present rules drop.
    pub fn dropped(self, work: &[u8], bodies: &[u8], map_room: &[u16]) -> Dropped
        ensures { DroppedAs (record_in self) work.now bodies.now map_room.now result }
    {
        if !is_sound(self, work.len(), bodies.len(), map_room.len()) {
            return Dropped {
                answer: Err(Refusal::Unsound),
                count: 0,
                filter: self,
            };
        }
        let e = extent_of(self);
        let mut kept = self.kept;
        clear_unused(e, &mut kept);
        Dropped {
            answer: Ok(()),
            count: dropped(self.options, e, &kept, map_room),
            filter: self,
        }
    }
}
