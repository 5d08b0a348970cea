// What the head of an input, its first three bytes, asks for, and the number of what is answered. Over `input_refusal` and `input_options`
// of `meaning`, specs/Programs.antt, and `answer_number` of its specs/Refusals.antt.
ghost use Rattle.std.specs.Prelude.{◌≡◌, ◌/◌, ◌%◌, eqb};
ghost use Rattle.meaning.specs.Refusals.{number_of, answer_number};
ghost use Rattle.meaning.specs.Programs.{service_if, options_of};
ghost use Rattle.programs.specs.Asked.{asked_of};

use meaning::{Answer, Options, Refusal, Service};
use octets::id16;
use soundness::wants_assets;

fn service_of(flags: u8, service: u16) -> Service
    ensures { result ≡ service_if (flags / 8 % 2) service }
{
    if flags / 8 % 2 == 1 {
        return Service::Only(service);
    }
    Service::Every
}

// Bits 0 to 3 of the flags: caption, carousel, EIT, service named; bit 4 turns other assets off.
pub fn options_of(flags: u8, service: u16) -> Options
    ensures { result ≡ options_of flags service }
{
    Options {
        service: service_of(flags, service),
        caption: flags % 2 == 1,
        carousel: flags / 2 % 2 == 1,
        eit: flags / 4 % 2 == 1,
        other: flags / 16 % 2 != 1,
    }
}

// What a head asks for, or its refusal: it is too short, a flag is set that nothing is named by, or no start takes these wishes. A head, or
// any input: what comes behind the third byte does not matter.
pub fn asked_of(head: &[u8]) -> Result<Options, Refusal>
    ensures { result ≡ asked_of head.now }
{
    if head.len() < 3 {
        return Err(Refusal::Input);
    }
    if 31 < head[0] {
        return Err(Refusal::Input);
    }
    let o = options_of(head[0], id16(head, 1));
    if !wants_assets(o) {
        return Err(Refusal::Wishes);
    }
    Ok(o)
}

// The number of a refusal.
// Stays: `From<Refusal> for u8` is refused here (`orphan-impl`); it would stand in `meaning`, which has no code that runs.
#[tactic(auto, unfolding(meaning::specs::Refusals::number_of))]
pub fn number_of(r: Refusal) -> u8
    ensures { result ≡ number_of r }
{
    match r {
        Refusal::WorkRoom => 1,
        Refusal::FragmentRoom => 2,
        Refusal::MapRoom => 3,
        Refusal::Unsound => 4,
        Refusal::Long => 5,
        Refusal::Short => 6,
        Refusal::Tally => 7,
        Refusal::Input => 8,
        Refusal::Wishes => 9,
    }
}

// The number of an answer, 0 where it is no refusal.
// Stays: 01 gives the numbers, and the programs write them.
#[tactic(auto, unfolding(meaning::specs::Refusals::answer_number))]
pub fn answer_number(a: Answer) -> u8
    ensures { result ≡ answer_number a }
{
    match a {
        Ok(()) => 0,
        Err(r) => number_of(r),
    }
}
