// The day tally: counts that the caller lends and that gain each call's counts. Where a sum would not fit, the call is
// refused and the tally stays as it was. Over `tally_refusal` and `tallied` of `meaning`, specs/Tally.antt.
#![tactic(auto)]

ghost use Rattle.std.specs.Prelude.{◌≡◌, true, false, MatchOption};
ghost use Rattle.meaning.specs.Refusals.{answer_number};
ghost use Rattle.meaning.specs.Tally.{add_counts, fits64, tally_refusal, tallied};
ghost use Rattle.tally.specs.Answers.{TalliedAs};

use meaning::{Answer, Counts, Refusal};

// Both counts together, if all six sums fit a count.
fn added(t: Counts, c: Counts) -> Option<Counts>
    ensures { MatchOption result (fits64 (add_counts t c) ≡ false) (λ s. (fits64 (add_counts t c) ≡ true) × (s ≡ add_counts t c)) }
{
    Some(Counts {
        bytes: t.bytes.checked_add(c.bytes)?,
        accepted: t.accepted.checked_add(c.accepted)?,
        written: t.written.checked_add(c.written)?,
        rewritten: t.rewritten.checked_add(c.rewritten)?,
        skipped: t.skipped.checked_add(c.skipped)?,
        lost: t.lost.checked_add(c.lost)?,
    })
}

// What a call of the tally answers.
pub fn tally_answer(t: Counts, c: Counts) -> Answer
    ensures { answer_number result ≡ tally_refusal t c }
{
    match added(t, c) {
        Some(_) => Ok(()),
        None => Err(Refusal::Tally),
    }
}

// The tally after a call, by value.
pub fn sum_of(t: Counts, c: Counts) -> Counts
    ensures { result ≡ tallied t c }
{
    added(t, c).unwrap_or(t)
}

// The lent tally gains the counts; refused, it stays as it was.
pub fn tally(t: &mut Counts, c: Counts) -> Answer
    ensures { TalliedAs t.old c t.new result }
{
    let answer = tally_answer(*t, c);
    *t = sum_of(*t, c);
    answer
}
