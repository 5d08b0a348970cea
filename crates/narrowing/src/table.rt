// A table as narrowing leaves it, by its number and the packet identifier that it came on.
ghost use Rattle.std.specs.Prelude.{◌≡◌, ℕ, ◌+◌, ◌-◌, ◌*◌, ◌≤◌, ◌<◌, length, take, drop, get_or};
ghost use Rattle.meaning.specs.Bytes.{Bytes};
ghost use Rattle.meaning.specs.Writing.{Wrote};
ghost use Rattle.meaning.specs.Narrow.{mpt_without, plt_for, new_body};
ghost use Rattle.std.proofs.Math.Option as CoreOption;
ghost use Rattle.std.proofs.Math.Option.{Option};
ghost use Rattle.meaning.specs.declared.Options.{Options};
ghost use Rattle.narrowing.specs.Tables.{ChangeIs, TableChangeIs, is_change, Exact, after_table};

use crate::mpt::{MptChange, mpt_to, mpt_without};
use crate::plt::{PltChange, plt_only, plt_to};
use meaning::{Options, Service};
use octets::{copy, put16};
use tables::pa::is_mpt;

// What narrowing makes of a table's body.
#[derive(Clone, Copy)]
pub enum BodyChange {
    Mpt(MptChange),
    Plt(PltChange),
    Same,
}

fn of_mpt(b: &[u8], o: Options) -> BodyChange
    ensures { ChangeIs (mpt_without o b.now) o b.now result }
{
    match mpt_without(b, o) {
        Some(less) => BodyChange::Mpt(less),
        None => BodyChange::Same,
    }
}

fn of_plt(b: &[u8], service: Service) -> BodyChange
    ensures { (o : Options) → ChangeIs (plt_for service b.now) o b.now result }
{
    let Service::Only(n) = service else {
        return BodyChange::Same;
    };
    match plt_only(b, n) {
        Some(one) => BodyChange::Plt(one),
        None => BodyChange::Same,
    }
}

// What narrowing makes of the body `b` of table `number` on identifier `pid`.
pub fn change_of(b: &[u8], number: u8, pid: u16, o: Options) -> BodyChange
    ensures { ChangeIs (new_body o pid number b.now) o b.now result }
{
    if is_mpt(number) {
        return of_mpt(b, o);
    }
    if number != 0x80 {
        return BodyChange::Same;
    }
    if pid != 0 {
        return BodyChange::Same;
    }
    of_plt(b, o.service)
}

// How many bytes the new body has.
pub fn length_after(b: &[u8], change: BodyChange) -> usize
    requires { (n : Option Bytes) × (o : Options) × ChangeIs n o b.now change }
    ensures { (n : Option Bytes) (o : Options) → ChangeIs n o b.now change → result ≡ length (CoreOption.get_or n b.now) }
{
    match change {
        BodyChange::Mpt(less) => less.front + 1 + less.size + (b.len() - less.end),
        BodyChange::Plt(one) => 1 + (one.end - one.start) + (b.len() - one.past),
        BodyChange::Same => b.len(),
    }
}

pub fn changes(change: BodyChange) -> bool
    ensures { result ≡ is_change change }
{
    match change {
        BodyChange::Mpt(_) => true,
        BodyChange::Plt(_) => true,
        BodyChange::Same => false,
    }
}

// The new body, written at `to`.
fn body_to(b: &[u8], change: BodyChange, o: Options, out: &mut [u8], to: usize) -> usize
    requires { ((n : Option Bytes) × ChangeIs n o b.now change) × (to + length b.now ≤ length out.old) }
    ensures { (n : Option Bytes) → ChangeIs n o b.now change → Wrote (CoreOption.get_or n b.now) out.old to out.new result }
{
    match change {
        BodyChange::Mpt(less) => mpt_to(b, less, o, out, to),
        BodyChange::Plt(one) => plt_to(b, one, out, to),
        BodyChange::Same => copy(b, out, to),
    }
}

// The table `t` as narrowing leaves it, by what it makes of its body, written at `to`.
pub fn table_to(t: &[u8], change: BodyChange, o: Options, out: &mut [u8], to: usize) -> usize
    requires { Exact t.now × ((pid : ℕ) × TableChangeIs o pid t.now change) × (to + length t.now ≤ length out.old) }
    ensures { (pid : ℕ) → TableChangeIs o pid t.now change → Wrote (after_table o pid t.now) out.old to out.new result }
{
    if !changes(change) {
        return copy(t, out, to);
    }
    let b = &t[4..];
    let c = copy(&t[0..2], out, to);
    let d = put16(out, c, length_after(b, change));
    body_to(b, change, o, out, d)
}
