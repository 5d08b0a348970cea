// The body of a PA message as narrowing leaves it: the head's entries take the tables' lengths.
ghost use Rattle.std.specs.Prelude.{◌≡◌, ℕ, ◌+◌, ◌-◌, ◌*◌, ◌≤◌, ◌<◌, length, take, drop, get_or};
ghost use Rattle.meaning.specs.Bytes.{Bytes};
ghost use Rattle.meaning.specs.Writing.{Wrote};
ghost use Rattle.meaning.specs.Narrow.{relength, pa_bytes};
ghost use mathlib.Core.List.{List, flatten};
ghost use Rattle.meaning.specs.Tables.{table};
ghost use Rattle.tables.specs.Answers.{TableIs};
ghost use Rattle.tables.specs.declared.pa.Table.TheVariants.{To};
ghost use Rattle.narrowing.specs.Tables.{ChangeAt, KnownIs, PaChangeIs, tables_in, tables_after, tables_bytes, HeadEntries};

use crate::table::{BodyChange, change_of, changes, length_after, table_to};
use meaning::Options;
use octets::{copy, put16};
use tables::pa::{Table, table_at};

// What narrowing makes of a table, and where that one starts. It is handed on to the writers, so that they need not walk the table's
// entries again to work it out.
#[derive(Clone, Copy)]
pub struct TableChange {
    pub at: usize,
    pub change: BodyChange,
}

// What narrowing makes of the first table that it changes from `tables` on, or no change: a cut one leaves them all.
pub fn pa_change(s: &[u8], tables: usize, pid: u16, o: Options) -> TableChange
    requires { tables ≤ length s.now }
    ensures { PaChangeIs o pid s.now tables result }
{
    let none = TableChange {
        at: tables,
        change: BodyChange::Same,
    };
    let mut at = tables;
    let mut known = none;
    loop {
        let from = at;
        match table_at(s, from) {
            Table::To(end) => {
                at = end;
                if !changes(known.change) {
                    let change = change_of(&s[from + 4..end], s[from], pid, o);
                    known = TableChange { at: from, change };
                }
            }
            Table::Cut => return none,
            Table::Done => return known,
        }
    }
}

// What narrowing makes of the table from `from` to `end`: as it is known, or else worked out.
fn change_at(
    s: &[u8],
    from: usize,
    end: usize,
    pid: u16,
    o: Options,
    known: TableChange,
) -> BodyChange
    requires { TableIs (table (drop from s.now)) s.now from (To end) × KnownIs o pid s.now known }
    ensures { ChangeAt o pid s.now from end result }
{
    if from == known.at {
        return known.change;
    }
    change_of(&s[from + 4..end], s[from], pid, o)
}

// The head's entries, from the second byte of the body up to the tables, written at `to`. Those for which no table is left stay as they
// are.
fn heads_to(
    s: &[u8],
    tables: usize,
    pid: u16,
    o: Options,
    known: TableChange,
    out: &mut [u8],
    to: usize,
) -> usize
    requires { ((es : List Bytes) × HeadEntries s.now tables es) × KnownIs o pid s.now known × (to + (tables - 1) ≤ length out.old) }
    ensures { (es : List Bytes) → HeadEntries s.now tables es → Wrote (flatten (relength es (tables_after o pid (drop tables s.now)))) out.old to out.new result }
{
    let mut at = tables;
    let mut put = to;
    // Stays: an entry is counted by hand, since the copy behind the loop starts where it stopped, which `for` does not tell.
    let mut entry = 1;
    while entry < tables {
        let from = at;
        let Table::To(end) = table_at(s, from) else {
            break;
        };
        at = end;
        let b = &s[from + 4..end];
        let n = length_after(b, change_at(s, from, end, pid, o, known));
        let put2 = copy(&s[entry..entry + 2], out, put);
        put = put16(out, put2, n);
        entry += 4;
    }
    copy(&s[entry..tables], out, put)
}

// The tables as narrowing leaves them, and what is left behind them, written at `to`.
fn tables_to(
    s: &[u8],
    tables: usize,
    pid: u16,
    o: Options,
    known: TableChange,
    out: &mut [u8],
    to: usize,
) -> usize
    requires { (tables ≤ length s.now) × KnownIs o pid s.now known × (to + (length s.now - tables) ≤ length out.old) }
    ensures { Wrote (tables_bytes o pid (drop tables s.now)) out.old to out.new result }
{
    let mut at = tables;
    let mut put = to;
    while let Table::To(end) = table_at(s, at) {
        let change = change_at(s, at, end, pid, o, known);
        put = table_to(&s[at..end], change, o, out, put);
        at = end;
    }
    copy(&s[at..], out, put)
}

// The whole body, written at `to`.
pub fn pa_to(
    s: &[u8],
    tables: usize,
    pid: u16,
    o: Options,
    known: TableChange,
    out: &mut [u8],
    to: usize,
) -> usize
    requires { ((es : List Bytes) × HeadEntries s.now tables es) × KnownIs o pid s.now known × (to + length s.now ≤ length out.old) }
    ensures { (es : List Bytes) → HeadEntries s.now tables es → Wrote (pa_bytes (record { count = get_or s.now 0 0; entries = es }) (tables_after o pid (drop tables s.now)) (tables_in (drop tables s.now)).left) out.old to out.new result }
{
    let c = copy(&s[0..1], out, to);
    let d = heads_to(s, tables, pid, o, known, out, c);
    tables_to(s, tables, pid, o, known, out, d)
}
