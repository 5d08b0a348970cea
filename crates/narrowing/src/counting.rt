// How many entries stay and how many go: captions, carousels, others, over the readable MPTs.
ghost use Rattle.std.specs.Prelude.{◌≡◌, ℕ, ◌+◌, ◌-◌, ◌*◌, ◌≤◌, ◌<◌, length, take, drop, get_or, List, [], ◌∷◌, map};
ghost use Rattle.std.proofs.Math.Option.{IsSome};
ghost use Rattle.meaning.specs.Bytes.{Bytes};
ghost use Rattle.meaning.specs.Readers.{many};
ghost use Rattle.meaning.specs.Tables.{entry, table, kind_number};
ghost use Rattle.meaning.specs.Wishes.{wanted};
ghost use Rattle.meaning.specs.Narrow.{tables_parts, parts_of_table};
ghost use Rattle.narrowing.specs.Tables.{Exact, tables_in};
ghost use Rattle.narrowing.specs.Answers.{CountsBelow, no_rows, counted_in, row_number, bumped, parts_read};

use crate::mpt::{entries, wanted};
use meaning::{Options, Part};
use octets::wide;
use tables::assets::{asset_at, mpt_front};
use tables::pa::{Table, is_mpt, table_at};

// The place of a kind in a row.
// Stays: a row is an array, so that its places are numbers, and 01 names the array.
fn kind_of(part: Part) -> usize
    ensures { (result ≡ kind_number part) × (result < 3) }
{
    match part {
        Part::Caption => 0,
        Part::Carousel => 1,
        Part::Other => 2,
    }
}

// The row of those that stay, or of those that go.
fn row_of(o: Options, part: Part) -> usize
    ensures { (result ≡ row_number o part) × (result < 2) }
{
    if wanted(o, part) { 0 } else { 1 }
}

// One more in a row.
fn bump(mut counts: [[u64; 3]; 2], row: usize, kind: usize) -> [[u64; 3]; 2]
    requires { (row < 2) × (kind < 3) × (get_or (get_or counts row []) kind 0 < 18446744073709551615) }
    ensures { result ≡ bumped counts row kind }
{
    let n = counts[row][kind];
    counts[row][kind] = n + 1;
    counts
}

// `count` entries at `at`.
fn count_entries(
    b: &[u8],
    at: usize,
    count: usize,
    o: Options,
    counts: [[u64; 3]; 2],
) -> [[u64; 3]; 2]
    requires { (at ≤ length b.now) × IsSome (many count entry (drop at b.now)) × CountsBelow counts (18446744073709551615 - count) }
    ensures { result ≡ counted_in o counts (parts_read (many count entry (drop at b.now))) }
{
    let mut t = counts;
    let mut from = at;
    for _ in 0..count {
        let Some(asset) = asset_at(b, from) else {
            return t;
        };
        from = asset.end;
        let u = bump(t, row_of(o, asset.part), kind_of(asset.part));
        t = u;
    }
    t
}

// The entries of a table, if it is a readable MPT.
pub fn count_table(t: &[u8], o: Options, counts: [[u64; 3]; 2]) -> [[u64; 3]; 2]
    requires { Exact t.now × CountsBelow counts (18446744073709551615 - 256) }
    ensures { result ≡ counted_in o counts (parts_of_table (table t.now)) }
{
    if !is_mpt(t[0]) {
        return counts;
    }
    let b = &t[4..];
    let Some(front) = mpt_front(b) else {
        return counts;
    };
    if b.len() <= front {
        return counts;
    }
    let n = wide(b[front]);
    let Some(_) = entries(b, front + 1, n, o) else {
        return counts;
    };
    count_entries(b, front + 1, n, o, counts)
}

// The entries of the tables of a PA body.
pub fn count_tables(s: &[u8], tables: usize, o: Options) -> [[u64; 3]; 2]
    requires { (tables ≤ length s.now) × (length s.now ≤ 65539) }
    ensures { result ≡ counted_in o no_rows (tables_parts (tables_in (drop tables s.now)).found) }
{
    let mut t = [[0u64; 3]; 2];
    let mut at = tables;
    while let Table::To(end) = table_at(s, at) {
        let u = count_table(&s[at..end], o, t);
        t = u;
        at = end;
    }
    t
}
