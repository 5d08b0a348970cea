// The body of a PA message: its head, and its tables by their own heads.
ghost use Rattle.std.specs.Prelude.{◌≡◌, ◌+◌, ◌-◌, ◌*◌, ◌%◌, ◌≤◌, ◌<◌, length, take, drop, get_or};
ghost use Rattle.meaning.specs.Tables.{table, is_mpt, pa_head};
ghost use Rattle.tables.specs.Answers.{TableIs, PaHeadIs};

use octets::{be16, wide};

#[derive(Clone, Copy)]
pub enum Table {
    To(usize),
    Cut,
    Done,
}

// Where the tables of a PA body start.
pub fn pa_tables(s: &[u8]) -> Option<usize>
    ensures { PaHeadIs (pa_head s.now) s.now result }
{
    if s.len() == 0 {
        return None;
    }
    let n = 1 + wide(s[0]) * 4;
    if s.len() < n {
        return None;
    }
    Some(n)
}

// The table at `at` of a PA body: its end, or that it is cut, or that there is none.
pub fn table_at(s: &[u8], at: usize) -> Table
    ensures { TableIs (table (drop at s.now)) s.now at result }
{
    let len = s.len();
    if len < 4 {
        return Table::Done;
    }
    if len - 4 < at {
        return Table::Done;
    }
    let n = be16(s, at + 2);
    if len - 4 - at < n {
        return Table::Cut;
    }
    Table::To(at + 4 + n)
}

// 0x11 to 0x20.
pub fn is_mpt(number: u8) -> bool
    ensures { result ≡ is_mpt number }
{
    matches!(number, 0x11..=0x20)
}
