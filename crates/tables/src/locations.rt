// General locations: where one ends, and the packet identifier that one of type 0 gives.
ghost use Rattle.std.specs.Prelude.{◌≡◌, ◌+◌, ◌-◌, ◌*◌, ◌%◌, ◌≤◌, ◌<◌, length, take, drop, get_or};
ghost use Rattle.meaning.specs.Readers.{bytes, many};
ghost use Rattle.meaning.specs.Tables.{location, location_body, first_of};
ghost use Rattle.tables.specs.Answers.{Ends, LocationIs, LocationsAre, elsewhere_of};

use crate::fields::{bytes_end, counted_end};
use octets::id16;

// A location, or several: where they end, and the first packet identifier among them, if one has any.
#[derive(Clone, Copy)]
pub struct Located {
    pub end: usize,
    pub carrier: Option<u16>,
}

// A location without an identifier, up to its end.
fn elsewhere(e: Option<usize>) -> Option<Located>
    ensures { result ≡ elsewhere_of e }
{
    let end = e?;
    Some(Located { end, carrier: None })
}

// A location of type 0, behind its type.
fn here(s: &[u8], at: usize) -> Option<Located>
    requires { at ≤ length s.now }
    ensures { LocationIs (location_body 0 (drop at s.now)) s.now result }
{
    if s.len() - at < 2 {
        return None;
    }
    Some(Located {
        end: at + 2,
        carrier: Some(id16(s, at)),
    })
}

pub fn location_at(s: &[u8], at: usize) -> Option<Located>
    ensures { LocationIs (location (drop at s.now)) s.now result }
{
    if s.len() <= at {
        return None;
    }
    let location_type = s[at];
    match location_type {
        0 => here(s, at + 1),
        1 => elsewhere(bytes_end(s, at + 1, 12)),
        2 | 4 => elsewhere(bytes_end(s, at + 1, 36)),
        3 => elsewhere(bytes_end(s, at + 1, 6)),
        5 => elsewhere(counted_end(s, at + 1)),
        _ => None,
    }
}

// `count` locations at `at`.
pub fn locations_at(s: &[u8], at: usize, count: usize) -> Option<Located>
    requires { at ≤ length s.now }
    ensures { LocationsAre (many count location (drop at s.now)) s.now result }
{
    let mut end = at;
    let mut carrier = None;
    for _ in 0..count {
        let one = location_at(s, end)?;
        end = one.end;
        carrier = carrier.or(one.carrier);
    }
    Some(Located { end, carrier })
}
