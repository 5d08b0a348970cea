// The asset entries of an MPT, in the layout of 000's asset_size: where one ends, its kind, its packet identifier.
ghost use Rattle.std.specs.Prelude.{◌≡◌, ◌+◌, ◌-◌, ◌*◌, ◌%◌, ◌≤◌, ◌<◌, length, take, drop, get_or, true};
ghost use Rattle.meaning.specs.Readers.{bytes, announced};
ghost use Rattle.meaning.specs.Tables.{clock_relation, part_of, mpt_front};
ghost use Rattle.tables.specs.Answers.{Ends, LocationsAre, asset_tail, is_plain, AssetIs};

use crate::fields::{bytes_end, counted_end, descriptors_end};
use crate::locations::{Located, locations_at};
use meaning::Part;
use octets::{be32, id16, wide};

// An entry: where it ends, its kind, its identifier.
#[derive(Clone, Copy)]
pub struct Asset {
    pub end: usize,
    pub part: Part,
    pub carrier: Option<u16>,
}

// The clock relation that bit 0 of `flags` announces.
fn clock_end(s: &[u8], at: usize, flags: u8) -> Option<usize>
    requires { at ≤ length s.now }
    ensures { Ends (announced (flags % 2) clock_relation (drop at s.now)) s.now result }
{
    if flags % 2 == 0 {
        return Some(at);
    }
    if s.len() - at < 2 {
        return None;
    }
    if s[at + 1] % 2 == 0 {
        return Some(at + 2);
    }
    bytes_end(s, at + 2, 4)
}

// Whether what follows the flags is plain: no clock relation, and one location of type 0. Nearly every asset's is.
fn is_plain(s: &[u8], at: usize, flags: u8) -> bool
    requires { at ≤ length s.now }
    ensures { result ≡ is_plain flags s.now at }
{
    flags % 2 == 0 && 4 <= s.len() - at && s[at] == 1 && s[at + 1] == 0
}

// The same as `tail_at` where it is plain: neither a loop nor a choice by type is gone through.
fn plain_tail(s: &[u8], at: usize, flags: u8) -> Option<Located>
    requires { is_plain flags s.now at ≡ true }
    ensures { LocationsAre (asset_tail flags (drop at s.now)) s.now result }
{
    let end = descriptors_end(s, at + 4)?;
    Some(Located {
        end,
        carrier: Some(id16(s, at + 2)),
    })
}

// What follows the flags: clock relation, locations, descriptors.
fn tail_at(s: &[u8], at: usize, flags: u8) -> Option<Located>
    requires { at ≤ length s.now }
    ensures { LocationsAre (asset_tail flags (drop at s.now)) s.now result }
{
    if is_plain(s, at, flags) {
        return plain_tail(s, at, flags);
    }
    let counts = clock_end(s, at, flags)?;
    if s.len() <= counts {
        return None;
    }
    let located = locations_at(s, counts + 1, wide(s[counts]))?;
    let end = descriptors_end(s, located.end)?;
    Some(Located {
        end,
        carrier: located.carrier,
    })
}

// The kind whose four bytes are at `at`, read as one number: `stpp` is caption, `aapp` carousel.
fn part_of(s: &[u8], at: usize) -> Part
    requires { at + 4 ≤ length s.now }
    ensures { result ≡ part_of (take 4 (drop at s.now)) }
{
    match be32(s, at) {
        0x73747070 => Part::Caption,
        0x61617070 => Part::Carousel,
        _ => Part::Other,
    }
}

// The asset entry at `at`.
pub fn asset_at(s: &[u8], at: usize) -> Option<Asset>
    ensures { AssetIs s.now at result }
{
    let len = s.len();
    if len < 6 {
        return None;
    }
    if len - 6 < at {
        return None;
    }
    let type_at = at + 6 + wide(s[at + 5]);
    if len <= type_at + 4 {
        return None;
    }
    let tail = tail_at(s, type_at + 5, s[type_at + 4])?;
    Some(Asset {
        end: tail.end,
        part: part_of(s, type_at),
        carrier: tail.carrier,
    })
}

// Where the count of entries is in an MPT's body.
pub fn mpt_front(s: &[u8]) -> Option<usize>
    ensures { Ends (mpt_front s.now) s.now result }
{
    let name_end = counted_end(s, 1)?;
    descriptors_end(s, name_end)
}
