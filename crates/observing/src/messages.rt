// Tables and messages in order: what each adds to what is known.
ghost use Rattle.std.specs.Prelude.{◌≡◌, ◌+◌, ◌-◌, ◌≤◌, ◌<◌, [], ◌∷◌, length};
ghost use Rattle.meaning.specs.Readers.{walk};
ghost use Rattle.meaning.specs.Messages.{long_lengths, cons_message, message, message_body, read_each, messages};
ghost use Rattle.meaning.specs.Tables.{pa};
ghost use Rattle.meaning.specs.Learn.{learn_table, learn_tables, pa_tables, learn_messages};
ghost use Rattle.observing.specs.News.{news_table, news_tables, news_messages};
ghost use Rattle.observing.specs.Steps.{KeepsSome, IndicatorIs, DataLearnt, Learns, table_in};

use learning::lists::mpt;
use learning::packages::plt;
use learning::{Extent, Kept, changed, with_news};
use octets::IdSet;
use tables::messages::{frame_at, message_of};
use tables::pa::{Table, is_mpt, pa_tables, table_at};

// A table: a PLT on identifier 0, or an MPT.
fn learn_table(t: &[u8], id: u16, e: Extent, kept: &mut Kept, map_room: &mut [u16]) -> Extent
    requires { (4 ≤ length t.now) × (e.lost < 18446744073709551615) × KeepsSome e kept.old map_room.old }
    ensures { Learns (learn_table id (table_in t.now)) (news_table id (table_in t.now)) e kept.old map_room.old result kept.new map_room.new }
{
    let number = t[0];
    let b = &t[4..];
    if is_mpt(number) {
        return mpt(b, id, e, &mut kept.map_heads, map_room);
    }
    if number != 0x80 {
        return e;
    }
    if id != 0 {
        return e;
    }
    plt(b, e, &mut kept.packages)
}

// The tables of a PA message's body, walked by their own heads.
fn learn_pa(s: &[u8], id: u16, known: Extent, kept: &mut Kept, map_room: &mut [u16]) -> Extent
    requires { (known.lost + length s.now ≤ 18446744073709551615) × KeepsSome known kept.old map_room.old }
    ensures { (Learns (learn_tables id (pa_tables (pa s.now))) (news_tables id (pa_tables (pa s.now))) known kept.old map_room.old result kept.new map_room.new) × (result.lost ≤ known.lost + length s.now) }
{
    let Some(tables) = pa_tables(s) else {
        return known;
    };
    let mut e = known;
    let mut at = tables;
    while let Table::To(end) = table_at(s, at) {
        e = learn_table(&s[at..end], id, e, kept, map_room);
        at = end;
    }
    e
}

// Makes `id` a data-carousel identifier.
fn learn_data(id: u16, e: Extent, data_set: &mut IdSet) -> Extent
    ensures { DataLearnt id e data_set.old.words result data_set.new.words }
{
    let known = data_set.has(id);
    data_set.insert(id);
    if known {
        return e;
    }
    with_news(e, changed(e.news))
}

// The message at the front of `s`, if there is one.
fn learn_message(s: &[u8], id: u16, e: Extent, kept: &mut Kept, map_room: &mut [u16]) -> Extent
    requires { (e.lost + length s.now ≤ 18446744073709551615) × KeepsSome e kept.old map_room.old }
    ensures { (Learns (learn_messages id (cons_message (message s.now) [])) (news_messages id (cons_message (message s.now) [])) e kept.old map_room.old result kept.new map_room.new) × (result.lost ≤ e.lost + length s.now) }
{
    let Some(m) = message_of(s) else {
        return e;
    };
    if m.number == 0 {
        return learn_pa(&s[m.start..m.end], id, e, kept, map_room);
    }
    if m.number == 0x8003 {
        return learn_data(id, e, &mut kept.data_set);
    }
    e
}

// The parts of an aggregate; one that holds no message is stepped over.
fn learn_aggregate(
    s: &[u8],
    long: bool,
    id: u16,
    known: Extent,
    kept: &mut Kept,
    map_room: &mut [u16],
) -> Extent
    requires { (known.lost + length s.now ≤ 18446744073709551615) × KeepsSome known kept.old map_room.old }
    ensures { (Learns (learn_messages id (read_each (walk (message_body long) s.now).found)) (news_messages id (read_each (walk (message_body long) s.now).found)) known kept.old map_room.old result kept.new map_room.new) × (result.lost ≤ known.lost + length s.now) }
{
    let mut e = known;
    let mut at: usize = 0;
    while let Some(part) = frame_at(s, at, long) {
        e = learn_message(&s[part.start..part.end], id, e, kept, map_room);
        at = part.end;
    }
    e
}

// Which part of a message a payload brings, by the top two bits of its first byte.
#[derive(Clone, Copy, PartialEq, Eq)]
pub enum Indicator {
    Whole,
    First,
    Middle,
    Last,
}

impl From<u8> for Indicator {
    ghost from_gives = { IndicatorIs };

    fn from(flags: u8) -> Indicator {
        match flags >> 6 {
            0 => Indicator::Whole,
            1 => Indicator::First,
            2 => Indicator::Middle,
            _ => Indicator::Last,
        }
    }
}

// Bit 1: the parts of an aggregate have lengths of four bytes.
fn long_lengths(flags: u8) -> bool
    ensures { result ≡ long_lengths flags }
{
    (flags >> 1) & 1 == 1
}

// The messages of a payload, whole or joined, by its first byte; `s` is what follows its two bytes. A held fragment's flags may be any
// byte, so its top bits are asked here.
pub fn learn(
    flags: u8,
    s: &[u8],
    id: u16,
    e: Extent,
    kept: &mut Kept,
    map_room: &mut [u16],
) -> Extent
    requires { (e.lost + length s.now ≤ 18446744073709551615) × KeepsSome e kept.old map_room.old }
    ensures { (Learns (learn_messages id (messages (flags ∷ 0 ∷ s.now))) (news_messages id (messages (flags ∷ 0 ∷ s.now))) e kept.old map_room.old result kept.new map_room.new) × (result.lost ≤ e.lost + length s.now) }
{
    let Indicator::Whole = Indicator::from(flags) else {
        return e;
    };
    if flags & 1 == 0 {
        return learn_message(s, id, e, kept, map_room);
    }
    learn_aggregate(s, long_lengths(flags), id, e, kept, map_room)
}
