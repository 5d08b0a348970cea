// Whether the parts of a record are sound: what the code asks of a record handed back before it reads anything by it. Over the record's
// numbers and arrays, apart from the struct. Rests on specs/Parts, and on sets of `octets`.
#![tactic(auto)]

ghost use Rattle.std.specs.Prelude.{◌≡◌, ℕ, ◌≤◌, ◌<◌, map, length, take, eqb, leb};
ghost use Rattle.meaning.specs.Sets.{in_set, with_id};
ghost use Rattle.meaning.specs.Lists.{all, any, sum};
ghost use Rattle.meaning.specs.Wishes.{wants_assets, copies_all};
ghost use Rattle.meaning.specs.Rooms.{packet_limit, good_work_room, good_fragment_room, good_map_room};
ghost use Rattle.meaning.specs.Record.{pair_of, fragment_identifier, fragment_length};
ghost use Rattle.meaning.specs.Soundness.{rising, distinct, sound_rooms, sound_held, sound_packages, sound_maps, sound_fragments};
ghost use Rattle.soundness.specs.Parts.{upper, limits_of, parts_sound};

use learning::{Extent, Kept};
use meaning::{Limits, Options, Service};
use octets::IdSet;

// ---- limits

// The packet limit of a work room: half of it, and at most 65,539.
#[tactic(auto, unfolding(meaning::specs::Rooms::packet_limit))]
pub fn packet_limit(work: usize) -> usize
    ensures { result ≡ packet_limit work }
{
    (work / 2).min(65539)
}

#[tactic(auto, unfolding(meaning::specs::Rooms::good_work_room))]
pub fn good_work_room(work: usize) -> bool
    ensures { result ≡ good_work_room work }
{
    4096 <= work && work <= 131078
}

#[tactic(auto, unfolding(meaning::specs::Rooms::good_fragment_room))]
pub fn good_fragment_room(total: usize, most: usize) -> bool
    ensures { result ≡ good_fragment_room total most }
{
    1 <= total && total <= 16777216 && 1 <= most && most <= total
}

#[tactic(auto, unfolding(meaning::specs::Rooms::good_map_room))]
pub fn good_map_room(map_length: usize) -> bool
    ensures { result ≡ good_map_room map_length }
{
    map_length == 32768
}

// Whether the limits are the lengths of the lent rooms (work room `w`, fragment room `t`, map room `m`), and in range.
#[tactic(auto, unfolding(meaning::specs::Soundness::sound_rooms))]
fn sound_rooms(l: Limits, w: usize, t: usize, m: usize) -> bool
    ensures { result ≡ sound_rooms l w t m }
{
    l.work == w
        && l.total == t
        && good_map_room(m)
        && good_work_room(w)
        && good_fragment_room(t, l.most)
}

// ---- held bytes

// Whether captions or other assets are wanted.
#[tactic(auto, unfolding(meaning::specs::Wishes::wants_assets))]
pub fn wants_assets(o: Options) -> bool
    ensures { result ≡ wants_assets o }
{
    o.caption || o.other
}

// Copy-all: no service, all four wishes on.
#[tactic(auto, unfolding(meaning::specs::Wishes::copies_all))]
pub fn copies_all(o: Options) -> bool
    ensures { result ≡ copies_all o }
{
    matches!(o.service, Service::Every) && o.caption && o.carousel && o.eit && o.other
}

// Fewer are held than the packet limit, none in copy-all.
#[tactic(auto, unfolding(meaning::specs::Soundness::sound_held))]
fn sound_held(l: Limits, o: Options, held_count: usize) -> bool
    ensures { result ≡ sound_held l o held_count }
{
    held_count < packet_limit(l.work) && (!copies_all(o) || held_count == 0)
}

// ---- packages

// Whether their services rise.
fn services_rise(packages: &[u32]) -> bool
    ensures { result ≡ rising (map upper packages.now) }
{
    packages.is_sorted_by(|p, q| *p / 65536 < *q / 65536)
}

#[tactic(auto, unfolding(meaning::specs::Soundness::sound_packages))]
fn sound_packages(packages: &[u32; 255], n: usize) -> bool
    ensures { result ≡ sound_packages n packages.now }
{
    n <= 255 && services_rise(&packages[..n])
}

// ---- identifiers, none twice

// A number that holds an identifier: the head of a map or of a fragment.
trait Head: Copy {
    ghost id_in: { Self → ℕ };

    fn identifier(self) -> u16
        ensures { (result ≡ id_in self) × (result < 65536) };
}

// A map's head.
impl Head for u32 {
    ghost id_in = { upper };

    #[tactic(auto, unfolding(meaning::specs::Record::pair_of))]
    fn identifier(self) -> u16 {
        (self / 65536) as u16
    }
}

// A fragment's head.
impl Head for u64 {
    ghost id_in = { fragment_identifier };

    #[tactic(auto, unfolding(meaning::specs::Record::fragment_identifier))]
    fn identifier(self) -> u16 {
        (self / 281474976710656) as u16
    }
}

// Whether one of the heads has the identifier.
fn among<H: Head>(heads: &[H], id: u16) -> bool
    ensures { result ≡ any (eqb id) (map H.id_in heads.now) }
{
    heads.iter().any(|head| id == head.identifier())
}

// By pairs, which for a few is quicker than to clear a set.
fn few_distinct<H: Head>(heads: &[H]) -> bool
    ensures { result ≡ distinct (map H.id_in heads.now) }
{
    let mut rest = heads;
    while let Some((head, behind)) = rest.split_first() {
        if among(behind, head.identifier()) {
            return false;
        }
        rest = behind;
    }
    true
}

// Whether `id` is in the set already; it is in it afterwards.
fn seen_before(set: &mut IdSet, id: u16) -> bool
    ensures { (result ≡ in_set set.old.words id) × (set.new.words ≡ with_id set.old.words id) }
{
    let before = set.has(id);
    set.insert(id);
    before
}

// By a set of those passed.
fn many_distinct<H: Head>(heads: &[H]) -> bool
    ensures { result ≡ distinct (map H.id_in heads.now) }
{
    let mut set = IdSet::empty();
    for head in heads {
        if seen_before(&mut set, head.identifier()) {
            return false;
        }
    }
    true
}

fn all_distinct<H: Head>(heads: &[H]) -> bool
    ensures { result ≡ distinct (map H.id_in heads.now) }
{
    if heads.len() <= 16 {
        return few_distinct(heads);
    }
    many_distinct(heads)
}

// ---- maps

// Whether each counts at most 255 assets.
fn counts_few(map_heads: &[u32]) -> bool
    ensures { result ≡ all (λ x. leb (pair_of x).1 255) map_heads.now }
{
    map_heads.iter().all(|head| *head % 65536 <= 255)
}

#[tactic(auto, unfolding(meaning::specs::Soundness::sound_maps))]
fn sound_maps(map_heads: &[u32; 64], n: usize) -> bool
    ensures { result ≡ sound_maps n map_heads.now }
{
    n <= 64 && counts_few(&map_heads[..n]) && all_distinct(&map_heads[..n])
}

// ---- fragments

// The bytes of the fragments.
fn lengths(fragment_heads: &[u64]) -> usize
    requires { length fragment_heads.now ≤ 256 }
    ensures { result ≡ sum (map fragment_length fragment_heads.now) }
{
    fragment_heads
        .iter()
        .map(|head| (*head % 1099511627776) as usize)
        .sum()
}

#[tactic(auto, unfolding(meaning::specs::Soundness::sound_fragments))]
fn sound_fragments(fragment_heads: &[u64; 256], n: usize, total: usize) -> bool
    ensures { result ≡ sound_fragments total n fragment_heads.now }
{
    n <= 256 && all_distinct(&fragment_heads[..n]) && lengths(&fragment_heads[..n]) <= total
}

// ---- the record

// Whether the parts of a record are sound with rooms of these lengths.
pub fn parts_sound(
    l: Limits,
    o: Options,
    held_count: usize,
    e: Extent,
    kept: &Kept,
    w: usize,
    t: usize,
    m: usize,
) -> bool
    ensures { result ≡ parts_sound l o held_count e kept.now.packages kept.now.map_heads kept.now.fragment_heads w t m }
{
    sound_rooms(l, w, t, m)
        && wants_assets(o)
        && sound_held(l, o, held_count)
        && sound_packages(&kept.packages, e.package_count)
        && sound_maps(&kept.map_heads, e.map_count)
        && sound_fragments(&kept.fragment_heads, e.fragment_count, t)
}
