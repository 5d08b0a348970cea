// Keep, drop, ready: what follows from what is known and from what is wished.
#![tactic(auto)]

ghost use Rattle.std.specs.Prelude.{◌≡◌, ℕ, ◌/◌, ◌≤◌, Bool, not, ◌&&◌, List, map, length, eqb};
ghost use Rattle.std.proofs.Math.Option.{some};
ghost use Rattle.meaning.specs.Sets.{Words, in_set};
ghost use Rattle.meaning.specs.Lists.{all, any};
ghost use Rattle.meaning.specs.Tables.{kind_of};
ghost use Rattle.meaning.specs.Wishes.{wanted, ours};
ghost use Rattle.meaning.specs.Learn.{Known, assets_in};
ghost use Rattle.meaning.specs.Rules.{lists_it, drops, dropped, ready};
ghost use Rattle.meaning.specs.Record.{pair_of};
ghost use Rattle.learning.specs.Kept.{Keeps, pairs_in};
ghost use Rattle.rules.specs.Changes.{SetIs, Changed, comes, goes, Way, inserting, removing, picked_by, Packages, MapHeads, MapLists, lists_at, has_list};

use learning::lists::place_for;
use learning::{Extent, Kept};
use meaning::{Options, Service};
use octets::IdSet;

// ---- wishes

// Whether a service is ours: each is where none is named.
fn is_ours(s: Service, service: u32) -> bool
    ensures { result ≡ ours s service }
{
    match s {
        Service::Every => true,
        Service::Only(n) => u32::from(n) == service,
    }
}

// Whether an asset whose kind has this number in the map room is wanted. `narrowing.mpt.wanted` asks the same of the kind itself.
// Stays: turned into the kind first, the number is matched twice for each asset, and `decide_on` takes a third more instructions.
#[tactic(auto, unfolding(meaning::specs::Tables::kind_of), using(crate::proofs::AssetRules::kind_other))]
fn wants(o: Options, number: u16) -> bool
    ensures { result ≡ wanted o (kind_of number) }
{
    match number {
        0 => o.caption,
        1 => o.carousel,
        _ => o.other,
    }
}

// Whether an asset of a package, ours or not, stays, by the number of its kind.
fn stays(o: Options, ours: bool, number: u16) -> bool
    ensures { result ≡ (ours && wanted o (kind_of number)) }
{
    ours && wants(o, number)
}

// ---- what packages put into the set, and take out of it

// A rule on what packages name: what of it is picked, by whether it stays, and what that does to the set.
trait Rule {
    ghost picks: { Bool → Bool };

    ghost way: { Bool → Bool → Bool };

    fn picks(stays: bool) -> bool
        ensures { result ≡ picks stays };

    fn change(set: &mut IdSet, id: u16)
        ensures { Changed way (eqb id) set.old.words set.new.words };

    ghost laws: { Way way };
}

// What does not stay comes into the set.
struct Dropping;

// What stays goes out of the set.
struct Keeping;

// Whether `id` is in the set, and that the set has all its words: an array in a struct tells its length only where it is read.
fn is_in(set: &IdSet, id: u16) -> bool
    ensures { (result ≡ in_set set.now.words id) × (length set.now.words ≡ 1024) }
{
    let _words = &set.words;
    set.has(id)
}

// Lists name the same identifiers again and again, and to look is quicker than to write.
impl Rule for Dropping {
    ghost picks = { not };

    ghost way = { comes };

    ghost laws = { inserting };

    fn picks(stays: bool) -> bool {
        !stays
    }

    fn change(set: &mut IdSet, id: u16) {
        if !is_in(set, id) {
            set.insert(id);
        }
    }
}

impl Rule for Keeping {
    ghost picks = { λ stays. stays };

    ghost way = { goes };

    ghost laws = { removing };

    fn picks(stays: bool) -> bool {
        stays
    }

    fn change(set: &mut IdSet, id: u16) {
        if is_in(set, id) {
            set.remove(id);
        }
    }
}

// The assets of a list, identifier and kind of each, of a package that is ours or not.
fn by_assets<R: Rule>(o: Options, ours: bool, list: &[u16], set: &mut IdSet)
    ensures { Changed R.way (λ q. lists_it (λ part. R.picks (ours && wanted o part)) q (some (assets_in (length list.now / 2) list.now))) set.old.words set.new.words }
{
    let mut assets = list;
    while let [id, kind, rest @ ..] = assets {
        if R::picks(stays(o, ours, *kind)) {
            R::change(set, *id);
        }
        assets = rest;
    }
}

// What a package names. Where it is not ours nothing of it stays, and a rule that picks what stays leaves it alone.
fn by_package<R: Rule>(
    o: Options,
    p: u32,
    map_count: usize,
    kept: &Kept,
    map_room: &[u16],
    set: &mut IdSet,
)
    requires { MapLists map_count kept.now.map_heads map_room.now }
    ensures { Changed R.way (λ q. picked_by R.picks o (lists_at map_count kept.now.map_heads map_room.now) q (pair_of p)) set.old.words set.new.words }
{
    let ours = is_ours(o.service, p / 65536);
    if !ours && !R::picks(false) {
        return;
    }
    let id = (p % 65536) as u16;
    if R::picks(ours) {
        R::change(set, id);
    }
    let i = place_for(&kept.map_heads, map_count, id);
    if i < map_count {
        let base = 512 * i;
        let n = (kept.map_heads[i] % 65536) as usize;
        by_assets::<R>(o, ours, &map_room[base..base + 2 * n], set);
    }
}

fn by_packages<R: Rule>(o: Options, e: Extent, kept: &Kept, map_room: &[u16], set: &mut IdSet)
    requires { Packages e.package_count kept.now.packages × MapLists e.map_count kept.now.map_heads map_room.now }
    ensures { Changed R.way (λ q. any (picked_by R.picks o (lists_at e.map_count kept.now.map_heads map_room.now) q) (pairs_in e.package_count kept.now.packages)) set.old.words set.new.words }
{
    for p in &kept.packages[..e.package_count] {
        by_package::<R>(o, *p, e.map_count, kept, map_room, set);
    }
}

// ---- the set

// The set that the rules begin with: with carousels off the data set is dropped.
pub fn first_drops(o: Options, data_set: &IdSet) -> IdSet
    ensures { SetIs (λ q. not o.carousel && in_set data_set.now.words q) result.words }
{
    if o.carousel {
        return IdSet::empty();
    }
    IdSet {
        words: data_set.words,
    }
}

// The same, written over `set` where it stands.
// Stays: over `first_drops` a set is filled beside and then copied; `passing.packets` then takes 3 to 11 in a hundred more instructions.
fn begin_drops(o: Options, data_set: &IdSet, set: &mut IdSet)
    ensures { SetIs (λ q. not o.carousel && in_set data_set.now.words q) set.new.words }
{
    if !o.carousel {
        set.words = data_set.words;
        return;
    }
    set.words = [0; 1024];
}

// From there on: all that is dropped, then what is kept taken out, then identifier 0; EIT off drops 0x8000.
pub fn decide_on(o: Options, e: Extent, kept: &Kept, map_room: &[u16], set: &mut IdSet)
    requires { (k : Known) × (ds : Words) × Keeps k e ds kept.now.packages kept.now.map_heads map_room.now }
    ensures { (k : Known) (ds : Words) → Keeps k e ds kept.now.packages kept.now.map_heads map_room.now → SetIs (λ q. not o.carousel && in_set ds q) set.old.words → SetIs (drops o k) set.new.words }
{
    by_packages::<Dropping>(o, e, kept, map_room, set);
    by_packages::<Keeping>(o, e, kept, map_room, set);
    set.remove(0);
    if !o.eit {
        set.insert(0x8000);
    }
}

// The identifiers that the rules drop.
pub fn decide(o: Options, e: Extent, kept: &Kept, map_room: &[u16], set: &mut IdSet)
    requires { (k : Known) × Keeps k e kept.now.data_set.words kept.now.packages kept.now.map_heads map_room.now }
    ensures { (k : Known) → Keeps k e kept.now.data_set.words kept.now.packages kept.now.map_heads map_room.now → SetIs (drops o k) set.new.words }
{
    begin_drops(o, &kept.data_set, set);
    decide_on(o, e, kept, map_room, set);
}

// How many identifiers a drop set has: 0x8000 is in it once with EIT off, identifier 0 never.
pub fn dropped(o: Options, e: Extent, kept: &Kept, map_room: &[u16]) -> u32
    requires { (k : Known) × Keeps k e kept.now.data_set.words kept.now.packages kept.now.map_heads map_room.now }
    ensures { (k : Known) → Keeps k e kept.now.data_set.words kept.now.packages kept.now.map_heads map_room.now → result ≡ dropped o k }
{
    let mut set = IdSet::empty();
    decide(o, e, kept, map_room, &mut set);
    set.count()
}

// ---- ready

// Whether a package's MPT has its list.
#[tactic(auto, unfolding(meaning::specs::Record::pair_of))]
fn is_listed(e: Extent, kept: &Kept, p: u32) -> bool
    requires { MapHeads e.map_count kept.now.map_heads }
    ensures { result ≡ has_list e.map_count kept.now.map_heads (pair_of p) }
{
    place_for(&kept.map_heads, e.map_count, (p % 65536) as u16) < e.map_count
}

// Whether each package's MPT has its list.
fn all_listed(e: Extent, kept: &Kept) -> bool
    requires { Packages e.package_count kept.now.packages × MapHeads e.map_count kept.now.map_heads }
    ensures { result ≡ all (has_list e.map_count kept.now.map_heads) (pairs_in e.package_count kept.now.packages) }
{
    kept.packages[..e.package_count]
        .iter()
        .all(|p| is_listed(e, kept, *p))
}

// Whether the service is in the PLT and its MPT has its list.
fn service_listed(service: u16, e: Extent, kept: &Kept) -> bool
    requires { Packages e.package_count kept.now.packages × MapHeads e.map_count kept.now.map_heads }
    ensures { result ≡ any (λ pkg. eqb pkg.0 service && has_list e.map_count kept.now.map_heads pkg) (pairs_in e.package_count kept.now.packages) }
{
    kept.packages[..e.package_count].iter().any(|p| *p / 65536 == u32::from(service)
        && is_listed(e, kept, *p))
}

// Whether everything that the latest PLT asks for is known.
pub fn ready(s: Service, e: Extent, kept: &Kept) -> bool
    requires { (k : Known) × (c map_room : List ℕ) × Keeps k e c kept.now.packages kept.now.map_heads map_room }
    ensures { (k : Known) (c map_room : List ℕ) → Keeps k e c kept.now.packages kept.now.map_heads map_room → result ≡ ready s k }
{
    e.seen
        && match s {
            Service::Every => all_listed(e, kept),
            Service::Only(n) => service_listed(n, e, kept),
        }
}
