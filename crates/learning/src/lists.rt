// The lists of assets that MPTs give: their heads in an array, identifier and count in one number, their assets in the map room.
ghost use Rattle.std.specs.Prelude.{◌≡◌, ℕ, max, ◌+◌, ◌-◌, ◌*◌, ◌/◌, ◌%◌, ◌≤◌, ◌<◌, ◌&&◌, eqb, List, ◌++◌, length, take, drop, get_or};
ghost use Rattle.std.proofs.Math.Option.{some};
ghost use Rattle.meaning.specs.Tables.{mpt, kind_number};
ghost use Rattle.meaning.specs.Learn.{over, place_for};
ghost use Rattle.learning.specs.Kept.{pairs_in, KeptMaps};
ghost use Rattle.learning.specs.News.{also, kind_news, count_at};
ghost use Rattle.learning.specs.Learnt.{numbers_of, AssetsAre, HeldIs, HeadsAre, lost_one, MptLearnt};

use crate::pairs::Pair;
use crate::{Extent, News, changed, with_news};
use meaning::Part;
use octets::wide;
use tables::assets::{Asset, asset_at, mpt_front};

// The place of an identifier's list among the first `n`: where it stands, or `n`.
// Stays: a number, no Option, since the definition's `place_for` is one: with no list there the place is where a new one goes.
pub fn place_for(map_heads: &[u32; 64], n: usize, id: u16) -> usize
    requires { n ≤ 64 }
    ensures { (result ≡ place_for id (pairs_in n map_heads.now)) × (result ≤ n) }
{
    map_heads[..n]
        .iter()
        .position(|head| Pair::from(*head).first == id)
        .unwrap_or(n)
}

// The number of a kind in the map room.
// Stays: the map room is numbers, and the definition `kind_number` says which.
fn kind_number(part: Part) -> u16
    ensures { result ≡ kind_number part }
{
    part as u16
}

// What is new, and that an asset of this kind stands there.
fn with_kind(n: News, part: Part) -> News
    ensures { result ≡ also n (kind_news part) }
{
    match part {
        Part::Caption => News { caption: true, ..n },
        Part::Carousel => News {
            carousel: true,
            ..n
        },
        Part::Other => News { other: true, ..n },
    }
}

// The assets of an MPT's body as far as they are read: the numbers of those that are listed, an identifier and a kind for each, and what is
// new with the kinds of all.
// Stays: an array and a count, since there is no heap (fixed memory), so no Vec.
#[derive(Clone, Copy)]
pub struct Assets {
    pub numbers: [u16; 510],
    pub count: usize,
    pub news: News,
}

impl Assets {
    // One more asset, listed if it has an identifier.
    fn take(&mut self, asset: Asset)
        requires { self.old.count < 255 }
        ensures listed { take (2 * self.new.count) self.new.numbers ≡ take (2 * self.old.count) self.old.numbers ++ numbers_of asset.carrier asset.part }
        ensures few { self.new.count ≤ self.old.count + 1 }
        ensures news_same { self.new.news ≡ self.old.news }
        ensures all { length self.new.numbers ≡ 510 }
    {
        let Some(id) = asset.carrier else {
            return;
        };
        self.numbers[2 * self.count] = id;
        self.numbers[2 * self.count + 1] = kind_number(asset.part);
        self.count += 1;
    }
}

// The listed assets of an MPT's body, and what is new beside what was known, in assets that are none yet: lent, since what is handed back is
// copied.
fn assets_of(b: &[u8], assets: &mut Assets) -> Option<()>
    requires { assets.old.count ≡ 0 }
    ensures { AssetsAre (mpt b.now) assets.old.news assets.new result }
{
    let front = mpt_front(b)?;
    let all = wide(*b.get(front)?);
    let mut from = front + 1;
    let mut news = assets.news;
    for _ in 0..all {
        let asset = asset_at(b, from)?;
        from = asset.end;
        news = with_kind(news, asset.part);
        assets.take(asset);
    }
    assets.news = news;
    Some(())
}

// Writes the first `n` numbers to the map room from `base` on.
fn list_to(fresh: &[u16; 510], n: usize, map_room: &mut [u16], base: usize)
    requires { (n ≤ 510) × (base + n ≤ length map_room.old) }
    ensures { map_room.new ≡ over map_room.old base (take n fresh.now) }
{
    map_room[base..base + n].copy_from_slice(&fresh[..n]);
}

// The list written at place `i`: a change.
fn keep_list(
    i: usize,
    id: u16,
    assets: &Assets,
    e: Extent,
    map_heads: &mut [u32; 64],
    map_room: &mut [u16],
) -> Extent
    requires { (i < 64) × (assets.now.count ≤ 255) × (i ≤ e.map_count) × (e.map_count ≤ 64) × (length map_room.old ≡ 32768) }
    ensures { HeadsAre i id assets.now.count assets.now.numbers e map_heads.old map_room.old result map_heads.new map_room.new }
{
    let head = Pair {
        first: id,
        second: assets.count as u16,
    };
    map_heads[i] = head.into();
    list_to(&assets.numbers, 2 * assets.count, map_room, 512 * i);
    Extent {
        map_count: e.map_count.max(i + 1),
        news: changed(e.news),
        ..e
    }
}

// What is new with the kinds of an MPT's assets, where its body gives the list of these numbers, an identifier and a kind for each asset.
// Nearly every MPT gives the list that is held, so each asset is compared where it stands, and none is copied.
fn held_news(b: &[u8], list: &[u16], known: News) -> Option<News>
    requires { length list.now % 2 ≡ 0 }
    ensures { HeldIs (mpt b.now) (some (length list.now / 2)) list.now known result }
{
    let front = mpt_front(b)?;
    let all = wide(*b.get(front)?);
    let mut from = front + 1;
    let mut rest = list;
    let mut news = known;
    for _ in 0..all {
        let asset = asset_at(b, from)?;
        from = asset.end;
        news = with_kind(news, asset.part);
        if let Some(id) = asset.carrier {
            let [held_id, held_kind, behind @ ..] = rest else {
                return None;
            };
            if *held_id != id || *held_kind != kind_number(asset.part) {
                return None;
            }
            rest = behind;
        }
    }
    if !rest.is_empty() {
        return None;
    }
    Some(news)
}

// The same with the list at place `i`, if one is held there.
fn held_news_at(
    b: &[u8],
    i: usize,
    e: Extent,
    map_heads: &[u32; 64],
    map_room: &[u16],
) -> Option<News>
    requires { (length map_room.now ≡ 32768) × ((ms : List (ℕ × ℕ)) × KeptMaps ms e.map_count map_heads.now) }
    ensures { HeldIs (mpt b.now) (count_at i (pairs_in e.map_count map_heads.now)) (drop (512 * i) map_room.now) e.news result }
{
    if e.map_count <= i {
        return None;
    }
    let n = usize::from(Pair::from(map_heads[i]).second);
    held_news(b, &map_room[512 * i..512 * i + 2 * n], e.news)
}

// One list more is lost.
fn lose_one(e: Extent) -> Extent
    requires { e.lost < 18446744073709551615 }
    ensures { result ≡ lost_one e }
{
    Extent {
        lost: e.lost + 1,
        ..e
    }
}

// An MPT's body: its list takes its identifier's place, or is lost. One that is held there already changes nothing.
pub fn mpt(b: &[u8], id: u16, e: Extent, map_heads: &mut [u32; 64], map_room: &mut [u16]) -> Extent
    requires { (e.lost < 18446744073709551615) × (length map_room.old ≡ 32768) × ((ms : List (ℕ × ℕ)) × KeptMaps ms e.map_count map_heads.old) }
    ensures { (ms : List (ℕ × ℕ)) → KeptMaps ms e.map_count map_heads.old → MptLearnt id (mpt b.now) ms e map_room.old result map_heads.new map_room.new }
{
    let i = place_for(map_heads, e.map_count, id);
    if let Some(news) = held_news_at(b, i, e, map_heads, map_room) {
        return with_news(e, news);
    }
    let mut assets = Assets {
        numbers: [0; 510],
        count: 0,
        news: e.news,
    };
    let Some(()) = assets_of(b, &mut assets) else {
        return e;
    };
    let known = with_news(e, assets.news);
    if 64 <= i {
        return lose_one(known);
    }
    keep_list(i, id, &assets, known, map_heads, map_room)
}
