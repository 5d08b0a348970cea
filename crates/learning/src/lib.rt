// What tables teach: the packages of a PLT, the lists of assets that MPTs give. No wish comes in.
#![tactic(auto)]

ghost use Rattle.std.specs.Prelude.{◌≡◌, true};
ghost use Rattle.learning.specs.News.{no_news};
ghost use Rattle.learning.specs.Learnt.{with_news};

pub mod lists;
pub mod packages;
pub mod pairs;

use octets::IdSet;

// What a payload brings: whether what is known changed, and what stands in its tables: assets of each kind, and, in a PLT on identifier 0,
// packages that are not listed. Where no wish is against what stands there, narrowing has nothing to do.
#[derive(Clone, Copy)]
pub struct News {
    pub changed: bool,
    pub caption: bool,
    pub carousel: bool,
    pub other: bool,
    pub unlisted: bool,
}

// How much is known: how many packages, maps and fragments there are, and whether a PLT was seen. How many of the fragments lead: their
// bodies stand at the front of the fragment room. How many maps were lost on the way, and what is new. The flags stand together: a gap
// behind each would be copied too, in pieces that wait for each other.
// Stays: counts and a flag stand apart from the arrays, as in the definition `Record`; no heap, so no Vec.
#[derive(Clone, Copy)]
pub struct Extent {
    pub package_count: usize,
    pub map_count: usize,
    pub fragment_count: usize,
    pub leading: usize,
    pub lost: usize,
    pub seen: bool,
    pub news: News,
}

// What a record keeps of a broadcast beside its numbers: the data set, packages and map heads as pairs packed in one number, fragment heads.
// Laid out as C has it, so that the bench can lend it.
#[repr(C)]
#[derive(Clone, Copy, PartialEq, Eq)]
pub struct Kept {
    pub data_set: IdSet,
    pub packages: [u32; 255],
    pub map_heads: [u32; 64],
    pub fragment_heads: [u64; 256],
}

pub fn no_news() -> News
    ensures { result ≡ no_news }
{
    News {
        changed: false,
        caption: false,
        carousel: false,
        other: false,
        unlisted: false,
    }
}

// What is new, and that what is known changed.
pub fn changed(n: News) -> News
    ensures { result ≡ record { changed = true; caption = n.caption; carousel = n.carousel; other = n.other; unlisted = n.unlisted } }
{
    News { changed: true, ..n }
}

// The extent with other news.
pub fn with_news(e: Extent, news: News) -> Extent
    ensures { result ≡ with_news e news }
{
    Extent { news, ..e }
}
