// Fragments of messages: their heads in an array, identifier, flags and length in one number. Of their bodies the first, those that lead, stand
// one after the other at the front of the room, the others so at its end. The free bytes between them go behind the one that grows, so that
// for one incoming body only what stands between their old and their new place moves, and each byte of it once.
#![tactic(auto)]

ghost use Rattle.std.specs.Prelude.{◌≡◌, ◌+◌, ◌-◌, ◌*◌, ◌%◌, ◌≤◌, ◌<◌, [], ◌∷◌, ◌++◌, length, take, drop, unwrap_or, position, IfSome, ◌==◌};
ghost use Rattle.meaning.specs.Writing.{Wrote};
ghost use Rattle.meaning.specs.Record.{fragment_identifier, fragment_flags, fragment_length, lens};
ghost use Rattle.fragments.specs.Fragments.{index_in, others_of, length_at, TakesOut, KeepsFragments, Numbers, Nearest, Stands, DropsAt, Drops, GivesBack, PutsBehind, HoldsFirst, Lengthens, GrowsWithin, GrowsAtIndex, LearnsMiddle};

mod place;

use octets::copy;
use place::{Leading, Place, move_free};

// What a head says of its fragment: its identifier.
#[tactic(auto, unfolding(meaning::specs::Record::fragment_identifier))]
pub fn identifier_of(head: u64) -> u16
    ensures { result ≡ fragment_identifier head }
{
    (head / 281474976710656) as u16
}

// Its length.
#[tactic(auto, unfolding(meaning::specs::Record::fragment_length))]
pub fn length_of(head: u64) -> usize
    ensures { (result ≡ fragment_length head) × (result < 1099511627776) }
{
    (head % 1099511627776) as usize
}

// Its flags.
#[tactic(auto, unfolding(meaning::specs::Record::fragment_flags))]
fn flags_of(head: u64) -> u8
    ensures { result ≡ fragment_flags head }
{
    (head / 1099511627776 % 256) as u8
}

// The head of a fragment of `n` bytes; of the flags the low six bits.
fn fragment_head(id: u16, flags: u8, n: usize) -> u64
    requires { n < 1099511627776 }
    ensures { result ≡ id * 281474976710656 + flags % 64 * 1099511627776 + n }
{
    let low = flags % 64;
    (id as u64) * 281474976710656 + (low as u64) * 1099511627776 + (n as u64)
}

// The head of a fragment that grows by `m` bytes.
#[tactic(auto, unfolding(meaning::specs::Record::fragment_length))]
fn longer(head: u64, m: usize) -> u64
    requires { fragment_length head + m < 1099511627776 }
    ensures { result ≡ head + m }
{
    head + (m as u64)
}

// The bytes of the fragments with these heads.
#[tactic(auto, using(crate::proofs::FragmentLaws::lens_sum))]
pub fn fragment_bytes(heads: &[u64]) -> usize
    requires { length heads.now ≤ 256 }
    ensures { result ≡ lens heads.now }
{
    heads.iter().map(|&head| length_of(head)).sum()
}

// The index of the identifier's fragment, if one of these is.
fn find_fragment(heads: &[u64], id: u16) -> Option<usize>
    ensures { result ≡ position (λ head. fragment_identifier head == id) heads.now }
{
    heads.iter().position(|&head| identifier_of(head) == id)
}

// Closes the gap at `at`: the heads behind it one slot down, the last slot free.
#[tactic(auto, using(crate::proofs::BlockLaws::close_done))]
fn close_slot(fragment_heads: &mut [u64; 256], n: usize, at: usize)
    requires { (at < n) × (n ≤ 256) }
    ensures { Wrote (take (n - 1 - at) (drop (at + 1) fragment_heads.old) ++ (0 ∷ [])) fragment_heads.old at fragment_heads.new n }
{
    fragment_heads.copy_within(at + 1..n, at);
    fragment_heads[n - 1] = 0;
}

// Takes out the head at `index`, if there is one. Answers how many are held then.
#[tactic(auto, unfolding(crate::specs::Fragments::others_of))]
fn take_out(fragment_heads: &mut [u64; 256], n: usize, index: usize) -> usize
    requires { n ≤ 256 }
    ensures out { TakesOut index n fragment_heads.old fragment_heads.new }
    ensures count { result ≡ others_of index n }
    ensures slot { index ≤ n → index < 256 → result < 256 }
{
    if index < n {
        close_slot(fragment_heads, n, index);
        return n - 1;
    }
    n
}

// The length of the fragment at `index` of these, 0 where there is none.
#[tactic(auto, using(crate::proofs::FragmentLaws::own_at, crate::proofs::FragmentLaws::own_past))]
fn length_at(heads: &[u64], index: usize) -> usize
    ensures { result ≡ lens (take 1 (drop index heads.now)) }
{
    match heads.get(index) {
        Some(&head) => length_of(head),
        None => 0,
    }
}

// The first `count`, leading.
fn leading_of(fragment_heads: &[u64; 256], count: usize) -> Leading
    requires { count ≤ 256 }
    ensures { (result.count ≡ count) × (result.bytes ≡ lens (take result.count fragment_heads.now)) }
{
    Leading {
        count,
        bytes: fragment_bytes(&fragment_heads[..count]),
    }
}

// How many lead when the free bytes come beside the fragment at `index`, from where they are.
fn beside(index: usize, leading: usize) -> usize
    ensures { (index < leading → result ≡ index + 1) × (leading ≤ index → result ≡ index) }
{
    if index < leading {
        return index + 1;
    }
    index
}

// How many fragments are held, and how many of them lead.
#[derive(Clone, Copy)]
pub struct Held {
    pub count: usize,
    pub leading: usize,
}

// What became of a fragment with a further body: it grew and stands there, it was given up, or there is none.
#[derive(Clone, Copy)]
pub enum Grown {
    At {
        start: usize,
        end: usize,
        flags: u8,
        held: Held,
    },
    Discarded(Held),
    Absent,
}

// Stays: heads and room are lent to each method, not held in a struct: a payload makes a call or two, and the struct would be made for it and taken apart.
impl Held {
    // The sense of a number of leading fragments that is handed in: at most all lead.
    fn nearest(self) -> usize
        ensures { Nearest self.count self.leading result }
    {
        self.leading.min(self.count)
    }

    // The index of the identifier's fragment, if one is held.
    #[tactic(auto, using(crate::proofs::FragmentLaws::found_at))]
    fn index_of(self, id: u16, fragment_heads: &[u64; 256]) -> Option<usize>
        requires { self.count ≤ 256 }
        ensures { (unwrap_or result self.count ≡ index_in id (take self.count fragment_heads.now)) × IfSome result (λ index. index < self.count) }
    {
        find_fragment(&fragment_heads[..self.count], id)
    }

    // Gives up the fragment at `index`: the free bytes come beside it, and its own are theirs then.
    fn give_up(self, index: usize, fragment_heads: &mut [u64; 256], bodies: &mut [u8]) -> Held
        requires { (index < self.count) × Numbers self.count fragment_heads.old bodies.old }
        ensures { DropsAt index self.count self.leading fragment_heads.old bodies.old result fragment_heads.new bodies.new }
    {
        let leading = leading_of(fragment_heads, self.nearest());
        let to = leading_of(fragment_heads, beside(index, leading.count));
        let all = fragment_bytes(&fragment_heads[..self.count]);
        move_free(leading, to, all, bodies);
        close_slot(fragment_heads, self.count, index);
        Held {
            count: self.count - 1,
            leading: index,
        }
    }

    // Gives up the fragment that was found, if one was.
    fn drop_found(
        self,
        found: Option<usize>,
        fragment_heads: &mut [u64; 256],
        bodies: &mut [u8],
    ) -> Held
        requires { IfSome found (λ index. index < self.count) × Numbers self.count fragment_heads.old bodies.old }
        ensures { DropsAt (unwrap_or found self.count) self.count self.leading fragment_heads.old bodies.old result fragment_heads.new bodies.new }
    {
        match found {
            Some(index) => self.give_up(index, fragment_heads, bodies),
            None => self,
        }
    }

    // Drops what is held of the identifier.
    pub fn drop_fragment(self, id: u16, fragment_heads: &mut [u64; 256], bodies: &mut [u8]) -> Held
        requires { KeepsFragments self.count self.leading fragment_heads.old bodies.old }
        ensures { Drops id self.count self.leading fragment_heads.old bodies.old result fragment_heads.new bodies.new }
    {
        let found = self.index_of(id, fragment_heads);
        self.drop_found(found, fragment_heads, bodies)
    }

    // Gives back the last that leads, the one that grew last: its bytes are free then, and the room is not touched.
    #[tactic(auto, using(crate::proofs::GrowLaws::given_back))]
    pub fn give_back(self, fragment_heads: &mut [u64; 256]) -> Held
        requires { (0 < self.leading) × (self.leading ≤ self.count) × (self.count ≤ 256) }
        ensures { GivesBack self.count self.leading fragment_heads.old result fragment_heads.new }
    {
        close_slot(fragment_heads, self.count, self.leading - 1);
        Held {
            count: self.count - 1,
            leading: self.leading - 1,
        }
    }

    // The place of the fragment at `index`, or of one that would stand behind all.
    fn place_of(self, index: usize, fragment_heads: &[u64; 256]) -> Place
        requires { (index ≤ self.count) × (self.count ≤ 256) }
        ensures { (result.index ≡ index) × Nearest self.count self.leading result.leading.count × Stands self.count fragment_heads.now result }
    {
        let heads = &fragment_heads[..self.count];
        Place {
            index,
            start: fragment_bytes(&fragment_heads[..index]),
            own: length_at(heads, index),
            leading: leading_of(fragment_heads, self.nearest()),
            all: fragment_bytes(heads),
        }
    }

    // Holds a first behind the others; what was held of its identifier, at this place, goes.
    fn put_behind(
        self,
        place: Place,
        id: u16,
        flags: u8,
        body: &[u8],
        fragment_heads: &mut [u64; 256],
        bodies: &mut [u8],
    ) -> Held
        requires { (place.index < 256) × Stands self.count fragment_heads.old place × Numbers self.count fragment_heads.old bodies.old × (place.all - place.own + length body.now ≤ length bodies.old) }
        ensures { PutsBehind place.index id flags body.now self.count place.leading.count fragment_heads.old bodies.old result fragment_heads.new bodies.new }
    {
        place.pack(bodies);
        copy(body, bodies, place.all - place.own);
        let count = take_out(fragment_heads, self.count, place.index);
        fragment_heads[count] = fragment_head(id, flags, body.len());
        Held {
            count: count + 1,
            leading: count + 1,
        }
    }

    // A first: what was held of its identifier goes, and it is held if there is a free slot and room.
    pub fn hold_first(
        self,
        id: u16,
        flags: u8,
        body: &[u8],
        fragment_heads: &mut [u64; 256],
        bodies: &mut [u8],
    ) -> Held
        requires { KeepsFragments self.count self.leading fragment_heads.old bodies.old }
        ensures { HoldsFirst id flags body.now self.count self.leading fragment_heads.old bodies.old result fragment_heads.new bodies.new }
    {
        let found = self.index_of(id, fragment_heads);
        let place = self.place_of(found.unwrap_or(self.count), fragment_heads);
        if place.first_fits(body.len(), bodies.len()) {
            return self.put_behind(place, id, flags, body, fragment_heads, bodies);
        }
        self.drop_found(found, fragment_heads, bodies)
    }

    // The fragment of this place with `body` behind it: the free bytes come there and take it up. Answers where it ends then.
    fn lengthen(
        self,
        place: Place,
        body: &[u8],
        fragment_heads: &mut [u64; 256],
        bodies: &mut [u8],
    ) -> usize
        requires { (place.index < self.count) × Stands self.count fragment_heads.old place × Numbers self.count fragment_heads.old bodies.old × (place.all + length body.now ≤ length bodies.old) }
        ensures lengthens { Lengthens place.index body.now self.count place.leading.count fragment_heads.old bodies.old fragment_heads.new bodies.new }
        ensures value { result ≡ place.start + place.own + length body.now }
    {
        let index = place.index;
        let end = place.start + place.own;
        let to = Leading {
            count: index + 1,
            bytes: end,
        };
        move_free(place.leading, to, place.all, bodies);
        copy(body, bodies, end);
        fragment_heads[index] = longer(fragment_heads[index], body.len());
        end + body.len()
    }

    // The fragment of this place grows by `body` within the limits, or is given up.
    fn grow_at(
        self,
        place: Place,
        body: &[u8],
        most: usize,
        fragment_heads: &mut [u64; 256],
        bodies: &mut [u8],
    ) -> Grown
        requires { (place.index < self.count) × Nearest self.count self.leading place.leading.count × Stands self.count fragment_heads.old place × Numbers self.count fragment_heads.old bodies.old }
        ensures { GrowsAtIndex place.index most body.now self.count self.leading fragment_heads.old bodies.old result fragment_heads.new bodies.new }
    {
        let index = place.index;
        if place.fits(body.len(), most, bodies.len()) {
            let flags = flags_of(fragment_heads[index]);
            let end = self.lengthen(place, body, fragment_heads, bodies);
            let held = Held {
                count: self.count,
                leading: index + 1,
            };
            return Grown::At {
                start: place.start,
                end,
                flags,
                held,
            };
        }
        Grown::Discarded(self.give_up(index, fragment_heads, bodies))
    }

    // A further body for the identifier's fragment: it grows within `most` and the room, or is given up.
    pub fn grow(
        self,
        id: u16,
        body: &[u8],
        most: usize,
        fragment_heads: &mut [u64; 256],
        bodies: &mut [u8],
    ) -> Grown
        requires { KeepsFragments self.count self.leading fragment_heads.old bodies.old }
        ensures { GrowsWithin id most body.now self.count self.leading fragment_heads.old bodies.old result fragment_heads.new bodies.new }
    {
        let Some(index) = self.index_of(id, fragment_heads) else {
            return Grown::Absent;
        };
        let place = self.place_of(index, fragment_heads);
        self.grow_at(place, body, most, fragment_heads, bodies)
    }

    // A middle: joined to the identifier's fragment, if there is one and it fits.
    pub fn middle(
        self,
        id: u16,
        body: &[u8],
        most: usize,
        fragment_heads: &mut [u64; 256],
        bodies: &mut [u8],
    ) -> Held
        requires { KeepsFragments self.count self.leading fragment_heads.old bodies.old }
        ensures { LearnsMiddle id most body.now self.count self.leading fragment_heads.old bodies.old result fragment_heads.new bodies.new }
    {
        match self.grow(id, body, most, fragment_heads, bodies) {
            Grown::At { held, .. } => held,
            Grown::Discarded(held) => held,
            Grown::Absent => self,
        }
    }
}
