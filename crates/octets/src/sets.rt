// Sets of packet identifiers, whose bits are counted by the words. What is meant is said in Sets.antt of `meaning`.

ghost use Rattle.std.specs.Prelude.{◌≡◌, ◌≤◌, ◌<◌, ◌^◌};
ghost use Rattle.meaning.specs.Sets.{bit_at, in_set, with_id, without_id, how_many};
ghost use Rattle.meaning.specs.Start.{no_words};
ghost use Rattle.std.specs.Int.Count.{ones};

// Bit `k` of a word, 0 or 1.
fn word_bit(w: u64, k: u64) -> u64
    requires { k < 64 }
    ensures { result ≡ bit_at w k }
{
    (w >> k) & 1
}

// The ones of a word.
fn word_ones(w: u64) -> u32
    ensures { (result ≡ ones w) × (result ≤ 64) × (w < 2 ^ 64) }
{
    u64::count_ones(w)
}

// A set of packet identifiers: one bit for each, in 1,024 words. Laid out as C has it, so that the bench can lend one.
#[repr(C)]
#[derive(Clone, Copy, PartialEq, Eq)]
pub struct IdSet {
    pub words: [u64; 1024],
}

impl IdSet {
    // The set with nothing in it.
    pub fn empty() -> IdSet
        ensures { result.words ≡ no_words }
    {
        IdSet { words: [0; 1024] }
    }

    // Whether `id` is in the set.
    pub fn has(&self, id: u16) -> bool
        ensures { result ≡ in_set self.now.words id }
    {
        let p = id as usize;
        let w = self.words[p / 64];
        let k = (p % 64) as u64;
        word_bit(w, k) == 1
    }

    // Puts `id` into the set.
    pub fn insert(&mut self, id: u16)
        ensures { self.new.words ≡ with_id self.old.words id }
    {
        let p = id as usize;
        let i = p / 64;
        let w = self.words[i];
        let k = (p % 64) as u64;
        self.words[i] = w | (1u64 << k);
    }

    // Takes `id` out of the set.
    pub fn remove(&mut self, id: u16)
        ensures { self.new.words ≡ without_id self.old.words id }
    {
        let p = id as usize;
        let i = p / 64;
        let w = self.words[i];
        let k = (p % 64) as u64;
        self.words[i] = w - (word_bit(w, k) << k);
    }

    // How many identifiers the set holds.
    pub fn count(&self) -> u32
        ensures { result ≡ how_many (in_set self.now.words) 65536 }
    {
        let mut n: u32 = 0;
        for i in 0..1024 {
            n += word_ones(self.words[i]);
        }
        n
    }
}
