// Reading and moving bytes, and sets of packet identifiers: the leaves that every other crate calls. What is meant is said in Bytes.antt,
// Writing.antt and Sets.antt of `meaning`.
#![tactic(auto)]

ghost use Rattle.std.specs.Prelude.{◌≡◌, ◌+◌, ◌-◌, ◌%◌, ◌≤◌, ◌<◌, ◌^◌, [], ◌∷◌, length, take, drop, get_or};
ghost use Rattle.meaning.specs.Bytes.{be16_at, be32_at, put16, put32};
ghost use Rattle.meaning.specs.Writing.{Wrote};

mod sets;

pub use sets::IdSet;

// A byte as a size.
pub fn wide(b: u8) -> usize
    ensures { (result ≡ b) × (result < 256) }
{
    usize::from(b)
}

// The 16-bit number at `at`, as an identifier.
pub fn id16(s: &[u8], at: usize) -> u16
    requires { at + 2 ≤ length s.now }
    ensures { result ≡ be16_at s.now at }
{
    u16::from_be_bytes([s[at], s[at + 1]])
}

// The 16-bit number at `at`, as a size.
pub fn be16(s: &[u8], at: usize) -> usize
    requires { at + 2 ≤ length s.now }
    ensures { (result ≡ be16_at s.now at) × (result < 65536) }
{
    usize::from(id16(s, at))
}

// The 32-bit number at `at`, as a size.
pub fn be32(s: &[u8], at: usize) -> usize
    requires { at + 4 ≤ length s.now }
    ensures { (result ≡ be32_at s.now at) × (result < 4294967296) }
{
    be16(s, at) * 65536 + be16(s, at + 2)
}

// Writes one byte at `to`; answers the offset past it.
pub fn put8(out: &mut [u8], to: usize, b: u8) -> usize
    requires { to < length out.old }
    ensures { Wrote (b ∷ []) out.old to out.new result }
{
    out[to] = b;
    to + 1
}

// Writes the low 16 bits of `n` at `to`, the upper byte first; answers the offset past them.
pub fn put16(out: &mut [u8], to: usize, n: usize) -> usize
    requires { to + 2 ≤ length out.old }
    ensures { Wrote (put16 n) out.old to out.new result }
{
    let low = put8(out, to, (n / 256 % 256) as u8);
    put8(out, low, (n % 256) as u8)
}

// Writes the low 32 bits of `n` at `to`, the upper bytes first; answers the offset past them.
pub fn put32(out: &mut [u8], to: usize, n: usize) -> usize
    requires { to + 4 ≤ length out.old }
    ensures { Wrote (put32 n) out.old to out.new result }
{
    let low = put16(out, to, n / 65536);
    put16(out, low, n % 65536)
}

// Copies `src` to `to` of `out`; answers the offset past it.
pub fn copy(src: &[u8], out: &mut [u8], to: usize) -> usize
    requires { to + length src.now ≤ length out.old }
    ensures { Wrote src.now out.old to out.new result }
{
    let end = to + src.len();
    out[to..end].copy_from_slice(src);
    end
}

// The 64 bytes of `lent` from `from` on.
fn lifted(lent: &[u8], from: usize) -> [u8; 64]
    requires { from + 64 ≤ length lent.now }
    ensures { result ≡ take 64 (drop from lent.now) }
{
    let mut block = [0u8; 64];
    copy(&lent[from..from + 64], &mut block, 0);
    block
}

// Moves whole blocks of 64 of the `n` bytes. Each block is read before it is written, so that it goes by vectors where the stretches
// overlap; the library's `copy_within` goes byte by byte there. Answers how many bytes were moved.
fn blocks_down(lent: &mut [u8], from: usize, n: usize, to: usize) -> usize
    requires { (to ≤ from) × (from + n ≤ length lent.old) }
    ensures { (result ≡ n - n % 64) × Wrote (take result (drop from lent.old)) lent.old to lent.new (to + result) }
{
    let mut i: usize = 0;
    while 64 <= n - i {
        let block = lifted(lent, from + i);
        copy(&block, lent, to + i);
        i += 64;
    }
    i
}

// Moves `n` bytes, one by one.
fn bytes_down(lent: &mut [u8], from: usize, n: usize, to: usize) -> usize
    requires { (to ≤ from) × (from + n ≤ length lent.old) }
    ensures { Wrote (take n (drop from lent.old)) lent.old to lent.new result }
{
    lent.copy_within(from..from + n, to);
    to + n
}

// Moves `n` bytes of `lent` from `from` down to `to`; the two stretches may overlap. Answers the offset past them.
pub fn move_down(lent: &mut [u8], from: usize, n: usize, to: usize) -> usize
    requires { (to ≤ from) × (from + n ≤ length lent.old) }
    ensures { Wrote (take n (drop from lent.old)) lent.old to lent.new result }
{
    if from == to {
        return to + n;
    }
    let k = blocks_down(lent, from, n, to);
    bytes_down(lent, from + k, n - k, to + k)
}

// Moves `n` bytes of `lent` from `from` up to `to`; the two stretches may overlap. Answers the offset past them.
pub fn move_up(lent: &mut [u8], from: usize, n: usize, to: usize) -> usize
    requires { (from ≤ to) × (to + n ≤ length lent.old) }
    ensures { Wrote (take n (drop from lent.old)) lent.old to lent.new result }
{
    let end = from + n;
    lent.copy_within(from..end, to);
    to + n
}
