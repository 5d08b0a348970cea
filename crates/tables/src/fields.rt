// Fields that are passed over: so many bytes, and bytes behind their own length. A reader answers where the field ends, if it is there.
ghost use Rattle.std.specs.Prelude.{◌≡◌, ◌+◌, ◌-◌, ◌*◌, ◌%◌, ◌≤◌, ◌<◌, length, take, drop, get_or};
ghost use Rattle.meaning.specs.Readers.{bytes, counted8, counted16};
ghost use Rattle.tables.specs.Answers.{Ends};

use octets::{be16, wide};

// `n` bytes at `at`.
pub fn bytes_end(s: &[u8], at: usize, n: usize) -> Option<usize>
    requires { at ≤ length s.now }
    ensures { Ends (bytes n (drop at s.now)) s.now result }
{
    if s.len() - at < n {
        return None;
    }
    Some(at + n)
}

// A length byte and as many bytes.
pub fn counted_end(s: &[u8], at: usize) -> Option<usize>
    ensures { Ends (counted8 (drop at s.now)) s.now result }
{
    if s.len() <= at {
        return None;
    }
    bytes_end(s, at + 1, wide(s[at]))
}

// A 16-bit length and as many bytes.
pub fn descriptors_end(s: &[u8], at: usize) -> Option<usize>
    ensures { Ends (counted16 (drop at s.now)) s.now result }
{
    let len = s.len();
    if len < 2 {
        return None;
    }
    if len - 2 < at {
        return None;
    }
    bytes_end(s, at + 2, be16(s, at))
}
