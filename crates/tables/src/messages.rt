// The messages of a signalling payload: one by itself, and the parts of an aggregate one after the other.
ghost use Rattle.std.specs.Prelude.{◌≡◌, ℕ, ◌+◌, ◌-◌, ◌*◌, ◌%◌, ◌≤◌, ◌<◌, length, take, drop, get_or, cond};
ghost use Rattle.meaning.specs.Bytes.{Bytes, be16_at, be32_at};
ghost use Rattle.meaning.specs.Readers.{Out, bytes};
ghost use Rattle.meaning.specs.Messages.{is_long, message_body, message};
ghost use Rattle.tables.specs.Answers.{FrameIs, MessageIs};

use octets::{be16, be32, id16};

// A message: its number, and where its body starts and ends.
#[derive(Clone, Copy)]
pub struct Message {
    pub number: u16,
    pub start: usize,
    pub end: usize,
}

// A part behind its length: where it starts and ends.
#[derive(Clone, Copy)]
pub struct Frame {
    pub start: usize,
    pub end: usize,
}

// Whether a message's length has 32 bits.
fn is_long(number: u16) -> bool
    ensures { result ≡ is_long number }
{
    matches!(number, 0 | 0x8003 | 0x7000..=0x7FFF | 0xF000..)
}

// A part of `n` bytes from `start` on, whatever stands before it.
fn part_from(s: &[u8], start: usize, n: usize) -> Option<Frame>
    requires { start ≤ length s.now }
    ensures { (o : Out Bytes) (at : ℕ) → at < start → o ≡ bytes n (drop start s.now) → FrameIs o s.now at result }
{
    if s.len() - start < n {
        return None;
    }
    Some(Frame {
        start,
        end: start + n,
    })
}

// How many bytes a length has.
fn width(long: bool) -> usize
    ensures { result ≡ cond long 4 2 }
{
    if long { 4 } else { 2 }
}

// The length at `at`.
fn length_at(s: &[u8], at: usize, long: bool) -> usize
    requires { at + cond long 4 2 ≤ length s.now }
    ensures { result ≡ cond long (be32_at s.now at) (be16_at s.now at) }
{
    if long { be32(s, at) } else { be16(s, at) }
}

// The part of an aggregate at `at`, behind its length.
pub fn frame_at(s: &[u8], at: usize, long: bool) -> Option<Frame>
    ensures { FrameIs (message_body long (drop at s.now)) s.now at result }
{
    let len = s.len();
    let n = width(long);
    if len < n {
        return None;
    }
    if len - n < at {
        return None;
    }
    part_from(s, at + n, length_at(s, at, long))
}

// The message at the front of `s`.
pub fn message_of(s: &[u8]) -> Option<Message>
    ensures { MessageIs (message s.now) s.now result }
{
    if s.len() < 3 {
        return None;
    }
    let number = id16(s, 0);
    let body = frame_at(s, 3, is_long(number))?;
    Some(Message {
        number,
        start: body.start,
        end: body.end,
    })
}
