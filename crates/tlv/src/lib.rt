// From a run of bytes to the MMTP payload of a packet: the step that finds packets, the offset of the MMTP, its header.
#![tactic(auto)]

ghost use Rattle.std.specs.Prelude.{◌≡◌, cond, ◌&&◌, [], ◌∷◌, ◌++◌, ◌+◌, ◌*◌, ◌%◌, ◌≤◌, ◌<◌, length, drop, get_or, eqb, leb};
ghost use Rattle.std.proofs.Math.Option.{map};
ghost use Rattle.meaning.specs.Packets.{is_type, size_of, candidate, followed, step_of};
ghost use Rattle.meaning.specs.Mmtp.{compressed, udp, offset_of, mmtp_header, mmtp_of};
ghost use Rattle.tlv.specs.Answers.{as_offset, header_to, extended_to, HeaderIs, PartIs, PlacedIs, MmtpIs};
ghost use Rattle.tlv.specs.Across.{head_of};
ghost use Rattle.tlv.specs.Gaps.{is_mark, near_type, may_start, LookedAt, NoStart, Gap, GapTo};
ghost use Rattle.meaning.specs.declared.Step.TheVariants.{Skip};

use meaning::Step;
use octets::{be16, id16, wide};

// Where the MMTP of a packet is: an offset in the TLV payload, and whether the packet may be rewritten.
#[derive(Clone, Copy)]
pub struct Offset {
    pub at: usize,
    pub rewritable: bool,
}

// The MMTP header: where the payload starts, the packet identifier and the payload type.
#[derive(Clone, Copy)]
pub struct Header {
    pub start: usize,
    pub identifier: u16,
    pub payload_type: u8,
}

// What is read of a packet: what its header says, and whether the packet may be rewritten.
#[derive(Clone, Copy)]
pub struct Mmtp {
    pub identifier: u16,
    pub payload_type: u8,
    pub rewritable: bool,
}

fn known_type(t: u8) -> bool
    ensures { result ≡ is_type t }
{
    matches!(t, 0x01..=0x03 | 0xFE..)
}

// The size of the packet whose header is at `at`.
fn size_at(run: &[u8], at: usize) -> usize
    requires { at + 4 ≤ length run.now }
    ensures { (result ≡ size_of (drop at run.now)) × (result < 65540) }
{
    4 + be16(run, at + 2)
}

fn candidate(run: &[u8], at: usize, most: usize) -> bool
    requires { at + 4 ≤ length run.now }
    ensures { result ≡ candidate most (drop at run.now) }
{
    run[at] == 0x7F && known_type(run[at + 1]) && size_at(run, at) <= most
}

// Whether a packet of at most `most` bytes starts at `at`.
fn starts_packet(run: &[u8], at: usize, most: usize) -> bool
    requires { at + 4 ≤ length run.now }
    ensures { result ≡ (candidate most (drop at run.now) && followed (drop at run.now)) }
{
    if !candidate(run, at, most) {
        return false;
    }
    let next = at + size_at(run, at);
    if run.len() <= next {
        return true;
    }
    run[next] == 0x7F
}

// What stands at `at` of a run.
pub fn next(run: &[u8], at: usize, most: usize) -> Step
    ensures { result ≡ step_of most (drop at run.now) }
{
    let len = run.len();
    if len < 4 {
        return Step::Keep;
    }
    if len - 4 < at {
        return Step::Keep;
    }
    if !starts_packet(run, at, most) {
        return Step::Skip;
    }
    let n = size_at(run, at);
    if len - at < n {
        return Step::Keep;
    }
    Step::Packet(n)
}

// Whether held bytes and the chunk behind them are `n` bytes or more. Their sum may be too large for a number.
fn reaches(held: &[u8], chunk: &[u8], n: usize) -> bool
    ensures { result ≡ leb n (length (held.now ++ chunk.now)) }
{
    let k = held.len();
    n <= k || n - k <= chunk.len()
}

// The byte at `at` of held bytes and the chunk behind them.
fn byte_across(held: &[u8], chunk: &[u8], at: usize) -> u8
    requires { at < length (held.now ++ chunk.now) }
    ensures { result ≡ get_or (held.now ++ chunk.now) at 0 }
{
    let k = held.len();
    if at < k {
        return held[at];
    }
    chunk[at - k]
}

// Their first four bytes.
fn head_across(held: &[u8], chunk: &[u8]) -> [u8; 4]
    requires { 4 ≤ length (held.now ++ chunk.now) }
    ensures { result ≡ head_of (held.now ++ chunk.now) }
{
    [
        byte_across(held, chunk, 0),
        byte_across(held, chunk, 1),
        byte_across(held, chunk, 2),
        byte_across(held, chunk, 3),
    ]
}

// What stands at the front of held bytes and the chunk behind them. Of a packet only its header and the byte behind it are looked at, so
// that the two need not be put together.
pub fn next_across(held: &[u8], chunk: &[u8], most: usize) -> Step
    ensures { result ≡ step_of most (held.now ++ chunk.now) }
{
    if !reaches(held, chunk, 4) {
        return Step::Keep;
    }
    let head = head_across(held, chunk);
    if !candidate(&head, 0, most) {
        return Step::Skip;
    }
    let n = size_at(&head, 0);
    if !reaches(held, chunk, n) {
        return Step::Keep;
    }
    if !reaches(held, chunk, n + 1) {
        return Step::Packet(n);
    }
    if byte_across(held, chunk, n) != 0x7F {
        return Step::Skip;
    }
    Step::Packet(n)
}

// Whether none of the 64 bytes from `at` on is 0x7F. All are looked at, with no way out, so that they are compared by vectors.
fn quiet(run: &[u8], at: usize) -> bool
    requires { at + 64 ≤ length run.now }
    ensures { LookedAt (is_mark run.now) at 64 result }
{
    let mut marked = false;
    for i in 0..64 {
        marked |= run[at + i] == 0x7F;
    }
    !marked
}

// Whether a byte may be a type: 0 is let through, which spares a comparison.
fn near_type(t: u8) -> bool
    ensures { result ≡ near_type t }
{
    (t < 4) | (0xFE <= t)
}

// Whether no packet starts at one of the 64 bytes from `at` on, by its first two bytes: with no way out, for the same reason.
fn barren(run: &[u8], at: usize) -> bool
    requires { at + 65 ≤ length run.now }
    ensures { LookedAt (may_start run.now) at 64 result }
{
    let mut starts = false;
    for i in 0..64 {
        starts |= (run[at + i] == 0x7F) & near_type(run[at + i + 1]);
    }
    !starts
}

// Whether no packet starts in the block of 64 bytes from `at` on. Most blocks of a gap are quiet, which is told sooner.
fn idle(run: &[u8], at: usize) -> bool
    requires { at + 65 ≤ length run.now }
    ensures { LookedAt (may_start run.now) at 64 result }
{
    if quiet(run, at) {
        return true;
    }
    barren(run, at)
}

// From `at` on past blocks in which no packet starts. Three bytes more are left, so that a header fits at each byte.
// Stays: it stops at a block that is not idle, and where it stopped is the answer, which a chain over blocks would count again.
fn blocks_end(run: &[u8], at: usize) -> usize
    requires { at ≤ length run.now }
    ensures { NoStart run.now at result }
{
    let mut to = at;
    while 67 <= run.len() - to && idle(run, to) {
        to += 64;
    }
    to
}

// From `at` on past bytes that start no packet, one by one, no further than `end`.
fn bytes_end(run: &[u8], at: usize, end: usize, most: usize) -> usize
    requires { (at ≤ end) × (end ≤ length run.now) }
    ensures { (result ≤ end) × Gap most run.now at result × (result < end → step_of most (drop result run.now) ≡ Skip → ⊥) }
{
    for to in at..end {
        let Step::Skip = next(run, to, most) else {
            return to;
        };
    }
    end
}

// The end of the block that starts at `at`.
fn block_end(run: &[u8], at: usize) -> usize
    requires { at ≤ length run.now }
    ensures { (at ≤ result) × (result ≤ length run.now) × (at < length run.now → at < result) }
{
    if run.len() - at < 64 {
        return run.len();
    }
    at + 64
}

// Where the bytes that start no packet end, from `at` on.
pub fn gap_end(run: &[u8], at: usize, most: usize) -> usize
    requires { at ≤ length run.now }
    ensures { GapTo most run.now at result }
{
    let mut to = at;
    while to < run.len() {
        let from = blocks_end(run, to);
        let end = block_end(run, from);
        to = bytes_end(run, from, end, most);
        if to < end {
            return to;
        }
    }
    to
}

// The MMTP behind a compressed IP header.
fn compressed(s: &[u8]) -> Option<Offset>
    ensures { result ≡ as_offset (compressed s.now) }
{
    if s.len() < 3 {
        return None;
    }
    let (at, rewritable) = match s[2] {
        0x21 | 0x61 => (3, true),
        0x20 => (23, false),
        0x60 => (45, false),
        _ => return None,
    };
    Some(Offset { at, rewritable })
}

// The MMTP behind an IP header of `header` bytes and a UDP header; port 123 is the clock.
fn udp_body(s: &[u8], header: usize) -> Option<Offset>
    requires { header ≤ 60 }
    ensures { result ≡ as_offset (udp header s.now) }
{
    if s.len() < header + 4 {
        return None;
    }
    if be16(s, header + 2) == 123 {
        return None;
    }
    Some(Offset {
        at: header + 8,
        rewritable: false,
    })
}

// The length of an IPv4 header, by its first byte.
fn header_length(s: &[u8]) -> usize
    ensures { (result ≡ get_or s.now 0 0 % 16 * 4) × (result ≤ 60) }
{
    if s.len() == 0 {
        return 0;
    }
    wide(s[0] % 16) * 4
}

// Where the MMTP is in the TLV payload of a packet of type `tlv_type`.
pub fn offset_of(tlv_type: u8, s: &[u8]) -> Option<Offset>
    ensures { result ≡ as_offset (offset_of tlv_type s.now) }
{
    match tlv_type {
        0x03 => compressed(s),
        0x01 => udp_body(s, header_length(s)),
        0x02 => udp_body(s, 40),
        _ => None,
    }
}

// A header that ends at `start`.
fn header_to(s: &[u8], start: usize) -> Option<Header>
    requires { 12 ≤ length s.now }
    ensures { result ≡ header_to s.now start }
{
    if s.len() < start {
        return None;
    }
    Some(Header {
        start,
        identifier: id16(s, 2),
        payload_type: s[1] % 64,
    })
}

// A header with an extension at `at`.
fn extended(s: &[u8], at: usize) -> Option<Header>
    requires { (12 ≤ length s.now) × (at ≤ 16) }
    ensures { result ≡ extended_to s.now at }
{
    if s.len() < at + 4 {
        return None;
    }
    header_to(s, at + 4 + be16(s, at + 2))
}

// The MMTP header at the front of `s`.
pub fn header_of(s: &[u8]) -> Option<Header>
    ensures { HeaderIs (mmtp_header s.now) s.now result }
{
    if s.len() < 12 {
        return None;
    }
    let flags = s[0];
    let at = 12 + wide((flags >> 5) & 1) * 4;
    if (flags >> 1) & 1 == 1 {
        return extended(s, at);
    }
    header_to(s, at)
}

// The payload: what is behind that header, as the rest of the caller's bytes; where the header is cut, their empty end.
pub fn payload_of(s: &[u8]) -> &[u8]
    ensures { PartIs (map (λ x. x.1) (mmtp_header s.now)) 12 s.now result.now }
{
    let Some(header) = header_of(s) else {
        let end = s.len();
        return &s[end..];
    };
    &s[header.start..]
}

// Where in a packet its MMTP starts, and whether the packet may be rewritten.
fn mmtp_at(p: &[u8]) -> Option<Offset>
    ensures { PlacedIs p.now result }
{
    if p.len() < 4 {
        return None;
    }
    let mmtp = offset_of(p[1], &p[4..])?;
    if p.len() - 4 < mmtp.at {
        return None;
    }
    Some(Offset {
        at: mmtp.at + 4,
        rewritable: mmtp.rewritable,
    })
}

// The MMTP of a packet, by its type and its TLV payload.
pub fn mmtp_of(p: &[u8]) -> Option<Mmtp>
    ensures { MmtpIs (mmtp_of p.now) p.now result }
{
    let Offset { at, rewritable } = mmtp_at(p)?;
    let header = header_of(&p[at..])?;
    Some(Mmtp {
        identifier: header.identifier,
        payload_type: header.payload_type,
        rewritable,
    })
}

// Its payload, as the rest of the packet; where none is read, the packet's empty end.
pub fn packet_payload(p: &[u8]) -> &[u8]
    ensures { PartIs (map (λ m. m.payload) (mmtp_of p.now)) 16 p.now result.now }
{
    let Some(mmtp) = mmtp_at(p) else {
        let end = p.len();
        return &p[end..];
    };
    payload_of(&p[mmtp.at..])
}
