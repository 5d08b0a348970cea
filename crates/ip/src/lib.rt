// Plain IP packets: which may be rewritten, and their lengths and checksums worked out afresh, in place. Rests on `octets`; what is meant is
// said in Ip.antt and Checksums.antt of `meaning`.
#![tactic(auto)]

ghost use Rattle.std.specs.Prelude.{◌≡◌, ◌+◌, ◌-◌, ◌*◌, ◌≤◌, ◌<◌, ◌&&◌, length, take, drop, eqb};
ghost use Rattle.meaning.specs.Bytes.{with16};
ghost use Rattle.meaning.specs.Writing.{Wrote};
ghost use Rattle.meaning.specs.Checksums.{ones_sum, non_zero};
ghost use Rattle.meaning.specs.Ip.{header_length, is_udp, plain4, plain6, plain_ip, udp_checksum, header_afresh, udp_length_afresh, afresh4, afresh6, afresh};
ghost use Rattle.meaning.proofs.ChecksumLaws.{words, folded};
ghost use Rattle.ip.specs.Words.{udp_by, udp_or_none};
ghost use Rattle.ip.specs.Room.{Room4, Room6, Room};

use octets::{be16, put16};

// ---- the sum

// The words added up as they are: 65,539 bytes have 32,770 words, whose sum fits 32 bits, so nothing is folded on the way. The upper bytes
// and the lower bytes are added apart, which the compiler makes vectors of.
fn words(s: &[u8]) -> usize
    requires { length s.now ≤ 131000 }
    ensures { (result ≡ words s.now) × (result * 2 ≤ 65535 * (length s.now + 1)) }
{
    let mut upper: usize = 0;
    let mut lower: usize = 0;
    for i in 0..s.len() / 2 {
        upper += usize::from(s[i * 2]);
        lower += usize::from(s[i * 2 + 1]);
    }
    if s.len() % 2 == 1 {
        return (upper + usize::from(s[s.len() - 1])) * 256 + lower;
    }
    upper * 256 + lower
}

// A number of 32 bits folded to 16: two turns are enough.
fn fold(n: usize) -> usize
    requires { n < 4294967296 }
    ensures { (result ≡ folded n) × (result ≤ 65535) }
{
    let once = n % 65536 + n / 65536;
    once % 65536 + once / 65536
}

// The internet sum.
fn ones_sum(s: &[u8]) -> usize
    requires { length s.now ≤ 131000 }
    ensures { (result ≡ ones_sum s.now) × (result ≤ 65535) }
{
    fold(words(s))
}

// A checksum of 0 in its other form.
fn non_zero(n: usize) -> usize
    ensures { result ≡ non_zero n }
{
    if n == 0 {
        return 65535;
    }
    n
}

// ---- lengths and checksums

// Writes the low 16 bits of `n` at `at`.
fn set16(s: &mut [u8], at: usize, n: usize)
    requires { at + 2 ≤ length s.old }
    ensures { s.new ≡ with16 at n s.old }
{
    put16(s, at, n);
}

// An IPv4 header of `h` bytes.
fn header_afresh(s: &mut [u8], h: usize)
    requires { (12 ≤ h) × (h ≤ length s.old) × (length s.old ≤ 65575) }
    ensures { s.new ≡ header_afresh h s.old }
{
    let n = s.len();
    set16(s, 2, n);
    set16(s, 10, 0);
    let c = 65535 - ones_sum(&s[0..h]);
    set16(s, 10, c);
}

fn udp_length_afresh(s: &mut [u8], h: usize)
    requires { h + 8 ≤ length s.old }
    ensures { s.new ≡ udp_length_afresh h s.old }
{
    let n = s.len();
    set16(s, h + 4, n - h);
}

// UDP behind an IP header of `h` bytes, with the words of a pseudo header added up.
fn udp_afresh(s: &mut [u8], h: usize, pseudo: usize)
    requires { (h + 8 ≤ length s.old) × (length s.old ≤ 65575) × (pseudo ≤ 2097152) }
    ensures { s.new ≡ udp_by pseudo h s.old }
{
    udp_length_afresh(s, h);
    set16(s, h + 6, 0);
    let c = non_zero(65535 - fold(pseudo + words(&s[h..])));
    set16(s, h + 6, c);
}

// Whether UDP has no checksum: it is optional, and zero.
fn no_checksum(s: &[u8], h: usize, optional: bool) -> bool
    requires { h + 8 ≤ length s.now }
    ensures { result ≡ (optional && eqb (udp_checksum h s.now) 0) }
{
    if !optional {
        return false;
    }
    be16(s, h + 6) == 0
}

// UDP afresh, but where it has no checksum it gets none.
fn udp_or_none(s: &mut [u8], h: usize, pseudo: usize, optional: bool)
    requires { (h + 8 ≤ length s.old) × (length s.old ≤ 65575) × (pseudo ≤ 2097152) }
    ensures { s.new ≡ udp_or_none optional pseudo h s.old }
{
    if no_checksum(s, h, optional) {
        udp_length_afresh(s, h);
        return;
    }
    udp_afresh(s, h, pseudo);
}

// The words of the pseudo header: the addresses, which are from `a` to `e`, the protocol, and the length of what stands behind `h` bytes.
fn pseudo(s: &[u8], a: usize, e: usize, h: usize) -> usize
    requires { (a ≤ e) × (e ≤ a + 32) × (e ≤ length s.now) × (h ≤ length s.now) × (length s.now ≤ 65575) }
    ensures { (result ≡ words (take (e - a) (drop a s.now)) + (17 + (length s.now - h))) × (result ≤ 2097152) }
{
    let n = s.len() - h;
    words(&s[a..e]) + (17 + n)
}

// The length of an IPv4 header, by its first byte.
fn header_length(s: &[u8]) -> usize
    requires { 0 < length s.now }
    ensures { (result ≡ header_length s.now) × (result ≤ 60) }
{
    usize::from(s[0] % 16) * 4
}

// In IPv4 the UDP checksum is optional.
fn afresh4(s: &mut [u8])
    requires { Room4 s.old }
    ensures { s.new ≡ afresh4 s.old }
{
    let h = header_length(s);
    header_afresh(s, h);
    let p = pseudo(s, 12, 20, h);
    udp_or_none(s, h, p, true);
}

// In IPv6 it is not.
fn afresh6(s: &mut [u8])
    requires { Room6 s.old }
    ensures { s.new ≡ afresh6 s.old }
{
    let n = s.len() - 40;
    set16(s, 4, n);
    let p = pseudo(s, 8, 40, 40);
    udp_or_none(s, 40, p, false);
}

// ---- which TLV payload may be rewritten

fn is_udp(s: &[u8], h: usize) -> bool
    requires { h ≤ 60 }
    ensures { result ≡ is_udp h s.now }
{
    if s.len() < h + 8 {
        return false;
    }
    be16(s, h + 4) == s.len() - h
}

fn plain4(s: &[u8]) -> bool
    ensures { result ≡ plain4 s.now }
{
    if s.len() < 20 {
        return false;
    }
    if s[0] / 16 != 4 {
        return false;
    }
    let h = header_length(s);
    if h < 20 {
        return false;
    }
    if be16(s, 2) != s.len() {
        return false;
    }
    if be16(s, 6) % 0x4000 != 0 {
        return false;
    }
    if s[9] != 17 {
        return false;
    }
    is_udp(s, h)
}

fn plain6(s: &[u8]) -> bool
    ensures { result ≡ plain6 s.now }
{
    if s.len() < 40 {
        return false;
    }
    if s[0] / 16 != 6 {
        return false;
    }
    if be16(s, 4) != s.len() - 40 {
        return false;
    }
    if s[6] != 17 {
        return false;
    }
    is_udp(s, 40)
}

// A TLV payload, by the packet's type.
pub fn plain_ip(tlv_type: u8, s: &[u8]) -> bool
    ensures { result ≡ plain_ip tlv_type s.now }
{
    if tlv_type == 1 {
        return plain4(s);
    }
    if tlv_type == 2 {
        return plain6(s);
    }
    false
}

// ---- in an output

// The TLV payload of a packet of that type, from `at` to `end` of the output.
pub fn afresh(tlv_type: u8, out: &mut [u8], at: usize, end: usize)
    requires { Room tlv_type (take (end - at) (drop at out.old)) × (at ≤ end) × (end ≤ length out.old) }
    ensures { Wrote (afresh tlv_type (take (end - at) (drop at out.old))) out.old at out.new end }
{
    if tlv_type == 1 {
        afresh4(&mut out[at..end]);
        return;
    }
    if tlv_type == 2 {
        afresh6(&mut out[at..end]);
    }
}
