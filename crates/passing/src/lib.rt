// The packets of a run, one after the other: what is learned from each, whether it goes to the output, and how. Packets that go out as
// they are go in rows, one copy for a row.
#![tactic(auto)]

ghost use Rattle.std.specs.Prelude.{◌≡◌, ℕ, ◌+◌, ◌-◌, ◌*◌, ◌≤◌, ◌<◌, true, false, not, ◌&&◌, List, [], ◌∷◌, ◌++◌, length};
ghost use Rattle.std.proofs.Math.Option.{some};
ghost use Rattle.meaning.specs.Sets.{in_set};
ghost use Rattle.meaning.specs.Mmtp.{mmtp_of};
ghost use Rattle.meaning.specs.Narrow.{packet_for, narrow_packet};
ghost use Rattle.meaning.specs.Learn.{Known};
ghost use Rattle.narrowing.specs.Answers.{signal_of};
ghost use Rattle.learning.specs.Kept.{pairs_in};
ghost use Rattle.observing.specs.Steps.{KeepsIn};
ghost use Rattle.passing.specs.Verdicts.{VerdictIs, Signals, SignalsSome, RowIs};
ghost use Rattle.passing.specs.Passing.{cuts_plt, cuts, Spares, Emitted, Refreshed, FitsOne, Fits, SofarSome, SofarAfter, AheadIs, Along, ScannedAs, with_skipped, with_withheld, with_row};

use learning::packages::lists_service;
use learning::{Extent, Kept, no_news, with_news};
use meaning::{Counts, Modes, Options, Service, Step};
use narrowing::narrow::rewrite;
use observing::observe::observe;
use octets::{IdSet, copy};
use rules::{decide, ready};
use tlv::{gap_end, mmtp_of, next, packet_payload};

// What stays the same over a call: the modes, the wishes, the packet limit, and the most bytes of one message.
#[derive(Clone, Copy)]
pub struct Terms {
    pub modes: Modes,
    pub options: Options,
    pub limit: usize,
    pub most: usize,
}

// Between two packets of a call: how much is known, the counts so far, and whether the filter is ready.
#[derive(Clone, Copy)]
pub struct Progress {
    pub extent: Extent,
    pub counts: Counts,
    pub ready: bool,
}

// A signalling packet: its identifier, and whether it is rewritable by its header.
#[derive(Clone, Copy)]
pub struct Signal {
    pub id: u16,
    pub rewritable: bool,
}

// What becomes of a packet; one of signalling is learned from first.
#[derive(Clone, Copy)]
pub enum Verdict {
    Pass,
    Withhold,
    Signalling(Signal),
}

fn verdict_of(p: &[u8], set: &IdSet, is_ready: bool) -> Verdict
    ensures { VerdictIs p.now set.now.words is_ready result }
{
    let Some(m) = mmtp_of(p) else {
        return Verdict::Pass;
    };
    if m.payload_type == 2 {
        return Verdict::Signalling(Signal {
            id: m.identifier,
            rewritable: m.rewritable,
        });
    }
    if !is_ready {
        return Verdict::Withhold;
    }
    if set.has(m.identifier) {
        return Verdict::Withhold;
    }
    Verdict::Pass
}

// ---- a signalling packet

// `n` more taken in.
fn taken_in(c: Counts, n: usize) -> Counts
    requires { c.accepted + n ≤ 18446744073709551615 }
    ensures { result ≡ record c { accepted = c.accepted + n } }
{
    Counts {
        accepted: c.accepted + n,
        ..c
    }
}

// `n` more taken in, and written up to `bytes` of the output.
fn sent(c: Counts, n: usize, bytes: usize, rewritten: usize) -> Counts
    requires { (c.accepted + n ≤ 18446744073709551615) × (c.written + n ≤ 18446744073709551615) × (c.rewritten + rewritten ≤ 18446744073709551615) }
    ensures { result ≡ record c { bytes = bytes; accepted = c.accepted + n; written = c.written + n; rewritten = c.rewritten + rewritten } }
{
    Counts {
        bytes,
        written: c.written + n,
        rewritten: c.rewritten + rewritten,
        ..taken_in(c, n)
    }
}

// Whether something stands there that is not wanted.
fn against(there: bool, wanted: bool) -> bool
    ensures { result ≡ (there && not wanted) }
{
    there && !wanted
}

// Whether the wanted service may stand in a PLT of the payload: in one on identifier 0 that changed what is known, or of which not all
// packages are listed; else only if it is listed.
fn cuts_plt(service: Service, id: u16, e: Extent, packages: &[u32; 255]) -> bool
    requires { e.package_count ≤ 255 }
    ensures { result ≡ cuts_plt service id e.news (pairs_in e.package_count packages.now) }
{
    let Service::Only(wanted) = service else {
        return false;
    };
    if id != 0 {
        return false;
    }
    if e.news.changed {
        return true;
    }
    if e.news.unlisted {
        return true;
    }
    lists_service(packages, e.package_count, wanted)
}

// Whether a wish is against anything that stands in a payload's tables.
fn cuts(o: Options, id: u16, e: Extent, packages: &[u32; 255]) -> bool
    requires { e.package_count ≤ 255 }
    ensures { result ≡ cuts o id e.news (pairs_in e.package_count packages.now) }
{
    let n = e.news;
    if against(n.other, o.other) {
        return true;
    }
    if against(n.caption, o.caption) {
        return true;
    }
    if against(n.carousel, o.carousel) {
        return true;
    }
    cuts_plt(o.service, id, e, packages)
}

// Narrowed, or as it is where narrowing leaves it. Learning has been through the tables already: narrowing is asked only where a wish is
// against what stands in them.
fn narrowed(
    p: &[u8],
    payload: &[u8],
    signal: Signal,
    s: Progress,
    t: Terms,
    packages: &[u32; 255],
    out: &mut [u8],
) -> Counts
    requires { (mmtp_of p.now ≡ some (signal_of signal.id signal.rewritable payload.now)) × Spares t.options signal.id s.extent.news (pairs_in s.extent.package_count packages.now) payload.now × (s.extent.package_count ≤ 255) × FitsOne s.counts (length p.now) (length out.old) }
    ensures { Emitted false (packet_for t.modes t.options p.now (some (signal_of signal.id signal.rewritable payload.now))) p.now s.counts out.old result out.new }
{
    let o = t.options;
    let c = s.counts;
    if cuts(o, signal.id, s.extent, packages) {
        if let Some(last) = rewrite(
            p,
            payload,
            signal.id,
            signal.rewritable,
            o,
            t.modes,
            out,
            c.bytes,
        ) {
            return sent(c, 1, last, 1);
        }
    }
    sent(c, 1, copy(p, out, c.bytes), 0)
}

// A signalling packet, after it was learned from: withheld where the set has it, else written.
fn emit(
    p: &[u8],
    payload: &[u8],
    signal: Signal,
    s: Progress,
    t: Terms,
    packages: &[u32; 255],
    set: &IdSet,
    out: &mut [u8],
) -> Counts
    requires { Signals p.now payload.now signal.id signal.rewritable × Spares t.options signal.id s.extent.news (pairs_in s.extent.package_count packages.now) payload.now × (s.extent.package_count ≤ 255) × FitsOne s.counts (length p.now) (length out.old) }
    ensures { Emitted (in_set set.now.words signal.id) (narrow_packet t.modes t.options p.now) p.now s.counts out.old result out.new }
{
    if set.has(signal.id) {
        return taken_in(s.counts, 1);
    }
    narrowed(p, payload, signal, s, t, packages, out)
}

// Readiness after a packet; the drop set is worked out again only where something changed.
fn refreshed(
    e: Extent,
    was: bool,
    o: Options,
    kept: &Kept,
    map_room: &[u16],
    set: &mut IdSet,
) -> bool
    requires { (k : Known) × KeepsIn k e kept.now map_room.now }
    ensures { Refreshed e.news.changed o e was kept.now map_room.now set.old.words result set.new.words }
{
    if !e.news.changed {
        return was;
    }
    decide(o, e, kept, map_room, set);
    ready(o.service, e, kept)
}

// A signalling packet: learned from, then withheld or written.
fn signalling(
    p: &[u8],
    signal: Signal,
    s: Progress,
    t: Terms,
    kept: &mut Kept,
    map_room: &mut [u16],
    bodies: &mut [u8],
    set: &mut IdSet,
    out: &mut [u8],
) -> Progress
    requires { SignalsSome p.now signal.id signal.rewritable × Fits s (length p.now) (length out.old) × SofarSome t s kept.old map_room.old bodies.old set.old.words out.old }
    ensures { SofarAfter (p.now ∷ []) 0 t s kept.old map_room.old bodies.old set.old.words out.old result kept.new map_room.new bodies.new set.new.words out.new × ((m : ℕ) → Fits s (length p.now + m) (length out.old) → Fits result m (length out.new)) }
{
    let before = with_news(s.extent, no_news());
    let payload = packet_payload(p);
    let extent = observe(payload, signal.id, t.most, before, kept, map_room, bodies);
    let learned = Progress {
        extent,
        ready: refreshed(extent, s.ready, t.options, kept, map_room, set),
        ..s
    };
    Progress {
        counts: emit(p, payload, signal, learned, t, &kept.packages, set, out),
        ..learned
    }
}

// ---- rows

// A signalling packet that stands ahead: where it ends, and what it is.
#[derive(Clone, Copy)]
pub struct Ahead {
    pub end: usize,
    pub signal: Signal,
}

// What ends a row of packets that go to the output as they are.
#[derive(Clone, Copy)]
pub enum Stop {
    Keep,
    More,
    Skip,
    Withhold(usize),
    Signalling(Ahead),
}

// `count` packets that go to the output as they are, up to `end`, and what stands there.
#[derive(Clone, Copy)]
pub struct Row {
    pub end: usize,
    pub count: usize,
    pub stop: Stop,
}

fn row_to(end: usize, count: usize, stop: Stop) -> Row
    ensures { result ≡ record { end = end; count = count; stop = stop } }
{
    Row { end, count, stop }
}

// A row is cut where it has 256 bytes: a longer one is read too far ahead of its copying.
fn row_at(run: &[u8], from: usize, limit: usize, set: &IdSet, is_ready: bool) -> Row
    requires { from ≤ length run.now }
    ensures { RowIs limit set.now.words is_ready run.now from result }
{
    let mut at = from;
    let mut count: usize = 0;
    // Stays: `at` is no index, it goes on by the length of each packet that is found; a range has no such step, so `for` is no plainer.
    while at - from < 256 {
        let here = at;
        match next(run, here, limit) {
            Step::Packet(n) => {
                at = here + n;
                match verdict_of(&run[here..at], set, is_ready) {
                    Verdict::Pass => {
                        count += 1;
                    }
                    Verdict::Withhold => return row_to(here, count, Stop::Withhold(at)),
                    Verdict::Signalling(signal) => return row_to(
                        here,
                        count,
                        Stop::Signalling(Ahead { end: at, signal }),
                    ),
                }
            }
            Step::Skip => return row_to(here, count, Stop::Skip),
            Step::Keep => return row_to(here, count, Stop::Keep),
        }
    }
    row_to(at, count, Stop::More)
}

// ---- the steps by number

fn with_skipped(s: Progress, n: usize) -> Progress
    requires { s.counts.skipped + n ≤ 18446744073709551615 }
    ensures { result ≡ with_skipped s n }
{
    Progress {
        counts: Counts {
            skipped: s.counts.skipped + n,
            ..s.counts
        },
        ..s
    }
}

fn with_withheld(s: Progress) -> Progress
    requires { s.counts.accepted + 1 ≤ 18446744073709551615 }
    ensures { result ≡ with_withheld s }
{
    Progress {
        counts: taken_in(s.counts, 1),
        ..s
    }
}

// A row of `count` packets, written up to `bytes` of the output.
fn with_row(s: Progress, count: usize, bytes: usize) -> Progress
    requires { (s.counts.accepted + count ≤ 18446744073709551615) × (s.counts.written + count ≤ 18446744073709551615) }
    ensures { result ≡ with_row s count bytes }
{
    Progress {
        counts: sent(s.counts, count, bytes, 0),
        ..s
    }
}

// ---- packets that teach nothing

// How far they go; no signalling packet stands ahead where bytes to keep do.
#[derive(Clone, Copy)]
pub struct Stretch {
    pub progress: Progress,
    pub at: usize,
    pub ahead: Option<Ahead>,
}

fn stretch_to(progress: Progress, at: usize, ahead: Option<Ahead>) -> Stretch
    ensures { result ≡ record { progress = progress; at = at; ahead = ahead } }
{
    Stretch {
        progress,
        at,
        ahead,
    }
}

// Rows, gaps and withheld packets from `from` on, up to a signalling packet or to the bytes to keep.
fn plain_packets(
    run: &[u8],
    from: usize,
    first: Progress,
    t: Terms,
    set: &IdSet,
    out: &mut [u8],
) -> Stretch
    requires { (from ≤ length run.now) × Fits first (length run.now - from) (length out.old) }
    ensures { Along run.now from t first set.now.words out.old result.progress result.at out.new × AheadIs t.limit run.now result.at result.ahead }
{
    let mut s = first;
    let mut at = from;
    loop {
        let x = row_at(run, at, t.limit, set, s.ready);
        let here = x.end;
        let bytes = copy(&run[at..here], out, s.counts.bytes);
        s = with_row(s, x.count, bytes);
        match x.stop {
            Stop::Keep => return stretch_to(s, here, None),
            Stop::More => {
                at = here;
            }
            Stop::Skip => {
                at = gap_end(run, here, t.limit);
                s = with_skipped(s, at - here);
            }
            Stop::Withhold(end) => {
                at = end;
                s = with_withheld(s);
            }
            Stop::Signalling(ahead) => return stretch_to(s, here, Some(ahead)),
        }
    }
}

// ---- all packets

// How far a run was taken in, and where the bytes to keep begin.
#[derive(Clone, Copy)]
pub struct Scanned {
    pub progress: Progress,
    pub at: usize,
}

// The packets of a run.
pub fn packets(
    run: &[u8],
    first: Progress,
    t: Terms,
    kept: &mut Kept,
    map_room: &mut [u16],
    bodies: &mut [u8],
    set: &mut IdSet,
    out: &mut [u8],
) -> Scanned
    requires { Fits first (length run.now) (length out.old) × SofarSome t first kept.old map_room.old bodies.old set.old.words out.old }
    ensures { ScannedAs run.now t first kept.old map_room.old bodies.old set.old.words out.old result kept.new map_room.new bodies.new set.new.words out.new }
{
    let mut s = first;
    let mut at: usize = 0;
    loop {
        let x = plain_packets(run, at, s, t, set, out);
        let Some(next) = x.ahead else {
            return Scanned {
                progress: x.progress,
                at: x.at,
            };
        };
        at = next.end;
        s = signalling(
            &run[x.at..at],
            next.signal,
            x.progress,
            t,
            kept,
            map_room,
            bodies,
            set,
            out,
        );
    }
}
