// The three narrowings: of a table, a payload and a packet, each into a lent output.
ghost use Rattle.std.specs.Prelude.{◌≡◌, ℕ, ◌+◌, ◌-◌, ◌*◌, ◌≤◌, ◌<◌, length, take, drop, get_or, List, [], ◌∷◌, Bool, ◌&&◌, ◌||◌};
ghost use Rattle.meaning.specs.Bytes.{Bytes};
ghost use Rattle.meaning.specs.Writing.{Wrote};
ghost use Rattle.meaning.specs.Mmtp.{mmtp_of};
ghost use Rattle.meaning.specs.Ip.{plain_ip};
ghost use Rattle.meaning.specs.Narrow.{payload_bytes, narrow_payload, packet_bytes, packet_for, pa_message, parts_of_message, change_table, change_payload, change_packet, narrow_refusal, none_of_each};
ghost use Rattle.std.proofs.Math.Option.{some, map};
ghost use Rattle.narrowing.specs.Tables.{KnownIs};
ghost use Rattle.narrowing.specs.Answers.{starts_pa, NarrowedAs, RefusedAs, PaFound, PaIs, ChangedPaIs, RewroteAs, body_after, signal_of, Framed, no_rows, counted_in};

use crate::counting::{count_table, count_tables};
use crate::pa::{TableChange, pa_change, pa_to};
use crate::table::{change_of, changes, table_to};
use ip::{afresh, plain_ip};
use meaning::{Modes, Narrowing, Options, Refusal};
use octets::{copy, id16, put16, put32};
use tables::messages::message_of;
use tables::pa::{Table, pa_tables, table_at};
use tlv::{mmtp_of, packet_payload};

// What narrowing answers. The rows count captions, carousels and others.
// Stays: 01 names this form, the two rows flat in the answer, and `Refusing` of `demands` says that both are zero where it is refused.
#[derive(Clone, Copy)]
pub struct Narrowed {
    pub narrowing: Narrowing,
    pub stayed: [u64; 3],
    pub went: [u64; 3],
}

// The PA message of a payload: where in the payload it ends, and where in its body the tables start.
#[derive(Clone, Copy)]
pub struct Pa {
    pub end: usize,
    pub tables: usize,
}

// The same of one that narrowing changes, with what it makes of a table.
#[derive(Clone, Copy)]
pub struct ChangedPa {
    pub pa: Pa,
    pub known: TableChange,
}

fn answer_of(narrowing: Narrowing, counts: [[u64; 3]; 2]) -> Narrowed
    ensures { (result.narrowing ≡ narrowing) × (result.stayed ≡ get_or counts 0 []) × (result.went ≡ get_or counts 1 []) }
{
    let stayed = counts[0];
    let went = counts[1];
    Narrowed {
        narrowing,
        stayed,
        went,
    }
}

fn without_counts(narrowing: Narrowing) -> Narrowed
    ensures { (result.narrowing ≡ narrowing) × (result.stayed ≡ none_of_each) × (result.went ≡ none_of_each) }
{
    answer_of(narrowing, [[0u64; 3]; 2])
}

// The refusal of a narrowing by the lengths of its input and its output, if it is refused.
fn refusal(n: usize, out_length: usize) -> Option<Refusal>
    ensures { RefusedAs (narrow_refusal n out_length) result }
{
    if 65539 < n {
        return Some(Refusal::Long);
    }
    if out_length < n {
        return Some(Refusal::Short);
    }
    None
}

// A table alone counts as on identifier 0 and, changed, ends at its own length.
pub fn narrow_table(t: &[u8], o: Options, out: &mut [u8]) -> Narrowed
    ensures { NarrowedAs (narrow_refusal (length t.now) (length out.old)) (change_table o t.now) out.old out.new result.narrowing result.stayed result.went }
{
    if let Some(r) = refusal(t.len(), out.len()) {
        return without_counts(Err(r));
    }
    let Table::To(end) = table_at(t, 0) else {
        return without_counts(Ok(None));
    };
    let change = change_of(&t[4..end], t[0], 0, o);
    if !changes(change) {
        return without_counts(Ok(None));
    }
    let u = &t[0..end];
    let n = table_to(u, change, o, out, 0);
    answer_of(Ok(Some(n)), count_table(u, o, [[0u64; 3]; 2]))
}

// Whether a payload is whole and unaggregated, and its message's number that of a PA message.
fn starts_pa(payload: &[u8]) -> bool
    ensures { result ≡ starts_pa payload.now }
{
    if payload.len() < 4 {
        return false;
    }
    if payload[0] >> 6 != 0 {
        return false;
    }
    if payload[0] & 1 != 0 {
        return false;
    }
    if id16(payload, 2) != 0 {
        return false;
    }
    true
}

// The PA message of a payload.
fn pa_of(payload: &[u8]) -> Option<Pa>
    ensures { PaIs payload.now result }
{
    if !starts_pa(payload) {
        return None;
    }
    let message = message_of(&payload[2..])?;
    let end = message.end + 2;
    let tables = pa_tables(&payload[9..end])?;
    Some(Pa { end, tables })
}

// The PA message of a payload that narrowing changes.
fn changed_pa(payload: &[u8], pid: u16, o: Options) -> Option<ChangedPa>
    ensures { ChangedPaIs o pid payload.now result }
{
    let pa = pa_of(payload)?;
    let known = pa_change(&payload[9..pa.end], pa.tables, pid, o);
    if changes(known.change) {
        return Some(ChangedPa { pa, known });
    }
    None
}

// The narrowed payload, written at `to`. Its message's length is put right at the end.
fn payload_to(
    payload: &[u8],
    changed: ChangedPa,
    pid: u16,
    o: Options,
    out: &mut [u8],
    to: usize,
) -> usize
    requires { PaFound payload.now changed.pa.end changed.pa.tables × KnownIs o pid (take (changed.pa.end - 9) (drop 9 payload.now)) changed.known × (to + changed.pa.end ≤ length out.old) }
    ensures { (h : PaFound payload.now changed.pa.end changed.pa.tables) → Wrote (payload_bytes payload.now (body_after o pid (take (changed.pa.end - 9) (drop 9 payload.now)) changed.pa.tables h.entries)) out.old to out.new result }
{
    let pa = changed.pa;
    let body = copy(&payload[0..9], out, to);
    let last = pa_to(
        &payload[9..pa.end],
        pa.tables,
        pid,
        o,
        changed.known,
        out,
        body,
    );
    put32(out, to + 5, last - body);
    last
}

// A payload alone counts as a rewritable one of payload type 2. No mode so far says anything of a payload.
pub fn narrow_payload(
    payload: &[u8],
    pid: u16,
    o: Options,
    _modes: Modes,
    out: &mut [u8],
) -> Narrowed
    ensures { NarrowedAs (narrow_refusal (length payload.now) (length out.old)) (change_payload o pid payload.now) out.old out.new result.narrowing result.stayed result.went }
{
    if let Some(r) = refusal(payload.len(), out.len()) {
        return without_counts(Err(r));
    }
    let Some(changed) = changed_pa(payload, pid, o) else {
        return without_counts(Ok(None));
    };
    let n = payload_to(payload, changed, pid, o, out, 0);
    let pa = changed.pa;
    answer_of(Ok(Some(n)), count_tables(&payload[9..pa.end], pa.tables, o))
}

// The packet `p`, whose payload is `payload`, narrowed, at `to` of the output.
fn narrowed_to(
    p: &[u8],
    payload: &[u8],
    pid: u16,
    o: Options,
    out: &mut [u8],
    to: usize,
) -> Option<usize>
    requires { Framed p.now payload.now × (to + length p.now ≤ length out.old) }
    ensures { (w : Bool) → RewroteAs (map (packet_bytes p.now (signal_of pid w payload.now)) (narrow_payload o pid payload.now)) out.old to out.new result }
{
    let changed = changed_pa(payload, pid, o)?;
    let front = p.len() - payload.len();
    let c = copy(&p[0..front], out, to);
    let last = payload_to(payload, changed, pid, o, out, c);
    put16(out, to + 2, last - to - 4);
    afresh(p[1], out, to + 4, last);
    Some(last)
}

// Whether a packet may be rewritten: by its header, or in that mode as plain IP.
fn may_rewrite(p: &[u8], rewritable: bool, modes: Modes) -> bool
    requires { 4 ≤ length p.now }
    ensures { result ≡ (rewritable || (modes.plain_ip && plain_ip (get_or p.now 1 0) (drop 4 p.now))) }
{
    rewritable || (modes.plain_ip && plain_ip(p[1], &p[4..]))
}

// A signalling packet that was read so, narrowed, at `to` of the output. One with no PA message costs no more than the first test.
pub fn rewrite(
    p: &[u8],
    payload: &[u8],
    pid: u16,
    rewritable: bool,
    o: Options,
    modes: Modes,
    out: &mut [u8],
    to: usize,
) -> Option<usize>
    requires { (mmtp_of p.now ≡ some (signal_of pid rewritable payload.now)) × (to + length p.now ≤ length out.old) }
    ensures { RewroteAs (packet_for modes o p.now (some (signal_of pid rewritable payload.now))) out.old to out.new result }
{
    if !starts_pa(payload) {
        return None;
    }
    if !may_rewrite(p, rewritable, modes) {
        return None;
    }
    narrowed_to(p, payload, pid, o, out, to)
}

// The counts of a payload that narrowing changes.
fn count_payload(payload: &[u8], o: Options) -> [[u64; 3]; 2]
    requires { length payload.now ≤ 65539 }
    ensures { result ≡ counted_in o no_rows (parts_of_message (pa_message payload.now)) }
{
    let Some(pa) = pa_of(payload) else {
        return [[0u64; 3]; 2];
    };
    count_tables(&payload[9..pa.end], pa.tables, o)
}

// Of a packet's first four bytes only the type is read.
pub fn narrow_packet(p: &[u8], o: Options, modes: Modes, out: &mut [u8]) -> Narrowed
    ensures { NarrowedAs (narrow_refusal (length p.now) (length out.old)) (change_packet modes o p.now) out.old out.new result.narrowing result.stayed result.went }
{
    if let Some(r) = refusal(p.len(), out.len()) {
        return without_counts(Err(r));
    }
    let Some(mmtp) = mmtp_of(p) else {
        return without_counts(Ok(None));
    };
    if mmtp.payload_type != 2 {
        return without_counts(Ok(None));
    }
    let payload = packet_payload(p);
    let rewritten = rewrite(
        p,
        payload,
        mmtp.identifier,
        mmtp.rewritable,
        o,
        modes,
        out,
        0,
    );
    let Some(n) = rewritten else {
        return without_counts(Ok(None));
    };
    answer_of(Ok(Some(n)), count_payload(payload, o))
}
