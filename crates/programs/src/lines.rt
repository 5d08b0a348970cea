// The lines that the programs print: a refusal's, and that of the sums; and which of them a program ends with. Over `refused_line` and
// `sums_line` of `meaning`, specs/Programs.antt.
ghost use Rattle.std.specs.Prelude.{◌≡◌, ◌+◌, ◌≤◌, ◌<◌, ◌∷◌, length};
ghost use Rattle.meaning.specs.Writing.{Wrote};
ghost use Rattle.meaning.specs.Programs.{digits, item, refused_line, sums_line};
ghost use Rattle.programs.specs.Lines.{last_line};

use crate::asked::answer_number;
use meaning::{Answer, Counts};
use octets::{copy, put8};

// A digit as text.
fn digit(n: usize) -> u8
    requires { n < 10 }
    ensures { result ≡ 0x30 + n }
{
    (48 + n) as u8
}

// Writes a number in at most `most` decimal digits at `to`; answers the offset past them.
// Stays: `write!` to an `InlineText` promises the text or a cut one (`IsTextOrCut`), `put_sums` its bytes; a writer over a slice is longer.
fn put_digits(out: &mut [u8], to: usize, most: usize, n: usize) -> usize
    requires { to + most ≤ length out.old }
    ensures { Wrote (digits most n) out.old to out.new result }
{
    if most == 0 {
        return to;
    }
    if n < 10 {
        return put8(out, to, digit(n));
    }
    let last = put_digits(out, to, most - 1, n / 10);
    put8(out, last, digit(n % 10))
}

// Writes a word, a space and a number at `to`; answers the offset past them.
fn put_item(word: &[u8], n: usize, out: &mut [u8], to: usize) -> usize
    requires { to + length word.now + 21 ≤ length out.old }
    ensures { Wrote (item word.now n) out.old to out.new result }
{
    let a = copy(word, out, to);
    let b = put8(out, a, 32);
    put_digits(out, b, 20, n)
}

// The same behind a space.
fn put_next(word: &[u8], n: usize, out: &mut [u8], to: usize) -> usize
    requires { to + length word.now + 22 ≤ length out.old }
    ensures { Wrote (0x20 ∷ item word.now n) out.old to out.new result }
{
    let a = put8(out, to, 32);
    put_item(word, n, out, a)
}

// Writes the line of a refusal; answers its length.
pub fn put_refused(number: u8, out: &mut [u8]) -> usize
    requires { 29 ≤ length out.old }
    ensures { Wrote (refused_line number) out.old 0 out.new result }
{
    let a = put_item(b"refused", number as usize, out, 0);
    put8(out, a, 10)
}

// Writes the line of the sums; answers its length.
pub fn put_sums(c: Counts, held_count: usize, out: &mut [u8]) -> usize
    requires { 170 ≤ length out.old }
    ensures { Wrote (sums_line c held_count) out.old 0 out.new result }
{
    let a = put_item(b"packets", c.accepted, out, 0);
    let b = put_next(b"written", c.written, out, a);
    let d = put_next(b"rewritten", c.rewritten, out, b);
    let e = put_next(b"skipped", c.skipped, out, d);
    let f = put_next(b"held", held_count, out, e);
    let g = put_next(b"lost", c.lost, out, f);
    put8(out, g, 10)
}

// What is left of an input to be told: the answer, the sums, and how many bytes are held.
#[derive(Clone, Copy)]
pub struct Ending {
    pub answer: Answer,
    pub sums: Counts,
    pub held_count: usize,
}

// What a program writes: the filtered stream, or a line of its sums.
#[derive(Clone, Copy)]
pub enum Writes {
    Stream,
    Sums,
}

// Writes the last line of a program, none where a read or a write failed; answers its length, 0 where there is none.
pub fn put_last(ending: Option<Ending>, writes: Writes, out: &mut [u8]) -> usize
    requires { 170 ≤ length out.old }
    ensures { Wrote (last_line ending writes) out.old 0 out.new result }
{
    let Some(e) = ending else {
        return 0;
    };
    if e.answer.is_err() {
        return put_refused(answer_number(e.answer), out);
    }
    match writes {
        Writes::Stream => 0,
        Writes::Sums => put_sums(e.sums, e.held_count, out),
    }
}
