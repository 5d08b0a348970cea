// Standard input and standard output. A call that a signal interrupted is begun again, one that moved a part is gone on with; one that
// fails is told in a line on standard error, and its caller, which gets `None`, ends the program. Over `std`, whose contracts say how many
// bytes are moved. Proved: every call gets a part of the slice that was lent, every count lies within it, every loop ends. No contract can
// say which bytes are moved.
ghost use Rattle.std.specs.Prelude.{◌≡◌, ◌≤◌, length, Ok, Some, IfOk};
ghost use Rattle.std.specs.Result.{result_ok};
ghost use Rattle.programs.specs.Pipe.{came_of, is_full};

use std::fmt::InlineText;
use std::fs::{File, metadata};
use std::io::{Error, ErrorKind, Read, Result};
use std::rt::HostRuntime;

// The longest that the system says of an error, its number included.
const TEXT: usize = 256;

// Tells in a line what failed, and why: the system's words, without the number that stands behind them. Nothing is told of a line that
// cannot be written.
fn tell(rt: HostRuntime, what: &str, why: Error) {
    let text = InlineText::<TEXT>::of(why);
    let all = text.as_str();
    let words = all
        .rsplit_once(" (os error ")
        .map_or(all, |(words, _)| words);
    let _ = eprintln!(rt; "{what}: {words}");
}

// What a call gave; one that failed is told.
fn told<T>(rt: HostRuntime, what: &str, given: Result<T>) -> Option<T>
    ensures { result ≡ result_ok given }
{
    match given {
        Ok(x) => Some(x),
        Err(why) => {
            tell(rt, what, why);
            None
        }
    }
}

// One read, begun again where a signal interrupted it. Nothing says that signals end, so its turns are counted.
fn read_some(rt: HostRuntime, buf: &mut [u8]) -> Result<usize>
    ensures { IfOk result (λ n. n ≤ length buf.new) }
{
    for _ in 0..u64::MAX {
        match rt.stdin().read(buf) {
            Err(why) if why.kind() == ErrorKind::Interrupted => {}
            came => return came,
        }
    }
    Err(Error::from(ErrorKind::Interrupted))
}

// Reads until the slice is full or the input ends.
// Stays: the step is what a call moved, here and in `written`; no range counts it.
fn filled(rt: HostRuntime, buf: &mut [u8]) -> Result<usize>
    ensures { IfOk result (λ n. n ≤ length buf.new) }
{
    let mut done: usize = 0;
    while done < buf.len() {
        let n = read_some(rt, &mut buf[done..])?;
        if n == 0 {
            return Ok(done);
        }
        done += n;
    }
    Ok(done)
}

// Fills a slice, with fewer bytes than it has where the input ends; answers how many came. What came before a read that failed is not
// told: the program ends with it.
pub fn fill(rt: HostRuntime, buf: &mut [u8]) -> Option<usize>
    ensures { came_of result ≤ length buf.new }
{
    told(rt, "reading the input", filled(rt, buf))
}

// Whether so many bytes came as the slice has.
fn is_full(came: Option<usize>, buf: &[u8]) -> bool
    ensures { result ≡ is_full came (length buf.now) }
{
    came == Some(buf.len())
}

// Fills a slice; none where the input had fewer bytes, or a read failed.
pub fn fill_all(rt: HostRuntime, buf: &mut [u8]) -> Option<()> {
    let came = fill(rt, buf);
    if is_full(came, buf) {
        return Some(());
    }
    None
}

// One write, begun again where a signal interrupted it; answers how many bytes were taken. One that takes nothing though it does not fail
// has failed: no error says anything of it.
fn write_some(rt: HostRuntime, bytes: &[u8]) -> Result<usize>
    ensures { IfOk result (λ n. (1 ≤ n) × (n ≤ length bytes.now)) }
{
    for _ in 0..u64::MAX {
        match rt.stdout().write_some(bytes) {
            Ok(0) => return Err(Error::new(ErrorKind::WriteZero, "nothing was taken")),
            Ok(n) => return Ok(n),
            Err(why) if why.kind() == ErrorKind::Interrupted => {}
            Err(why) => return Err(why),
        }
    }
    Err(Error::from(ErrorKind::Interrupted))
}

// Writes until all bytes are taken.
fn written(rt: HostRuntime, bytes: &[u8]) -> Result<()>
    ensures { length bytes.now ≡ 0 → result ≡ Ok tt }
{
    let mut done: usize = 0;
    while done < bytes.len() {
        done += write_some(rt, &bytes[done..])?;
    }
    Ok(())
}

const WRITING: &str = "writing the output";

// Writes all bytes, as nothing always is; none where a write failed.
pub fn write_all(rt: HostRuntime, bytes: &[u8]) -> Option<()>
    ensures { length bytes.now ≡ 0 → result ≡ Some tt }
{
    told(rt, WRITING, written(rt, bytes))
}

// The output, by a name that opens it once more.
const OUTPUT: &str = "/proc/self/fd/1";

// Has the system store what an output that is a file took. One that cannot be opened once more is left as it is.
fn store_output(rt: HostRuntime) -> Result<()> {
    match metadata(&rt, OUTPUT) {
        Ok(about) if about.is_file() => {}
        _ => return Ok(()),
    }
    match File::options().write(true).open(&rt, OUTPUT) {
        Ok(file) => file.sync_all(),
        Err(_) => Ok(()),
    }
}

// Closes the output: some file systems tell only then that what they took is lost. What a close says cannot be had from `std`, so that a
// file is stored instead, which says the same; the system closes it at the program's end. One that cannot be stored is none that loses.
pub fn close_output(rt: HostRuntime) {
    if let Err(why) = store_output(rt) {
        if why.kind() != ErrorKind::InvalidInput {
            tell(rt, WRITING, why);
        }
    }
}

// Writes the last bytes of a program.
pub fn write_last(rt: HostRuntime, bytes: &[u8]) {
    if write_all(rt, bytes).is_some() {
        close_output(rt);
    }
}
