// From a reader to a writer: the report of all that is read.
ghost use Rattle.std.specs.Prelude.{◌≡◌, ◌≤◌, ◌<◌, length, take, IfOk, OnOk, OnErr, IfSome};
ghost use Rattle.std.specs.Io.KnownBytes.{Appends, Consumes, IsAtEnd};
ghost use Rattle.leaf.specs.Answered.{AppendsFront, Answers, Begins};

use crate::report::report_input;
use small::TEXT;
use std::io;
use std::io::{ErrorKind, Read, Write};

// One byte past the longest text.
const INPUT: usize = TEXT + 1;

// The longest report.
const REPORT: usize = TEXT + 16;

// Reads until the buffer is full or the input ends, and returns how many bytes it put at the buffer's front.
fn read_full<R: Read>(from: &mut R, buffer: &mut [u8]) -> io::Result<usize>
    ensures bound { IfOk result (λ n. n ≤ length buffer.new) }
    ensures bytes { IfOk result (λ n. Consumes (R.remaining from.old) (R.remaining from.new) (take n buffer.new)) }
    ensures end { IfOk result (λ n. n < length buffer.new → IsAtEnd (R.remaining from.new)) }
{
    let mut at: usize = 0;
    // a read says how far it came, and the library's `read_exact` too little of what it read before an error
    while at < buffer.len() {
        let n = from.read(&mut buffer[at..])?;
        if n == 0 {
            break;
        }
        at += n;
    }
    Ok(at)
}

// Writes all the bytes. Where a write fails, those before it are written and no others.
fn write_full<W: Write>(to: &mut W, bytes: &[u8]) -> io::Result<()>
    ensures ok { OnOk result (Appends (W.contents to.old) (W.contents to.new) bytes.now) }
    ensures err { OnErr result (AppendsFront (W.contents to.old) (W.contents to.new) bytes.now) }
{
    let mut written: usize = 0;
    // a write says how far it came, and the library's `write_all` nothing of what it wrote before an error
    while written < bytes.len() {
        let n = to.write(&bytes[written..])?;
        if n == 0 {
            return Err(ErrorKind::WriteZero.into());
        }
        written += n;
    }
    Ok(())
}

/// Writes the report of what it reads. Where the input is known, the output grows by that input's report, and where a read or a write fails, by a front of it.
pub fn answer<R: Read, W: Write>(from: &mut R, to: &mut W) -> io::Result<()>
    ensures ok { OnOk result (IfSome (R.remaining from.old) (Answers (W.contents to.old) (W.contents to.new))) }
    ensures err { OnErr result (IfSome (R.remaining from.old) (Begins (W.contents to.old) (W.contents to.new))) }
{
    let mut input = [0u8; INPUT];
    let n = read_full(from, &mut input)?;
    let mut out = [0u8; REPORT];
    let m = report_input(&input, n, &mut out);
    write_full(to, &out[..m])
}
