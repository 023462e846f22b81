// A text written piece by piece: after an error std's `write_all` doesn't say what was written, and it takes a write that is put off for one.
ghost use Rattle.std.specs.Prelude.{◌≤◌, ℕ, length, take, OnOk, IfOk, MatchResult};
ghost use Rattle.std.specs.Io.KnownBytes.{Appends, Keeps};

use std::hint::spin_loop;
use std::io;
use std::io::{Error, ErrorKind, Write};

// Writes all of s, in as many writes as it takes, or stops at the first that fails. So that the loop is seen to end, it counts more writes
// than any text takes.
pub(crate) fn write_out<W: Write>(writer: &mut W, s: &[u8]) -> io::Result<()>
    ensures all { OnOk result (Appends (W.contents writer.old) (W.contents writer.new) s.now) }
    ensures front { (n : ℕ) × Appends (W.contents writer.old) (W.contents writer.new) (take n s.now) }
{
    let mut rest = s;
    for _ in 0..u64::MAX {
        if rest.is_empty() {
            return Ok(());
        }
        let count = write_some(writer, rest)?;
        rest = &rest[count..];
    }
    Err(Error::from(ErrorKind::TimedOut))
}

// One write. A signal or a reader that is slow puts it off.
fn write_some<W: Write>(writer: &mut W, s: &[u8]) -> io::Result<usize>
    ensures count { IfOk result (λ n. n ≤ length s.now) }
    ensures bytes { MatchResult result (λ n. Appends (W.contents writer.old) (W.contents writer.new) (take n s.now)) (λ _. Keeps (W.contents writer.old) (W.contents writer.new)) }
{
    match writer.write(s) {
        Ok(0) => Err(Error::from(ErrorKind::WriteZero)), // a write that takes no byte has failed
        Err(error) if is_put_off(&error) => {
            spin_loop();
            Ok(0)
        }
        written => written,
    }
}

fn is_put_off(error: &Error) -> bool {
    matches!(error.kind(), ErrorKind::Interrupted | ErrorKind::WouldBlock)
}
