// Answers gathered and written to a program's output in large pieces. What is gathered is written before more input is read
// (`Lines::has_line`), so that a user sees the answers to all that was read. std's buffered writers take memory from the heap, and here
// there is none.
#![tactic(auto)]

pub mod answers;
pub mod at_once;
mod pieces;

use crate::pieces::write_out;
use fixed_list::FixedList;
use line_input::Lines;
use std::io;
use std::io::{Error, Read, Write};

// The bytes of the room are gathered and not written. Once a write has failed nothing more is gathered or written.
#[derive(Clone, Copy, Drop)]
pub struct Output<W> {
    writer: W,
    room: FixedList<u8, 65536>,
    failed: Option<Error>,
}

impl<W: Write> Output<W> {
    ghost use Rattle.std.specs.Prelude.{◌+◌, ◌≤◌, ◌≡◌, [], length, None, IsSome, IsNone, true};
    ghost use Rattle.line_output.specs.Output.{pending, outcome, Gathered, Flushed, Before, Written};
    ghost use Rattle.std.specs.Option.{is_some};
    ghost use Rattle.line_input.specs.Input.{has_line};

    // Nothing is gathered yet.
    pub fn new(writer: W) -> Self
        ensures writer { result.writer ≡ writer }
        ensures nothing { pending result ≡ [] }
        ensures works { IsNone result.failed }
    {
        Output {
            writer,
            room: FixedList::new(),
            failed: None,
        }
    }

    // Gathers a text. Where the room has no place for it, what was gathered is written first.
    pub fn gather(&mut self, text: &[u8])
        ensures gathered { Gathered self.old text.now self.new }
        ensures written { Written (W.contents self.old.writer) (W.contents self.new.writer) (pending self.old) text.now self.new }
        ensures waits { length (pending self.old) + length text.now ≤ 65536 → self.new.writer ≡ self.old.writer }
        ensures stopped { IsSome self.old.failed → self.new.writer ≡ self.old.writer }
    {
        if self.has_failed() || self.room.extend_from_slice(text) {
            return;
        }
        self.flush(); // the room is full
        if self.failed.is_none() && !self.room.extend_from_slice(text) {
            self.failed = write_out(&mut self.writer, text).err(); // longer than the room
        }
    }

    // To be called before each `next` of the lines: writes what is gathered where that would read more input, and so might wait.
    pub fn before_line<R: Read>(&mut self, lines: &Lines<R>)
        ensures before { Before (has_line lines.now.ahead) self.old self.new }
        ensures written { Written (W.contents self.old.writer) (W.contents self.new.writer) (pending self.old) [] self.new }
        ensures waits { has_line lines.now.ahead ≡ true → self.new.writer ≡ self.old.writer }
        ensures stopped { IsSome self.old.failed → self.new.writer ≡ self.old.writer }
    {
        if !lines.has_line() {
            self.flush();
        }
    }

    // Writes what is gathered.
    pub fn flush(&mut self)
        ensures flushed { Flushed self.old self.new }
        ensures written { Written (W.contents self.old.writer) (W.contents self.new.writer) (pending self.old) [] self.new }
        ensures stopped { IsSome self.old.failed → self.new.writer ≡ self.old.writer }
    {
        if self.failed.is_none() {
            self.failed = write_out(&mut self.writer, self.room.as_slice()).err();
            self.room.clear();
        }
    }

    // Whether a write has failed.
    pub fn has_failed(&self) -> bool
        ensures { result ≡ is_some self.now.failed }
    {
        self.failed.is_some()
    }

    // The error of the write that failed.
    pub fn into_result(self) -> io::Result<()>
    where
        W: Drop,
        ensures { result ≡ outcome self.failed }
    {
        let Output {
            writer: _,
            room: _,
            failed,
        } = self;
        match failed {
            Some(error) => Err(error),
            None => Ok(()),
        }
    }
}

#[cfg(test)]
mod tests {
    use super::*;
    use std::io::{ErrorKind, Result};

    // Takes a byte a write; it puts every other write off, and fails once it has `most` bytes.
    #[derive(Clone, Copy, Drop)]
    struct Slow {
        took: [u8; 16],
        count: usize,
        most: usize,
        waits: bool,
    }

    impl Slow {
        fn new(most: usize) -> Slow {
            Slow {
                took: [0; 16],
                count: 0,
                most,
                waits: true,
            }
        }
    }

    impl Write for Slow {
        fn write(&mut self, buf: &[u8]) -> Result<usize> {
            self.waits = !self.waits;
            if !self.waits {
                return Err(Error::from(ErrorKind::WouldBlock));
            }
            if self.most <= self.count {
                return Err(Error::from(ErrorKind::StorageFull));
            }
            if buf.is_empty() || 16 <= self.count {
                return Ok(0);
            }
            self.took[self.count] = buf[0];
            self.count += 1;
            Ok(1)
        }

        fn flush(&mut self) -> Result<()> {
            Ok(())
        }
    }

    #[test]
    fn short_writes_and_writes_put_off(rt: HostRuntime) {
        let mut output = Output::new(Slow::new(16));
        output.gather(b"ab");
        output.gather(b"cde");
        assert_eq!(rt; output.writer.count, 0);
        output.flush();
        assert_eq!(rt; output.has_failed(), false);
        assert_eq!(rt; output.room.len(), 0);
        assert_eq!(rt; output.writer.count, 5);
        assert_eq!(rt; output.writer.took, *b"abcde\0\0\0\0\0\0\0\0\0\0\0");
    }

    // After a write that fails nothing more is written.
    #[test]
    fn a_failed_write_stops_all(rt: HostRuntime) {
        let mut output = Output::new(Slow::new(4));
        output.gather(b"abcdefgh");
        let none: &[u8] = b"";
        output.before_line(&Lines::new(none));
        assert_eq!(rt; output.has_failed(), true);
        output.gather(b"ijk");
        output.flush();
        assert_eq!(rt; output.has_failed(), true);
        assert_eq!(rt; output.writer.count, 4);
    }

    // A copy goes on from what was gathered, and each has its own text.
    #[test]
    fn a_copy_goes_on(rt: HostRuntime) {
        let mut first = Output::new(Slow::new(16));
        first.gather(b"ab");
        let mut second = first;
        first.gather(b"c");
        second.gather(b"de");
        first.flush();
        second.flush();
        assert_eq!(rt; first.writer.took, *b"abc\0\0\0\0\0\0\0\0\0\0\0\0\0");
        assert_eq!(rt; second.writer.took, *b"abde\0\0\0\0\0\0\0\0\0\0\0\0");
    }
}
