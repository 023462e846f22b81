// The lines of an input, such as standard input, whatever its length and whatever its bytes. std's readers of lines take memory from the
// heap, and here there is none.
#![tactic(auto)]

mod ahead;

use crate::ahead::Ahead;
use arrayvec::ArrayVec;
use std::io::{Read, Write};

// The reader, what was read of it and not yet taken, and the line that was taken last.
#[derive(Drop)]
pub struct Lines<R> {
    reader: R,
    ahead: Ahead,
    line: ArrayVec<u8, 256>,
}

impl<R> Lines<R> {
    ghost use Rattle.std.specs.Prelude.{◌≡◌};
    ghost use Rattle.line_input.specs.Input.{IsUnread, has_line};

    // Nothing is read yet.
    pub fn new(reader: R) -> Self
        ensures reader { result.reader ≡ reader }
        ensures unread { IsUnread result.ahead }
    {
        Lines {
            reader,
            ahead: Ahead::new(),
            line: ArrayVec::new(),
        }
    }

    // Whether a whole line is left of what was read: where it is, `next` reads nothing.
    pub fn has_line(&self) -> bool
        ensures { result ≡ has_line self.now.ahead }
    {
        self.ahead.line_end().is_some()
    }
}

impl<R: Read> Lines<R> {
    ghost use Rattle.std.specs.Borrow.{sem};
    ghost use Rattle.std.specs.Io.BufRead.{Rests};
    ghost use Rattle.line_input.specs.contracts.Lines.{the_row};
    ghost use Rattle.line_input.specs.Input.{line_if, shown, NextLine, PartTaken};

    // Takes the next line of the input, and reads nothing where a whole one is left. A longer one than 256 bytes is cut to 256.
    pub fn next(&mut self) -> Option<&[u8]>
        ensures* next { sem 𝓛 (Rests (the_row R.row) self.entry (λ new. NextLine R.remaining self.old (shown result) new)) }
    {
        if self.advance() {
            Some(self.line.as_slice())
        } else {
            None
        }
    }

    // Whether there is a next line, which it takes. So that the loop is seen to end, it counts more reads than any line takes.
    fn advance(&mut self) -> bool
        ensures { NextLine R.remaining self.old (line_if result self.new.line.items) self.new }
    {
        self.line.clear();
        if self.take_part() {
            return true;
        }
        for _ in 0..u64::MAX {
            if !self.ahead.fill(&mut self.reader) {
                break; // the end, or a read that failed
            }
            if self.take_part() {
                return true;
            }
        }
        !self.line.is_empty()
    }

    // Takes what is left of the line, as far as it is read, and answers whether its newline was there.
    fn take_part(&mut self) -> bool
        ensures { PartTaken self.old result self.new }
    {
        let left = self.ahead.left();
        match self.ahead.line_end() {
            Some(end) => {
                let _fit = self.line.write(&left[..end]);
                self.ahead.take(end + 1);
                true
            }
            None => {
                let _fit = self.line.write(left);
                self.ahead.clear();
                false
            }
        }
    }
}

#[cfg(test)]
mod tests {
    use super::*;
    use std::io::{Error, ErrorKind, Result};

    // Fails at each read.
    #[derive(Drop)]
    struct Failing;

    impl Read for Failing {
        fn read(&mut self, _buf: &mut [u8]) -> Result<usize> {
            Err(Error::from(ErrorKind::Other))
        }
    }

    // A read that fails in the middle of a line ends the input: what came of the line is its last.
    #[test]
    fn lines_before_a_failed_read(rt: HostRuntime) {
        let text: &[u8] = b"one\n\ntwo";
        let mut lines = Lines::new(text.chain(Failing));
        let expected: [Option<&[u8]>; 5] = [Some(b"one"), Some(b""), Some(b"two"), None, None];
        for line in expected {
            assert_eq!(rt; lines.next(), line);
        }
    }
}
