// The answers to the lines of an input, each written by itself.
ghost use Rattle.line_output.specs.AtOnce.{AnsweredAtOnce};

use crate::answers::Answer;
use arrayvec::ArrayVec;
use line_input::Lines;
use std::io;
use std::io::{Read, Write};

// Answers each line of the input, in order, with an empty text, and writes what is put there before it takes the next line. It stops at a
// write that fails, or that is put off, with that error. So that the loop is seen to end, it counts more lines than any input has.
pub fn answer_at_once<R: Read, W: Write, A: Answer>(
    lines: &mut Lines<R>,
    writer: &mut W,
    answers: &mut A,
) -> io::Result<()>
    ensures { AnsweredAtOnce A.answers R.remaining W.contents answers.old lines.old writer.old answers.new lines.new writer.new result }
{
    let mut text = ArrayVec::new();
    for _ in 0..u64::MAX {
        let Some(line) = lines.next() else {
            break;
        };
        text.clear();
        answers.answer(&mut text, line);
        writer.write_all(text.as_slice())?;
    }
    Ok(())
}

#[cfg(test)]
mod tests {
    use super::*;
    use crate::answers::Text;
    use std::io::{Error, ErrorKind, Result};

    // Says each line.
    #[derive(Drop)]
    struct Echo;

    impl Answer for Echo {
        fn answer(&mut self, text: &mut Text, line: &[u8]) {
            let _ = text.try_extend_from_slice(line);
        }
    }

    // Takes a text a write, and puts the third off.
    #[derive(Drop)]
    struct Slow {
        sizes: [usize; 2],
        count: usize,
    }

    impl Write for Slow {
        fn write(&mut self, buf: &[u8]) -> Result<usize> {
            if 2 <= self.count {
                return Err(Error::from(ErrorKind::WouldBlock));
            }
            self.sizes[self.count] = buf.len();
            self.count += 1;
            Ok(buf.len())
        }

        fn flush(&mut self) -> Result<()> {
            Ok(())
        }
    }

    // Each answer is a write, and one that is put off ends it with that error.
    #[test]
    fn a_write_put_off(rt: HostRuntime) {
        let text: &[u8] = b"one\nthree\ntwo\nsix\n";
        let mut lines = Lines::new(text);
        let mut slow = Slow {
            sizes: [0; 2],
            count: 0,
        };
        let done = answer_at_once(&mut lines, &mut slow, &mut Echo);
        assert_eq!(rt;
            done.map_err(|error| error.kind()),
            Err(ErrorKind::WouldBlock)
        );
        assert_eq!(rt; slow.sizes, [3, 5]);
        assert_eq!(rt; lines.next(), Some(b"six".as_slice()));
    }
}
