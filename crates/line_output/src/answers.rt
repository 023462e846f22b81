// The answers to the lines of an input.
ghost use Rattle.std.specs.Prelude.{ℕ, List, ⊤};
ghost use Rattle.line_output.specs.Answers.{Answered};

use crate::Output;
use arrayvec::ArrayVec;
use line_input::Lines;
use std::io::{Read, Write};

// Room for every answer of a program: one size for all.
pub type Text = ArrayVec<u8, 8192>;

// What answers lines.
pub trait Answer {
    // What a call may do: the value and the text before it, the line, the text and the value after it.
    ghost answers: { Self → List ℕ → List ℕ → List ℕ → Self → Type 0 } = { λ _ _ _ _ _. ⊤ };

    // Puts the answer to a line behind what the text holds.
    fn answer(&mut self, text: &mut Text, line: &[u8])
        ensures { answers self.old text.old.items line.now text.new.items self.new };
}

// Answers each line of the input, in order, with an empty text, and writes what is put there. It stops at a write that fails.
// So that the loop is seen to end, it counts more lines than any input has.
pub fn answer_lines<R: Read, W: Write, A: Answer>(
    lines: &mut Lines<R>,
    output: &mut Output<W>,
    answers: &mut A,
)
    ensures { Answered A.answers R.remaining W.contents answers.old lines.old output.old answers.new lines.new output.new }
{
    let mut text = ArrayVec::new();
    for _ in 0..u64::MAX {
        output.before_line(lines);
        if output.has_failed() {
            break;
        }
        let Some(line) = lines.next() else {
            break;
        };
        text.clear();
        answers.answer(&mut text, line);
        output.gather(text.as_slice());
    }
    output.flush();
}
