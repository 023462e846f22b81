// Document 01's call list: reads calls from standard input, one a line, and prints each answer on a line.
#![tactic(auto)]

ghost use Rattle.std.specs.Prelude.{ℕ, List, [], ◌∷◌, ◌++◌, ◌≡◌, take};
ghost use Rattle.call_line.specs.Line.{line_of};
ghost use Rattle.calls.specs.Runs.{Ran};

use calls::run::Calls;
use decimal::text::put_bytes;
use history::order::GroupOrder;
use line_input::Lines;
use line_output::Output;
use line_output::answers::{Answer, Text, answer_lines};

#[derive(Drop)]
struct CallList {
    calls: Calls,
}

impl Answer for CallList {
    ghost answers = { λ l text line text' l'. (said : List ℕ) × Ran 8192 (line_of line) l.calls l'.calls text said × (text' ≡ take 8192 (said ++ 10 ∷ [])) };

    fn answer(&mut self, text: &mut Text, line: &[u8]) {
        self.calls.run_line(line, text);
        put_bytes(text, b"\n");
    }
}

// No good line has more than 129 bytes, so one that is cut to fit is bad, as it was.
fn main(rt: HostRuntime) {
    let mut list = CallList {
        calls: Calls::new(GroupOrder::GROUP_TIMEOUT),
    };
    let mut lines = Lines::new(rt.stdin());
    let mut output = Output::new(rt.stdout());
    answer_lines(&mut lines, &mut output, &mut list);
    if let Err(error) = output.into_result() {
        let _ = eprintln!(rt; "standard output: {error}");
    }
}
