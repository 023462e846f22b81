// For tests: document 01's call list, with a second line after each answer: `held`, the waiting figures of readers 0 to 7, and
// `waits`, or `idle` where nothing waits.
#![tactic(auto)]

ghost use Rattle.std.specs.Prelude.{ℕ, List};
ghost use Rattle.call_line.specs.Line.{line_of};
ghost use Rattle.calls.specs.Runs.{Ran};

use calls::run::Calls;
use decimal::text::{put_bytes, put_unsigned};
use history::order::GroupOrder;
use line_input::Lines;
use line_output::Output;
use line_output::answers::{Answer, Text, answer_lines};

fn put_figures(text: &mut Text, order: &GroupOrder) {
    put_bytes(text, b"\nheld");
    for reader in 0..8 {
        put_bytes(text, b" ");
        put_unsigned(text, order.held_for(reader) as u64);
    }
    let waits: &[u8] = if order.is_empty() {
        b" idle\n"
    } else {
        b" waits\n"
    };
    put_bytes(text, waits);
}

#[derive(Drop)]
struct CallList {
    calls: Calls,
}

impl Answer for CallList {
    ghost answers = { λ l text line text' l'. (said : List ℕ) × Ran 8192 (line_of line) l.calls l'.calls text said };

    fn answer(&mut self, text: &mut Text, line: &[u8]) {
        self.calls.run_line(line, text);
        put_figures(text, self.calls.order());
    }
}

// No good line has more than 129 bytes, so one that is cut to fit is bad, as it was.
fn main(rt: HostRuntime) {
    let mut list = CallList {
        calls: Calls::new(GroupOrder::GROUP_TIMEOUT),
    };
    let mut lines = Lines::new(rt.stdin());
    let mut output = Output::new(rt.stdout());
    answer_lines(&mut lines, &mut output, &mut list);
    if let Err(error) = output.into_result() {
        let _ = eprintln!(rt; "standard output: {error}");
    }
}
