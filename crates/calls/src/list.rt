// A whole call list, run.
ghost use Rattle.std.specs.Prelude.{◌≡◌, ℕ, ◌+◌, ◌≤◌, List, ◌++◌, length};
ghost use Rattle.decimal.specs.Print.{put};
ghost use Rattle.calls.specs.Runs.{ran_text};

use crate::run::Calls;
use arrayvec::ArrayVec;
use call_line::parse::parse_first;
use decimal::text::put_byte;
use history::order::GroupOrder;

// Answers that are not put yet; it has room for two of the longest.
type Gathered = ArrayVec<u8, 8192>;

// Runs the lines of a call list from a fresh start, and puts their answers, each with a newline, at the front of out, as far as
// it has room; answers how many bytes of them are there. Where that is all of out, there may be more.
pub fn gubrestal_run_list(text: &[u8], out: &mut [u8]) -> usize
    ensures { (result, out.new) ≡ ran_text text.now out.old }
{
    let mut calls = Calls::new(GroupOrder::GROUP_TIMEOUT);
    let mut answers = Gathered::new();
    let mut at = 0;
    let mut rest = text;
    while !rest.is_empty() {
        at = make_room(&mut answers, out, at);
        let (line, behind) = parse_first(rest);
        calls.run(line, &mut answers);
        put_byte(&mut answers, b'\n');
        rest = behind.unwrap_or(&[]);
    }
    put_answers(&answers, out, at)
}

// Where there might be no room for one more, with its newline, the answers are put into out.
fn make_room(answers: &mut Gathered, out: &mut [u8], at: usize) -> usize
    requires { at ≤ length out.old }
    ensures put { (s : List ℕ) → put out.new result (answers.new.items ++ s) ≡ put out.old at (answers.old.items ++ s) }
    ensures room { length answers.new.items + 3930 ≤ 8192 }
    ensures within { result ≤ length out.new }
{
    if 3930 <= answers.remaining_capacity() {
        return at;
    }
    let behind = put_answers(answers, out, at);
    answers.clear();
    behind
}

// Puts the answers into out from `at` on, as far as it has room; answers the place behind them.
fn put_answers(answers: &Gathered, out: &mut [u8], at: usize) -> usize
    requires { at ≤ length out.old }
    ensures put { (result, out.new) ≡ put out.old at answers.now.items }
    ensures within { result ≤ length out.new }
{
    let fitting = answers.len().min(out.len() - at);
    let end = at + fitting;
    out[at..end].copy_from_slice(&answers.as_slice()[..fitting]);
    end
}
