// Document 01's call list with pages of all groups and readers.
//
//   P words       fills a page in a lent list of so many words       page .., refused 5
//
// An answer to `P` is `page`, the entries read, and each word of the list. The list is the same through the whole run, 260
// words that start as 9, so that words which a page leaves show. Any other line is one of the call list.
#![tactic(auto)]

use calls::run::Calls;
use calls::say::put_refusal;
use decimal::text::{put_bytes, put_unsigned};
use fields::line::Fields;
use history::order::GroupOrder;
use line_input::Lines;
use line_output::answers::{Answer, Text};
use line_output::at_once::answer_at_once;
use refusals::Refusal;
use std::io;

// The words that a line lends to a page; none if it is no such line.
fn take_words(line: &[u8]) -> Option<u64> {
    let mut fields = Fields::of_line(line);
    if fields.letter()? != b'P' {
        return None;
    }
    let words = fields.unsigned()?;
    fields.end()?;
    Some(words)
}

fn put_word(text: &mut Text, word: u64) {
    put_bytes(text, b" ");
    put_unsigned(text, word);
}

fn put_page(text: &mut Text, answer: Result<usize, Refusal>, list: &[u64]) {
    match answer {
        Ok(read) => {
            put_bytes(text, b"page");
            put_word(text, read as u64);
            for word in list {
                put_word(text, *word);
            }
        }
        Err(refusal) => put_refusal(text, refusal),
    }
}

// Lends the first words of the list, at most all.
fn answer_line(calls: &mut Calls, words: &mut [u64; 260], line: &[u8], text: &mut Text) {
    match take_words(line) {
        Some(n) => {
            let list = &mut words[..n.min(260) as usize];
            let answer = calls.order().page(list);
            put_page(text, answer, list);
        }
        None => calls.run_line(line, text),
    }
    put_bytes(text, b"\n");
}

// The calls, and the list for the pages.
#[derive(Drop)]
struct Replay {
    calls: Calls,
    words: [u64; 260],
}

impl Answer for Replay {
    fn answer(&mut self, text: &mut Text, line: &[u8]) {
        answer_line(&mut self.calls, &mut self.words, line, text);
    }
}

// No good line has more than 129 bytes, so one that is cut to fit is bad, as it was.
fn main(rt: HostRuntime) -> io::Result<()> {
    let mut replay = Replay {
        calls: Calls::new(GroupOrder::GROUP_TIMEOUT),
        words: [9; 260],
    };
    let mut lines = Lines::new(rt.stdin());
    answer_at_once(&mut lines, &mut io::writer(&rt), &mut replay)
}
