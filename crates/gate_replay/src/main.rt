// Replays the calls of the coherent-set gate that stand on standard input, one a line, and prints each answer on a line.
//
//   N                                    new hold             ok
//   S access writer set item places      sample               out .., refused 5, refused 7
//   L access writer set item places      lifecycle change     the same
//   E access writer own complete places  end of the set       the same
//
// An answer is `out`, each item written as kind:writer:set:item, `|`, the member number of the incomplete set or `-`, and
// how many members are held then. Access is 0 or 1; writer k is fifteen zero bytes and k; set, own and complete may be `-`,
// absent; places are whole items of the lent list. Any other line is `bad`. Before the first line the hold is empty.
#![tactic(auto)]

use coherent_hold::{Change, CoherentHold, CoherentSetEnd, Gated, Item, Kind};
use decimal::text::{put_bytes, put_signed, put_unsigned};
use fields::line::Fields;
use line_input::Lines;
use line_output::answers::{Answer, Text};
use line_output::at_once::answer_at_once;
use refusals::Refusal;
use std::io;

// What a line asks of the gate.
#[derive(Clone, Copy)]
struct Call {
    coherent_access: bool,
    item: Item,
    places: u64,
}

// ---- fields: none where they are bad

fn take_flag(fields: &mut Fields) -> Option<bool> {
    match fields.letter()? {
        b'0' => Some(false),
        b'1' => Some(true),
        _ => None,
    }
}

// The call that a line with this letter in front asks for.
fn take_call(letter: u8, mut fields: Fields) -> Option<Call> {
    let coherent_access = take_flag(&mut fields)?;
    let writer = guid(fields.byte()?);
    let mark = if fields.dash() {
        None
    } else {
        Some(fields.number()?)
    };
    let (kind, set, item) = match letter {
        b'S' => (Kind::Change(Change::Sample), mark, fields.word()?),
        b'L' => (Kind::Change(Change::Lifecycle), mark, fields.word()?),
        b'E' => (take_end(mark, &mut fields)?, None, 0),
        _ => return None,
    };
    let places = fields.unsigned()?;
    fields.end()?;
    Some(Call {
        coherent_access,
        item: Item {
            kind,
            writer,
            set,
            item,
        },
        places,
    })
}

fn take_end(own: Option<i64>, fields: &mut Fields) -> Option<Kind> {
    let complete = if fields.dash() {
        None
    } else {
        Some(take_flag(fields)?)
    };
    Some(Kind::End(CoherentSetEnd { own, complete }))
}

// GUID k: fifteen zero bytes and k.
fn guid(k: u8) -> [u8; 16] {
    u128::from(k).to_be_bytes()
}

// ---- answers

fn put_refusal(text: &mut Text, refusal: Refusal) {
    put_bytes(text, b"refused ");
    put_unsigned(text, refusal.number());
}

// An item as it stands in the list: the kind, the writer in two words, the set mark, the item.
fn put_item(text: &mut Text, words: &[u64]) {
    let [kind, _, writer, mark, item] = words else {
        return;
    };
    put_bytes(text, if kind % 2 == 1 { b" L:" } else { b" S:" });
    put_unsigned(text, *writer);
    put_bytes(text, b":");
    if *kind < 2 {
        put_bytes(text, b"-");
    } else {
        put_signed(text, mark.cast_signed());
    }
    put_bytes(text, b":");
    put_unsigned(text, *item);
}

fn put_gated(text: &mut Text, gated: Gated, words: &[u64]) {
    put_bytes(text, b"out");
    match gated {
        Gated::Passed(count) => {
            for item in words.chunks_exact(5).take(count) {
                put_item(text, item);
            }
            put_bytes(text, b" | - ");
        }
        Gated::Incomplete(members) => {
            put_bytes(text, b" | ");
            put_unsigned(text, members as u64);
            put_bytes(text, b" ");
        }
    }
}

// ---- calls

// Lends a list with room for so many items; more than 65 are never written.
fn run(hold: &mut CoherentHold, call: Call, text: &mut Text) {
    let mut words = [0u64; 325];
    let places = call.places.min(65) as usize;
    let list = &mut words[..places * 5];
    match hold.gate(call.item, call.coherent_access, list) {
        Ok(gated) => {
            put_gated(text, gated, list);
            put_unsigned(text, hold.len() as u64);
        }
        Err(refusal) => put_refusal(text, refusal),
    }
}

// A line, without its newline; none where it is bad. Its fields are read before anything is changed or put.
fn run_line(hold: &mut CoherentHold, line: &[u8], text: &mut Text) -> Option<()> {
    let mut fields = Fields::of_line(line);
    match fields.letter()? {
        b'N' => {
            fields.end()?;
            *hold = CoherentHold::new();
            put_bytes(text, b"ok");
        }
        letter => run(hold, take_call(letter, fields)?, text),
    }
    Some(())
}

#[derive(Drop)]
struct Replay {
    hold: CoherentHold,
}

impl Answer for Replay {
    fn answer(&mut self, text: &mut Text, line: &[u8]) {
        if run_line(&mut self.hold, line, text).is_none() {
            put_bytes(text, b"bad");
        }
        put_bytes(text, b"\n");
    }
}

// No good line has more than 60 bytes, so one that is cut to fit is bad, as it was.
fn main(rt: HostRuntime) -> io::Result<()> {
    let mut replay = Replay {
        hold: CoherentHold::new(),
    };
    let mut lines = Lines::new(rt.stdin());
    answer_at_once(&mut lines, &mut io::writer(&rt), &mut replay)
}
