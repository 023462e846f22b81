// Replays the calls on the filter hold that stand on standard input, one a line, and prints each answer on a line.
//
//   N                                           new hold          ok
//   H instance item sec nanosec sepsec sepnano  hold              ok, refused 10, refused 8
//   S instance                                  supersede         ok
//   T sec nanosec places                        take due          out, each instance:item, |, how many stay; refused 5
//   A                                           all that is held  held, each instance:item:sec:nanosec
//   D sec nanosec sepsec sepnano                a due time        sec and nanosec, refused 10
//
// Numbers are decimal. Any other line is `bad`. Before the first line nothing is held.
#![tactic(auto)]

use decimal::text::{put_bytes, put_signed, put_unsigned};
use fields::line::Fields;
use filter_hold::tbf::{Separation, TbfHold, Time, time_after};
use line_input::Lines;
use line_output::answers::{Answer, Text};
use line_output::at_once::answer_at_once;
use refusals::Refusal;
use std::io;

// ---- fields: none where they are bad

fn take_time(fields: &mut Fields) -> Option<Time> {
    Some(Time {
        sec: i32::try_from(fields.number()?).ok()?,
        nanosec: fields.word()?,
    })
}

fn take_separation(fields: &mut Fields) -> Option<Separation> {
    Some(Separation {
        sec: fields.word()?,
        nanosec: fields.word()?,
    })
}

// ---- answers

fn put_refusal(text: &mut Text, refusal: Refusal) {
    put_bytes(text, b"refused ");
    put_unsigned(text, refusal.number());
}

fn put_sample(text: &mut Text, instance: u64, item: u64) {
    put_bytes(text, b" ");
    put_unsigned(text, instance);
    put_bytes(text, b":");
    put_unsigned(text, item);
}

fn put_time(text: &mut Text, t: Time, between: &[u8]) {
    put_signed(text, i64::from(t.sec));
    put_bytes(text, between);
    put_unsigned(text, u64::from(t.nanosec));
}

fn put_held(text: &mut Text, hold: &TbfHold) {
    put_bytes(text, b"held");
    for x in hold.held.iter() {
        put_sample(text, x.instance, u64::from(x.item));
        put_bytes(text, b":");
        put_time(text, x.due, b":");
    }
}

// ---- calls: none where the line is bad

fn hold_one(hold: &mut TbfHold, mut fields: Fields, text: &mut Text) -> Option<()> {
    let instance = fields.unsigned()?;
    let item = fields.word()?;
    let arrival = take_time(&mut fields)?;
    let separation = take_separation(&mut fields)?;
    fields.end()?;
    match hold.hold(instance, item, arrival, separation) {
        Ok(()) => put_bytes(text, b"ok"),
        Err(refusal) => put_refusal(text, refusal),
    }
    Some(())
}

fn supersede(hold: &mut TbfHold, mut fields: Fields, text: &mut Text) -> Option<()> {
    let instance = fields.unsigned()?;
    fields.end()?;
    hold.supersede(instance);
    put_bytes(text, b"ok");
    Some(())
}

// Lends a list with room for so many samples; more than 32 are never due.
fn take_due(hold: &mut TbfHold, mut fields: Fields, text: &mut Text) -> Option<()> {
    let time = take_time(&mut fields)?;
    let places = fields.unsigned()?.min(32) as usize;
    fields.end()?;
    let mut words = [0u64; 64];
    match hold.take_due(time, &mut words[..places * 2]) {
        Ok(count) => {
            put_bytes(text, b"out");
            for sample in words.chunks_exact(2).take(count) {
                put_sample(text, sample[0], sample[1]);
            }
            put_bytes(text, b" | ");
            put_unsigned(text, hold.held.len() as u64);
        }
        Err(refusal) => put_refusal(text, refusal),
    }
    Some(())
}

// The due time of a sample that `hold` would take.
fn due_alone(mut fields: Fields, text: &mut Text) -> Option<()> {
    let arrival = take_time(&mut fields)?;
    let separation = take_separation(&mut fields)?;
    fields.end()?;
    if separation.nanosec < 1_000_000_000 {
        put_time(text, time_after(arrival, separation), b" ");
    } else {
        put_refusal(text, Refusal::BadSeparation);
    }
    Some(())
}

// A call with no fields.
fn run_bare(hold: &mut TbfHold, call: u8, text: &mut Text) -> Option<()> {
    match call {
        b'N' => {
            hold.clear();
            put_bytes(text, b"ok");
        }
        b'A' => put_held(text, hold),
        _ => return None,
    }
    Some(())
}

// A line, without its newline. Its fields are read before anything is changed or put.
fn run_line(hold: &mut TbfHold, line: &[u8], text: &mut Text) -> Option<()> {
    let mut fields = Fields::of_line(line);
    match fields.letter()? {
        b'H' => hold_one(hold, fields, text),
        b'S' => supersede(hold, fields, text),
        b'T' => take_due(hold, fields, text),
        b'D' => due_alone(fields, text),
        call => {
            fields.end()?;
            run_bare(hold, call, text)
        }
    }
}

#[derive(Drop)]
struct Replay {
    hold: TbfHold,
}

impl Answer for Replay {
    fn answer(&mut self, text: &mut Text, line: &[u8]) {
        if run_line(&mut self.hold, line, text).is_none() {
            put_bytes(text, b"bad");
        }
        put_bytes(text, b"\n");
    }
}

// No good line has more than 78 bytes, so one that is cut to fit is bad, as it was.
fn main(rt: HostRuntime) -> io::Result<()> {
    let mut replay = Replay {
        hold: TbfHold::new(),
    };
    let mut lines = Lines::new(rt.stdin());
    answer_at_once(&mut lines, &mut io::writer(&rt), &mut replay)
}
