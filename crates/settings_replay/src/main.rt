// Replays the calls on console settings that stand on standard input, one a line, and prints each answer on a line.
//
//   N                                                    new store  ok
//   P timeout coherent ordered separation lifespan room  pack       how many bytes, or refused 15 or 5; then the list
//   S bytes                                              save       ok, refused 16, refused 15
//   R age                                                read       timeout coherent ordered separation lifespan, refused 15
//   D timeout coherent ordered separation lifespan       durations  timeout, sec and nanosec of the separation, lifespan, refused 15
//
// Numbers are decimal, bytes are lower-case hex, `-` for none and for no lifespan. `P` lends a list of room places, at most 40, each
// 170 before; `S` takes at most 100 bytes. Any other line is `bad`. Before the first line nothing is stored.
#![tactic(auto)]

use arrayvec::ArrayVec;
use decimal::text::{put_bytes, put_unsigned};
use fields::line::Fields;
use hex_digits::text::{put_hex, read_hex};
use line_input::Lines;
use line_output::answers::{Answer, Text};
use line_output::at_once::answer_at_once;
use refusals::Refusal;
use settings::durations::Durations;
use settings::setting::Setting;
use settings::setting_store::SettingStore;
use std::io;

// ---- fields: none where they are bad

fn take_setting(fields: &mut Fields) -> Option<Setting> {
    Some(Setting {
        timeout: fields.unsigned()?,
        coherent: fields.unsigned()?,
        ordered: fields.unsigned()?,
        separation: fields.unsigned()?,
        lifespan: if fields.dash() {
            None
        } else {
            Some(fields.unsigned()?)
        },
    })
}

fn take_bytes(fields: &mut Fields) -> Option<ArrayVec<u8, 100>> {
    match fields.text()? {
        b"" => None,
        b"-" => Some(ArrayVec::new()),
        digits => read_hex(digits),
    }
}

// ---- answers

fn put_refusal(text: &mut Text, refusal: Refusal) {
    put_bytes(text, b"refused ");
    put_unsigned(text, refusal.number());
}

fn put_list(text: &mut Text, list: &[u8]) {
    match list {
        [] => put_bytes(text, b"-"),
        _ => put_hex(text, list),
    }
}

// Numbers, and the lifespan behind them.
fn put_values(text: &mut Text, numbers: &[u64], lifespan: Option<u64>) {
    for number in numbers {
        put_unsigned(text, *number);
        put_bytes(text, b" ");
    }
    match lifespan {
        Some(n) => put_unsigned(text, n),
        None => put_bytes(text, b"-"),
    }
}

fn put_setting(text: &mut Text, x: Setting) {
    let numbers = [x.timeout, x.coherent, x.ordered, x.separation];
    put_values(text, &numbers, x.lifespan);
}

fn put_durations(text: &mut Text, x: Durations) {
    let sec = u64::from(x.separation.sec);
    let nanosec = u64::from(x.separation.nanosec);
    put_values(text, &[x.timeout, sec, nanosec], x.lifespan);
}

// ---- calls: none where the line is bad

fn pack(mut fields: Fields, text: &mut Text) -> Option<()> {
    let setting = take_setting(&mut fields)?;
    let room = fields.unsigned()?;
    fields.end()?;
    let mut places = [170u8; 40];
    let list = places.get_mut(..room as usize)?;
    match setting.pack(list) {
        Ok(n) => put_unsigned(text, n as u64),
        Err(refusal) => put_refusal(text, refusal),
    }
    put_bytes(text, b" ");
    put_list(text, list);
    Some(())
}

fn save(store: &mut SettingStore, mut fields: Fields, text: &mut Text) -> Option<()> {
    let bytes = take_bytes(&mut fields)?;
    fields.end()?;
    match store.save(bytes.as_slice()) {
        Ok(()) => put_bytes(text, b"ok"),
        Err(refusal) => put_refusal(text, refusal),
    }
    Some(())
}

fn read(store: &SettingStore, mut fields: Fields, text: &mut Text) -> Option<()> {
    let age = fields.unsigned()?;
    fields.end()?;
    match store.read(age as usize) {
        Ok(setting) => put_setting(text, setting),
        Err(refusal) => put_refusal(text, refusal),
    }
    Some(())
}

fn durations(mut fields: Fields, text: &mut Text) -> Option<()> {
    let setting = take_setting(&mut fields)?;
    fields.end()?;
    match setting.durations() {
        Ok(durations) => put_durations(text, durations),
        Err(refusal) => put_refusal(text, refusal),
    }
    Some(())
}

// A line, without its newline. Its fields are read before anything is changed or put.
fn run_line(store: &mut SettingStore, line: &[u8], text: &mut Text) -> Option<()> {
    let mut fields = Fields::of_line(line);
    match fields.letter()? {
        b'N' => {
            fields.end()?;
            *store = SettingStore::new();
            put_bytes(text, b"ok");
            Some(())
        }
        b'P' => pack(fields, text),
        b'S' => save(store, fields, text),
        b'R' => read(store, fields, text),
        b'D' => durations(fields, text),
        _ => None,
    }
}

#[derive(Drop)]
struct Replay {
    store: SettingStore,
}

impl Answer for Replay {
    fn answer(&mut self, text: &mut Text, line: &[u8]) {
        if run_line(&mut self.store, line, text).is_none() {
            put_bytes(text, b"bad");
        }
        put_bytes(text, b"\n");
    }
}

// No good line has more than 202 bytes, so one that is cut to fit is bad, as it was.
fn main(rt: HostRuntime) -> io::Result<()> {
    let mut replay = Replay {
        store: SettingStore::new(),
    };
    let mut lines = Lines::new(rt.stdin());
    answer_at_once(&mut lines, &mut io::writer(&rt), &mut replay)
}
