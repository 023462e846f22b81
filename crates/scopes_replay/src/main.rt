// Replays the calls on marker and scopes that stand on standard input, one a line, and prints each answer on a line.
//
//   M number            encode a marker       16 hex digits
//   D bytes             decode a marker       number, refused 11
//   N                   new scope             ok
//   B number            begin                 ok, refused 6
//   E                   end                   number, refused 6
//   A                   is active             0 or 1
//   C                   current marker        number, or -
//   X count generation  access scope at these ok
//   P                   access begin          ok
//   Q                   access end            ok, refused 6
//   W                   access is active      0 or 1
//   S                   current snapshot      generation
//
// Numbers are decimal, bytes are lower-case hex, `-` for none. Any other line is `bad`. Of a line longer than 256 bytes the first
// 256 are run.
// Before the first line there is a new scope, and an access scope at 0 0.
#![tactic(auto)]

use arrayvec::ArrayVec;
use coherent_set::{CoherentScope, CoherentSetMarker, GroupAccessScope};
use decimal::text::{put_bytes, put_signed, put_unsigned};
use fields::line::Fields;
use hex_digits::text::{put_hex, read_hex};
use line_input::Lines;
use line_output::answers::{Answer, Text};
use line_output::at_once::answer_at_once;
use refusals::Refusal;
use std::io;

#[derive(Drop)]
struct Scopes {
    scope: CoherentScope,
    access: GroupAccessScope,
}

// ---- answers

fn put_refusal(text: &mut Text, refusal: Refusal) {
    put_bytes(text, b"refused ");
    put_unsigned(text, refusal.number());
}

fn put_done(text: &mut Text, done: Result<(), Refusal>) {
    match done {
        Ok(()) => put_bytes(text, b"ok"),
        Err(refusal) => put_refusal(text, refusal),
    }
}

fn put_marker(text: &mut Text, marker: Result<CoherentSetMarker, Refusal>) {
    match marker {
        Ok(marker) => put_signed(text, marker.set_first_sn),
        Err(refusal) => put_refusal(text, refusal),
    }
}

fn put_current(text: &mut Text, marker: Option<CoherentSetMarker>) {
    match marker {
        Some(marker) => put_signed(text, marker.set_first_sn),
        None => put_bytes(text, b"-"),
    }
}

// ---- calls: none where the line is bad

fn encode(mut fields: Fields, text: &mut Text) -> Option<()> {
    let number = fields.number()?;
    fields.end()?;
    put_hex(text, &CoherentSetMarker::new(number).to_wire_bytes());
    Some(())
}

fn decode(mut fields: Fields, text: &mut Text) -> Option<()> {
    let bytes = take_bytes(&mut fields)?;
    fields.end()?;
    put_marker(text, CoherentSetMarker::from_wire_bytes(bytes.as_slice()));
    Some(())
}

fn take_bytes(fields: &mut Fields) -> Option<ArrayVec<u8, 128>> {
    match fields.text()? {
        b"" => None,
        b"-" => Some(ArrayVec::new()),
        digits => read_hex(digits),
    }
}

fn begin(scope: &mut CoherentScope, mut fields: Fields, text: &mut Text) -> Option<()> {
    let number = fields.number()?;
    fields.end()?;
    put_done(text, scope.begin(number));
    Some(())
}

fn take_access(mut fields: Fields) -> Option<GroupAccessScope> {
    let open_count = fields.word()?;
    let snapshot_generation = fields.unsigned()?;
    fields.end()?;
    Some(GroupAccessScope {
        open_count,
        snapshot_generation,
    })
}

// A call with no fields.
fn run_bare(scopes: &mut Scopes, call: u8, text: &mut Text) -> Option<()> {
    match call {
        b'N' => {
            scopes.scope = CoherentScope::new();
            put_bytes(text, b"ok");
        }
        b'E' => put_marker(text, scopes.scope.end()),
        b'A' => put_unsigned(text, u64::from(scopes.scope.is_active())),
        b'C' => put_current(text, scopes.scope.current_marker()),
        b'P' => {
            scopes.access.begin();
            put_bytes(text, b"ok");
        }
        b'Q' => put_done(text, scopes.access.end()),
        b'W' => put_unsigned(text, u64::from(scopes.access.is_active())),
        b'S' => put_unsigned(text, scopes.access.current_snapshot()),
        _ => return None,
    }
    Some(())
}

// A line, without its newline. Its fields are read before anything is changed or put.
fn run_line(scopes: &mut Scopes, line: &[u8], text: &mut Text) -> Option<()> {
    let mut fields = Fields::of_line(line);
    match fields.letter()? {
        b'M' => encode(fields, text),
        b'D' => decode(fields, text),
        b'B' => begin(&mut scopes.scope, fields, text),
        b'X' => {
            scopes.access = take_access(fields)?;
            put_bytes(text, b"ok");
            Some(())
        }
        call => {
            fields.end()?;
            run_bare(scopes, call, text)
        }
    }
}

impl Answer for Scopes {
    fn answer(&mut self, text: &mut Text, line: &[u8]) {
        if run_line(self, line, text).is_none() {
            put_bytes(text, b"bad");
        }
        put_bytes(text, b"\n");
    }
}

// A line has room for every good line, but for a `D` of more than 127 bytes, which is refused as one of 127 is.
fn main(rt: HostRuntime) -> io::Result<()> {
    let mut scopes = Scopes {
        scope: CoherentScope::new(),
        access: GroupAccessScope::new(),
    };
    let mut lines = Lines::new(rt.stdin());
    answer_at_once(&mut lines, &mut io::writer(&rt), &mut scopes)
}
