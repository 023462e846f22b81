// Replays the calls on the group ordering that stand on standard input, one a line, and prints each answer on a line.
//
//   T V D S E H G                 as in document 01's call list
//   P group writer reader gap     a progress row without a heartbeat       ok
//   Q group writer reader gap first last current digest secure
//                                 a progress row with one                  ok
//   U time places                 the subscriber turn                      out .., idle, refused 9, refused 5
//   R time places                 the history's release, beneath it        out .., refused 9, refused 5
//   N S .. or N E ..              an offer whose group was not named        as S and E
//   A S .. or A E ..              one without group information            given back
//   B 1 or B 0                    GUIDs are spread from here on, or not    ok
//   K bytes                       the participant's group key of a GUID    32 hex digits
//
// An answer of a turn is `out`, each reader:item, `|`, the four counts since the fresh start, `|` and what the turn added to
// them. Progress rows go to the next turn, in order, and are gone after it and after `T`; `V` and `D` rows stay until `T`.
// Places are the length of the lent list. GUID k, spread, is the sixteen bytes k xor 17 i; after `T` GUIDs are not spread. Any
// other line is `bad`, and so is a row after 64 that wait for a turn. Before the first line nothing is stored, and the timeout
// is one second.
#![tactic(auto)]

mod line;
mod replay;

use crate::replay::Replay;
use decimal::text::put_bytes;
use line_input::Lines;
use line_output::answers::{Answer, Text};
use line_output::at_once::answer_at_once;
use std::io;

impl Answer for Replay {
    fn answer(&mut self, text: &mut Text, line: &[u8]) {
        if self.run_line(line, text).is_none() {
            put_bytes(text, b"bad");
        }
        put_bytes(text, b"\n");
    }
}

// No good line has more than 129 bytes, so one that is cut to fit is bad, as it was.
fn main(rt: HostRuntime) -> io::Result<()> {
    let mut replay = Replay::new();
    let mut lines = Lines::new(rt.stdin());
    answer_at_once(&mut lines, &mut io::writer(&rt), &mut replay)
}
