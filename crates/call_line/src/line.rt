// What a line spells.
use rules::call::{Gap, Heartbeat, Offer};
use rules::view::{DigestRow, Pair};

// A fresh start with its timeout, a row for the next releases, or a call of the history; a release has its time alone. Times are in
// nanoseconds.
#[derive(Clone, Copy, PartialEq, Eq, Debug)]
pub enum Line {
    Timeout(u64),
    Counted(Pair),
    Digest(DigestRow),
    Offer(Offer<u32>),
    Heartbeat(Heartbeat),
    Gap(Gap),
    Release(u64),
}
