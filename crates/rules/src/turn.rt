// What the release of one group reads and does not change.
ghost use Rattle.std.specs.Prelude.{◌≡◌, ◌-◌, ltb, unwrap_or, option_map};

use crate::state::{Group, Writer};
use crate::view::{DigestRow, Pair};

// The counted rows are the group's own, the digest rows those of all groups; times and the timeout are in nanoseconds.
#[derive(Clone, Copy)]
pub struct GroupTurn<'a> {
    pub group: Group,
    pub writers: &'a [Writer],
    pub counted: &'a [Pair],
    pub digests: &'a [DigestRow],
    pub time: u64,
    pub timeout: u64,
}

impl GroupTurn<'_> {
    // What was offered at that time waited less than the timeout; it waited 0 if the clock went back, or if nothing was offered.
    pub fn is_young(&self, offered: Option<u64>) -> bool
        ensures { result ≡ ltb (unwrap_or (option_map (λ t. self.now.time - t) offered) 0) self.now.timeout }
    {
        match offered {
            Some(offered) => self.time.saturating_sub(offered) < self.timeout,
            None => 0 < self.timeout,
        }
    }
}
