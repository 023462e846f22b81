// The history's store: fixed room for the groups, writers and entries that it knows.
#![tactic(auto)]

ghost use Rattle.std.specs.Prelude.{◌≡◌, ◌+◌, ◌≤◌, leb};
ghost use Rattle.fixed_list.specs.FixedList.{len_of};

use fixed_list::FixedList;
use rules::entry::Entry;
use rules::state::{Group, Writer};
use sets::Sets;

// The groups in the order of their GUIDs, the pending entries in the order of their offers. The timeout is in nanoseconds. At most 256 entries
// are stored.
#[derive(Clone, Copy)]
pub struct Store {
    pub timeout: u64,
    pub groups: FixedList<Group, 8>,
    pub writers: FixedList<Writer, 32>,
    pub pending: FixedList<Entry<u32>, 256>,
    pub sets: Sets,
    ghost few: { len_of pending + len_of sets.held ≤ 256 },
}

impl Store {
    ghost use Rattle.rules.specs.State.{fresh, stored, knows_writer};
    ghost use Rattle.store.specs.Store.{state_of};

    // Nothing known or stored.
    #[tactic(auto, unfolding(rules::specs::State::fresh))]
    pub fn new(timeout: u64) -> Store
        ensures { state_of result ≡ fresh timeout }
    {
        Store {
            timeout,
            groups: FixedList::new(),
            writers: FixedList::new(),
            pending: FixedList::new(),
            sets: Sets::new(),
        }
    }

    // Nothing is known or stored any more. Only what was there is cleared, where a new store writes all its places.
    #[tactic(auto, unfolding(rules::specs::State::fresh))]
    pub fn restart(&mut self, timeout: u64)
        ensures { state_of self.new ≡ fresh timeout }
    {
        self.timeout = timeout;
        self.groups.clear();
        self.writers.clear();
        self.pending.clear();
        self.sets.clear();
    }

    // Whether the pair of group and writer is known.
    #[tactic(auto, unfolding(rules::specs::State::knows_writer))]
    pub fn knows(&self, group: [u8; 16], writer: [u8; 16]) -> bool
        ensures { result ≡ knows_writer group writer (state_of self.now).writers }
    {
        self.writers.as_slice().iter().any(|w| w.is(group, writer))
    }

    // 256 entries are stored.
    #[tactic(auto, unfolding(rules::specs::State::stored))]
    pub fn is_full(&self) -> bool
        ensures { result ≡ leb 256 (stored (state_of self.now)) }
    {
        256 <= self.pending.len() + self.sets.held.len()
    }
}
