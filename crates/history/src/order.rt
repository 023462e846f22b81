// The history and its calls.
ghost use Rattle.std.specs.Prelude.{◌≡◌};
ghost use Rattle.laws.specs.Answer.{Kept};
ghost use Rattle.refusals.specs.Refusal.{answer_as};
ghost use Rattle.rules.specs.State.{fresh, knows_writer};
ghost use Rattle.rules.specs.Offer as O;
ghost use Rattle.rules.specs.Run.{waiting, nothing_waits};
ghost use Rattle.rules.specs.Release.{samples};
ghost use Rattle.page.specs.Words.{page_to};
ghost use Rattle.release.specs.Released.{release_to, view_of};

use offers::gap::gap;
use offers::heartbeat::heartbeat;
use offers::offer::offer;
use page::fill::fill_page;
use refusals::Refusal;
use release::release::release;
use rules::call::{Fate, Gap, Heartbeat, Offer};
use rules::state::ReleaseCounts;
use rules::view::{DigestRow, Pair};
use std::marker::Model;
use store::Store;

// Seen as the definitions' state: the groups and writers known, the entries pending and held, the counts and the timeout.
#[derive(Clone, Copy)]
pub struct GroupOrder {
    pub store: Store,
}

impl Model for GroupOrder {
    ghost use Rattle.std.specs.Prelude.{ℕ};
    ghost use Rattle.rules.specs.State.{State};
    ghost use Rattle.std.proofs.Common.{ap};
    ghost use Rattle.store.specs.Store.{state_of};
    ghost use Rattle.store.specs.Back.{store_of, store_back};

    ghost Value = { State ℕ };

    ghost view = { λ order. state_of order.store };

    ghost inverse = { λ s. record { store = store_of s } };

    ghost inverse_ok = { λ order _. ap (λ s. record { store = s }) (store_back order.store) };
}

impl GroupOrder {
    // Nanoseconds.
    pub const GROUP_TIMEOUT: u64 = 1_000_000_000;

    // Nothing known or stored; the timeout is in nanoseconds.
    pub fn new(timeout: u64) -> GroupOrder
        ensures { result ≡ fresh timeout }
    {
        GroupOrder {
            store: Store::new(timeout),
        }
    }

    // Nothing is known or stored any more, as of a new history with the timeout in nanoseconds.
    pub fn restart(&mut self, timeout: u64)
        ensures { self.new ≡ fresh timeout }
    {
        self.store.restart(timeout)
    }

    // Refused 1 (a reader above 7), 2 (a ninth group), 3 (a 33rd pair of group and writer) or 4 (it would add to 256 entries stored).
    pub fn offer(&mut self, o: Offer<u32>) -> Result<Fate, Refusal>
        ensures is { (answer_as result, self.new) ≡ O.offer self.old o }
        ensures kept { Kept (answer_as result) self.old self.new }
    {
        offer(&mut self.store, o)
    }

    // Refused 2 or 3, as an offer is.
    pub fn heartbeat(&mut self, h: Heartbeat) -> Result<(), Refusal>
        ensures is { (answer_as result, self.new) ≡ O.heartbeat self.old h }
        ensures kept { Kept (answer_as result) self.old self.new }
    {
        heartbeat(&mut self.store, h)
    }

    // Refused 1, 2 or 3, as an offer is.
    pub fn gap(&mut self, x: Gap) -> Result<(), Refusal>
        ensures is { (answer_as result, self.new) ≡ O.gap self.old x }
        ensures kept { Kept (answer_as result) self.old self.new }
    {
        gap(&mut self.store, x)
    }

    // Refused 9 (malformed rows), then 5 (a list shorter than the number of stored samples); else answers how many places are written, from the
    // list's start: reader · 2^32 + item of each sample handed out, in order. Time in nanoseconds.
    pub fn release(
        &mut self,
        counted: &[Pair],
        digests: &[DigestRow],
        time: u64,
        out: &mut [u64],
    ) -> Result<usize, Refusal>
        ensures is { (answer_as result, self.new, out.new) ≡ release_to self.old (view_of counted.now digests.now) time out.old }
        ensures kept { Kept (answer_as result) self.old self.new }
    {
        release(&mut self.store, counted, digests, time, out)
    }

    // The samples of a reader that are pending or held; 0 of a reader above 7.
    pub fn held_for(&self, reader: u8) -> usize
        ensures { result ≡ waiting self.now reader }
    {
        readings::held_for(&self.store, reader)
    }

    // The stored samples.
    pub fn sample_count(&self) -> usize
        ensures { result ≡ samples self.now }
    {
        readings::sample_count(&self.store)
    }

    // No entry is pending and no member held.
    pub fn is_empty(&self) -> bool
        ensures { result ≡ nothing_waits self.now }
    {
        readings::is_empty(&self.store)
    }

    pub fn counts(&self) -> ReleaseCounts
        ensures { result ≡ self.now.counts }
    {
        self.store.sets.counts
    }

    // Whether a pair of group and writer is known.
    pub fn knows(&self, group: [u8; 16], writer: [u8; 16]) -> bool
        ensures { result ≡ knows_writer group writer self.now.writers }
    {
        self.store.knows(group, writer)
    }

    // For each group, in the order of the GUIDs, and each reader: the samples pending, those held, their oldest offer time in nanoseconds; 64 rows
    // of four words (page/specs/Words.antt). Refused 5 (fewer than 64 rows); else answers the entries read.
    pub fn page(&self, rows: &mut [u64]) -> Result<usize, Refusal>
        ensures { (answer_as result, rows.new) ≡ page_to self.now rows.old }
    {
        fill_page(&self.store, rows)
    }
}
