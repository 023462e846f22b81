// The history of a subscriber that orders by group, and its turn: GroupOrdering of the source.
ghost use Rattle.std.specs.Prelude.{◌≡◌, option_map};
ghost use Rattle.refusals.specs.Refusal.{answer_as};
ghost use Rattle.rules.specs.State.{fresh};
ghost use Rattle.rules.specs.Run.{waiting};
ghost use Rattle.release.specs.Released.{view_of};
ghost use Rattle.turn.specs.Items.{brings, offer_item, OfferKept};
ghost use Rattle.turn.specs.Turn.{turn_as, turn_to, TurnKept};

use history::order::GroupOrder;
use refusals::Refusal;
use rules::call::Fate;
use rules::view::{DigestRow, Pair};
use std::marker::Model;
use turn::items::{GroupItem, offer_item};
use turn::rows::{Progress, Report};
use turn::take::take_turn;

// Seen as its history's state.
#[derive(Clone, Copy)]
pub struct GroupOrdering {
    pub order: GroupOrder,
}

impl Model for GroupOrdering {
    ghost use Rattle.std.specs.Prelude.{ℕ};
    ghost use Rattle.rules.specs.State.{State};

    ghost Value = { State ℕ };

    ghost view = { λ ordering. ordering.order };

    ghost inverse = { λ s. record { order = s } };
}

impl GroupOrdering {
    // Nothing known or stored; the timeout is one second.
    pub fn new() -> GroupOrdering
        ensures { result ≡ fresh 1000000000 }
    {
        GroupOrdering {
            order: GroupOrder::new(GroupOrder::GROUP_TIMEOUT),
        }
    }

    // Takes an item into the history; with None it is given back, since it has no group information. Refused as an offer is.
    pub fn offer(&mut self, item: GroupItem) -> Option<Result<Fate, Refusal>>
        ensures is { (option_map (λ r. answer_as r) result, self.new) ≡ offer_item self.old (brings item) }
        ensures kept { OfferKept (option_map (λ r. answer_as r) result) self.old self.new }
    {
        offer_item(&mut self.order, item)
    }

    // The samples of a reader that are pending or held; 0 of a reader above 7.
    pub fn held_for(&self, reader: u8) -> usize
        ensures { result ≡ waiting self.now reader }
    {
        self.order.held_for(reader)
    }

    // The subscriber turn: the rows' heartbeats and gaps, then a release. Refused 9 (malformed rows, or a progress row with a reader above 7); where
    // nothing waits it answers None and changes nothing; then refused 5 (a list shorter than the number of stored samples). Time in nanoseconds.
    pub fn release(
        &mut self,
        rows: &[Progress],
        counted: &[Pair],
        digests: &[DigestRow],
        time: u64,
        out: &mut [u64],
    ) -> Result<Option<Report>, Refusal>
        ensures is { (turn_as result, self.new, out.new) ≡ turn_to self.old rows.now (view_of counted.now digests.now) time out.old }
        ensures kept { TurnKept (turn_as result) self.old self.new }
    {
        take_turn(&mut self.order, rows, counted, digests, time, out)
    }
}
