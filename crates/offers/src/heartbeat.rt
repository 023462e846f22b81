// A heartbeat: its group and writer are heard, and the writer told of range, current number and digests.
ghost use Rattle.std.specs.Prelude.{◌≡◌};
ghost use Rattle.laws.specs.Answer.{Kept};
ghost use Rattle.refusals.specs.Refusal.{answer_as};
ghost use Rattle.rules.specs.Offer.{heartbeat};
ghost use Rattle.store.specs.Store.{state_of};

use crate::hear::{announce, hear};
use crate::sender::Sender;
use refusals::Refusal;
use rules::call::Heartbeat;
use rules::number::clamp;
use store::Store;

// Refused 2 (a ninth group) or 3 (a 33rd pair of group and writer).
#[tactic(auto, unfolding(laws::specs::Answer::Kept))]
pub fn heartbeat(store: &mut Store, h: Heartbeat) -> Result<(), Refusal>
    ensures is { (answer_as result, state_of store.new) ≡ heartbeat (state_of store.old) h }
    ensures kept { Kept (answer_as result) store.old store.new }
{
    let sender = Sender::of(store, h.group, h.writer);
    sender.admit(store)?;
    let current = clamp(h.current);
    let group = hear(store, sender, |w| {
        w.announce(clamp(h.first), clamp(h.last), current, h.digest, h.secure)
    });
    announce(store, group, current);
    Ok(())
}
