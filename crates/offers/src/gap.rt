// A gap: its group and writer are heard, and the gap end raised.
ghost use Rattle.std.specs.Prelude.{◌≡◌};
ghost use Rattle.laws.specs.Answer.{Kept};
ghost use Rattle.refusals.specs.Refusal.{answer_as};
ghost use Rattle.rules.specs.Offer.{gap};
ghost use Rattle.store.specs.Store.{state_of};

use crate::admit::admit_reader;
use crate::hear::hear;
use crate::sender::Sender;
use refusals::Refusal;
use rules::call::Gap;
use rules::number::clamp;
use store::Store;

// Refused 1 (a reader above 7), 2 (a ninth group) or 3 (a 33rd pair of group and writer).
#[tactic(auto, unfolding(laws::specs::Answer::Kept))]
pub fn gap(store: &mut Store, x: Gap) -> Result<(), Refusal>
    ensures is { (answer_as result, state_of store.new) ≡ gap (state_of store.old) x }
    ensures kept { Kept (answer_as result) store.old store.new }
{
    admit_reader(x.reader)?;
    let sender = Sender::of(store, x.group, x.writer);
    sender.admit(store)?;
    hear(store, sender, |w| w.raise_gap(x.reader, clamp(x.number)));
    Ok(())
}
