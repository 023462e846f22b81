// An offer: judged, its marks noted, then stored, joined or counted late.
ghost use Rattle.std.specs.Prelude.{◌≡◌, ◌∷◌, [], ◌&&◌, leb, false};
ghost use Rattle.laws.specs.Answer.{Kept};
ghost use Rattle.refusals.specs.Refusal.{answer_as};
ghost use Rattle.rules.specs.State.{committed_of, stored};
ghost use Rattle.rules.specs.Offer.{offer, entry_of, fate_of, adds, refusal, place};
ghost use Rattle.store.specs.Store.{state_of};
ghost use Rattle.offers.specs.Refused.{refused_by};

use crate::admit::admit_reader;
use crate::hear::hear;
use crate::join::{has_end, is_open, join};
use crate::sender::Sender;
use refusals::Refusal;
use rules::call::{Fate, Offer};
use rules::entry::{Entry, What};
use rules::number::clamp;
use store::Store;

// Refused 1 (a reader above 7), 2 (a ninth group), 3 (a 33rd pair of group and writer) or 4 (it would add to 256 entries stored).
#[tactic(auto, unfolding(laws::specs::Answer::Kept))]
pub fn offer(store: &mut Store, o: Offer<u32>) -> Result<Fate, Refusal>
    ensures is { (answer_as result, state_of store.new) ≡ offer (state_of store.old) o }
    ensures kept { Kept (answer_as result) store.old store.new }
{
    admit_reader(o.reader)?;
    let sender = Sender::of(store, o.group, o.writer);
    sender.admit(store)?;
    let fate = fate_of(store, sender.committed(store), o);
    admit_entry(store, o, fate)?;
    hear(store, sender, |w| {
        w.see(o.reader, clamp(o.number), o.digest)
    });
    place(store, o, fate);
    Ok(fate)
}

// The entry that an offer brings; numbers of 0 or less count as 0. Not a `From`: that would have to stand in `rules`, and no other crate calls it.
#[tactic(auto, unfolding(rules::specs::Offer::entry_of))]
fn entry_of(o: Offer<u32>) -> Entry<u32>
    ensures { result ≡ entry_of o }
{
    let Offer {
        group,
        writer,
        reader,
        number,
        set,
        what,
        time,
        ..
    } = o;
    Entry {
        group,
        writer,
        reader,
        number: clamp(number),
        set,
        what,
        time,
        ended: None,
    }
}

// Above committed: stored; else an end whose set is open joins it; all else is late.
#[tactic(auto, unfolding(rules::specs::Offer::fate_of))]
fn fate_of(store: &Store, committed: u64, o: Offer<u32>) -> Fate
    requires { committed ≡ committed_of o.group (state_of store.now).groups }
    ensures { result ≡ fate_of (state_of store.now) o }
{
    if committed < clamp(o.number) {
        return Fate::Stored;
    }
    if matches!(o.what, What::End(_)) && is_open(&store.sets, &entry_of(o)) {
        return Fate::Joined;
    }
    Fate::Late
}

// Whether one entry more is stored then.
#[tactic(auto, unfolding(rules::specs::Offer::adds))]
fn adds(store: &Store, o: Offer<u32>, fate: Fate) -> bool
    ensures { result ≡ adds fate (state_of store.now) o }
{
    match fate {
        Fate::Stored => true,
        Fate::Joined => !has_end(&store.sets, &entry_of(o)),
        Fate::Late => false,
    }
}

// Refused 4: it would add to 256 entries stored.
#[tactic(auto, unfolding(rules::specs::Offer::refusal))]
fn admit_entry(store: &Store, o: Offer<u32>, fate: Fate) -> Result<(), Refusal>
    ensures { refused_by result ≡ refusal ((4, adds fate (state_of store.now) o && leb 256 (stored (state_of store.now))) ∷ []) }
{
    if adds(store, o, fate) && store.is_full() {
        return Err(Refusal::EntriesFull);
    }
    Ok(())
}

// The entry is pending, joins its set, or is counted late.
#[tactic(auto, unfolding(rules::specs::Offer::place, rules::specs::Offer::one_late, rules::specs::State::plus))]
fn place(store: &mut Store, o: Offer<u32>, fate: Fate)
    requires { adds fate (state_of store.old) o && leb 256 (stored (state_of store.old)) ≡ false }
    ensures { state_of store.new ≡ place fate (entry_of o) (state_of store.old) }
{
    match fate {
        Fate::Stored => store.pending.push(entry_of(o)),
        Fate::Joined => join(&mut store.sets, entry_of(o)),
        Fate::Late => {
            let counts = &mut store.sets.counts;
            counts.late_samples = counts.late_samples.saturating_add(1);
        }
    }
}
