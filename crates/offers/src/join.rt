// An end that joins its open set.
ghost use Rattle.std.specs.Prelude.{◌≡◌, ◌<◌, not, length};
ghost use Rattle.laws.specs.Lists.{filter, list_any};
ghost use Rattle.rules.specs.Offer.{shares, replaced, join};

use rules::entry::Entry;
use sets::{Sets, replaces, shares};

// Some entry is of e's set.
pub(crate) fn is_open(sets: &Sets, e: &Entry<u32>) -> bool
    ensures { result ≡ list_any (λ h. shares e.now h) sets.now.held.items }
{
    sets.held.as_slice().iter().any(|h| shares(e, h))
}

// The end of e's pair is kept in e's set.
pub(crate) fn has_end(sets: &Sets, e: &Entry<u32>) -> bool
    ensures { result ≡ list_any (λ h. replaced e.now h) sets.now.held.items }
{
    sets.held.as_slice().iter().any(|h| replaces(e, h))
}

// It replaces its pair's end in its set, and marks the set as much as that one did.
pub(crate) fn join(sets: &mut Sets, e: Entry<u32>)
    requires { length (filter (λ h. not (replaced e h)) sets.old.held.items) < 256 }
    ensures held { sets.new.held.items ≡ join e sets.old.held.items }
    ensures counts { sets.new.counts ≡ sets.old.counts }
{
    let earlier = sets.held.as_slice().iter().find(|h| replaces(&e, h));
    let ended = earlier.and_then(|h| h.ended);
    sets.keep_end(e, ended);
}
