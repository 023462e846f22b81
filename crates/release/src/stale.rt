// Sets that are neither ended nor an entry's own: they are discarded before the entry is committed.
ghost use Rattle.std.specs.Prelude.{◌≡◌, ◌≤◌, ◌&&◌, length};
ghost use Rattle.laws.specs.Lists.{list_any};
ghost use Rattle.rules.specs.Entry.{same_set, marks};
ghost use Rattle.rules.specs.Offer.{shares};
ghost use Rattle.rules.specs.Sets.{is_stale, lowest_stale};
ghost use Rattle.rules.specs.Release.{discard_stale};
ghost use Rattle.sets.specs.Works.{GoesSets};
ghost use Rattle.fixed_list.specs.FixedList.{len_of};

use guids::guid::same;
use rules::entry::Entry;
use sets::{Sets, lesser, shares};

// Both have a set number, and the same one.
fn is_same_set(e: &Entry<u32>, h: &Entry<u32>) -> bool
    ensures { result ≡ same_set e.now.set h.now.set }
{
    e.set.is_some() && e.set == h.set
}

// An entry marks h's set ended.
#[tactic(auto, unfolding(rules::specs::Entry::marks, laws::specs::Lists::is_some))]
fn is_ended(held: &[Entry<u32>], h: &Entry<u32>) -> bool
    ensures { result ≡ list_any (λ m. shares h.now m && marks m) held.now }
{
    held.iter().any(|m| m.ended.is_some() && shares(h, m))
}

// h's set is neither ended nor e's.
#[tactic(auto, unfolding(rules::specs::Sets::is_stale, rules::specs::Entry::of_group))]
fn is_stale(held: &[Entry<u32>], h: &Entry<u32>, e: &Entry<u32>) -> bool
    ensures { result ≡ is_stale e.now held.now h.now }
{
    same(e.group, h.group) && !is_same_set(e, h) && !is_ended(held, h)
}

// The lowest number of a set that is neither ended nor e's.
pub(crate) fn lowest_stale(sets: &Sets, e: &Entry<u32>) -> Option<i64>
    ensures { result ≡ lowest_stale e.now sets.now.held.items }
{
    let held = sets.held.as_slice();
    let mut low = None;
    for h in held.iter().rev() {
        if is_stale(held, h, e) {
            low = lesser(h.set, low);
        }
    }
    low
}

// Each of them is discarded, the lowest first.
pub(crate) fn discard_stale(sets: &mut Sets, e: &Entry<u32>)
    ensures goes { GoesSets (λ w. discard_stale (length w.held) e.now w) sets.old sets.new }
    ensures fewer { len_of sets.new.held ≤ len_of sets.old.held }
{
    for _ in 0..sets.held.len() {
        match lowest_stale(sets, e) {
            None => return,
            Some(set) => sets.discard(e.group, set),
        }
    }
}
