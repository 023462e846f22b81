// What a release does to the entries of a number: commit of the source.
ghost use Rattle.std.specs.Prelude.{◌≡◌, ◌+◌, ◌<◌, ◌≤◌, ◌&&◌, ℕ, List, true, None, length};
ghost use Rattle.laws.specs.Lists.{list_all, find};
ghost use Rattle.rules.specs.Entry.{of_group, marks};
ghost use Rattle.rules.specs.Offer.{shares, keep_end};
ghost use Rattle.rules.specs.Sets.{lowest_stale};
ghost use Rattle.rules.specs.Release.{Work, mark_or, settle, commit_one, commit_all};
ghost use Rattle.sets.specs.Works.{Goes};
ghost use Rattle.release.specs.Known.{Known};
ghost use Rattle.ready.specs.Places.{entries_at};
ghost use Rattle.release.specs.Order.{AllBelow};
ghost use Rattle.arrayvec.specs.ArrayVec.{array_vec_len};
ghost use Rattle.fixed_list.specs.FixedList.{len_of};

use crate::stale::discard_stale;
use arrayvec::ArrayVec;
use rules::entry::{Entry, What};
use sets::{Sets, place_of, shares};

// What is remembered of the group's held entries: no set is ended; no set but `own` is open and not ended.
#[derive(Clone, Copy, PartialEq, Eq, Debug, Default)]
pub(crate) struct Memory {
    pub quiet: bool,
    pub clean: bool,
    pub own: Option<i64>,
}

impl Memory {
    // The only set that may be open and not ended behind the commit is the entry's own, if it is a sample.
    fn after(self, e: &Entry<u32>) -> Memory
        ensures { (w : Work ℕ) → Known e.now.group self w.held → Known e.now.group result (commit_one e.now w).held }
    {
        match e.what {
            What::Sample(_) => Memory {
                quiet: self.quiet && e.ended.is_none(),
                clean: true,
                own: e.set,
            },
            What::End(_) => Memory {
                quiet: false,
                clean: true,
                own: None,
            },
        }
    }

    // No set but the entry's own is open and not ended.
    fn is_clean_for(self, e: &Entry<u32>) -> bool
        ensures { (l : List (Entry ℕ)) → Known e.now.group self l → result ≡ true → lowest_stale e.now l ≡ None }
    {
        self.clean && (self.own.is_none() || self.own == e.set)
    }
}

// The offer time of its set's first committed end: e's own, if none marks the set.
#[tactic(auto, unfolding(rules::specs::Entry::marks, laws::specs::Lists::is_some))]
fn mark(held: &[Entry<u32>], e: &Entry<u32>) -> Option<u64>
    ensures { result ≡ mark_or e.now.time (find (λ m. shares e.now m && marks m) held.now) }
{
    let first = held.iter().find(|m| m.ended.is_some() && shares(e, m));
    first.map_or(Some(e.time), |m| m.ended)
}

// An end is kept in place of its pair's earlier one, and marks its set ended.
fn keep_end(sets: &mut Sets, e: Entry<u32>)
    requires { len_of sets.old.held < 256 }
    ensures held { sets.new.held.items ≡ keep_end (mark_or e.time (find (λ m. shares e m && marks m) sets.old.held.items)) e sets.old.held.items }
    ensures counts { sets.new.counts ≡ sets.old.counts }
    ensures room { len_of sets.new.held ≤ len_of sets.old.held + 1 }
{
    let ended = mark(sets.held.as_slice(), &e);
    sets.keep_end(e, ended);
}

// A member joins its set; an end is kept in place of its pair's earlier one and marks its set ended; a plain sample is handed out; an end
// without a set is dropped.
fn settle(sets: &mut Sets, e: Entry<u32>, out: &mut ArrayVec<u64, 256>)
    requires { len_of sets.old.held + array_vec_len out.old < 256 }
    ensures goes { Goes (λ w. settle e w e.what e.set) sets.old out.old.items sets.new out.new.items }
    ensures room { len_of sets.new.held + array_vec_len out.new ≤ len_of sets.old.held + array_vec_len out.old + 1 }
{
    match (e.what, e.set) {
        (What::Sample(_), None) => out.push(place_of(&e)),
        (What::Sample(_), Some(_)) => sets.held.push(e),
        (What::End(_), None) => {}
        (What::End(_), Some(_)) => keep_end(sets, e),
    }
}

// The entry is committed, after every set that is neither ended nor its own is discarded: with `clean` there is none.
fn commit_one(sets: &mut Sets, e: Entry<u32>, out: &mut ArrayVec<u64, 256>, clean: bool)
    requires room { len_of sets.old.held + array_vec_len out.old < 256 }
    requires clean { clean ≡ true → lowest_stale e sets.old.held.items ≡ None }
    ensures goes { Goes (λ w. commit_one e w) sets.old out.old.items sets.new out.new.items }
    ensures room { len_of sets.new.held + array_vec_len out.new ≤ len_of sets.old.held + array_vec_len out.old + 1 }
{
    if !clean {
        discard_stale(sets, &e);
    }
    settle(sets, e, out);
}

// The entries of `pending` at the places are committed one by one; they are of the group.
pub(crate) fn commit_all(
    group: [u8; 16],
    pending: &[Entry<u32>],
    places: &[usize],
    sets: &mut Sets,
    out: &mut ArrayVec<u64, 256>,
    memory: Memory,
) -> Memory
    requires within { AllBelow (length pending.now) places.now }
    requires group { list_all (λ e. of_group group e) (entries_at pending.now places.now) ≡ true }
    requires room { len_of sets.old.held + array_vec_len out.old + length places.now ≤ 256 }
    requires known { Known group memory sets.old.held.items }
    ensures goes { Goes (λ w. commit_all (entries_at pending.now places.now) w) sets.old out.old.items sets.new out.new.items }
    ensures room { len_of sets.new.held + array_vec_len out.new ≤ len_of sets.old.held + array_vec_len out.old + length places.now }
    ensures known { Known group result sets.new.held.items }
{
    let mut memory = memory;
    for &i in places {
        let e = pending[i];
        let clean = memory.is_clean_for(&e);
        commit_one(sets, e, out, clean);
        memory = memory.after(&e);
    }
    memory
}
