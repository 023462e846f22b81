// Release, on lists of counted rows and digest rows.
ghost use Rattle.std.specs.Prelude.{◌≡◌, ◌+◌, ◌<◌, ◌≤◌, ◌&&◌, not, ltb, eqb, length, true, false, ℕ, List, []};
ghost use Rattle.arrayvec.specs.ArrayVec.{array_vec_len};
ghost use Rattle.fixed_list.specs.FixedList.{len_of};
ghost use Rattle.laws.specs.Answer.{Kept, answered};
ghost use Rattle.laws.specs.Lists.{list_any};
ghost use Rattle.guids.specs.Guid.{same_guid};
ghost use Rattle.refusals.specs.Refusal.{answer_as};
ghost use Rattle.rules.specs.Release.{malformed, samples};
ghost use Rattle.store.specs.Store.{state_of};
ghost use Rattle.release.specs.Released.{release_to, view_of};
ghost use Rattle.release.specs.GroupSteps.{Steps, ReleasedTo};

use crate::group::{is_stuck, release_group};
use crate::left::Left;
use crate::rows::{begin_twice, rows_of};
use arrayvec::ArrayVec;
use guids::guid::same;
use readings::sample_count;
use refusals::Refusal;
use rules::state::Group;
use rules::turn::GroupTurn;
use rules::view::{DigestRow, Pair};
use store::Store;

// A reader above 7.
fn has_high_reader(counted: &[Pair]) -> bool
    ensures { result ≡ list_any (λ p. ltb 7 p.reader) counted.now }
{
    counted.iter().any(|p| 7 < p.reader)
}

// A row of the group has another digest.
fn disagrees(a: &DigestRow, digests: &[DigestRow]) -> bool
    ensures { result ≡ list_any (λ b. same_guid a.now.group b.group && not (eqb a.now.digest b.digest)) digests.now }
{
    digests
        .iter()
        .any(|b| same(a.group, b.group) && a.digest != b.digest)
}

// Two rows of one group with unlike digests.
fn has_unlike_digests(digests: &[DigestRow]) -> bool
    ensures { result ≡ list_any (λ a. list_any (λ b. same_guid a.group b.group && not (eqb a.digest b.digest)) digests.now) digests.now }
{
    digests.iter().any(|a| disagrees(a, digests))
}

// Over 256 counted rows, over 8 digest rows, a reader above 7, or two rows of one group with unlike digests.
#[tactic(auto, unfolding(rules::specs::Release::malformed))]
pub fn is_malformed(counted: &[Pair], digests: &[DigestRow]) -> bool
    ensures { result ≡ malformed (view_of counted.now digests.now) }
{
    256 < counted.len()
        || 8 < digests.len()
        || has_high_reader(counted)
        || has_unlike_digests(digests)
}

// Refused 9 (malformed rows), then 5 (a list shorter than the number of stored samples); else answers how many places are written, from the
// list's start: reader · 2^32 + item of each sample handed out, in order. Time in nanoseconds.
#[tactic(auto, unfolding(laws::specs::Answer::Kept))]
pub fn release(
    store: &mut Store,
    counted: &[Pair],
    digests: &[DigestRow],
    time: u64,
    out: &mut [u64],
) -> Result<usize, Refusal>
    ensures is { (answer_as result, state_of store.new, out.new) ≡ release_to (state_of store.old) (view_of counted.now digests.now) time out.old }
    ensures kept { Kept (answer_as result) store.old store.new }
{
    if is_malformed(counted, digests) {
        return Err(Refusal::MalformedView);
    }
    if out.len() < sample_count(store) {
        return Err(Refusal::ListTooShort);
    }
    let first = first_to_go(store, 0, counted, digests, time);
    if first < store.groups.len() {
        return Ok(release_from(store, first, counted, digests, time, out));
    }
    Ok(0)
}

// The place, from `from` on, of the first group whose release would not stop at once; with none, the number of groups.
fn first_to_go(
    store: &Store,
    from: usize,
    counted: &[Pair],
    digests: &[DigestRow],
    time: u64,
) -> usize
    requires { from ≤ len_of store.now.groups }
    ensures within { (from ≤ result) × (result ≤ len_of store.now.groups) }
    ensures reached { (s : Store) (out : List ℕ) → ReleasedTo (view_of counted.now digests.now) time from s store.now out → ReleasedTo (view_of counted.now digests.now) time result s store.now out }
{
    for i in from..store.groups.len() {
        if !stops_at(store, i, counted, digests, time) {
            return i;
        }
    }
    store.groups.len()
}

// The release of the groups from a place on, where those before it stop at once; answers how many places are written. A function of its own, since a
// call sets its whole list of places to zero, which a release that does nothing is spared.
fn release_from(
    store: &mut Store,
    first: usize,
    counted: &[Pair],
    digests: &[DigestRow],
    time: u64,
    out: &mut [u64],
) -> usize
    requires within { first ≤ len_of store.old.groups }
    requires reached { ReleasedTo (view_of counted.now digests.now) time first store.old store.old [] }
    requires formed { malformed (view_of counted.now digests.now) ≡ false }
    requires room { samples (state_of store.old) ≤ length out.old }
    ensures { (answered result, state_of store.new, out.new) ≡ release_to (state_of store.old) (view_of counted.now digests.now) time out.old }
{
    let mut handed = ArrayVec::new();
    let mut i = first;
    while i < store.groups.len() {
        release_at(store, i, counted, digests, time, &mut handed);
        i = first_to_go(store, i + 1, counted, digests, time);
    }
    let places = handed.as_slice();
    out[..places.len()].copy_from_slice(places);
    places.len()
}

// The release of the group at place i would stop at once.
fn stops_at(store: &Store, i: usize, counted: &[Pair], digests: &[DigestRow], time: u64) -> bool
    requires { i < len_of store.now.groups }
    ensures { (out : List ℕ) → result ≡ true → Steps (view_of counted.now digests.now) time i store.now out store.now out }
{
    let turn = GroupTurn {
        group: store.groups.as_slice()[i],
        writers: store.writers.as_slice(),
        counted,
        digests,
        time,
        timeout: store.timeout,
    };
    is_stuck(&turn, store.pending.as_slice(), &store.sets)
}

// The release of the group at place i. A row that is given over and over is asked once.
fn release_at(
    store: &mut Store,
    i: usize,
    counted: &[Pair],
    digests: &[DigestRow],
    time: u64,
    out: &mut ArrayVec<u64, 256>,
)
    requires within { i < len_of store.old.groups }
    requires counted { length counted.now ≤ 256 }
    requires room { len_of store.old.sets.held + array_vec_len out.old + len_of store.old.pending ≤ 256 }
    ensures steps { Steps (view_of counted.now digests.now) time i store.old out.old.items store.new out.new.items }
    ensures room { len_of store.new.sets.held + array_vec_len out.new + len_of store.new.pending ≤ len_of store.old.sets.held + array_vec_len out.old + len_of store.old.pending }
{
    if begin_twice(counted) {
        release_gathered(store, i, counted, digests, time, out);
    } else {
        release_rows(store, i, counted, digests, time, out);
    }
}

// The same on the group's rows, gathered. A function of its own, since a call sets its whole list of rows to zero.
fn release_gathered(
    store: &mut Store,
    i: usize,
    counted: &[Pair],
    digests: &[DigestRow],
    time: u64,
    out: &mut ArrayVec<u64, 256>,
)
    requires within { i < len_of store.old.groups }
    requires counted { length counted.now ≤ 256 }
    requires room { len_of store.old.sets.held + array_vec_len out.old + len_of store.old.pending ≤ 256 }
    ensures steps { Steps (view_of counted.now digests.now) time i store.old out.old.items store.new out.new.items }
    ensures room { len_of store.new.sets.held + array_vec_len out.new + len_of store.new.pending ≤ len_of store.old.sets.held + array_vec_len out.old + len_of store.old.pending }
{
    let guid = store.groups.as_slice()[i].guid;
    let rows = rows_of(counted, guid);
    release_rows(store, i, rows.as_slice(), digests, time, out);
}

// The same, where each row is asked.
fn release_rows(
    store: &mut Store,
    i: usize,
    counted: &[Pair],
    digests: &[DigestRow],
    time: u64,
    out: &mut ArrayVec<u64, 256>,
)
    requires within { i < len_of store.old.groups }
    requires counted { length counted.now ≤ 256 }
    requires room { len_of store.old.sets.held + array_vec_len out.old + len_of store.old.pending ≤ 256 }
    ensures steps { Steps (view_of counted.now digests.now) time i store.old out.old.items store.new out.new.items }
    ensures room { len_of store.new.sets.held + array_vec_len out.new + len_of store.new.pending ≤ len_of store.old.sets.held + array_vec_len out.old + len_of store.old.pending }
{
    let group = store.groups.as_slice()[i];
    let turn = GroupTurn {
        group,
        writers: store.writers.as_slice(),
        counted,
        digests,
        time,
        timeout: store.timeout,
    };
    if let Some(number) = release_group(&turn, &store.pending, &mut store.sets, out) {
        store.groups.set(
            i,
            Group {
                committed: number,
                ..group
            },
        );
        let group = group.guid;
        store.pending.retain(&Left { group, number });
    }
}
