// The release of one group: release_group of the source. The turn's counted rows are those of all groups.
ghost use Rattle.std.specs.Prelude.{ℕ, ◌≡◌, ◌+◌, ◌-◌, ◌≤◌, suc, true, false, not, Some, None, length, unwrap_or, take, drop, eqb, slice_get, option_copied};
ghost use Rattle.laws.specs.Lists.{count, filter, list_all};
ghost use Rattle.rules.specs.Entry.{of_group};
ghost use Rattle.rules.specs.declared.entry.Entry.{Entry};
ghost use Rattle.rules.specs.Sets.{lowest_ended};
ghost use Rattle.rules.specs.GroupTurn.{turn_as};
ghost use Rattle.rules.specs.Release.{Work, round, skip, waits, finish};
ghost use Rattle.sets.specs.Works.{Goes};
ghost use Rattle.ready.specs.Places.{entries_at};
ghost use Rattle.release.specs.OwnTurn.{own_turn, with_own_rows};
ghost use Rattle.release.specs.Order.{by_number, AllBelow};
ghost use Rattle.release.specs.GroupReleased.{Ended, GroupReleased};
ghost use Rattle.release.specs.Progress.{Stands, Repeated};
ghost use Rattle.release.specs.Left.{left};
ghost use Rattle.arrayvec.specs.ArrayVec.{array_vec_len};
ghost use Rattle.fixed_list.specs.FixedList.{len_of};

use crate::commit::{Memory, commit_all};
use crate::order::in_order;
use crate::rows::{are_of, rows_of};
use arrayvec::ArrayVec;
use fixed_list::FixedList;
use guids::guid::same;
use ready::{copies_arrived_for, is_passable_for};
use rules::entry::Entry;
use rules::state::ReleaseCounts;
use rules::turn::GroupTurn;
use rules::view::Pair;
use sets::Sets;

// Where the release of a group stands between its repetitions: the places of its entries that are still pending, in the order of their
// numbers; the last number committed; and what is remembered of the held entries.
#[derive(Clone, Copy)]
struct Progress<'a> {
    rest: &'a [usize],
    last: Option<u64>,
    memory: Memory,
}

// The first entry of the group's lowest pending number.
fn first_of(pending: &[Entry<u32>], group: [u8; 16]) -> Option<&Entry<u32>>
    ensures { option_copied result ≡ slice_get (by_number (filter (λ e. of_group group e) pending.now)) 0 }
{
    let mut first: Option<&Entry<u32>> = None;
    for e in pending {
        let lower = match first {
            Some(first) => e.number < first.number,
            None => true,
        };
        if lower && same(group, e.group) {
            first = Some(e);
        }
    }
    first
}

// No set of the group is ended, and the lowest pending number is neither the next one nor are those before it ruled out, and its first entry
// waited less than the timeout; or nothing is pending: the first repetition would stop.
pub(crate) fn is_stuck(turn: &GroupTurn<'_>, pending: &[Entry<u32>], sets: &Sets) -> bool
    ensures { (w : Work ℕ) → w.pending ≡ pending.now → w.held ≡ sets.now.held.items → w.committed ≡ turn.now.group.committed → result ≡ true → round (own_turn turn.now) w ≡ None }
{
    let guid = turn.group.guid;
    if sets.lowest_ended(guid).is_some() {
        return false;
    }
    match first_of(pending, guid) {
        Some(e) => turn.is_young(Some(e.time))
            && !is_passable_for(turn, turn.counted, turn.group.committed, e.number),
        None => true,
    }
}

// How many of the first places are of entries of the number.
fn head_count(entries: &[Entry<u32>], places: &[usize], number: u64) -> usize
    requires { AllBelow (length entries.now) places.now }
    ensures within { result ≤ length places.now }
    ensures heads { list_all (λ e. eqb number e.number) (entries_at entries.now (take result places.now)) ≡ true }
    ensures other { (e : Entry ℕ) → slice_get (entries_at entries.now (drop result places.now)) 0 ≡ Some e → eqb number e.number ≡ false }
{
    for (k, &i) in places.iter().enumerate() {
        if entries[i].number != number {
            return k;
        }
    }
    places.len()
}

// The numbers between committed and a later one.
fn missing_before(number: u64, committed: u64) -> u64
    ensures { result ≡ number - suc committed }
{
    number.saturating_sub(committed.saturating_add(1))
}

// So many numbers are skipped.
fn count_skipped(counts: &mut ReleaseCounts, skipped: u64)
    ensures { counts.new ≡ skip skipped counts.old }
{
    counts.skipped_after_timeout = counts.skipped_after_timeout.saturating_add(skipped);
}

// The ended set is finished, unless it waits: whether it is. The turn's rows are all the group's own.
fn finish_own(turn: &GroupTurn<'_>, set: i64, sets: &mut Sets, out: &mut ArrayVec<u64, 256>) -> bool
    requires { len_of sets.old.held + array_vec_len out.old ≤ 256 }
    ensures waits { result ≡ not (waits (turn_as turn.now) set sets.old.held.items) }
    ensures stays { result ≡ false → (sets.new ≡ sets.old) × (out.new ≡ out.old) }
    ensures goes { result ≡ true → Goes (λ w. finish (turn_as turn.now) set w) sets.old out.old.items sets.new out.new.items }
    ensures room { len_of sets.new.held + array_vec_len out.new ≤ len_of sets.old.held + array_vec_len out.old }
{
    let guid = turn.group.guid;
    if sets.is_whole(turn, set) {
        sets.hand_out(guid, set, out);
        return true;
    }
    if sets.waits(turn, set) {
        return false;
    }
    sets.discard(guid, set);
    true
}

// The same on the group's rows, gathered from those of all groups. A function of its own, since a call sets its whole list of rows to zero.
fn finish_gathered(
    turn: &GroupTurn<'_>,
    set: i64,
    sets: &mut Sets,
    out: &mut ArrayVec<u64, 256>,
) -> bool
    requires counted { length turn.now.counted.now ≤ 256 }
    requires room { len_of sets.old.held + array_vec_len out.old ≤ 256 }
    ensures waits { result ≡ not (waits (own_turn turn.now) set sets.old.held.items) }
    ensures stays { result ≡ false → (sets.new ≡ sets.old) × (out.new ≡ out.old) }
    ensures goes { result ≡ true → Goes (λ w. finish (own_turn turn.now) set w) sets.old out.old.items sets.new out.new.items }
    ensures room { len_of sets.new.held + array_vec_len out.new ≤ len_of sets.old.held + array_vec_len out.old }
{
    let rows = rows_of(turn.counted, turn.group.guid);
    let own = GroupTurn {
        counted: rows.as_slice(),
        ..*turn
    };
    finish_own(&own, set, sets, out)
}

// The same: where all rows are the group's own, they are not gathered.
fn finish(turn: &GroupTurn<'_>, set: i64, sets: &mut Sets, out: &mut ArrayVec<u64, 256>) -> bool
    requires counted { length turn.now.counted.now ≤ 256 }
    requires room { len_of sets.old.held + array_vec_len out.old ≤ 256 }
    ensures waits { result ≡ not (waits (own_turn turn.now) set sets.old.held.items) }
    ensures stays { result ≡ false → (sets.new ≡ sets.old) × (out.new ≡ out.old) }
    ensures goes { result ≡ true → Goes (λ w. finish (own_turn turn.now) set w) sets.old out.old.items sets.new out.new.items }
    ensures room { len_of sets.new.held + array_vec_len out.new ≤ len_of sets.old.held + array_vec_len out.old }
{
    if are_of(turn.counted, turn.group.guid) {
        return finish_own(turn, set, sets, out);
    }
    finish_gathered(turn, set, sets, out)
}

// The lowest pending number is committed, if it is ready or its first entry waited the timeout; else, or if nothing is pending, it stops.
fn commit_head<'a>(
    turn: &GroupTurn<'_>,
    entries: &[Entry<u32>],
    at: Progress<'a>,
    sets: &mut Sets,
    out: &mut ArrayVec<u64, 256>,
) -> Option<Progress<'a>>
    requires stands { Stands (with_own_rows turn.now) entries.now at sets.old }
    requires room { len_of sets.old.held + array_vec_len out.old + length at.rest.now ≤ 256 }
    requires quiet { lowest_ended turn.now.group.guid sets.old.held.items ≡ None }
    ensures goes { (v : Work ℕ) → Ended (with_own_rows turn.now) entries.now at.entry.last sets.old out.old.items v → Repeated (with_own_rows turn.now) entries.now at.entry.last result sets.new out.new.items v }
    ensures stands { Stands (with_own_rows turn.now) entries.now (unwrap_or result at.entry) sets.new }
    ensures room { len_of sets.new.held + array_vec_len out.new + length (unwrap_or result at.entry).rest.now ≤ len_of sets.old.held + array_vec_len out.old + length at.entry.rest.now }
{
    let Some(&first) = at.rest.first() else {
        return None;
    };
    let head = &entries[first];
    let committed = at.last.unwrap_or(turn.group.committed);
    let (heads, rest) = at.rest.split_at(head_count(entries, at.rest, head.number));
    let ready = is_passable_for(turn, turn.counted, committed, head.number)
        && copies_arrived_for(turn, turn.counted, head.number, entries, heads);
    if !ready && turn.is_young(Some(head.time)) {
        return None;
    }
    let skipped = if ready {
        0
    } else {
        missing_before(head.number, committed)
    };
    count_skipped(&mut sets.counts, skipped);
    let quiet = Memory {
        quiet: true,
        ..at.memory
    };
    let memory = commit_all(turn.group.guid, entries, heads, sets, out, quiet);
    Some(Progress {
        rest,
        last: Some(head.number),
        memory,
    })
}

// One repetition: the ended set with the lowest number is finished; with none ended the lowest pending number is committed.
fn repeat<'a>(
    turn: &GroupTurn<'_>,
    entries: &[Entry<u32>],
    at: Progress<'a>,
    sets: &mut Sets,
    out: &mut ArrayVec<u64, 256>,
) -> Option<Progress<'a>>
    requires counted { length turn.now.counted.now ≤ 256 }
    requires stands { Stands (with_own_rows turn.now) entries.now at sets.old }
    requires room { len_of sets.old.held + array_vec_len out.old + length at.rest.now ≤ 256 }
    ensures goes { (v : Work ℕ) → Ended (with_own_rows turn.now) entries.now at.entry.last sets.old out.old.items v → Repeated (with_own_rows turn.now) entries.now at.entry.last result sets.new out.new.items v }
    ensures stands { Stands (with_own_rows turn.now) entries.now (unwrap_or result at.entry) sets.new }
    ensures room { len_of sets.new.held + array_vec_len out.new + length (unwrap_or result at.entry).rest.now ≤ len_of sets.old.held + array_vec_len out.old + length at.entry.rest.now }
{
    let ended = if at.memory.quiet {
        None
    } else {
        sets.lowest_ended(turn.group.guid)
    };
    let Some(set) = ended else {
        return commit_head(turn, entries, at, sets, out);
    };
    if finish(turn, set, sets, out) {
        Some(Progress {
            memory: Memory::default(),
            ..at
        })
    } else {
        None
    }
}

// Repeats in the group until it stops there; answers the last number committed, if any. Up to it nothing of the group is pending then.
pub(crate) fn release_group(
    turn: &GroupTurn<'_>,
    pending: &FixedList<Entry<u32>, 256>,
    sets: &mut Sets,
    out: &mut ArrayVec<u64, 256>,
) -> Option<u64>
    requires counted { length turn.now.counted.now ≤ 256 }
    requires room { len_of sets.old.held + array_vec_len out.old + count (λ e. of_group turn.now.group.guid e) pending.now.items ≤ 256 }
    ensures goes { GroupReleased (with_own_rows turn.now) pending.now.items sets.old out.old.items result sets.new out.new.items }
    ensures room { len_of sets.new.held + array_vec_len out.new + length (left turn.now.group.guid result pending.now.items) ≤ len_of sets.old.held + array_vec_len out.old + len_of pending.now }
{
    let entries = pending.as_slice();
    let places = in_order(pending, turn.group.guid);
    let mut at = Progress {
        rest: places.as_slice(),
        last: None,
        memory: Memory::default(),
    };
    for _ in 0..2 * entries.len() + sets.held.len() + 1 {
        let Some(next) = repeat(turn, entries, at, sets, out) else {
            return at.last;
        };
        at = next;
    }
    at.last
}
