// When the lowest pending number of a group is ready: passable and copies_arrived of the source.
#![tactic(auto)]

ghost use Rattle.std.specs.Prelude.{◌≡◌, ◌||◌, ◌&&◌, not, suc, eqb, leb};
ghost use Rattle.guids.specs.Guid.{same_guid};
ghost use Rattle.rules.specs.Commit.{ruled_out, copies_arrived, digests_accepted};
ghost use Rattle.rules.specs.GroupTurn.{turn_as};
ghost use Rattle.ready.specs.Places.{entries_at, copied};
ghost use Rattle.ready.specs.Own.{turn_for};

use crate::digests::digests_accepted;
use crate::heads::Heads;
use crate::past::{all_past, is_past, own_past};
use guids::guid::same;
use rules::entry::Entry;
use rules::turn::GroupTurn;
use rules::view::Pair;

mod digests;
mod heads;
mod past;

// The number is the one behind committed.
fn is_next(committed: u64, number: u64) -> bool
    ensures { result ≡ eqb number (suc committed) }
{
    committed.checked_add(1) == Some(number)
}

// Announced reaches the number, and every digest is accepted.
fn is_announced(turn: &GroupTurn<'_>, number: u64) -> bool
    ensures { result ≡ (leb number turn.now.group.announced && digests_accepted (turn_as turn.now)) }
{
    number <= turn.group.announced && digests_accepted(turn)
}

// Announced reaches the number, every digest is accepted, and every counted pair is past every number between committed and it.
#[tactic(auto, unfolding(rules::specs::Commit::ruled_out))]
fn is_ruled_out(turn: &GroupTurn<'_>, committed: u64, number: u64) -> bool
    ensures { result ≡ ruled_out (turn_as turn.now) committed number }
{
    is_announced(turn, number) && all_past(turn, committed, number)
}

// The number is the one behind committed, or those between are ruled out.
pub fn is_passable(turn: &GroupTurn<'_>, committed: u64, number: u64) -> bool
    ensures { result ≡ (eqb number (suc committed) || ruled_out (turn_as turn.now) committed number) }
{
    is_next(committed, number) || is_ruled_out(turn, committed, number)
}

// The same of rows of all groups, which need not be gathered first: those of the group are asked, up to the first that is not past. The turn's own
// rows are not.
#[tactic(auto, unfolding(rules::specs::Commit::ruled_out, rules::specs::Commit::digests_accepted, rules::specs::Commit::pair_past))]
pub fn is_passable_for(turn: &GroupTurn<'_>, counted: &[Pair], committed: u64, number: u64) -> bool
    ensures { result ≡ (eqb number (suc committed) || ruled_out (turn_for counted.now turn.now) committed number) }
{
    is_next(committed, number)
        || (is_announced(turn, number) && own_past(turn, counted, committed, number))
}

// The pair's reader has an entry or is past the number, or its writer has no entry.
fn is_copied(turn: &GroupTurn<'_>, number: u64, heads: &Heads<'_>, p: &Pair) -> bool
    ensures { result ≡ copied (turn_as turn.now) number (entries_at heads.now.pending.now heads.now.places.now) p.now }
{
    heads.has_reader(p.reader) || is_past(turn, p, number) || !heads.has_writer(p.writer)
}

// Of each of the number's entries, every counted reader of its writer has an entry or is past the number. The entries are those of `pending` at
// the places `heads`.
pub fn copies_arrived(
    turn: &GroupTurn<'_>,
    number: u64,
    pending: &[Entry<u32>],
    heads: &[usize],
) -> bool
    ensures { result ≡ copies_arrived (turn_as turn.now) number (entries_at pending.now heads.now) }
{
    let heads = Heads::new(pending, heads);
    turn.counted
        .iter()
        .all(|p| is_copied(turn, number, &heads, p))
}

// The row is not of the group, or copied. Its reader is asked first, which is enough for most.
fn is_copied_or_other(turn: &GroupTurn<'_>, number: u64, heads: &Heads<'_>, row: &Pair) -> bool
    ensures { result ≡ (not (same_guid turn.now.group.guid row.now.group) || copied (turn_as turn.now) number (entries_at heads.now.pending.now heads.now.places.now) row.now) }
{
    heads.has_reader(row.reader)
        || !same(turn.group.guid, row.group)
        || is_past(turn, row, number)
        || !heads.has_writer(row.writer)
}

// The same of rows of all groups, which need not be gathered first: those of the group are asked. The turn's own rows are not.
pub fn copies_arrived_for(
    turn: &GroupTurn<'_>,
    counted: &[Pair],
    number: u64,
    pending: &[Entry<u32>],
    heads: &[usize],
) -> bool
    ensures { result ≡ copies_arrived (turn_for counted.now turn.now) number (entries_at pending.now heads.now) }
{
    let heads = Heads::new(pending, heads);
    counted
        .iter()
        .all(|p| is_copied_or_other(turn, number, &heads, p))
}
