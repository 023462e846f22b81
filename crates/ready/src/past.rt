// Which numbers a counted pair is past.
ghost use Rattle.std.specs.Prelude.{◌≡◌, ◌-◌, suc, get_or};
ghost use Rattle.std.specs.Option.{option_copied};
ghost use Rattle.laws.specs.Lists.{filter, list_all};
ghost use Rattle.guids.specs.Guid.{same_guid};
ghost use Rattle.rules.specs.State.{writer_of};
ghost use Rattle.rules.specs.Commit.{pair_past, all_from};
ghost use Rattle.rules.specs.GroupTurn.{turn_as};

use guids::guid::same;
use rules::number::Marks;
use rules::state::Writer;
use rules::turn::GroupTurn;
use rules::view::Pair;

// What the writer and the reader were told; of a reader above 7 nothing.
fn marks_of(w: &Writer, reader: u8) -> Marks
    ensures seen { result.seen ≡ get_or w.now.seen reader 0 }
    ensures gap_end { result.gap_end ≡ get_or w.now.gaps reader 0 }
    ensures first { result.first ≡ w.now.first }
    ensures last { result.last ≡ w.now.last }
    ensures current { result.current ≡ w.now.current }
{
    let r = usize::from(reader);
    Marks {
        seen: w.seen.get(r).copied().unwrap_or(0),
        gap_end: w.gaps.get(r).copied().unwrap_or(0),
        first: w.first,
        last: w.last,
        current: w.current,
    }
}

// The known writer of the pair.
#[tactic(auto, unfolding(rules::specs::State::writer_of))]
fn writer_of<'a>(turn: &GroupTurn<'a>, p: &Pair) -> Option<&'a Writer>
    ensures { option_copied result ≡ writer_of turn.now.group.guid p.now.writer turn.now.writers.now }
{
    turn.writers
        .iter()
        .find(|w| w.is(turn.group.guid, p.writer))
}

// The pair is past n; an unknown writer is past nothing.
#[tactic(auto, unfolding(rules::specs::Commit::pair_past, rules::specs::Marks::past_of, rules::specs::Marks::past))]
pub(crate) fn is_past(turn: &GroupTurn<'_>, p: &Pair, n: u64) -> bool
    ensures { result ≡ pair_past (turn_as turn.now) p.now.writer p.now.reader n }
{
    match writer_of(turn, p) {
        Some(w) => marks_of(w, p.reader).is_past(n),
        None => false,
    }
}

// The pair is past every number from `from` on, below `end`: decided from the ends of what it was told.
fn is_past_all(turn: &GroupTurn<'_>, p: &Pair, from: u64, end: u64) -> bool
    ensures { result ≡ all_from from (end - from) (λ n. pair_past (turn_as turn.now) p.now.writer p.now.reader n) }
{
    match writer_of(turn, p) {
        Some(w) => end <= marks_of(w, p.reader).lowest_open(from, end),
        None => end <= from,
    }
}

// Every counted pair is past every number between the two.
pub(crate) fn all_past(turn: &GroupTurn<'_>, committed: u64, number: u64) -> bool
    ensures { result ≡ all_from (suc committed) (number - suc committed) (λ n. list_all (λ p. pair_past (turn_as turn.now) p.writer p.reader n) (turn_as turn.now).counted) }
{
    let from = committed.saturating_add(1);
    turn.counted
        .iter()
        .all(|p| is_past_all(turn, p, from, number))
}

// The same of rows of all groups: those of the group are asked.
pub(crate) fn own_past(turn: &GroupTurn<'_>, counted: &[Pair], committed: u64, number: u64) -> bool
    ensures { result ≡ all_from (suc committed) (number - suc committed) (λ n. list_all (λ p. pair_past (turn_as turn.now) p.writer p.reader n) (filter (λ p. same_guid turn.now.group.guid p.group) counted.now)) }
{
    let group = turn.group.guid;
    let from = committed.saturating_add(1);
    counted.iter().all(|p| !same(group, p.group) || is_past_all(turn, p, from, number))
}
