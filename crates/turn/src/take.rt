// The subscriber turn: its rows' heartbeats and gaps, then a release.
ghost use Rattle.std.specs.Prelude.{◌≡◌, ◌||◌, ltb};
ghost use Rattle.laws.specs.Lists.{list_any};
ghost use Rattle.rules.specs.Release.{malformed};
ghost use Rattle.release.specs.Released.{view_of};
ghost use Rattle.turn.specs.Turn.{turn_as, turn_to, TurnKept};

use crate::rows::{Progress, Report, apply_rows, since};
use history::order::GroupOrder;
use refusals::Refusal;
use release::release::is_malformed;
use rules::view::{DigestRow, Pair};

fn has_reader_above_seven(rows: &[Progress]) -> bool
    ensures { result ≡ list_any (λ r. ltb 7 r.reader) rows.now }
{
    rows.iter().any(|row| 7 < row.reader)
}

// Malformed rows of a release, or a progress row with a reader above 7.
fn is_malformed_turn(rows: &[Progress], counted: &[Pair], digests: &[DigestRow]) -> bool
    ensures { result ≡ (malformed (view_of counted.now digests.now) || list_any (λ r. ltb 7 r.reader) rows.now) }
{
    is_malformed(counted, digests) || has_reader_above_seven(rows)
}

// Refused 9 (malformed rows, or a progress row with a reader above 7); where nothing waits it answers None and changes nothing; then refused 5 (a
// list shorter than the number of stored samples). Time in nanoseconds.
pub fn take_turn(
    order: &mut GroupOrder,
    rows: &[Progress],
    counted: &[Pair],
    digests: &[DigestRow],
    time: u64,
    out: &mut [u64],
) -> Result<Option<Report>, Refusal>
    ensures is { (turn_as result, order.new, out.new) ≡ turn_to order.old rows.now (view_of counted.now digests.now) time out.old }
    ensures kept { TurnKept (turn_as result) order.old order.new }
{
    if is_malformed_turn(rows, counted, digests) {
        return Err(Refusal::MalformedView);
    }
    if order.is_empty() {
        return Ok(None);
    }
    let short = out.len() < order.sample_count();
    if short {
        return Err(Refusal::ListTooShort);
    }
    let before = order.counts();
    apply_rows(order, rows);
    let count = order.release(counted, digests, time, out)?;
    let grown = since(before, order.counts());
    Ok(Some(Report { count, grown }))
}
