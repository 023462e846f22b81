// The rows of a subscriber turn, and what it reports.
ghost use Rattle.std.specs.Prelude.{◌≡◌};
ghost use Rattle.rules.specs.Run.{run};
ghost use Rattle.turn.specs.Turn.{beat_calls, gap_calls, row_calls, applied, since};

use history::order::GroupOrder;
use rules::call::{Gap, Heartbeat};
use rules::state::ReleaseCounts;

// What a writer's last heartbeat said.
#[derive(Clone, Copy, PartialEq, Eq, Debug)]
pub struct Beat {
    pub first: i64,
    pub last: i64,
    pub current: i64,
    pub digest: Option<u32>,
    pub secure: Option<u32>,
}

// A row of a turn: how far a writer has come for a reader.
#[derive(Clone, Copy, PartialEq, Eq, Debug, Default)]
pub struct Progress {
    pub group: [u8; 16],
    pub writer: [u8; 16],
    pub reader: u8,
    pub heartbeat: Option<Beat>,
    pub gap_end: i64,
}

// The places written, and by how much each count grew.
#[derive(Clone, Copy, PartialEq, Eq, Debug)]
pub struct Report {
    pub count: usize,
    pub grown: ReleaseCounts,
}

// By how much each count grew from `before`.
#[tactic(auto, unfolding(crate::specs::Turn::since))]
pub fn since(before: ReleaseCounts, after: ReleaseCounts) -> ReleaseCounts
    ensures { result ≡ since before after }
{
    ReleaseCounts {
        skipped_after_timeout: after
            .skipped_after_timeout
            .saturating_sub(before.skipped_after_timeout),
        incomplete_sets: after.incomplete_sets.saturating_sub(before.incomplete_sets),
        discarded_samples: after
            .discarded_samples
            .saturating_sub(before.discarded_samples),
        late_samples: after.late_samples.saturating_sub(before.late_samples),
    }
}

#[tactic(auto, unfolding(crate::specs::Turn::beat_calls, crate::specs::Turn::beat_call, rules::specs::Run::run, rules::specs::Run::step))]
fn apply_heartbeat(order: &mut GroupOrder, row: &Progress)
    ensures { order.new ≡ run order.old (beat_calls row.now.group row.now.writer row.now.heartbeat) }
{
    if let Some(beat) = row.heartbeat {
        let _ = order.heartbeat(Heartbeat {
            group: row.group,
            writer: row.writer,
            first: beat.first,
            last: beat.last,
            current: beat.current,
            digest: beat.digest,
            secure: beat.secure,
        });
    }
}

#[tactic(auto, unfolding(crate::specs::Turn::gap_calls, rules::specs::Run::run, rules::specs::Run::step))]
fn apply_gap(order: &mut GroupOrder, row: &Progress)
    ensures { order.new ≡ run order.old (gap_calls row.now.group row.now.writer row.now.reader row.now.gap_end) }
{
    if 0 < row.gap_end {
        let _ = order.gap(Gap {
            group: row.group,
            writer: row.writer,
            reader: row.reader,
            number: row.gap_end,
        });
    }
}

// The row's heartbeat and gap, where its writer is known.
#[tactic(auto, unfolding(crate::specs::Turn::row_calls, rules::specs::Run::run))]
fn apply_row(order: &mut GroupOrder, row: &Progress)
    ensures { order.new ≡ run order.old (row_calls order.old row.now) }
{
    let known = order.knows(row.group, row.writer);
    if known {
        apply_heartbeat(order, row);
        apply_gap(order, row);
    }
}

// The rows in order, each on the history that the last left.
pub fn apply_rows(order: &mut GroupOrder, rows: &[Progress])
    ensures { order.new ≡ applied order.old rows.now }
{
    for row in rows {
        apply_row(order, row);
    }
}
