// The lines of a call list, run.
ghost use Rattle.std.specs.Prelude.{◌≡◌, [], Some};
ghost use Rattle.call_line.specs.Line.{line_of};
ghost use Rattle.call_line.specs.declared.line.Line.TheVariants as L;
ghost use Rattle.calls.specs.Run.{afresh};
ghost use Rattle.calls.specs.Runs.{Ran};

use crate::say::{put_done, put_offered, put_refusal, put_released};
use arrayvec::ArrayVec;
use call_line::line::Line;
use call_line::parse::parse;
use decimal::text::put_bytes;
use history::order::GroupOrder;
use rules::call::{Gap, Heartbeat, Offer};
use rules::view::{DigestRow, Pair};
use std::marker::Model;

// The history, and the rows for its next releases. They have room for one row more than a release takes, so that it sees that there are
// too many; the rows behind that one change nothing.
#[derive(Drop)]
pub struct Calls {
    order: GroupOrder,
    counted: ArrayVec<Pair, 257>,
    digests: ArrayVec<DigestRow, 9>,
}

impl Model for Calls {
    ghost use Rattle.calls.specs.Run as R;
    ghost use Rattle.calls.specs.Narrow.{Narrow};

    ghost Value = { R.Calls };

    ghost view = { λ calls. record { history = calls.order; counted = calls.counted.items; digests = calls.digests.items } };

    ghost invariant = { λ calls. Narrow calls.order };
}

// No row is counted.
fn clear_counted(counted: &mut ArrayVec<Pair, 257>)
    ensures { counted.new.items ≡ [] }
{
    counted.clear();
}

impl Calls {
    // Before any line; the timeout is in nanoseconds.
    pub fn new(timeout: u64) -> Calls
        ensures { result ≡ afresh timeout }
    {
        Calls {
            order: GroupOrder::new(timeout),
            counted: ArrayVec::new(),
            digests: ArrayVec::new(),
        }
    }

    pub fn order(&self) -> &GroupOrder
        ensures { result.now ≡ self.now.history }
    {
        &self.order
    }

    // Runs a line, and puts its answer, at most 3929 bytes, behind what the text holds, as far as it has room. A bad line changes
    // nothing, and a refused call nothing of the history.
    pub fn run_line<const N: usize>(&mut self, line: &[u8], text: &mut ArrayVec<u8, N>)
        ensures { Ran N (line_of line.now) self.old self.new text.old.items text.new.items }
    {
        self.run(parse(line), text)
    }

    pub(crate) fn run<const N: usize>(&mut self, line: Option<Line>, text: &mut ArrayVec<u8, N>)
        ensures { Ran N line self.old self.new text.old.items text.new.items }
    {
        match line {
            Some(Line::Timeout(timeout)) => self.start(timeout, text),
            Some(Line::Counted(row)) => self.count(row, text),
            Some(Line::Digest(row)) => self.digest(row, text),
            Some(Line::Offer(offer)) => self.offer(offer, text),
            Some(Line::Heartbeat(heartbeat)) => self.heartbeat(heartbeat, text),
            Some(Line::Gap(gap)) => self.gap(gap, text),
            Some(Line::Release(time)) => self.release(time, text),
            None => put_bytes(text, b"bad"),
        }
    }

    fn start<const N: usize>(&mut self, timeout: u64, text: &mut ArrayVec<u8, N>)
        ensures { Ran N (Some (L.Timeout timeout)) self.old self.new text.old.items text.new.items }
    {
        self.order.restart(timeout);
        clear_counted(&mut self.counted);
        self.digests.clear();
        put_bytes(text, b"ok")
    }

    fn count<const N: usize>(&mut self, row: Pair, text: &mut ArrayVec<u8, N>)
        ensures { Ran N (Some (L.Counted row)) self.old self.new text.old.items text.new.items }
    {
        let _ = self.counted.try_push(row);
        put_bytes(text, b"ok")
    }

    fn digest<const N: usize>(&mut self, row: DigestRow, text: &mut ArrayVec<u8, N>)
        ensures { Ran N (Some (L.Digest row)) self.old self.new text.old.items text.new.items }
    {
        let _ = self.digests.try_push(row);
        put_bytes(text, b"ok")
    }

    fn offer<const N: usize>(&mut self, offer: Offer<u32>, text: &mut ArrayVec<u8, N>)
        ensures { Ran N (Some (L.Offer offer)) self.old self.new text.old.items text.new.items }
    {
        let answer = self.order.offer(offer);
        put_offered(text, answer)
    }

    fn heartbeat<const N: usize>(&mut self, heartbeat: Heartbeat, text: &mut ArrayVec<u8, N>)
        ensures { Ran N (Some (L.Heartbeat heartbeat)) self.old self.new text.old.items text.new.items }
    {
        let answer = self.order.heartbeat(heartbeat);
        put_done(text, answer)
    }

    fn gap<const N: usize>(&mut self, gap: Gap, text: &mut ArrayVec<u8, N>)
        ensures { Ran N (Some (L.Gap gap)) self.old self.new text.old.items text.new.items }
    {
        let answer = self.order.gap(gap);
        put_done(text, answer)
    }

    fn release<const N: usize>(&mut self, time: u64, text: &mut ArrayVec<u8, N>)
        ensures { Ran N (Some (L.Release time)) self.old self.new text.old.items text.new.items }
    {
        let mut places = [0u64; 256];
        let counted = self.counted.as_slice();
        let digests = self.digests.as_slice();
        match self.order.release(counted, digests, time, &mut places) {
            Ok(n) => put_released(text, &places[..n], self.order.counts()),
            Err(refusal) => put_refusal(text, refusal),
        }
    }
}
