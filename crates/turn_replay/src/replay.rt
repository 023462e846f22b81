// What a line does and prints.
use crate::line::{take_flag, take_gap_row, take_heard_row, take_offer, take_release, take_text};
use arrayvec::ArrayVec;
use call_line::line::Line;
use call_line::parse::parse;
use calls::say::{put_counts, put_done, put_offered, put_refusal, put_released};
use decimal::text::put_bytes;
use fields::line::Fields;
use hex_digits::text::{put_hex, read_hex};
use line_output::answers::Text;
use presentation::ordering::GroupOrdering;
use rules::call::{Gap, Heartbeat, Offer};
use rules::view::{DigestRow, Pair};
use turn::items::{GroupItem, GroupMark, participant_group_key};
use turn::rows::Progress;

// Byte i of a spread GUID k is k xor byte i of this, 17 i.
const SPREAD: u128 = 0x0011_2233_4455_6677_8899_aabb_ccdd_eeff;

// The ordering, the rows that wait for the next turn or release, and how GUIDs are spelled. There is room for one counted row and one digest row
// more than a release takes, so that there can be too many; the rows behind change nothing.
#[derive(Drop)]
pub(crate) struct Replay {
    ordering: GroupOrdering,
    progress: ArrayVec<Progress, 64>,
    counted: ArrayVec<Pair, 257>,
    digests: ArrayVec<DigestRow, 9>,
    spread: bool,
}

impl Replay {
    pub fn new() -> Replay {
        Replay {
            ordering: GroupOrdering::new(),
            progress: ArrayVec::new(),
            counted: ArrayVec::new(),
            digests: ArrayVec::new(),
            spread: false,
        }
    }

    // A line, without its newline; none where it is bad. It is read before anything is changed or put.
    pub fn run_line(&mut self, line: &[u8], text: &mut Text) -> Option<()> {
        let mut fields = Fields::of_line(line);
        match fields.letter()? {
            b'P' => self.add_row(take_gap_row(fields)?, text)?,
            b'Q' => self.add_row(take_heard_row(fields)?, text)?,
            b'U' => {
                let (time, places) = take_release(fields)?;
                self.take_turn(time, places, text);
            }
            b'R' => {
                let (time, places) = take_release(fields)?;
                self.release(time, places, text);
            }
            b'N' => {
                let item = self.item(take_offer(line)?);
                self.offer(
                    GroupItem {
                        group: None,
                        ..item
                    },
                    text,
                );
            }
            b'A' => {
                let item = self.item(take_offer(line)?);
                self.offer(GroupItem { mark: None, ..item }, text);
            }
            b'B' => {
                self.spread = take_flag(fields)?;
                put_bytes(text, b"ok");
            }
            b'K' => put_key(take_text(fields)?, text)?,
            _ => self.run_call(parse(line)?, text)?,
        }
        Some(())
    }

    // A call of the call list; a release is none here.
    fn run_call(&mut self, line: Line, text: &mut Text) -> Option<()> {
        match line {
            Line::Timeout(timeout) => {
                self.ordering.order.restart(timeout);
                self.progress.clear();
                self.counted.clear();
                self.digests.clear();
                self.spread = false;
                put_bytes(text, b"ok");
            }
            Line::Counted(row) => {
                let group = self.spell(row.group);
                let writer = self.spell(row.writer);
                let _ = self.counted.try_push(Pair {
                    group,
                    writer,
                    ..row
                });
                put_bytes(text, b"ok");
            }
            Line::Digest(row) => {
                let group = self.spell(row.group);
                let _ = self.digests.try_push(DigestRow { group, ..row });
                put_bytes(text, b"ok");
            }
            Line::Offer(offer) => {
                let item = self.item(offer);
                self.offer(item, text);
            }
            Line::Heartbeat(h) => {
                let group = self.spell(h.group);
                let writer = self.spell(h.writer);
                let order = &mut self.ordering.order;
                put_done(text, order.heartbeat(Heartbeat { group, writer, ..h }));
            }
            Line::Gap(g) => {
                let group = self.spell(g.group);
                let writer = self.spell(g.writer);
                let order = &mut self.ordering.order;
                put_done(text, order.gap(Gap { group, writer, ..g }));
            }
            Line::Release(_) => return None,
        }
        Some(())
    }

    fn spell(&self, guid: [u8; 16]) -> [u8; 16] {
        if self.spread {
            let last = [guid[15]; 16];
            (u128::from_be_bytes(last) ^ SPREAD).to_be_bytes()
        } else {
            guid
        }
    }

    fn add_row(&mut self, row: Progress, text: &mut Text) -> Option<()> {
        let row = Progress {
            group: self.spell(row.group),
            writer: self.spell(row.writer),
            ..row
        };
        self.progress.try_push(row).ok()?;
        put_bytes(text, b"ok");
        Some(())
    }

    // The item that makes the offer, with its group named.
    fn item(&self, offer: Offer<u32>) -> GroupItem {
        GroupItem {
            mark: Some(GroupMark {
                number: offer.number,
                set: offer.set,
                digest: offer.digest,
            }),
            group: Some(self.spell(offer.group)),
            writer: self.spell(offer.writer),
            reader: offer.reader,
            what: offer.what,
            time: offer.time,
        }
    }

    fn offer(&mut self, item: GroupItem, text: &mut Text) {
        match self.ordering.offer(item) {
            Some(answer) => put_offered(text, answer),
            None => put_bytes(text, b"given back"),
        }
    }

    // The list's 256 places are lent, or the first of them.
    fn release(&mut self, time: u64, places: u64, text: &mut Text) {
        let mut list = [0u64; 256];
        let lent = &mut list[..places.min(256) as usize];
        let order = &mut self.ordering.order;
        match order.release(&self.counted, &self.digests, time, lent) {
            Ok(count) => {
                let written = &lent[..count.min(lent.len())];
                put_released(text, written, order.counts());
            }
            Err(refusal) => put_refusal(text, refusal),
        }
    }

    // The progress rows are gone after it.
    fn take_turn(&mut self, time: u64, places: u64, text: &mut Text) {
        let mut list = [0u64; 256];
        let lent = &mut list[..places.min(256) as usize];
        let ordering = &mut self.ordering;
        match ordering.release(&self.progress, &self.counted, &self.digests, time, lent) {
            Ok(Some(report)) => {
                let written = &lent[..report.count.min(lent.len())];
                put_released(text, written, ordering.order.counts());
                put_counts(text, report.grown);
            }
            Ok(None) => put_bytes(text, b"idle"),
            Err(refusal) => put_refusal(text, refusal),
        }
        self.progress.clear();
    }
}

// The participant's group key of the GUID that the digits spell.
fn put_key(digits: &[u8], text: &mut Text) -> Option<()> {
    let bytes = read_hex::<16>(digits)?;
    let guid = <[u8; 16]>::try_from(bytes.as_slice()).ok()?;
    put_hex(text, &participant_group_key(guid));
    Some(())
}
