// A line of the call list, read in one pass.
#![tactic(auto, unfolding(crate::specs::Taken::taking, crate::specs::Taken::ending))]

ghost use Rattle.std.specs.Prelude.{◌≡◌, ℕ, List, Option, true, length, drop, option_map, option_and_then};
ghost use Rattle.fields.specs.Fields.{fields_of};
ghost use Rattle.fields.specs.Front.{line_in};
ghost use Rattle.fields.specs.Left.{left, behind, behind_newline};
ghost use Rattle.call_line.specs.Line.{line_of};
ghost use Rattle.call_line.specs.Taken.{offer_by, take_head, take_timeout, take_counted, take_digest, take_sample, take_end, take_heartbeat, take_gap, take_release};
ghost use Rattle.call_line.specs.declared.line.Line.{Line};
ghost use Rattle.call_line.specs.declared.parse.OfferHead.{OfferHead};

use crate::field::{guid, number_if, word_if};
use crate::line::Line;
use fields::line::Fields;
use rules::call::{Gap, Heartbeat, Offer};
use rules::entry::{SetEnd, What};
use rules::view::{DigestRow, Pair};

// The line that is all of `line`; none: it is bad.
pub fn parse(line: &[u8]) -> Option<Line>
    ensures { result ≡ line_of line.now }
{
    take_line(&mut Fields::of_line(line))
}

// The first line of a text, and what stands behind its newline; none where the text ends with the line.
pub fn parse_first(text: &[u8]) -> (Option<Line>, Option<&[u8]>)
    ensures line { result.0 ≡ line_of (line_in true text.now) }
    ensures behind { option_map (λ s. s.now) result.1 ≡ behind_newline (drop (length (line_in true text.now)) text.now) }
{
    let mut fields = Fields::of_text(text);
    let line = take_line(&mut fields);
    (line, fields.next_line())
}

fn take_line(fields: &mut Fields<'_>) -> Option<Line>
    ensures line { (l : List ℕ) → left fields.old ≡ fields_of l → result ≡ line_of l }
    ensures behind { behind fields.new ≡ behind fields.old }
{
    match fields.letter()? {
        b'T' => timeout(fields),
        b'V' => counted(fields),
        b'D' => digest(fields),
        b'S' => sample(fields),
        b'E' => end(fields),
        b'H' => heartbeat(fields),
        b'G' => gap(fields),
        b'R' => release(fields),
        _ => None,
    }
}

fn timeout(fields: &mut Fields<'_>) -> Option<Line>
    ensures line { result ≡ take_timeout (left fields.old) }
    ensures behind { behind fields.new ≡ behind fields.old }
{
    let timeout = fields.unsigned()?;
    fields.end()?;
    Some(Line::Timeout(timeout))
}

fn release(fields: &mut Fields<'_>) -> Option<Line>
    ensures line { result ≡ take_release (left fields.old) }
    ensures behind { behind fields.new ≡ behind fields.old }
{
    let time = fields.unsigned()?;
    fields.end()?;
    Some(Line::Release(time))
}

fn counted(fields: &mut Fields<'_>) -> Option<Line>
    ensures line { result ≡ take_counted (left fields.old) }
    ensures behind { behind fields.new ≡ behind fields.old }
{
    let group = guid(fields)?;
    let writer = guid(fields)?;
    let reader = fields.byte()?; // of the row
    fields.end()?;
    Some(Line::Counted(Pair {
        group,
        writer, // whose samples count
        reader, // that counts them
    }))
}

fn digest(fields: &mut Fields<'_>) -> Option<Line>
    ensures line { result ≡ take_digest (left fields.old) }
    ensures behind { behind fields.new ≡ behind fields.old }
{
    let group = guid(fields)?;
    let digest = fields.word()?; // that is accepted
    fields.end()?;
    Some(Line::Digest(DigestRow { group, digest }))
}

// The fields of an offer that `S` and `E` lines share.
#[derive(Clone, Copy)]
struct OfferHead {
    group: [u8; 16],
    writer: [u8; 16],
    reader: u8,
    number: i64,
    set: Option<i64>,
    digest: u32,
}

fn head(fields: &mut Fields<'_>) -> Option<OfferHead>
    ensures head { (go : OfferHead → List (List ℕ) → Option Line) → take_head go (left fields.old) ≡ option_and_then (λ h. go h (left fields.new)) result }
    ensures behind { behind fields.new ≡ behind fields.old }
{
    let group = guid(fields)?;
    let writer = guid(fields)?;
    let reader = fields.byte()?;
    let number = fields.number()?;
    let set = number_if(fields)?;
    let digest = fields.word()?;
    Some(OfferHead {
        group,
        writer,
        reader,
        number,
        set,
        digest,
    })
}

fn sample(fields: &mut Fields<'_>) -> Option<Line>
    ensures line { result ≡ take_sample (left fields.old) }
    ensures behind { behind fields.new ≡ behind fields.old }
{
    let head = head(fields)?;
    let item = fields.word()?;
    let time = fields.unsigned()?;
    fields.end()?;
    Some(offer(head, What::Sample(item), time))
}

fn end(fields: &mut Fields<'_>) -> Option<Line>
    ensures line { result ≡ take_end (left fields.old) }
    ensures behind { behind fields.new ≡ behind fields.old }
{
    let head = head(fields)?;
    let first = number_if(fields)?;
    let own = number_if(fields)?;
    let time = fields.unsigned()?;
    fields.end()?;
    Some(offer(head, What::End(SetEnd { first, own }), time))
}

fn offer(head: OfferHead, what: What<u32>, time: u64) -> Line
    ensures { result ≡ offer_by head what time }
{
    let OfferHead {
        group,
        writer,
        reader,
        number,
        set,
        digest,
    } = head;
    Line::Offer(Offer {
        group,
        writer, // that sent it
        reader, // that received it
        number,
        set,
        digest,
        what,
        time,
    })
}

fn heartbeat(fields: &mut Fields<'_>) -> Option<Line>
    ensures line { result ≡ take_heartbeat (left fields.old) }
    ensures behind { behind fields.new ≡ behind fields.old }
{
    let group = guid(fields)?;
    let writer = guid(fields)?;
    let first = fields.number()?;
    let last = fields.number()?;
    let current = fields.number()?;
    let digest = word_if(fields)?;
    let secure = word_if(fields)?;
    fields.end()?;
    Some(Line::Heartbeat(Heartbeat {
        group,
        writer,
        first, // of the range
        last,
        current,
        digest,
        secure, // of the group
    }))
}

fn gap(fields: &mut Fields<'_>) -> Option<Line>
    ensures line { result ≡ take_gap (left fields.old) }
    ensures behind { behind fields.new ≡ behind fields.old }
{
    let group = guid(fields)?;
    let writer = guid(fields)?;
    let reader = fields.byte()?;
    let number = fields.number()?;
    fields.end()?; // behind the number
    Some(Line::Gap(Gap {
        group, // whose number is left out
        writer,
        reader, // that heard of it
        number,
    }))
}
