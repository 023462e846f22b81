// The lines that the call list has not; none where a field is bad. GUIDs are as the line spells them.
use call_line::field::{guid, word_if};
use call_line::line::Line;
use call_line::parse::parse;
use fields::line::Fields;
use rules::call::Offer;
use turn::rows::{Beat, Progress};

// Group, writer, reader and the end of the gap.
fn take_row(fields: &mut Fields) -> Option<Progress> {
    Some(Progress {
        group: guid(fields)?,
        writer: guid(fields)?,
        reader: fields.byte()?,
        heartbeat: None,
        gap_end: fields.number()?,
    })
}

pub(crate) fn take_gap_row(mut fields: Fields) -> Option<Progress> {
    let row = take_row(&mut fields)?;
    fields.end()?;
    Some(row)
}

pub(crate) fn take_heard_row(mut fields: Fields) -> Option<Progress> {
    let row = take_row(&mut fields)?;
    let beat = Beat {
        first: fields.number()?,
        last: fields.number()?,
        current: fields.number()?,
        digest: word_if(&mut fields)?,
        secure: word_if(&mut fields)?,
    };
    fields.end()?;
    Some(Progress {
        heartbeat: Some(beat),
        ..row
    })
}

// A turn or release: its time, and how many places are lent.
pub(crate) fn take_release(mut fields: Fields) -> Option<(u64, u64)> {
    let time = fields.unsigned()?;
    let places = fields.unsigned()?;
    fields.end()?;
    Some((time, places))
}

// The offer behind a letter.
pub(crate) fn take_offer(line: &[u8]) -> Option<Offer<u32>> {
    match parse(line.get(2..)?)? {
        Line::Offer(offer) => Some(offer),
        _ => None,
    }
}

pub(crate) fn take_flag(mut fields: Fields) -> Option<bool> {
    let flag = fields.letter()?;
    fields.end()?;
    match flag {
        b'0' => Some(false),
        b'1' => Some(true),
        _ => None,
    }
}

// The one field that is left.
pub(crate) fn take_text(mut fields: Fields<'_>) -> Option<&[u8]> {
    let text = fields.text()?;
    fields.end()?;
    Some(text)
}
