// What an entry is to a set: its member, a kept end, neither.
#![tactic(auto, unfolding(rules::specs::Entry::is_sample, rules::specs::Entry::of_group, rules::specs::Entry::in_set, rules::specs::Entry::of_pair, rules::specs::Entry::is_member, rules::specs::Entry::is_end_of, rules::specs::Run::place_of))]

ghost use Rattle.std.specs.Prelude.{◌≡◌};
ghost use Rattle.rules.specs.Entry.{in_set, is_member, is_end_of, of_pair};
ghost use Rattle.rules.specs.Offer.{shares, replaced};
ghost use Rattle.rules.specs.Sets.{agrees_w};
ghost use Rattle.rules.specs.Run.{place_of};

use guids::guid::same;
use rules::entry::{Entry, What};
use rules::number::is_distance;

// Of the group's set.
pub(crate) fn is_in(e: &Entry<u32>, group: [u8; 16], set: i64) -> bool
    ensures { result ≡ in_set group set e.now }
{
    e.set == Some(set) && same(group, e.group)
}

// A member of the group's set.
pub(crate) fn is_member(e: &Entry<u32>, group: [u8; 16], set: i64) -> bool
    ensures { result ≡ is_member group set e.now }
{
    e.is_sample() && is_in(e, group, set)
}

// Of the pair of writer and reader.
pub(crate) fn is_of_pair(e: &Entry<u32>, writer: [u8; 16], reader: u8) -> bool
    ensures { result ≡ of_pair writer reader e.now }
{
    reader == e.reader && same(writer, e.writer)
}

// The kept end of the pair in the group's set.
pub(crate) fn is_end_of(
    e: &Entry<u32>,
    group: [u8; 16],
    set: i64,
    writer: [u8; 16],
    reader: u8,
) -> bool
    ensures { result ≡ is_end_of group set writer reader e.now }
{
    !e.is_sample() && is_of_pair(e, writer, reader) && is_in(e, group, set)
}

// h is of e's set.
#[tactic(auto, unfolding(rules::specs::Offer::shares, rules::specs::Entry::in_set))]
pub fn shares(e: &Entry<u32>, h: &Entry<u32>) -> bool
    ensures { result ≡ shares e.now h.now }
{
    e.set.is_some_and(|set| is_in(h, e.group, set))
}

// h is the kept end of e's pair in e's set.
#[tactic(auto, unfolding(rules::specs::Offer::replaced, rules::specs::Offer::shares, rules::specs::Entry::is_end_of, rules::specs::Entry::in_set))]
pub fn replaces(e: &Entry<u32>, h: &Entry<u32>) -> bool
    ensures { result ≡ replaced e.now h.now }
{
    e.set
        .is_some_and(|set| is_end_of(h, e.group, set, e.writer, e.reader))
}

// A kept end agrees with the number of its pair's members.
pub(crate) fn end_agrees(members: u64, what: What<u32>) -> bool
    ensures { result ≡ agrees_w members what }
{
    let What::End(end) = what else {
        return true;
    };
    match (end.first, end.own) {
        (None, _) => members == 0,
        (Some(_), None) => true,
        (Some(first), Some(own)) => is_distance(members, first, own),
    }
}

// What stands in the lent list for a sample handed out: reader · 2^32 + item.
pub fn place_of(e: &Entry<u32>) -> u64
    ensures { result ≡ place_of e.now }
{
    match e.what {
        What::Sample(item) => u64::from(e.reader) * 4294967296 + u64::from(item),
        What::End(_) => 0,
    }
}
