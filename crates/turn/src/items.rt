// Items off a reader's channel, and the offers that they make.
ghost use Rattle.std.specs.Prelude.{◌≡◌, option_map};
ghost use Rattle.refusals.specs.Refusal.{answer_as};
ghost use Rattle.turn.specs.Items.{participant_key, brings, offer_item, OfferKept};

use history::order::GroupOrder;
use refusals::Refusal;
use rules::call::{Fate, Offer};
use rules::entry::What;

// The group of a writer whose announcement named none: its participant.
pub fn participant_group_key(writer: [u8; 16]) -> [u8; 16]
    ensures { result ≡ participant_key writer }
{
    let mut key = writer;
    key[12] = 0;
    key[13] = 0;
    key[14] = 0;
    key[15] = 0;
    key
}

// What an item of a GROUP-scope publisher's writer brings beside its writer.
#[derive(Clone, Copy, PartialEq, Eq, Debug)]
pub struct GroupMark {
    pub number: i64,
    pub set: Option<i64>,
    pub digest: u32,
}

// An item off a reader's channel: its group information, if it has any, and the group that its writer's announcement named, if it named one.
#[derive(Clone, Copy, PartialEq, Eq, Debug)]
pub struct GroupItem {
    pub mark: Option<GroupMark>,
    pub group: Option<[u8; 16]>,
    pub writer: [u8; 16],
    pub reader: u8,
    pub what: What<u32>,
    // nanoseconds
    pub time: u64,
}

impl GroupItem {
    // The offer that it makes: of the group that was named, else of the participant's; none without group information.
    fn offer(self) -> Option<Offer<u32>>
        ensures { result ≡ brings self }
    {
        let mark = self.mark?;
        let writer = self.writer;
        let named = self.group;
        let group = match named {
            Some(group) => group,
            None => participant_group_key(writer),
        };
        Some(Offer {
            group,
            writer,
            reader: self.reader,
            number: mark.number,
            set: mark.set,
            digest: mark.digest,
            what: self.what,
            time: self.time,
        })
    }
}

// Takes an item into the history; with None it is given back, since it has no group information.
#[tactic(auto, unfolding(crate::specs::Items::OfferKept, laws::specs::Answer::Kept))]
pub fn offer_item(order: &mut GroupOrder, item: GroupItem) -> Option<Result<Fate, Refusal>>
    ensures is { (option_map (λ r. answer_as r) result, order.new) ≡ offer_item order.old (brings item) }
    ensures kept { OfferKept (option_map (λ r. answer_as r) result) order.old order.new }
{
    match item.offer() {
        Some(offer) => Some(order.offer(offer)),
        None => None,
    }
}
