// The open sets of the history: their members and kept ends, and the counts that a finished set adds to.
#![tactic(auto)]

ghost use Rattle.std.specs.Prelude.{◌≡◌, ◌++◌, map, length, take, [], option_map};
ghost use Rattle.std.specs.Option.{option_copied};
ghost use Rattle.laws.specs.Lists.{list_any, list_all, find};
ghost use Rattle.rules.specs.Entry.{is_end_of, is_member};
ghost use Rattle.rules.specs.Sets.{lowest_ended, lesser, end_missing, members_of, members_of_pair, agrees, whole, without};
ghost use Rattle.rules.specs.Release.{waits, discards};
ghost use Rattle.rules.specs.Offer.{keep_end};
ghost use Rattle.rules.specs.Run.{place_of};
ghost use Rattle.rules.specs.State.{no_counts};
ghost use Rattle.rules.specs.GroupTurn.{turn_as};

use arrayvec::ArrayVec;
use fixed_list::{FixedList, Keep};
use guids::guid::same;
use rules::entry::Entry;
use rules::state::ReleaseCounts;
use rules::turn::GroupTurn;
use rules::view::Pair;

mod entry;

pub use entry::{place_of, replaces, shares};
use entry::{end_agrees, is_end_of, is_in, is_member, is_of_pair};

// The entries in the order in which they were committed or joined.
#[derive(Clone, Copy)]
pub struct Sets {
    pub held: FixedList<Entry<u32>, 256>,
    pub counts: ReleaseCounts,
}

// The entries that an end does not replace.
#[derive(Drop)]
struct Beside {
    end: Entry<u32>,
}

impl Keep<Entry<u32>> for Beside {
    ghost use Rattle.std.specs.Prelude.{not};
    ghost use Rattle.rules.specs.Offer.{replaced};

    ghost keeps = { λ b h. not (replaced b.end h) };

    fn keeps(&self, h: &Entry<u32>) -> bool {
        !replaces(&self.end, h)
    }
}

// The entries of other sets.
#[derive(Drop)]
struct Outside {
    group: [u8; 16],
    set: i64,
}

impl Keep<Entry<u32>> for Outside {
    ghost use Rattle.std.specs.Prelude.{not};
    ghost use Rattle.rules.specs.Entry.{in_set};

    ghost keeps = { λ o h. not (in_set o.group o.set h) };

    fn keeps(&self, h: &Entry<u32>) -> bool {
        !is_in(h, self.group, self.set)
    }
}

// The lower of two numbers that may be absent. Not std's `min`, to which an absent one is the lower.
pub fn lesser(a: Option<i64>, b: Option<i64>) -> Option<i64>
    ensures { result ≡ lesser a b }
{
    match (a, b) {
        (Some(a), Some(b)) => Some(a.min(b)),
        (None, b) => b,
        (a, None) => a,
    }
}

// One set more is incomplete, and its members are discarded.
#[tactic(auto, unfolding(rules::specs::Release::discards, rules::specs::State::plus))]
fn add_incomplete(c: ReleaseCounts, members: u64) -> ReleaseCounts
    ensures { result ≡ discards members c }
{
    ReleaseCounts {
        incomplete_sets: c.incomplete_sets.saturating_add(1),
        discarded_samples: c.discarded_samples.saturating_add(members),
        ..c
    }
}

// Group and set number stay two parameters, as the definitions have them: a record of both would be taken apart in every clause.
impl Sets {
    // No set is open, and the counts are 0.
    #[tactic(auto, unfolding(rules::specs::State::no_counts))]
    pub fn new() -> Sets
        ensures held { result.held.items ≡ [] }
        ensures counts { result.counts ≡ no_counts }
    {
        Sets {
            held: FixedList::new(),
            counts: ReleaseCounts::default(),
        }
    }

    // No set is open any more, and the counts are 0 again.
    #[tactic(auto, unfolding(rules::specs::State::no_counts))]
    pub fn clear(&mut self)
        ensures held { self.new.held.items ≡ [] }
        ensures counts { self.new.counts ≡ no_counts }
    {
        self.held.clear();
        self.counts = ReleaseCounts::default();
    }

    // The ended set of the group with the lowest set number.
    pub fn lowest_ended(&self, group: [u8; 16]) -> Option<i64>
        ensures { result ≡ lowest_ended group self.now.held.items }
    {
        self.held
            .iter()
            .filter(|h| same(group, h.group) && h.ended.is_some())
            .filter_map(|h| h.set)
            .min()
    }

    // The pair's end is kept.
    fn has_end(&self, group: [u8; 16], set: i64, p: &Pair) -> bool
        ensures { result ≡ list_any (λ h. is_end_of group set p.now.writer p.now.reader h) self.now.held.items }
    {
        self.held
            .iter()
            .any(|h| is_end_of(h, group, set, p.writer, p.reader))
    }

    // The number of the pair's members.
    #[tactic(auto, unfolding(rules::specs::Sets::members_of_pair, laws::specs::Lists::count))]
    fn members_of_pair(&self, group: [u8; 16], set: i64, p: &Pair) -> u64
        ensures { result ≡ members_of_pair group set p.now self.now.held.items }
    {
        self.held
            .iter()
            .filter(|h| is_member(h, group, set) && is_of_pair(h, p.writer, p.reader))
            .count() as u64
    }

    // The pair's end.
    fn end_of(&self, group: [u8; 16], set: i64, p: &Pair) -> Option<&Entry<u32>>
        ensures { option_copied result ≡ find (λ h. is_end_of group set p.now.writer p.now.reader h) self.now.held.items }
    {
        self.held
            .iter()
            .find(|h| is_end_of(h, group, set, p.writer, p.reader))
    }

    // The pair's end is kept, and agrees with the number of the pair's members.
    #[tactic(auto, unfolding(rules::specs::Sets::agrees))]
    fn pair_agrees(&self, group: [u8; 16], set: i64, p: &Pair) -> bool
        ensures { result ≡ agrees group set self.now.held.items p.now }
    {
        match self.end_of(group, set, p) {
            Some(h) => end_agrees(self.members_of_pair(group, set, p), h.what),
            None => false,
        }
    }

    // A counted pair's end is missing.
    #[tactic(auto, unfolding(rules::specs::Sets::end_missing))]
    fn end_missing(&self, turn: &GroupTurn<'_>, set: i64) -> bool
        ensures { result ≡ end_missing turn.now.group.guid set (turn_as turn.now).counted self.now.held.items }
    {
        let group = turn.group.guid;
        turn.counted.iter().any(|p| !self.has_end(group, set, p))
    }

    // When the set's first member was offered.
    fn first_time(&self, group: [u8; 16], set: i64) -> Option<u64>
        ensures { result ≡ option_map (λ e. e.time) (find (λ h. is_member group set h) self.now.held.items) }
    {
        self.held
            .iter()
            .find(|h| is_member(h, group, set))
            .map(|h| h.time)
    }

    // An end is missing, and the set's first member waited less than the timeout.
    #[tactic(auto, unfolding(rules::specs::Release::waits, rules::specs::Release::young))]
    pub fn waits(&self, turn: &GroupTurn<'_>, set: i64) -> bool
        ensures { result ≡ waits (turn_as turn.now) set self.now.held.items }
    {
        self.end_missing(turn, set) && turn.is_young(self.first_time(turn.group.guid, set))
    }

    // Each counted pair agrees.
    fn all_agree(&self, turn: &GroupTurn<'_>, set: i64) -> bool
        ensures { result ≡ list_all (λ p. agrees turn.now.group.guid set self.now.held.items p) (turn_as turn.now).counted }
    {
        let group = turn.group.guid;
        turn.counted.iter().all(|p| self.pair_agrees(group, set, p))
    }

    // No counted pair's end is missing, and each agrees.
    #[tactic(auto, using(crate::proofs::Whole::whole_all))]
    pub fn is_whole(&self, turn: &GroupTurn<'_>, set: i64) -> bool
        ensures { result ≡ whole turn.now.group.guid set (turn_as turn.now).counted self.now.held.items }
    {
        self.all_agree(turn, set)
    }

    // The number of the set's members.
    #[tactic(auto, unfolding(rules::specs::Sets::members_of))]
    fn member_count(&self, group: [u8; 16], set: i64) -> u64
        ensures { result ≡ length (members_of group set self.now.held.items) }
    {
        self.held
            .iter()
            .filter(|h| is_member(h, group, set))
            .count() as u64
    }

    // The end is kept, marked so, in place of its pair's earlier one; where 256 others are held it is dropped.
    #[tactic(auto, unfolding(rules::specs::Offer::keep_end, rules::specs::Offer::marked))]
    pub fn keep_end(&mut self, e: Entry<u32>, ended: Option<u64>)
        ensures held { self.new.held.items ≡ take 256 (keep_end ended e self.old.held.items) }
        ensures counts { self.new.counts ≡ self.old.counts }
    {
        self.held.retain(&Beside { end: e });
        let _ = self.held.try_push(Entry { ended, ..e });
    }

    // The set's entries leave.
    #[tactic(auto, unfolding(rules::specs::Sets::without))]
    fn remove(&mut self, group: [u8; 16], set: i64)
        ensures held { self.new.held.items ≡ without group set self.old.held.items }
        ensures counts { self.new.counts ≡ self.old.counts }
    {
        self.held.retain(&Outside { group, set });
    }

    // The set's entries leave, its members discarded.
    pub fn discard(&mut self, group: [u8; 16], set: i64)
        ensures held { self.new.held.items ≡ without group set self.old.held.items }
        ensures counts { self.new.counts ≡ discards (length (members_of group set self.old.held.items)) self.old.counts }
    {
        self.counts = add_incomplete(self.counts, self.member_count(group, set));
        self.remove(group, set);
    }

    // The set's entries leave, its members handed out in the order in which they were committed; what the list has no room for is dropped.
    pub fn hand_out(&mut self, group: [u8; 16], set: i64, out: &mut ArrayVec<u64, 256>)
        ensures held { self.new.held.items ≡ without group set self.old.held.items }
        ensures counts { self.new.counts ≡ self.old.counts }
        ensures out { out.new.items ≡ take 256 (out.old.items ++ map (λ e. place_of e) (members_of group set self.old.held.items)) }
    {
        let room = out.remaining_capacity();
        let members = self.held.iter().filter(|h| is_member(h, group, set));
        // what it takes has room, so nothing is refused
        let _ = out.extend(members.map(place_of).take(room));
        self.remove(group, set);
    }
}
