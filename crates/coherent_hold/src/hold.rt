// The members of one reader's coherent sets that are held back until their set ends.
ghost use Rattle.std.specs.Prelude.{◌≡◌, ◌≤◌, not, eqb, map, length};
ghost use Rattle.std.specs.List.{list_any};
ghost use Rattle.laws.specs.Lists.{filter};
ghost use Rattle.coherent_hold.specs.Gate.{leaves, is_full, member_as, hold_as, fresh_hold};

use crate::items::Member;
use fixed_list::{FixedList, Keep};

pub type Members = FixedList<Member, 64>;

// What stays: the members of other writers, and those of `new_set`.
#[derive(Drop)]
struct Staying {
    writer: [u8; 16],
    new_set: Option<i64>,
}

impl Keep<Member> for Staying {
    ghost keeps = { λ k m. not (leaves k.writer k.new_set (member_as m)) };

    fn keeps(&self, m: &Member) -> bool {
        !m.leaves(self.writer, self.new_set)
    }
}

// In the order of their arrival.
#[derive(Clone, Copy)]
pub struct CoherentHold {
    pub held: Members,
}

impl CoherentHold {
    pub fn new() -> CoherentHold
        ensures { result ≡ fresh_hold }
    {
        CoherentHold {
            held: Members::new(),
        }
    }

    // How many members of open sets are held.
    pub fn len(&self) -> usize
        ensures { result ≡ length (hold_as self.now) }
    {
        self.held.len()
    }

    pub fn is_empty(&self) -> bool
        ensures { result ≡ eqb (length (hold_as self.now)) 0 }
    {
        self.held.is_empty()
    }

    // No place is free, and the member makes none free.
    pub(crate) fn is_full_for(&self, member: Member) -> bool
        ensures is { result ≡ is_full (hold_as self.now) (member_as member) }
        ensures fits { length (hold_as self.now) ≤ 64 }
    {
        self.held.is_full() && !self.releases_any(member.writer, Some(member.set))
    }

    fn releases_any(&self, writer: [u8; 16], new_set: Option<i64>) -> bool
        ensures { result ≡ list_any (λ m. leaves writer new_set (member_as m)) self.now.held.items }
    {
        self.held.iter().any(|m| m.leaves(writer, new_set))
    }

    // Takes out the writer's members, but for those of `new_set`. Two parameters, as the source has them: a struct for them would be no plainer.
    pub(crate) fn release(&mut self, writer: [u8; 16], new_set: Option<i64>) -> Members
        ensures released { map (λ m. member_as m) result.items ≡ filter (λ h. leaves writer new_set h) (hold_as self.old) }
        ensures stay { hold_as self.new ≡ filter (λ h. not (leaves writer new_set h)) (hold_as self.old) }
    {
        let mut released = Members::new();
        for member in self.held.iter() {
            if member.leaves(writer, new_set) {
                released.push(*member);
            }
        }
        self.held.retain(&Staying { writer, new_set });
        released
    }
}
