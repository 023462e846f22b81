// The coherent-set gate of one reader (DDS 1.4 §2.2.3.6; DDSI-RTPS 2.5 §8.7.6).
ghost use Rattle.std.specs.Prelude.{◌≡◌, ◌+◌, ◌*◌, ◌≤◌, not, cond, [], map, length};
ghost use Rattle.laws.specs.Answer.{refused, answered, Kept};
ghost use Rattle.laws.specs.Lists.{filter};
ghost use Rattle.coherent_hold.specs.Gate.{leaves, set_is_complete, passed, held_back, after, is_full, written, left_by, gate_call, item_as, member_as, hold_as, gated_as, gate_answer_as, call_as};

use crate::hold::CoherentHold;
use crate::items::{CoherentSetEnd, Item, Kind, Member};
use crate::words::{write_item, write_members};
use refusals::Refusal;
use rules::number::is_distance;

#[derive(Clone, Copy, PartialEq, Eq, Debug)]
pub enum Gated {
    // the number of items written
    Passed(usize),
    // an end found its set incomplete: the set's member number
    Incomplete(usize),
}

#[tactic(auto, unfolding(laws::specs::Answer::Kept))]
impl CoherentHold {
    // The gate for one item. What it passes stands at the front of the lent list, five words an item.
    pub fn gate(
        &mut self,
        item: Item,
        coherent_access: bool,
        out: &mut [u64],
    ) -> Result<Gated, Refusal>
        ensures is { call_as result self.new out.new ≡ gate_call (hold_as self.old) (item_as item) coherent_access out.old }
        ensures kept { Kept (gate_answer_as result) self.old self.new }
    {
        if out.len() / 5 <= self.len() {
            return Err(Refusal::ListTooShort);
        }
        if !coherent_access {
            return Ok(pass(item, out));
        }
        match item.coherent_member() {
            Some(member) => self.hold_back(member, out),
            None => Ok(self.release_all(item, out)),
        }
    }

    // A member of a new set ends the writer's earlier ones.
    fn hold_back(&mut self, member: Member, out: &mut [u64]) -> Result<Gated, Refusal>
        requires { length (hold_as self.old) * 5 ≤ length out.old }
        ensures is { call_as result self.new out.new ≡ left_by (hold_as self.old) out.old (cond (is_full (hold_as self.old) (member_as member)) (refused 7) (answered (held_back (member_as member) (hold_as self.old)))) }
        ensures kept { Kept (gate_answer_as result) self.old self.new }
    {
        if self.is_full_for(member) {
            return Err(Refusal::MembersFull);
        }
        let released = self.release(member.writer, Some(member.set));
        self.held.push(member);
        write_members(out, &released);
        Ok(Gated::Passed(released.len()))
    }

    // An end, or an item outside any set, ends all of its writer's.
    fn release_all(&mut self, item: Item, out: &mut [u64]) -> Gated
        requires { length (hold_as self.old) * 5 + 5 ≤ length out.old }
        ensures { call_as (Ok result) self.new out.new ≡ left_by (hold_as self.old) out.old (answered (after (item_as item).kind (item_as item) (filter (λ h. leaves (item_as item).writer None h) (hold_as self.old)) (filter (λ h. not (leaves (item_as item).writer None h)) (hold_as self.old)))) }
    {
        let released = self.release(item.writer, None);
        let n = released.len();
        match item.kind {
            Kind::End(end) if !set_is_complete(&released, end) => Gated::Incomplete(n),
            Kind::End(_) => {
                write_members(out, &released);
                Gated::Passed(n)
            }
            Kind::Change(_) => {
                write_members(out, &released);
                write_item(out, n, item);
                Gated::Passed(n + 1)
            }
        }
    }
}

// Coherent access off: an end is dropped, any other item passes.
fn pass(item: Item, out: &mut [u64]) -> Gated
    requires { 5 ≤ length out.old }
    ensures is { gated_as result ≡ (length (passed (item_as item) []).out, None) }
    ensures list { out.new ≡ written (passed (item_as item) []).out out.old }
{
    match item.kind {
        Kind::End(_) => Gated::Passed(0),
        Kind::Change(_) => {
            write_item(out, 0, item);
            Gated::Passed(1)
        }
    }
}

// By the flag if it is given; else by the members: one for each of the writer's changes from the set's first up to its end.
fn set_is_complete(set: &[Member], end: CoherentSetEnd) -> bool
    ensures { result ≡ set_is_complete (map (λ m. member_as m) set.now) end.own end.complete }
{
    if let Some(complete) = end.complete {
        return complete;
    }
    match (set.first(), end.own) {
        (Some(first), Some(own)) => is_distance(set.len() as u64, first.set, own),
        _ => true,
    }
}
