// The groups and writers that a call makes known, and what it tells of them.
ghost use Rattle.std.specs.Prelude.{◌≡◌, Some, None, false};
ghost use Rattle.std.specs.Fn.{FnOnceReturnsAtMut};
ghost use Rattle.laws.specs.Lists.{change};
ghost use Rattle.std.specs.List.{position};
ghost use Rattle.guids.specs.Guid.{Guid, before};
ghost use Rattle.rules.specs.State.{is_group, is_writer};
ghost use Rattle.rules.specs.declared.state.Writer.{Writer};
ghost use Rattle.rules.specs.Marks.{hear_group, announced_to, tell};
ghost use Rattle.rules.specs.Offer.{with_marks, ninth, pair33};
ghost use Rattle.store.specs.Store.{state_of};
ghost use Rattle.offers.specs.Refused.{hearing_refusal};
ghost use Rattle.offers.specs.Sender.{Known};

use crate::sender::Sender;
use guids::guid::before;
use rules::state::{Group, Writer};
use store::Store;

// Group and pair are known afterwards, and the pair's writer changed; answers the group's place.
pub(crate) fn hear<F: FnOnce(&mut Writer)>(store: &mut Store, sender: Sender, change: F) -> usize
    requires callable { F.IsAlwaysCallable change }
    requires known { Known sender (state_of store.old) }
    requires admitted { hearing_refusal sender.group sender.writer (state_of store.old) ≡ None }
    ensures heard { (f : Writer → Writer) → ((w v : Writer) → FnOnceReturnsAtMut F.FnOnce change w tt v → v ≡ f w) → state_of store.new ≡ with_marks (hear_group sender.group (state_of store.old).groups) (tell sender.group sender.writer f (state_of store.old).writers) (state_of store.old) }
    ensures at { Some result ≡ position (λ x. is_group sender.group x) (state_of store.new).groups }
{
    let at = hear_group(store, sender);
    tell(store, sender, change);
    at
}

// The group is known afterwards, in the order of the GUIDs; answers its place.
#[tactic(auto, unfolding(rules::specs::Marks::hear_group, rules::specs::Offer::with_marks, rules::specs::Offer::ninth))]
fn hear_group(store: &mut Store, sender: Sender) -> usize
    requires known { Known sender (state_of store.old) }
    requires room { ninth sender.group (state_of store.old) ≡ false }
    ensures heard { state_of store.new ≡ with_marks (hear_group sender.group (state_of store.old).groups) (state_of store.old).writers (state_of store.old) }
    ensures at { Some result ≡ position (λ x. is_group sender.group x) (state_of store.new).groups }
{
    if let Some(at) = sender.group_at {
        return at;
    }
    let at = first_behind(store, sender.group).unwrap_or(store.groups.len());
    store.groups.insert(at, Group::new(sender.group));
    at
}

// The place of the first group that comes behind it.
fn first_behind(store: &Store, group: [u8; 16]) -> Option<usize>
    ensures { result ≡ position (λ x. before group x.guid) (state_of store.now).groups }
{
    store
        .groups
        .as_slice()
        .iter()
        .position(|g| before(group, g.guid))
}

// The pair is known afterwards, and its writer changed.
fn tell<F: FnOnce(&mut Writer)>(store: &mut Store, sender: Sender, change: F)
    requires callable { F.IsAlwaysCallable change }
    requires known { sender.writer_at ≡ position (λ x. is_writer sender.group sender.writer x) (state_of store.old).writers }
    requires room { pair33 sender.group sender.writer (state_of store.old) ≡ false }
    ensures told { (f : Writer → Writer) → ((w v : Writer) → FnOnceReturnsAtMut F.FnOnce change w tt v → v ≡ f w) → state_of store.new ≡ with_marks (state_of store.old).groups (tell sender.group sender.writer f (state_of store.old).writers) (state_of store.old) }
    ensures groups { (state_of store.new).groups ≡ (state_of store.old).groups }
{
    match sender.writer_at {
        Some(i) => {
            let mut writer = store.writers.as_slice()[i];
            change(&mut writer);
            store.writers.set(i, writer);
        }
        None => {
            let mut writer = Writer::new(sender.group, sender.writer);
            change(&mut writer);
            store.writers.push(writer);
        }
    }
}

// A heartbeat raises the announced number of the group at a place.
pub(crate) fn announce(store: &mut Store, at: usize, current: u64)
    requires { (g : Guid) × (Some at ≡ position (λ x. is_group g x) (state_of store.old).groups) }
    ensures { (g : Guid) → Some at ≡ position (λ x. is_group g x) (state_of store.old).groups → state_of store.new ≡ with_marks (change (λ x. is_group g x) (λ x. announced_to current x) (state_of store.old).groups) (state_of store.old).writers (state_of store.old) }
{
    let mut group = store.groups.as_slice()[at];
    group.announce(current);
    store.groups.set(at, group);
}
