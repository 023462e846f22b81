// What a group's release leaves pending.
ghost use Rattle.std.specs.Prelude.{not, ltb, ◌||◌};
ghost use Rattle.rules.specs.Entry.{of_group};

use fixed_list::Keep;
use guids::guid::same;
use rules::entry::Entry;

// The entries of other groups, and the group's above the last number committed.
#[derive(Drop)]
pub(crate) struct Left {
    pub group: [u8; 16],
    pub number: u64,
}

#[tactic(auto, unfolding(rules::specs::Entry::of_group))]
impl Keep<Entry<u32>> for Left {
    ghost keeps = { λ l e. not (of_group l.group e) || ltb l.number e.number };

    fn keeps(&self, e: &Entry<u32>) -> bool {
        !same(self.group, e.group) || self.number < e.number
    }
}
