// Where the group and the writer of a call stand in the store.
ghost use Rattle.std.specs.Prelude.{◌≡◌};
ghost use Rattle.std.specs.List.{position};
ghost use Rattle.rules.specs.State.{committed_of, is_group, is_writer};
ghost use Rattle.rules.specs.Offer.{ninth, pair33};
ghost use Rattle.store.specs.Store.{state_of};
ghost use Rattle.offers.specs.Refused.{refused_by, hearing_refusal};
ghost use Rattle.offers.specs.Sender.{sender_in, Known};

use refusals::Refusal;
use store::Store;

// A call's group and writer, with their places in the store; none where they are not known. That the places are the store's stands in a clause
// (`Known`), since the store is changed while they are kept.
#[derive(Clone, Copy)]
pub(crate) struct Sender {
    pub group: [u8; 16],
    pub writer: [u8; 16],
    pub group_at: Option<usize>,
    pub writer_at: Option<usize>,
}

fn group_at(store: &Store, group: [u8; 16]) -> Option<usize>
    ensures { result ≡ position (λ x. is_group group x) (state_of store.now).groups }
{
    store.groups.as_slice().iter().position(|g| g.is(group))
}

fn writer_at(store: &Store, group: [u8; 16], writer: [u8; 16]) -> Option<usize>
    ensures { result ≡ position (λ x. is_writer group writer x) (state_of store.now).writers }
{
    store
        .writers
        .as_slice()
        .iter()
        .position(|w| w.is(group, writer))
}

impl Sender {
    pub fn of(store: &Store, group: [u8; 16], writer: [u8; 16]) -> Sender
        ensures { result ≡ sender_in group writer (state_of store.now) }
    {
        Sender {
            group,
            writer,
            group_at: group_at(store, group),
            writer_at: writer_at(store, group, writer),
        }
    }

    // The group would be the ninth.
    #[tactic(auto, unfolding(rules::specs::Offer::ninth))]
    pub fn is_ninth(self, store: &Store) -> bool
        requires { Known self (state_of store.now) }
        ensures { result ≡ ninth self.group (state_of store.now) }
    {
        self.group_at.is_none() && store.groups.is_full()
    }

    // The pair would be the 33rd.
    #[tactic(auto, unfolding(rules::specs::Offer::pair33))]
    pub fn is_33rd(self, store: &Store) -> bool
        requires { Known self (state_of store.now) }
        ensures { result ≡ pair33 self.group self.writer (state_of store.now) }
    {
        self.writer_at.is_none() && store.writers.is_full()
    }

    // Refused 2 (a ninth group) or 3 (a 33rd pair of group and writer).
    #[tactic(auto, unfolding(rules::specs::Offer::refusal))]
    pub fn admit(self, store: &Store) -> Result<(), Refusal>
        requires { Known self (state_of store.now) }
        ensures { refused_by result ≡ hearing_refusal self.group self.writer (state_of store.now) }
    {
        if self.is_ninth(store) {
            return Err(Refusal::NinthGroup);
        }
        if self.is_33rd(store) {
            return Err(Refusal::PairOver32);
        }
        Ok(())
    }

    // The group's committed number; 0 of an unknown group.
    #[tactic(auto, unfolding(rules::specs::State::committed_of, rules::specs::State::committed_in))]
    pub fn committed(self, store: &Store) -> u64
        requires { Known self (state_of store.now) }
        ensures { result ≡ committed_of self.group (state_of store.now).groups }
    {
        match self.group_at {
            Some(i) => store.groups.as_slice()[i].committed,
            None => 0,
        }
    }
}
