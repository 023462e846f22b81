// What the history stores of an offer. No rule looks into what a sample carries.
ghost use Rattle.std.specs.Prelude.{◌≡◌};
ghost use Rattle.rules.specs.Entry.{is_sample};

use fixed_list::Blank;

// The end of a coherent set: its writer's first number in the set, and its own.
#[derive(Clone, Copy, PartialEq, Eq, Debug)]
pub struct SetEnd {
    pub first: Option<i64>,
    pub own: Option<i64>,
}

#[derive(Clone, Copy, PartialEq, Eq, Debug)]
pub enum What<T> {
    Sample(T),
    End(SetEnd),
}

impl<T: Default> Default for What<T> {
    fn default() -> What<T> {
        What::Sample(T::default())
    }
}

#[derive(Clone, Copy, PartialEq, Eq, Debug, Default)]
pub struct Entry<T> {
    pub group: [u8; 16],
    pub writer: [u8; 16],
    pub reader: u8,
    pub number: u64,
    pub set: Option<i64>,
    pub what: What<T>,
    // when it was offered, in nanoseconds
    pub time: u64,
    // of a kept end whose set is ended: when the set's first committed end was offered
    pub ended: Option<u64>,
}

// In the free places of a list of entries.
impl Blank for Entry<u32> {
    ghost use Rattle.std.specs.Prelude.{None, replicate};
    ghost use Rattle.rules.specs.declared.entry.What.TheVariants.{Sample};

    ghost blank = { record {
      group = replicate 16 0;
      writer = replicate 16 0;
      reader = 0;
      number = 0;
      set = None;
      what = Sample 0;
      time = 0;
      ended = None;
    } };

    fn blank() -> Entry<u32> {
        Entry {
            group: [0; 16],
            writer: [0; 16],
            reader: 0,
            number: 0,
            set: None,
            what: What::Sample(0),
            time: 0,
            ended: None,
        }
    }
}

impl<T> Entry<T> {
    // Not the end of a set.
    #[tactic(auto, unfolding(crate::specs::Entry::is_sample))]
    pub fn is_sample(&self) -> bool
        ensures { result ≡ is_sample self.now }
    {
        matches!(self.what, What::Sample(_))
    }
}
