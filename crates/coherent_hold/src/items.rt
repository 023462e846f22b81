// What a reader takes off its channel, and the members of coherent sets among it.
ghost use Rattle.std.specs.Prelude.{◌≡◌, None, Some, MatchOption};
ghost use Rattle.coherent_hold.specs.Gate.{member_mark, leaves, item_as, member_as, blank_member};

use fixed_list::Blank;

// The end of a writer's coherent set: its own number, and the flag.
#[derive(Clone, Copy, PartialEq, Eq, Debug)]
pub struct CoherentSetEnd {
    pub own: Option<i64>,
    pub complete: Option<bool>,
}

#[derive(Clone, Copy, PartialEq, Eq, Debug)]
pub enum Change {
    Sample,
    Lifecycle,
}

#[derive(Clone, Copy, PartialEq, Eq, Debug)]
pub enum Kind {
    Change(Change),
    End(CoherentSetEnd),
}

#[derive(Clone, Copy, PartialEq, Eq, Debug)]
pub struct Item {
    pub kind: Kind,
    pub writer: [u8; 16],
    pub set: Option<i64>,
    pub item: u32,
}

// A member of a set: a sample or a lifecycle change with a set mark.
#[derive(Clone, Copy, PartialEq, Eq, Debug)]
pub struct Member {
    pub change: Change,
    pub writer: [u8; 16],
    pub set: i64,
    pub item: u32,
}

// By hand, so that its clause says what stands in the free places of a hold.
impl Default for Member {
    ghost is_default = { λ m. m ≡ blank_member };

    fn default() -> Member {
        Member {
            change: Change::Sample,
            writer: [0; 16],
            set: 0,
            item: 0,
        }
    }
}

impl Blank for Member {
    ghost blank = { blank_member };

    fn blank() -> Member {
        Member::default()
    }
}

impl Item {
    pub(crate) fn coherent_member(self) -> Option<Member>
        ensures { MatchOption result (member_mark (item_as self) ≡ None) (λ m. (member_mark (item_as self) ≡ Some m.set) × (member_as m ≡ item_as self)) }
    {
        let writer = self.writer;
        match (self.kind, self.set) {
            (Kind::Change(change), Some(set)) => Some(Member {
                change,
                writer,
                set,
                item: self.item,
            }),
            _ => None,
        }
    }
}

impl From<Member> for Item {
    ghost from_gives = { λ m i. item_as i ≡ member_as m };

    fn from(m: Member) -> Item {
        let writer = m.writer;
        Item {
            kind: Kind::Change(m.change),
            writer,
            set: Some(m.set),
            item: m.item,
        }
    }
}

impl Member {
    // Whether it is released when the writer's sets end: all of them, or all but `new_set`.
    pub(crate) fn leaves(&self, writer: [u8; 16], new_set: Option<i64>) -> bool
        ensures { result ≡ leaves writer new_set (member_as self.now) }
    {
        writer == self.writer && new_set != Some(self.set)
    }
}
