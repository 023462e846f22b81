// What the history knows of groups and writers, and its counts.
ghost use Rattle.std.specs.Prelude.{◌≡◌};
ghost use Rattle.rules.specs.Marks.{raise, saw, gapped, announced, announced_to};
ghost use Rattle.rules.specs.State.{new_group, new_writer, is_group, is_writer};

use fixed_list::Blank;
use guids::guid::same;

// A known group: its highest number committed or passed, and the highest that a heartbeat announced.
#[derive(Clone, Copy, PartialEq, Eq, Debug, Default)]
pub struct Group {
    pub guid: [u8; 16],
    pub committed: u64,
    pub announced: u64,
}

// In the free places of a list of groups.
impl Blank for Group {
    ghost use Rattle.std.specs.Prelude.{replicate};

    ghost blank = { new_group (replicate 16 0) };

    fn blank() -> Group {
        Group::new([0; 16])
    }
}

impl Group {
    #[tactic(auto, unfolding(crate::specs::State::new_group))]
    pub fn new(guid: [u8; 16]) -> Group
        ensures { result ≡ new_group guid }
    {
        Group {
            guid,
            committed: 0,
            announced: 0,
        }
    }

    #[tactic(auto, unfolding(crate::specs::State::is_group))]
    pub fn is(&self, guid: [u8; 16]) -> bool
        ensures { result ≡ is_group guid self.now }
    {
        same(guid, self.guid)
    }

    // A heartbeat raises the announced number.
    #[tactic(auto, unfolding(crate::specs::Marks::announced_to))]
    pub fn announce(&mut self, current: u64)
        ensures { self.new ≡ announced_to current self.old }
    {
        self.announced = self.announced.max(current);
    }
}

// A known pair of group and writer: per reader the highest number seen and the highest gap end; the range and the current
// number of its last heartbeat (0 before any), and the digests that it sent last.
#[derive(Clone, Copy, PartialEq, Eq, Debug, Default)]
pub struct Writer {
    pub group: [u8; 16],
    pub writer: [u8; 16],
    pub seen: [u64; 8],
    pub gaps: [u64; 8],
    pub first: u64,
    pub last: u64,
    pub current: u64,
    pub digest: Option<u32>,
    pub secure: Option<u32>,
}

// Raises the reader's mark to n; a reader above 7 has none.
#[tactic(auto, unfolding(crate::specs::Marks::raise))]
fn raise(marks: &mut [u64; 8], reader: u8, n: u64)
    ensures { marks.new ≡ raise marks.old reader n }
{
    let r = usize::from(reader);
    if r < 8 {
        marks[r] = marks[r].max(n);
    }
}

// In the free places of a list of pairs.
impl Blank for Writer {
    ghost use Rattle.std.specs.Prelude.{replicate};

    ghost blank = { new_writer (replicate 16 0) (replicate 16 0) };

    fn blank() -> Writer {
        Writer::new([0; 16], [0; 16])
    }
}

impl Writer {
    // Nothing is seen of it yet.
    #[tactic(auto, unfolding(crate::specs::State::new_writer))]
    pub fn new(group: [u8; 16], writer: [u8; 16]) -> Writer
        ensures { result ≡ new_writer group writer }
    {
        Writer {
            group,
            writer,
            seen: [0; 8],
            gaps: [0; 8],
            first: 0,
            last: 0,
            current: 0,
            digest: None,
            secure: None,
        }
    }

    #[tactic(auto, unfolding(crate::specs::State::is_writer))]
    pub fn is(&self, group: [u8; 16], writer: [u8; 16]) -> bool
        ensures { result ≡ is_writer group writer self.now }
    {
        same(group, self.group) && same(writer, self.writer)
    }

    // An offer raises the highest number seen and stores the digest.
    #[tactic(auto, unfolding(crate::specs::Marks::saw))]
    pub fn see(&mut self, reader: u8, number: u64, digest: u32)
        ensures { self.new ≡ saw reader number digest self.old }
    {
        raise(&mut self.seen, reader, number);
        self.digest = Some(digest);
    }

    // A gap raises the gap end.
    #[tactic(auto, unfolding(crate::specs::Marks::gapped))]
    pub fn raise_gap(&mut self, reader: u8, number: u64)
        ensures { self.new ≡ gapped reader number self.old }
    {
        raise(&mut self.gaps, reader, number);
    }

    // A heartbeat replaces range, current number and secure digest, and the writer digest only if it has one.
    #[tactic(auto, unfolding(crate::specs::Marks::announced, crate::specs::Marks::or_keep))]
    pub fn announce(
        &mut self,
        first: u64,
        last: u64,
        current: u64,
        digest: Option<u32>,
        secure: Option<u32>,
    )
        ensures { self.new ≡ announced first last current digest secure self.old }
    {
        self.first = first;
        self.last = last;
        self.current = current;
        self.digest = digest.or(self.digest);
        self.secure = secure;
    }
}

// Numbers skipped, sets discarded, their members, late offers; each stops at 2^64 - 1.
#[derive(Clone, Copy, PartialEq, Eq, Debug, Default)]
pub struct ReleaseCounts {
    pub skipped_after_timeout: u64,
    pub incomplete_sets: u64,
    pub discarded_samples: u64,
    pub late_samples: u64,
}
