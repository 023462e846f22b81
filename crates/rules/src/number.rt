// Numbers of the group: marks of 0 or less count as 0; distances are over whole numbers.
ghost use Rattle.std.specs.Prelude.{◌≡◌, ◌-◌, pos, ◌-ℤ◌};
ghost use Rattle.laws.specs.Whole.{eq_z};
ghost use Rattle.rules.specs.Marks.{number, past_marks};
ghost use Rattle.rules.specs.Commit.{lowest_open};

#[tactic(auto, unfolding(crate::specs::Marks::number))]
pub fn clamp(z: i64) -> u64
    ensures { result ≡ number z }
{
    u64::try_from(z).unwrap_or(0)
}

// Whether count is own - first, over whole numbers.
pub fn is_distance(count: u64, first: i64, own: i64) -> bool
    ensures { result ≡ eq_z (pos count) (own -ℤ first) }
{
    i128::from(count) == i128::from(own) - i128::from(first)
}

// What a pair of writer and reader was told: the highest number seen, the gap end, the last heartbeat's range and current number.
#[derive(Clone, Copy)]
pub struct Marks {
    pub seen: u64,
    pub gap_end: u64,
    pub first: u64,
    pub last: u64,
    pub current: u64,
}

impl Marks {
    #[tactic(auto, unfolding(crate::specs::Marks::past_marks))]
    pub fn is_past(&self, n: u64) -> bool
        ensures { result ≡ past_marks self.now.seen self.now.gap_end self.now.first self.now.last self.now.current n }
    {
        n < self.seen
            || n <= self.gap_end
            || (n < self.current && !(self.first..=self.last).contains(&n))
    }

    // The lowest number from `from` on, below `end`, that the pair is not past; `end` if it is past them all.
    // Decided from the ends of what was seen, of the gap and of the heartbeat's range.
    pub fn lowest_open(&self, from: u64, end: u64) -> u64
        ensures { result ≡ lowest_open (λ n. past_marks self.now.seen self.now.gap_end self.now.first self.now.last self.now.current n) from (end - from) }
    {
        if end <= from {
            return from;
        }
        if end <= self.gap_end {
            return end;
        }
        let a = from.max(self.seen).max(self.gap_end + 1);
        if self.current <= a {
            return a.min(end);
        }
        if self.last < self.first {
            return self.current.min(end);
        }
        if a < self.first {
            return self.first.min(self.current).min(end);
        }
        if a <= self.last {
            return a.min(end);
        }
        self.current.min(end)
    }
}
