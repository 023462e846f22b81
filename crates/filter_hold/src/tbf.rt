// What a reliable reader's TIME_BASED_FILTER held back (DDS 1.4 §2.2.3.12): per instance the last filtered sample.
ghost use Rattle.std.specs.Prelude.{◌≡◌, ◌+◌, ◌*◌, ◌≤◌, ◌<◌, ◌==◌, not, nat_le, eqb, length};
ghost use Rattle.laws.specs.Answer.{Kept};
ghost use Rattle.refusals.specs.Refusal.{answer_as};
ghost use Rattle.filter_hold.specs.Tbf.{not_after, time_after, nothing, supersede, hold, due_at, take_due};
ghost use Rattle.std.specs.List.{list_any, prefix_len};

use fixed_list::{Blank, FixedList, Keep};
use refusals::Refusal;

// In nanoseconds.
const SECOND: u64 = 1000000000;

// Signed seconds and nanoseconds, ordered by seconds, then nanoseconds.
#[derive(Clone, Copy, Default, PartialEq, Eq, PartialOrd, Ord, Debug)]
pub struct Time {
    pub sec: i32,
    pub nanosec: u32,
}

// The filter's minimum separation.
#[derive(Clone, Copy, Default, PartialEq, Eq, Debug)]
pub struct Separation {
    pub sec: u32,
    pub nanosec: u32,
}

// at + separation: negative seconds count as 0, nanoseconds carry, seconds stop at 2147483647.
pub fn time_after(at: Time, separation: Separation) -> Time
    ensures { result ≡ time_after at separation }
{
    // A separation that `hold` takes has no whole second in its nanoseconds.
    let (own, nanosec) = carry(u64::from(separation.nanosec));
    let (more, nanosec) = carry(u64::from(at.nanosec) + nanosec);
    let sec = u64::try_from(at.sec).unwrap_or(0) + u64::from(separation.sec) + own + more;
    Time {
        sec: i32::try_from(sec).unwrap_or(i32::MAX),
        nanosec: nanosec as u32,
    }
}

// Whole seconds and the nanoseconds left, by comparing and subtracting: no division (request U6). At most five seconds are whole in a
// nanosecond field and less than a second.
fn carry(nanosec: u64) -> (u64, u64)
    requires { nanosec ≤ 5294967294 }
    ensures whole { result.0 * 1000000000 + result.1 ≡ nanosec }
    ensures less { result.1 < 1000000000 }
    ensures few { result.0 ≤ 5 }
{
    let mut left = nanosec;
    for sec in 0..5 {
        if left < SECOND {
            return (sec, left);
        }
        left -= SECOND;
    }
    (5, left)
}

// A held sample of an instance, and when it is due.
#[derive(Clone, Copy, Default, PartialEq, Eq, Debug)]
pub struct Held {
    pub instance: u64,
    pub item: u32,
    pub due: Time,
}

// What stands in the free places of a hold.
impl Blank for Held {
    ghost use Rattle.std.specs.Prelude.{pos};

    ghost blank = { record { instance = 0; item = 0; due = record { sec = pos 0; nanosec = 0 } } };

    fn blank() -> Held {
        Held {
            instance: 0,
            item: 0,
            due: Time { sec: 0, nanosec: 0 },
        }
    }
}

impl Held {
    fn is_due(&self, time: Time) -> bool
        ensures { result ≡ not_after self.now.due time }
    {
        self.due <= time
    }
}

// The samples of other instances.
#[derive(Drop)]
struct OfOthers {
    instance: u64,
}

impl Keep<Held> for OfOthers {
    ghost keeps = { λ k x. not (eqb k.instance x.instance) };

    fn keeps(&self, x: &Held) -> bool {
        self.instance != x.instance
    }
}

// The samples not yet due.
#[derive(Drop)]
struct NotDue {
    time: Time,
}

impl Keep<Held> for NotDue {
    ghost keeps = { λ k x. not (not_after x.due k.time) };

    fn keeps(&self, x: &Held) -> bool {
        !x.is_due(self.time)
    }
}

// From nothing held: at most one sample of an instance, in the order of their instances.
#[derive(Clone, Copy, Default, PartialEq, Eq, Debug)]
pub struct TbfHold {
    pub held: FixedList<Held, 32>,
}

impl TbfHold {
    pub fn new() -> TbfHold
        ensures { result.held.items ≡ nothing }
    {
        TbfHold {
            held: FixedList::new(),
        }
    }

    // Holds an instance's sample that was filtered at its arrival until arrival + separation.
    pub fn hold(
        &mut self,
        instance: u64,
        item: u32,
        arrival: Time,
        separation: Separation,
    ) -> Result<(), Refusal>
        ensures is { (answer_as result, self.new.held.items) ≡ hold instance item arrival separation self.old.held.items }
        ensures kept { Kept (answer_as result) self.old self.new }
    {
        let wide = SECOND <= u64::from(separation.nanosec);
        if wide {
            return Err(Refusal::BadSeparation);
        }
        // A replacement finds room even among 32.
        if self.held.is_full() && !self.holds(instance) {
            return Err(Refusal::InstancesFull);
        }
        self.supersede(instance);
        let due = time_after(arrival, separation);
        let sample = Held {
            instance,
            item,
            due,
        };
        let place = self.place(instance);
        self.held.insert(place, sample);
        Ok(())
    }

    // A sample of the instance passed the filter: the held one is older.
    pub fn supersede(&mut self, instance: u64)
        ensures { self.new.held.items ≡ supersede instance self.old.held.items }
    {
        self.held.retain(&OfOthers { instance });
    }

    // Takes out the samples due at or before the time: instance and item of each, written from the list's start.
    pub fn take_due(&mut self, time: Time, out: &mut [u64]) -> Result<usize, Refusal>
        ensures is { (answer_as result, self.new.held.items, out.new) ≡ take_due time self.old.held.items out.old }
        ensures kept { Kept (answer_as result) self.old self.new }
    {
        let due = self.due_at(time);
        if out.len() / 2 < due.len() {
            return Err(Refusal::ListTooShort);
        }
        // By number: of what is written through chunks_exact_mut the proof sees only the length.
        for (k, x) in due.iter().enumerate() {
            out[k * 2] = x.instance;
            out[k * 2 + 1] = u64::from(x.item);
        }
        self.held.retain(&NotDue { time });
        Ok(due.len())
    }

    // Nothing is held.
    pub fn is_empty(&self) -> bool
        ensures { result ≡ eqb (length self.now.held.items) 0 }
    {
        self.held.is_empty()
    }

    // Forgets everything held: the filter is off.
    pub fn clear(&mut self)
        ensures { self.new.held.items ≡ nothing }
    {
        self.held.clear();
    }

    fn holds(&self, instance: u64) -> bool
        ensures { result ≡ list_any (λ x. x.instance == instance) self.now.held.items }
    {
        self.held.iter().any(|x| x.instance == instance)
    }

    // How many stand before the first of a larger instance.
    fn place(&self, instance: u64) -> usize
        ensures { result ≡ prefix_len (λ x. nat_le x.instance instance) self.now.held.items }
    {
        self.held
            .iter()
            .take_while(|x| x.instance <= instance)
            .count()
    }

    fn due_at(&self, time: Time) -> FixedList<Held, 32>
        ensures { result.items ≡ due_at time self.now.held.items }
    {
        let mut due = FixedList::new();
        for x in self.held.iter() {
            if x.is_due(time) {
                due.push(*x);
            }
        }
        due
    }
}
