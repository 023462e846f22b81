// Coherent sets and group access: coherent_set.rs of the source, and PreconditionNotMet of its error.rs.
#![tactic(auto)]

ghost use Rattle.std.specs.Prelude.{◌≡◌, negsuc};
ghost use Rattle.std.specs.Int.{w64};
ghost use Rattle.std.proofs.Common.{of_z, to_z};
ghost use Rattle.laws.specs.Answer.{Kept};
ghost use Rattle.laws.specs.Bytes.{bytes_of};
ghost use Rattle.refusals.specs.Refusal.{answer_as};
ghost use Rattle.coherent_set.specs.Marker.{wire, decode, marker_answer_as};
ghost use Rattle.coherent_set.specs.Scope.{fresh_scope, active_scope, marker_of, marker_as, begin_coherent, end_coherent};
ghost use Rattle.coherent_set.specs.Access.{fresh_access, open_access, begin_access, end_access, access_ended_as};

use refusals::Refusal;

// The wire form of PID_COHERENT_SET: the number of the set's first sample.
#[derive(Clone, Copy, PartialEq, Eq, Debug)]
pub struct CoherentSetMarker {
    pub set_first_sn: i64,
}

impl CoherentSetMarker {
    // SEQUENCENUMBER_UNKNOWN: high half -1, low half 0.
    pub const UNKNOWN: i64 = -4294967296;

    pub fn new(set_first_sn: i64) -> CoherentSetMarker
        ensures { result.set_first_sn ≡ set_first_sn }
    {
        CoherentSetMarker { set_first_sn }
    }

    pub fn unknown() -> CoherentSetMarker
        ensures { result.set_first_sn ≡ negsuc 4294967295 }
    {
        CoherentSetMarker::new(CoherentSetMarker::UNKNOWN)
    }

    // Both halves big-endian are the eight bytes of the number, big-endian.
    #[tactic(auto, using(crate::proofs::Marker::wire_written))]
    pub fn to_wire_bytes(self) -> [u8; 8]
        ensures { result ≡ wire self.set_first_sn }
    {
        self.set_first_sn.to_be_bytes()
    }

    #[tactic(auto, using(crate::proofs::Marker::unwire_read))]
    pub fn from_wire_bytes(bytes: &[u8]) -> Result<CoherentSetMarker, Refusal>
        ensures { marker_answer_as result ≡ decode bytes.now }
    {
        let bytes = <[u8; 8]>::try_from(bytes).map_err(|_| Refusal::NotEightBytes)?;
        Ok(CoherentSetMarker::new(i64::from_be_bytes(bytes)))
    }
}

// The 64 bits of a number, two's complement.
pub fn bits_of(x: i64) -> u64
    ensures { result ≡ of_z w64 x }
{
    x.cast_unsigned()
}

// The number that 64 bits stand for.
pub fn signed_of(n: u64) -> i64
    ensures { result ≡ to_z w64 n }
{
    n.cast_signed()
}

// The eight bytes of a number, the most significant first.
#[tactic(auto, using(crate::proofs::Marker::be_bytes_of))]
pub fn bytes_of(n: u64) -> [u8; 8]
    ensures { result ≡ bytes_of 8 n }
{
    n.to_be_bytes()
}

// The publisher's scope: the number of the open set's first sample, if a set is open.
#[derive(Clone, Copy)]
pub struct CoherentScope {
    pub set_first_sn: Option<i64>,
}

impl CoherentScope {
    pub fn new() -> CoherentScope
        ensures { result ≡ fresh_scope }
    {
        CoherentScope { set_first_sn: None }
    }

    pub fn is_active(self) -> bool
        ensures { result ≡ active_scope self }
    {
        self.set_first_sn.is_some()
    }

    // The marker that a write carries, if any.
    pub fn current_marker(self) -> Option<CoherentSetMarker>
        ensures { marker_as result ≡ marker_of self }
    {
        self.set_first_sn
            .filter(|sn| *sn != i64::MIN)
            .map(CoherentSetMarker::new)
    }

    #[tactic(auto, unfolding(laws::specs::Answer::Kept))]
    pub fn begin(&mut self, next_sn: i64) -> Result<(), Refusal>
        ensures is { (answer_as result, self.new) ≡ begin_coherent self.old next_sn }
        ensures kept { Kept (answer_as result) self.old self.new }
    {
        if self.is_active() {
            return Err(Refusal::PreconditionNotMet);
        }
        self.set_first_sn = Some(next_sn);
        Ok(())
    }

    #[tactic(auto, unfolding(laws::specs::Answer::Kept))]
    pub fn end(&mut self) -> Result<CoherentSetMarker, Refusal>
        ensures is { (marker_answer_as result, self.new) ≡ end_coherent self.old }
        ensures kept { Kept (marker_answer_as result) self.old self.new }
    {
        let sn = self.set_first_sn.take().ok_or(Refusal::PreconditionNotMet)?;
        Ok(CoherentSetMarker::new(sn))
    }
}

// The subscriber's access scope: how many begins are open, and the snapshot's generation.
#[derive(Clone, Copy)]
pub struct GroupAccessScope {
    pub open_count: u32,
    pub snapshot_generation: u64,
}

impl GroupAccessScope {
    pub fn new() -> GroupAccessScope
        ensures { result ≡ fresh_access }
    {
        GroupAccessScope {
            open_count: 0,
            snapshot_generation: 0,
        }
    }

    pub fn is_active(self) -> bool
        ensures { result ≡ open_access self }
    {
        self.open_count > 0
    }

    pub fn current_snapshot(self) -> u64
        ensures { result ≡ self.snapshot_generation }
    {
        self.snapshot_generation
    }

    // Begins nest, and none is refused.
    pub fn begin(&mut self)
        ensures { self.new ≡ begin_access self.old }
    {
        *self = self.begun();
    }

    #[tactic(auto, unfolding(laws::specs::Answer::Kept))]
    pub fn end(&mut self) -> Result<(), Refusal>
        ensures is { (answer_as result, self.new) ≡ end_access self.old }
        ensures kept { Kept (answer_as result) self.old self.new }
    {
        let before = *self;
        *self = before.ended();
        before.end_answer()
    }

    // The step of `begin`, by value.
    pub fn begun(self) -> GroupAccessScope
        ensures { result ≡ begin_access self }
    {
        let snapshot_generation = match self.open_count {
            0 => self.snapshot_generation.wrapping_add(1),
            _ => self.snapshot_generation,
        };
        GroupAccessScope {
            open_count: self.open_count.wrapping_add(1),
            snapshot_generation,
        }
    }

    // The step of `end`, by value: the scope after it.
    pub fn ended(self) -> GroupAccessScope
        ensures { result ≡ (end_access self).1 }
    {
        match self.open_count {
            0 => self,
            n => GroupAccessScope {
                open_count: n - 1,
                ..self
            },
        }
    }

    // The step of `end`, by value: its answer.
    pub fn end_answer(self) -> Result<(), Refusal>
        ensures { answer_as result ≡ (end_access self).0 }
    {
        match self.open_count {
            0 => Err(Refusal::PreconditionNotMet),
            _ => Ok(()),
        }
    }

    // Both in one: the scope after it, unless it is refused.
    pub fn try_ended(self) -> Result<GroupAccessScope, Refusal>
        ensures { access_ended_as self result ≡ end_access self }
    {
        self.end_answer()?;
        Ok(self.ended())
    }
}
