ghost use Rattle.std.specs.Prelude.{◌≡◌, ◌+◌, ◌≤◌, MatchResult};
ghost use Rattle.pad_model.specs.Stamp.{IsInLimits, newer, same_stamp};
ghost use Rattle.pad_model.specs.declared.limits.TheConstants.{MAX_COUNTER};

use crate::limits::MAX_COUNTER;
use crate::refusal::Refusal;
use std::marker::Model;

/// A Lamport timestamp: the clock of a replica when a character was inserted (Lamport 1978).
///
/// Stamps are ordered by counter, then by replica: the newer one is the greater one.
#[derive(Clone, Copy, Debug, PartialEq, Eq, PartialOrd, Ord, Hash)]
pub struct Stamp {
    counter: u64,
    replica: u16,
}

impl Model for Stamp {
    ghost use Rattle.pad_model.specs.Stamp.{Stamp, IsInLimits};

    ghost Value = { Stamp };

    ghost view = { λ s. record { counter = s.counter; replica = s.replica } };

    ghost invariant = { λ s. IsInLimits s.counter s.replica };

    ghost inverse = { λ v. record { counter = v.counter; replica = v.replica } };
}

impl Stamp {
    /// The stamp with this counter and replica number, or `BadStamp` if one is out of its limits.
    pub fn new(counter: u64, replica: u16) -> Result<Stamp, Refusal>
        ensures value { MatchResult result
            (λ s. (s.counter ≡ counter) × (s.replica ≡ replica) × IsInLimits counter replica)
            (λ e. (e ≡ Refusal.BadStamp) × (IsInLimits counter replica → ⊥)) }
    {
        if counter == 0 || counter > MAX_COUNTER || replica == 0 {
            return Err(Refusal::BadStamp);
        }
        Ok(Stamp { counter, replica })
    }

    pub fn counter(self) -> u64
        ensures value { result ≡ self.counter }
        ensures limits { IsInLimits self.counter self.replica }
    {
        self.counter
    }

    pub fn replica(self) -> u16
        ensures value { result ≡ self.replica }
        ensures limits { IsInLimits self.counter self.replica }
    {
        self.replica
    }

    /// The stamp of the character `places` after this one in its run.
    pub fn plus(self, places: u64) -> Stamp
        requires { self.counter + places ≤ MAX_COUNTER }
        ensures { result ≡ record self { counter = self.counter + places } }
    {
        Stamp {
            counter: self.counter + places,
            replica: self.replica,
        }
    }

    pub fn is_newer(self, other: Stamp) -> bool
        ensures { result ≡ newer self other }
    {
        self.counter > other.counter
            || (self.counter == other.counter && self.replica > other.replica)
    }

    pub fn is_same(self, other: Stamp) -> bool
        ensures { result ≡ same_stamp self other }
    {
        self.counter == other.counter && self.replica == other.replica
    }
}
