ghost use Rattle.std.specs.Prelude.{◌≡◌, ◌+◌, ◌≤◌, ◌<◌, ◌⊎◌, ◌↔◌, [], IsTrue, IfOk, IfErr, OnOk, IsOk, MatchResult};
ghost use Rattle.std.specs.Cmp.{partial_equiv_from_equiv};
ghost use Rattle.std.specs.Cmp.Lexicographic.{pointwise, lists_per};
ghost use Rattle.pad_model.specs.Seen.{IsVector, count_in, with_count, same_counted, same_counted_laws, IsAt, IsGapFor};
ghost use Rattle.pad_model.specs.declared.limits.TheConstants.{MAX_NUMBER};

use crate::op::OpName;
use crate::refusal::Refusal;
use std::alloc::{AllocError, Global};
use std::marker::Model;

/// The number of operations of an origin that were delivered.
#[derive(Clone, Copy, Debug, PartialEq, Eq)]
pub struct Counted {
    pub origin: u16,
    pub count: u64,
}

/// A version vector: the number of operations of each origin, without counts of 0.
#[derive(Debug, Drop)]
pub struct Seen {
    pairs: Vec<Counted>,
}

impl Model for Seen {
    ghost use Rattle.std.specs.Prelude.{List};
    ghost use Rattle.pad_model.specs.declared.seen.Counted.{Counted};

    ghost Value = { List Counted };

    ghost use Rattle.pad_model.specs.Seen.{IsVector};

    ghost view = { λ s. s.pairs.items };

    ghost invariant = { λ s. IsVector s.pairs.items };
}

impl Clone for Seen {
    ghost is_clone = { λ s t. t ≡ s };

    fn clone(&self) -> Result<Seen, AllocError> {
        let pairs = Vec::from_slice(*self.pairs.allocator(), self.pairs.as_slice())?;
        Ok(Seen { pairs })
    }
}

impl PartialEq for Seen {
    ghost eq = { pointwise same_counted };

    ghost laws = { lists_per same_counted_laws };

    fn eq(&self, other: &Seen) -> bool {
        self.pairs.as_slice() == other.pairs.as_slice()
    }
}

impl Seen {
    pub fn new(alloc: Global) -> Seen
        ensures { result ≡ [] }
    {
        Seen {
            pairs: Vec::new(alloc),
        }
    }

    /// The number of operations of an origin that were delivered.
    pub fn count(&self, origin: u16) -> u64
        ensures { result ≡ count_in self.now origin }
    {
        match place_of(&self.pairs, origin) {
            Ok(place) => self.pairs[place].count,
            Err(_) => 0,
        }
    }

    /// Returns true if an operation was delivered.
    pub fn covers(&self, name: OpName) -> bool
        ensures { IsTrue result ↔ (name.number ≤ count_in self.now name.origin) }
    {
        name.number <= self.count(name.origin)
    }

    /// Sets the count of an origin; 0 removes the origin and frees its room. It needs no memory if the origin already
    /// has a count.
    pub fn set(&mut self, origin: u16, count: u64) -> Result<(), Refusal>
        ensures ok { OnOk result (self.new ≡ with_count self.old origin count) }
        ensures memory { IfErr result (λ e. (e ≡ Refusal.Memory) × (self.new ≡ self.old)) }
        ensures room { (count ≡ 0) ⊎ (1 ≤ count_in self.old origin) → IsOk result }
    {
        match place_of(&self.pairs, origin) {
            Ok(place) if count == 0 => {
                self.pairs.remove(place);
                self.pairs.shrink_to_fit();
            }
            Ok(place) => self.pairs[place] = Counted { origin, count },
            Err(_) if count == 0 => {}
            Err(place) => {
                self.pairs.insert(place, Counted { origin, count })?;
            }
        }
        Ok(())
    }

    /// Counts one more operation of an origin. It needs no memory if the origin already has a count.
    pub fn advance(&mut self, origin: u16) -> Result<(), Refusal>
        requires { count_in self.old origin < MAX_NUMBER }
        ensures ok { OnOk result (self.new
            ≡ with_count self.old origin (count_in self.old origin + 1)) }
        ensures memory { IfErr result (λ e. (e ≡ Refusal.Memory) × (self.new ≡ self.old)) }
        ensures room { 1 ≤ count_in self.old origin → IsOk result }
    {
        self.set(origin, self.count(origin) + 1)
    }

    /// The pairs, in ascending order of origin.
    pub fn pairs(&self) -> &[Counted]
        ensures value { result.now ≡ self.now }
        ensures vector { IsVector self.now }
    {
        self.pairs.as_slice()
    }
}

/// The index of an origin's pair, or the index at which it would be inserted, as an error.
fn place_of(pairs: &[Counted], origin: u16) -> Result<usize, usize>
    requires { IsVector pairs.now }
    ensures found { IfOk result (λ place. IsAt pairs.now origin place) }
    ensures absent { IfErr result (λ place. IsGapFor pairs.now origin place) }
{
    pairs.binary_search_by_key(&origin, |pair| pair.origin)
}
