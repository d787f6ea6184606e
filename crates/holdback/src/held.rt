ghost use Rattle.std.specs.Prelude.{◌≡◌, ◌≤◌, [], Ok, Err, length, option_copied, option_map, MatchOption};
ghost use Rattle.std.specs.List.{find};
ghost use Rattle.pad_model.specs.Answers.{Answers};
ghost use Rattle.pad_model.specs.declared.refusal.Refusal.{Refusal};
ghost use Rattle.holdback.specs.Held.{IsRising, is_ready, has_name, without};
ghost use Rattle.holdback.specs.Next.{NoneIsReady, IsNext};
ghost use Rattle.holdback.specs.Offered.{offered};
ghost use Rattle.holdback.specs.declared.held.Offer.{Offer};
ghost use Rattle.holdback.specs.declared.held.TheConstants.{MAX_HELD};

use crate::order::place_of;
use crate::ready::{first_ready, is_ready};
use pad_model::{Op, OpName, Refusal, Seen};
use std::alloc::Global;
use std::marker::Model;

/// The most operations that a pad holds back.
pub const MAX_HELD: u64 = 256;

/// The outcome of an offer.
#[derive(Debug, PartialEq, Drop)]
pub enum Offer {
    /// It may be delivered now.
    Ready(Op),
    /// It is held until others are delivered.
    Held,
    /// An operation with its name was delivered, or is held.
    Repeat,
}

/// The operations of a pad that wait for others, in ascending order of name.
#[derive(Drop)]
pub struct Hold {
    operations: Vec<Op>,
}

impl Model for Hold {
    ghost use Rattle.std.specs.Prelude.{List};
    ghost use Rattle.pad_model.specs.declared.op.Op.{Op};

    ghost Value = { List Op };

    ghost view = { λ h. h.operations.items };

    ghost use Rattle.holdback.specs.Inside.{IsHold};

    ghost invariant = { λ h. IsHold h.operations.items };
}

impl Hold {
    /// A hold without operations. It allocates no memory.
    pub fn new(alloc: Global) -> Hold
        ensures { result ≡ [] }
    {
        Hold {
            operations: Vec::new(alloc),
        }
    }

    /// Returns an operation that may be delivered, and holds one that has to wait. `seen` counts the delivered
    /// operations. On an error the operation is dropped.
    pub fn offer(&mut self, op: Op, seen: &Seen) -> Result<Offer, Refusal>
        ensures answer { Answers self.old (offered seen.now op self.old) result self.new }
        ensures memory { result ≡ Err Refusal.Memory
            → (offered seen.now op self.old).0 ≡ Ok Offer.Held }
    {
        if seen.covers(op.name) {
            return Ok(Offer::Repeat);
        }
        let Err(place) = place_of(&self.operations, op.name) else {
            return Ok(Offer::Repeat);
        };
        if is_ready(&op, seen) {
            return Ok(Offer::Ready(op));
        }
        if self.len() >= MAX_HELD {
            return Err(Refusal::HoldFull);
        }
        self.operations.insert(place, op)?;
        Ok(Offer::Held)
    }

    /// The name of the ready operation with the least origin. At most one operation of an origin is ready.
    pub fn next_ready(&self, seen: &Seen) -> Option<OpName>
        ensures value { result ≡ option_map (λ op. op.name) (find (is_ready seen.now) self.now) }
        ensures next { MatchOption result (NoneIsReady seen.now self.now)
            (IsNext seen.now self.now) }
        ensures rising { IsRising self.now }
    {
        let op = first_ready(&self.operations, seen)?;
        Some(op.name)
    }

    /// The held operation with a name.
    pub fn get(&self, name: OpName) -> Option<&Op>
        ensures { option_copied result ≡ find (has_name name) self.now }
    {
        match place_of(&self.operations, name) {
            Ok(place) => Some(&self.operations[place]),
            Err(_) => None,
        }
    }

    /// Removes the operation with a name, and returns it.
    pub fn take(&mut self, name: OpName) -> Option<Op>
        ensures taken { result ≡ find (has_name name) self.old }
        ensures rest { self.new ≡ without name self.old }
    {
        match place_of(&self.operations, name) {
            Ok(place) => Some(self.operations.remove(place)),
            Err(_) => None,
        }
    }

    /// The number of held operations.
    pub fn len(&self) -> u64
        ensures value { result ≡ length self.now }
        ensures most { result ≤ MAX_HELD }
    {
        self.operations.len() as u64
    }
}
