//! Callbacks from a server to whoever keeps its pads: around a request, before a reply and at the end of a connection.
ghost use Rattle.std.specs.Prelude.{◌≡◌, ◌⊎◌, ℕ, Bool, false, ⊤, IfErr, OnOk};
ghost use Rattle.pad_core.specs.declared.request.Request.{Request};
ghost use Rattle.shared_pads.specs.Gates.{IsGained, IsLet};
ghost use Rattle.shared_pads.specs.Seats as seats;

use crate::locked_pad::{LockedPad, Untold};
use pad_core::{Reply, Request};
use pad_model::{Items, Op, Refusal, Sequence, Who};
use std::alloc::Global;

/// A request that was answered at a cell.
#[derive(Drop)]
pub struct Answered<'a> {
    /// It is told of once.
    pub call: Untold,
    pub cell: u32,
    pub who: &'a Who,
    pub request: &'a Request,
    pub answer: &'a Result<Option<Reply>, Refusal>,
    /// The revision of the pad before the request.
    pub from: u64,
    /// The number of operations that it delivered.
    pub made: u64,
    /// The time that these have, in milliseconds since 1970.
    pub at: u64,
    /// The visit in which the last operation of the pad was made, or 0: if the request delivered any, that of these.
    pub visit: u64,
    /// These operations, in their order, or an error if memory ran out while they were read. A gate that reads
    /// none gets none.
    pub more: &'a Result<Items<Op>, Refusal>,
}

/// Callbacks on the course of connections.
pub trait Gate {
    /// True if it reads the operations that a request delivered.
    ghost reads: { Self → Bool };

    /// A request at a cell and its answer were reported to it. Only `answered` says so.
    ghost told: { Self → ℕ → Request → seats.Answer → Type 0 };

    /// A reply to a connection was announced to it, true if the reply reports a delivered operation. Only
    /// `before_reply` says so.
    ghost announced: { Self → ℕ → Bool → Type 0 };

    /// A request was answered at a cell. Its pad is lent, so its lock is held, and the calls for a cell come in the order
    /// of its steps.
    fn answered<S: Sequence>(&self, alloc: Global, answered: Answered<'_>, pad: &LockedPad<S>)
        requires gained { IsGained (reads self.now) answered pad.now }
        ensures told { told self.now answered.entry.cell answered.entry.request.now answered.entry.answer.now };

    /// The time of day, in milliseconds since 1970. A gate without a clock says 0.
    fn clock(&self) -> u64 {
        0
    }

    /// Returns true if it reads the operations that a request delivered. Otherwise it gets only their number.
    fn reads_operations(&self) -> bool
        ensures { result ≡ reads self.now };

    /// Checks that everything a request leaves can be kept. If not, a request that may leave something is refused
    /// before its step: with 901, or with 900 if memory is missing.
    #[tactic(auto, using(crate::specs::Gates::let_pass))]
    fn keeps(&self, _alloc: Global, request: &Request) -> Result<(), Refusal>
        ensures refused { IfErr result (λ e. (e ≡ Refusal.StoreFull) ⊎ (e ≡ Refusal.Memory)) }
        ensures kept { OnOk result (IsLet request.now) }
    {
        let _any = request;
        Ok(())
    }

    /// A request that `keeps` let pass came to no cell: it asked for a new pad, and each cell has one of another name.
    fn passed(&self, _request: &Request) {}

    /// A step was made at a cell, whose lock is still held.
    fn inside(&self, cell: u32);

    /// A reply is about to be written; `delivered` is true if it reports a delivered operation.
    fn before_reply(&self, connection: u64, delivered: bool)
        ensures { announced self.now connection delivered };

    /// A connection has ended.
    fn done(&self, connection: u64);
}

/// A gate that does nothing.
#[derive(Clone, Copy)]
pub struct Open;

impl Gate for Open {
    ghost reads = { λ _. false };

    ghost told = { λ _ _ _ _. ⊤ };

    ghost announced = { λ _ _ _. ⊤ };

    fn answered<S: Sequence>(&self, _alloc: Global, _answered: Answered<'_>, _pad: &LockedPad<S>) {}

    fn reads_operations(&self) -> bool {
        false
    }

    fn inside(&self, _cell: u32) {}

    fn before_reply(&self, _connection: u64, _delivered: bool) {}

    fn done(&self, _connection: u64) {}
}
