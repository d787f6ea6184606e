//! The pads as a connection calls them, for one session.
ghost use Rattle.std.specs.Prelude.{◌≡◌, ℕ, List, Option, Result};
ghost use Rattle.pad_model.specs.declared.refusal.Refusal.{Refusal};
ghost use Rattle.pad_core.specs.declared.reply.Reply.{Reply};
ghost use Rattle.pad_core.specs.declared.request.Request.{Request};

use pad_core::{Reply, Request};
use pad_model::{Name, Refusal};
use std::alloc::Global;

/// The pads of a server, as one session sees them.
pub trait Pads {
    /// The results that `call` may return, and the states that it may leave.
    ghost calls: { Self → Request → Result Reply Refusal → Self → Type 0 };

    /// The results that `relay` may return, and the states that it may leave.
    ghost relays: { Self → ℕ → Result Reply Refusal → Self → Type 0 };

    /// The states that `end` may leave.
    ghost ends: { Self → Self → Type 0 };

    /// The results that `name_of` may return, and the states that it may leave.
    ghost names: { Self → ℕ → Result (Option (List ℕ)) Refusal → Self → Type 0 };

    /// The number of cells.
    ghost width: { Self → ℕ };

    /// Makes a request, and waits for its answer.
    fn call(&mut self, alloc: Global, request: &Request) -> Result<Reply, Refusal>
        ensures { calls self.old request.now result self.new };

    /// Makes the session that of the peer with this replica number, for an exchange.
    fn relay(&mut self, alloc: Global, number: u16) -> Result<Reply, Refusal>
        ensures { relays self.old number result self.new };

    /// Leaves all pads. The session is unauthenticated then.
    fn end(&mut self, alloc: Global)
        ensures { ends self.old self.new };

    /// The name of the pad in a cell, if it has one.
    fn name_of(&mut self, alloc: Global, cell: u32) -> Result<Option<Name>, Refusal>
        ensures { names self.old cell result self.new };

    /// The number of cells.
    fn cells(&self) -> u32
        ensures { result ≡ width self.now };
}
