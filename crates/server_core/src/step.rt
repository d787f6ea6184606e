//! The events of a server: steps of its actors, and new accounts.
use pad_core::{Reply, Request};
use pad_model::{Name, Refusal};
use sessions::Accounts;

/// A step of an actor.
#[derive(Debug, Drop)]
pub enum Step {
    /// Asks a request. One on the session itself is answered at once; one on a pad begins a scan of the cells.
    Ask(Request),
    /// Advances what is under way by one cell.
    Move,
    /// Asks for the name of a cell.
    Look(u32),
    /// Makes the session that of the peer with this replica number, to exchange operations with it.
    Relay(u16),
    /// Ends the session: it leaves its pads, one at each `Move`.
    End,
}

/// An event of a server.
#[derive(Drop)]
pub enum Event {
    /// A step of the actor with this number.
    Step(u32, Step),
    /// The accounts are replaced. Sessions go on; log-ins need one of the new accounts from now on.
    Accounts(Accounts),
}

/// The result of a step.
#[derive(Debug, Drop)]
pub enum Moved {
    /// A scan or an end is under way.
    Scanning,
    /// Nothing is under way.
    Idle,
    /// The answer to a request.
    Done(Reply),
    /// The name of the cell, if it has one.
    Named(Option<Name>),
    /// The refusal. It ends a scan, unless it is `Busy`.
    Refused(Refusal),
}
