//! The condition that replies wait for.
ghost use Rattle.std.specs.Prelude.{ℕ, IfOk};

use std::io;
use web_wire::Machines;

/// The limit up to which replies may go: those that wait for at most this number may be written.
#[derive(Debug, Drop)]
pub struct Reach<P> {
    pub number: u64,
    /// A value that only the implementation of `Settle` makes.
    pub settled: P,
}

/// The condition that replies wait for before they are written: for example, a store has to be synced, and a standby
/// has to have it.
///
/// A worker settles once in a turn, for all replies that it is about to write. Replies that have to wait longer are held,
/// and the worker goes on with other clients: whoever lets them go further calls `Hub::tell_reach`.
pub trait Settle {
    /// The value that `reach` gives, and nothing else does: without one, no reply is written.
    type Settled: Drop + Send;

    /// What was stored was counted, and this was the number. Only `settle` says so.
    ghost counted: { Self → ℕ → Type 0 };

    /// Has everything stored by this server that the replies made so far can reveal, and returns the number that these
    /// replies wait for. It never falls. It need not wait until all is stored. After an error, no more replies are written
    /// and the server ends.
    fn settle(&self) -> io::Result<u64>
        ensures { IfOk result (counted self.now) };

    /// Returns the limit up to which replies may go, of those that wait for at most this number; None: none may be
    /// written yet. It does not wait. After an error, no more replies are written and the server ends.
    fn reach(&self, number: u64) -> io::Result<Option<Reach<Self::Settled>>>;

    /// Returns true if `settle` can no longer succeed.
    fn has_failed(&self) -> bool;

    /// Returns the machines on which an edit is kept once it is answered, as reported to a browser at `/kept`.
    fn machines(&self) -> Machines;
}
