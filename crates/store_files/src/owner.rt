//! The owner of a store.
ghost use Rattle.std.specs.Prelude.{◌≡◌, ◌≤◌};
ghost use Rattle.store_files.specs.Ownership.{ownership};

use std::marker::Model;

/// A server that opens a store: its number, whether that is new, and the limit of visits on a pad. The store is taken
/// if each file is that of a server with this number, or if the number is new and no operation has it.
#[derive(Drop)]
pub struct Owner {
    replica: u16,
    is_new: bool,
    present: u64,
}

impl Model for Owner {
    ghost use Rattle.std.specs.Prelude.{◌≤◌};
    ghost use Rattle.store_files.specs.Ownership.{Ownership, ownership};

    ghost Value = { Ownership };

    ghost view = { λ o. ownership o.replica o.is_new o.present };

    ghost invariant = { λ o. 1 ≤ o.replica };
}

impl Owner {
    /// A server with a number from 1 to 65,535. `is_new` lets it take over the store of another number: no server may have
    /// used its own before. At most `present` visits are present on a pad at once.
    pub fn new(replica: u16, is_new: bool, present: u64) -> Owner
        requires { 1 ≤ replica }
        ensures { result ≡ ownership replica is_new present }
    {
        Owner {
            replica,
            is_new,
            present,
        }
    }

    // The server's number.
    pub(crate) fn replica(&self) -> u16
        ensures number { result ≡ self.now.replica }
        ensures least { 1 ≤ result }
    {
        self.replica
    }

    // The number of visits that may be present on a pad at once.
    pub(crate) fn present(&self) -> u64
        ensures { result ≡ self.now.present }
    {
        self.present
    }

    // Returns true if no server has had the number before.
    pub(crate) fn is_new(&self) -> bool
        ensures { result ≡ self.now.is_new }
    {
        self.is_new
    }
}
