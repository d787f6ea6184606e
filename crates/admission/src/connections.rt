//! The number of connections of each address.
ghost use Rattle.std.specs.Prelude.{◌≡◌, ◌+◌, ◌-◌, ◌<◌, ◌≤◌, [], true, false, nat_eq, Ok, OnErr};
ghost use Rattle.admission.specs.Counting.{connections_of};

use indexmap::IndexMap;
use std::alloc::{AllocError, Global};
use std::marker::Model;

/// The number of connections of each address.
#[derive(Drop)]
pub struct Connections {
    counts: IndexMap<u128, u32>,
}

impl Model for Connections {
    ghost use Rattle.std.specs.Prelude.{ℕ, List};

    ghost Value = { List (ℕ × ℕ) };

    ghost view = { λ c. c.counts.entries };
}

impl Connections {
    /// No connections. It allocates no memory.
    pub fn new(alloc: Global) -> Connections
        ensures { result ≡ [] }
    {
        Connections {
            counts: IndexMap::new(alloc),
        }
    }

    /// The number of connections that an address has.
    pub fn of(&self, address: u128) -> u32
        ensures { result ≡ connections_of self.now address }
    {
        match self.counts.get(&address) {
            Some(count) => *count,
            None => 0,
        }
    }

    /// Counts one more connection of an address, unless it has `most` already. Returns whether it was counted.
    pub fn enter(&mut self, address: u128, most: u32) -> Result<bool, AllocError>
        ensures counted { result ≡ Ok true → (connections_of self.old address < most)
            × (connections_of self.new address ≡ connections_of self.old address + 1) }
        ensures full { result ≡ Ok false → (most ≤ connections_of self.old address) × (self.new ≡ self.old) }
        ensures err { OnErr result (self.new ≡ self.old) }
    {
        let count = self.of(address);
        if count >= most {
            return Ok(false);
        }
        self.counts.insert(address, count + 1)?;
        Ok(true)
    }

    /// Counts one connection of an address less.
    pub fn leave(&mut self, address: u128)
        ensures { connections_of self.new address ≡ connections_of self.old address - 1 }
    {
        let count = self.of(address);
        if count > 1 {
            let _replaced = self.counts.insert(address, count - 1);
        } else {
            self.counts.swap_remove(&address);
        }
    }
}
