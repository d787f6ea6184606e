//! The author that writes, and the passage.
ghost use Rattle.std.specs.Prelude.{◌≡◌};

use pad_model::Name;

/// An author on this server, who writes. Operations bear the name, and the replica number of the server as their origin.
#[derive(Clone, Copy)]
pub struct Writer<'a> {
    pub replica: u16,
    pub author: &'a Name,
}

/// The `len` characters that a revision shows from a place on.
#[derive(Clone, Copy)]
pub struct Passage {
    pub rev: u64,
    pub at: u64,
    pub len: u64,
}

impl Passage {
    pub fn new(rev: u64, at: u64, len: u64) -> Passage
        ensures { result ≡ record { rev = rev; at = at; len = len } }
    {
        Passage { rev, at, len }
    }
}
