//! The state of a round.
ghost use Rattle.std.specs.Prelude.{◌≡◌, is_some, IfNone, IfSome, None};
ghost use Rattle.relay.specs.Kept.{notes};
ghost use Rattle.relay.specs.Round.{known_at};
ghost use Rattle.relay.specs.Round as round;

use crate::known_vectors::KnownVectors;
use crate::relayed::Relayed;
use pad_model::{Seen, Version};

/// The state of a round.
#[derive(Drop)]
pub struct Talk {
    /// The number of cells.
    pub cells: u32,
    /// The cell whose pad is exchanged.
    pub cell: u32,
    /// The version that the peer reads.
    pub version: Version,
    /// The results so far.
    pub relayed: Relayed,
    /// What the peer is known to have of the pad of each cell.
    pub known: KnownVectors,
}

impl Talk {
    /// Returns true if the peer can read something; `in_v1` tells whether version 1 can express it.
    pub fn is_readable(&self, in_v1: bool) -> bool
        ensures { result ≡ round.is_readable self.now.version in_v1 }
    {
        match self.version {
            Version::One => in_v1,
            Version::Two => true,
        }
    }

    /// Returns true if it is known what the peer has of the pad of the cell.
    pub fn is_known(&self) -> bool
        ensures { result ≡ is_some (known_at self.now.known self.now.cell) }
    {
        self.known.has(self.cell as usize)
    }

    /// Takes out what the peer is known to have of the pad of the cell. It is forgotten, until `note_known`.
    pub fn take_known(&mut self) -> Option<Seen>
        ensures seen { result ≡ known_at self.old.known self.old.cell }
        ensures some { IfSome result (λ _. self.new ≡ notes None self.old) }
        ensures none { IfNone result (self.new ≡ self.old) }
    {
        self.known.take(self.cell as usize)
    }

    /// Notes what the peer is known to have of the pad of the cell.
    pub fn note_known(&mut self, known: Option<Seen>)
        ensures { self.new ≡ notes known self.old }
    {
        self.known.set(self.cell as usize, known);
    }
}
