//! What a peer is known to have of each pad.
ghost use Rattle.std.specs.Prelude.{◌≡◌, ◌++◌, ◌∷◌, [], IfOk, None, OnErr, OnOk, is_some, slice_set};
ghost use Rattle.std.specs.List.{repeat};
ghost use Rattle.relay.specs.Round.{known_at};

use pad_model::Seen;
use std::alloc::{AllocError, Global};
use std::marker::Model;
use std::mem;

/// What a peer is known to have of each pad, by the places of the pads: a vector, or None if the peer has to be asked.
/// It holds for as long as the connection to the peer stands.
#[derive(Drop)]
pub struct KnownVectors {
    vectors: Vec<Option<Seen>>,
}

impl Model for KnownVectors {
    ghost use Rattle.std.specs.Prelude.{List, Option};
    ghost use Rattle.pad_model.specs.declared.seen.Counted.{Counted};

    ghost Value = { List (Option (List Counted)) };

    ghost view = { λ k. k.vectors.items };
}

impl KnownVectors {
    /// A table of no pads. What becomes known of a pad is not kept in it.
    pub fn new(alloc: Global) -> KnownVectors
        ensures { result ≡ [] }
    {
        KnownVectors {
            vectors: Vec::new(alloc),
        }
    }

    /// A table of this many pads, of none of which anything is known.
    pub fn of_pads(alloc: Global, count: usize) -> Result<KnownVectors, AllocError>
        ensures { IfOk result (λ known. known ≡ repeat count (None ∷ [])) }
    {
        let mut vectors = Vec::new(alloc);
        for _ in 0..count {
            vectors.push(None)?;
        }
        Ok(KnownVectors { vectors })
    }

    /// Adds a pad behind the others.
    pub fn push(&mut self, known: Option<Seen>) -> Result<(), AllocError>
        ensures ok { OnOk result (self.new ≡ self.old ++ known ∷ []) }
        ensures err { OnErr result (self.new ≡ self.old) }
    {
        self.vectors.push(known)?;
        Ok(())
    }

    /// Returns true if it is known what the peer has of the pad at a place.
    pub fn has(&self, place: usize) -> bool
        ensures { result ≡ is_some (known_at self.now place) }
    {
        match self.vectors.get(place) {
            Some(known) => known.is_some(),
            None => false,
        }
    }

    /// Takes out what the peer is known to have of the pad at a place, which is then no longer known.
    pub fn take(&mut self, place: usize) -> Option<Seen>
        ensures seen { result ≡ known_at self.old place }
        ensures taken { self.new ≡ slice_set self.old place None }
    {
        if place >= self.vectors.len() {
            return None;
        }
        mem::replace(&mut self.vectors[place], None)
    }

    /// Notes what the peer is known to have of the pad at a place. A place past the last pad is passed over.
    pub fn set(&mut self, place: usize, known: Option<Seen>)
        ensures { self.new ≡ slice_set self.old place known }
    {
        if place < self.vectors.len() {
            self.vectors[place] = known;
        }
    }
}
