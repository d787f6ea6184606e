//! The authors of the visits of a pad, each name once.
ghost use Rattle.std.specs.Prelude.{◌≡◌, ◌<◌, ◌^◌, [], ◌∷◌, ◌++◌, length, OnErr, OnOk, option_copied};
ghost use Rattle.presence.specs.Authors.{is_author_at};

use indexmap::IndexSet;
use pad_model::Name;
use std::alloc::{AllocError, Global};
use std::marker::Model;

/// For each visit, whose it was, where that is known. It keeps each name once, and 8 bytes for each visit.
#[derive(Drop)]
pub struct AuthorList {
    names: IndexSet<Name>,
    /// For each visit, the place of its author among the names.
    places: Vec<Option<u32>>,
}

impl Model for AuthorList {
    ghost use Rattle.std.specs.Prelude.{List, Option, ℕ};

    ghost Value = { List (Option (List ℕ)) };

    ghost use Rattle.presence.specs.AuthorPlaces.{named, ArePlaced};

    ghost view = { named };

    ghost invariant = { ArePlaced };
}

impl AuthorList {
    /// A list without visits. It allocates no memory.
    pub fn new(alloc: Global) -> AuthorList
        ensures { result ≡ [] }
    {
        AuthorList {
            names: IndexSet::new(alloc),
            places: Vec::new(alloc),
        }
    }

    /// Adds a visit at the end.
    pub fn push(&mut self, alloc: Global, author: Option<&str>) -> Result<(), AllocError>
        requires { length self.old < 2 ^ 32 }
        ensures ok { OnOk result (self.new ≡ self.old ++ option_copied author.entry ∷ []) }
        ensures err { OnErr result (self.new ≡ self.old) }
    {
        self.places.reserve(1)?;
        let Some(author) = author else {
            self.places.push_reserved(None);
            return Ok(());
        };
        let name = Name::from_str(alloc, author)?;
        let (place, _) = self.names.insert_full(name)?;
        self.places.push_reserved(Some(place as u32));
        Ok(())
    }

    /// Returns true if the visit at a place, from 0, is known to be this author's.
    pub fn is(&self, place: usize, author: &str) -> bool
        ensures { result ≡ is_author_at place author.now self.now }
    {
        let Some(Some(kept)) = self.places.get(place) else {
            return false;
        };
        match self.names.get_index(*kept as usize) {
            Some(name) => name.is(author),
            None => false,
        }
    }
}
