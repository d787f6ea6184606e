//! Persons: the names that are shown for them, and the IDs by which a proxy knows them.
ghost use Rattle.std.specs.Prelude.{◌≡◌, IfOk, OnOk, nat_le, length, option_copied, option_map};
ghost use Rattle.sessions.specs.Accounts.{outcome};
ghost use Rattle.sessions.specs.People.{author_of, display_of, no_people, with_id, with_person};

use crate::mistake::Mistake;
use crate::person_id::PersonId;
use crate::word::Word;
use indexmap::IndexMap;
use pad_model::Name;
use std::alloc::{AllocError, Global};
use std::marker::Model;

/// The most persons that there can be.
pub const MAX_PEOPLE: u64 = 100_000;

/// The persons: the display name of each name, and the name of each ID.
#[derive(Drop)]
pub struct People {
    displays: IndexMap<Name, Word>,
    names: IndexMap<PersonId, Name>,
}

impl Model for People {
    ghost use Rattle.sessions.specs.People.{People};

    ghost Value = { People };

    ghost view = { λ p. record { displays = p.displays.entries; names = p.names.entries } };
}

impl People {
    pub fn new(alloc: Global) -> People
        ensures { result ≡ no_people }
    {
        People {
            displays: IndexMap::new(alloc),
            names: IndexMap::new(alloc),
        }
    }

    /// The name of the person with this ID.
    pub fn author_of(&self, id: &[u8]) -> Option<&Name>
        ensures { option_copied result ≡ author_of id.now self.now }
    {
        self.names.get(id)
    }

    /// The display name of the person with this name.
    pub fn display_of(&self, name: &Name) -> Option<&str>
        ensures { option_map (λ display. display.now) result ≡ display_of name.now self.now }
    {
        match self.displays.get(name) {
            Some(display) => Some(display.as_str()),
            None => None,
        }
    }

    /// Adds a person, or returns why it cannot be added.
    pub fn add(
        &mut self,
        alloc: Global,
        name: &str,
        id: &[u8],
        display: &str,
    ) -> Result<Option<Mistake>, AllocError>
        ensures { IfOk result (λ refused. with_person name.now id.now display.now self.old
            ≡ outcome refused self.new) }
    {
        if self.is_full() {
            return Ok(Some(Mistake::TooManyPeople));
        }
        let name = Name::from_str(alloc, name)?;
        if self.displays.contains_key(&name) {
            return Ok(Some(Mistake::PersonTwice));
        }
        if self.names.contains_key(id) {
            return Ok(Some(Mistake::IdTwice));
        }
        self.name_by_id(alloc, id, &name)?;
        self.displays.insert(name, Word::from_str(alloc, display)?)?;
        Ok(None)
    }

    /// Notes the name of a person by its ID. The ID `-` says that there is none.
    fn name_by_id(&mut self, alloc: Global, id: &[u8], name: &Name) -> Result<(), AllocError>
        ensures { OnOk result (self.new
            ≡ record self.old { names = with_id self.old.names id.now name.now }) }
    {
        if id == b"-".as_slice() {
            return Ok(());
        }
        self.names
            .insert(PersonId::from_bytes(alloc, id)?, name.clone()?)?;
        Ok(())
    }

    fn is_full(&self) -> bool
        ensures { result ≡ nat_le MAX_PEOPLE (length self.now.displays) }
    {
        self.displays.len() as u64 >= MAX_PEOPLE
    }
}
