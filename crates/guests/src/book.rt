ghost use Rattle.std.specs.Prelude.{◌≡◌, [], MatchResult, OnOk};
ghost use Rattle.std.specs.List.{position};
ghost use Rattle.pad_model.specs.Answers.{Answers};
ghost use Rattle.guests.specs.Book.{called, introduction_refusal, is_called, is_full};
ghost use Rattle.guests.specs.Book as spec;

use crate::guest::Guest;
use pad_model::{Items, Name, Refusal, Text};
use std::alloc::{AllocError, Global};
use std::marker::Model;

/// The most guests of a pad that have a display name.
pub const MAX_GUESTS: usize = 1_000;

/// The most characters of a guest's display name.
pub const MAX_GUEST_DISPLAY: usize = 60;

/// The guests of a pad with their display names, in the order in which they first had one.
#[derive(Drop)]
pub struct GuestBook {
    all: Vec<Guest>,
}

impl Model for GuestBook {
    ghost use Rattle.std.specs.Prelude.{List};
    ghost use Rattle.guests.specs.declared.guest.Guest.{Guest};

    ghost Value = { List Guest };

    ghost view = { λ book. book.all.items };
}

impl GuestBook {
    /// The book of a new pad, which has no guests. It allocates no memory.
    pub fn new(alloc: Global) -> GuestBook
        ensures { result ≡ [] }
    {
        GuestBook {
            all: Vec::new(alloc),
        }
    }

    /// Gives a guest a display name, in place of an earlier one. It is refused with 322 if it is empty, and with 323 if it has
    /// more than 60 characters or 1,000 other guests have one.
    pub fn introduce(&mut self, author: &Name, display: &Text) -> Result<(), Refusal>
        ensures { Answers self.old (spec.introduce (record { author = author.now; display = display.now })
            self.old) result self.new }
    {
        if let Some(refusal) = self.refusal_of(author, display) {
            return Err(refusal);
        }
        let guest = Guest {
            author: author.clone()?,
            display: display.clone()?,
        };
        self.put(guest)?;
        Ok(())
    }

    /// Puts a guest in the place of the one with its name, or behind all others.
    fn put(&mut self, guest: Guest) -> Result<(), AllocError>
        ensures put { OnOk result (self.new ≡ called guest self.old) }
        ensures kept { MatchResult result (λ _. self.new ≡ called guest self.old) (λ _. self.new ≡ self.old) }
    {
        match self.place_of(&guest.author) {
            Some(place) => {
                self.all[place] = guest;
                Ok(())
            }
            None => self.all.push(guest).map_err(|_| AllocError),
        }
    }

    /// The place of the guest with this name.
    fn place_of(&self, author: &Name) -> Option<usize>
        ensures { result ≡ position (is_called author.now) self.now }
    {
        self.all.iter().position(|guest| guest.author == *author)
    }

    /// The refusal of a display name, or None. The first refusal that applies is returned.
    fn refusal_of(&self, author: &Name, display: &Text) -> Option<Refusal>
        ensures { result ≡ introduction_refusal (record { author = author.now; display = display.now })
            self.now }
    {
        if display.is_empty() {
            return Some(Refusal::Empty);
        }
        if MAX_GUEST_DISPLAY < display.len() || self.is_full_for(author) {
            return Some(Refusal::TooMuch);
        }
        None
    }

    /// Returns true if there is room for no other guest, and this is one.
    fn is_full_for(&self, author: &Name) -> bool
        ensures { result ≡ is_full author.now self.now }
    {
        self.place_of(author).is_none() && MAX_GUESTS <= self.all.len()
    }

    /// All guests with their display names, in the order in which they first had one.
    pub fn list(&self) -> Result<Items<Guest>, Refusal>
        ensures { MatchResult result (λ rows. rows ≡ self.now) (λ e. e ≡ Refusal.Memory) }
    {
        Ok(Items::from_vec(self.all.clone()?))
    }
}
