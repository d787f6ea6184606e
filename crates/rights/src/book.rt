ghost use Rattle.std.specs.Prelude.{◌≡◌, ◌+◌, ◌&&◌, not, nat_le, is_some, length, [], ◌∷◌, None, IfOk, MatchResult, bytes_eq};
ghost use Rattle.guests.specs.Guests.{link_of};
ghost use Rattle.pad_model.specs.Answers.{Answers};
ghost use Rattle.rights.specs.declared.book.TheConstants.{MAX_GRANTS};
ghost use Rattle.rights.specs.declared.grantee.Grantee.TheVariants.{Author};
ghost use Rattle.rights.specs.Rights.{everyone_listed, grant, granted, greater, hand, listed, may, right_of, shared};

use crate::grantee::Grantee;
use crate::right::Right;
use guests::{is_guest, is_link_of};
use indexmap::IndexMap;
use pad_model::{Items, Name, Refusal};
use std::alloc::{AllocError, Global};
use std::marker::Model;

/// The most names that may have a right of their own, the owner included.
pub const MAX_GRANTS: u64 = 256;

/// The names that have a right on the pad, each with its right.
#[derive(Clone, Debug, PartialEq, Drop)]
pub struct Grant {
    pub grantee: Grantee,
    pub right: Right,
}

/// The rights of a pad: its owner's, that of everyone, and those of authors, in the order in which they were first
/// granted.
#[derive(Drop)]
pub struct RightsBook {
    owner: Name,
    everyone: Option<Right>,
    grants: IndexMap<Name, Right>,
}

impl Model for RightsBook {
    ghost use Rattle.rights.specs.declared.book.TheConstants.{MAX_GRANTS};
    ghost use Rattle.rights.specs.Rights.{Rights, IsBook};

    ghost Value = { Rights };

    ghost view = { λ b. record {
      owner = b.owner;
      everyone = b.everyone;
      grants = b.grants.entries;
    } };

    ghost invariant = { λ b. IsBook b.owner b.grants.entries };
}

impl RightsBook {
    /// The book of a pad that `owner` created. It allocates no memory.
    pub fn new(alloc: Global, owner: Name) -> RightsBook
        ensures { result ≡ record { owner = owner; everyone = None; grants = [] } }
    {
        RightsBook {
            owner,
            everyone: None,
            grants: IndexMap::new(alloc),
        }
    }

    /// The owner.
    pub fn owner(&self) -> &str
        ensures { result.now ≡ self.now.owner }
    {
        self.owner.as_str()
    }

    /// Returns true if an author has a right, or one that includes it.
    pub fn may(&self, name: &Name, right: Right) -> bool
        ensures { result ≡ may self.now name.now right }
    {
        match self.right_of(name) {
            Some(held) => held.includes(right),
            None => false,
        }
    }

    /// The right of an author, or None: `Own` for the owner, and otherwise the greater of what was granted to the author and of
    /// what it shares: a guest the right of its link, any other that of everyone. A right includes those before it, so every
    /// right includes `Read`.
    pub fn right_of(&self, name: &Name) -> Option<Right>
        ensures { result ≡ right_of self.now name.now }
    {
        if *name == self.owner {
            return Some(Right::Own);
        }
        greater(self.grants.get(name).copied(), self.shared(name))
    }

    /// The right that a name shares with others, or None. Only a name that an author can have shares one.
    fn shared(&self, name: &Name) -> Option<Right>
        ensures { result ≡ shared self.now name.now }
    {
        if !name.is_well_formed() {
            return None;
        }
        if is_guest(name) {
            self.right_of_link(name)
        } else {
            self.everyone
        }
    }

    /// The right that the link of a guest was granted.
    fn right_of_link(&self, guest: &Name) -> Option<Right>
        ensures { result ≡ granted self.now.grants (link_of guest.now) }
    {
        for (name, right) in self.grants.iter() {
            if is_link_of(name, guest) {
                return Some(*right);
            }
        }
        None
    }

    /// Sets the right of an author or of everyone, in place of an earlier one, or revokes it (None).
    pub fn grant(&mut self, grantee: &Grantee, right: Option<Right>) -> Result<(), Refusal>
        ensures answer { Answers self.old (grant self.old grantee.now right) result self.new }

        // Revoking a right needs no memory.
        ensures taken { right ≡ None → grant self.old grantee.now right ≡ (result, self.new) }
    {
        match grantee {
            Grantee::Author(name) => self.grant_author(name, right),
            Grantee::Everyone => {
                self.everyone = right;
                Ok(())
            }
        }
    }

    /// Sets or revokes the right of an author.
    fn grant_author(&mut self, name: &Name, right: Option<Right>) -> Result<(), Refusal>
        ensures answer { Answers self.old (grant self.old (Author name.now) right) result self.new }
        ensures taken { right ≡ None → grant self.old (Author name.now) right ≡ (result, self.new) }
    {
        if *name == self.owner {
            return Err(Refusal::OwnerKept);
        }
        let Some(right) = right else {
            self.grants.shift_remove(name);
            return Ok(());
        };
        if self.is_full_for(name) {
            return Err(Refusal::GrantsFull);
        }
        self.grants.insert(name.clone()?, right)?;
        Ok(())
    }

    /// Makes an author the owner; the owner before it may write from then on. It changes nothing for the owner itself.
    pub fn hand(&mut self, name: &Name) -> Result<(), Refusal>
        ensures { Answers self.old (hand self.old name.now) result self.new }
    {
        if *name == self.owner {
            return Ok(());
        }
        if self.is_full_for(name) {
            return Err(Refusal::GrantsFull);
        }
        let owner = name.clone()?;
        self.grants.insert(self.owner.clone()?, Right::Write)?;
        self.grants.shift_remove(&owner);
        self.owner = owner;
        Ok(())
    }

    /// Returns true if the name is the owner's.
    pub fn is_owner(&self, name: &Name) -> bool
        ensures { result ≡ bytes_eq name.now self.now.owner }
    {
        *name == self.owner
    }

    /// Returns true if the name is new and the book is full.
    fn is_full_for(&self, name: &Name) -> bool
        ensures { result ≡ (not (is_some (granted self.now.grants name.now))
            && nat_le MAX_GRANTS (length self.now.grants + 1)) }
    {
        !self.grants.contains_key(name) && self.grants.len() as u64 + 1 >= MAX_GRANTS
    }

    /// All who have a right: the owner first, then everyone, then the authors in the order in which they were first
    /// granted one.
    pub fn list(&self, alloc: Global) -> Result<Items<Grant>, Refusal>
        ensures { MatchResult result (λ rows. rows ≡ listed self.now) (λ e. e ≡ Refusal.Memory) }
    {
        let mut rows = self.first_rows(alloc)?;
        for (name, right) in self.grants.iter() {
            rows.push(Grant {
                grantee: Grantee::Author(name.clone()?),
                right: *right,
            })?;
        }
        Ok(rows)
    }

    /// The owner, and everyone if everyone has a right.
    fn first_rows(&self, alloc: Global) -> Result<Items<Grant>, AllocError>
        ensures { IfOk result (λ rows. rows ≡ record { grantee = Author self.now.owner; right = Right.Own }
            ∷ everyone_listed self.now.everyone) }
    {
        let mut rows = Items::new(alloc);
        rows.push(Grant {
            grantee: Grantee::Author(self.owner.clone()?),
            right: Right::Own,
        })?;
        if let Some(right) = self.everyone {
            rows.push(Grant {
                grantee: Grantee::Everyone,
                right,
            })?;
        }
        Ok(rows)
    }
}

/// The greater of two rights, if there are any.
fn greater(held: Option<Right>, other: Option<Right>) -> Option<Right>
    ensures { result ≡ greater held other }
{
    match (held, other) {
        (_, None) => held,
        (None, Some(_)) => other,
        (Some(right), Some(more)) => { if right.includes(more) { held } else { other } }
    }
}
