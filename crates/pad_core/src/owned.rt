//! The name and rights that a claim gives a pad, whether it is closed, the names of its revisions, and those of its guests.
ghost use Rattle.std.specs.Prelude.{◌≡◌, ◌+◌, false, [], Ok, Option, None, Some, MatchResult};
ghost use Rattle.pad_model.specs.Answers.{Answers};
ghost use Rattle.presence.specs.Presence.{Presence, joined};
ghost use Rattle.pad_core.specs.Machine.{new_owned, nobody_present};
ghost use Rattle.pad_core.specs.declared.owned.Owned.{Owned};

use crate::event::Claim;
use guests::GuestBook;
use named_revisions::NamedRevisions;
use pad_model::{Name, Refusal};
use presence::PresenceBook;
use rights::RightsBook;
use std::alloc::Global;

/// The name of a pad, who may do what with it, whether it is closed, the names of its revisions, and the display names of its
/// guests.
#[derive(Drop)]
pub struct Owned {
    pub name: Name,
    pub rights: RightsBook,
    pub closed: bool,
    pub marks: NamedRevisions,
    pub guests: GuestBook,
}

impl Owned {
    pub fn new(alloc: Global, name: &str, owner: &str) -> Result<Owned, Refusal>
        ensures { MatchResult result (λ owned. (owned.name ≡ name.now)
            × (owned.rights ≡ record { owner = owner.now; everyone = None; grants = [] })
            × (owned.closed ≡ false) × (owned.marks ≡ []) × (owned.guests ≡ []))
            (λ e. e ≡ Refusal.Memory) }
    {
        let name = Name::from_str(alloc, name)?;
        let owner = Name::from_str(alloc, owner)?;
        Ok(Owned {
            name,
            rights: RightsBook::new(alloc, owner),
            closed: false,
            marks: NamedRevisions::new(alloc),
            guests: GuestBook::new(alloc),
        })
    }
}

/// Gives a pad without a name this name and owner, who is then present.
pub fn own(
    alloc: Global,
    owned: &mut Option<Owned>,
    presence: &mut PresenceBook,
    name: &str,
    owner: &str,
) -> Result<Claim, Refusal>
    requires { presence.old ≡ nobody_present presence.old.limit }
    ensures { Answers {S = Option Owned × Presence} (owned.old, presence.old) (
      Ok (Claim.Created (presence.old.given + 1)),
      (
        Some (new_owned name.now owner.now),
        joined owner.now presence.old,
      ),
    ) result (owned.new, presence.new) }
{
    let named = Owned::new(alloc, name, owner)?;
    let visit = presence.enter(alloc, owner)?;
    *owned = Some(named);
    Ok(Claim::Created { visit })
}
