//! Restores the parts of a pad after a restart.
ghost use Rattle.std.specs.Prelude.{◌≡◌, ◌≤◌, length, ◌++◌, ◌∷◌, [], IsTrue, Ok, Option, None, Some, option_copied};
ghost use Rattle.pad_model.specs.Answers.{Answers};
ghost use Rattle.presence.specs.Presence.{Presence, counted};
ghost use Rattle.pad_core.specs.Machine.{new_owned, nobody_present};
ghost use Rattle.pad_core.specs.Restart.{author_if, closed_again, delivered_again, granted_again, handed_again, introduced_again, marked_again, visited};
ghost use Rattle.pad_core.specs.declared.owned.Owned.{Owned};

use crate::append::append;
use crate::ledger::Ledger;
use crate::marks::name_revision;
use crate::owned::Owned;
use guests::Guest;
use holdback::is_ready;
use named_revisions::NamedRevision;
use op_log::MadeList;
use pad_model::{Name, Op, Refusal, Sequence};
use presence::PresenceBook;
use rights::{Grantee, Right};
use std::alloc::Global;

/// Gives an unnamed pad this name and owner, and counts the owner's visit. If no visits are recorded, nobody knows what
/// was made in it.
pub fn own_again(
    alloc: Global,
    owned: &mut Option<Owned>,
    presence: &mut PresenceBook,
    name: &str,
    owner: &str,
    visits: bool,
) -> Result<(), Refusal>
    requires { presence.old ≡ nobody_present presence.old.limit }
    ensures { Answers {S = Option Owned × Presence} (owned.old, presence.old) (
      Ok tt,
      (
        Some (new_owned name.now owner.now),
        counted (author_if visits owner.now) presence.old,
      ),
    ) result (owned.new, presence.new) }
{
    let named = Owned::new(alloc, name, owner)?;
    if visits {
        presence.count(alloc, Some(owner))?;
    } else {
        presence.count(alloc, None)?;
    }
    *owned = Some(named);
    Ok(())
}

/// Counts a visit that has ended, which counts towards no limit of those present. None: nobody knows whose it was.
pub fn visit_again(
    alloc: Global,
    presence: &mut PresenceBook,
    author: Option<&str>,
) -> Result<(), Refusal>
    ensures { Answers presence.old (visited (option_copied author.entry) presence.old) result
        presence.new }
{
    presence.count(alloc, author)
}

/// Gives a right, or takes it away, if the pad has a name.
pub fn grant_again(
    owned: &mut Option<Owned>,
    grantee: &Grantee,
    right: Option<Right>,
) -> Result<(), Refusal>
    ensures { Answers owned.old (granted_again grantee.now right owned.old) result owned.new }
{
    match owned {
        Some(owned) => owned.rights.grant(grantee, right),
        None => Err(Refusal::NoPad),
    }
}

/// Makes an author the owner, if the pad has a name.
pub fn hand_again(owned: &mut Option<Owned>, author: &Name) -> Result<(), Refusal>
    ensures { Answers owned.old (handed_again author.now owned.old) result owned.new }
{
    match owned {
        Some(owned) => owned.rights.hand(author),
        None => Err(Refusal::NoPad),
    }
}

/// Closes the pad, or opens it again, if it has a name.
pub fn close_again(owned: &mut Option<Owned>, closed: bool) -> Result<(), Refusal>
    ensures { closed_again closed owned.old ≡ (result, owned.new) }
{
    match owned {
        Some(owned) => {
            owned.closed = closed;
            Ok(())
        }
        None => Err(Refusal::NoPad),
    }
}

/// Gives a revision its name, if the pad has one itself.
pub fn mark_again(owned: &mut Option<Owned>, now: u64, named: &NamedRevision) -> Result<(), Refusal>
    ensures { Answers owned.old (marked_again now named.now owned.old) result owned.new }
{
    match owned {
        Some(owned) => name_revision(
            &mut owned.marks,
            now,
            named.rev,
            &named.author,
            named.at,
            &named.text,
        ),
        None => Err(Refusal::NoPad),
    }
}

/// Gives a guest its display name, if the pad has a name.
pub fn introduce_again(owned: &mut Option<Owned>, guest: &Guest) -> Result<(), Refusal>
    ensures { Answers owned.old (introduced_again guest.now owned.old) result owned.new }
{
    match owned {
        Some(owned) => owned.guests.introduce(&guest.author, &guest.display),
        None => Err(Refusal::NoPad),
    }
}

/// Delivers an operation of any origin, unless it is refused.
pub fn deliver_again<S: Sequence>(
    alloc: Global,
    ledger: &mut Ledger<S>,
    made: &mut MadeList,
    op: Op,
) -> Result<(), Refusal>
    requires room { length ledger.old ≤ made.old.room }
    ensures answer { Answers ledger.old (delivered_again op ledger.old) result ledger.new }
    ensures made { made.new.made ≡ made.old.made }
    ensures grown { length ledger.old ≤ length ledger.new }
    ensures room { length ledger.new ≤ made.new.room }
{
    op.check()?;
    if !is_ready(&op, ledger.seen()) {
        return Err(Refusal::PeerFault);
    }
    if let Some(refusal) = ledger.refusal_of(&op) {
        return Err(refusal);
    }
    append(alloc, ledger, made, op)?;
    Ok(())
}
