//! The rights of authors.
ghost use Rattle.std.specs.Prelude.{◌≡◌};
ghost use Rattle.pad_model.specs.Answers.{Answers};
ghost use Rattle.pad_core.specs.Grants as grants;
ghost use Rattle.pad_model.specs.Answers.{Tells};

use crate::reply::PadReply;
use pad_model::{Name, Refusal};
use rights::{Grantee, Right, RightsBook};
use std::alloc::Global;

/// Gives an author or everyone a right, or takes it away (None).
pub fn grant(
    rights: &mut RightsBook,
    now: u64,
    grantee: &Grantee,
    right: Option<Right>,
) -> Result<PadReply, Refusal>
    ensures { Answers rights.old (grants.grant now grantee.now right rights.old) result rights.new }
{
    rights.grant(grantee, right)?;
    Ok(PadReply::Done { now })
}

/// Hands a pad over to an author. Only the owner itself may: another author with the right to own is denied it.
pub fn hand(
    rights: &mut RightsBook,
    now: u64,
    asker: &Name,
    author: &Name,
) -> Result<PadReply, Refusal>
    ensures { Answers rights.old (grants.hand now asker.now author.now rights.old) result rights.new }
{
    if !rights.is_owner(asker) {
        return Err(Refusal::Denied);
    }
    rights.hand(author)?;
    Ok(PadReply::Done { now })
}

/// Whether the pad is closed, and all who have a right.
pub fn read_rights(
    alloc: Global,
    rights: &RightsBook,
    now: u64,
    closed: bool,
) -> Result<PadReply, Refusal>
    ensures { Tells (grants.read_rights now closed rights.now) result }
{
    let rights = rights.list(alloc)?;
    Ok(PadReply::Rights {
        now,
        closed,
        rights,
    })
}
