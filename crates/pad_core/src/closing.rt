//! Closing a pad, and opening it again.
ghost use Rattle.std.specs.Prelude.{◌≡◌};
ghost use Rattle.pad_core.specs.Closing as closing;

use crate::admit::Need;
use crate::owned::Owned;
use crate::reply::PadReply;
use pad_model::{Name, Refusal};
use presence::PresenceBook;
use rights::{Right, RightsBook};

/// Closes a pad, which ends the visits of all who may not own it, or opens it again. It takes no memory.
pub fn set_closed(
    owned: &mut Owned,
    presence: &mut PresenceBook,
    now: u64,
    closed: bool,
) -> Result<PadReply, Refusal>
    ensures answer { closing.set_closed now closed owned.old.rights presence.old
        ≡ (result, (owned.new.closed, presence.new)) }
    ensures others { owned.new ≡ record owned.old { closed = owned.new.closed } }
{
    owned.closed = closed;
    if closed {
        presence.keep_owners(&owned.rights);
    }
    Ok(PadReply::Done { now })
}

/// Returns true if a pad refuses an author what requires this because it is closed.
pub fn is_shut(owned: &Owned, name: &Name, need: Need) -> bool
    ensures { result ≡ closing.is_shut owned.now name.now need }
{
    owned.closed && !stays_open(&owned.rights, name, need)
}

/// Returns true if a closed pad does for an author what requires this.
fn stays_open(rights: &RightsBook, name: &Name, need: Need) -> bool
    ensures { result ≡ closing.stays_open rights.now name.now need }
{
    match need {
        Need::NewVisit => rights.may(name, Right::Own),
        Need::Visit(right) => matches!(right, Right::Read),
        Need::AnyVisit | Need::Closing | Need::PeerSession => true,
    }
}
