//! Permission to do an act: the order of the refusals that come before the act itself is examined.
ghost use Rattle.std.specs.Prelude.{◌≡◌, true, false};
ghost use Rattle.pad_core.specs.Machine.{need_refusal, or_denied, suits};
ghost use Rattle.pad_core.specs.Machine as machine;
ghost use Rattle.rights.specs.Rights.{may};

use crate::act::Act;
use crate::closing::is_shut;
use crate::owned::Owned;
use pad_model::{Name, Refusal, Who};
use presence::PresenceBook;
use rights::{Right, RightsBook};

/// The session, visit and right that an act requires.
#[derive(Clone, Copy)]
pub enum Need {
    /// An author without a visit who may read.
    NewVisit,
    /// An author's visit.
    AnyVisit,
    /// An author's visit, and a right.
    Visit(Right),
    /// An author's visit, and the right to own, on a closed pad too.
    Closing,
    /// A peer's session.
    PeerSession,
}

/// Returns the need of an act.
pub fn need_of(act: &Act) -> Need
    ensures { result ≡ machine.need_of act.now }
{
    match act {
        Act::Join | Act::Rejoin { .. } => Need::NewVisit,
        Act::Leave => Need::AnyVisit,
        Act::Insert { .. } | Act::Delete { .. } | Act::Edit { .. } | Act::Mark { .. } =>
            Need::Visit(Right::Write),
        Act::Comment { .. } | Act::Resolve { .. } => Need::Visit(Right::Comment),
        Act::Text { .. }
        | Act::Runs { .. }
        | Act::Comments { .. }
        | Act::Changes { .. }
        | Act::Revs
        | Act::Entries { .. }
        | Act::Times { .. }
        | Act::RevsAt { .. }
        | Act::Birth { .. }
        | Act::Caret { .. }
        | Act::Who
        | Act::Rights
        | Act::Marks
        | Act::Introduce { .. }
        | Act::Guests => Need::Visit(Right::Read),
        Act::Grant { .. } | Act::Hand { .. } => Need::Visit(Right::Own),
        Act::SetClosed { .. } => Need::Closing,
        Act::Vector | Act::Push { .. } | Act::Pull { .. } => Need::PeerSession,
    }
}

/// Returns the reason an author may not do an act, or None. The first refusal that applies is returned.
pub fn author_refusal(
    owned: &Owned,
    presence: &PresenceBook,
    name: &Name,
    visit: Option<u64>,
    act: &Act,
) -> Option<Refusal>
    ensures { result ≡ machine.author_refusal owned.now presence.now name.now visit act.now }
{
    if names_badly(act) {
        return Some(Refusal::BadName);
    }
    let need = need_of(act);
    if let Some(refusal) = refuse_need(&owned.rights, presence, name, visit, need) {
        return Some(refusal);
    }
    if is_shut(owned, name, need) {
        Some(Refusal::PadClosed)
    } else {
        None
    }
}

/// The refusal that an unauthenticated session gets.
pub fn nobody_refusal(need: Need) -> Refusal
    ensures { result ≡ machine.nobody_refusal need }
{
    match need {
        Need::PeerSession => Refusal::NotPeer,
        Need::NewVisit | Need::AnyVisit | Need::Visit(_) | Need::Closing => Refusal::NoSession,
    }
}

/// Returns the reason a session cannot do an act on any pad, or None: it is not of the kind that the act requires, or
/// the act names an author by an invalid name, or everyone as an owner.
pub fn session_refusal(who: &Who, act: &Act) -> Option<Refusal>
    ensures { result ≡ machine.session_refusal who.now act.now }
{
    let need = need_of(act);
    if !suits(who, need) {
        return Some(nobody_refusal(need));
    }
    if names_badly(act) {
        Some(Refusal::BadName)
    } else {
        None
    }
}

/// Returns true if a session is of the kind that an act requires.
fn suits(who: &Who, need: Need) -> bool
    ensures { result ≡ suits who.now need }
{
    match who {
        Who::Nobody => false,
        Who::Author(_) => !matches!(need, Need::PeerSession),
        Who::Peer { .. } => matches!(need, Need::PeerSession),
    }
}

/// Returns true if an act names an author by an invalid name, or everyone as an owner.
fn names_badly(act: &Act) -> bool
    ensures { result ≡ machine.names_badly act.now }
{
    match act {
        Act::Grant { grantee, right } => !grantee.can_have(*right),
        Act::Hand { author } => !author.is_well_formed(),
        _ => false,
    }
}

fn refuse_need(
    rights: &RightsBook,
    presence: &PresenceBook,
    name: &Name,
    visit: Option<u64>,
    need: Need,
) -> Option<Refusal>
    ensures { result ≡ need_refusal rights.now presence.now name.now visit need }
{
    match need {
        Need::NewVisit => refuse_right(rights, presence, name, visit, true, Right::Read),
        Need::AnyVisit => visit_refusal(presence, name, visit, false),
        Need::Visit(right) => refuse_right(rights, presence, name, visit, false, right),
        Need::Closing => refuse_right(rights, presence, name, visit, false, Right::Own),
        Need::PeerSession => Some(Refusal::NotPeer),
    }
}

/// Returns the reason an author may not do an act that requires a right, or None: the visit does not suit, or the right
/// is missing.
fn refuse_right(
    rights: &RightsBook,
    presence: &PresenceBook,
    name: &Name,
    visit: Option<u64>,
    joins: bool,
    right: Right,
) -> Option<Refusal>
    ensures { result ≡ or_denied (machine.visit_refusal presence.now name.now visit joins)
        (may rights.now name.now right) }
{
    if let Some(refusal) = visit_refusal(presence, name, visit, joins) {
        return Some(refusal);
    }
    if rights.may(name, right) {
        None
    } else {
        Some(Refusal::Denied)
    }
}

/// Returns the reason a visit does not suit, or None.
fn visit_refusal(
    presence: &PresenceBook,
    name: &Name,
    visit: Option<u64>,
    joins: bool,
) -> Option<Refusal>
    ensures { result ≡ machine.visit_refusal presence.now name.now visit joins }
{
    match visit {
        None if joins => None,
        None => Some(Refusal::NotJoined),
        Some(visit) if !presence.holds(visit, name.as_str()) => Some(Refusal::NotJoined),
        Some(_) if joins => Some(Refusal::Joined),
        Some(_) => None,
    }
}
