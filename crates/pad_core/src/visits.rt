//! Those present, and their carets.
ghost use Rattle.std.specs.Prelude.{◌≡◌, IfOk, length, map, true};
ghost use Rattle.std.specs.List.{list_any};
ghost use Rattle.pad_model.specs.Answers.{Answers};
ghost use Rattle.presence.specs.Presence.{has_number};
ghost use Rattle.pad_model.specs.Answers.{Tells};
ghost use Rattle.pad_core.specs.Presence.{departed, shown_visit};
ghost use Rattle.pad_core.specs.Presence as presence_spec;

use crate::ledger::Ledger;
use crate::make::stamp_before;
use crate::reply::{PadReply, Present};
use op_log::MadeList;
use pad_model::{Author, Items, Name, Refusal, Sequence};
use presence::{PresenceBook, Visit};
use std::alloc::{AllocError, Global};

/// Starts a visit of an author.
pub fn join(
    alloc: Global,
    presence: &mut PresenceBook,
    now: u64,
    author: &Name,
) -> Result<PadReply, Refusal>
    ensures { Answers presence.old (presence_spec.join now author.now presence.old) result presence.new }
{
    let visit = presence.join(alloc, author.as_str())?;
    Ok(PadReply::Joined { now, visit })
}

/// Starts a visit of an author instead of an old one of theirs, and tells what the old one made.
pub fn rejoin<S: Sequence>(
    alloc: Global,
    ledger: &Ledger<S>,
    made: &MadeList,
    presence: &mut PresenceBook,
    old: u64,
    author: &Name,
) -> Result<PadReply, Refusal>
    requires { length made.now.made.visits ≡ length ledger.now }
    ensures { Answers presence.old
        (presence_spec.rejoin old author.now ledger.now made.now.made presence.old) result
        presence.new }
{
    let visit = presence.rejoin(alloc, old, author.as_str())?;
    let tally = made.tally(old);
    Ok(PadReply::Rejoined {
        now: ledger.len(),
        visit,
        made: tally.made,
        last: match tally.last {
            Some(place) => ledger.name_at(place),
            None => None,
        },
    })
}

/// Ends a visit.
pub fn leave(presence: &mut PresenceBook, now: u64, visit: u64) -> Result<PadReply, Refusal>
    requires { list_any (has_number visit) presence.old.present ≡ true }
    ensures { presence_spec.leave now visit presence.old ≡ (result, presence.new) }
{
    presence.leave(visit)?;
    Ok(PadReply::Done { now })
}

/// Ends a visit if it is present and this author's; otherwise it does nothing.
#[tactic(auto, using(crate::proofs::Admitted::number_there))]
pub fn depart(presence: &mut PresenceBook, author: &Name, visit: u64)
    ensures { presence.new ≡ departed author.now visit presence.old }
{
    if presence.holds(visit, author.as_str()) {
        let _left = presence.leave(visit);
    }
}

/// Puts a caret after the character before a place of a revision.
pub fn put_caret<S: Sequence>(
    ledger: &Ledger<S>,
    presence: &mut PresenceBook,
    visit: u64,
    rev: u64,
    at: u64,
) -> Result<PadReply, Refusal>
    requires { list_any (has_number visit) presence.old.present ≡ true }
    ensures { presence_spec.put_caret rev at visit ledger.now presence.old ≡ (result, presence.new) }
{
    let now = ledger.len();
    if now < rev {
        return Err(Refusal::NoRevision);
    }
    if ledger.len_at(rev) < at {
        return Err(Refusal::OutOfRange);
    }
    presence.caret(visit, stamp_before(ledger, rev, at))?;
    Ok(PadReply::Done { now })
}

/// Reads those present, in order of joining.
pub fn read_who<S: Sequence>(
    alloc: Global,
    ledger: &Ledger<S>,
    presence: &PresenceBook,
    replica: u16,
) -> Result<PadReply, Refusal>
    ensures { Tells (presence_spec.read_who replica ledger.now presence.now) result }
{
    let visits = presence.who(alloc)?;
    let who = show(alloc, ledger, replica, visits.as_slice())?;
    Ok(PadReply::Who {
        now: ledger.len(),
        who: Items::from_vec(who),
    })
}

/// Visits as they are shown.
fn show<S: Sequence>(
    alloc: Global,
    ledger: &Ledger<S>,
    replica: u16,
    visits: &[Visit],
) -> Result<Vec<Present>, AllocError>
    ensures { IfOk result (λ who. who.items ≡ map (shown_visit replica ledger.now) visits.now) }
{
    let mut who = Vec::new(alloc);
    for visit in visits {
        who.push(show_visit(ledger, replica, visit)?)?;
    }
    Ok(who)
}

fn show_visit<S: Sequence>(
    ledger: &Ledger<S>,
    replica: u16,
    visit: &Visit,
) -> Result<Present, AllocError>
    ensures { IfOk result (λ present. present ≡ shown_visit replica ledger.now visit.now) }
{
    Ok(Present {
        visit: visit.number,
        author: Author {
            name: visit.author.clone()?,
            origin: replica,
        },
        caret: ledger.caret_place(visit.caret),
    })
}
