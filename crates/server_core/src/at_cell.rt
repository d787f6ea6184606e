//! A request at one cell. Memory for a room is allocated before the pad is asked.
ghost use Rattle.std.specs.Prelude.{◌≡◌, ◌≤◌, IsTrue, IfErr, IfOk, true};
ghost use Rattle.pad_model.specs.Checked.{is_name};
ghost use Rattle.pad_core.specs.declared.request.Request.TheVariants as request;
ghost use Rattle.server_core.specs.Actor as actor;
ghost use Rattle.server_core.specs.AtCell as at_cell;
ghost use Rattle.server_core.specs.Rooms.{HasRoom, IsAsked, joins};
ghost use Rattle.server_core.specs.Served.{Visited};

use pad_core::{Act, Claim, Pad, PadEvent, PadReply, Reply, Request};
use pad_model::{Name, Refusal, Sequence, Who};
use sessions::{Room, Session};
use std::alloc::Global;

/// Makes a request at the cell with this index in the row. None: the pad there has another name.
pub fn request_at<S: Sequence>(
    alloc: Global,
    cell: &mut Pad<S>,
    place: u32,
    session: &mut Session,
    request: &Request,
) -> Result<Option<Reply>, Refusal>
    requires { IsAsked request.now }
    ensures who { session.new.who ≡ session.old.who }
    ensures visited { Visited session.old.who request.now session.old.rooms cell.old
        (at_cell.request_at session.old.who request.now place session.old.rooms cell.old) result
        session.new.rooms cell.new }
{
    match request {
        Request::Create { pad } => create_at(alloc, cell, place, session, pad),
        Request::On { pad, act } => act_at(alloc, cell, place, session, pad, act),
        Request::Hello { .. } | Request::Peer { .. } | Request::Pads | Request::People { .. } =>
            Err(Refusal::NoSession),
    }
}

fn act_at<S: Sequence>(
    alloc: Global,
    cell: &mut Pad<S>,
    place: u32,
    session: &mut Session,
    pad: &Name,
    act: &Act,
) -> Result<Option<Reply>, Refusal>
    ensures who { session.new.who ≡ session.old.who }
    ensures visited { Visited session.old.who (request.On pad.now act.now) session.old.rooms
        cell.old (at_cell.act_at session.old.who pad.now act.now place session.old.rooms cell.old) result
        session.new.rooms cell.new }
{
    let name = make_room(alloc, session, pad, act)?;
    let event = PadEvent {
        pad: pad.as_str(),
        who: session.who(),
        visit: visit_on(session, pad),
        act,
    };
    let answer = cell.step(alloc, &event);
    keep_rooms(session, place, name, pad, act, &answer);
    pass_on(answer)
}

/// The visit that the session has on a pad.
pub fn visit_on(session: &Session, pad: &Name) -> Option<u64>
    ensures { result ≡ actor.visit_on pad.now session.now.rooms }
{
    match session.room(pad.as_str()) {
        Some(room) => Some(room.visit),
        None => None,
    }
}

/// Allocates the memory for the room that a join may make: its name, and its place in the session.
fn make_room(
    alloc: Global,
    session: &mut Session,
    pad: &Name,
    act: &Act,
) -> Result<Option<Name>, Refusal>
    ensures same { (session.new.who ≡ session.old.who) × (session.new.rooms ≡ session.old.rooms) }
    ensures room { IfOk result (λ name. HasRoom act.now pad.now name session.new.spare) }
    ensures memory { IfErr result (λ e. (e ≡ Refusal.Memory) × (joins act.now ≡ true)) }
{
    match act {
        Act::Join | Act::Rejoin { .. } => {
            let name = pad.clone()?;
            session.reserve()?;
            Ok(Some(name))
        }
        _ => Ok(None),
    }
}

/// Updates the rooms by an answer: one more after a join, one less after a leave.
fn keep_rooms(
    session: &mut Session,
    place: u32,
    name: Option<Name>,
    pad: &Name,
    act: &Act,
    answer: &Result<PadReply, Refusal>,
)
    requires { HasRoom act.now pad.now name session.old.spare }
    ensures who { session.new.who ≡ session.old.who }
    ensures rooms { session.new.rooms ≡ at_cell.rooms_after pad.now place act.now answer.now
        session.old.rooms }
{
    match (act, answer) {
        (Act::Join, Ok(PadReply::Joined { visit, .. }))
        | (Act::Rejoin { .. }, Ok(PadReply::Rejoined { visit, .. })) => {
            if let Some(name) = name {
                session.enter(Room {
                    pad: name,
                    cell: place,
                    visit: *visit,
                });
            }
        }
        (Act::Leave, Ok(PadReply::Done { .. })) => session.leave(pad.as_str()),
        _ => {}
    }
}

/// Turns a pad's answer into the server's.
fn pass_on(answer: Result<PadReply, Refusal>) -> Result<Option<Reply>, Refusal>
    ensures { result ≡ at_cell.passed_on answer }
{
    match answer? {
        PadReply::Elsewhere => Ok(None),
        reply => Ok(Some(Reply::Pad(reply))),
    }
}

fn create_at<S: Sequence>(
    alloc: Global,
    cell: &mut Pad<S>,
    place: u32,
    session: &mut Session,
    pad: &Name,
) -> Result<Option<Reply>, Refusal>
    requires { IsTrue (is_name pad.now) }
    ensures who { session.new.who ≡ session.old.who }
    ensures visited { Visited session.old.who (request.Create pad.now) session.old.rooms cell.old
        (at_cell.create_at session.old.who pad.now place session.old.rooms cell.old) result
        session.new.rooms cell.new }
{
    let name = pad.clone()?;
    session.reserve()?;
    let Who::Author(owner) = session.who() else {
        return Err(Refusal::NoSession);
    };
    match cell.claim(alloc, pad.as_str(), owner.as_str())? {
        Claim::Created { visit } => {
            session.enter(Room {
                pad: name,
                cell: place,
                visit,
            });
            Ok(Some(Reply::Pad(PadReply::Joined {
                now: cell.revision(),
                visit,
            })))
        }
        Claim::Exists => Err(Refusal::PadExists),
        Claim::Other => Ok(None),
    }
}
