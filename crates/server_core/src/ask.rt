//! Begins a request: one on the session itself is answered at once, one on a pad begins a scan.
ghost use Rattle.std.specs.Prelude.{◌≡◌, ◌⊎◌, []};
ghost use Rattle.pad_model.specs.declared.refusal.Refusal.TheVariants as refusal;
ghost use Rattle.server_core.specs.Actor.{actor_of};
ghost use Rattle.server_core.specs.Actor as actor;
ghost use Rattle.server_core.specs.Rooms.{IsAsked, IsSoundTask};
ghost use Rattle.server_core.specs.Served.{Tried};
ghost use Rattle.server_core.specs.Steps.{told};
ghost use Rattle.server_core.specs.Steps as steps;
ghost use Rattle.server_core.specs.declared.step.Moved.TheVariants as moved;
ghost use Rattle.server_core.specs.declared.task.Task.TheVariants as doing;

use crate::opening::{act_refusal, create_refusal, hello, pads_refusal, peer, people};
use crate::step::Moved;
use crate::task::Task;
use pad_core::{Reply, Request};
use pad_model::{Items, Name, Refusal};
use sessions::{Accounts, Session};
use std::alloc::Global;

/// Asks a request while nothing is under way.
pub fn ask(
    alloc: Global,
    replica: u16,
    accounts: &Accounts,
    session: &mut Session,
    task: &mut Task,
    request: &Request,
) -> Moved
    requires { task.old ≡ doing.Resting }
    ensures tried { Tried (actor_of session.old task.old)
        (steps.ask replica accounts.now request.now (actor_of session.old task.old)) result
        (actor_of session.new task.new) }
    ensures sound { IsSoundTask task.new }
{
    match request {
        Request::Hello { name, token } => {
            tell(hello(alloc, replica, accounts, name, token, session))
        }
        Request::Peer {
            number,
            token,
            version,
        } => tell(peer(replica, accounts, *number, token, *version, session)),
        Request::Create { pad } => match create_refusal(session.who(), pad) {
            Some(refusal) => Moved::Refused(refusal),
            None => begin(session, task, pad, request),
        },
        Request::Pads => match pads_refusal(session.who()) {
            Some(refusal) => Moved::Refused(refusal),
            None => begin_list(alloc, task),
        },
        Request::People { names } => tell(people(alloc, accounts, names, session.who())),
        Request::On { pad, act } => match act_refusal(session.who(), pad, act) {
            Some(refusal) => Moved::Refused(refusal),
            None => begin(session, task, pad, request),
        },
    }
}

/// Begins a scan with a copy of the request.
fn begin(session: &Session, task: &mut Task, pad: &Name, request: &Request) -> Moved
    requires { IsAsked request.now }
    ensures begun { ((result ≡ moved.Refused refusal.Memory) × (task.new ≡ task.old))
        ⊎ ((result ≡ moved.Scanning) × (task.new
        ≡ doing.Scanning request.now (actor.first_cell pad.now session.now.rooms))) }
{
    match request.clone() {
        Ok(request) => {
            let cell = first_cell(session, pad);
            task.turn(Task::Scanning { request, cell });
            Moved::Scanning
        }
        Err(_) => Moved::Refused(Refusal::Memory),
    }
}

/// Begins a list of pads. It allocates no memory.
fn begin_list(alloc: Global, task: &mut Task) -> Moved
    ensures told { result ≡ moved.Scanning }
    ensures task { task.new ≡ doing.Listing 0 [] }
{
    let found = Items::new(alloc);
    task.turn(Task::Listing { cell: 0, found });
    Moved::Scanning
}

/// Returns the first cell of the scan for a pad: the pad's cell if the session has joined it, or else the first of all.
pub fn first_cell(session: &Session, pad: &Name) -> u32
    ensures { result ≡ actor.first_cell pad.now session.now.rooms }
{
    match session.room(pad.as_str()) {
        Some(room) => room.cell,
        None => 0,
    }
}

/// An answer as a result of a step.
pub fn tell(answer: Result<Reply, Refusal>) -> Moved
    ensures { result ≡ told answer }
{
    match answer {
        Ok(reply) => Moved::Done(reply),
        Err(refusal) => Moved::Refused(refusal),
    }
}
