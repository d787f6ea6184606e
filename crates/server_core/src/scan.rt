//! The scan of a row: a request goes from cell to cell until one answers it.
ghost use Rattle.std.specs.Prelude.{◌≡◌, ◌≤◌, length};
ghost use Rattle.server_core.specs.Actor.{actor_of};
ghost use Rattle.server_core.specs.AtCell as at_cell_spec;
ghost use Rattle.server_core.specs.Rooms.{IsAsked, IsSoundTask};
ghost use Rattle.server_core.specs.Served.{Acted, RowVisited};
ghost use Rattle.server_core.specs.Steps.{concluded};
ghost use Rattle.server_core.specs.Steps as steps;
ghost use Rattle.server_core.specs.declared.step.Step.TheVariants as step;
ghost use Rattle.server_core.specs.declared.limits.TheConstants.{MAX_CELLS};

use crate::at_cell::request_at;
use crate::leave::leave_first;
use crate::limits::MAX_CELLS;
use crate::listing::list_cell;
use crate::step::Moved;
use crate::task::Task;
use pad_core::{Pad, Reply, Request};
use pad_model::{Items, Refusal, Sequence};
use sessions::Session;
use std::alloc::Global;
use std::mem;

/// Advances what is under way by one cell.
pub fn go_on<S: Sequence>(
    alloc: Global,
    cells: &mut [Pad<S>],
    session: &mut Session,
    task: &mut Task,
) -> Moved
    requires row { length cells.old ≤ MAX_CELLS }
    requires sound { IsSoundTask task.old }
    ensures acted { Acted step.Move cells.old (actor_of session.old task.old)
        (steps.move task.old (actor_of session.old task.old) cells.old) result
        (actor_of session.new task.new) cells.new }
    ensures sound { IsSoundTask task.new }
{
    match task {
        Task::Resting => Moved::Idle,
        Task::Leaving => leave_first(cells, session, task),
        Task::Listing { cell, found } => {
            let place = *cell;
            if let Err(refusal) = list_cell(alloc, cells, place, session.who(), found) {
                task.turn(Task::Resting);
                return Moved::Refused(refusal);
            }
            if u64::from(place) + 1 < cells.len() as u64 {
                *cell = place + 1;
                return Moved::Scanning;
            }
            let pads = mem::replace(found, Items::new(alloc));
            task.turn(Task::Resting);
            Moved::Done(Reply::Pads { pads })
        }
        Task::Scanning { request, cell } => {
            let place = *cell;
            let answer = answer_at(alloc, cells, place, session, request);
            if goes_on(&answer, place, cells.len()) {
                *cell = place + 1;
                return Moved::Scanning;
            }
            let moved = conclude(answer, request);
            task.turn(Task::Resting);
            moved
        }
    }
}

/// Makes a request at an index of the row. None: the pad there has another name.
fn answer_at<S: Sequence>(
    alloc: Global,
    cells: &mut [Pad<S>],
    place: u32,
    session: &mut Session,
    request: &Request,
) -> Result<Option<Reply>, Refusal>
    requires { IsAsked request.now }
    ensures who { session.new.who ≡ session.old.who }
    ensures visited { RowVisited session.old.who request.now place session.old.rooms cells.old
        (at_cell_spec.row_answer session.old.who request.now place session.old.rooms cells.old) result
        session.new.rooms cells.new }
{
    let index = place as usize;
    if index >= cells.len() {
        return Err(past_row(request));
    }
    request_at(alloc, &mut cells[index], place, session, request)
}

/// Returns true if the cell had another name and another cell follows it.
fn goes_on(answer: &Result<Option<Reply>, Refusal>, place: u32, count: usize) -> bool
    ensures { result ≡ steps.goes_on answer.now place count }
{
    match answer {
        Ok(None) => u64::from(place) + 1 < count as u64,
        _ => false,
    }
}

/// The result of a scan: the answer of its cell, or that of a request that found none.
fn conclude(answer: Result<Option<Reply>, Refusal>, request: &Request) -> Moved
    ensures { result ≡ concluded request.now answer }
{
    match answer {
        Ok(None) => Moved::Refused(past_row(request)),
        Ok(Some(reply)) => Moved::Done(reply),
        Err(refusal) => Moved::Refused(refusal),
    }
}

/// The refusal of a request that finds no cell.
pub fn past_row(request: &Request) -> Refusal
    ensures { result ≡ at_cell_spec.past_row request.now }
{
    match request {
        Request::Create { .. } => Refusal::NoSlot,
        _ => Refusal::NoPad,
    }
}
