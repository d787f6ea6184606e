//! The end of a session: it leaves its pads in order of joining, one at a time.
ghost use Rattle.std.specs.Prelude.{◌≡◌};
ghost use Rattle.server_core.specs.Actor.{actor_of};
ghost use Rattle.server_core.specs.Rooms.{IsSoundTask};
ghost use Rattle.server_core.specs.Steps.{alone, ended, left_room};
ghost use Rattle.server_core.specs.Steps as steps;

use crate::step::Moved;
use crate::task::Task;
use pad_core::{Pad, Reply};
use pad_model::{Sequence, Who};
use sessions::{Room, Session};

/// Begins the end of a session. A scan is dropped; an end that is under way continues.
pub fn end(session: &mut Session, task: &mut Task) -> Moved
    ensures ended { steps.end task.old (actor_of session.old task.old)
        ≡ (result, actor_of session.new task.new) }
    ensures sound { IsSoundTask task.new }
{
    match task {
        Task::Leaving => Moved::Scanning,
        _ => finish(session, task),
    }
}

/// Leaves the pad that was joined first. The session ends with the last.
pub fn leave_first<S: Sequence>(
    cells: &mut [Pad<S>],
    session: &mut Session,
    task: &mut Task,
) -> Moved
    ensures left { steps.leave_first (actor_of session.old task.old) session.old.rooms cells.old
        ≡ (result, actor_of session.new task.new, cells.new) }
    ensures sound { IsSoundTask task.new }
{
    if let Some(room) = session.take_first() {
        leave_room(cells, session.who(), &room);
    }
    finish(session, task)
}

/// Ends the visit of a room.
fn leave_room<S: Sequence>(cells: &mut [Pad<S>], who: &Who, room: &Room)
    ensures { cells.new ≡ left_room who.now room.now cells.old }
{
    let place = room.cell as usize;
    if place < cells.len() {
        cells[place].depart(room.pad.as_str(), who, room.visit);
    }
}

/// Makes the session unauthenticated once it has left its pads.
fn finish(session: &mut Session, task: &mut Task) -> Moved
    ensures ended { ended (actor_of session.old task.old) session.old.rooms
        ≡ (result, actor_of session.new task.new) }
    ensures sound { IsSoundTask task.new }
{
    if session.has_rooms() {
        task.turn(Task::Leaving);
        return Moved::Scanning;
    }
    session.set(Who::Nobody);
    task.turn(Task::Resting);
    Moved::Done(Reply::Ended)
}
