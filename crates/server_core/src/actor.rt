//! An actor: a session, and what it is doing.
ghost use Rattle.std.specs.Prelude.{◌≡◌, ◌⊎◌, ◌≤◌, List, length, option_map, IfSome, IsTrue};
ghost use Rattle.pad_model.specs.Checked.{is_name};
ghost use Rattle.pad_model.specs.declared.refusal.Refusal.TheVariants as refusal;
ghost use Rattle.server_core.specs.Actor.{nobody};
ghost use Rattle.server_core.specs.Actor as actor_spec;
ghost use Rattle.server_core.specs.Served.{Acted, IsFormed};
ghost use Rattle.server_core.specs.Steps.{name_at};
ghost use Rattle.server_core.specs.Steps as steps;
ghost use Rattle.server_core.specs.declared.limits.TheConstants.{MAX_CELLS};
ghost use Rattle.pad_core.specs.Machine.{Machine};
ghost use Rattle.server_core.specs.declared.step.Moved.TheVariants as moved;
ghost use Rattle.server_core.specs.declared.step.Step.TheVariants as Step;

use crate::ask::{ask, tell};
use crate::leave::end;
use crate::limits::MAX_CELLS;
use crate::opening::relay;
use crate::scan::go_on;
use crate::step::{Moved, Step};
use crate::task::Task;
use pad_core::{Pad, Request};
use pad_model::{Name, Refusal, Sequence};
use sessions::{Accounts, Session};
use std::alloc::Global;
use std::marker::Model;

/// A session, and what it is doing.
#[derive(Drop)]
pub struct Actor {
    session: Session,
    task: Task,
}

impl Model for Actor {
    ghost use Rattle.server_core.specs.Actor.{Actor, actor_of};
    ghost use Rattle.server_core.specs.Rooms.{IsSoundTask};

    ghost Value = { Actor };

    ghost view = { λ a. actor_of a.session a.task };

    ghost invariant = { λ a. IsSoundTask a.task };
}

impl Actor {
    /// An unauthenticated actor, which does nothing. It allocates no memory.
    pub fn new(alloc: Global) -> Actor
        ensures { result ≡ nobody }
    {
        Actor {
            session: Session::new(alloc),
            task: Task::Resting,
        }
    }

    /// Asks a request. No cell is visited yet.
    pub fn ask(
        &mut self,
        alloc: Global,
        replica: u16,
        accounts: &Accounts,
        request: &Request,
    ) -> Moved
        ensures { (cells : List Machine) → Acted (Step.Ask request.now) cells self.old
            (steps.actor_step replica accounts.now (Step.Ask request.now) self.old cells) result self.new
            cells }
    {
        let busy = is_busy(&self.task);
        if busy {
            return Moved::Refused(Refusal::Busy);
        }
        let (session, task) = (&mut self.session, &mut self.task);
        ask(alloc, replica, accounts, session, task, request)
    }

    /// Makes one step on a row of cells.
    pub fn step<S: Sequence>(
        &mut self,
        alloc: Global,
        replica: u16,
        accounts: &Accounts,
        cells: &mut [Pad<S>],
        step: &Step,
    ) -> Moved
        requires { length cells.old ≤ MAX_CELLS }
        ensures acted { Acted step.now cells.old self.old
            (steps.actor_step replica accounts.now step.now self.old cells.old) result self.new cells.new }
        ensures formed { (cell : _) → step.now ≡ Step.Look cell → IsFormed result }
    {
        match step {
            Step::Ask(request) => self.ask(alloc, replica, accounts, request),
            Step::Move => go_on(alloc, cells, &mut self.session, &mut self.task),
            Step::End => end(&mut self.session, &mut self.task),
            Step::Look(cell) => {
                if is_busy(&self.task) {
                    return Moved::Refused(Refusal::Busy);
                }
                look(alloc, cells, *cell)
            }
            Step::Relay(number) => {
                if is_busy(&self.task) {
                    return Moved::Refused(Refusal::Busy);
                }
                tell(relay(replica, *number, &mut self.session))
            }
        }
    }
}

/// Returns true if a scan, a list or an end is under way.
fn is_busy(task: &Task) -> bool
    ensures { result ≡ actor_spec.is_busy task.now }
{
    !matches!(task, Task::Resting)
}

/// Returns the name of a cell.
fn look<S: Sequence>(alloc: Global, cells: &[Pad<S>], cell: u32) -> Moved
    ensures told { (moved.Named (name_at cell cells.now) ≡ result)
        ⊎ (result ≡ moved.Refused refusal.Memory) }
    ensures formed { IsFormed result }
{
    match name_in(cells, cell) {
        None => Moved::Named(None),
        Some(name) => match Name::from_str(alloc, name) {
            Ok(name) => Moved::Named(Some(name)),
            Err(_) => Moved::Refused(Refusal::Memory),
        },
    }
}

fn name_in<S: Sequence>(cells: &[Pad<S>], cell: u32) -> Option<&str>
    ensures value { option_map (λ name. name.now) result ≡ name_at cell cells.now }
    ensures formed { IfSome result (λ name. IsTrue (is_name name.now)) }
{
    let place = cell as usize;
    if place < cells.len() {
        cells[place].name()
    } else {
        None
    }
}
