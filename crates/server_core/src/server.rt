//! The server: a row of cells, and actors.
ghost use Rattle.std.specs.Prelude.{◌≡◌, ◌≤◌, [], ◌∷◌, List, length, Contains, IfOk, OnOk, MatchResult};
ghost use Rattle.std.specs.List.{AllByRecursion, repeat};
ghost use Rattle.pad_model.specs.Answers.{Answers};
ghost use Rattle.pad_model.specs.declared.op.Op.{Op};
ghost use Rattle.pad_model.specs.declared.refusal.Refusal.{Refusal};
ghost use Rattle.server_core.specs.declared.limits.TheConstants.{MAX_CELLS};
ghost use Rattle.pad_core.specs.Delivered.{IsDelivered};
ghost use Rattle.pad_core.specs.Laws.{HaveSame, ReadAlike};
ghost use Rattle.pad_core.specs.Machine.{Machine};
ghost use Rattle.server_core.specs.Machine.{new_server, with_accounts, with_newcomer, unnamed};
ghost use Rattle.server_core.specs.Machine as machine;
ghost use Rattle.server_core.specs.Served.{FoundMemory, GoesThrough, IsFormed, Ran, Served};
ghost use Rattle.server_core.specs.declared.step.Step.TheVariants as Step;

use crate::actor::Actor;
use crate::limits::{MAX_ACTORS, MAX_CELLS};
use crate::step::{Event, Moved, Step};
use pad_core::{Pad, Request};
use pad_model::{Refusal, Sequence};
use sessions::Accounts;
use std::alloc::Global;
use std::marker::Model;

/// A server: its row of cells, the accounts that may log in, and its actors.
#[derive(Drop)]
pub struct Server<S: Sequence> {
    replica: u16,
    accounts: Accounts,
    cells: Vec<Pad<S>>,
    actors: Vec<Actor>,
}

impl<S: Sequence> Model for Server<S> {
    ghost use Rattle.server_core.specs.Machine.{Server, IsRow};

    ghost Value = { Server };

    ghost view = { λ s. record {
      replica = s.replica;
      accounts = s.accounts;
      cells = s.cells.items;
      actors = s.actors.items;
    } };

    ghost invariant = { λ s. IsRow s.cells.items };
}

impl<S: Sequence> Server<S> {
    /// Creates a server with this replica number, with this many cells, all without names, and without actors. On each
    /// pad, `present` visits may be present at once.
    pub fn new(
        alloc: Global,
        replica: u16,
        present: u64,
        cells: u32,
        accounts: Accounts,
    ) -> Result<Server<S>, Refusal>
        requires replica { 1 ≤ replica }
        requires cells { cells ≤ MAX_CELLS }
        ensures { MatchResult result (λ server. server ≡ new_server replica present cells accounts)
            (λ e. e ≡ Refusal.Memory) }
    {
        Ok(Server {
            replica,
            accounts,
            cells: make_row(alloc, replica, present, cells)?,
            actors: Vec::new(alloc),
        })
    }

    /// The number of cells.
    pub fn cells(&self) -> u32
        ensures { result ≡ length self.now.cells }
    {
        self.cells.len() as u32
    }

    /// Opens one more actor, and returns its number, from 0. It is unauthenticated until it logs in.
    pub fn open(&mut self, alloc: Global) -> Result<u32, Refusal>
        ensures { Answers self.old (with_newcomer self.old) result self.new }
    {
        let count = self.actors.len();
        if count >= MAX_ACTORS as usize {
            return Err(Refusal::ActorsFull);
        }
        self.actors.push(Actor::new(alloc))?;
        Ok(count as u32)
    }

    /// Asks a request, like the step `Ask`. The actor must have been opened.
    pub fn ask(&mut self, alloc: Global, actor: u32, request: &Request) -> Moved
        ensures { Served self.old actor (Step.Ask request.now) result self.new }
    {
        let index = actor as usize;
        if index >= self.actors.len() {
            return Moved::Idle;
        }
        self.actors[index].ask(alloc, self.replica, &self.accounts, request)
    }

    /// Makes one step of an actor, which must have been opened.
    pub fn step(&mut self, alloc: Global, actor: u32, step: &Step) -> Moved
        ensures served { Served self.old actor step.now result self.new }
        ensures formed { (cell : _) → step.now ≡ Step.Look cell → IsFormed result }
    {
        let index = actor as usize;
        if index >= self.actors.len() {
            return Moved::Idle;
        }
        let cells = self.cells.as_mut_slice();
        self.actors[index].step(alloc, self.replica, &self.accounts, cells, step)
    }

    /// Replaces the accounts. Sessions go on, even those of accounts that were removed; log-ins need one of the new
    /// accounts from now on.
    pub fn replace_accounts(&mut self, accounts: Accounts)
        ensures { self.new ≡ with_accounts accounts self.old }
    {
        self.accounts = accounts;
    }

    /// Handles one event. The result of new accounts is `Idle`.
    fn go_through(&mut self, alloc: Global, event: Event) -> Moved
        ensures { GoesThrough self.old event result self.new }
    {
        match event {
            Event::Step(actor, step) => self.step(alloc, actor, &step),
            Event::Accounts(accounts) => {
                self.replace_accounts(accounts);
                Moved::Idle
            }
        }
    }

    /// Handles a list of events, one after another, and returns their results.
    ///
    /// The memory for the results is allocated first; without it, nothing is done.
    pub fn run(&mut self, alloc: Global, events: Vec<Event>) -> Result<Vec<Moved>, Refusal>
        ensures ran { MatchResult result (λ answers. Ran self.old events.items answers.items
            self.new) (λ e. (e ≡ Refusal.Memory) × (self.new ≡ self.old)) }

        // If no step ran out of memory, the results and the server are the machine's.
        ensures machine { IfOk result (λ answers. FoundMemory answers.items
            → machine.run events.items self.old ≡ (answers.items, self.new)) }

        // The present text, authors and comments of a pad then depend only on the set of its operations: any other log
        // with the same operations reads the same.
        ensures alike { OnOk result ((m : Machine) → Contains self.new.cells m → (other : List Op)
            → IsDelivered other → HaveSame m.log other → ReadAlike m.log other) }
    {
        let mut answers = match Vec::with_capacity(alloc, events.len()) {
            Ok(answers) => answers,
            Err(_) => return Err(Refusal::Memory),
        };
        for event in events {
            let answer = self.go_through(alloc, event);
            answers.push_reserved(answer);
        }
        know_delivered(self.cells.as_slice());
        Ok(answers)
    }
}

/// Does nothing at run time. Its contract gives a proof that the log of each cell is one of delivered operations.
fn know_delivered<S: Sequence>(cells: &[Pad<S>])
    ensures { AllByRecursion (λ m. IsDelivered m.log) cells.now }
{
    for cell in cells {
        let _now = cell.revision();
    }
}

/// Makes a row of cells without names.
fn make_row<S: Sequence>(
    alloc: Global,
    replica: u16,
    present: u64,
    count: u32,
) -> Result<Vec<Pad<S>>, Refusal>
    requires { 1 ≤ replica }
    ensures { MatchResult result (λ cells. cells.items
        ≡ repeat count (unnamed replica present ∷ [])) (λ e. e ≡ Refusal.Memory) }
{
    let mut cells = Vec::new(alloc);
    for _ in 0..count {
        cells.push(Pad::new(alloc, replica, present)?)?;
    }
    Ok(cells)
}
