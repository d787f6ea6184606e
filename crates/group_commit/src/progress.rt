//! The number of notes, the number of those on the disk, and the round of cells that is under way.
ghost use Rattle.std.specs.Prelude.{◌≡◌, ◌+◌, ◌⊎◌, [], true, false, min, IfErr, IfNone, IfOk, IfSome, OnErr, OnOk};
ghost use Rattle.group_commit.specs.Notes.{IsUncounted, NothingSettles, WasCounted};
ghost use Rattle.group_commit.specs.Rounds.{AreListed, Begins, Counts, IsOrderly, IsNextStep, IsStart, MayNotStart, MayStart, Reports, Stays, Takes, is_due};

use crate::appending::Committed;
use crate::queue::{QueuedNote, Unnoted};
use crate::round_state::RoundState;
use std::alloc::{AllocError, Global};
use std::io;
use std::mem::{replace, swap};

/// A round of at most this many cells is done by one thread: to wake others would take longer.
const FEW: usize = 3;

/// The cell of a pad whose notes are to be appended. It has to be reported by `Progress::report`.
pub struct Job {
    pub(crate) cell: u32,
}

impl Job {
    /// The cell.
    pub fn cell(&self) -> u32
        ensures { result ≡ self.now.cell }
    {
        self.cell
    }
}

/// The number of notes when somebody asked.
#[derive(Clone, Copy, Drop)]
pub struct Asked {
    number: u64,
}

impl Asked {
    /// The number.
    pub fn number(self) -> u64
        ensures { result ≡ self.number }
    {
        self.number
    }
}

/// The first `number` notes are on the disk. Only `Progress` says so.
#[derive(Debug, Drop)]
pub struct Kept {
    number: u64,
}

impl Kept {
    /// The number of these notes, which are the first ones of the server.
    pub fn number(&self) -> u64
        ensures { result ≡ self.now.number }
    {
        self.number
    }
}

/// The next step of a caller that waits for notes.
pub enum NextStep {
    /// Go on: the notes are on the disk.
    Kept(Kept),
    /// Give up: they will never be known to be.
    Failed,
    /// Take cells of the round, and append their notes.
    Works,
    /// Wait until the round ends.
    Waits,
}

/// The state that all threads share. A round takes the cells that were noted since the last one began. Once each is
/// reported, all notes that were counted when the round began are on the disk.
///
/// After a failure no round ends any more.
#[derive(Drop)]
pub struct Progress {
    state: RoundState,
    // The number of notes in the last round.
    last: u64,
    // For each cell, the number of the note that last made it due.
    listed: Vec<u64>,
    // A round has ended, and those that wait for it without a thread are still to be woken.
    is_untold: bool,
    // The number of threads that help and are awake.
    attending: u32,
    // Those that help are to end.
    is_over: bool,
    ghost orderly: { IsOrderly state },
    ghost all_due: { AreListed listed.items state.noted state.upto state.due.items },
}

impl Progress {
    /// Nothing is noted yet at any of these cells.
    pub fn new(alloc: Global, cells: u32) -> Result<Progress, AllocError>
        ensures { IfOk result (λ progress. (progress.state.noted ≡ 0) × (progress.state.due.items ≡ [])
            × (progress.state.left.items ≡ []) × (progress.state.has_failed ≡ false)) }
    {
        let mut listed = Vec::new(alloc);
        listed.resize(cells as usize, 0)?;
        let state = RoundState {
            noted: 0,
            kept: 0,
            upto: 0,
            due: Vec::with_capacity(alloc, cells as usize)?,
            left: Vec::with_capacity(alloc, cells as usize)?,
            unreported: 0,
            is_round: false,
            has_failed: false,
        };
        Ok(Progress {
            state,
            last: 0,
            listed,
            is_untold: false,
            attending: 0,
            is_over: false,
        })
    }

    /// Counts a note that is in its queue. Its cell is due from now on. Out of memory, nothing is settled any more.
    pub fn count(&mut self, noted: QueuedNote) -> Result<(), Unnoted>
        ensures counted { OnOk result (Counts noted.cell self.old.state self.new.state) }
        ensures failed { OnErr result ((self.new.state.has_failed ≡ true) × NothingSettles) }
        ensures why { IfErr result (IsUncounted self.old.state.noted) }
    {
        let QueuedNote { cell } = noted;
        let counted = self.add(cell);
        if counted.is_err() {
            self.fail();
        }
        counted
    }

    #[tactic(auto, using(crate::proofs::Listed::listed_later))]
    fn add(&mut self, cell: u32) -> Result<(), Unnoted>
        ensures counts { OnOk result (Counts cell self.old.state self.new.state) }
        ensures why { IfErr result (IsUncounted self.old.state.noted) }
    {
        let Some(noted) = self.state.noted.checked_add(1) else {
            return Err(Unnoted::TooMany);
        };
        if self.is_due(cell) {
            self.state.noted = noted;
            return Ok(());
        }
        self.make_due(cell, noted)
    }

    // Returns true if a cell is known to be among those that are due: a note made it due after the round began.
    #[tactic(auto, using(crate::proofs::Listed::due_by_number))]
    fn is_due(&self, cell: u32) -> bool
        ensures { result ≡ true → is_due cell self.now.state.due.items ≡ true }
    {
        let place = cell as usize;
        place < self.listed.len() && self.listed[place] > self.state.upto
    }

    // Counts a note, which makes its cell due.
    #[tactic(auto, using(crate::proofs::Listed::listed_now, crate::proofs::Listed::due_behind, crate::proofs::Listed::listed_same))]
    fn make_due(&mut self, cell: u32, noted: u64) -> Result<(), Unnoted>
        requires { noted ≡ self.old.state.noted + 1 }
        ensures counts { OnOk result (Counts cell self.old.state self.new.state) }
        ensures why { IfErr result (λ cause. cause ≡ Unnoted.Memory) }
    {
        if self.state.due.push(cell).is_err() {
            return Err(Unnoted::Memory);
        }
        self.state.noted = noted;
        let place = cell as usize;
        if place < self.listed.len() {
            self.listed[place] = noted;
        }
        Ok(())
    }

    /// From now on nothing is settled.
    #[tactic(auto, using(crate::specs::Notes::it_failed))]
    pub fn fail(&mut self)
        ensures { (self.new.state.has_failed ≡ true) × NothingSettles }
    {
        self.state.has_failed = true;
    }

    /// Returns the present number of notes. A caller that waits for earlier notes asks this first.
    #[tactic(auto, using(crate::specs::Notes::is_counted))]
    pub fn ask(&self) -> Asked
        ensures number { result.number ≡ self.now.state.noted }
        ensures counted { WasCounted result.number }
    {
        Asked {
            number: self.state.noted,
        }
    }

    /// Those of the first `most` notes that are on the disk. None: nothing is settled any more. Nobody waits for it.
    pub fn look(&self, most: u64) -> Option<Kept>
        ensures some { IfSome result (λ kept. (kept.number ≡ min most self.now.state.kept)
            × (self.now.state.has_failed ≡ false)) }
        ensures none { IfNone result (self.now.state.has_failed ≡ true) }
    {
        if self.state.has_failed {
            return None;
        }
        Some(Kept {
            number: most.min(self.state.kept),
        })
    }

    /// Returns the next step of a caller that has asked. If no round is under way and notes are due, one begins.
    #[tactic(auto, using(crate::specs::Notes::is_counted))]
    pub fn next_step(&mut self, asked: Asked) -> NextStep
        ensures { IsNextStep asked.number self.old.state self.new.state result }
    {
        if self.state.has_failed {
            return NextStep::Failed;
        }
        let number = asked.number.min(self.state.noted);
        if number <= self.state.kept {
            return NextStep::Kept(Kept { number });
        }
        if !self.state.is_round {
            self.begin();
        }
        if self.state.left.is_empty() {
            NextStep::Waits
        } else {
            NextStep::Works
        }
    }

    /// Begins a round of the cells that are due, unless one is under way. Returns whether it did. If no notes are due, or
    /// nothing is settled any more, none begins.
    pub fn start(&mut self) -> bool
        ensures { IsStart result self.old.state self.new.state }
    {
        if !self.is_startable() {
            return false;
        }
        self.begin();
        true
    }

    /// Returns true if notes are due, and nothing stands against a round.
    pub fn is_startable(&self) -> bool
        ensures may { result ≡ true → MayStart self.now.state }
        ensures may_not { result ≡ false → MayNotStart self.now.state }
    {
        if self.state.has_failed || self.state.is_round {
            return false;
        }
        self.state.kept < self.state.noted
    }

    // Begins a round of the cells that are due.
    fn begin(&mut self)
        requires { self.old.state.is_round ≡ false }
        ensures { Begins self.old.state self.new.state }
    {
        self.last = self.state.noted - self.state.kept;
        self.state.upto = self.state.noted;
        self.state.unreported = self.state.due.len() as u64;
        self.state.left.clear();
        swap(&mut self.state.left, &mut self.state.due);
        self.state.is_round = true;
    }

    /// Returns true if it is worth waiting for others' notes before a round begins: none is under way, and fewer notes
    /// are due than the last one had. A single author is never kept waiting by it.
    pub fn is_sparse(&self, asked: Asked) -> bool {
        !self.state.has_failed
            && !self.state.is_round
            && asked.number > self.state.kept
            && self.state.noted - self.state.kept < self.last
    }

    /// Returns true if at most one note is due, and the last round had no more: a single author writes.
    pub fn is_single(&self) -> bool {
        self.last <= 1 && self.state.noted.saturating_sub(self.state.kept) <= 1
    }

    /// Returns true if enough cells of the round are left that other threads should help.
    pub fn is_large(&self) -> bool {
        self.state.left.len() > FEW
    }

    /// The number of notes on the disk, which are the first ones of the server.
    pub fn kept(&self) -> u64
        ensures { result ≡ self.now.state.kept }
    {
        self.state.kept
    }

    /// The number of notes.
    pub fn noted(&self) -> u64
        ensures { result ≡ self.now.state.noted }
    {
        self.state.noted
    }

    /// Returns true if nothing is settled any more.
    pub fn has_failed(&self) -> bool
        ensures { result ≡ self.now.state.has_failed }
    {
        self.state.has_failed
    }

    /// Takes a cell of the round, if any is left.
    pub fn take(&mut self) -> Option<Job>
        ensures some { IfSome result (λ job. Takes job.cell self.old.state self.new.state) }
        ensures none { IfNone result (((self.old.state.left.items ≡ []) ⊎ (self.old.state.has_failed ≡ true))
            × Stays self.old.state self.new.state) }
    {
        if self.state.has_failed {
            return None;
        }
        let cell = self.state.left.pop()?;
        Some(Job { cell })
    }

    /// Reports that a cell's notes are on the disk, and returns whether the round has ended with it. After a failure no
    /// round ends, and true is returned.
    pub fn report(&mut self, job: Job, done: io::Result<Committed>) -> bool
        requires cell { IfOk done (λ committed. committed.cell ≡ job.cell) }
        ensures reported { OnOk done (Reports result self.old.state self.new.state) }
        ensures failed { OnErr done ((self.new.state.has_failed ≡ true) × (result ≡ true)) }
    {
        let Job { cell: _ } = job;
        match done {
            Ok(Committed { cell: _ }) => {}
            Err(_) => {
                self.fail();
                return true;
            }
        }
        self.state.unreported = self.state.unreported.saturating_sub(1);
        let ends = self.state.unreported == 0;
        if ends && !self.state.has_failed {
            self.state.kept = self.state.upto;
            self.state.is_round = false;
        }
        ends
    }

    /// A round has ended, and one that helps is to wake those that wait for it without a thread.
    pub fn leave_untold(&mut self) {
        self.is_untold = true;
    }

    /// Returns true if they are still to be woken. The caller wakes them.
    pub fn take_untold(&mut self) -> bool {
        replace(&mut self.is_untold, false)
    }

    /// One that helps is awake. Before it sleeps, it calls `leave`.
    pub fn attend(&mut self) {
        self.attending = self.attending.saturating_add(1);
    }

    /// One that helps goes to sleep if it has nothing to do, or if no cell is left and another one is awake. Returns
    /// whether it does.
    pub fn leave(&mut self) -> bool {
        let is_spare = self.attending > 1 && self.state.left.is_empty();
        let leaves = is_spare || self.is_idle() || self.is_over;
        if leaves {
            self.attending = self.attending.saturating_sub(1);
        }
        leaves
    }

    /// Returns true if one that helps has nothing to do, and no other one is awake.
    pub fn is_lonely(&self) -> bool {
        self.attending <= 1 && self.is_idle()
    }

    /// Returns true if one that helps is to be woken: there is something to do, and all of them sleep.
    pub fn needs_help(&self) -> bool {
        self.attending == 0 && !self.is_idle()
    }

    /// Those that help end from now on.
    pub fn end_help(&mut self) {
        self.is_over = true;
    }

    /// Returns true if those that help are to end.
    pub fn is_over(&self) -> bool {
        self.is_over
    }

    /// Returns true if one that helps has nothing to do, and is not to end either.
    pub fn is_idle(&self) -> bool {
        let has_cells = !self.state.has_failed && !self.state.left.is_empty();
        !self.is_over && !self.is_untold && !has_cells && !self.is_startable()
    }
}
