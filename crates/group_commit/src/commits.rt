//! The notes of all pads of a server, which threads make and wait for.
ghost use Rattle.std.specs.Prelude.{◌≡◌, ◌≤◌, IfOk, IfSome, OnErr, OnOk};
ghost use Rattle.group_commit.specs.Notes.{NothingSettles, WasCounted, WasQueued};

use crate::appending::Committed;
use crate::progress::{Asked, Job, Kept, NextStep, Progress};
use crate::queue::{Note, Notes, PadQueue, Unnoted};
use std::alloc::{AllocError, Global};
use std::io;
use std::io::ErrorKind;
use std::sync::atomic::{AtomicBool, Ordering};
use std::sync::{Condvar, Mutex, Wait};
use std::thread::yield_now;
use std::time::{Clock, Duration};

/// The most times that a thread yields before a round, so that others' notes join its own.
const LOOKS: u32 = 16;

/// The times that a thread that helps yields before it sleeps. To sleep and be woken takes longer than most pauses between
/// notes while several authors write.
const LINGERS: u32 = 64;

/// Appends notes to the files of pads.
pub trait Commit {
    /// Appends the notes of a cell to its file by `append`, and reports a failure. At most one thread calls it for a
    /// cell at a time.
    fn commit(&self, notes: Notes) -> io::Result<Committed>
        ensures { IfOk result (λ done. done.cell ≡ notes.cell) };
}

/// Those that wait for notes without a thread, such as the workers whose replies wait.
pub trait Waiters {
    /// A round has ended: they look how many notes are on the disk now.
    fn wake(&self);
}

/// The numbers of notes.
#[derive(Clone, Copy)]
pub struct NoteCounts {
    /// All of them since the start.
    pub noted: u64,
    /// Those that are on the disk.
    pub kept: u64,
}

/// The notes of all pads, which all threads share.
#[derive(Drop)]
pub struct Commits {
    alloc: Global,
    queues: Vec<Mutex<PadQueue>>,
    progress: Mutex<Progress>,
    // Waited on until a round has ended.
    ended: Condvar,
    // Waited on until there is something to do for those that help.
    offered: Condvar,
    has_failed: AtomicBool,
}

impl Commits {
    /// Nothing is noted yet of these many cells.
    pub fn new(alloc: Global, cells: u32) -> Result<Commits, AllocError> {
        let mut queues = Vec::with_capacity(alloc, cells as usize)?;
        for cell in 0..cells {
            queues.push(Mutex::new(PadQueue::new(alloc, cell)))?;
        }
        Ok(Commits {
            alloc,
            queues,
            progress: Mutex::new(Progress::new(alloc, cells)?),
            ended: Condvar::new(),
            offered: Condvar::new(),
            has_failed: AtomicBool::new(false),
        })
    }

    /// Notes the records that a request leaves at a cell. It is called under the lock of the cell's pad, so that the
    /// notes have the order of the steps. After a failure nothing is settled any more.
    pub fn note<R: Wait>(&self, rt: &R, cell: u32, note: Note) -> Result<(), Unnoted>
        ensures queued { OnOk result (WasQueued cell note) }
        ensures failed { OnErr result NothingSettles }
    {
        let queued = match self.queues.get(cell as usize) {
            Some(queue) => queue.lock(rt).push(cell, note),
            None => Err(Unnoted::NoCell { cell }),
        };
        // A note is counted only after it is in the queue, so every counted note is there.
        match queued {
            Ok(noted) => {
                let counted = self.progress.lock(rt).count(noted);
                if counted.is_err() {
                    self.has_failed.store(true, Ordering::SeqCst);
                }
                counted
            }
            Err(cause) => {
                self.fail(rt);
                Err(cause)
            }
        }
    }

    /// From now on nothing is settled: something that was answered cannot be kept.
    pub fn fail<R: Wait>(&self, rt: &R)
        ensures { NothingSettles }
    {
        self.progress.lock(rt).fail();
        self.has_failed.store(true, Ordering::SeqCst);
        self.ended.notify_all();
    }

    /// Returns true if something could not be kept, after which nothing is settled.
    pub fn has_failed(&self) -> bool {
        self.has_failed.load(Ordering::SeqCst)
    }

    /// Returns the number of notes, and the number of those that are on the disk.
    pub fn counts<R: Wait>(&self, rt: &R) -> NoteCounts {
        let progress = self.progress.lock(rt);
        NoteCounts {
            noted: progress.noted(),
            kept: progress.kept(),
        }
    }

    /// Waits until everything noted before is on the disk. This thread appends with others meanwhile. After a failure each
    /// call fails.
    pub fn settle<R: Wait, C: Commit>(&self, rt: &R, files: &C) -> io::Result<Kept>
        ensures { IfOk result (λ kept. WasCounted kept.number) }
    {
        let asked = self.progress.lock(rt).ask();
        for _ in rt.forever() {
            self.let_others_note(rt, asked);
            let mut progress = self.progress.lock(rt);
            match progress.next_step(asked) {
                NextStep::Kept(kept) => return Ok(kept),
                NextStep::Failed => return Err(io::Error::from(ErrorKind::Other)),
                NextStep::Waits => {
                    let _woken = self.ended.wait(rt, progress);
                }
                NextStep::Works => {
                    self.offer(&progress);
                    drop(progress);
                    if self.work(rt, files) {
                        self.leave_untold(rt);
                    }
                }
            }
        }
        Err(io::Error::from(ErrorKind::Other))
    }

    // Has a thread that helps wake those that wait without a thread.
    fn leave_untold<R: Wait>(&self, rt: &R) {
        let mut progress = self.progress.lock(rt);
        progress.leave_untold();
        self.ask_help(&progress);
    }

    /// Has everything noted before appended, and returns the number of these notes: `look` tells when they are on the disk.
    /// Where a single author writes, this thread appends them. Otherwise it does not wait, and a thread in `help` does.
    /// After a failure each call fails.
    pub fn advance<R: Wait, C: Commit, T: Waiters>(
        &self,
        rt: &R,
        files: &C,
        waiters: &T,
    ) -> io::Result<u64>
        ensures { IfOk result WasCounted }
    {
        let mut progress = self.progress.lock(rt);
        let asked = progress.ask();
        let works = progress.is_single() && progress.start();
        if !works {
            self.ask_help(&progress);
        }
        drop(progress);
        if works && self.work(rt, files) {
            waiters.wake();
            self.ask_help(&self.progress.lock(rt));
        }
        if self.has_failed() {
            return Err(io::Error::from(ErrorKind::Other));
        }
        Ok(asked.number())
    }

    // Wakes one of the threads that help, if they have something to do and all of them sleep.
    fn ask_help(&self, progress: &Progress) {
        if progress.needs_help() {
            self.offered.notify_one();
        }
    }

    // Yields a few times while fewer notes are due than the last round had, so that others' notes join the next one.
    fn let_others_note<R: Wait>(&self, rt: &R, asked: Asked) {
        for _look in 0..LOOKS {
            if !self.progress.lock(rt).is_sparse(asked) {
                return;
            }
            yield_now();
        }
    }

    // Wakes those that help, if the round has enough cells for them.
    fn offer(&self, progress: &Progress) {
        if progress.is_large() {
            self.offered.notify_all();
        }
    }

    /// Those of the first `most` notes that are on the disk. None: nothing is settled any more. Nobody waits for it.
    pub fn look<R: Wait>(&self, rt: &R, most: u64) -> Option<Kept>
        ensures { IfSome result (λ kept. kept.number ≤ most) }
    {
        self.progress.lock(rt).look(most)
    }

    /// Waits until more than the first `seen` notes are on the disk, at most so long, and returns how many are. None: nothing
    /// is settled any more. It appends nothing itself.
    pub fn follow<R: Wait + Clock>(&self, rt: &R, seen: u64, most: Duration) -> Option<u64> {
        let progress = self.progress.lock(rt);
        let (progress, _late) = self
            .ended
            .wait_timeout_while(rt, progress, most, |progress| {
                progress.kept() <= seen && !progress.has_failed()
            });
        if progress.has_failed() {
            None
        } else {
            Some(progress.kept())
        }
    }

    // Takes cells of the round and appends their notes, until none is left or the round has ended. Returns whether it has
    // ended here.
    fn work<R: Wait, C: Commit>(&self, rt: &R, files: &C) -> bool {
        for _ in rt.forever() {
            let taken = self.progress.lock(rt).take();
            let Some(job) = taken else {
                return false;
            };
            let done = self.append(rt, files, &job);
            if done.is_err() {
                self.has_failed.store(true, Ordering::SeqCst);
            }
            if self.progress.lock(rt).report(job, done) {
                self.ended.notify_all();
                return true;
            }
        }
        false
    }

    // Appends the notes of a cell.
    fn append<R: Wait, C: Commit>(&self, rt: &R, files: &C, job: &Job) -> io::Result<Committed>
        ensures { IfOk result (λ done. done.cell ≡ job.now.cell) }
    {
        let cell = job.cell();
        let notes = match self.queues.get(cell as usize) {
            Some(queue) => queue.lock(rt).take(self.alloc, cell),
            None => None,
        };
        match notes {
            Some(notes) => files.commit(notes),
            None => Err(io::Error::from(ErrorKind::NotFound)),
        }
    }

    /// Makes the rounds that `advance` leaves to it, and takes part in those of others that have many cells, until `end_help`
    /// is called. A disk syncs several files in about the time of one, so a server calls it in several threads that do
    /// nothing else.
    pub fn help<R: Wait, C: Commit, T: Waiters>(&self, rt: &R, files: &C, waiters: &T) {
        for _ in rt.forever() {
            let mut progress = self
                .offered
                .wait_while(rt, self.progress.lock(rt), |progress| progress.is_idle());
            if progress.is_over() {
                return;
            }
            progress.attend();
            drop(progress);
            self.attend(rt, files, waiters);
        }
    }

    // Helps until there has been nothing to do for a moment, or others do it.
    fn attend<R: Wait, C: Commit, T: Waiters>(&self, rt: &R, files: &C, waiters: &T) {
        for _ in rt.forever() {
            self.make_round(rt, files, waiters);
            self.linger(rt);
            if self.progress.lock(rt).leave() {
                return;
            }
        }
    }

    // Begins a round, unless one is under way, and takes part in it.
    fn make_round<R: Wait, C: Commit, T: Waiters>(&self, rt: &R, files: &C, waiters: &T) {
        let asked = self.progress.lock(rt).ask();
        self.let_others_note(rt, asked);
        let mut progress = self.progress.lock(rt);
        let is_untold = progress.take_untold();
        if progress.start() {
            self.offer(&progress);
        }
        drop(progress);
        if self.work(rt, files) || is_untold {
            waiters.wake();
        }
    }

    // Yields while there is nothing to do for those that help, unless others are awake as well.
    fn linger<R: Wait>(&self, rt: &R) {
        for _look in 0..LINGERS {
            if !self.progress.lock(rt).is_lonely() {
                return;
            }
            yield_now();
        }
    }

    /// Ends the threads that help.
    pub fn end_help<R: Wait>(&self, rt: &R) {
        self.progress.lock(rt).end_help();
        self.offered.notify_all();
    }
}
