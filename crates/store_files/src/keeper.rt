//! The files of a server's pads while it runs: each answer is noted under its pad's lock, and synced before its reply
//! is written.
ghost use Rattle.std.specs.Prelude.{◌≡◌, ◌≤◌, ◌⊎◌, true, IfErr, IfOk, IfSome, OnErr, OnOk};
ghost use Rattle.group_commit.specs.Confirmations.{is_unasked};
ghost use Rattle.group_commit.specs.Notes.{NothingSettles, WasCounted};
ghost use Rattle.store_files.specs.Noting.{IsKept};

use crate::appending::Files;
use crate::copying::{Copying, Followed, Waited};
use crate::open_files::OpenFiles;
use crate::pad_device::make_room;
use crate::pad_end::{PadEnd, path_of};
use crate::promised::Promised;
use crate::reserve::{Reserve, is_full};
use crate::spares::{Spare, Spares};
use group_commit::{Commits, Confirmation, Kept, Note, Unnoted, Waiters};
use log::{error, warn};
use pad_core::Request;
use pad_model::{Name, Refusal};
use server_counts::Histogram;
use server_log::ServerLog;
use shared_pads::Answered;
use std::alloc::Global;
use std::fs::File;
use std::io;
use std::io::ErrorKind;
use std::sync::atomic::{AtomicBool, Ordering};
use std::sync::{Mutex, Wait};
use std::time::{Clock, Duration, SystemTime, UNIX_EPOCH};
use store_format::PadWriter;
use store_records::records_of;

/// The seconds between checks for a failed store while a server waits for the standby at its start.
const A_WHILE: u64 = 1;

/// Keeps the pads of a server in files, one for each pad that has a name. `restore` makes it, and all threads share it.
#[derive(Drop)]
pub struct Keeper {
    // Makes files, reads the time and logs faults.
    pub(crate) files: HostRuntime,
    pub(crate) folder: String,
    replica: u16,
    pub(crate) pads: Vec<Mutex<PadEnd>>,
    // Which of their files are open.
    pub(crate) open: Mutex<OpenFiles>,
    pub(crate) commits: Commits,
    pub(crate) copying: Copying,
    pub(crate) reserve: Reserve,
    spares: Spares,
    pub(crate) syncs: Histogram,
    // True if it was logged that no file can be made for a pad.
    is_short: AtomicBool,
    held: OpenFolder,
}

/// The parts of a keeper other than the files of the pads. All that may fail in making it is done before these are
/// handed over.
#[derive(Drop)]
pub(crate) struct KeeperParts {
    pub open: OpenFiles,
    pub commits: Commits,
    pub copying: Copying,
    pub reserve: Reserve,
    pub syncs: Histogram,
}

/// The files of a store that stay open as long as the server runs.
#[derive(Drop)]
pub struct OpenFolder {
    /// The lock of the folder.
    pub lock: File,
    /// The folder, which is synced when a file gets its name.
    pub folder: File,
}

impl Keeper {
    // A keeper of these files, one for each cell.
    pub(crate) fn new(
        files: HostRuntime,
        folder: String,
        replica: u16,
        pads: Vec<Mutex<PadEnd>>,
        parts: KeeperParts,
        held: OpenFolder,
    ) -> Keeper {
        let spares = Spares::new(files.alloc());
        let keeper = Keeper {
            files,
            folder,
            replica,
            pads,
            open: Mutex::new(parts.open),
            commits: parts.commits,
            copying: parts.copying,
            reserve: parts.reserve,
            spares,
            syncs: parts.syncs,
            is_short: AtomicBool::new(false),
            held,
        };
        let now = keeper.seconds();
        keeper.copying.progress.heard_at.set(now);
        keeper.copying.progress.whole_at.set(now);
        keeper
    }

    /// Notes the records that a request leaves to be kept: a line for each, which the thread that settles appends to
    /// the pad's file. It is called under the pad's lock, so that the lines have the order of the steps. A failure is
    /// logged, and from then on nothing is settled.
    pub fn note<R: Wait>(&self, rt: &R, alloc: Global, told: Answered<'_>)
        ensures { IsKept told.entry }
    {
        let has_named_nothing = self.has_named_nothing(&told);
        if let Err(cause) = self.put(rt, alloc, told) {
            self.commits.fail(rt);
            error!(ServerLog(&self.files); "the store {} cannot be written: {cause}", self.folder);
        }
        if has_named_nothing {
            self.spares.release(rt);
        }
    }

    // Notes the records of a request, if it leaves any.
    fn put<R: Wait>(&self, rt: &R, alloc: Global, told: Answered<'_>) -> Result<(), Unnoted>
        ensures { OnOk result (IsKept told.entry) }
    {
        let Ok(more) = told.more else {
            return Err(Unnoted::Memory);
        };
        let more = more.as_slice();
        let Ok(records) = records_of(
            alloc,
            told.who,
            told.request,
            told.at,
            told.visit,
            told.answer,
            more,
        ) else {
            return Err(Unnoted::Memory);
        };
        if records.is_empty() {
            return Ok(());
        }
        let note = Note {
            at: told.at / 1000,
            records,
        };
        self.commits.note(rt, told.cell, note)
    }

    /// A creation that was promised a file came to no cell. If it came to one, `note` finds out itself.
    pub fn release<R: Wait>(&self, rt: &R) {
        self.spares.release(rt);
    }

    // Returns true if a creation has ended without naming a pad: it was refused, or went past the last cell.
    fn has_named_nothing(&self, told: &Answered<'_>) -> bool {
        match (told.request, told.answer) {
            (Request::Create { .. }, Err(_)) => true,
            (Request::Create { .. }, Ok(None)) => {
                (told.cell as usize).saturating_add(1) >= self.pads.len()
            }
            _ => false,
        }
    }

    /// Checks that the records of a request can be kept, as far as that is known: returns 901 if they cannot, 900 if
    /// there is no memory to make a file with. It is called before any pad is asked. A creation is promised a file,
    /// which `note` or `release` takes back.
    pub fn keeps<R: Wait>(&self, rt: &R, alloc: Global, request: &Request) -> Result<(), Refusal>
        ensures { IfErr result (λ e. (e ≡ Refusal.StoreFull) ⊎ (e ≡ Refusal.Memory)) }
    {
        if !self.has_room(rt, alloc) {
            return Err(Refusal::StoreFull);
        }
        match request {
            Request::Create { .. } => self.promise_file(rt),
            _ => Ok(()),
        }
    }

    // Promises a file to a creation. If none can be made, this is logged, once until one can be made again.
    fn promise_file<R: Wait>(&self, rt: &R) -> Result<(), Refusal>
        ensures { IfErr result (λ e. (e ≡ Refusal.StoreFull) ⊎ (e ≡ Refusal.Memory)) }
    {
        match self.spares.promise(rt, &self.files, self.folder.as_str()) {
            Ok(()) => {
                self.is_short.store(false, Ordering::SeqCst);
                Ok(())
            }
            Err(cause) if cause.kind() == ErrorKind::OutOfMemory => Err(Refusal::Memory),
            Err(cause) => {
                if !self.is_short.swap(true, Ordering::SeqCst) {
                    warn!(ServerLog(&self.files); "the store {} has no file for a new pad: {cause}", self.folder);
                }
                Err(Refusal::StoreFull)
            }
        }
    }

    // Returns true if there is room on the disk. If it was full, this is checked again once a second.
    fn has_room<R: Wait>(&self, rt: &R, alloc: Global) -> bool {
        if self.reserve.is_whole(rt) {
            return true;
        }
        let has_room = self.reserve.renew(rt, alloc, self.seconds());
        if has_room {
            warn!(ServerLog(&self.files); "the disk of the store {} has room again", self.folder);
        }
        has_room
    }

    // Gives a pad's name to the file that was promised to it, and makes the first line.
    pub(crate) fn begin<R: Wait>(
        &self,
        rt: &R,
        alloc: Global,
        name: &Name,
        writer: &mut PadWriter,
    ) -> io::Result<File> {
        let Some(spare) = self.spares.take(rt) else {
            return Err(io::Error::from(ErrorKind::NotFound));
        };
        let folder = self.folder.as_str();
        let path = path_of(alloc, folder, name.as_str())?;
        match spare.rename(&self.files, path.as_str()) {
            Err(cause) if is_full(&cause) => {
                make_room(rt, &self.files, folder, &self.reserve)?;
                spare.rename(&self.files, path.as_str())?;
            }
            done => done?,
        }
        self.held.folder.sync_all()?;
        let Spare { file, .. } = spare;
        writer.begin(alloc, name, self.replica)?;
        Ok(file)
    }

    // The time of day in seconds since 1970, or 0 if the clock fails.
    pub(crate) fn seconds(&self) -> u64 {
        match SystemTime::now(&self.files) {
            Ok(now) => match now.duration_since(UNIX_EPOCH) {
                Ok(passed) => passed.as_secs(),
                Err(_) => 0,
            },
            Err(_) => 0,
        }
    }

    /// Returns true if a write or a sync has failed, after which nothing is settled.
    pub fn has_failed(&self) -> bool {
        self.commits.has_failed()
    }

    /// Waits until everything noted before is synced, or fails. A server calls it before it ends.
    pub fn sync<R: Wait>(&self, rt: &R) -> io::Result<Kept>
        ensures { IfOk result (λ kept. WasCounted kept.number) }
    {
        self.commits.settle(rt, &Files::new(rt, self))
    }

    /// Has everything noted before synced, and returns the number of these notes, or fails: `look` tells how many of them
    /// may be revealed. Where a single author writes, this thread syncs. Otherwise it does not wait, and a thread in
    /// `help` does.
    pub fn advance<R: Wait, T: Waiters>(&self, rt: &R, waiters: &T) -> io::Result<u64>
        ensures { IfOk result WasCounted }
    {
        self.commits.advance(rt, &Files::new(rt, self), waiters)
    }

    /// Returns how many of the first `most` notes may be revealed: those that are synced, and that the standby has if
    /// that was promised. None: none yet. It does not wait. It fails if the store or the standby is lost.
    pub fn look<R: Wait>(&self, rt: &R, most: u64) -> io::Result<Option<Promised>>
        ensures { IfOk result (λ found. IfSome found (λ promised. promised.kept.number ≤ most)) }
    {
        let Some(kept) = self.commits.look(rt, most) else {
            return Err(io::Error::from(ErrorKind::Other));
        };
        match self.copying.reach(rt, kept.number()) {
            Confirmation::Given(confirmed) => Ok(Some(Promised::new(kept, confirmed))),
            Confirmation::Waits => Ok(None),
            Confirmation::Lost => Err(io::Error::from(ErrorKind::TimedOut)),
        }
    }

    /// Waits until more may be revealed than at the change `seen`, and returns the number of the last change. One
    /// thread calls it, which then wakes those whose replies wait. If the standby does not answer in time, the server
    /// goes on alone, or nothing is settled any more, and this is logged. None: the server has ended, or is to end.
    pub fn follow<R: Wait + Clock>(&self, rt: &R, seen: u64) -> Option<u64> {
        match self.copying.follow(rt, seen) {
            Followed::Further { change, alone } => {
                if alone {
                    self.tell_alone();
                }
                Some(change)
            }
            Followed::Lost { first } => {
                self.lose(rt, first);
                None
            }
            Followed::Over => None,
        }
    }

    // Logs that the server goes on without the standby.
    fn tell_alone(&self) {
        warn!(ServerLog(&self.files); "the standby does not answer: this server goes on alone");
    }

    // The standby is lost, without which nothing may be settled. `first`: this is to be logged.
    fn lose<R: Wait>(&self, rt: &R, first: bool) {
        if first {
            error!(ServerLog(&self.files); "the standby does not answer");
        }
        self.commits.fail(rt);
    }

    /// Waits until everything noted before is synced, and the standby has it where that was promised, or fails. It is called
    /// before a line to a peer is written, under no pad's lock. Threads that wait append and sync together; after a failure each call
    /// fails.
    pub fn settle<R: Wait + Clock>(&self, rt: &R) -> io::Result<Promised> {
        let kept = self.commits.settle(rt, &Files::new(rt, self))?;
        let confirmed = match self.copying.wait(rt, kept.number()) {
            Waited::Confirmed(confirmed) => confirmed,
            Waited::Alone(confirmed) => {
                self.tell_alone();
                confirmed
            }
            Waited::Lost { first } => {
                self.lose(rt, first);
                return Err(io::Error::from(ErrorKind::TimedOut));
            }
        };
        Ok(Promised::new(kept, confirmed))
    }

    /// Waits until the standby has what was there at the start, where no reply may go out before. Returns whether it has: if
    /// not, the server has to end.
    pub fn wait_for_copy<R: Wait + Clock>(&self, rt: &R) -> bool {
        for _ in rt.forever() {
            match self.copying.wait_at_start(rt, Duration::from_secs(A_WHILE)) {
                Some(false) if !self.has_failed() => {}
                Some(true) => return true,
                _ => return false,
            }
        }
        false
    }

    /// The number of machines that keep the answers given now: 2 while replies wait until the standby has what they
    /// reveal, otherwise 1, this one. A server without a store has no keeper, and keeps nothing.
    pub fn machines<R: Wait>(&self, rt: &R) -> u32
        ensures counted { (1 ≤ result) × (result ≤ 2) }
        ensures unasked { is_unasked self.now.copying.asked ≡ true → result ≡ 1 }
    {
        self.copying.machines(rt)
    }

    /// Returns true if the server ends because the standby did not answer.
    pub fn has_lost_standby(&self) -> bool {
        self.copying.is_lost()
    }

    /// Syncs files that others leave to it, and wakes those whose replies wait, until `end_help` is called. A server calls it in
    /// threads that do nothing else.
    pub fn help<R: Wait, T: Waiters>(&self, rt: &R, waiters: &T) {
        self.commits.help(rt, &Files::new(rt, self), waiters);
    }

    /// Ends the threads that help, and the one that follows.
    pub fn end_help<R: Wait>(&self, rt: &R) {
        self.copying.end(rt);
        self.commits.end_help(rt);
    }
}
