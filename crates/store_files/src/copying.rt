//! The state of the standby that the threads of a server share: the files that have grown, and how much of them it has.
ghost use Rattle.std.specs.Prelude.{◌≡◌, ◌≤◌, true};
ghost use Rattle.group_commit.specs.Confirmations.{is_unasked};

use cell_set::CellSet;
use group_commit::{Confirm, Confirmation, Confirmed, Confirming};
use server_counts::Counter;
use std::alloc::{AllocError, Global};
use std::sync::atomic::{AtomicBool, Ordering};
use std::sync::{Condvar, Mutex, Wait};
use std::time::{Clock, Duration};

/// The seconds without an answer after which a server that promised the standby's confirmation ends.
const STRICT_PATIENCE: u64 = 10;

/// The result of following how far replies may go.
#[derive(Clone, Copy)]
pub enum Followed {
    /// They may go further than at the change with this number. `alone`: from now on without the standby, which is
    /// reported once.
    Further { change: u64, alone: bool },
    /// The standby did not answer in time, and the server ends. `first` is true for the first thread that finds out.
    Lost { first: bool },
    /// The server has ended.
    Over,
}

// The state that threads wait on: how much the standby has, and how much of it a reply waits for.
#[derive(Drop)]
struct Awaited {
    confirming: Confirming,
    // A reply waits until the standby has this number of notes. None: no reply has waited yet.
    most: Option<u64>,
    // The number of times that replies could go further than before.
    changes: u64,
    // Nobody follows any more.
    is_over: bool,
}

impl Awaited {
    // Returns true if a reply waits for the standby.
    fn is_short(&self) -> bool {
        match self.most {
            Some(most) => matches!(self.confirming.next_step(most), Confirmation::Waits),
            None => false,
        }
    }

    // Notes that a reply waits for this number of notes.
    fn wait_for(&mut self, number: u64) {
        self.most = Some(self.most.map_or(number, |most| most.max(number)));
    }

    // Replies can go further than before.
    fn note_change(&mut self) {
        self.changes = self.changes.saturating_add(1);
    }
}

/// The result of waiting for the standby.
#[derive(Drop)]
pub enum Waited {
    /// It has what was waited for, or nobody need wait any longer.
    Confirmed(Confirmed),
    /// It did not answer in time: from now on the server goes on alone. This is reported once.
    Alone(Confirmed),
    /// It did not answer in time, and the server ends. `first` is true for the first thread that finds out.
    Lost { first: bool },
}

/// The files that have grown since whoever copies them last looked, and the notes that the standby has confirmed.
#[derive(Drop)]
pub struct Copying {
    is_copied: bool,
    asked: Confirm,
    grown: CellSet,
    awaited: Mutex<Awaited>,
    // Waited on until the standby has more, or until a reply waits for it.
    heard: Condvar,
    // The standby did not answer a server that promised never to go on without it.
    is_lost: AtomicBool,
    pub(crate) progress: CopyProgress,
}

/// The progress of the standby, for those who watch the server. The times are in seconds since 1970.
#[derive(Drop)]
pub struct CopyProgress {
    /// Bytes of files that are synced here.
    pub synced_bytes: Counter,
    /// Those of them that the standby has.
    pub copied_bytes: Counter,
    /// The time at which it last answered, or the server began.
    pub heard_at: Counter,
    /// The time at which it last had everything, or the server began.
    pub whole_at: Counter,
}

impl Copying {
    /// Of a server with this many cells. `asked` is None where no standby has a copy.
    pub fn new(alloc: Global, cells: usize, asked: Option<Confirm>) -> Result<Copying, AllocError> {
        let is_copied = asked.is_some();
        let asked = asked.unwrap_or(Confirm::Never);
        Ok(Copying {
            is_copied,
            asked,
            grown: CellSet::new(alloc, cells)?,
            awaited: Mutex::new(Awaited {
                confirming: Confirming::new(asked),
                most: None,
                changes: 0,
                is_over: false,
            }),
            heard: Condvar::new(),
            is_lost: AtomicBool::new(false),
            progress: CopyProgress {
                synced_bytes: Counter::new(),
                copied_bytes: Counter::new(),
                heard_at: Counter::new(),
                whole_at: Counter::new(),
            },
        })
    }

    /// Returns true if a standby has a copy.
    pub fn is_copied(&self) -> bool {
        self.is_copied
    }

    /// Notes that the file at a cell has grown.
    pub fn note(&self, cell: u32) {
        if self.is_copied {
            self.grown.insert(cell);
        }
    }

    /// The cells whose files have grown. Whoever copies them removes them.
    pub fn grown(&self) -> &CellSet {
        &self.grown
    }

    /// Waits until the standby has the first `number` notes, or as long as the server promised to wait.
    pub fn wait<R: Wait + Clock>(&self, rt: &R, number: u64) -> Waited {
        if let Some(confirmed) = self.asked.unasked(number) {
            return Waited::Confirmed(confirmed);
        }
        let state = self.awaited.lock(rt);
        match state.confirming.next_step(number) {
            Confirmation::Given(confirmed) => return Waited::Confirmed(confirmed),
            Confirmation::Lost => return Waited::Lost { first: false },
            Confirmation::Waits => {}
        }
        let most = patience_of(self.asked);
        let (mut state, _late) = self.heard.wait_timeout_while(rt, state, most, |state| {
            matches!(state.confirming.next_step(number), Confirmation::Waits)
        });
        match state.confirming.next_step(number) {
            Confirmation::Given(confirmed) => return Waited::Confirmed(confirmed),
            Confirmation::Lost => return Waited::Lost { first: false },
            Confirmation::Waits => {}
        }
        let first = state.confirming.give_up();
        state.note_change();
        self.heard.notify_all();
        match state.confirming.next_step(number) {
            Confirmation::Given(confirmed) if first => Waited::Alone(confirmed),
            Confirmation::Given(confirmed) => Waited::Confirmed(confirmed),
            Confirmation::Waits | Confirmation::Lost => {
                self.is_lost.store(true, Ordering::SeqCst);
                Waited::Lost { first }
            }
        }
    }

    /// Returns how many of the first `most` notes may be revealed. It does not wait; if these are not all, it wakes the
    /// thread that follows, because a reply waits.
    pub fn reach<R: Wait>(&self, rt: &R, most: u64) -> Confirmation {
        if let Some(confirmed) = self.asked.unasked(most) {
            return Confirmation::Given(confirmed);
        }
        let mut state = self.awaited.lock(rt);
        if let Confirmation::Waits = state.confirming.next_step(most) {
            if !state.is_short() {
                self.heard.notify_all();
            }
            state.wait_for(most);
        }
        state.confirming.reach(most)
    }

    /// Waits until replies can go further than at the change `seen`. If a reply waits, and the standby has not answered for
    /// as long as the server promised to wait, the server goes on alone, or ends.
    pub fn follow<R: Wait + Clock>(&self, rt: &R, seen: u64) -> Followed {
        let state = self.awaited.lock(rt);
        let state = self.heard.wait_while(rt, state, |state| {
            state.changes == seen && !state.is_over && !state.is_short()
        });
        let most = patience_of(self.asked);
        let (mut state, _late) = self.heard.wait_timeout_while(rt, state, most, |state| {
            state.changes == seen && !state.is_over && state.is_short()
        });
        if state.is_over {
            return Followed::Over;
        }
        let mut first = false;
        if state.changes == seen && state.is_short() {
            first = state.confirming.give_up();
            state.note_change();
            self.heard.notify_all();
        }
        if let Confirmation::Lost = state.confirming.reach(0) {
            self.is_lost.store(true, Ordering::SeqCst);
            return Followed::Lost { first };
        }
        Followed::Further {
            change: state.changes,
            alone: first,
        }
    }

    /// Nobody needs to follow any more: the server has ended.
    pub fn end<R: Wait>(&self, rt: &R) {
        self.awaited.lock(rt).is_over = true;
        self.heard.notify_all();
    }

    /// Waits for at most `most` until the standby has everything that was there at the start, if no reply may go out
    /// before. Returns whether it has, or None if it will not.
    pub fn wait_at_start<R: Wait + Clock>(&self, rt: &R, most: Duration) -> Option<bool> {
        if self.asked != Confirm::Strict {
            return Some(true);
        }
        let state = self.awaited.lock(rt);
        let (state, _late) = self.heard.wait_timeout_while(rt, state, most, |state| {
            matches!(state.confirming.next_step(0), Confirmation::Waits)
        });
        match state.confirming.next_step(0) {
            Confirmation::Given(_) => Some(true),
            Confirmation::Waits => Some(false),
            Confirmation::Lost => None,
        }
    }

    /// The standby has synced the first `mark` notes. `is_all` is true if it had everything when it confirmed. Returns
    /// whether the server was alone until then.
    pub fn hear<R: Wait>(&self, rt: &R, mark: u64, is_all: bool) -> bool {
        let mut state = self.awaited.lock(rt);
        if let Confirmation::Waits = state.confirming.next_step(mark) {
            state.note_change();
        }
        state.confirming.hear(mark);
        let was_alone = is_all && state.confirming.catch_up();
        drop(state);
        self.heard.notify_all();
        was_alone
    }

    /// Nothing is confirmed any more where the server promised never to go on without the standby: another server has taken
    /// its place. Otherwise the server goes on alone.
    pub fn give_up<R: Wait>(&self, rt: &R) {
        let mut state = self.awaited.lock(rt);
        let _first = state.confirming.give_up();
        state.note_change();
        if self.asked == Confirm::Strict {
            self.is_lost.store(true, Ordering::SeqCst);
        }
        drop(state);
        self.heard.notify_all();
    }

    /// The condition that replies wait for. None: no standby has a copy.
    pub fn asked(&self) -> Option<Confirm> {
        if self.is_copied {
            Some(self.asked)
        } else {
            None
        }
    }

    /// The number of notes that the standby has. None: it may lack some of the bytes that were there at the start.
    pub fn copied<R: Wait>(&self, rt: &R) -> Option<u64> {
        self.awaited.lock(rt).confirming.copied()
    }

    /// The number of machines that keep the answers given now: 2 while replies wait until the standby has what they
    /// reveal, otherwise 1. Where no reply ever waits for a standby, it is always 1.
    pub fn machines<R: Wait>(&self, rt: &R) -> u32
        ensures counted { (1 ≤ result) × (result ≤ 2) }
        ensures unasked { is_unasked self.now.asked ≡ true → result ≡ 1 }
    {
        if self.asked == Confirm::Never {
            return 1;
        }
        self.awaited.lock(rt).confirming.machines()
    }

    /// Returns true if the standby did not answer a server that promised never to go on without it.
    pub fn is_lost(&self) -> bool {
        self.is_lost.load(Ordering::SeqCst)
    }
}

// The time that a reply waits for the standby.
fn patience_of(policy: Confirm) -> Duration {
    match policy {
        Confirm::Never => Duration::from_secs(0),
        Confirm::Within { seconds } => Duration::from_secs(u64::from(seconds)),
        Confirm::Strict => Duration::from_secs(STRICT_PATIENCE),
    }
}
