//! The state that the threads of a server share: the way to reach each worker, the number of clients, and whether the
//! server is ending.
use crate::arrivals::Arrival;
use crate::delay::{Delay, Wanted};
use crate::lobby::Lobby;
use cell_set::CellSet;
use crossbeam_channel::Sender;
use mio::Waker;
use server_counts::ClientCounts;
use sessions::Accounts;
use std::alloc::{AllocError, Global};
use std::sync::atomic::{AtomicBool, AtomicU64, Ordering};
use std::sync::{Arc, Wait};
use std::time::Instant;

/// The way to reach a worker.
#[derive(Drop)]
pub struct Door {
    to: Sender<Arrival>,
    waker: Waker,
    /// The number of its clients, including those on their way to it or at the worker for long lines.
    clients: AtomicU64,
    /// True if it is running: the system may have created no thread for it.
    is_open: AtomicBool,
    /// The cells whose pads it watches, and those whose pads have changed since it last looked.
    wanted: CellSet,
    moved: CellSet,
    /// True if it was notified that a pad has changed, and has not yet looked.
    is_told: AtomicBool,
    /// True if replies of its clients wait, so that it is to be woken when they may go further.
    awaits: AtomicBool,
}

impl Door {
    /// The door of a worker that is not yet running, on a server with this many cells.
    pub fn new(
        alloc: Global,
        to: Sender<Arrival>,
        waker: Waker,
        cells: usize,
    ) -> Result<Door, AllocError> {
        Ok(Door {
            to,
            waker,
            clients: AtomicU64::new(0),
            is_open: AtomicBool::new(false),
            wanted: CellSet::new(alloc, cells)?,
            moved: CellSet::new(alloc, cells)?,
            is_told: AtomicBool::new(false),
            awaits: AtomicBool::new(false),
        })
    }
}

/// The kind that a connection counts as.
#[derive(Clone, Copy, PartialEq, Eq)]
pub enum Connected {
    /// A client, which speaks lines or has a socket.
    Client,
    /// A browser whose request is read or answered.
    PageRequest,
}

/// The state that the threads of a server share.
#[derive(Drop)]
pub struct Hub {
    /// The last one is that of the worker for long lines.
    doors: Vec<Door>,
    acceptor: Waker,
    /// The time at which the server started; None if the clock failed.
    began: Option<Instant>,
    /// The number of connected clients: those that speak lines, and the sockets of browsers.
    clients: AtomicU64,
    /// The number of HTTP requests being read or answered.
    page_requests: AtomicU64,
    /// True if the server has stopped accepting connections.
    is_closed: AtomicBool,
    has_stopped: AtomicBool,
    /// The clients that have not logged in.
    lobby: Lobby,
    /// The revision of the pad at each cell.
    revisions: Vec<AtomicU64>,
    /// The time from which wrong tokens may be reported again, in milliseconds of a `Ticker`.
    report_from: AtomicU64,
    counts: ClientCounts,
}

/// The shortest time between two reports of wrong tokens, in milliseconds.
const REPORTS: u64 = 1_000;

impl Hub {
    /// The hub of a server without clients, whose pads have these revisions.
    pub fn new(
        doors: Vec<Door>,
        acceptor: Waker,
        began: Option<Instant>,
        revisions: Vec<AtomicU64>,
        lobby: Lobby,
        counts: ClientCounts,
    ) -> Hub {
        Hub {
            doors,
            acceptor,
            began,
            clients: AtomicU64::new(0),
            page_requests: AtomicU64::new(0),
            is_closed: AtomicBool::new(false),
            has_stopped: AtomicBool::new(false),
            lobby,
            revisions,
            report_from: AtomicU64::new(0),
            counts,
        }
    }

    /// Returns the counts of the clients, for those who watch the server.
    pub fn counts(&self) -> &ClientCounts {
        &self.counts
    }

    /// Returns the number of connected clients.
    pub fn clients(&self) -> u64 {
        self.clients.load(Ordering::SeqCst)
    }

    /// Returns the number of requests of browsers that are read or answered.
    pub fn page_requests(&self) -> u64 {
        self.page_requests.load(Ordering::SeqCst)
    }

    /// Returns the time at which the server started.
    pub fn began(&self) -> Option<Instant> {
        self.began
    }

    /// The clients that have not logged in.
    pub fn lobby(&self) -> &Lobby {
        &self.lobby
    }

    /// Returns true if there is room for one more client, with at most `most` in all.
    pub fn has_room(&self, most: u32) -> bool {
        self.clients.load(Ordering::SeqCst) < u64::from(most)
    }

    /// Returns true if there is room for one more request over HTTP, with at most `most` in all.
    pub fn has_room_for_page_request(&self, most: u32) -> bool {
        self.page_requests.load(Ordering::SeqCst) < u64::from(most)
    }

    /// Notes that a worker is running.
    pub fn open(&self, place: usize) {
        if let Some(door) = self.doors.get(place) {
            door.is_open.store(true, Ordering::SeqCst);
        }
    }

    /// Returns true if a worker is running.
    pub fn is_open(&self, place: usize) -> bool {
        match self.doors.get(place) {
            Some(door) => door.is_open.load(Ordering::SeqCst),
            None => false,
        }
    }

    /// The place of the worker for long lines.
    pub fn long_lines(&self) -> usize {
        self.doors.len().saturating_sub(1)
    }

    /// The running worker with the fewest clients, except the one for long lines.
    pub fn least_busy(&self) -> usize {
        let mut best = 0;
        let mut fewest = None;
        for place in 0..self.long_lines() {
            let Some(door) = self.doors.get(place) else {
                break;
            };
            if !door.is_open.load(Ordering::SeqCst) {
                continue;
            }
            let clients = door.clients.load(Ordering::SeqCst);
            if fewest.is_none_or(|fewest| clients < fewest) {
                best = place;
                fewest = Some(clients);
            }
        }
        best
    }

    /// Counts one more connection, of this worker.
    pub fn enter(&self, home: usize, connected: Connected) {
        self.count_of(connected).fetch_add(1, Ordering::SeqCst);
        if connected == Connected::PageRequest {
            self.counts.page_connections.add_one();
        }
        if let Some(door) = self.doors.get(home) {
            door.clients.fetch_add(1, Ordering::SeqCst);
        }
    }

    /// Counts a browser's connection as a client from now on; returns false if there are `most` already.
    pub fn admit(&self, most: u32) -> bool {
        if self.clients.fetch_add(1, Ordering::SeqCst) >= u64::from(most) {
            self.clients.fetch_sub(1, Ordering::SeqCst);
            return false;
        }
        self.page_requests.fetch_sub(1, Ordering::SeqCst);
        true
    }

    /// Counts the end of a worker's connection. Once no more are accepted, the workers end after the last one.
    pub fn leave(&self, home: usize, connected: Connected) {
        if let Some(door) = self.doors.get(home) {
            door.clients.fetch_sub(1, Ordering::SeqCst);
        }
        if self.count_of(connected).fetch_sub(1, Ordering::SeqCst) == 1 && self.is_over() {
            self.ring_all();
        }
    }

    // The counter of such connections.
    fn count_of(&self, connected: Connected) -> &AtomicU64 {
        match connected {
            Connected::Client => &self.clients,
            Connected::PageRequest => &self.page_requests,
        }
    }

    /// Sends something to a worker. Returns it if it cannot be sent.
    pub fn send<R: Wait>(&self, rt: &R, place: usize, arrival: Arrival) -> Option<Arrival> {
        let Some(door) = self.doors.get(place) else {
            return Some(arrival);
        };
        match door.to.send(rt, arrival) {
            Ok(()) => {
                let _woken = door.waker.wake();
                None
            }
            Err(unsent) => Some(unsent.into_inner()),
        }
    }

    /// Replaces the accounts of the workers, which share them. Each worker takes them between two turns. Sessions go on. A
    /// worker keeps its accounts if there is no memory to send it the new ones.
    pub fn replace_accounts<R: Wait>(&self, rt: &R, accounts: &Arc<Accounts, Global>) {
        for place in 0..self.doors.len() {
            if let Ok(shared) = Arc::try_clone(accounts) {
                let _told = self.send(rt, place, Arrival::Accounts(shared));
            }
        }
    }

    /// Notes that no more connections are accepted.
    pub fn close(&self) {
        self.is_closed.store(true, Ordering::SeqCst);
        self.ring_all();
    }

    /// Stops the server: no more connections are accepted, and no more lines are answered.
    pub fn stop(&self) {
        self.has_stopped.store(true, Ordering::SeqCst);
        self.ring_all();
        let _woken = self.acceptor.wake();
    }

    /// Returns true if the server was stopped.
    pub fn has_stopped(&self) -> bool {
        self.has_stopped.load(Ordering::SeqCst)
    }

    /// Returns true if the workers have nothing left to do.
    pub fn is_over(&self) -> bool {
        self.has_stopped() || self.is_closed.load(Ordering::SeqCst) && self.is_empty()
    }

    // Returns true if there are no connections. A browser that becomes a client is briefly counted twice, but never
    // left out.
    fn is_empty(&self) -> bool {
        self.page_requests.load(Ordering::SeqCst) == 0 && self.clients.load(Ordering::SeqCst) == 0
    }

    /// Publishes that operations were delivered at a cell, while its lock is still held. Wakes each worker that watches
    /// the cell, once until it has looked.
    pub fn publish(&self, cell: u32, operations: u64) {
        if let Some(revision) = self.revisions.get(cell as usize) {
            revision.fetch_add(operations, Ordering::SeqCst);
        }
        for door in &self.doors {
            if !door.wanted.has(cell) {
                continue;
            }
            door.moved.insert(cell);
            if !door.is_told.swap(true, Ordering::SeqCst) {
                let _woken = door.waker.wake();
            }
        }
    }

    /// Returns true if pads that a worker watches have changed since it last looked. It stops watching them until it
    /// asks again.
    pub fn take_moved(&self, place: usize) -> bool {
        let Some(door) = self.doors.get(place) else {
            return false;
        };
        if !door.is_told.swap(false, Ordering::SeqCst) {
            return false;
        }
        door.wanted.forget(&door.moved);
        true
    }

    /// Returns true if a request has to wait, because the pad is still at the revision that it names. The worker will
    /// be notified when the pad changes.
    ///
    /// The worker starts to watch the cell before it compares, and a pad's revision grows before the watching workers
    /// are looked up. So one of the two sees the other.
    pub fn has_to_wait(&self, place: usize, wanted: Wanted) -> bool {
        if let Some(door) = self.doors.get(place) {
            door.wanted.insert(wanted.cell);
        }
        match self.revisions.get(wanted.cell as usize) {
            Some(revision) => revision.load(Ordering::SeqCst) == wanted.rev,
            None => false,
        }
    }

    /// Replies of a worker wait: it is to be woken when they may go further.
    pub fn await_reach(&self, place: usize) {
        if let Some(door) = self.doors.get(place) {
            door.awaits.store(true, Ordering::SeqCst);
        }
    }

    /// Replies may go further: wakes the workers whose replies wait.
    pub fn tell_reach(&self) {
        for door in &self.doors {
            if door.awaits.swap(false, Ordering::SeqCst) {
                let _woken = door.waker.wake();
            }
        }
    }

    /// Returns true if wrong tokens may be reported now, which is once a second. If so, they count as reported.
    pub fn may_report(&self, now: u64) -> bool {
        let from = self.report_from.load(Ordering::SeqCst);
        let next = now.saturating_add(REPORTS);
        now >= from
            && self
                .report_from
                .compare_exchange(from, next, Ordering::SeqCst, Ordering::SeqCst)
                .is_ok()
    }

    /// Returns true if a client stays held back, apart from its time limit.
    pub fn holds(&self, place: usize, delay: Delay) -> bool {
        match delay {
            Delay::Pause { .. } | Delay::LogIn { .. } => true,
            Delay::Change { wanted, .. } => self.has_to_wait(place, wanted),
            Delay::Free | Delay::Over => false,
        }
    }

    // Wakes all workers.
    fn ring_all(&self) {
        for door in &self.doors {
            let _woken = door.waker.wake();
        }
    }
}
