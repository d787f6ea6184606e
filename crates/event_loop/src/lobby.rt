//! The state that the threads of a server share about clients that have not logged in, and about the sources of
//! connections.
use crate::limits::MOST_LONG;
use admission::{Connections, WrongTokens};
use pad_model::Name;
use std::alloc::{AllocError, Global};
use std::sync::atomic::{AtomicBool, AtomicU64, Ordering};
use std::sync::{Mutex, Wait};

/// The number of the first wrong token that makes later log-ins wait.
pub const PATIENT: u32 = 3;

/// The counts of wrong tokens, including the one that was noted.
#[derive(Clone, Copy)]
pub struct Noted {
    /// Those of its address, in the last ten minutes or so.
    pub of_address: u32,
    /// Those for its name, likewise.
    pub for_name: u32,
    /// All since the server started.
    pub total: u64,
}

/// The clients that have not logged in, and the addresses that connections and wrong tokens come from.
#[derive(Drop)]
pub struct Lobby {
    /// The number of connected clients that have not logged in.
    newcomers: AtomicU64,
    /// The number of these that may send a line beyond `UNFINISHED` bytes.
    long: AtomicU64,
    /// True if there has been a wrong token.
    has_wrong: AtomicBool,
    wrong: Mutex<WrongTokens>,
    connections: Mutex<Connections>,
}

impl Lobby {
    /// The lobby of a server without connections.
    pub fn new(alloc: Global) -> Result<Lobby, AllocError> {
        Ok(Lobby {
            newcomers: AtomicU64::new(0),
            long: AtomicU64::new(0),
            has_wrong: AtomicBool::new(false),
            wrong: Mutex::new(WrongTokens::new(alloc)?),
            connections: Mutex::new(Connections::new(alloc)),
        })
    }

    /// Returns true if there is room for one more client that has not logged in, with at most `most` in all.
    pub fn has_room(&self, most: u32) -> bool {
        self.newcomers.load(Ordering::SeqCst) < u64::from(most)
    }

    /// Counts one more client that has not logged in.
    pub fn enter(&self) {
        self.newcomers.fetch_add(1, Ordering::SeqCst);
    }

    /// Counts one more client that has not logged in; returns false if there are `most` already.
    pub fn admit(&self, most: u32) -> bool {
        if self.newcomers.fetch_add(1, Ordering::SeqCst) >= u64::from(most) {
            self.leave();
            return false;
        }
        true
    }

    /// Counts one client less: it has logged in, or its connection has ended.
    pub fn leave(&self) {
        self.newcomers.fetch_sub(1, Ordering::SeqCst);
    }

    /// Lets a client that has not logged in send a long line; returns false if `MOST_LONG` others may already.
    pub fn begin_long(&self) -> bool {
        if self.long.fetch_add(1, Ordering::SeqCst) >= MOST_LONG {
            self.end_long();
            return false;
        }
        true
    }

    /// Notes that a client that might send a long line has sent it, has logged in, or has gone.
    pub fn end_long(&self) {
        self.long.fetch_sub(1, Ordering::SeqCst);
    }

    /// Counts one more connection of an address; returns false if it has `most` already.
    pub fn connect<R: Wait>(&self, rt: &R, address: u128, most: u32) -> Result<bool, AllocError> {
        let mut connections = self.connections.lock(rt);
        connections.enter(address, most)
    }

    /// Counts one connection of an address less.
    pub fn disconnect<R: Wait>(&self, rt: &R, address: u128) {
        self.connections.lock(rt).leave(address);
    }

    /// Returns the number of wrong tokens that came from an address lately.
    pub fn wrong_of<R: Wait>(&self, rt: &R, address: u128, now: u64) -> u32 {
        self.wrong.lock(rt).of_address(address, now)
    }

    /// Returns true if there has been a wrong token at all. As long as there was none, no log-in is looked at twice.
    pub fn has_wrong(&self) -> bool {
        self.has_wrong.load(Ordering::SeqCst)
    }

    /// Notes a wrong token from an address, for a name if the client gave one. If memory runs out, it counts in the
    /// total.
    pub fn note_wrong<R: Wait>(
        &self,
        rt: &R,
        address: u128,
        name: Option<Name>,
        now: u64,
    ) -> Noted {
        self.has_wrong.store(true, Ordering::SeqCst);
        let mut wrong = self.wrong.lock(rt);
        let of_address = wrong.note_address(address, now).unwrap_or(PATIENT);
        let for_name = match name {
            Some(name) => wrong.note_name(name, now).unwrap_or(PATIENT),
            None => 0,
        };
        Noted {
            of_address,
            for_name,
            total: wrong.total(),
        }
    }
}
