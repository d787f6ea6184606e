//! The status of a server, as reported at the address of its status.
use event_loop::Hub;
use server_counts::{Build, ClientNumbers, Numbers};
use std::alloc::{AllocError, Global};
use std::fs;
use std::sync::Wait;
use std::sync::atomic::{AtomicBool, Ordering};
use std::time::{Clock, Instant};
use store_files::Keeper;

/// The bytes of a page of memory on x86-64.
const PAGE_BYTES: u64 = 4_096;

/// The file in which the system says how much memory the process has. Its second word are the pages in RAM.
const MEMORY: &str = "/proc/self/statm";

/// The sources of the status, besides the hub.
#[derive(Drop)]
pub struct StatusBoard<'a> {
    // Reads how much memory the process has.
    files: HostRuntime,
    build: Build<'a>,
    keeper: Option<&'a Keeper>,
    // True if nobody is served yet, because the standby lacks something.
    waits: AtomicBool,
    // True if the server ends.
    is_ending: AtomicBool,
}

/// The health of a server: it serves, or the reason why it does not.
#[derive(Clone, Copy, PartialEq, Eq)]
pub enum Health {
    Serves,
    StoreFailed,
    StandbyLost,
    Waits,
    Ends,
}

impl Health {
    /// The line that says it.
    pub fn text(self) -> &'static str {
        match self {
            Health::Serves => "ok\n",
            Health::StoreFailed => "the store has failed\n",
            Health::StandbyLost => "the standby does not answer\n",
            Health::Waits => "the server waits for its standby\n",
            Health::Ends => "the server is stopping\n",
        }
    }
}

impl<'a> StatusBoard<'a> {
    /// Of a server that begins to serve.
    pub fn new(
        files: HostRuntime,
        build: Build<'a>,
        keeper: Option<&'a Keeper>,
    ) -> StatusBoard<'a> {
        StatusBoard {
            files,
            build,
            keeper,
            waits: AtomicBool::new(false),
            is_ending: AtomicBool::new(false),
        }
    }

    /// The keeper of the store, if there is one.
    pub fn keeper(&self) -> Option<&Keeper> {
        self.keeper
    }

    /// Notes whether the server waits for its standby before it serves anyone.
    pub fn set_waiting(&self, waits: bool) {
        self.waits.store(waits, Ordering::SeqCst);
    }

    /// Notes that the server ends.
    pub fn set_ending(&self) {
        self.is_ending.store(true, Ordering::SeqCst);
    }

    /// The health of the server now.
    pub fn health(&self, hub: &Hub) -> Health {
        if self.keeper.is_some_and(Keeper::has_lost_standby) {
            Health::StandbyLost
        } else if self.keeper.is_some_and(Keeper::has_failed) {
            Health::StoreFailed
        } else if hub.has_stopped() || self.is_ending.load(Ordering::SeqCst) {
            Health::Ends
        } else if self.waits.load(Ordering::SeqCst) {
            Health::Waits
        } else {
            Health::Serves
        }
    }

    /// A snapshot of all counts. They are read one after the other, so a request that is answered meanwhile may be in some
    /// of them and not in others.
    pub fn numbers<R: AllocGlobal + Clock + Wait>(
        &self,
        rt: &R,
        hub: &Hub,
    ) -> Result<Numbers<'_>, AllocError> {
        let alloc = rt.alloc();
        let counts = hub.counts();
        Ok(Numbers {
            build: self.build,
            uptime_seconds: uptime_of(rt, hub),
            resident_bytes: self.resident_bytes(),
            clients: ClientNumbers {
                clients: hub.clients(),
                page_requests: hub.page_requests(),
                page_connections: counts.page_connections.read(),
                pads: counts.pads.read(),
                requests: counts.requests(),
                operations: counts.operations.read(),
                visits: counts.visits.read(),
                refusals: counts.refusals().list(alloc)?,
            },
            store: match self.keeper {
                Some(keeper) => Some(keeper.numbers(rt, alloc)?),
                None => None,
            },
        })
    }

    // The memory of the process that is in RAM; None if the system does not say.
    fn resident_bytes(&self) -> Option<u64> {
        let text = fs::read_to_string(&self.files, MEMORY).ok()?;
        let pages = text.split_whitespace().nth(1)?.parse::<u64>().ok()?;
        Some(pages.saturating_mul(PAGE_BYTES))
    }
}

// The seconds since the server began to serve; 0 if the clock failed.
fn uptime_of<C: Clock>(clock: &C, hub: &Hub) -> u64 {
    match (hub.began(), Instant::now(clock)) {
        (Some(began), Ok(now)) => now.saturating_duration_since(began).as_secs(),
        _ => 0,
    }
}
