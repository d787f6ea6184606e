//! The counts of the threads that serve clients.
use crate::counter::Counter;
use crate::refusals::{RefusalCounts, code_of_reply};
use std::alloc::{AllocError, Global};

/// The counts of the threads that serve clients.
#[derive(Drop)]
pub struct ClientCounts {
    /// Connections that browsers opened.
    pub page_connections: Counter,
    /// Visits that clients have now.
    pub visits: Counter,
    /// The pads of the server.
    pub pads: Counter,
    /// Operations that were delivered on pads.
    pub operations: Counter,
    requests: Counter,
    refusals: RefusalCounts,
}

impl ClientCounts {
    /// Nothing is counted yet.
    pub fn new(alloc: Global) -> Result<ClientCounts, AllocError> {
        Ok(ClientCounts {
            page_connections: Counter::new(),
            visits: Counter::new(),
            pads: Counter::new(),
            operations: Counter::new(),
            requests: Counter::new(),
            refusals: RefusalCounts::new(alloc)?,
        })
    }

    /// Counts the answer to a line, by its reply. An empty line has an empty one, and is not counted.
    pub fn note_reply(&self, reply: &[u8]) {
        if reply.is_empty() {
            return;
        }
        self.requests.add_one();
        if let Some(code) = code_of_reply(reply) {
            self.refusals.note(code);
        }
    }

    /// Counts the visits of a client: it had `before`, and has `now`.
    pub fn note_visits(&self, before: usize, now: usize) {
        if now > before {
            self.visits.add((now - before) as u64);
        } else if now < before {
            self.visits.take((before - now) as u64);
        }
    }

    /// The lines that were answered.
    pub fn requests(&self) -> u64 {
        self.requests.read()
    }

    /// The lines that were refused.
    pub fn refusals(&self) -> &RefusalCounts {
        &self.refusals
    }
}
