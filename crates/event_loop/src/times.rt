//! The time limits of a client.
use crate::limits::PATIENCE;
use std::mem;

/// The time limit that a client has exceeded.
#[derive(Clone, Copy)]
pub enum Late {
    /// It has not sent a line for too long.
    Silent,
    /// It has not taken any of its replies for too long.
    Unread,
    /// It has not logged in, or has not sent its HTTP request.
    Nobody,
}

/// The times at which a client was last active, in milliseconds of a `Ticker`.
///
/// An event between two checks sets a flag, and gets the time of the next check. So it needs no reading of the clock.
#[derive(Clone, Copy)]
pub struct Times {
    came: Option<u64>,
    asked: u64,
    took: u64,
    has_asked: bool,
    has_taken: bool,
}

impl Times {
    /// The times of a client that has just arrived.
    pub fn new() -> Times {
        Times {
            came: None,
            asked: 0,
            took: 0,
            has_asked: true,
            has_taken: true,
        }
    }

    /// Notes that a line was answered.
    pub fn note_line(&mut self) {
        self.has_asked = true;
    }

    /// Notes that the client took some of its replies.
    pub fn note_taken(&mut self) {
        self.has_taken = true;
    }

    /// The limit that the client has exceeded at this check. `owes`: replies wait to be written; `patience`: how long
    /// it may be connected before it logs in; `idle`: how long it may be silent.
    pub fn check(
        &mut self,
        now: u64,
        owes: bool,
        patience: Option<u64>,
        idle: Option<u64>,
    ) -> Option<Late> {
        let came = *self.came.get_or_insert(now);
        if mem::replace(&mut self.has_asked, false) {
            self.asked = now;
        }
        if mem::replace(&mut self.has_taken, false) || !owes {
            self.took = now;
        }
        if now.saturating_sub(self.took) >= PATIENCE {
            return Some(Late::Unread);
        }
        if patience.is_some_and(|patience| now.saturating_sub(came) >= patience) {
            return Some(Late::Nobody);
        }
        match idle {
            Some(idle) if now.saturating_sub(self.asked) >= idle => Some(Late::Silent),
            _ => None,
        }
    }
}
