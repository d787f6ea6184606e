//! ProgressReport messages on standard error.
use std::io::Eprint;
use std::time::{Clock, Instant};

/// Reports progress once a second.
#[derive(Drop)]
pub struct ProgressReport {
    last: Option<Instant>,
}

impl ProgressReport {
    /// Starts to count the seconds. Without a clock, nothing is reported.
    pub fn start<C: Clock>(clock: &C) -> ProgressReport {
        ProgressReport {
            last: Instant::now(clock).ok(),
        }
    }

    /// Prints how much of everything is done, if a second has passed since the start or the last message.
    pub fn report<R: Clock + Eprint>(&mut self, rt: &R, what: &str, done: u64, all: u64) {
        if self.is_due(rt) {
            let _told = eprintln!(rt; "pad_store: {what} {done} of {all}");
        }
    }

    // Returns true if a second has passed. If so, the next one begins.
    fn is_due<C: Clock>(&mut self, clock: &C) -> bool {
        let (Some(last), Ok(now)) = (self.last, Instant::now(clock)) else {
            return false;
        };
        if now.saturating_duration_since(last).as_secs() < 1 {
            return false;
        }
        self.last = Some(now);
        true
    }
}
