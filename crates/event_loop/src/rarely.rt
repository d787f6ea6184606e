//! A limit on how often a message is logged.

/// Lets one message through in each period.
#[derive(Drop)]
pub struct Rarely {
    every: u64,
    last: Option<u64>,
}

impl Rarely {
    /// Lets one message through in this many milliseconds.
    pub fn new(every: u64) -> Rarely {
        Rarely { every, last: None }
    }

    /// Returns true if a message may be logged now; `now` is in milliseconds of a `Ticker`. If so, it counts as logged.
    pub fn is_due(&mut self, now: u64) -> bool {
        let is_due = match self.last {
            Some(last) => now.saturating_sub(last) >= self.every,
            None => true,
        };
        if is_due {
            self.last = Some(now);
        }
        is_due
    }
}
