//! The time of a thread, which reads the clock as seldom as possible.
use std::time::{Clock, Duration, Instant};

/// The number of busy turns after which the clock is read.
const TURNS: u32 = 4;

/// The milliseconds since the server started, at the last reading of the clock.
#[derive(Drop)]
pub struct Ticker {
    began: Option<Instant>,
    now: u64,
    turns: u32,
}

impl Ticker {
    /// Counts from the start of the server. None: the clock failed, and no time passes.
    pub fn new(began: Option<Instant>) -> Ticker {
        Ticker {
            began,
            now: 0,
            turns: 0,
        }
    }

    /// Reads the clock, and returns the milliseconds since the start.
    pub fn look<C: Clock>(&mut self, clock: &C) -> u64 {
        self.turns = 0;
        if let (Some(began), Ok(now)) = (self.began, Instant::now(clock)) {
            self.now = millis(now.saturating_duration_since(began));
        }
        self.now
    }

    /// Returns true if the clock is to be read in this turn: nothing was reported, or it has not been read for some
    /// turns.
    pub fn is_due(&mut self, was_idle: bool) -> bool {
        self.turns = self.turns.saturating_add(1);
        was_idle || self.turns >= TURNS
    }
}

/// The milliseconds of a duration.
pub fn millis(time: Duration) -> u64 {
    time.as_secs()
        .saturating_mul(1_000)
        .saturating_add(u64::from(time.subsec_millis()))
}
