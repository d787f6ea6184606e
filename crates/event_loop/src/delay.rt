//! The delays that hold clients back: a pause around wrong tokens, or a wait for a pad to change.
ghost use Rattle.std.specs.Prelude.{◌≡◌};
ghost use Rattle.event_loop.specs.Delays.{held_by};

use crate::lobby::PATIENT;
use pad_core::{Act, Request};
use pad_model::Name;
use sessions::Session;
use std::alloc::Global;
use std::fmt::Formatter;
use std::{fmt, str};
use wire_json::read_request;

/// The reply to a wrong token.
pub const BAD_TOKEN: &[u8] = b"{\"code\":201,\"error\":\"BadToken\",\"ok\":false}\n";

/// The time for which the first such reply is held back, and the longest pause, in milliseconds.
const FIRST_PAUSE: u64 = 100;

const LONGEST_PAUSE: u64 = 3_000;

/// The longest wait that a request can ask for, in seconds.
const MOST_SECONDS: u64 = 60;

/// A longer line is never held back.
const LONGEST_LINE: usize = 1_024;

/// The delay that holds a client back, if any. Times are in milliseconds of a `Ticker`.
#[derive(Clone, Copy)]
pub enum Delay {
    /// It is not held back.
    Free,
    /// The reply to a wrong token, the last `bytes` of its replies, is held back.
    Pause { until: u64, bytes: usize },
    /// Its first line is a log-in, which waits because its address has sent wrong tokens.
    LogIn { until: u64 },
    /// Its first line waits for the pad at a cell to pass a revision.
    Change { wanted: Wanted, until: u64 },
    /// Its first line has waited long enough.
    Over,
}

impl Delay {
    /// The time at which the delay ends at the latest.
    pub fn until(self) -> Option<u64> {
        match self {
            Delay::Pause { until, .. } | Delay::LogIn { until } | Delay::Change { until, .. } => {
                Some(until)
            }
            Delay::Free | Delay::Over => None,
        }
    }

    /// Returns the number of bytes of the replies, the last ones, that are held back.
    pub fn held(self) -> usize
        ensures { result ≡ held_by self }
    {
        match self {
            Delay::Pause { bytes, .. } => bytes,
            _ => 0,
        }
    }
}

/// The change that a request waits for: a revision after `rev` of the pad at a cell, for at most this many seconds.
#[derive(Clone, Copy)]
pub struct Wanted {
    pub cell: u32,
    pub rev: u64,
    pub seconds: u64,
}

/// Returns the time for which the reply to the nth wrong token is held back, in milliseconds; None if it is not.
pub fn pause_after(failures: u32) -> Option<u64> {
    if failures < PATIENT {
        return None;
    }
    let mut pause = FIRST_PAUSE;
    for _failure in PATIENT..failures.min(PATIENT + 8) {
        pause = pause.saturating_mul(2);
    }
    Some(pause.min(LONGEST_PAUSE))
}

/// The author or peer that a line claims to be.
#[derive(Drop)]
pub enum LogIn {
    Author(Name),
    Peer(u64),
}

impl fmt::Display for LogIn {
    fn fmt<W: fmt::Write>(&self, f: &mut Formatter<W>) -> fmt::Result {
        match self {
            LogIn::Author(name) => f.write_str(name.as_str()),
            LogIn::Peer(number) => write!(f, "peer {number}"),
        }
    }
}

/// Returns the author or peer that a line logs in as, if it is a log-in.
pub fn claim_in(alloc: Global, line: &[u8]) -> Option<LogIn> {
    match read_request(alloc, line) {
        Ok(Request::Hello { name, .. }) => Some(LogIn::Author(name)),
        Ok(Request::Peer { number, .. }) => Some(LogIn::Peer(number)),
        _ => None,
    }
}

/// Returns the change that a line waits for, if it is a request that may be held back.
pub fn wanted_by(alloc: Global, line: &[u8], session: &Session) -> Option<Wanted> {
    if line.len() > LONGEST_LINE || !mentions_wait(line) {
        return None;
    }
    match read_request(alloc, line) {
        Ok(
            Request::On {
                pad,
                act: Act::Changes { rev, wait, .. },
            },
        ) if wait > 0 && wait <= MOST_SECONDS => {
            let room = session.room(pad.as_str())?;
            Some(Wanted {
                cell: room.cell,
                rev,
                seconds: wait,
            })
        }
        _ => None,
    }
}

// Returns true if a line has the field at all, so that other lines are not parsed twice.
fn mentions_wait(line: &[u8]) -> bool {
    match str::from_utf8(line) {
        Ok(text) => text.contains("\"wait\""),
        Err(_) => false,
    }
}
