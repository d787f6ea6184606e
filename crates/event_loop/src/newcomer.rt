//! A client until it has logged in: how long a line it may send, and whether its log-in has to wait.
ghost use Rattle.std.specs.Prelude.{◌≡◌, ◌⊎◌, ◌+◌, ◌≤◌, true, false, IfSome};
ghost use Rattle.event_loop.specs.Newcomers.{is_nobody};
ghost use Rattle.event_loop.specs.declared.limits.TheConstants.{UNFINISHED};

use crate::client::{Client, Phase};
use crate::delay::{Delay, claim_in, pause_after};
use crate::limits::{CHUNK, UNFINISHED};
use crate::lobby::{Lobby, PATIENT};
use crate::protocol::Protocol;
use pad_model::Who;
use std::alloc::Global;
use std::sync::Wait;

/// The state that is kept about a client because it has not logged in.
#[derive(Clone, Copy)]
pub struct Newcomer {
    /// True if the lobby counts it.
    pub is_counted: bool,
    /// The bytes that have come since its last whole line.
    pub unfinished: usize,
    /// True if it is one of those that may send a long line.
    pub may_be_long: bool,
    /// True if it is not read until it may send a long line.
    pub is_stalled: bool,
}

impl Newcomer {
    /// A client that has sent nothing.
    pub fn new(is_counted: bool) -> Newcomer {
        Newcomer {
            is_counted,
            unfinished: 0,
            may_be_long: false,
            is_stalled: false,
        }
    }

    /// Notes that this many bytes came.
    pub fn note_read(&mut self, came: usize) {
        self.unfinished = self.unfinished.saturating_add(came);
    }
}

impl Client {
    /// Returns true if nobody has logged in.
    pub(crate) fn is_nobody(&self) -> bool
        ensures { result ≡ is_nobody self.now.party.session.who }
    {
        match self.party.session().who() {
            Who::Nobody => true,
            _ => false,
        }
    }

    /// The most bytes that may be read now. None: the client has not logged in, has begun a line of more than
    /// `UNFINISHED` bytes, and as many others as may have done so too. It is asked again after a while.
    pub(crate) fn may_read(&mut self, lobby: &Lobby) -> Option<usize>
        ensures bounded { IfSome result (λ most. (is_nobody self.old.party.session.who ≡ false)
            ⊎ ((self.new.newcomer.may_be_long ≡ true)
            ⊎ (most + self.old.newcomer.unfinished ≤ UNFINISHED))) }
    {
        if !self.is_nobody() {
            return Some(CHUNK);
        }
        let room = UNFINISHED.saturating_sub(self.newcomer.unfinished);
        if room > 0 {
            return Some(room);
        }
        if self.newcomer.may_be_long || lobby.begin_long() {
            self.newcomer.may_be_long = true;
            return Some(CHUNK);
        }
        self.newcomer.is_stalled = true;
        None
    }

    /// Notes that a line was answered: the bytes that wait now are the beginning of the next one.
    pub(crate) fn note_answered(&mut self) {
        self.newcomer.unfinished = self.waiting();
    }

    /// The bytes that wait to be answered, or to become a line.
    pub(crate) fn waiting(&self) -> usize {
        let lines = self.party.waiting();
        match self.party.protocol() {
            Protocol::Socket(frames) => lines.saturating_add(frames.len()),
            _ => lines,
        }
    }

    /// Gives back to the lobby what the client no longer needs: its place, if it has logged in, and the leave to send a
    /// long line, once it was sent.
    pub(crate) fn review(&mut self, lobby: &Lobby) {
        let has_logged_in = !self.is_nobody();
        if has_logged_in || self.newcomer.unfinished < UNFINISHED {
            self.give_back_long(lobby);
        }
        if has_logged_in {
            self.give_back_place(lobby);
        }
    }

    /// Gives back everything to the lobby, since the connection ends.
    pub fn leave_lobby(&mut self, lobby: &Lobby) {
        self.give_back_long(lobby);
        self.give_back_place(lobby);
    }

    fn give_back_long(&mut self, lobby: &Lobby) {
        if self.newcomer.may_be_long {
            self.newcomer.may_be_long = false;
            lobby.end_long();
        }
    }

    fn give_back_place(&mut self, lobby: &Lobby) {
        if self.newcomer.is_counted {
            self.newcomer.is_counted = false;
            lobby.leave();
        }
    }

    /// Ends a stall, so that the client asks again whether it may be read. Returns whether the caller has to queue it.
    pub fn end_stall(&mut self) -> bool {
        if !self.newcomer.is_stalled {
            return false;
        }
        self.newcomer.is_stalled = false;
        self.queue()
    }

    /// Returns true if the next line may be a log-in, after wrong tokens have come to the server.
    pub(crate) fn is_knocking(&self, alloc: Global, lobby: &Lobby) -> bool {
        if !lobby.has_wrong() || !self.is_nobody() {
            return false;
        }
        match self.party.first_line() {
            Some(line) => line.len() > UNFINISHED || claim_in(alloc, line).is_some(),
            None => self.phase == Phase::Ended && self.party.waiting() > 0,
        }
    }

    /// Holds back a log-in if its address has sent wrong tokens lately. Returns the time until which it does, or None
    /// if the line can be answered.
    pub fn knock<R: Wait>(&mut self, rt: &R, lobby: &Lobby, now: u64) -> Option<u64> {
        let tokens = lobby.wrong_of(rt, self.address(), now);
        if tokens < PATIENT {
            self.delay = Delay::Over;
            return None;
        }
        let pause = pause_after(tokens.saturating_add(1)).unwrap_or(0);
        let until = now.saturating_add(pause);
        self.delay = Delay::LogIn { until };
        Some(until)
    }
}
