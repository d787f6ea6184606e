//! The seat of the one connection over which copies come, and the promotion that takes it away.
use crate::taking::{Left, StandbyConversation};
use file_copies::told_line;
use std::alloc::Global;
use std::net::{Shutdown, TcpStream};
use std::sync::{Condvar, Mutex, Wait};

/// A conversation over a socket.
pub type SocketConversation = StandbyConversation<TcpStream, TcpStream>;

/// The holder of the seat, and whether anybody may take it.
#[derive(Drop)]
struct SeatState {
    // The conversation that takes the seat next.
    next: Option<SocketConversation>,
    // A second handle of the connection that takes the seat next, or else of the one that has it.
    socket: Option<TcpStream>,
    is_promoted: bool,
    // Nobody is let in any more.
    is_closed: bool,
    // Nobody has the seat, and nobody takes it any more.
    has_ended: bool,
    // It has ended because the store failed.
    has_failed: bool,
}

impl SeatState {
    // Breaks off the connection that has the seat or was to take it.
    fn break_off(&self) {
        if let Some(socket) = &self.socket {
            let _ended_already = socket.shutdown(Shutdown::Both);
        }
    }

    // Returns true if somebody may take the seat.
    fn is_open(&self) -> bool {
        !self.is_promoted && !self.is_closed
    }
}

/// The seat of a main server at its standby. One thread lets in whoever connects, and offers the seat to each main server. The
/// other takes the copies of who has it.
#[derive(Drop)]
pub struct CopyingSeat {
    state: Mutex<SeatState>,
    changed: Condvar,
}

impl CopyingSeat {
    /// Nobody has the seat.
    pub fn new() -> CopyingSeat {
        CopyingSeat {
            state: Mutex::new(SeatState {
                next: None,
                socket: None,
                is_promoted: false,
                is_closed: false,
                has_ended: false,
                has_failed: false,
            }),
            changed: Condvar::new(),
        }
    }

    /// Offers the seat, with a second handle of the connection. Whoever has it is broken off: a main server has one
    /// connection, so an older one is dead.
    pub fn offer<R: Wait>(&self, rt: &R, visitor: SocketConversation, socket: TcpStream) {
        let mut state = self.state.lock(rt);
        state.break_off();
        state.next = Some(visitor);
        state.socket = Some(socket);
        drop(state);
        self.changed.notify_all();
    }

    /// Leaves the seat, and waits for who takes it next. None: nobody does any more.
    pub fn next<R: Wait>(&self, rt: &R) -> Option<SocketConversation> {
        let mut state = self.state.lock(rt);
        if state.next.is_none() {
            state.socket = None;
        }
        let mut state = self
            .changed
            .wait_while(rt, state, |state| state.next.is_none() && state.is_open());
        if !state.is_open() {
            return None;
        }
        state.next.take()
    }

    /// Promotes the standby for whoever asks it, and answers that once no more copies are taken. It returns whether the standby
    /// is promoted, which it is not if its store fails meanwhile.
    pub fn promote<R: Wait>(
        &self,
        rt: &R,
        alloc: Global,
        visitor: &mut SocketConversation,
    ) -> Result<bool, Left> {
        let line = told_line(alloc)?;
        if !self.take_away(rt) {
            return Ok(false);
        }
        let _heard = visitor.say(line.as_str());
        Ok(true)
    }

    // Takes the seat away: once this returns, no more copies are taken. Returns whether the store has not failed.
    fn take_away<R: Wait>(&self, rt: &R) -> bool {
        let mut state = self.state.lock(rt);
        state.is_promoted = true;
        state.break_off();
        self.changed.notify_all();
        let state = self.changed.wait_while(rt, state, |state| !state.has_ended);
        !state.has_failed
    }

    /// Returns true if the standby is promoted.
    pub fn is_promoted<R: Wait>(&self, rt: &R) -> bool {
        self.state.lock(rt).is_promoted
    }

    /// Nobody is let in any more.
    pub fn close<R: Wait>(&self, rt: &R) {
        let mut state = self.state.lock(rt);
        state.is_closed = true;
        state.break_off();
        drop(state);
        self.changed.notify_all();
    }

    /// No more copies are taken, perhaps because the store has failed.
    pub fn end<R: Wait>(&self, rt: &R, has_failed: bool) {
        let mut state = self.state.lock(rt);
        state.has_ended = true;
        state.has_failed = has_failed;
        drop(state);
        self.changed.notify_all();
    }

    /// Returns true if no more copies are taken.
    pub fn has_ended<R: Wait>(&self, rt: &R) -> bool {
        self.state.lock(rt).has_ended
    }
}
