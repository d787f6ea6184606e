//! The readiness of a client's socket: whether a read may give something, by the reports of its poll and the result of
//! the last read.
//!
//! `mio` reports by edge-triggered epoll: a socket is reported again once more bytes come, or its end, or a failure. A
//! read of a stream that brings fewer bytes than there was room for has taken all that had come by then (epoll(7)). What
//! comes later is reported, so a further read, which would only be blocked, is left out.
//!
//! Two things are reported together with bytes that came before them, and then not again: that no more bytes come, and
//! urgent bytes, at which a read stops short. Once one of them was reported, or a failure, reads go on until one is blocked.
ghost use Rattle.std.specs.Prelude.{◌≡◌, ◌<◌, true, false};

/// The readiness of a socket: whether a read may give something.
#[derive(Clone, Copy)]
pub struct Readiness {
    is_readable: bool,
    /// True if the last read took all that had come.
    is_drained: bool,
    /// True if a short read may have left something that is not reported again.
    reads_on: bool,
}

impl Readiness {
    /// A socket that was not read since it was registered. What it has already is reported at the next poll.
    pub fn new() -> Readiness
        ensures { (result.is_drained ≡ false) × (result.reads_on ≡ false) }
    {
        Readiness {
            is_readable: true,
            is_drained: false,
            reads_on: false,
        }
    }

    /// Notes that the socket was reported. `reads_on`: its end, a failure or urgent bytes were reported with it.
    pub fn note_report(&mut self, reads_on: bool)
        ensures reads { (self.new.is_readable ≡ true) × (self.new.is_drained ≡ false) }
        ensures reads_on { reads_on ≡ true → self.new.reads_on ≡ true }
        ensures stays { self.old.reads_on ≡ true → self.new.reads_on ≡ true }
    {
        self.is_readable = true;
        self.is_drained = false;
        self.reads_on = self.reads_on || reads_on;
    }

    /// Notes that a read brought `came` bytes, and had room for `room`.
    pub fn note_read(&mut self, came: usize, room: usize)
        ensures drained { self.new.is_drained ≡ true → (came < room) × (self.old.reads_on ≡ false) }
        ensures rest { self.new ≡ record self.old { is_drained = self.new.is_drained } }
    {
        self.is_drained = came < room && !self.reads_on;
    }

    /// Notes that a read was blocked.
    pub fn note_blocked(&mut self)
        ensures { self.new ≡ record self.old { is_readable = false } }
    {
        self.is_readable = false;
    }

    /// Returns true if a read may give something, as far as is known.
    pub fn is_readable(&self) -> bool
        ensures { result ≡ self.now.is_readable }
    {
        self.is_readable
    }

    /// Returns true if a read is to be made now. If the last read took all that had come, the next one counts as
    /// blocked without being made.
    pub fn takes_read(&mut self) -> bool
        ensures readable { result ≡ self.new.is_readable }
        ensures blocked { self.old.is_drained ≡ true → result ≡ false }
        ensures other { self.old.is_drained ≡ false → self.new ≡ self.old }
    {
        if self.is_drained {
            self.note_blocked();
        }
        self.is_readable
    }
}
