//! The protocol that a client speaks.
ghost use Rattle.std.specs.Prelude.{◌≡◌};

use crate::hub::Connected;
use web_wire::{Frames, PageRequest};

/// The protocol that a client speaks.
#[derive(Drop)]
pub enum Protocol {
    /// Lines; replies are lines too.
    Lines,
    /// An HTTP request that is not yet complete.
    PageRequest(PageRequest),
    /// A request whose answer opens a socket, once it is admitted.
    Upgrading(PageRequest),
    /// The frames of a WebSocket. Each message is a line, and each reply a message.
    Socket(Frames),
    /// Nothing: a request was answered, and nothing more is read.
    Over,
}

impl Protocol {
    /// Returns the kind that its connection counts as: a client or a request for a page.
    pub fn connected(&self) -> Connected {
        match self {
            Protocol::Lines | Protocol::Socket(_) => Connected::Client,
            Protocol::PageRequest(_) | Protocol::Upgrading(_) | Protocol::Over =>
                Connected::PageRequest,
        }
    }

    /// Frees the memory that is not needed while nothing arrives.
    pub fn rest(&mut self)
        ensures { self.new ≡ self.old }
    {
        if let Protocol::Socket(frames) = self {
            frames.release();
        }
    }
}
