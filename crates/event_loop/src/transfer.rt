//! Bytes from a socket to whatever takes them, and back.
ghost use Rattle.std.specs.Prelude.{◌≡◌, ◌≢◌, ◌⊎◌, ◌<◌, ◌≤◌, ◌++◌, ℕ, List, Ok, OnErr, OnOk, drop, length, min};
ghost use Rattle.std.specs.Io.KnownBytes.{IsAtEnd};
ghost use Rattle.conversation.specs.Talk.{unwritten, waits};
ghost use Rattle.event_loop.specs.Transfers.{Gives, Gets};

use crate::byte_socket::ByteSocket;
use conversation::Conversation;
use std::io;
use std::io::ErrorKind;
use web_wire::{Frames, PageRequest};
use wire_lines::Fault;

/// A receiver of bytes: lines, the frames of a WebSocket, or an HTTP request.
pub trait Intake {
    /// The bytes that arrived and were not yet used.
    ghost waiting: { Self → List ℕ };

    /// Everything except those bytes is unchanged.
    ghost keeps: { Self → Self → Type 0 };

    /// Appends bytes to those that wait; if memory runs out, none of them.
    fn take(&mut self, bytes: &[u8]) -> Result<(), Fault>
        ensures bytes { OnOk result (waiting self.new ≡ waiting self.old ++ bytes.now) }
        ensures keeps { keeps self.old self.new }
        ensures err { OnErr result (self.new ≡ self.old) };
}

impl Intake for Conversation {
    ghost waiting = { λ talk. talk.waiting };

    ghost keeps = { λ old new. new ≡ waits old new.waiting };

    fn take(&mut self, bytes: &[u8]) -> Result<(), Fault> {
        self.receive(bytes)
    }
}

impl Intake for Frames {
    ghost waiting = { λ socket. socket.waiting };

    ghost keeps = { λ old new. new ≡ record old { waiting = new.waiting } };

    fn take(&mut self, bytes: &[u8]) -> Result<(), Fault> {
        Ok(self.feed(bytes)?)
    }
}

impl Intake for PageRequest {
    ghost waiting = { λ request. request.input };

    ghost keeps = { λ old new. new ≡ record old { input = new.input } };

    fn take(&mut self, bytes: &[u8]) -> Result<(), Fault> {
        Ok(self.feed(bytes)?)
    }
}

/// The outcome of one call of a socket.
#[derive(Clone, Copy, Debug, PartialEq, Eq)]
pub enum Transfer {
    /// Bytes were transferred.
    Passed,
    /// None were transferred, and the call may be repeated.
    Again,
    /// None can be transferred now. The socket reports when some can.
    Blocked,
    /// No more bytes arrive, or none are left to be written.
    Over,
}

/// The reason why a client can no longer be served.
#[derive(Clone, Copy)]
pub struct BrokenSocket {
    pub fault: Fault,
    /// The system's error, if the socket failed.
    pub cause: Option<io::Error>,
}

/// Reads once, and gives the bytes to the receiver. The chunk may hold earlier bytes of other clients. If memory runs out,
/// the bytes are lost.
pub fn read_into<I: Intake, K: ByteSocket>(
    intake: &mut I,
    socket: &mut K,
    chunk: &mut [u8],
) -> Result<Transfer, BrokenSocket>
    ensures keeps { OnOk result ((intake.new ≡ intake.old) ⊎ I.keeps intake.old intake.new) }
    ensures gives { OnOk result (Gives (K.unread socket.old) (I.waiting intake.old)
        (K.unread socket.new) (I.waiting intake.new)) }
    ensures over { result ≡ Ok Transfer.Over → 0 < length chunk.new → IsAtEnd (K.unread socket.new) }
    ensures passed { result ≢ Ok Transfer.Passed → intake.new ≡ intake.old }
    ensures written { K.written socket.new ≡ K.written socket.old }
{
    match socket.receive(chunk) {
        Ok(0) => Ok(Transfer::Over),
        Ok(count) => match intake.take(&chunk[..count]) {
            Ok(()) => Ok(Transfer::Passed),
            Err(fault) => Err(BrokenSocket { fault, cause: None }),
        },
        Err(error) => without_bytes(error, Fault::ReadFault),
    }
}

/// Writes once, as many of a conversation's replies as the socket takes, except the last `held` bytes.
pub fn write_from<K: ByteSocket>(
    conversation: &mut Conversation,
    socket: &mut K,
    held: usize,
) -> Result<Transfer, BrokenSocket>
    ensures only { conversation.new ≡ unwritten conversation.old conversation.new.replies }
    ensures gets { Gets (K.written socket.old) conversation.old.replies (K.written socket.new)
        conversation.new.replies }
    ensures held { min held (length conversation.old.replies) ≤ length conversation.new.replies }
    ensures err { OnErr result (conversation.new ≡ conversation.old) }
    ensures unread { K.unread socket.new ≡ K.unread socket.old }
{
    let replies = conversation.replies();
    let free = replies.len().saturating_sub(held);
    if free == 0 {
        return Ok(Transfer::Over);
    }
    match socket.send(&replies[..free]) {
        Ok(0) => Err(BrokenSocket {
            fault: Fault::WriteFault,
            cause: None,
        }),
        Ok(count) => {
            conversation.sent(count);
            Ok(Transfer::Passed)
        }
        Err(error) => without_bytes(error, Fault::WriteFault),
    }
}

/// Writes once, as many of the unsent bytes as the socket takes.
pub fn write_rest<K: ByteSocket>(
    bytes: &[u8],
    sent: &mut usize,
    socket: &mut K,
) -> Result<Transfer, BrokenSocket>
    ensures gets { Gets (K.written socket.old) (drop sent.old bytes.now) (K.written socket.new)
        (drop sent.new bytes.now) }
    ensures within { sent.old ≤ length bytes.now → sent.new ≤ length bytes.now }
    ensures err { OnErr result (sent.new ≡ sent.old) }
    ensures unread { K.unread socket.new ≡ K.unread socket.old }
{
    let from = *sent;
    if from >= bytes.len() {
        return Ok(Transfer::Over);
    }
    match socket.send(&bytes[from..]) {
        Ok(0) => Err(BrokenSocket {
            fault: Fault::WriteFault,
            cause: None,
        }),
        Ok(count) => {
            *sent = from + count;
            Ok(Transfer::Passed)
        }
        Err(error) => without_bytes(error, Fault::WriteFault),
    }
}

// The outcome of a call that failed with this error.
fn without_bytes(error: io::Error, fault: Fault) -> Result<Transfer, BrokenSocket>
    ensures { result ≢ Ok Transfer.Over }
{
    match error.kind() {
        ErrorKind::WouldBlock => Ok(Transfer::Blocked),
        ErrorKind::Interrupted => Ok(Transfer::Again),
        _ => Err(BrokenSocket {
            fault,
            cause: Some(error),
        }),
    }
}
