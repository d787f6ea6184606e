//! A client: its socket, its protocol, its conversation and its session. Nothing else can change these, so whatever a
//! worker does, the bytes that the socket gave and those that it got are a course of the client's session.
ghost use Rattle.std.specs.Prelude.{◌≡◌, ◌≢◌, ◌⊎◌, ◌<◌, ◌≤◌, [], true, false, drop, length, min, nat_le, Ok, IfErr, IfOk, IfSome, IfNone, OnOk};
ghost use Rattle.conversation.specs.ThreadSession.{EndsRow, lent};
ghost use Rattle.conversation.specs.Talk.{silent};
ghost use Rattle.wire_lines.specs.Buffer.{IsPart, ShowsBefore};
ghost use Rattle.wire_lines.specs.Lines.{behind_line};
ghost use Rattle.wire_lines.specs.Splitter.{has_line};
ghost use Rattle.wire_lines.specs.declared.buffer.FoundLine.TheVariants as found;
ghost use Rattle.pad_model.specs.declared.who.Who.TheVariants as Who;
ghost use Rattle.event_loop.specs.Party.{Board, Goes, PutsOut};

mod user;
mod web;

use crate::byte_socket::ByteSocket;
use crate::outbox::Outbox;
use crate::protocol::Protocol;
use crate::settle::Settle;
use crate::transfer::{BrokenSocket, Transfer, read_into, write_from, write_rest};
use conversation::{Conversation, Gate, LineOutcome, Shared};
use mio::net::TcpStream;
use mio::{Interest, Registry, Token};
use pad_model::Sequence;
use sessions::{Session, Stranger};
use std::alloc::Global;
use std::io;
use std::marker::Model;
use std::net::SocketAddr;
use std::sync::Wait;
use wire_lines::{Fault, MAX_LINE};

/// The stage that a client has reached.
#[derive(Clone, Copy, Debug, PartialEq, Eq)]
pub enum Stage {
    /// It is read and answered.
    Talks,
    /// It is neither read nor answered any more, and gets what it is owed.
    Ends,
    /// Nothing more is read or written.
    Over,
}

/// A client of a worker, over any kind of socket.
#[derive(Drop)]
pub struct Party<K: ByteSocket> {
    socket: K,
    stage: Stage,
    protocol: Protocol,
    /// The bytes to be written to a browser. Replies to a client that speaks lines are written directly from its
    /// conversation.
    outbox: Outbox,
    conversation: Conversation,
    session: Session,
    /// The reason why the user of its request was no author, until the worker has noted it.
    stranger: Option<Stranger>,
}

impl<K: ByteSocket> Model for Party<K> {
    ghost use Rattle.std.specs.Prelude.{◌≤◌, drop, length};
    ghost use Rattle.event_loop.specs.Party.{Board, IsIdle};

    ghost Value = { Board };

    ghost view = { λ p. record {
      stage = p.stage;
      protocol = p.protocol;
      session = p.session;
      talk = p.conversation;
      outbox = drop p.outbox.sent p.outbox.bytes.items;
      unread = K.unread p.socket;
      written = K.written p.socket;
    } };

    ghost invariant = { λ p. (p.outbox.sent ≤ length p.outbox.bytes.items)
        × IsIdle p.protocol p.outbox.bytes.items };
}

impl<K: ByteSocket> Party<K> {
    /// A client that has just connected: nothing was read or written, and nobody has logged in. It allocates no memory.
    pub fn new(alloc: Global, socket: K, protocol: Protocol) -> Party<K>
        ensures { result ≡ record {
          stage = Stage.Talks;
          protocol = protocol;
          session = record { who = Who.Nobody; rooms = []; spare = 0 };
          talk = silent;
          outbox = [];
          unread = K.unread socket;
          written = K.written socket;
        } }
    {
        Party {
            socket,
            stage: Stage::Talks,
            protocol,
            outbox: Outbox::new(alloc),
            conversation: Conversation::new(alloc),
            session: Session::new(alloc),
            stranger: None,
        }
    }

    /// Reads once, into a buffer whose first bytes are used. If the read fails, or memory runs out, the client is over.
    pub fn read(&mut self, chunk: &mut [u8]) -> Result<Transfer, BrokenSocket>
        ensures { Goes self.old self.new }
    {
        if self.stage != Stage::Talks {
            return Ok(Transfer::Over);
        }
        let read = match &mut self.protocol {
            Protocol::Lines => read_into(&mut self.conversation, &mut self.socket, chunk),
            Protocol::PageRequest(request) => read_into(request, &mut self.socket, chunk),
            Protocol::Socket(frames) => read_into(frames, &mut self.socket, chunk),
            Protocol::Upgrading(_) | Protocol::Over => return Ok(Transfer::Over),
        };
        if read.is_err() {
            self.stage = Stage::Over;
        }
        read
    }

    /// Answers the first line with a thread's seats. `Full`: no more is answered until some replies are written. If
    /// memory runs out, nothing was answered.
    pub fn answer<S: Sequence, R: Wait, G: Gate>(
        &mut self,
        alloc: Global,
        pads: &mut Shared<'_, S, R, G>,
        connection: u64,
    ) -> Result<LineOutcome, Fault>
        ensures goes { Goes self.old self.new }
        ensures waits { result ≡ Ok LineOutcome.Waits → IsPart self.new.talk.waiting
            × (self.new ≡ self.old) }
        ensures fault { IfErr result (λ fault. fault ≡ Fault.Memory) }
    {
        if self.stage != Stage::Talks || self.conversation.is_cut() {
            return Ok(LineOutcome::Cut);
        }
        pads.answer(alloc, &mut self.session, &mut self.conversation, connection)
    }

    /// Answers the last line, which has no line feed, since no more bytes come. Returns whether there was one. Call it if
    /// no whole line waits and no reply is owed.
    pub fn answer_last<S: Sequence, R: Wait, G: Gate>(
        &mut self,
        alloc: Global,
        pads: &mut Shared<'_, S, R, G>,
        connection: u64,
    ) -> Result<bool, Fault>
        requires part { IsPart self.old.talk.waiting }
        ensures goes { Goes self.old self.new }
        ensures fault { IfErr result (λ fault. fault ≡ Fault.Memory) }
    {
        if self.conversation.is_cut() || self.stage != Stage::Talks {
            return Ok(false);
        }
        if !self.conversation.replies().is_empty() {
            return Ok(false);
        }
        let told = pads.answer_last(alloc, &mut self.session, &mut self.conversation, connection)?;
        self.stage = Stage::Ends;
        Ok(told)
    }

    /// Writes once, as much of what is owed as the socket takes, since it is settled: of replies to a client that speaks
    /// lines, all but the last `held` bytes.
    pub fn write<T: Settle>(
        &mut self,
        held: usize,
        _settled: &T::Settled,
    ) -> Result<Transfer, BrokenSocket>
        ensures goes { Goes self.old self.new }
        ensures held { min held (length self.old.talk.replies) ≤ length self.new.talk.replies }
    {
        if self.stage == Stage::Over {
            return Ok(Transfer::Over);
        }
        if let Protocol::Lines = self.protocol {
            return write_from(&mut self.conversation, &mut self.socket, held);
        }
        self.write_outbox()
    }

    // Writes once from the bytes for a browser.
    fn write_outbox(&mut self) -> Result<Transfer, BrokenSocket>
        ensures { PutsOut self.old self.new }
    {
        let Outbox { bytes, sent } = &mut self.outbox;
        let written = write_rest(bytes.as_slice(), sent, &mut self.socket);
        self.outbox.settle();
        written
    }

    /// Ends the session: it leaves its pads. The socket is returned, to be closed.
    pub fn end<S: Sequence, R: Wait, G: Gate>(self, pads: &mut Shared<'_, S, R, G>) -> K
        ensures { EndsRow (lent pads.old self.session) (lent pads.new
            (record { who = Who.Nobody; rooms = []; spare = 0 })) }
    {
        let Party {
            socket,
            mut session,
            ..
        } = self;
        pads.end_session(&mut session);
        socket
    }

    /// Returns true if a line waits to be answered: a whole one, or one that is too long.
    pub fn has_line(&self) -> bool {
        self.conversation.first_line().is_some() || self.conversation.waiting() > MAX_LINE
    }

    /// The first line, if it is whole and not too long.
    pub fn first_line(&self) -> Option<&[u8]>
        ensures some { IfSome result (λ line. ShowsBefore found.Text self.now.talk.waiting
            line.now (behind_line self.now.talk.waiting)) }
        ensures none { IfNone result (has_line self.now.talk.waiting ≡ false) }
    {
        self.conversation.first_line()
    }

    /// Returns true if any byte follows the first line.
    pub fn has_second(&self) -> bool {
        self.conversation.has_second()
    }

    /// The number of bytes that wait to be answered.
    pub fn waiting(&self) -> usize
        ensures { result ≡ length self.now.talk.waiting }
    {
        self.conversation.waiting()
    }

    /// Returns true if a line was too long, after which no further line is answered.
    pub fn is_cut(&self) -> bool
        ensures { result ≡ self.now.talk.cut }
    {
        self.conversation.is_cut()
    }

    /// The replies that are not written, and for a browser not yet messages.
    pub fn replies(&self) -> &[u8]
        ensures { result.now ≡ self.now.talk.replies }
    {
        self.conversation.replies()
    }

    /// The number of bytes that a browser is still to be sent.
    pub fn outbox_len(&self) -> usize
        ensures { result ≡ length self.now.outbox }
    {
        self.outbox.len()
    }

    /// Returns the protocol that the client speaks.
    pub fn protocol(&self) -> &Protocol
        ensures { result.now ≡ self.now.protocol }
    {
        &self.protocol
    }

    /// Returns the session: the client's identity, and the pads it has joined.
    pub fn session(&self) -> &Session
        ensures { result.now ≡ self.now.session }
    {
        &self.session
    }

    /// Returns the stage that the client has reached.
    pub fn stage(&self) -> Stage
        ensures { result ≡ self.now.stage }
    {
        self.stage
    }

    /// Frees the memory that is not needed while nothing arrives.
    pub fn rest(&mut self)
        ensures { self.new ≡ self.old }
    {
        self.conversation.rest();
        self.outbox.rest();
        self.protocol.rest();
    }
}

impl Party<TcpStream> {
    /// Has a poll report the socket under a token.
    pub fn register(
        &mut self,
        registry: &Registry,
        token: Token,
        interests: Interest,
    ) -> io::Result<()>
        ensures { self.new ≡ self.old }
    {
        registry.register(&mut self.socket, token, interests)
    }

    /// Has a poll no longer report the socket.
    pub fn deregister(&mut self, registry: &Registry) -> io::Result<()>
        ensures { self.new ≡ self.old }
    {
        registry.deregister(&mut self.socket)
    }

    /// The address that the client comes from.
    pub fn peer_address(&self) -> io::Result<SocketAddr> {
        self.socket.peer_addr()
    }
}
