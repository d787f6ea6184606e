//! A client that is a browser: its request, the messages of its socket, and what it is told at its end.
ghost use Rattle.std.specs.Prelude.{◌≡◌, ◌≢◌, ◌⊎◌, ◌<◌, ◌≤◌, ◌-◌, ℕ, List, [], true, Ok, Err, OnOk, length, map, min, string_bytes, take};
ghost use Rattle.pad_model.specs.declared.refusal.Refusal.TheVariants.{Memory};
ghost use Rattle.event_loop.specs.Party.{Goes, IsFarewell, IsRequest, IsStopped, IsTold, Upgrades};
ghost use Rattle.event_loop.specs.declared.protocol.Protocol.TheVariants as protocol;
ghost use Rattle.web_wire.specs.Messages.{message_bytes};
ghost use Rattle.web_wire.specs.PageRequests.{Exchange};
ghost use Rattle.web_wire.specs.Socket.{fresh};
ghost use Rattle.wire_json.specs.Replies.{line_of};

use crate::accept::FULL_PAGE;
use crate::byte_socket::ByteSocket;
use crate::messages::{hear, say};
use crate::outbox::Outbox;
use crate::party::{Party, Stage};
use crate::protocol::Protocol;
use crate::request_user::Authors;
use std::alloc::{AllocError, Global};
use std::mem;
use web_wire::{Frames, Next, NextMessage, Page, PageRequest, Parts, Site, put_message};
use wire_json::memory_line;
use wire_lines::Fault;

impl<K: ByteSocket> Party<K> {
    /// Answers a request over HTTP once it is complete; `kept` is served beside the site's pages. `from` is the number of
    /// the address that it comes from. After `Next::Socket`, `open` or `refuse` goes on, and the session is that of the
    /// author whom the accounts give for the user that the request names, if it names one; if they give none, the request
    /// is refused. If memory runs out, nothing changes, or the client is over.
    pub fn answer_request(
        &mut self,
        alloc: Global,
        site: Site<'_>,
        kept: &Page,
        has_room: bool,
        from: u128,
        authors: Authors<'_>,
    ) -> Result<Next, AllocError>
        ensures goes { Goes self.old self.new }
        ensures socket { result ≡ Ok Next.Socket → Upgrades (map string_bytes site.entry.origins.now)
            site.entry.users from authors.entry.accounts.now self.old self.new }
    {
        if self.stage != Stage::Talks {
            return Ok(Next::Read);
        }
        let Protocol::PageRequest(request) = &mut self.protocol else {
            return Ok(Next::Read);
        };
        let answered = request.answer(alloc, site, kept, has_room, from);
        match answered {
            Ok(Next::Close(_)) => self.close_request(),
            Ok(Next::Socket) => return self.upgrade(alloc, authors.accounts),
            Ok(Next::User) => return self.tell_user(alloc, authors),
            _ => {}
        }
        answered
    }

    // The response is to be written, and nothing more is read.
    fn close_request(&mut self)
        ensures { (exchange : Exchange) → self.old.protocol ≡ protocol.PageRequest exchange
            → self.new ≡ record self.old {
              stage = Stage.Ends;
              protocol = protocol.Over;
              outbox = exchange.output;
            } }
    {
        if let Protocol::PageRequest(request) = mem::replace(&mut self.protocol, Protocol::Over) {
            let Parts { output, .. } = request.into_parts();
            self.outbox = Outbox::of(output);
        }
        self.stage = Stage::Ends;
    }

    /// Refuses a request, whatever it is, because the server is full.
    pub fn refuse(&mut self, alloc: Global) -> Result<(), AllocError>
        ensures { Goes self.old self.new }
    {
        if self.stage != Stage::Talks || !self.is_request() {
            return Ok(());
        }
        let mut request = PageRequest::new(alloc);
        request.refuse()?;
        let Parts { output, .. } = request.into_parts();
        self.close_with(output);
        Ok(())
    }

    // These bytes are to be written, and nothing more is read.
    pub(super) fn close_with(&mut self, output: Vec<u8>)
        ensures { self.new ≡ record self.old {
          stage = Stage.Ends;
          protocol = protocol.Over;
          outbox = output.items;
        } }
    {
        self.protocol = Protocol::Over;
        self.outbox = Outbox::of(output);
        self.stage = Stage::Ends;
    }

    // Returns true if a request over HTTP is not answered, or its socket not admitted.
    fn is_request(&self) -> bool
        ensures { result ≡ true → IsRequest self.now.protocol }
    {
        matches!(
            &self.protocol,
            Protocol::PageRequest(_) | Protocol::Upgrading(_)
        )
    }

    /// Opens the socket of a request that may have one. The bytes after the request are its first ones.
    pub fn open(&mut self, alloc: Global)
        ensures { Goes self.old self.new }
    {
        if let (Stage::Talks, Protocol::Upgrading(_)) = (self.stage, &self.protocol) {
            self.open_socket(alloc);
        }
    }

    // Messages are read from now on.
    fn open_socket(&mut self, alloc: Global)
        ensures { (exchange : Exchange) → self.old.protocol ≡ protocol.Upgrading exchange
            → self.new ≡ record self.old {
              protocol = protocol.Socket (fresh exchange.input);
              outbox = exchange.output;
            } }
    {
        if let Protocol::Upgrading(request) = mem::replace(&mut self.protocol, Protocol::Over) {
            let Parts { input, output } = request.into_parts();
            self.outbox = Outbox::of(output);
            self.protocol = Protocol::Socket(Frames::new(alloc, input));
        }
    }

    /// Takes the next message of a socket as a line. `line` is a buffer for it. If memory runs out, the client is over.
    pub fn hear(&mut self, line: &mut Vec<u8>) -> Result<NextMessage, Fault>
        ensures { Goes self.old self.new }
    {
        if self.stage != Stage::Talks {
            return Ok(NextMessage::Close);
        }
        let Protocol::Socket(frames) = &mut self.protocol else {
            return Ok(NextMessage::Read);
        };
        let heard = hear(frames, &mut self.conversation, line, &mut self.outbox.bytes);
        if heard.is_err() {
            self.outbox.clear();
            self.stage = Stage::Over;
        }
        heard
    }

    /// Turns the first reply to a socket into a message, unless a part of it is in the last `held` bytes of the replies.
    /// Returns whether it did.
    pub fn say(&mut self, held: usize) -> Result<bool, AllocError>
        ensures goes { Goes self.old self.new }
        ensures shorter { result ≡ Ok true
            → length self.new.talk.replies < length self.old.talk.replies }
        ensures held { min held (length self.old.talk.replies) ≤ length self.new.talk.replies }
    {
        if self.stage == Stage::Over {
            return Ok(false);
        }
        let Protocol::Socket(_) = &self.protocol else {
            return Ok(false);
        };
        say(&mut self.conversation, &mut self.outbox.bytes, held)
    }

    /// Tells the client that memory ran out, if nothing is owed and its socket takes it at once. The client is over.
    pub fn tell_of_memory(&mut self)
        ensures { Goes self.old self.new }
    {
        if !self.may_be_told() {
            self.stop();
            return;
        }
        match &self.protocol {
            Protocol::Lines => self.tell(memory_line()),
            Protocol::Socket(_) => self.tell_by_message(),
            _ => self.tell(FULL_PAGE),
        }
    }

    /// Sends a close frame to a socket to which nothing is owed, because the server ends or no longer serves it, if it
    /// takes that at once. The client is over.
    pub fn say_goodbye(&mut self)
        ensures { Goes self.old self.new }
    {
        if self.may_be_told() {
            self.tell_by_frame();
        } else {
            self.stop();
        }
    }

    // Returns true if nothing is owed.
    fn may_be_told(&self) -> bool
        ensures { result ≡ true → (self.now.stage ≢ Stage.Over)
            × (self.now.talk.replies ≡ []) × (self.now.outbox ≡ []) }
    {
        self.stage != Stage::Over
            && self.conversation.replies().is_empty()
            && self.outbox.len() == 0
    }

    // Writes once, after which nothing follows.
    fn tell(&mut self, tale: &[u8])
        ensures { IsTold tale.now self.old self.new }
    {
        let _told = self.socket.send(tale);
        self.stop();
    }

    // Writes once from the outbox, after which nothing follows.
    fn tell_outbox(&mut self)
        ensures { IsTold self.old.outbox self.old self.new }
    {
        let sent = self.outbox.sent;
        let _told = self.socket.send(&self.outbox.bytes[sent..]);
        self.stop();
    }

    // Writes a message about memory, if there is memory for it. Nothing follows.
    fn tell_by_message(&mut self)
        ensures { IsTold (message_bytes (take (length (line_of (Err Memory)) - 1)
            (line_of (Err Memory)))) self.old self.new ⊎ IsStopped self.old self.new }
    {
        let Protocol::Socket(_) = &self.protocol else {
            self.stop();
            return;
        };
        self.outbox.clear();
        let line = memory_line();
        if put_message(&line[..line.len() - 1], &mut self.outbox.bytes).is_err() {
            self.outbox.clear();
            self.stop();
            return;
        }
        self.tell_outbox();
    }

    // Writes the close frame of a socket that is open. Nothing follows.
    fn tell_by_frame(&mut self)
        ensures { ((tale : List ℕ) × IsFarewell self.old.protocol tale × IsTold tale self.old self.new)
            ⊎ IsStopped self.old self.new }
    {
        self.outbox.clear();
        let Protocol::Socket(frames) = &mut self.protocol else {
            self.stop();
            return;
        };
        if frames.go_away(&mut self.outbox.bytes).is_err() {
            self.outbox.clear();
            self.stop();
            return;
        }
        self.tell_outbox();
    }

    // Nothing more is read or written.
    pub(super) fn stop(&mut self)
        ensures { self.new ≡ record self.old { stage = Stage.Over; outbox = [] } }
    {
        self.stage = Stage::Over;
        self.outbox.clear();
    }
}
