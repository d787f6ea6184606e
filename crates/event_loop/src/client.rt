//! One client of a worker: its socket, its conversation and its session.
use crate::arrivals::ClientAddress;
use crate::buffers::{Buffers, first_bytes};
use crate::delay::{BAD_TOKEN, Delay, Wanted, pause_after};
use crate::hub::Connected;
use crate::limits::{LOG_IN, REQUEST};
use crate::lobby::Lobby;
use crate::newcomer::Newcomer;
use crate::party::Party;
use crate::protocol::Protocol;
use crate::readiness::Readiness;
use crate::serve::ClientStep;
use crate::times::{Late, Times};
use crate::transfer::{BrokenSocket, Transfer};
use conversation::{Gate, Shared};
use mio::net::TcpStream;
use pad_model::{Sequence, Who};
use std::alloc::Global;
use std::sync::Wait;
use std::{io, mem};
use wire_lines::Fault;

/// The state of a client's connection.
#[derive(Clone, Copy, PartialEq, Eq)]
pub enum Phase {
    /// More bytes may arrive.
    Open,
    /// No more bytes arrive, but some may wait to be answered.
    Ended,
    /// Nothing more is answered, but replies may wait to be written.
    Over,
    /// The socket failed, or memory ran out.
    Broken(Fault),
}

/// A connected client.
#[derive(Drop)]
pub struct Client {
    pub(crate) number: u64,
    pub(crate) home: usize,
    pub(crate) source: ClientAddress,
    /// Its socket, its conversation and its session.
    pub(crate) party: Party<TcpStream>,
    pub(crate) phase: Phase,
    /// The readiness of its socket: whether a read may give bytes.
    pub(crate) readiness: Readiness,
    /// True if the client is queued to be served.
    is_queued: bool,
    /// True if the client is in the list of those held back.
    is_listed: bool,
    pub(crate) moves: bool,
    pub(crate) failures: u32,
    pub(crate) delay: Delay,
    pub(crate) newcomer: Newcomer,
    pub(crate) times: Times,
    pub(crate) cause: Option<io::Error>,
    /// The number that its replies wait for. None: they were made since the worker last settled.
    pub(crate) due: Option<u64>,
    /// True if the client is in the list of those whose replies wait.
    is_awaiting: bool,
}

impl Client {
    /// Creates a client that has just arrived, and is queued.
    pub fn new(
        alloc: Global,
        number: u64,
        home: usize,
        stream: TcpStream,
        protocol: Protocol,
        source: ClientAddress,
    ) -> Client {
        let is_counted = protocol.connected() == Connected::Client;
        Client {
            number,
            home,
            source,
            party: Party::new(alloc, stream, protocol),
            phase: Phase::Open,
            readiness: Readiness::new(),
            is_queued: true,
            is_listed: false,
            moves: false,
            failures: 0,
            delay: Delay::Free,
            newcomer: Newcomer::new(is_counted),
            times: Times::new(),
            cause: None,
            due: None,
            is_awaiting: false,
        }
    }

    /// The number of the client's connection.
    pub fn number(&self) -> u64 {
        self.number
    }

    /// The place of the worker to which the client belongs.
    pub fn home(&self) -> usize {
        self.home
    }

    /// Returns the number of pads it has joined.
    pub fn visits(&self) -> usize {
        self.party.session().room_count()
    }

    /// The key of the address that it comes from.
    pub fn address(&self) -> u128 {
        self.source.key
    }

    /// Returns the kind that its connection counts as: a client or a request for a page.
    pub fn connected(&self) -> Connected {
        self.party.protocol().connected()
    }

    /// The fault that ended its connection, if one did, and the system's error.
    pub fn fault(&self) -> Option<(Fault, Option<io::Error>)> {
        match self.phase {
            Phase::Broken(fault) => Some((fault, self.cause)),
            _ => None,
        }
    }

    /// Notes that the socket can be read again. `reads_on`: its end, a failure or urgent bytes were reported with it.
    /// Returns whether the caller has to queue the client.
    pub fn note_readable(&mut self, reads_on: bool) -> bool {
        self.readiness.note_report(reads_on);
        self.queue()
    }

    /// Marks the client as queued, and returns whether it was not queued before.
    pub fn queue(&mut self) -> bool {
        !mem::replace(&mut self.is_queued, true)
    }

    /// Marks the client as listed among those held back, and returns whether it was not listed before.
    pub fn list(&mut self) -> bool {
        !mem::replace(&mut self.is_listed, true)
    }

    /// Marks the client as not listed.
    pub fn unlist(&mut self) {
        self.is_listed = false;
    }

    /// Marks the client as one whose replies wait, and returns whether it was not one before.
    pub fn await_reach(&mut self) -> bool {
        !mem::replace(&mut self.is_awaiting, true)
    }

    /// Its replies may go further: it is no longer in the list of those that wait.
    pub fn end_await(&mut self) {
        self.is_awaiting = false;
    }

    /// Returns true if the client is marked as one whose replies wait.
    pub fn is_awaiting(&self) -> bool {
        self.is_awaiting
    }

    /// Returns true if replies wait to be written, including replies held back.
    pub fn owes(&self) -> bool {
        !self.party.replies().is_empty() || self.party.outbox_len() > 0
    }

    /// The number of bytes of replies that wait to be written.
    pub(crate) fn owed(&self) -> usize {
        self.party
            .replies()
            .len()
            .saturating_add(self.party.outbox_len())
    }

    /// Returns true if the client has to move to another worker now: it moves once its replies are written.
    pub fn moves(&self) -> bool {
        self.moves && !self.owes()
    }

    /// Prepares the client for a new worker, where it is queued.
    pub fn settle_in(&mut self) {
        self.moves = false;
        self.readiness = Readiness::new();
        self.is_queued = true;
    }

    /// Queues the client if it has more to be served without a new report from its socket, and returns whether it does.
    pub fn queue_again(&mut self) -> bool {
        self.is_queued = !self.owes() && self.has_more();
        self.is_queued
    }

    fn has_more(&self) -> bool {
        match self.phase {
            Phase::Open => match self.delay {
                Delay::Over => true,
                Delay::LogIn { .. } => false,
                _ => self.readiness.is_readable() && !self.newcomer.is_stalled,
            },
            Phase::Ended => match self.delay {
                Delay::LogIn { .. } => false,
                _ => true,
            },
            Phase::Over | Phase::Broken(_) => false,
        }
    }

    /// Reads once, if a read may give bytes. For a WebSocket whose bytes wait, takes the next message first.
    pub(crate) fn read_more(&mut self, lobby: &Lobby, buffers: &mut Buffers) -> ClientStep {
        if self.phase != Phase::Open {
            return ClientStep::Rests;
        }
        match self.party.protocol() {
            Protocol::Socket(frames) if !frames.is_empty() => self.listen(lobby, buffers),
            _ => self.read_once(lobby, buffers),
        }
    }

    /// Reads once, if a read may give bytes.
    pub(crate) fn read_once(&mut self, lobby: &Lobby, buffers: &mut Buffers) -> ClientStep {
        if !self.readiness.takes_read() {
            return ClientStep::Rests;
        }
        let Some(most) = self.may_read(lobby) else {
            return ClientStep::Rests;
        };
        let before = self.waiting();
        let chunk = first_bytes(buffers.chunk.as_mut_slice(), most);
        let room = chunk.len();
        let read = self.party.read(chunk);
        let came = self.waiting().saturating_sub(before);
        self.newcomer.note_read(came);
        if let Ok(Transfer::Passed) = read {
            self.readiness.note_read(came, room);
        }
        self.has_read(read)
    }

    /// Handles the result of a read.
    pub(crate) fn has_read(&mut self, read: Result<Transfer, BrokenSocket>) -> ClientStep {
        match read {
            Ok(Transfer::Passed | Transfer::Again) => ClientStep::Goes,
            Ok(Transfer::Over) => {
                self.phase = Phase::Ended;
                ClientStep::Goes
            }
            Ok(Transfer::Blocked) => {
                self.readiness.note_blocked();
                ClientStep::Rests
            }
            Err(broken) => {
                self.cause = broken.cause;
                self.fail(broken.fault)
            }
        }
    }

    /// Ends the connection with a fault. If memory ran out, the client is told so, if the socket takes it at once.
    pub(crate) fn fail(&mut self, fault: Fault) -> ClientStep {
        if fault == Fault::Memory && !self.owes() {
            self.party.tell_of_memory();
        }
        self.phase = Phase::Broken(fault);
        ClientStep::Rests
    }

    /// Holds back the reply to a wrong token if it was not the first one of the connection, or for this name, and
    /// returns the time until which it does. `for_name` is how many came for the name.
    pub fn pause(&mut self, now: u64, for_name: u32) -> Option<u64> {
        let until = now.saturating_add(pause_after(self.failures.max(for_name))?);
        self.delay = Delay::Pause {
            until,
            bytes: BAD_TOKEN.len(),
        };
        Some(until)
    }

    /// Holds back the first line, and returns the time until which it does.
    pub fn wait(&mut self, now: u64, wanted: Wanted) -> u64 {
        let until = now.saturating_add(wanted.seconds.saturating_mul(1_000));
        self.delay = Delay::Change { wanted, until };
        until
    }

    /// Returns the delay that holds the client back.
    pub fn delay(&self) -> Delay {
        self.delay
    }

    /// Ends the delay. Returns true if a reply is to be written, and false if the first line is to be answered.
    pub fn release(&mut self) -> bool {
        match mem::replace(&mut self.delay, Delay::Free) {
            Delay::Pause { .. } => true,
            // The client was not silent: its line is answered now.
            _ => {
                self.delay = Delay::Over;
                self.times.note_line();
                false
            }
        }
    }

    /// Returns true if nothing is left to do for the client.
    pub fn is_gone(&self) -> bool {
        match self.phase {
            Phase::Open | Phase::Ended => false,
            Phase::Over => !self.owes(),
            Phase::Broken(_) => true,
        }
    }

    /// Returns the time limit that the client has exceeded, if any. `idle` is how long it may be silent, in
    /// milliseconds. It also frees the memory that the client does not need until it sends more.
    pub fn check(&mut self, now: u64, idle: Option<u64>) -> Option<Late> {
        self.party.rest();
        if let Delay::Change { .. } = self.delay {
            self.times.note_line();
        }
        // It is neither silent nor slow while the server keeps its replies.
        if self.is_awaiting {
            self.times.note_line();
            self.times.note_taken();
        }
        let (owes, patience) = (self.owes(), self.patience());
        self.times.check(now, owes, patience, idle)
    }

    // Returns the time for which the client may be connected without logging in, or without sending a request, in
    // milliseconds.
    fn patience(&self) -> Option<u64> {
        match (self.party.protocol(), self.party.session().who()) {
            (Protocol::Over, _) => None,
            (Protocol::PageRequest(_) | Protocol::Upgrading(_), _) => Some(REQUEST),
            (_, Who::Nobody) => Some(LOG_IN),
            _ => None,
        }
    }

    /// Ends the client's session, and closes its socket.
    pub fn end<S: Sequence, R: Wait, G: Gate>(self, pads: &mut Shared<'_, S, R, G>) {
        let _closed = self.party.end(pads);
    }
}
