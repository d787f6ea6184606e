//! A browser's part of a turn: its request is answered, and the messages of its socket become lines.
use crate::buffers::Buffers;
use crate::client::{Client, Phase};
use crate::hub::Hub;
use crate::limits::Limits;
use crate::lobby::Lobby;
use crate::newcomer::Newcomer;
use crate::request_user::Authors;
use crate::serve::ClientStep;
use crate::settle::Settle;
use crate::transfer::Transfer;
use crate::work::Service;
use crate::written::say_all;
use conversation::Gate;
use pad_model::Sequence;
use std::alloc::Global;
use std::sync::Wait;
use web_wire::{Next, NextMessage, kept_page};
use wire_lines::Fault;

impl Client {
    /// Reads a request, and answers it once it is complete.
    pub(crate) fn serve_page_request<S, R, G, T>(
        &mut self,
        service: &Service<'_, S, R, G, T>,
        buffers: &mut Buffers,
    ) -> ClientStep
    where
        S: Sequence,
        R: AllocGlobal + Wait,
        G: Gate,
        T: Settle,
    {
        if self.phase == Phase::Ended {
            self.phase = Phase::Over;
        }
        if self.phase != Phase::Open || !self.readiness.takes_read() {
            return ClientStep::Rests;
        }
        let chunk = buffers.chunk.as_mut_slice();
        match self.party.read(chunk) {
            Ok(Transfer::Passed) => self.answer_request(service),
            read => self.has_read(read),
        }
    }

    // Answers a request if it is complete. While there is no room for one more client, everything is refused; while as
    // many clients as may be have not logged in, only the socket is.
    fn answer_request<S, R, G, T>(&mut self, service: &Service<'_, S, R, G, T>) -> ClientStep
    where
        S: Sequence,
        R: AllocGlobal + Wait,
        G: Gate,
        T: Settle,
    {
        let (hub, limits, site) = (service.hub, service.limits, service.site);
        let alloc = service.row.rt.alloc();
        if !hub.has_room(limits.clients) {
            return self.refuse_request(alloc);
        }
        let has_room = hub.lobby().has_room(limits.newcomers());
        let kept = kept_page(service.settle.machines());
        let authors = Authors {
            accounts: service.row.accounts,
            replica: service.row.replica,
        };
        let from = self.source.number;
        match self
            .party
            .answer_request(alloc, site, &kept, has_room, from, authors)
        {
            Ok(Next::Read) => ClientStep::Goes,
            Ok(Next::Close(_) | Next::User) => self.end_request(),
            Ok(Next::Socket) if is_admitted(hub, limits) => self.open_socket(alloc),
            Ok(Next::Socket) => self.refuse_request(alloc),
            Err(_) => self.fail(Fault::Memory),
        }
    }

    // The response is to be written, and nothing more is read.
    fn end_request(&mut self) -> ClientStep {
        self.phase = Phase::Over;
        ClientStep::Rests
    }

    // Makes the connection a client, whose messages are lines.
    fn open_socket(&mut self, alloc: Global) -> ClientStep {
        self.party.open(alloc);
        self.newcomer = Newcomer::new(true);
        self.newcomer.unfinished = self.waiting();
        self.times.note_line();
        ClientStep::Rests
    }

    // Refuses a request because there is no room, or others have taken the last one since it was answered.
    fn refuse_request(&mut self, alloc: Global) -> ClientStep {
        match self.party.refuse(alloc) {
            Ok(()) => self.end_request(),
            Err(_) => self.fail(Fault::Memory),
        }
    }

    /// Takes the next message of a socket, or reads once if none is complete. Replies to earlier messages are put into
    /// the outbox first, so that a close frame is sent after them.
    pub(crate) fn listen(&mut self, lobby: &Lobby, buffers: &mut Buffers) -> ClientStep {
        if say_all(&mut self.party, 0).is_err() {
            return self.fail(Fault::Memory);
        }
        match self.party.hear(&mut buffers.line) {
            Ok(NextMessage::Line) => ClientStep::Goes,
            Ok(NextMessage::Read) => self.read_once(lobby, buffers),
            Ok(NextMessage::Close) => {
                self.phase = Phase::Over;
                ClientStep::Rests
            }
            Err(fault) => self.fail(fault),
        }
    }
}

// Counts a socket as a client, and as one that has not logged in; returns false if there are as many as may be.
fn is_admitted(hub: &Hub, limits: Limits) -> bool {
    if !hub.lobby().admit(limits.newcomers()) {
        return false;
    }
    if hub.admit(limits.clients) {
        return true;
    }
    hub.lobby().leave();
    false
}
