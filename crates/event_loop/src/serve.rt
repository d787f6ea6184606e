//! A client's part of a turn: its lines are answered, and more are read.
ghost use Rattle.wire_lines.specs.Buffer.{IsPart};

use crate::buffers::Buffers;
use crate::client::{Client, Phase};
use crate::delay::{BAD_TOKEN, Delay, LogIn, Wanted, claim_in, wanted_by};
use crate::hub::{Connected, Hub};
use crate::limits::{LINES, LONG_LINE, MOST_OWED, UNFINISHED};
use crate::settle::Settle;
use crate::work::Service;
use conversation::{Gate, LineOutcome, Shared};
use pad_model::Sequence;
use std::alloc::Global;
use std::sync::Wait;

/// The result of a step of a client's turn.
#[derive(Drop)]
pub enum ClientStep {
    /// The turn may go on.
    Goes,
    /// There is nothing to do, or others have their turn.
    Rests,
    /// The client has to move, because a long line has begun or was answered.
    Moves,
    /// A wrong token was answered. The claim is who the client said it is, if it is known.
    Fails(Option<LogIn>),
    /// A log-in comes next, and is to be held back if its address has sent wrong tokens.
    Knocks,
    /// The first line is to be held back.
    Waits(Wanted),
}

impl Client {
    /// Answers the waiting lines, and reads more, until nothing is left or it is the turn of others. While its replies
    /// wait to be written, a client is neither answered nor read.
    pub fn serve<S, R, G, T>(
        &mut self,
        service: &Service<'_, S, R, G, T>,
        place: usize,
        pads: &mut Shared<'_, S, R, G>,
        buffers: &mut Buffers,
    ) -> ClientStep
    where
        S: Sequence,
        R: AllocGlobal + Wait,
        G: Gate,
        T: Settle,
    {
        if self.owes() {
            return ClientStep::Rests;
        }
        self.due = None;
        for _line in 0..LINES {
            if self.owed() >= MOST_OWED {
                break;
            }
            match self.step(service, place, pads, buffers) {
                ClientStep::Goes => {}
                end => {
                    self.review(service.hub.lobby());
                    return end;
                }
            }
        }
        self.review(service.hub.lobby());
        ClientStep::Rests
    }

    // Makes one step: answers one line, or reads once.
    fn step<S, R, G, T>(
        &mut self,
        service: &Service<'_, S, R, G, T>,
        place: usize,
        pads: &mut Shared<'_, S, R, G>,
        buffers: &mut Buffers,
    ) -> ClientStep
    where
        S: Sequence,
        R: AllocGlobal + Wait,
        G: Gate,
        T: Settle,
    {
        let alloc = service.row.rt.alloc();
        if self.connected() == Connected::PageRequest {
            return self.serve_page_request(service, buffers);
        }
        if self.is_misplaced(service.hub, place) {
            self.moves = true;
            self.party.rest();
            return ClientStep::Moves;
        }
        match self.hold_line(alloc, service.hub, place, buffers) {
            Some(held) => held,
            None => self.answer_or_read(alloc, service.hub, pads, buffers),
        }
    }

    // Answers one line, or reads once if none is complete. While more bytes may come, the conversation is asked only where
    // it has a line.
    fn answer_or_read<S: Sequence, R: Wait, G: Gate>(
        &mut self,
        alloc: Global,
        hub: &Hub,
        pads: &mut Shared<'_, S, R, G>,
        buffers: &mut Buffers,
    ) -> ClientStep {
        if self.phase == Phase::Open && !self.party.has_line() {
            return self.read_more(hub.lobby(), buffers);
        }
        let before = self.party.replies().len();
        let claim = self.claim(alloc);
        match self.party.answer(alloc, pads, self.number) {
            Ok(LineOutcome::Answered) => self.answered(hub, before, claim),
            Ok(LineOutcome::Waits) if self.phase == Phase::Ended => {
                self.answer_last(alloc, hub, pads)
            }
            Ok(LineOutcome::Waits) => self.read_more(hub.lobby(), buffers),
            Ok(LineOutcome::Full) => ClientStep::Rests,
            Ok(LineOutcome::Cut) => {
                self.count_reply(hub, before);
                self.phase = Phase::Over;
                ClientStep::Rests
            }
            Err(fault) => self.fail(fault),
        }
    }

    // Returns true if the client is at the worker for long lines without having one, or elsewhere although it has one.
    fn is_misplaced(&self, hub: &Hub, place: usize) -> bool {
        let long_lines = hub.long_lines();
        if place == long_lines {
            return !self.is_long();
        }
        self.is_long() && hub.is_open(long_lines)
    }

    // Returns true if the first waiting line is a long one.
    fn is_long(&self) -> bool {
        self.party.waiting() > LONG_LINE
            && match self.party.first_line() {
                Some(line) => line.len() > LONG_LINE,
                None => true,
            }
    }

    // Handles a first line that is held back, or has to be. Returns None if it is not: then the first line, if there is
    // one, can be answered.
    fn hold_line(
        &mut self,
        alloc: Global,
        hub: &Hub,
        place: usize,
        buffers: &mut Buffers,
    ) -> Option<ClientStep> {
        match self.delay {
            Delay::Over => return None,
            Delay::LogIn { .. } => return Some(ClientStep::Rests),
            _ => {}
        }
        if self.is_knocking(alloc, hub.lobby()) {
            return Some(ClientStep::Knocks);
        }
        if self.phase != Phase::Open {
            return None;
        }
        let line = self.party.first_line()?;
        if self.party.has_second() {
            self.delay = Delay::Free;
            return None;
        }
        if let Delay::Change { .. } = self.delay {
            return Some(self.read_more(hub.lobby(), buffers));
        }
        let wanted = wanted_by(alloc, line, self.party.session())?;
        if hub.has_to_wait(place, wanted) {
            Some(ClientStep::Waits(wanted))
        } else {
            None
        }
    }

    // Returns the author or peer that the first line logs in as, if nobody has logged in yet and the line is short.
    fn claim(&self, alloc: Global) -> Option<LogIn> {
        if !self.is_nobody() {
            return None;
        }
        let line = self.party.first_line()?;
        if line.len() > UNFINISHED {
            return None;
        }
        claim_in(alloc, line)
    }

    // Counts a reply, which begins at this byte of those that wait.
    fn count_reply(&self, hub: &Hub, before: usize) {
        if let Some(reply) = self.party.replies().get(before..) {
            hub.counts().note_reply(reply);
        }
    }

    // Handles the answer to a line.
    fn answered(&mut self, hub: &Hub, before: usize, claim: Option<LogIn>) -> ClientStep {
        self.count_reply(hub, before);
        self.delay = Delay::Free;
        self.times.note_line();
        self.note_answered();
        if self.party.replies().get(before..) != Some(BAD_TOKEN) {
            return ClientStep::Goes;
        }
        self.failures = self.failures.saturating_add(1);
        ClientStep::Fails(claim)
    }

    // Answers the last line, since no more bytes arrive.
    fn answer_last<S: Sequence, R: Wait, G: Gate>(
        &mut self,
        alloc: Global,
        hub: &Hub,
        pads: &mut Shared<'_, S, R, G>,
    ) -> ClientStep
        requires { IsPart self.old.party.talk.waiting }
    {
        if !self.party.replies().is_empty() {
            return ClientStep::Rests;
        }
        self.phase = Phase::Over;
        if let Err(fault) = self.party.answer_last(alloc, pads, self.number) {
            return self.fail(fault);
        }
        self.count_reply(hub, 0);
        self.delay = Delay::Free;
        if self.party.replies() != BAD_TOKEN {
            return ClientStep::Rests;
        }
        self.failures = self.failures.saturating_add(1);
        ClientStep::Fails(None)
    }
}
