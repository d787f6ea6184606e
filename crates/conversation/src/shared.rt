//! A thread's seats at a row of shared pads, with one session at a time.
ghost use Rattle.std.specs.Prelude.{◌≡◌, ◌≢◌, ◌<◌, ◌-◌, ◌^◌, true, false, [], length, min, Ok, IsTrue, IfErr, IfOk, IfSome, OnErr};
ghost use Rattle.pad_model.specs.Checked.{is_name};
ghost use Rattle.pad_model.specs.declared.refusal.Refusal.TheVariants as refusal;
ghost use Rattle.server_core.specs.Opening as opening;
ghost use Rattle.wire_lines.specs.Buffer.{IsPart};
ghost use Rattle.wire_lines.specs.declared.fault.Fault.TheVariants.{Memory};
ghost use Rattle.conversation.specs.ThreadSession.{CallsRow, EndsRow, KeepsSession, lent};
ghost use Rattle.conversation.specs.Talk.{AnswersFirst, AnswersLast, TellsLong};

use crate::conversation::{Conversation, LineOutcome};
use crate::pad_table::PadTable;
use crate::pads::Pads;
use pad_core::{Reply, Request};
use pad_model::{Name, Refusal, Sequence, Who};
use server_core::relay;
use sessions::Session;
use shared_pads::{Gate, Seat};
use std::alloc::Global;
use std::mem;
use std::sync::Wait;
use wire_lines::Fault;

/// A row of shared pads as one thread uses it, with a seat at each pad and a session.
#[derive(Drop)]
pub struct Shared<'a, S: Sequence, R: Wait, G: Gate> {
    row: &'a PadTable<'a, S, R, G>,
    seats: Vec<Seat>,
    session: Session,
}

impl<'a, S: Sequence, R: Wait, G: Gate> Shared<'a, S, R, G> {
    /// Takes the seats that `take_seats` made, and a session that has joined no pad. This allocates no memory.
    ///
    /// Requests at a cell without a seat of its own are refused with 318.
    pub fn new(
        row: &'a PadTable<'a, S, R, G>,
        seats: Vec<Seat>,
        session: Session,
    ) -> Shared<'a, S, R, G>
        ensures { result ≡ record { row = row.entry; seats = seats; session = session } }
    {
        Shared {
            row,
            seats,
            session,
        }
    }

    /// Answers the first line of a conversation in the given session, as `Conversation::answer` does. The thread's own
    /// session is not used.
    pub fn answer(
        &mut self,
        alloc: Global,
        session: &mut Session,
        conversation: &mut Conversation,
        connection: u64,
    ) -> Result<LineOutcome, Fault>
        requires open { conversation.old.cut ≡ false }
        ensures own { KeepsSession self.old self.new }
        ensures answered { result ≡ Ok LineOutcome.Answered →
            AnswersFirst CallsRow (lent self.old session.old) conversation.old
            (lent self.new session.new) conversation.new }
        ensures shorter { result ≡ Ok LineOutcome.Answered
            → length conversation.new.waiting < length conversation.old.waiting }
        ensures long { result ≡ Ok LineOutcome.Cut
            → TellsLong conversation.old conversation.new
            × (lent self.new session.new ≡ lent self.old session.old) }
        ensures waits { result ≡ Ok LineOutcome.Waits
            → (conversation.new ≡ conversation.old)
            × (lent self.new session.new ≡ lent self.old session.old)
            × IsPart conversation.new.waiting }
        ensures full { result ≡ Ok LineOutcome.Full
            → (conversation.new ≡ conversation.old)
            × (lent self.new session.new ≡ lent self.old session.old)
            × (conversation.old.replies ≢ []) }
        ensures err { OnErr result ((conversation.new ≡ conversation.old)
            × (lent self.new session.new ≡ lent self.old session.old)) }
        ensures fault { IfErr result (λ fault. fault ≡ Memory) }
    {
        let gate = self.row.gate;
        self.swap(session);
        let turn = conversation.answer(alloc, self, connection, gate);
        self.swap(session);
        turn
    }

    /// Answers the remaining bytes of a conversation as its last line, in the given session, as
    /// `Conversation::answer_last` does.
    pub fn answer_last(
        &mut self,
        alloc: Global,
        session: &mut Session,
        conversation: &mut Conversation,
        connection: u64,
    ) -> Result<bool, Fault>
        requires part { IsPart conversation.old.waiting }
        requires written { conversation.old.replies ≡ [] }
        ensures own { KeepsSession self.old self.new }
        ensures last { result ≡ Ok true →
            AnswersLast CallsRow (lent self.old session.old) conversation.old
            (lent self.new session.new) conversation.new }
        ensures none { result ≡ Ok false → (conversation.new ≡ conversation.old)
            × (conversation.old.waiting ≡ [])
            × (lent self.new session.new ≡ lent self.old session.old) }
        ensures err { OnErr result ((conversation.new ≡ conversation.old)
            × (lent self.new session.new ≡ lent self.old session.old)) }
        ensures fault { IfErr result (λ fault. fault ≡ Memory) }
    {
        let gate = self.row.gate;
        self.swap(session);
        let told = conversation.answer_last(alloc, self, connection, gate);
        self.swap(session);
        told
    }

    /// Ends a session: it leaves its pads and becomes unauthenticated. The thread's own session is not used.
    pub fn end_session(&mut self, session: &mut Session)
        ensures own { KeepsSession self.old self.new }
        ensures ended { EndsRow (lent self.old session.old) (lent self.new session.new) }
    {
        self.row.leave_all(&mut self.seats, session);
        session.set(Who::Nobody);
    }

    // Swaps its own session with another one.
    fn swap(&mut self, session: &mut Session)
        ensures other { self.new ≡ lent self.old session.old }
        ensures own { session.new ≡ self.old.session }
    {
        mem::swap(&mut self.session, session);
    }

    /// Returns the seats, for when it is no longer used.
    pub fn seats(self) -> Vec<Seat>
        ensures { result ≡ self.entry.seats }
    {
        let Shared { seats, .. } = self;
        seats
    }
}

impl<'a, S: Sequence, R: Wait, G: Gate> Pads for Shared<'a, S, R, G> {
    ghost calls = { λ old request answer new. CallsRow old request answer new };

    ghost relays = { λ old number answer new. (new.row ≡ old.row)
        × (opening.relay old.row.now.replica number old.session.who ≡ (answer, new.session.who))
        × (new.session.rooms ≡ old.session.rooms) × (new.seats.items ≡ old.seats.items) };

    ghost ends = { λ old new. EndsRow old new };

    ghost names = { λ old cell answer new. (new ≡ old)
        × IfOk answer (λ name. IfSome name (λ text. IsTrue (is_name text)))
        × IfErr answer (λ e. e ≡ refusal.Memory) };

    ghost width = { λ s. min (length s.row.now.cells.now) (2 ^ 32 - 1) };

    fn call(&mut self, alloc: Global, request: &Request) -> Result<Reply, Refusal> {
        self.row
            .ask(alloc, &mut self.seats, &mut self.session, request)
    }

    fn relay(&mut self, _alloc: Global, number: u16) -> Result<Reply, Refusal> {
        relay(self.row.replica, number, &mut self.session)
    }

    fn end(&mut self, _alloc: Global) {
        self.row.leave_all(&mut self.seats, &mut self.session);
        self.session.set(Who::Nobody);
    }

    fn name_of(&mut self, alloc: Global, cell: u32) -> Result<Option<Name>, Refusal> {
        self.row.name_of(alloc, cell)
    }

    fn cells(&self) -> u32 {
        self.row.cells.len().min(u32::MAX as usize) as u32
    }
}
