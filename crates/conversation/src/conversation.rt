//! A connection without its devices: bytes come in, lines are answered, and the caller writes the replies.
ghost use Rattle.std.specs.Prelude.{◌≡◌, ◌≢◌, ◌⊎◌, ◌+◌, ◌<◌, ◌≤◌, true, false, nat_lt, [], drop, length, Err, Ok, IfErr, IfNone, IfSome, OnErr, OnOk};
ghost use Rattle.std.specs.Io.KnownBytes.{Keeps};
ghost use Rattle.wire_lines.specs.Buffer.{IsPart, ShowsBefore};
ghost use Rattle.wire_lines.specs.Causes.{AreCounted, HasCause, most_reads};
ghost use Rattle.wire_lines.specs.Lines.{behind_line};
ghost use Rattle.wire_lines.specs.Splitter.{has_line};
ghost use Rattle.wire_lines.specs.declared.fault.Fault.TheVariants.{Memory};
ghost use Rattle.wire_lines.specs.declared.inlet.TheConstants.{CHUNK};
ghost use Rattle.conversation.specs.Talk.{AnswersFirst, AnswersLast, TellsLong, ahead, heard, silent, unwritten, waits};

use crate::pads::Pads;
use crate::reply::{make_room, put, tell};
use crate::served::Served;
use shared_pads::Gate;
use std::alloc::Global;
use std::marker::Model;
use wire_json::too_long_line;
use wire_lines::{Fault, FoundLine, Inlet, LineSplitter, Source};

// The capacity in bytes that is kept for replies between two lines. Once all replies are written, more is released.
const KEPT: usize = 65_536;

// The capacity in bytes that is kept for replies while the connection is idle.
const KEPT_IDLE: usize = 128;

/// The outcome of a call of `Conversation::answer`.
#[derive(Clone, Copy, Debug, PartialEq, Eq)]
pub enum LineOutcome {
    /// The first line was answered; an empty line has no reply.
    Answered,
    /// No whole line has arrived.
    Waits,
    /// There is no memory for another reply until some are written.
    Full,
    /// The first line is too long, and the reply says so. No further line is answered.
    Cut,
}

/// The lines of one client and the replies to them. It does no I/O of its own, and has no session.
#[derive(Drop)]
pub struct Conversation {
    lines: LineSplitter,
    replies: Vec<u8>,
    sent: usize,
    served: Served,
    cut: bool,
}

impl Model for Conversation {
    ghost use Rattle.std.specs.Prelude.{◌≡◌, ◌⊎◌, ◌<◌, ◌≤◌, drop, length};
    ghost use Rattle.conversation.specs.Talk.{Talk};

    ghost Value = { Talk };

    ghost view = { λ c. record {
      waiting = c.lines.waiting;
      replies = drop c.sent c.replies.items;
      served = c.served;
      cut = c.cut;
    } };

    // Once all replies are written, their bytes are given back.
    ghost invariant = { λ c. (c.sent ≤ length c.replies.items) × ((c.sent ≡ 0) ⊎ (c.sent < length c.replies.items)) };
}

impl Conversation {
    /// Creates a conversation in which nothing has arrived. This allocates no memory.
    pub fn new(alloc: Global) -> Conversation
        ensures { result ≡ silent }
    {
        Conversation {
            lines: LineSplitter::new(alloc),
            replies: Vec::new(alloc),
            sent: 0,
            served: Served {
                lines: 0,
                delivered: 0,
            },
            cut: false,
        }
    }

    /// Appends bytes that arrived. If memory runs out, none are appended.
    pub fn receive(&mut self, bytes: &[u8]) -> Result<(), Fault>
        ensures bytes { OnOk result (self.new ≡ heard self.old bytes.now) }
        ensures err { OnErr result (self.new ≡ self.old) }
        ensures fault { IfErr result (λ fault. fault ≡ Memory) }
    {
        self.lines.receive(bytes)
    }

    /// Reads once, and appends the bytes. If memory runs out, nothing is read.
    pub fn receive_from<R: Source>(
        &mut self,
        inlet: &mut Inlet,
        source: &mut R,
    ) -> Result<(), Fault>
        requires going { inlet.old.ended ≡ false }
        ensures only { self.new ≡ waits self.old self.new.waiting }
        ensures bytes { Keeps (ahead self.old false (R.remaining source.old))
            (ahead self.new inlet.new.ended (R.remaining source.new)) }
        ensures most { length self.new.waiting ≤ length self.old.waiting + CHUNK }
        ensures err { OnErr result ((self.new ≡ self.old) × (inlet.new.ended ≡ false)) }
        ensures few { OnOk result (inlet.new.reads ≤ most_reads) }
        ensures one { OnOk result (inlet.new.reads ≡ inlet.old.reads + 1) }
        ensures cause { HasCause result (R.failures source.old) (R.failures source.new)
            inlet.new.reads }
        ensures counted { AreCounted result (R.reads source.old) (R.reads source.new)
            inlet.old.reads inlet.new.reads }
    {
        self.lines.receive_from(inlet, source)
    }

    /// Returns the first line without its line end, if it is whole and not too long. For callers that hold lines back.
    pub fn first_line(&self) -> Option<&[u8]>
        ensures some { IfSome result (λ line. ShowsBefore FoundLine.Text self.now.waiting line.now
            (behind_line self.now.waiting)) }
        ensures none { IfNone result (has_line self.now.waiting ≡ false) }
    {
        self.lines.first_line()
    }

    /// Returns true if any byte follows the first line.
    pub fn has_second(&self) -> bool
        ensures { result ≡ nat_lt 0 (length (behind_line self.now.waiting)) }
    {
        self.lines.has_second()
    }

    /// Answers the first line, if it is whole and there is memory for a reply. The caller decides when.
    ///
    /// Fails if there is no memory for even the shortest reply and no reply is pending. Then no request was made.
    pub fn answer<P: Pads, G: Gate>(
        &mut self,
        alloc: Global,
        pads: &mut P,
        connection: u64,
        gate: &G,
    ) -> Result<LineOutcome, Fault>
        requires open { self.old.cut ≡ false }
        ensures answered { result ≡ Ok LineOutcome.Answered
            → AnswersFirst P.calls pads.old self.old pads.new self.new }
        ensures shorter { result ≡ Ok LineOutcome.Answered
            → length self.new.waiting < length self.old.waiting }
        ensures long { result ≡ Ok LineOutcome.Cut → TellsLong self.old self.new × (pads.new ≡ pads.old) }
        ensures waits { result ≡ Ok LineOutcome.Waits
            → (self.new ≡ self.old) × (pads.new ≡ pads.old) × IsPart self.new.waiting }
        ensures full { result ≡ Ok LineOutcome.Full
            → (self.new ≡ self.old) × (pads.new ≡ pads.old) × (self.old.replies ≢ []) }
        ensures err { OnErr result ((self.new ≡ self.old) × (pads.new ≡ pads.old)) }
        ensures fault { IfErr result (λ fault. fault ≡ Memory) }
    {
        if !make_room(&mut self.replies) {
            return without_room(self.replies().is_empty());
        }
        match self.lines.next_line() {
            None => Ok(LineOutcome::Waits),
            Some(FoundLine::Text) => {
                let line = self.lines.line();
                let told = tell(alloc, pads, line, &mut self.replies, connection, gate);
                self.served = self.served.with(told);
                Ok(LineOutcome::Answered)
            }
            Some(FoundLine::TooLong) => {
                gate.before_reply(connection, false);
                put(&mut self.replies, too_long_line());
                self.served = self.served.with(Some(0));
                self.cut = true;
                Ok(LineOutcome::Cut)
            }
            Some(FoundLine::End) => unreachable!(),
        }
    }

    /// Answers the remaining bytes as the last line, once no more arrive. Returns false if there are none.
    pub fn answer_last<P: Pads, G: Gate>(
        &mut self,
        alloc: Global,
        pads: &mut P,
        connection: u64,
        gate: &G,
    ) -> Result<bool, Fault>
        requires part { IsPart self.old.waiting }
        requires written { self.old.replies ≡ [] }
        ensures last { result ≡ Ok true → AnswersLast P.calls pads.old self.old pads.new self.new }
        ensures none { result ≡ Ok false → (self.new ≡ self.old) × (self.old.waiting ≡ [])
            × (pads.new ≡ pads.old) }
        ensures err { OnErr result ((self.new ≡ self.old) × (pads.new ≡ pads.old)) }
        ensures fault { IfErr result (λ fault. fault ≡ Memory) }
    {
        if !make_room(&mut self.replies) {
            return Err(Fault::Memory);
        }
        if !self.lines.last_line() {
            return Ok(false);
        }
        let line = self.lines.line();
        let told = tell(alloc, pads, line, &mut self.replies, connection, gate);
        self.served = self.served.with(told);
        Ok(true)
    }

    /// The bytes of the replies that are not written yet.
    pub fn replies(&self) -> &[u8]
        ensures { result.now ≡ self.now.replies }
    {
        let sent = self.sent;
        &self.replies[sent..]
    }

    /// Notes that the first `count` of these bytes were written.
    pub fn sent(&mut self, count: usize)
        requires { count ≤ length self.old.replies }
        ensures { self.new ≡ unwritten self.old (drop count self.old.replies) }
    {
        self.sent += count;
        if self.sent == self.replies.len() {
            self.replies.clear();
            self.sent = 0;
            self.replies.shrink_to(KEPT);
        }
    }

    /// The number of bytes that have arrived and are not answered yet.
    pub fn waiting(&self) -> usize
        ensures { result ≡ length self.now.waiting }
    {
        self.lines.len()
    }

    /// Returns true if a line was too long. If so, no further line is answered.
    pub fn is_cut(&self) -> bool
        ensures { result ≡ self.now.cut }
    {
        self.cut
    }

    /// The counts of lines and operations so far.
    pub fn served(&self) -> Served
        ensures { result ≡ self.now.served }
    {
        self.served
    }

    /// Releases the memory that an idle connection does not need.
    pub fn rest(&mut self)
        ensures { self.new ≡ self.old }
    {
        self.lines.release();
        self.replies.shrink_to(KEPT_IDLE);
    }
}

// Returns the outcome of a turn without memory for a reply.
fn without_room(all_written: bool) -> Result<LineOutcome, Fault>
    ensures full { result ≡ Ok LineOutcome.Full → all_written ≡ false }
    ensures only { (result ≡ Ok LineOutcome.Full) ⊎ (result ≡ Err Memory) }
{
    if all_written {
        Err(Fault::Memory)
    } else {
        Ok(LineOutcome::Full)
    }
}
