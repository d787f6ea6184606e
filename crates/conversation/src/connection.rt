//! One connection: each line is answered and its reply written before more is read.
ghost use Rattle.std.specs.Prelude.{◌≡◌, ◌≢◌, ℕ, ◌<◌, false, [], length, take, Ok, Err, IfOk, IfErr, OnErr, OnOk};
ghost use Rattle.std.specs.Bool.{OnTrue};
ghost use Rattle.std.specs.Io.KnownBytes.{Appends};
ghost use Rattle.wire_lines.specs.Buffer.{IsPart};
ghost use Rattle.wire_lines.specs.declared.fault.Fault.TheVariants.{Memory, ReadFault};
ghost use Rattle.conversation.specs.Connection.{ServesAll, BreaksOff, ServesRead, HasFaultCause, HasWriteCause, RunsOut, TellsFault, ThenEnds};
ghost use Rattle.conversation.specs.Talk.{AnswersNext, TellsLong, unwritten};

use crate::conversation::{Conversation, LineOutcome};
use crate::pads::Pads;
use crate::served::Served;
use shared_pads::Gate;
use std::alloc::Global;
use wire_json::memory_line;
use wire_lines::{Fault, Inlet, Sink, Source, write_all};

/// Answers the lines of a reader until they end or one is too long. Then, and after a fault, it ends the session.
pub fn serve_connection<P: Pads, R: Source, W: Sink, G: Gate>(
    alloc: Global,
    pads: &mut P,
    reader: &mut R,
    writer: &mut W,
    connection: u64,
    gate: &G,
) -> Result<Served, Fault>
    // On success all lines were answered, and exactly their answers were written.
    ensures all { IfOk result (λ served. ThenEnds
        (ServesAll P.calls pads.old (R.remaining reader.old) served (W.contents writer.old)
        (W.contents writer.new))
        P.ends pads.new) }

    // After a fault, a prefix of the answers was written.
    ensures fault { OnErr result (ThenEnds
        (BreaksOff P.calls pads.old (R.remaining reader.old) (W.contents writer.old)
        (W.contents writer.new))
        P.ends pads.new) }

    // If the reader failed, each line whose line feed was read was answered, and all these answers were written.
    ensures unread { result ≡ Err ReadFault → ThenEnds
        (ServesRead P.calls pads.old (R.remaining reader.old) (R.remaining reader.new)
        (W.contents writer.old) (W.contents writer.new))
        P.ends pads.new }

    // If memory ran out, all answers so far were written, and then the out-of-memory line.
    ensures memory { result ≡ Err Memory → ThenEnds
        (RunsOut P.calls pads.old (R.remaining reader.old) (W.contents writer.old)
        (W.contents writer.new))
        P.ends pads.new }

    // The fault matches what failed at the devices.
    ensures cause { HasFaultCause result (R.failures reader.old) (R.failures reader.new)
        (R.reads reader.old) (R.reads reader.new)
        (W.failures writer.old) (W.failures writer.new) }
{
    let served = serve_lines(alloc, pads, reader, writer, connection, gate);
    pads.end(alloc);
    served
}

// Answers the lines of a reader. It does not end the session.
fn serve_lines<P: Pads, R: Source, W: Sink, G: Gate>(
    alloc: Global,
    pads: &mut P,
    reader: &mut R,
    writer: &mut W,
    connection: u64,
    gate: &G,
) -> Result<Served, Fault>
    ensures all { IfOk result (λ served. ServesAll P.calls pads.old (R.remaining reader.old) served
        (W.contents writer.old) (W.contents writer.new) pads.new) }
    ensures fault { OnErr result (BreaksOff P.calls pads.old (R.remaining reader.old)
        (W.contents writer.old) (W.contents writer.new) pads.new) }
    ensures unread { result ≡ Err ReadFault
        → ServesRead P.calls pads.old (R.remaining reader.old) (R.remaining reader.new)
        (W.contents writer.old) (W.contents writer.new) pads.new }
    ensures memory { result ≡ Err Memory → RunsOut P.calls pads.old (R.remaining reader.old)
        (W.contents writer.old) (W.contents writer.new) pads.new }

    // The fault matches what failed at the devices.
    ensures cause { HasFaultCause result (R.failures reader.old) (R.failures reader.new)
        (R.reads reader.old) (R.reads reader.new)
        (W.failures writer.old) (W.failures writer.new) }
{
    let mut inlet = match Inlet::new(alloc) {
        Ok(inlet) => inlet,
        Err(fault) => return Err(tell_fault(writer, connection, gate, fault)),
    };
    let mut conversation = Conversation::new(alloc);
    loop {
        let ended = inlet.has_ended();
        match answer_next(alloc, pads, &mut conversation, ended, connection, gate) {
            Ok(LineOutcome::Answered) => write_replies(writer, &mut conversation)?,
            Ok(LineOutcome::Cut) => {
                write_replies(writer, &mut conversation)?;
                return Ok(conversation.served());
            }
            Ok(LineOutcome::Waits) => {
                if ended {
                    return Ok(conversation.served());
                }
                if let Err(fault) = conversation.receive_from(&mut inlet, reader) {
                    return Err(tell_fault(writer, connection, gate, fault));
                }
            }
            Ok(LineOutcome::Full) => unreachable!(),
            Err(fault) => return Err(tell_fault(writer, connection, gate, fault)),
        }
    }
}

// Answers the next line. Once the input has ended, the bytes that remain are the last line.
fn answer_next<P: Pads, G: Gate>(
    alloc: Global,
    pads: &mut P,
    conversation: &mut Conversation,
    ended: bool,
    connection: u64,
    gate: &G,
) -> Result<LineOutcome, Fault>
    requires open { conversation.old.cut ≡ false }
    requires written { conversation.old.replies ≡ [] }
    ensures answered { result ≡ Ok LineOutcome.Answered
        → AnswersNext P.calls ended pads.old conversation.old pads.new conversation.new }
    ensures shorter { result ≡ Ok LineOutcome.Answered
        → length conversation.new.waiting < length conversation.old.waiting }
    ensures long { result ≡ Ok LineOutcome.Cut
        → TellsLong conversation.old conversation.new × (pads.new ≡ pads.old) }
    ensures waits { result ≡ Ok LineOutcome.Waits
        → (conversation.new ≡ conversation.old) × (pads.new ≡ pads.old)
        × IsPart conversation.new.waiting }
    ensures end { result ≡ Ok LineOutcome.Waits → OnTrue ended (conversation.new.waiting ≡ []) }
    ensures room { result ≢ Ok LineOutcome.Full }
    ensures err { OnErr result ((conversation.new ≡ conversation.old) × (pads.new ≡ pads.old)) }
    ensures fault { IfErr result (λ fault. fault ≡ Memory) }
{
    let turn = conversation.answer(alloc, pads, connection, gate)?;
    if turn == LineOutcome::Waits
        && ended
        && conversation.answer_last(alloc, pads, connection, gate)?
    {
        return Ok(LineOutcome::Answered);
    }
    Ok(turn)
}

// Writes the pending replies, if there are any.
fn write_replies<W: Sink>(writer: &mut W, conversation: &mut Conversation) -> Result<(), Fault>
    ensures whole { OnOk result (Appends (W.contents writer.old) (W.contents writer.new)
        conversation.old.replies) }
    ensures written { OnOk result (conversation.new ≡ unwritten conversation.old []) }
    ensures front { OnErr result ((count : ℕ)
        × Appends (W.contents writer.old) (W.contents writer.new)
        (take count conversation.old.replies)) }
    ensures cause { HasWriteCause result (W.failures writer.old) (W.failures writer.new) }
{
    let count = conversation.replies().len();
    if count > 0 {
        write_all(writer, conversation.replies())?;
        conversation.sent(count);
    }
    Ok(())
}

// Writes the out-of-memory line if that is the fault. Returns the fault that ends the connection.
fn tell_fault<W: Sink, G: Gate>(writer: &mut W, connection: u64, gate: &G, fault: Fault) -> Fault
    ensures { TellsFault fault result (W.failures writer.old) (W.failures writer.new)
        (W.contents writer.old) (W.contents writer.new) }
{
    match fault {
        Fault::Memory => {
            gate.before_reply(connection, false);
            match write_all(writer, memory_line()) {
                Ok(()) => Fault::Memory,
                Err(failed) => failed,
            }
        }
        other => other,
    }
}
