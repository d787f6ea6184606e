//! The first half of a pad's exchange: what the peer has and this server lacks is delivered here.
ghost use Rattle.std.specs.Prelude.{◌≡◌, ◌<◌, ℕ, [], false, true, if◌then◌else◌, Some, IfOk, IfErr};
ghost use Rattle.pad_core.specs.declared.exchange.TheConstants.{MAX_BATCH};
ghost use Rattle.pad_model.specs.OldWire.{seen_in_v1};
ghost use Rattle.wire_json.specs.Peers.{pull_request};
ghost use Rattle.relay.specs.Breaks.{Breaks};
ghost use Rattle.relay.specs.Kept.{after_turn, Lacks, SendsPull, IsUnsent, world};
ghost use Rattle.relay.specs.Round.{Reaches, is_readable, line_of};
ghost use Rattle.relay.specs.Round.Stage.{Over, Pulled, Pulling, Pushing, Taking};
ghost use Rattle.relay.specs.Wire.{Wire};

use crate::ask::{deliver, own_vector};
use crate::hear::hear_ops;
use crate::limits::{MAX_OPS, MAX_PULL_TURNS};
use crate::peer_lines::LineExchange;
use crate::talk::Talk;
use conversation::Pads;
use pad_core::MAX_BATCH;
use pad_model::{Items, Name, Op, Seen, seen_in_v1};
use std::alloc::Global;
use wire_json::{Told, pull_line};
use wire_lines::Fault;

/// The outcome of a turn.
#[derive(Clone, Copy)]
pub enum PullTurn {
    /// An operation was delivered here, so another turn may follow.
    Gained,
    /// No operation was delivered.
    Spent,
    /// The peer or this server refused, or the peer's version cannot express something: the exchange of this pad is
    /// over.
    Over,
}

/// Pulls a pad's operations, turn by turn, until a turn delivers none. Returns whether the exchange of the pad goes on.
pub fn pull_pad<P: Pads, L: LineExchange>(
    alloc: Global,
    pads: &mut P,
    link: &mut L,
    talk: &mut Talk,
    pad: &Name,
) -> Result<bool, Fault>
    ensures goes { IfOk result (λ on. Reaches P.calls P.names (Pulling pad.now 0)
        (world talk.old pads.old (L.wire link.old))
        (if on then Pushing pad.now 0 else Over) (world talk.new pads.new (L.wire link.new))) }
    ensures breaks { IfErr result (λ fault. Breaks P.calls P.names fault (Pulling pad.now 0)
        (world talk.old pads.old (L.wire link.old)) pads.new (L.wire link.new)) }
    ensures cell { (talk.new.cell ≡ talk.old.cell) × (talk.new.cells ≡ talk.old.cells) }
{
    for turn in 0..MAX_PULL_TURNS {
        match pull_turn(alloc, pads, link, talk, pad, turn)? {
            PullTurn::Gained => {}
            PullTurn::Spent => return Ok(true),
            PullTurn::Over => return Ok(false),
        }
    }
    Ok(true)
}

/// One turn: sends this server's vector to the peer, and delivers the operations that it answers with.
fn pull_turn<P: Pads, L: LineExchange>(
    alloc: Global,
    pads: &mut P,
    link: &mut L,
    talk: &mut Talk,
    pad: &Name,
    turn: u64,
) -> Result<PullTurn, Fault>
    requires { turn < MAX_PULL_TURNS }
    ensures goes { IfOk result (λ came. Reaches P.calls P.names (Pulling pad.now turn)
        (world talk.old pads.old (L.wire link.old))
        (after_turn pad.now turn came) (world talk.new pads.new (L.wire link.new))) }
    ensures breaks { IfErr result (λ fault. Breaks P.calls P.names fault (Pulling pad.now turn)
        (world talk.old pads.old (L.wire link.old)) pads.new (L.wire link.new)) }
    ensures cell { (talk.new.cell ≡ talk.old.cell) × (talk.new.cells ≡ talk.old.cells) }
{
    if !ask_peer(alloc, pads, link, talk, pad)? {
        return Ok(PullTurn::Over);
    }
    take_answer(alloc, pads, link, talk, pad, turn)
}

/// Sends this server's vector of a pad to the peer. Returns false if the exchange of the pad is over.
fn ask_peer<P: Pads, L: LineExchange>(
    alloc: Global,
    pads: &mut P,
    link: &mut L,
    talk: &mut Talk,
    pad: &Name,
) -> Result<bool, Fault>
    ensures goes { IfOk result (λ asked. (turn : ℕ) → turn < MAX_PULL_TURNS
        → Reaches P.calls P.names (Pulling pad.now turn)
        (world talk.old pads.old (L.wire link.old)) (if asked then Pulled pad.now turn else Over)
        (world talk.new pads.new (L.wire link.new))) }
    ensures breaks { IfErr result (λ fault. (turn : ℕ) → turn < MAX_PULL_TURNS
        → Breaks P.calls P.names fault (Pulling pad.now turn)
        (world talk.old pads.old (L.wire link.old)) pads.new (L.wire link.new)) }
    ensures cell { (talk.new.cell ≡ talk.old.cell) × (talk.new.cells ≡ talk.old.cells) }
{
    match own_vector(alloc, pads, pad)? {
        Some(seen) => send_pull(alloc, link, talk, pad, &seen),
        None => Ok(false),
    }
}

/// Asks the peer for what a vector lacks, if it can read the vector.
fn send_pull<L: LineExchange>(
    alloc: Global,
    link: &mut L,
    talk: &mut Talk,
    pad: &Name,
    seen: &Seen,
) -> Result<bool, Fault>
    ensures sent { IfOk result (λ sent. SendsPull pad.now seen.now sent talk.old (L.wire link.old)
        talk.new (L.wire link.new)) }
    ensures unsent { IfErr result (λ fault. (is_readable talk.old.version (seen_in_v1 seen.now)
        ≡ true) × (talk.new ≡ talk.old)
        × IsUnsent fault (line_of (pull_request pad.now seen.now MAX_OPS (Some MAX_BATCH)))
        (L.wire link.old) (L.wire link.new)) }
{
    if !talk.is_readable(seen_in_v1(seen)) {
        talk.relayed = talk.relayed.with_unsaid();
        return Ok(false);
    }
    let line = pull_line(alloc, pad, seen, MAX_OPS, Some(MAX_BATCH))?;
    link.send(line.as_str())?;
    Ok(true)
}

/// Hears the operations of the peer, and delivers them here.
fn take_answer<P: Pads, L: LineExchange>(
    alloc: Global,
    pads: &mut P,
    link: &mut L,
    talk: &mut Talk,
    pad: &Name,
    turn: u64,
) -> Result<PullTurn, Fault>
    ensures goes { IfOk result (λ came. Reaches P.calls P.names (Pulled pad.now turn)
        (world talk.old pads.old (L.wire link.old))
        (after_turn pad.now turn came) (world talk.new pads.new (L.wire link.new))) }
    ensures breaks { IfErr result (λ fault. Breaks P.calls P.names fault (Pulled pad.now turn)
        (world talk.old pads.old (L.wire link.old)) pads.new (L.wire link.new)) }
    ensures cell { (talk.new.cell ≡ talk.old.cell) × (talk.new.cells ≡ talk.old.cells) }
{
    let ops = match hear_ops(alloc, link)? {
        Some(Told::Said(ops)) => ops,
        Some(Told::Refused) => return Ok(PullTurn::Over),
        None => return Err(Fault::PeerReply),
    };
    talk.relayed = talk.relayed.with_pull(turn);
    if take_ops(alloc, pads, talk, pad, ops)? {
        Ok(PullTurn::Gained)
    } else {
        Ok(PullTurn::Spent)
    }
}

/// Delivers operations here, one after another. Returns whether any was delivered.
fn take_ops<P: Pads>(
    alloc: Global,
    pads: &mut P,
    talk: &mut Talk,
    pad: &Name,
    ops: Items<Op>,
) -> Result<bool, Fault>
    ensures goes { IfOk result (λ gained. (turn : ℕ) (wire : Wire)
        → Reaches P.calls P.names (Taking pad.now turn false ops)
        (world talk.old pads.old wire) (Taking pad.now turn gained [])
        (world talk.new pads.new wire)) }
    ensures lacks { IfErr result (λ fault. (turn : ℕ) (wire : Wire)
        → Lacks P.calls P.names fault (Taking pad.now turn false ops)
        (world talk.old pads.old wire) pads.new) }
    ensures cell { (talk.new.cell ≡ talk.old.cell) × (talk.new.cells ≡ talk.old.cells) }
{
    let mut gained = false;
    for op in ops.into_vec() {
        match deliver(alloc, pads, pad, op)? {
            Some(count) => {
                talk.relayed = talk.relayed.with_pulled(count);
                gained = gained || count > 0;
            }
            None => talk.relayed = talk.relayed.with_refused(),
        }
    }
    Ok(gained)
}
