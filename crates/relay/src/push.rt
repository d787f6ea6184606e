//! The second half of a pad's exchange: what this server has and the peer lacks is pushed to it.
ghost use Rattle.std.specs.Prelude.{◌≡◌, ◌⊎◌, ◌<◌, ◌+◌, ℕ, if◌then◌else◌, None, Some, IfOk, IfErr, OnOk};
ghost use Rattle.wire_json.specs.Peers.{push_answer, push_request, vector_request};
ghost use Rattle.wire_lines.specs.declared.fault.Fault.TheVariants.{Memory, PeerReply};
ghost use Rattle.relay.specs.Breaks.{Breaks, BreaksGiving, BreaksHearing};
ghost use Rattle.relay.specs.Kept.{Gives, HearsAll, IsUnsent, counts, world};
ghost use Rattle.relay.specs.Round.{Reaches, after_push, if_all, line_of, with_op};
ghost use Rattle.relay.specs.Round as round;
ghost use Rattle.relay.specs.Round.Stage.{Lacking, Over, Pushing};
ghost use Rattle.relay.specs.Wire.{HearsAs, MissesAnswer, Writes};

use crate::ask::own_ops;
use crate::hear::{hear_push, hear_vector};
use crate::limits::MAX_PUSH_TURNS;
use crate::peer_lines::LineExchange;
use crate::talk::Talk;
use conversation::Pads;
use pad_core::Pushed;
use pad_model::{Name, Op, Seen, op_in_v1};
use std::alloc::Global;
use wire_json::{Told, push_line, vector_line};
use wire_lines::Fault;

/// What was written of a batch.
#[derive(Clone, Copy)]
pub struct GivenBatch {
    /// The operations that were written, whose answers are due.
    pub due: usize,
    /// False if the peer's version cannot express one.
    pub whole: bool,
}

/// What became of a batch at the peer.
#[derive(Clone, Copy)]
pub struct HeardBatch {
    /// The peer delivered an operation.
    pub gained: bool,
    /// The peer has all of them.
    pub all: bool,
}

/// Pushes a pad's operations, turn by turn, until the peer delivers none of a turn.
pub fn push_pad<P: Pads, L: LineExchange>(
    alloc: Global,
    pads: &mut P,
    link: &mut L,
    talk: &mut Talk,
    pad: &Name,
) -> Result<(), Fault>
    ensures goes { IfOk result (λ _. Reaches P.calls P.names (Pushing pad.now 0)
        (world talk.old pads.old (L.wire link.old))
        Over (world talk.new pads.new (L.wire link.new))) }
    ensures breaks { IfErr result (λ fault. Breaks P.calls P.names fault (Pushing pad.now 0)
        (world talk.old pads.old (L.wire link.old)) pads.new (L.wire link.new)) }
    ensures cell { (talk.new.cell ≡ talk.old.cell) × (talk.new.cells ≡ talk.old.cells) }
{
    for turn in 0..MAX_PUSH_TURNS {
        if !push_turn(alloc, pads, link, talk, pad, turn)? {
            return Ok(());
        }
    }
    Ok(())
}

/// One turn: pushes what the peer lacks, by what it is known to have, or else by its vector, for which it is asked. Returns
/// whether another turn may follow.
fn push_turn<P: Pads, L: LineExchange>(
    alloc: Global,
    pads: &mut P,
    link: &mut L,
    talk: &mut Talk,
    pad: &Name,
    turn: u64,
) -> Result<bool, Fault>
    requires { turn < MAX_PUSH_TURNS }
    ensures goes { IfOk result (λ more. Reaches P.calls P.names (Pushing pad.now turn)
        (world talk.old pads.old (L.wire link.old))
        (if more then Pushing pad.now (turn + 1) else Over)
        (world talk.new pads.new (L.wire link.new))) }
    ensures breaks { IfErr result (λ fault. Breaks P.calls P.names fault (Pushing pad.now turn)
        (world talk.old pads.old (L.wire link.old)) pads.new (L.wire link.new)) }
    ensures cell { (talk.new.cell ≡ talk.old.cell) × (talk.new.cells ≡ talk.old.cells) }
{
    if let Some(seen) = talk.take_known() {
        return push_lacking(alloc, pads, link, talk, pad, seen);
    }
    send_vector(alloc, link, pad)?;
    match hear_vector(alloc, link)? {
        Some(Told::Said(seen)) => push_lacking(alloc, pads, link, talk, pad, seen),
        Some(Told::Refused) => Ok(false),
        None => Err(Fault::PeerReply),
    }
}

/// Asks for the peer's vector of a pad.
fn send_vector<L: LineExchange>(alloc: Global, link: &mut L, pad: &Name) -> Result<(), Fault>
    ensures sent { OnOk result (Writes (line_of (vector_request pad.now)) (L.wire link.old)
        (L.wire link.new)) }
    ensures unsent { IfErr result (λ fault. IsUnsent fault (line_of (vector_request pad.now))
        (L.wire link.old) (L.wire link.new)) }
{
    let line = vector_line(alloc, pad)?;
    link.send(line.as_str())
}

/// Pushes what a vector lacks. All operations are written before their answers are read, which costs one round trip
/// instead of one for each. If the peer has all of them then, it is known what it has. Returns whether another turn may
/// follow.
fn push_lacking<P: Pads, L: LineExchange>(
    alloc: Global,
    pads: &mut P,
    link: &mut L,
    talk: &mut Talk,
    pad: &Name,
    seen: Seen,
) -> Result<bool, Fault>
    ensures goes { IfOk result (λ more. (turn : ℕ)
        → Reaches P.calls P.names (Lacking pad.now turn seen)
        (world talk.old pads.old (L.wire link.old))
        (if more then Pushing pad.now (turn + 1) else Over)
        (world talk.new pads.new (L.wire link.new))) }
    ensures breaks { IfErr result (λ fault. (turn : ℕ)
        → Breaks P.calls P.names fault (Lacking pad.now turn seen)
        (world talk.old pads.old (L.wire link.old)) pads.new (L.wire link.new)) }
    ensures cell { (talk.new.cell ≡ talk.old.cell) × (talk.new.cells ≡ talk.old.cells) }
{
    let mut after = copy_of(&seen)?;
    let Some(ops) = own_ops(alloc, pads, pad, seen)? else {
        return Ok(false);
    };
    let given = give_all::<P, L>(alloc, link, talk, pad, ops.as_slice(), &mut after)?;
    let heard = hear_all::<P, L>(alloc, link, talk, given.due)?;
    talk.note_known(if_all(heard.all, after));
    Ok(heard.gained && given.whole)
}

/// Pushes operations to the peer, up to the first that the peer's version cannot express. `after` becomes the vector of a
/// peer that has those that were pushed.
fn give_all<P: Pads, L: LineExchange>(
    alloc: Global,
    link: &mut L,
    talk: &mut Talk,
    pad: &Name,
    ops: &[Op],
    after: &mut Seen,
) -> Result<GivenBatch, Fault>
    ensures gives { IfOk result (λ given. Gives P.calls P.names pad.now ops.now given after.old
        after.new talk.old (L.wire link.old) talk.new (L.wire link.new)) }
    ensures breaks { IfErr result (λ fault. BreaksGiving P.calls P.names fault pad.now ops.now
        after.old talk.old (L.wire link.old) (L.wire link.new)) }
    ensures cell { (talk.new.cell ≡ talk.old.cell) × (talk.new.cells ≡ talk.old.cells) }
{
    let mut due = 0usize;
    for op in ops {
        if !talk.is_readable(op_in_v1(op)) {
            talk.relayed = talk.relayed.with_unsaid();
            return Ok(GivenBatch { due, whole: false });
        }
        cover(after, op)?;
        send_push(alloc, link, pad, op)?;
        due += 1;
    }
    Ok(GivenBatch { due, whole: true })
}

/// Hears what became of this many operations.
fn hear_all<P: Pads, L: LineExchange>(
    alloc: Global,
    link: &mut L,
    talk: &mut Talk,
    due: usize,
) -> Result<HeardBatch, Fault>
    ensures hears { IfOk result (λ heard. HearsAll P.calls P.names due heard talk.old
        (L.wire link.old) talk.new (L.wire link.new)) }
    ensures breaks { IfErr result (λ fault. BreaksHearing P.calls P.names fault due talk.old
        (L.wire link.old) (L.wire link.new)) }
    ensures cell { (talk.new.cell ≡ talk.old.cell) × (talk.new.cells ≡ talk.old.cells) }
{
    let mut gained = false;
    let mut all = true;
    for _ in 0..due {
        let told = hear_told(alloc, link, talk)?;
        gained |= is_delivered(&told);
        all &= is_had(&told);
    }
    Ok(HeardBatch { gained, all })
}

fn copy_of(seen: &Seen) -> Result<Seen, Fault>
    ensures copied { IfOk result (λ copy. copy ≡ seen.now) }
    ensures memory { IfErr result (λ fault. fault ≡ Memory) }
{
    Ok(seen.clone()?)
}

/// Makes a vector cover an operation, and with it all earlier ones of its origin.
fn cover(seen: &mut Seen, op: &Op) -> Result<(), Fault>
    ensures covered { OnOk result (seen.new ≡ with_op op.now seen.old) }
    ensures memory { IfErr result (λ fault. fault ≡ Memory) }
{
    if seen.count(op.name.origin) < op.name.number {
        seen.set(op.name.origin, op.name.number)
            .map_err(|_| Fault::Memory)?;
    }
    Ok(())
}

/// The vector, if the peer has all that was pushed.
fn if_all(all: bool, seen: Seen) -> Option<Seen>
    ensures { result ≡ if_all all seen }
{
    if all { Some(seen) } else { None }
}

/// Pushes an operation to the peer.
fn send_push<L: LineExchange>(alloc: Global, link: &mut L, pad: &Name, op: &Op) -> Result<(), Fault>
    ensures sent { OnOk result (Writes (line_of (push_request pad.now op.now)) (L.wire link.old)
        (L.wire link.new)) }
    ensures unsent { IfErr result (λ fault. IsUnsent fault (line_of (push_request pad.now op.now))
        (L.wire link.old) (L.wire link.new)) }
{
    let line = push_line(alloc, pad, op)?;
    link.send(line.as_str())
}

/// Hears what became of an operation that was pushed, and counts it.
fn hear_told<L: LineExchange>(
    alloc: Global,
    link: &mut L,
    talk: &mut Talk,
) -> Result<Told<Pushed>, Fault>
    ensures heard { IfOk result (λ told. HearsAs push_answer (Some told) (L.wire link.old)
        (L.wire link.new) × (talk.new ≡ counts (after_push told) talk.old)) }
    ensures fault { IfErr result (λ fault. MissesAnswer fault (L.wire link.old) (L.wire link.new)
        ⊎ ((fault ≡ PeerReply) × HearsAs push_answer None (L.wire link.old) (L.wire link.new))) }
    ensures cell { (talk.new.cell ≡ talk.old.cell) × (talk.new.cells ≡ talk.old.cells) }
{
    let Some(told) = hear_push(alloc, link)? else {
        return Err(Fault::PeerReply);
    };
    talk.relayed = match &told {
        Told::Said(Pushed::Delivered) => talk.relayed.with_pushed(),
        Told::Said(_) => talk.relayed,
        Told::Refused => talk.relayed.with_refused(),
    };
    Ok(told)
}

/// Returns true if the peer delivered an operation.
fn is_delivered(told: &Told<Pushed>) -> bool
    ensures { result ≡ round.is_delivered told.now }
{
    matches!(told, Told::Said(Pushed::Delivered))
}

/// Returns true if the peer has an operation: it delivered it, or had it before.
fn is_had(told: &Told<Pushed>) -> bool
    ensures { result ≡ round.is_had told.now }
{
    matches!(told, Told::Said(Pushed::Delivered | Pushed::Repeat))
}
