//! A pushed operation, and the release of those that waited for it.
ghost use Rattle.std.specs.Prelude.{◌≡◌, ◌≤◌, length, ◌⊎◌, ℕ, ◌+◌, ◌<◌, ◌||◌, ◌==◌, List, IsTrue, Ok, Err, Some, None, option_map, IfOk, IfErr, OnOk, MatchResult, false};
ghost use Rattle.std.specs.List.{AllByRecursion, find};
ghost use Rattle.holdback.specs.Held.{is_covered, is_held, is_ready};
ghost use Rattle.pad_model.specs.declared.op.Op.{Op};
ghost use Rattle.pad_core.specs.Counts.{vector_of};
ghost use Rattle.pad_core.specs.Delivered.{delivery_refusal};
ghost use Rattle.pad_model.specs.Answers.{Answers};
ghost use Rattle.pad_model.specs.Checked.{is_checked};
ghost use Rattle.pad_core.specs.Exchange.{IsStuck, both_of, delivered, received, steps, unsettled, waiting, Stopped};
ghost use Rattle.pad_core.specs.Exchange as exchange;
ghost use Rattle.pad_core.specs.Released.{delivery};

use crate::append::append;
use crate::ledger::Ledger;
use crate::reply::{PadReply, Pushed};
use holdback::{Hold, MAX_HELD, Offer, is_ready};
use op_log::MadeList;
use pad_model::{Op, OpName, Refusal, Seen, Sequence};
use std::alloc::Global;

/// The numbers of held operations that a release delivered and dropped.
#[derive(Clone, Copy)]
pub struct Released {
    pub delivered: u64,
    pub dropped: u64,
}

/// Takes an operation from a peer, and releases what waited. A release that runs out of memory keeps what it delivered,
/// and the operation that it could not deliver stays held.
pub fn push<S: Sequence>(
    alloc: Global,
    ledger: &mut Ledger<S>,
    made: &mut MadeList,
    held: &mut Hold,
    replica: u16,
    op: &Op,
) -> Result<PadReply, Refusal>
    requires held { AllByRecursion (λ op. IsTrue (is_checked op)) held.old }
    requires room { length ledger.old ≤ made.old.room }
    ensures answer { Answers (ledger.old, held.old) (exchange.push replica op.now (ledger.old, held.old))
        result (ledger.new, held.new) ⊎ ((result ≡ Err Refusal.Memory)
        × Stopped replica op.now (ledger.old, held.old) (ledger.new, held.new)) }
    ensures held { AllByRecursion (λ op. IsTrue (is_checked op)) held.new }
    ensures made { made.new.made ≡ made.old.made }
    ensures grown { length ledger.old ≤ length ledger.new }
    ensures room { length ledger.new ≤ made.new.room }
{
    let state = receive(alloc, ledger, made, held, replica, op)?;
    let released = settle(alloc, ledger, made, held)?;
    Ok(PadReply::Pushed {
        now: ledger.len(),
        state,
        released: released.delivered,
        dropped: released.dropped,
    })
}

/// Delivers an operation, holds it back or knows it already, unless it is refused.
fn receive<S: Sequence>(
    alloc: Global,
    ledger: &mut Ledger<S>,
    made: &mut MadeList,
    held: &mut Hold,
    replica: u16,
    op: &Op,
) -> Result<Pushed, Refusal>
    requires held { AllByRecursion (λ op. IsTrue (is_checked op)) held.old }
    requires room { length ledger.old ≤ made.old.room }
    ensures answer { Answers (ledger.old, held.old) (received replica op.now (ledger.old, held.old))
        result (ledger.new, held.new) }
    ensures held { AllByRecursion (λ op. IsTrue (is_checked op)) held.new }
    ensures made { made.new.made ≡ made.old.made }
    ensures grown { length ledger.old ≤ length ledger.new }
    ensures room { length ledger.new ≤ made.new.room }
{
    op.check()?;
    if is_known(ledger, held, op.name) {
        return Ok(Pushed::Repeat);
    }
    if op.name.origin == replica {
        return Err(Refusal::PeerFault);
    }
    if is_ready(op, ledger.seen()) {
        return deliver(alloc, ledger, made, op);
    }
    hold_back(held, op, ledger.seen())
}

/// Holds back a new operation of another server that has to wait for others.
fn hold_back(held: &mut Hold, op: &Op, seen: &Seen) -> Result<Pushed, Refusal>
    requires new { (is_covered seen.now op.now.name || is_held op.now.name held.old) ≡ false }
    requires waits { is_ready seen.now op.now ≡ false }
    ensures answer { Answers held.old (waiting op.now held.old) result held.new }
{
    if held.len() >= MAX_HELD {
        return Err(Refusal::HoldFull);
    }
    let op = op.clone()?;
    match held.offer(op, seen)? {
        Offer::Held => Ok(Pushed::Held),
        Offer::Ready(_) | Offer::Repeat => unreachable!(),
    }
}

/// Returns true if an operation was delivered or is held.
fn is_known<S: Sequence>(ledger: &Ledger<S>, held: &Hold, name: OpName) -> bool
    ensures { result ≡ (is_covered (vector_of ledger.now) name || is_held name held.now) }
{
    if ledger.seen().covers(name) {
        return true;
    }
    match held.get(name) {
        Some(_) => true,
        None => false,
    }
}

/// Delivers an operation that is ready, unless it is refused.
fn deliver<S: Sequence>(
    alloc: Global,
    ledger: &mut Ledger<S>,
    made: &mut MadeList,
    op: &Op,
) -> Result<Pushed, Refusal>
    requires checked { IsTrue (is_checked op.now) }
    requires ready { IsTrue (is_ready (vector_of ledger.old) op.now) }
    requires room { length ledger.old ≤ made.old.room }
    ensures answer { (held : List Op) → Answers (ledger.old, held)
        (delivered op.now (delivery_refusal op.now ledger.old) ledger.old held) result
        (ledger.new, held) }
    ensures made { made.new.made ≡ made.old.made }
    ensures grown { length ledger.old ≤ length ledger.new }
    ensures room { length ledger.new ≤ made.new.room }
{
    if let Some(refusal) = ledger.refusal_of(op) {
        return Err(refusal);
    }
    let op = op.clone()?;
    append(alloc, ledger, made, op)?;
    Ok(Pushed::Delivered)
}

/// Releases held operations while one is ready.
fn settle<S: Sequence>(
    alloc: Global,
    ledger: &mut Ledger<S>,
    made: &mut MadeList,
    held: &mut Hold,
) -> Result<Released, Refusal>
    requires held { AllByRecursion (λ op. IsTrue (is_checked op)) held.old }
    requires room { length ledger.old ≤ made.old.room }
    ensures ok { IfOk result (λ released. delivery released ledger.new held.new
        ≡ exchange.settle (unsettled (ledger.old, held.old))) }
    ensures memory { IfErr result (λ e. (e ≡ Refusal.Memory) × (n : ℕ)
        × ((ledger.new, held.new) ≡ both_of (steps n (unsettled (ledger.old, held.old))))
        × IsStuck (ledger.new, held.new)) }
    ensures held { AllByRecursion (λ op. IsTrue (is_checked op)) held.new }
    ensures made { made.new.made ≡ made.old.made }
    ensures grown { length ledger.old ≤ length ledger.new }
    ensures room { length ledger.new ≤ made.new.room }
{
    let mut released = Released {
        delivered: 0,
        dropped: 0,
    };
    for _n in 0..held.len() {
        if !release(alloc, ledger, made, held, &mut released)? {
            return Ok(released);
        }
    }
    Ok(released)
}

/// Takes out the ready operation of the least origin: delivers it, or drops it if it is refused. Returns whether there
/// was one.
fn release<S: Sequence>(
    alloc: Global,
    ledger: &mut Ledger<S>,
    made: &mut MadeList,
    held: &mut Hold,
    released: &mut Released,
) -> Result<bool, Refusal>
    requires held { AllByRecursion (λ op. IsTrue (is_checked op)) held.old }
    requires few { released.old.delivered + released.old.dropped < u64.MAX }
    requires room { length ledger.old ≤ made.old.room }
    ensures ok { OnOk result (delivery released.new ledger.new held.new
        ≡ exchange.release (delivery released.old ledger.old held.old)) }
    ensures settled { result ≡ Ok false → find (is_ready (vector_of ledger.old)) held.old ≡ None }
    ensures memory { IfErr result (λ e. (e ≡ Refusal.Memory)
        × (delivery released.new ledger.new held.new ≡ delivery released.old ledger.old held.old)
        × IsStuck (ledger.new, held.new)) }
    ensures held { AllByRecursion (λ op. IsTrue (is_checked op)) held.new }
    ensures made { made.new.made ≡ made.old.made }
    ensures grown { length ledger.old ≤ length ledger.new }
    ensures room { length ledger.new ≤ made.new.room }
{
    let Some(op) = next_op(ledger, held) else {
        return Ok(false);
    };
    let name = op.name;
    if let Some(_refusal) = ledger.refusal_of(op) {
        held.take(name);
        released.dropped += 1;
        return Ok(true);
    }
    let op = op.clone()?;
    append(alloc, ledger, made, op)?;
    held.take(name);
    released.delivered += 1;
    Ok(true)
}

/// The ready operation of the least origin.
fn next_op<'a, S: Sequence>(ledger: &Ledger<S>, held: &'a Hold) -> Option<&'a Op>
    ensures { option_map (λ op. op.now) result ≡ find (is_ready (vector_of ledger.now)) held.now }
{
    match held.next_ready(ledger.seen()) {
        Some(name) => held.get(name),
        None => None,
    }
}
