//! Reads of a pad by a peer: its vector, and the operations that the peer lacks.
ghost use Rattle.std.specs.Prelude.{◌≡◌, ◌≤◌, IfOk, filter, slice_get, None};
ghost use Rattle.pad_core.specs.Exchange.{given, sayable};
ghost use Rattle.pad_core.specs.Exchange as exchange;
ghost use Rattle.op_log.specs.Log.{is_missing};
ghost use Rattle.pad_model.specs.declared.who.Version.TheVariants.{One};
ghost use Rattle.pad_model.specs.Answers.{Tells};

use crate::batch::copy_batch;
use crate::ledger::Ledger;
use crate::reply::PadReply;
use pad_model::{Items, Op, Refusal, Seen, Sequence, Version, op_in_v1, seen_in_v1};
use std::alloc::{AllocError, Global};

/// The most operations that a pull without a batch gives.
pub const MAX_PULL: u64 = 4;

/// The most operations that a batch gives.
pub const MAX_BATCH: u64 = 256;

/// The most bytes that the operations of a batch take as JSON, if there are several: 1 MiB.
pub const MAX_BATCH_BYTES: u64 = 1_048_576;

/// The number of delivered operations of each origin.
pub fn read_vector<S: Sequence>(ledger: &Ledger<S>, version: Version) -> Result<PadReply, Refusal>
    ensures { Tells (exchange.read_vector version ledger.now) result }
{
    let seen = ledger.seen();
    if !can_tell(version, seen) {
        return Err(Refusal::OldPeer);
    }
    let seen = seen.clone()?;
    Ok(PadReply::Vector {
        now: ledger.len(),
        seen,
    })
}

/// Returns true if a vector can be sent to a peer.
fn can_tell(version: Version, seen: &Seen) -> bool
    ensures { result ≡ exchange.can_tell version seen.now }
{
    match version {
        Version::One => seen_in_v1(seen),
        Version::Two => true,
    }
}

/// The first operations that a peer lacks, `max` of them or a batch. An old peer gets only those before the first that
/// it cannot read.
pub fn pull<S: Sequence>(
    alloc: Global,
    ledger: &Ledger<S>,
    version: Version,
    seen: &Seen,
    max: u64,
    batch: Option<u64>,
) -> Result<PadReply, Refusal>
    ensures { Tells (exchange.pull version seen.now max batch ledger.now) result }
{
    if max == 0 {
        return Err(Refusal::Empty);
    }
    if MAX_PULL < max {
        return Err(Refusal::TooMuch);
    }
    match batch {
        None => pull_some(alloc, ledger, version, seen, max),
        Some(count) => pull_batch(alloc, ledger, version, seen, count),
    }
}

/// The first `max` operations that a peer lacks.
fn pull_some<S: Sequence>(
    alloc: Global,
    ledger: &Ledger<S>,
    version: Version,
    seen: &Seen,
    max: u64,
) -> Result<PadReply, Refusal>
    requires some { 1 ≤ max }
    requires few { max ≤ MAX_PULL }
    ensures { Tells (exchange.pull version seen.now max None ledger.now) result }
{
    if !can_give(ledger, version, seen) {
        return Err(Refusal::OldPeer);
    }
    let missing = ledger.missing(alloc, seen, max)?;
    let ops = give(alloc, version, missing)?;
    Ok(PadReply::Pulled {
        now: ledger.len(),
        ops,
    })
}

/// The first `count` operations that a peer lacks, as many as fit in an answer, but at least the first.
fn pull_batch<S: Sequence>(
    alloc: Global,
    ledger: &Ledger<S>,
    version: Version,
    seen: &Seen,
    count: u64,
) -> Result<PadReply, Refusal>
    ensures { Tells (exchange.pull_batch version seen.now count ledger.now) result }
{
    if count == 0 {
        return Err(Refusal::Empty);
    }
    if MAX_BATCH < count {
        return Err(Refusal::TooMuch);
    }
    if !can_give(ledger, version, seen) {
        return Err(Refusal::OldPeer);
    }
    let ops = copy_batch(alloc, version, ledger, seen, count)?;
    Ok(PadReply::Pulled {
        now: ledger.len(),
        ops,
    })
}

/// Returns true if a peer can be given anything: an old one must be able to read the first operation that it lacks, if
/// any.
fn can_give<S: Sequence>(ledger: &Ledger<S>, version: Version, seen: &Seen) -> bool
    ensures { result ≡ exchange.can_give version
        (slice_get (filter (is_missing seen.now) ledger.now) 0) }
{
    match version {
        Version::Two => true,
        Version::One => ledger.first_missing_in_v1(seen).unwrap_or(true),
    }
}

/// Returns those of the missing operations that a peer is given.
fn give(alloc: Global, version: Version, missing: Items<Op>) -> Result<Items<Op>, Refusal>
    ensures { Tells (given version missing) result }
{
    match version {
        Version::Two => Ok(missing),
        Version::One => give_old(alloc, missing.as_slice()),
    }
}

/// Returns those of the missing operations that an old peer is given.
fn give_old(alloc: Global, missing: &[Op]) -> Result<Items<Op>, Refusal>
    ensures { Tells (given One missing.now) result }
{
    match missing.first() {
        Some(first) if !op_in_v1(first) => Err(Refusal::OldPeer),
        _ => Ok(Items::from_vec(copy_sayable(alloc, missing)?)),
    }
}

/// Copies of the operations up to the first that an old peer cannot read.
fn copy_sayable(alloc: Global, ops: &[Op]) -> Result<Vec<Op>, AllocError>
    ensures { IfOk result (λ copies. copies.items ≡ sayable ops.now) }
{
    let mut copies = Vec::new(alloc);
    for op in ops {
        if !op_in_v1(op) {
            return Ok(copies);
        }
        copies.push(op.clone()?)?;
    }
    Ok(copies)
}
