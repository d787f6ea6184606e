//! The operations that one answer holds.
ghost use Rattle.std.specs.Prelude.{◌≡◌, ◌*◌, min, sum_by, take, MatchResult};
ghost use Rattle.pad_model.specs.declared.refusal.Refusal.{Refusal};
ghost use Rattle.std.specs.List.{filter};
ghost use Rattle.op_log.specs.Log as log;
ghost use Rattle.pad_core.specs.Batch.{batch_of};
ghost use Rattle.pad_core.specs.Batch as batch;
ghost use Rattle.pad_core.specs.Exchange.{readable};
ghost use Rattle.pad_core.specs.Exchange as exchange_spec;

use crate::exchange::MAX_BATCH_BYTES;
use crate::ledger::Ledger;
use pad_model::{Items, Op, Part, Refusal, Seen, Sequence, Version, op_in_v1};
use std::alloc::Global;

/// Bytes of an operation besides its parts and the counts that it names: the author, the kind, the name and the keys.
pub const OP_BYTES: u64 = 128;

/// Bytes of a count that an operation names, as `[65535,200000],`.
pub const COUNT_BYTES: u64 = 16;

/// Bytes of a part besides its text and its spans: the kind, two stamps and the keys.
pub const PART_BYTES: u64 = 128;

/// Bytes of a span, as `[281474976710656,65535,10000],`.
pub const SPAN_BYTES: u64 = 40;

/// Bytes of a character of a text: `\u0001` is the longest form.
pub const CHARACTER_BYTES: u64 = 6;

/// The first operations that `seen` does not cover: at most `most`, and as many as fit in an answer but at least the
/// first, up to the first that the peer cannot read.
pub fn copy_batch<S: Sequence>(
    alloc: Global,
    version: Version,
    ledger: &Ledger<S>,
    seen: &Seen,
    most: u64,
) -> Result<Items<Op>, Refusal>
    ensures { MatchResult result (λ copies. copies
        ≡ readable version (batch_of (take most (filter (log.is_missing seen.now) ledger.now))))
        (λ e. e ≡ Refusal.Memory) }
{
    let mut copies = Items::new(alloc);
    let mut room = MAX_BATCH_BYTES;
    let mut from = 0;
    for _n in 0..most {
        let Some(found) = ledger.next_missing(alloc, seen, from)? else {
            return Ok(copies);
        };
        let size = size_of(&found.op);
        if 0 < copies.len() && room < size {
            return Ok(copies);
        }
        if !can_read(version, &found.op) {
            return Ok(copies);
        }
        copies.push(found.op)?;
        room = room.saturating_sub(size);
        from = found.behind;
    }
    Ok(copies)
}

/// Returns true if a peer can read an operation.
fn can_read(version: Version, op: &Op) -> bool
    ensures { result ≡ exchange_spec.can_read version op.now }
{
    match version {
        Version::One => op_in_v1(op),
        Version::Two => true,
    }
}

/// The most bytes that an operation takes, or `u64::MAX` if that is more.
fn size_of(op: &Op) -> u64
    ensures { result ≡ min (batch.size_of op.now) u64.MAX }
{
    let counts = times(COUNT_BYTES, op.seen.pairs().len());
    OP_BYTES
        .saturating_add(counts)
        .saturating_add(total_size(op.parts.as_slice()))
}

/// The bytes that the parts take together, or `u64::MAX` if they are more.
fn total_size(parts: &[Part]) -> u64
    ensures { result ≡ min (sum_by batch.size_of_part parts.now) u64.MAX }
{
    parts
        .iter()
        .fold(0, |total, part| total.saturating_add(size_of_part(part)))
}

/// The most bytes that a part takes, or `u64::MAX` if that is more.
fn size_of_part(part: &Part) -> u64
    ensures { result ≡ min (batch.size_of_part part.now) u64.MAX }
{
    match part {
        Part::Insert(run) => PART_BYTES.saturating_add(times(CHARACTER_BYTES, run.text.len())),
        Part::Delete(spans) => PART_BYTES.saturating_add(times(SPAN_BYTES, spans.len())),
        Part::Comment { text, .. } => PART_BYTES.saturating_add(times(CHARACTER_BYTES, text.len())),
        Part::Resolve { .. } => PART_BYTES,
    }
}

/// `n` times `count`, or `u64::MAX` if that is more.
fn times(n: u64, count: usize) -> u64
    ensures { result ≡ min (n * count) u64.MAX }
{
    n.saturating_mul(count as u64)
}
