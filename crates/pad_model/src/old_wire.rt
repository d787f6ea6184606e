//! The operations and version vectors that version 1 of the wire can express.
ghost use Rattle.std.specs.Prelude.{◌≡◌};
ghost use Rattle.std.specs.List.{list_all};
ghost use Rattle.pad_model.specs.OldWire.{old_stamps, old_parent, old_part, seen_in_v1, op_in_v1};

use crate::limits::{OLD_COUNTER, OLD_REPLICA};
use crate::op::{Op, Part, Span};
use crate::seen::Seen;
use crate::stamp::Stamp;

/// Returns true if version 1 of the wire can express the operation.
pub fn op_in_v1(op: &Op) -> bool
    ensures { result ≡ op_in_v1 op.now }
{
    op.parts.len() == 1
        && are_old_parts(op.parts.as_slice())
        && op.name.origin <= OLD_REPLICA
        && seen_in_v1(&op.seen)
}

/// Returns true if version 1 of the wire can express the version vector.
pub fn seen_in_v1(seen: &Seen) -> bool
    ensures { result ≡ seen_in_v1 seen.now }
{
    seen.pairs().iter().all(|pair| pair.origin <= OLD_REPLICA)
}

fn are_old_parts(parts: &[Part]) -> bool
    ensures { result ≡ list_all old_part parts.now }
{
    parts.iter().all(is_old_part)
}

fn is_old_part(part: &Part) -> bool
    ensures { result ≡ old_part part.now }
{
    match part {
        Part::Insert(run) => {
            has_old_stamps(run.first, run.text.len() as u64) && is_old_parent(run.after)
        }
        Part::Delete(spans) => are_old_spans(spans.as_slice()),
        Part::Comment { first, last, .. } => has_old_stamps(*first, 1) && has_old_stamps(*last, 1),
        Part::Resolve { comment } => comment.origin <= OLD_REPLICA,
    }
}

fn are_old_spans(spans: &[Span]) -> bool
    ensures { result ≡ list_all (λ span. old_stamps span.first span.len) spans.now }
{
    spans
        .iter()
        .all(|span| has_old_stamps(span.first, span.len))
}

fn is_old_parent(parent: Option<Stamp>) -> bool
    ensures { result ≡ old_parent parent }
{
    match parent {
        None => true,
        Some(stamp) => has_old_stamps(stamp, 1),
    }
}

/// Returns true if version 1 can express `len` consecutive stamps that start with `first`.
fn has_old_stamps(first: Stamp, len: u64) -> bool
    ensures { result ≡ old_stamps first len }
{
    let counter = first.counter();
    counter <= OLD_COUNTER
        && counter.saturating_add(len) <= OLD_COUNTER + 1
        && first.replica() <= OLD_REPLICA
}
