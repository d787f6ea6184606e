//! The checks that an operation must pass by itself, before any pad is asked.
ghost use Rattle.std.specs.Prelude.{◌≡◌, ◌≤◌, min, sum_by};
ghost use Rattle.std.specs.List.{list_all};
ghost use Rattle.pad_model.specs.Checked.{is_within, is_seen, fits_clock, is_run, is_span, is_part, part_size, is_edit, counters_rise, are_parts, is_checked};

use crate::limits::{MAX_COMMENT, MAX_COUNTER, MAX_NUMBER, MAX_PARTS, MAX_TEXT};
use crate::op::{Op, Part, Run, Span};
use crate::seen::Counted;
use crate::stamp::Stamp;

/// Returns true if an operation is within its limits.
pub fn is_checked(op: &Op) -> bool
    ensures { result ≡ is_checked op.now }
{
    let origin = op.name.origin;
    op.author.is_well_formed()
        && origin >= 1
        && is_within(op.name.number, MAX_NUMBER)
        && is_seen(origin, op.seen.pairs())
        && are_parts(origin, op.parts.as_slice())
}

fn is_within(n: u64, most: u64) -> bool
    ensures { result ≡ is_within n most }
{
    1 <= n && n <= most
}

fn is_seen(own: u16, pairs: &[Counted]) -> bool
    ensures { result ≡ is_seen own pairs.now }
{
    pairs.iter().all(|pair| {
        is_within(pair.count, MAX_NUMBER) && pair.origin >= 1 && pair.origin != own
    })
}

fn are_parts(origin: u16, parts: &[Part]) -> bool
    ensures { result ≡ are_parts origin parts.now }
{
    is_within(parts.len() as u64, MAX_PARTS)
        && (parts.len() <= 1 || are_edits(parts))
        && is_each_part(origin, parts)
        && total_size(parts) <= MAX_TEXT
        && counters_rise(parts)
}

/// Returns true if all parts only insert and erase.
pub fn are_edits(parts: &[Part]) -> bool
    ensures { result ≡ list_all is_edit parts.now }
{
    parts.iter().all(is_edit)
}

fn is_edit(part: &Part) -> bool
    ensures { result ≡ is_edit part.now }
{
    matches!(part, Part::Insert(_) | Part::Delete(_))
}

fn is_each_part(origin: u16, parts: &[Part]) -> bool
    ensures { result ≡ list_all (is_part origin) parts.now }
{
    parts.iter().all(|part| is_part(origin, part))
}

fn is_part(origin: u16, part: &Part) -> bool
    ensures { result ≡ is_part origin part.now }
{
    match part {
        Part::Insert(run) => is_run(origin, run),
        Part::Delete(spans) => !spans.is_empty() && are_spans(spans.as_slice()),
        Part::Comment { text, .. } => is_within(text.len() as u64, MAX_COMMENT),
        Part::Resolve { comment } => comment.origin >= 1 && comment.number >= 1,
    }
}

fn is_run(origin: u16, run: &Run) -> bool
    ensures { result ≡ is_run origin run.now }
{
    let len = run.text.len() as u64;
    is_within(len, MAX_TEXT) && run.first.replica() == origin && fits_clock(run.first, len)
}

fn are_spans(spans: &[Span]) -> bool
    ensures { result ≡ list_all is_span spans.now }
{
    spans.iter().all(is_span)
}

fn is_span(span: &Span) -> bool
    ensures { result ≡ is_span span.now }
{
    span.len >= 1 && fits_clock(span.first, span.len)
}

fn fits_clock(first: Stamp, len: u64) -> bool
    ensures { result ≡ fits_clock first.counter len }
{
    first.counter().saturating_add(len) <= MAX_COUNTER + 1
}

/// Returns true if each insertion's counters are above those of the one before it.
fn counters_rise(parts: &[Part]) -> bool
    requires { sum_by part_size parts.now ≤ MAX_TEXT }
    ensures { result ≡ counters_rise 0 parts.now }
{
    let mut floor = 0;
    for part in parts {
        if let Part::Insert(run) = part {
            let counter = run.first.counter();
            if counter < floor {
                return false;
            }
            floor = counter + run.text.len() as u64;
        }
    }
    true
}

/// The number of characters that all parts insert or erase, at most u64::MAX.
fn total_size(parts: &[Part]) -> u64
    ensures { result ≡ min (sum_by part_size parts.now) u64.MAX }
{
    parts
        .iter()
        .fold(0, |total, part| total.saturating_add(size_of(part)))
}

/// The number of characters that the part inserts or erases, at most u64::MAX.
fn size_of(part: &Part) -> u64
    ensures { result ≡ min (part_size part.now) u64.MAX }
{
    match part {
        Part::Insert(run) => run.text.len() as u64,
        Part::Delete(spans) => total_len(spans.as_slice()),
        Part::Comment { .. } | Part::Resolve { .. } => 0,
    }
}

/// The total length of the spans, at most u64::MAX.
fn total_len(spans: &[Span]) -> u64
    ensures { result ≡ min (sum_by (λ span. span.len) spans.now) u64.MAX }
{
    spans
        .iter()
        .fold(0, |total, span| total.saturating_add(span.len))
}
