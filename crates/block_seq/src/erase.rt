//! Erasing cells of the plain sequence by spans of stamps.
ghost use Rattle.std.specs.Prelude.{◌≡◌, ℕ, ◌+◌, ◌≤◌, ◌<◌, ◌&&◌, IsTrue, length, map, count_by, flat_map, is_none, take};
ghost use Rattle.std.specs.List.{IsDistinct, list_all, list_any};
ghost use Rattle.pad_model.specs.Checked.{is_span};
ghost use Rattle.pad_model.specs.Legal.{has_stamp, same_item};
ghost use Rattle.pad_model.specs.Log as log;
ghost use Rattle.pad_model.specs.Operation.{span_stamps};
ghost use Rattle.pad_model.specs.Visible.{is_erased};
ghost use Rattle.pad_model.proofs.Erase.{in_span};
ghost use Rattle.block_seq.specs.Plain.{kept_character, is_hidden_by, erased_at};

use crate::place::PlainCell;
use pad_model::{Span, Stamp};

/// Returns true if the span covers the stamp.
fn covers(span: &Span, stamp: Stamp) -> bool
    ensures { result ≡ in_span span.now.first span.now.len stamp }
{
    let first = span.first;
    let counter = first.counter();
    first.replica() == stamp.replica()
        && counter <= stamp.counter()
        && stamp.counter() - counter < span.len
}

/// Returns true if any of the spans covers the stamp.
pub fn is_named(spans: &[Span], stamp: Stamp) -> bool
    ensures { result ≡ is_erased (flat_map span_stamps spans.now) stamp }
{
    any_covers(spans, stamp)
}

fn any_covers(spans: &[Span], stamp: Stamp) -> bool
    ensures { result ≡ list_any (λ span. in_span span.first span.len stamp) spans.now }
{
    spans.iter().any(|span| covers(span, stamp))
}

/// Counts the cells with a stamp of the span.
fn count_covered(cells: &[PlainCell], span: &Span) -> usize
    ensures { result ≡ count_by (λ c. in_span span.now.first span.now.len c.stamp) cells.now }
{
    cells.iter().filter(|cell| covers(span, cell.stamp)).count()
}

/// Returns true if each character of a span is among the cells. No two cells share a stamp, so it compares counts.
fn has_span(cells: &[PlainCell], span: &Span) -> bool
    requires checked { IsTrue (is_span span.now) }
    requires distinct { IsDistinct (same_item kept_character) cells.now }
    ensures { result ≡ list_all (λ s. has_stamp kept_character cells.now s) (span_stamps span.now) }
{
    count_covered(cells, span) as u64 == span.len
}

/// Returns true if each character of the spans is among the cells.
pub fn has_spans(cells: &[PlainCell], spans: &[Span]) -> bool
    requires checked { IsTrue (list_all is_span spans.now) }
    requires distinct { IsDistinct (same_item kept_character) cells.now }
    ensures { result ≡ log.has_spans kept_character cells.now spans.now }
{
    for span in spans {
        if !has_span(cells, span) {
            return false;
        }
    }
    true
}

/// Returns true if a deletion of the spans newly hides the cell.
fn is_hidden(cell: &PlainCell, spans: &[Span]) -> bool
    ensures { result ≡ is_hidden_by spans.now cell.now }
{
    is_named(spans, cell.stamp) && cell.died.is_none()
}

/// Counts the cells that a deletion of the spans newly hides.
pub fn count_hidden(cells: &[PlainCell], spans: &[Span]) -> usize
    ensures { result ≡ count_by (is_hidden_by spans.now) cells.now }
{
    cells.iter().filter(|cell| is_hidden(cell, spans)).count()
}

/// A cell after a deletion.
fn erased(cell: &PlainCell, spans: &[Span], rev: u64) -> PlainCell
    ensures { result ≡ erased_at rev spans.now cell.now }
{
    let died = if is_hidden(cell, spans) {
        Some(rev)
    } else {
        cell.died
    };
    PlainCell { died, ..*cell }
}

/// Marks the cells that a deletion newly hides.
pub fn erase(cells: &mut [PlainCell], spans: &[Span], rev: u64)
    ensures { cells.new ≡ map (erased_at rev spans.now) cells.old }
{
    for cell in cells.iter_mut() {
        let after = erased(cell, spans, rev);
        *cell = after;
    }
}
