//! Compares two sequences.
use block_seq::{BlockSeq, PlainSeq};
use pad_model::{CellView, Refusal, Sequence, Stamp};
use std::alloc::Global;

/// Returns true if two cells are the same.
fn is_same_cell(one: &CellView<'_>, other: &CellView<'_>) -> bool {
    one.stamp == other.stamp
        && one.parent == other.parent
        && one.character == other.character
        && one.author == other.author
        && one.born == other.born
        && one.died == other.died
}

/// Returns true if both have the same cell at a place, or both none.
fn have_same_cell(rows: &BlockSeq, plain: &PlainSeq, place: u64) -> bool {
    match (rows.cell_at(place), plain.cell_at(place)) {
        (Some(one), Some(other)) => is_same_cell(&one, &other),
        (None, None) => true,
        _ => false,
    }
}

/// Returns true if both have the same cells.
pub fn have_same_cells(rows: &BlockSeq, plain: &PlainSeq) -> bool {
    let count = plain.cell_count();
    rows.cell_count() == count && (0..=count).all(|place| have_same_cell(rows, plain, place))
}

/// Returns true if both give the same place to a stamp at a revision.
fn place_the_same(rows: &BlockSeq, plain: &PlainSeq, rev: u64, stamp: Stamp) -> bool {
    rows.before(stamp, rev) == plain.before(stamp, rev)
        && rows.through(stamp, rev) == plain.through(stamp, rev)
        && rows.has(stamp) == plain.has(stamp)
}

/// Returns true if both give the same places to all characters at a revision.
fn place_all_the_same(rows: &BlockSeq, plain: &PlainSeq, rev: u64) -> bool {
    for place in 0..plain.cell_count() {
        match plain.cell_at(place) {
            Some(cell) if place_the_same(rows, plain, rev, cell.stamp) => {}
            _ => return false,
        }
    }
    true
}

/// Returns true if both have the same spans in each third of a revision.
fn have_same_spans(
    alloc: Global,
    rows: &BlockSeq,
    plain: &PlainSeq,
    rev: u64,
) -> Result<bool, Refusal> {
    let len = plain.len_at(rev);
    if rows.len_at(rev) != len {
        return Ok(false);
    }
    let third = len / 3;
    for at in [0, third, len - third] {
        if rows.spans_at(alloc, rev, at, third)? != plain.spans_at(alloc, rev, at, third)? {
            return Ok(false);
        }
    }
    Ok(true)
}

/// Returns true if both report the same changes from one revision to another, and back.
pub fn change_the_same(
    alloc: Global,
    rows: &BlockSeq,
    plain: &PlainSeq,
    rev: u64,
    to: u64,
) -> Result<bool, Refusal> {
    Ok(
        rows.changes(alloc, rev, to)? == plain.changes(alloc, rev, to)?
            && rows.changes(alloc, to, rev)? == plain.changes(alloc, to, rev)?,
    )
}

/// Returns true if both show the same at a revision: its text, authors and spans.
pub fn show_the_same(
    alloc: Global,
    rows: &BlockSeq,
    plain: &PlainSeq,
    rev: u64,
) -> Result<bool, Refusal> {
    Ok(
        rows.text_at(alloc, rev)? == plain.text_at(alloc, rev)?
            && rows.authors_at(alloc, rev)? == plain.authors_at(alloc, rev)?
            && have_same_spans(alloc, rows, plain, rev)?,
    )
}

/// Returns true if both report the same for a revision: its text, authors and spans, its stamps and its places.
pub fn tell_the_same(
    alloc: Global,
    rows: &BlockSeq,
    plain: &PlainSeq,
    rev: u64,
) -> Result<bool, Refusal> {
    Ok(
        show_the_same(alloc, rows, plain, rev)?
            && (0..=plain.len_at(rev)).all(|at| rows.stamp_at(rev, at) == plain.stamp_at(rev, at))
            && place_all_the_same(rows, plain, rev)
            && rows.clock() == plain.clock(),
    )
}
