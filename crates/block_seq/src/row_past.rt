//! The characters that the blocks showed at a revision, by the slides since it: a step for each slide, not for each
//! block.
ghost use Rattle.std.specs.Prelude.{◌≡◌, ◌+◌, ◌<◌, ◌≤◌, length, sum_by, flat_map, take, drop, slice_get, Some, is_none, nat_lt, if◌then◌else◌, IfOk, MatchOption};
ghost use Rattle.std.specs.List.{AllByRecursion};
ghost use Rattle.pad_model.specs.Cell.{cells_at};
ghost use Rattle.pad_model.specs.Views.{IsViewOf};
ghost use Rattle.pad_model.specs.Visible as visible_spec;
ghost use Rattle.pad_model.specs.declared.limits.TheConstants.{MAX_CHARACTERS};
ghost use Rattle.blocks.specs.Blocks.{IsKept, IsSized, weight_of};
ghost use Rattle.blocks.specs.Cells.{IsWithin, cells_of};
ghost use Rattle.blocks.specs.declared.block.Block as block_spec;
ghost use Rattle.block_seq.specs.RowLists.{IsSeenAt, shown_front, shown_stamps};
ghost use Rattle.block_seq.specs.RowSlides.{IsSlid, live_stamps};
ghost use Rattle.block_seq.specs.Rows.{IsDated, shown_len, stamp_in};

use crate::row_lists::{add_span, view_at};
use crate::row_readers::{is_at_most, visible_len};
use blocks::{Block, Spot, find_block};
use ident_index::IdentIndex;
use pad_model::{Author, CellView, Span, Stamp};
use std::alloc::{AllocError, Global};
use text_history::{Carried, Slide, carry, count_before, since};
use weight_tree::WeightTree;

/// The blocks of a row, the index of their stamps, what came and went among them, and the last revision that changed
/// something.
#[derive(Clone, Copy)]
pub struct PastRow<'a> {
    pub tree: &'a WeightTree<Block>,
    pub index: &'a IdentIndex,
    pub slides: &'a [Slide],
    pub latest: u64,
}

/// Counts the characters visible at a revision.
pub fn count_visible(tree: &WeightTree<Block>, slides: &[Slide], rev: u64) -> u64
    requires { IsSlid slides.now tree.now.items }
    ensures { result ≡ sum_by (shown_len rev) tree.now.items }
{
    count_before(since(slides, rev), tree.weight())
}

/// The stamp of the character at a place of those that are alive, from 0.
fn find_alive(tree: &WeightTree<Block>, place: u64) -> Option<Stamp>
    requires { AllByRecursion IsSized tree.now.items }
    ensures { result ≡ slice_get (flat_map live_stamps tree.now.items) place }
{
    let found = tree.find(place)?;
    let block = tree.get(found.rank);
    Some(block.first.plus(found.offset))
}

/// The stamp of the character that was visible at a place at a revision, from 0.
pub fn find_visible(
    tree: &WeightTree<Block>,
    slides: &[Slide],
    rev: u64,
    place: u64,
) -> Option<Stamp>
    requires slid { IsSlid slides.now tree.now.items }
    requires sized { AllByRecursion IsSized tree.now.items }
    ensures { result ≡ stamp_in rev tree.now.items place }
{
    let recent = since(slides, rev);
    if count_before(recent, tree.weight()) <= place {
        return None;
    }
    match carry(recent, place) {
        Carried::At(now) => find_alive(tree, now),
        Carried::Hidden(stamp) => Some(stamp),
    }
}

/// Finds the spot of the character that was visible at a place at a revision, from 0.
fn find_spot(row: PastRow<'_>, rev: u64, place: u64) -> Option<Spot>
    requires kept { IsKept row.index.now row.tree.now.items }
    requires slid { IsSlid row.slides.now row.tree.now.items }
    ensures { MatchOption result (sum_by (shown_len rev) row.entry.tree.now.items ≤ place)
        (IsSeenAt rev row.entry.tree.now.items place) }
{
    let stamp = find_visible(row.tree, row.slides, rev, place)?;
    find_block(row.tree, row.index, stamp)
}

/// The character that was visible at a place at a revision, from 0.
pub fn find_shown<'a>(
    row: PastRow<'_>,
    text: &[char],
    authors: &'a [Author],
    rev: u64,
    place: u64,
) -> Option<CellView<'a>>
    requires kept { IsKept row.index.now row.tree.now.items }
    requires slid { IsSlid row.slides.now row.tree.now.items }
    requires within { AllByRecursion (IsWithin (length authors.now) (length text.now)) row.tree.now.items }
    ensures { IsViewOf result (slice_get
        (cells_at rev (cells_of authors.now text.now row.entry.tree.now.items)) place) }
{
    let spot = find_spot(row, rev, place)?;
    Some(view_at(row.tree.get(spot.rank), text, authors, spot.offset))
}

/// The stamps of `len` characters that were visible at a revision, from a place on, in the longest spans.
pub fn read_spans(
    alloc: Global,
    row: PastRow<'_>,
    rev: u64,
    at: u64,
    len: u64,
) -> Result<Vec<Span>, AllocError>
    requires kept { IsKept row.index.now row.tree.now.items }
    requires slid { IsSlid row.slides.now row.tree.now.items }
    ensures { IfOk result (λ spans. spans.items
        ≡ visible_spec.spans (take len (drop at
        (flat_map (shown_stamps rev) row.entry.tree.now.items)))) }
{
    let mut spans = Vec::new(alloc);
    let Some(spot) = find_spot(row, rev, at) else {
        return Ok(spans);
    };
    let mut skip = spot.offset;
    let mut left = len;
    for rank in spot.rank..row.tree.len() {
        if left == 0 {
            return Ok(spans);
        }
        let block = row.tree.get(rank);
        let shown = visible_len(block, rev);
        let before = skip.min(shown);
        let more = (shown - before).min(left);
        if more > 0 {
            add_span(&mut spans, block.first.plus(before), more)?;
        }
        skip -= before;
        left -= more;
    }
    Ok(spans)
}

/// Counts the living characters before a spot.
fn count_alive(tree: &WeightTree<Block>, spot: Spot) -> u64
    requires within { spot.rank < length tree.now.items }
    requires inside { spot.offset ≤ MAX_CHARACTERS }
    requires small { sum_by (λ b. b.len) tree.now.items ≤ MAX_CHARACTERS }
    ensures { (b : block_spec.Block) → slice_get tree.now.items spot.rank ≡ Some b
        → result ≡ sum_by weight_of (take spot.rank tree.now.items)
        + (if is_none b.died then spot.offset else 0) }
{
    let front = tree.before(spot.rank);
    if tree.get(spot.rank).died.is_none() {
        front + spot.offset
    } else {
        front
    }
}

/// Returns the offset of a stamp within a stretch, if the stretch has it.
fn offset_in(slide: &Slide, stamp: Stamp) -> Option<u64> {
    let first = slide.first();
    if first.replica() != stamp.replica() {
        return None;
    }
    let offset = stamp.counter().checked_sub(first.counter())?;
    if offset < slide.len() {
        Some(offset)
    } else {
        None
    }
}

/// Guesses how many characters of a stretch hidden at the seam of a spot stood before the spot: those up to it if the
/// stretch is of the spot's own run, all if the spot is at the start of a block that was visible, and none otherwise.
fn guess_seam(slide: &Slide, first: Stamp, offset: u64, visible: bool) -> u64 {
    match offset_in(slide, first) {
        Some(passed) => passed.saturating_add(offset).min(slide.len()),
        None if visible && offset == 0 => slide.len(),
        None => 0,
    }
}

/// The place before which a spot stood at an older revision. It is a guess only where the spot lies at the seam of a hidden
/// stretch and its own block was not visible.
fn guess_place(tree: &WeightTree<Block>, recent: &[Slide], spot: Spot, alive: u64) -> u64
    requires { spot.rank < length tree.now.items }
{
    let block = tree.get(spot.rank);
    let mut visible = block.died.is_none();
    let mut place = alive;
    for i in (0..recent.len()).rev() {
        let slide = recent[i];
        let behind = place.saturating_sub(slide.at());
        if slide.shows() {
            place -= behind.min(slide.len());
        } else if behind > 0 {
            place = place.saturating_add(slide.len());
        } else if place == slide.at() {
            place = place.saturating_add(guess_seam(&slide, block.first, spot.offset, visible));
        }
        if offset_in(&slide, block.first).is_some() {
            visible = !slide.shows();
        }
    }
    place
}

/// Returns true if the character that was visible at a place at a revision stands before a spot.
fn stood_before(row: PastRow<'_>, rev: u64, place: u64, spot: Spot) -> bool
    requires kept { IsKept row.index.now row.tree.now.items }
    requires slid { IsSlid row.slides.now row.tree.now.items }
    requires there { place < sum_by (shown_len rev) row.tree.now.items }
    requires inside { (b : block_spec.Block) → slice_get row.tree.now.items spot.rank ≡ Some b
        → spot.offset ≤ b.len }
    ensures { (b : block_spec.Block) → slice_get row.entry.tree.now.items spot.rank ≡ Some b
        → result ≡ nat_lt place (shown_front rev row.entry.tree.now.items spot.rank spot.offset b) }
{
    match find_spot(row, rev, place) {
        Some(found) => !is_at_most(spot, found),
        None => false,
    }
}

/// Counts the characters visible at a revision before a spot. For an older revision the count is guessed from the
/// slides since, and the guess is checked from both sides; only if it is wrong is the place searched by bisection.
pub fn count_front(row: PastRow<'_>, spot: Spot, rev: u64) -> u64
    requires kept { IsKept row.index.now row.tree.now.items }
    requires slid { IsSlid row.slides.now row.tree.now.items }
    requires dated { AllByRecursion (IsDated row.latest) row.tree.now.items }
    requires within { spot.rank < length row.tree.now.items }
    requires inside { (b : block_spec.Block) → slice_get row.tree.now.items spot.rank ≡ Some b
        → spot.offset ≤ b.len }
    ensures { (b : block_spec.Block) → slice_get row.entry.tree.now.items spot.rank ≡ Some b
        → result ≡ shown_front rev row.entry.tree.now.items spot.rank spot.offset b }
{
    let alive = count_alive(row.tree, spot);
    if row.latest <= rev {
        return alive;
    }
    let guess = guess_place(row.tree, since(row.slides, rev), spot, alive);
    let mut low = 0;
    let mut high = count_visible(row.tree, row.slides, rev);
    let mut looks = 2;
    while low < high {
        let mut place = low + (high - low) / 2;
        if looks > 0 {
            place = guess.max(low).min(high - 1);
            looks -= 1;
        }
        if stood_before(row, rev, place, spot) {
            low = place + 1;
        } else {
            high = place;
        }
    }
    low
}
