//! The pieces that lead from one revision to another, from the blocks: by one walk, or by the slides since.
ghost use Rattle.std.specs.Prelude.{◌≡◌, ℕ, ◌+◌, ◌-◌, ◌≤◌, ◌<◌, Contains, Some, length, sum_by, flat_map, slice_get, take, IfOk, OnOk};
ghost use Rattle.std.specs.List.{AllByRecursion};
ghost use Rattle.std.specs.List.Sorted.{IsNonDecreasing};
ghost use Rattle.pad_model.specs.Pieces.{fewest, old_len};
ghost use Rattle.pad_model.specs.declared.limits.TheConstants.{MAX_CHARACTERS, MAX_COUNTER};
ghost use Rattle.ident_index.specs.Index.{Covers};
ghost use Rattle.blocks.specs.Blocks.{IsKept, weight_of};
ghost use Rattle.blocks.specs.declared.block.Block as block_spec;
ghost use Rattle.blocks.specs.Cells.{IsWithin};
ghost use Rattle.block_seq.specs.PieceLists.{block_pieces, with_pieces};
ghost use Rattle.block_seq.specs.RowPieces.{HasTouched, kept_pieces};
ghost use Rattle.block_seq.specs.RowSlides.{IsSlid};

use crate::pieces::{add_dropped, add_inserted, add_kept};
use crate::row_readers::is_visible;
use crate::row_view::KeptRow;
use blocks::{Block, find_block};
use ident_index::IdentIndex;
use pad_model::{Author, Piece};
use std::alloc::{AllocError, Global};
use text_history::{Slide, since};
use weight_tree::WeightTree;

/// Adds what became of a block.
fn add_block(
    alloc: Global,
    pieces: &mut Vec<Piece>,
    text: &[char],
    authors: &[Author],
    block: &Block,
    rev: u64,
    to: u64,
) -> Result<(), AllocError>
    requires within { IsWithin (length authors.now) (length text.now) block.now }
    requires small { sum_by old_len pieces.old.items + block.now.len ≤ MAX_CHARACTERS }
    ensures { OnOk result (pieces.new.items
        ≡ with_pieces pieces.old.items (block_pieces rev to authors.now text.now block.now)) }
{
    let stays = is_visible(block, to);
    if is_visible(block, rev) {
        if stays {
            add_kept(pieces, block.len)
        } else {
            add_dropped(pieces, block.len)
        }
    } else if stays {
        let more = &text[block.start..block.start + block.len as usize];
        add_inserted(alloc, pieces, &authors[block.author], more)
    } else {
        Ok(())
    }
}

/// Lists the characters kept, dropped and inserted since a revision, by one walk along the blocks.
fn walk_pieces(alloc: Global, row: KeptRow<'_>, rev: u64, to: u64) -> Result<Vec<Piece>, AllocError>
    requires within { AllByRecursion (IsWithin (length row.authors.now) (length row.text.now))
        row.tree.now.items }
    requires small { sum_by (λ b. b.len) row.tree.now.items ≤ MAX_CHARACTERS }
    ensures { IfOk result (λ pieces. pieces.items
        ≡ fewest (flat_map (block_pieces rev to row.entry.authors.now row.entry.text.now)
        row.entry.tree.now.items)) }
{
    let mut pieces = Vec::new(alloc);
    for block in row.tree.iter() {
        add_block(alloc, &mut pieces, row.text, row.authors, block, rev, to)?;
    }
    Ok(pieces)
}

/// Adds the ranks of the blocks that have stamps of a slide's stretch.
fn add_ranks(
    ranks: &mut Vec<usize>,
    tree: &WeightTree<Block>,
    index: &IdentIndex,
    slide: &Slide,
) -> Result<(), AllocError>
    requires kept { IsKept index.now tree.now.items }
    requires sized { slide.now.first.counter + slide.now.len ≤ MAX_COUNTER + 1 }
    requires within { AllByRecursion (λ r. r < length tree.now.items) ranks.old.items }
    ensures within { AllByRecursion (λ r. r < length tree.now.items) ranks.new.items }
    ensures more { OnOk result ((r : ℕ) → Contains ranks.old.items r → Contains ranks.new.items r) }
    ensures there { OnOk result ((r : ℕ) (b : block_spec.Block) → slice_get tree.now.items r ≡ Some b
        → Covers slide.now.first slide.now.len b.first → Contains ranks.new.items r) }
{
    let mut offset = 0;
    while offset < slide.len() {
        if let Some(spot) = find_block(tree, index, slide.first().plus(offset)) {
            ranks.push(spot.rank)?;
            offset += tree.get(spot.rank).len - spot.offset;
        } else {
            offset += 1;
        }
    }
    Ok(())
}

/// The ranks of the blocks that the slides touched, in order.
fn list_touched(
    alloc: Global,
    tree: &WeightTree<Block>,
    index: &IdentIndex,
    slides: &[Slide],
) -> Result<Vec<usize>, AllocError>
    requires kept { IsKept index.now tree.now.items }
    requires sized { AllByRecursion (λ s. s.first.counter + s.len ≤ MAX_COUNTER + 1) slides.now }
    ensures within { IfOk result (λ ranks. AllByRecursion (λ r. r < length tree.now.items)
        ranks.items) }
    ensures touched { IfOk result (λ ranks. HasTouched slides.now tree.now.items ranks.items) }
    ensures sorted { IfOk result (λ ranks. IsNonDecreasing ranks.items) }
{
    let mut ranks = Vec::new(alloc);
    for slide in slides {
        add_ranks(&mut ranks, tree, index, slide)?;
    }
    ranks.sort()?;
    Ok(ranks)
}

/// Adds what the blocks from a rank to another keep, which nothing touched.
fn add_untouched(
    pieces: &mut Vec<Piece>,
    tree: &WeightTree<Block>,
    from: usize,
    to: usize,
) -> Result<(), AllocError>
    requires order { from ≤ to }
    requires within { to ≤ length tree.now.items }
    requires small { sum_by old_len pieces.old.items
        + (sum_by weight_of (take to tree.now.items) - sum_by weight_of (take from tree.now.items))
        ≤ MAX_CHARACTERS }
    ensures { OnOk result (pieces.new.items
        ≡ with_pieces pieces.old.items (kept_pieces
        (sum_by weight_of (take to tree.now.items)
        - sum_by weight_of (take from tree.now.items)))) }
{
    let kept = tree.before(to) - tree.before(from);
    if kept == 0 {
        return Ok(());
    }
    add_kept(pieces, kept)
}

/// Lists the characters kept, dropped and inserted since a revision: a step for each block that a slide since it
/// touched.
fn read_pieces(
    alloc: Global,
    row: KeptRow<'_>,
    slides: &[Slide],
    rev: u64,
    to: u64,
) -> Result<Vec<Piece>, AllocError>
    requires kept { IsKept row.index.now row.tree.now.items }
    requires slid { IsSlid slides.now row.tree.now.items }
    requires within { AllByRecursion (IsWithin (length row.authors.now) (length row.text.now))
        row.tree.now.items }
    ensures { IfOk result (λ pieces. pieces.items
        ≡ fewest (flat_map (block_pieces rev to row.entry.authors.now row.entry.text.now)
        row.entry.tree.now.items)) }
{
    let recent = since(slides, rev.min(to));
    row.index.note_sound();
    let ranks = list_touched(alloc, row.tree, row.index, recent)?;
    let mut pieces = Vec::new(alloc);
    let mut next = 0;
    for index in 0..ranks.len() {
        let rank = ranks[index];
        if next <= rank {
            add_untouched(&mut pieces, row.tree, next, rank)?;
            let block = row.tree.get(rank);
            add_block(alloc, &mut pieces, row.text, row.authors, block, rev, to)?;
            next = rank + 1;
        }
    }
    add_untouched(&mut pieces, row.tree, next, row.tree.len())?;
    Ok(pieces)
}

/// Lists the characters kept, dropped and inserted since a revision, by the slides since it if they are few compared
/// with the blocks.
pub fn list_pieces(
    alloc: Global,
    row: KeptRow<'_>,
    slides: &[Slide],
    rev: u64,
    to: u64,
) -> Result<Vec<Piece>, AllocError>
    requires kept { IsKept row.index.now row.tree.now.items }
    requires slid { IsSlid slides.now row.tree.now.items }
    requires within { AllByRecursion (IsWithin (length row.authors.now) (length row.text.now))
        row.tree.now.items }
    ensures { IfOk result (λ pieces. pieces.items
        ≡ fewest (flat_map (block_pieces rev to row.entry.authors.now row.entry.text.now)
        row.entry.tree.now.items)) }
{
    if since(slides, rev.min(to)).len() < row.tree.len() / 8 {
        read_pieces(alloc, row, slides, rev, to)
    } else {
        walk_pieces(alloc, row, rev, to)
    }
}
