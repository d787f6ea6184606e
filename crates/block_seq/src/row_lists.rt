//! The authors and the stamps of the visible characters of the blocks, and single characters, by one walk along the
//! tree.
ghost use Rattle.std.specs.Prelude.{◌≡◌, ◌+◌, ◌≤◌, ◌<◌, ℕ, Some, List, length, sum_by, flat_map, take, drop, slice_get, IfOk, OnOk};
ghost use Rattle.std.specs.List.{AllByRecursion};
ghost use Rattle.pad_model.specs.Views.{IsViewOf};
ghost use Rattle.pad_model.specs.Visible as visible;
ghost use Rattle.pad_model.specs.declared.limits.TheConstants.{MAX_CHARACTERS};
ghost use Rattle.blocks.specs.Blocks.{IsSized};
ghost use Rattle.blocks.specs.Cells.{IsWithin, block_cells, cells_of};
ghost use Rattle.block_seq.specs.RowLists.{shown_by, shown_stamps, with_more, with_stamps};
ghost use Rattle.block_seq.specs.Rows.{shown_len};
ghost use Rattle.ident_index.specs.Index.{stamp_behind};
ghost use Rattle.pad_model.specs.Stamp.{same_stamp};

use crate::row_readers::{is_visible, visible_len};
use blocks::Block;
use pad_model::{Author, AuthorRun, CellView, Span, Stamp};
use std::alloc::{AllocError, Global};
use weight_tree::WeightTree;

/// Adds characters of an author after those of the runs.
fn add_run(runs: &mut Vec<AuthorRun>, author: &Author, len: u64) -> Result<(), AllocError>
    requires { sum_by (λ r. r.len) runs.old.items + len ≤ MAX_CHARACTERS }
    ensures { OnOk result (runs.new.items ≡ with_more runs.old.items author.now len) }
{
    if let Some(last) = runs.last_mut() {
        if last.author == *author {
            last.len += len;
            return Ok(());
        }
    }
    let author = author.clone()?;
    runs.push(AuthorRun { author, len })?;
    Ok(())
}

/// The authors of the visible characters, in the longest runs.
pub fn read_authors(
    alloc: Global,
    tree: &WeightTree<Block>,
    authors: &[Author],
    text_len: usize,
    rev: u64,
) -> Result<Vec<AuthorRun>, AllocError>
    requires within { AllByRecursion (IsWithin (length authors.now) text_len) tree.now.items }
    requires sized { AllByRecursion IsSized tree.now.items }
    requires small { sum_by (λ b. b.len) tree.now.items ≤ MAX_CHARACTERS }
    ensures { IfOk result (λ runs. runs.items
        ≡ visible.runs (flat_map (shown_by rev authors.now) tree.now.items)) }
{
    let mut runs = Vec::new(alloc);
    for block in tree.iter() {
        if is_visible(block, rev) {
            add_run(&mut runs, &authors[block.author], block.len)?;
        }
    }
    Ok(runs)
}

/// Returns true if a stamp follows the last one of a span.
fn continues(span: &Span, first: Stamp) -> bool
    requires { span.now.len ≤ MAX_CHARACTERS }
    ensures { result ≡ same_stamp (stamp_behind span.now.first span.now.len) first }
{
    span.first.counter() + span.len == first.counter() && span.first.replica() == first.replica()
}

/// Adds `len` stamps, beginning with `first`, after those of the spans.
pub fn add_span(spans: &mut Vec<Span>, first: Stamp, len: u64) -> Result<(), AllocError>
    requires { sum_by (λ s. s.len) spans.old.items + len ≤ MAX_CHARACTERS }
    ensures { OnOk result (spans.new.items ≡ with_stamps spans.old.items first len) }
{
    if let Some(last) = spans.last_mut() {
        if continues(last, first) {
            last.len += len;
            return Ok(());
        }
    }
    spans.push(Span { first, len })?;
    Ok(())
}

/// Returns the character at an offset within a block.
pub fn view_at<'a>(block: &Block, text: &[char], authors: &'a [Author], offset: u64) -> CellView<'a>
    requires sized { IsSized block.now }
    requires within { IsWithin (length authors.now) (length text.now) block.now }
    requires inside { offset < block.now.len }
    ensures { IsViewOf (Some result) (slice_get (block_cells authors.now text.now block.now)
        offset) }
{
    let parent = if offset == 0 {
        block.parent
    } else {
        Some(block.first.plus(offset - 1))
    };
    CellView {
        stamp: block.first.plus(offset),
        parent,
        character: text[block.start + offset as usize],
        author: &authors[block.author],
        born: block.born,
        died: block.died,
    }
}

/// The character at a place among all, erased or not.
pub fn find_cell<'a>(
    tree: &WeightTree<Block>,
    text: &[char],
    authors: &'a [Author],
    place: u64,
) -> Option<CellView<'a>>
    requires sized { AllByRecursion IsSized tree.now.items }
    requires within { AllByRecursion (IsWithin (length authors.now) (length text.now))
        tree.now.items }
    ensures { IsViewOf result (slice_get (cells_of authors.now text.now tree.now.items) place) }
{
    let mut left = place;
    for block in tree.iter() {
        if left < block.len {
            return Some(view_at(block, text, authors, left));
        }
        left -= block.len;
    }
    None
}
