//! The characters that the blocks show at a revision, by one walk along the tree.
ghost use Rattle.std.specs.Prelude.{◌≡◌, ℕ, ◌+◌, ◌≤◌, ◌++◌, [], ◌-◌, length, sum_by, flat_map, fold, max, IfOk, ◌<◌, Some, take, slice_get, if◌then◌else◌, nat_lt, nat_le, ◌==◌, ◌&&◌, ◌||◌};
ghost use Rattle.std.specs.List.{AllByRecursion};
ghost use Rattle.blocks.specs.Cells.{IsWithin};
ghost use Rattle.block_seq.specs.Rows.{IsDated, shows, shown_len, shown_stretch, stamp_in};
ghost use Rattle.blocks.specs.Blocks.{IsSized};
ghost use Rattle.pad_model.specs.declared.limits.TheConstants.{MAX_CHARACTERS};

use blocks::{Block, Spot};
use pad_model::Stamp;
use std::alloc::{AllocError, Global};
use weight_tree::WeightTree;

/// Returns true if a block is visible: it is born and has not died yet.
pub fn is_visible(block: &Block, rev: u64) -> bool
    ensures { result ≡ shows rev block.now }
{
    let dead = match block.died {
        None => false,
        Some(died) => died <= rev,
    };
    block.born <= rev && !dead
}

/// Counts the visible characters of a block.
pub fn visible_len(block: &Block, rev: u64) -> u64
    ensures { result ≡ shown_len rev block.now }
{
    if is_visible(block, rev) { block.len } else { 0 }
}

/// The visible characters of a block.
fn visible_text<'a>(text: &'a [char], block: &Block, rev: u64) -> &'a [char]
    requires { block.now.start + block.now.len ≤ length text.now }
    ensures { result.now ≡ shown_stretch rev text.now block.now }
{
    if is_visible(block, rev) {
        &text[block.start..block.start + block.len as usize]
    } else {
        &[]
    }
}

/// The visible text.
pub fn read_text(
    alloc: Global,
    tree: &WeightTree<Block>,
    text: &[char],
    authors: usize,
    rev: u64,
) -> Result<Vec<char>, AllocError>
    requires { AllByRecursion (IsWithin authors (length text.now)) tree.now.items }
    ensures { IfOk result (λ shown. shown.items
        ≡ flat_map (shown_stretch rev text.now) tree.now.items) }
{
    let mut shown = Vec::new(alloc);
    for block in tree.iter() {
        shown.extend_from_slice(visible_text(text, block, rev))?;
    }
    Ok(shown)
}

/// Returns true if `first` is `last` or stands before it.
pub fn is_at_most(first: Spot, last: Spot) -> bool
    ensures { result ≡ (nat_lt first.rank last.rank
        || (first.rank == last.rank && nat_le first.offset last.offset)) }
{
    first.rank < last.rank || (first.rank == last.rank && first.offset <= last.offset)
}
