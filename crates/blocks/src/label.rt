//! Labels for new blocks.
ghost use Rattle.std.specs.Prelude.{◌≡◌, ℕ, true, false, ◌+◌, ◌-◌, ◌*◌, ◌/◌, ◌<◌, ◌≤◌, length, slice_get, slice_set, Some, MatchOption};
ghost use Rattle.blocks.specs.Blocks.{Rises, IsListed, IsKept, IsWindow, below, above, is_full, respaced, without_labels, HoldsNoMore};
ghost use Rattle.pad_model.specs.declared.limits.TheConstants.{MAX_CHARACTERS};
ghost use Rattle.blocks.specs.declared.block.Block as block_spec;
ghost use Rattle.blocks.specs.declared.label.Window as window_spec;

use crate::block::{Block, LAST_LABEL};
use ident_index::IdentIndex;
use weight_tree::WeightTree;

/// The distance of a new block's label from the label of the block before it, if there is room.
const STRIDE: u64 = 65_536;

/// The label of the block before a rank, or 0.
fn label_before(tree: &WeightTree<Block>, rank: usize) -> u64
    requires { rank ≤ length tree.now.items }
    ensures { result ≡ below 0 tree.now.items rank }
{
    if rank == 0 {
        return 0;
    }
    tree.get(rank - 1).label
}

/// The label of the block at a rank, or `LAST_LABEL` past the end.
fn label_from(tree: &WeightTree<Block>, rank: usize) -> u64
    requires { rank ≤ length tree.now.items }
    ensures { result ≡ above tree.now.items rank LAST_LABEL }
{
    if rank == tree.len() {
        return LAST_LABEL;
    }
    tree.get(rank).label
}

/// Labels the block at a rank.
fn relabel(tree: &mut WeightTree<Block>, index: &mut IdentIndex, rank: usize, label: u64)
    requires listed { IsListed index.old tree.old.items }
    requires within { rank < length tree.old.items }
    ensures listed { IsListed index.new tree.new.items }
    ensures held { HoldsNoMore index.old index.new }
    ensures set { (b : block_spec.Block) → slice_get tree.old.items rank ≡ Some b
        → tree.new.items ≡ slice_set tree.old.items rank (record b { label = label }) }
{
    let block = Block {
        label,
        ..*tree.get(rank)
    };
    index.relabel(block.first, label);
    tree.replace(rank, block);
}

/// Adjacent blocks that are relabelled together: those with a rank from `from` on and before `to`.
#[derive(Clone, Copy, Debug)]
struct Window {
    from: usize,
    to: usize,
    /// The label of the block before the window, or 0.
    low: u64,
    /// The distance between the new labels.
    step: u64,
}

/// The window that extends `reach` blocks to each side of a rank, or to the end of the blocks.
fn window_at(tree: &WeightTree<Block>, rank: usize, reach: usize) -> Window
    requires rises { Rises 1 0 tree.now.items LAST_LABEL }
    requires within { rank ≤ length tree.now.items }
    requires small { length tree.now.items ≤ MAX_CHARACTERS }
    ensures window { IsWindow tree.now.items rank result }
    ensures whole { length tree.now.items ≤ reach → 2 ≤ result.step }
{
    let from = rank.saturating_sub(reach);
    let to = rank.saturating_add(reach).min(tree.len());
    let low = label_before(tree, from);
    let gap = label_from(tree, to) - low;
    Window {
        from,
        to,
        low,
        step: gap / ((to - from) as u64 + 1),
    }
}

/// Doubles a window around a rank until its new labels are further apart than the square of its number of blocks. So
/// the wider a window, the more new blocks fit before it is relabelled.
fn window_round(tree: &WeightTree<Block>, rank: usize) -> Window
    requires rises { Rises 1 0 tree.now.items LAST_LABEL }
    requires within { rank ≤ length tree.now.items }
    requires small { length tree.now.items ≤ MAX_CHARACTERS }
    ensures window { IsWindow tree.now.items rank result }
    ensures room { 2 ≤ result.step }
{
    let mut reach = 1;
    while reach < tree.len() {
        let window = window_at(tree, rank, reach);
        let blocks = (window.to - window.from) as u64;
        if window.step >= 2 && window.step > blocks.saturating_mul(blocks) {
            return window;
        }
        reach *= 2;
    }
    window_at(tree, rank, tree.len())
}

/// Relabels the blocks of a window evenly.
fn respace(tree: &mut WeightTree<Block>, index: &mut IdentIndex, window: Window)
    requires listed { IsListed index.old tree.old.items }
    requires ordered { window.from ≤ window.to }
    requires within { window.to ≤ length tree.old.items }
    requires room { window.low + window.step * (window.to - window.from + 1) ≤ LAST_LABEL }
    ensures listed { IsListed index.new tree.new.items }
    ensures held { HoldsNoMore index.old index.new }
    ensures respaced { tree.new.items ≡ respaced window tree.old.items }
{
    let mut label = window.low;
    for rank in window.from..window.to {
        label += window.step;
        relabel(tree, index, rank, label);
    }
}

/// A label between those on both sides of a rank, if there is room.
fn label_between(tree: &WeightTree<Block>, rank: usize) -> Option<u64>
    requires rises { Rises 1 0 tree.now.items LAST_LABEL }
    requires within { rank ≤ length tree.now.items }
    ensures { MatchOption result (above tree.now.items rank LAST_LABEL
        < below 0 tree.now.items rank + 2)
        (λ label. (below 0 tree.now.items rank < label)
        × (label < above tree.now.items rank LAST_LABEL)) }
{
    let left = label_before(tree, rank);
    let gap = label_from(tree, rank) - left;
    if gap < 2 {
        return None;
    }
    Some(left + (gap / 2).min(STRIDE))
}

/// A label for a new block at a rank. If there is none, the blocks around the rank are relabelled first.
pub fn free_label(tree: &mut WeightTree<Block>, index: &mut IdentIndex, rank: usize) -> u64
    requires kept { IsKept index.old tree.old.items }
    requires within { rank ≤ length tree.old.items }
    ensures kept { IsKept index.new tree.new.items }
    ensures held { HoldsNoMore index.old index.new }
    ensures labels { without_labels tree.new.items ≡ without_labels tree.old.items }
    ensures above { below 0 tree.new.items rank < result }
    ensures below { result < above tree.new.items rank LAST_LABEL }
    ensures free { is_full tree.old.items rank ≡ false → tree.new.items ≡ tree.old.items }
    ensures full { is_full tree.old.items rank ≡ true
        → (w : window_spec.Window) × IsWindow tree.old.items rank w
        × (tree.new.items ≡ respaced w tree.old.items) }
{
    if let Some(label) = label_between(tree, rank) {
        return label;
    }
    let window = window_round(tree, rank);
    respace(tree, index, window);
    let Some(label) = label_between(tree, rank) else {
        unreachable!()
    };
    label
}
