//! Changes of the blocks: a cut, which changes no character, a new block, a removal, and a death.
ghost use Rattle.std.specs.Prelude.{◌≡◌, ℕ, ◌+◌, ◌-◌, ◌≤◌, ◌<◌, Some, length, map, sum_by, insert, slice_get, slice_set, IfErr, OnOk, OnErr};
ghost use Rattle.std.specs.List.{remove};
ghost use Rattle.std.specs.Option.{IsSomeAnd};
ghost use Rattle.pad_model.specs.declared.limits.TheConstants.{MAX_CHARACTERS};
ghost use Rattle.ident_index.specs.Index.{Covers, IsNew, stamp_behind};
ghost use Rattle.pad_model.specs.Stamp as stamp_spec;
ghost use Rattle.blocks.specs.Blocks.{IsKept, IsSized, HoldsNoMore, IsEdge, KeepsEdges, left_part, right_part, unlabelled, without_labels};
ghost use Rattle.blocks.specs.Cells.{SameCells};
ghost use Rattle.blocks.specs.declared.block.Block as block_spec;

use crate::block::Block;
use crate::find::find_block;
use crate::label::free_label;
use ident_index::IdentIndex;
use pad_model::{Refusal, Stamp};
use std::alloc::Global;
use weight_tree::{Node, WeightTree};

/// The part of a block before an offset.
fn left_of(whole: &Block, offset: u64) -> Block
    ensures { result ≡ left_part whole.now offset }
{
    Block {
        len: offset,
        ..*whole
    }
}

/// The part of a block from an offset on.
fn right_of(whole: &Block, offset: u64, label: u64) -> Block
    requires sized { IsSized whole.now }
    requires inside { (0 < offset) × (offset < whole.now.len) }
    ensures { result ≡ right_part whole.now offset label }
{
    Block {
        first: whole.first.plus(offset),
        parent: Some(whole.first.plus(offset - 1)),
        start: whole.start + offset as usize,
        len: whole.len - offset,
        label,
        ..*whole
    }
}

/// Cuts the block at a rank in two.
fn cut_block(
    alloc: Global,
    tree: &mut WeightTree<Block>,
    index: &mut IdentIndex,
    rank: usize,
    offset: u64,
) -> Result<(), Refusal>
    requires kept { IsKept index.old tree.old.items }
    requires inside { IsSomeAnd (slice_get tree.old.items rank)
        (λ b. (0 < offset) × (offset < b.len)) }
    ensures kept { IsKept index.new tree.new.items }
    ensures cells { SameCells tree.old.items tree.new.items }
    ensures more { length tree.new.items ≤ length tree.old.items + 1 }
    ensures edges { KeepsEdges index.old index.new }
    ensures edge { (b : block_spec.Block) → slice_get tree.old.items rank ≡ Some b
        → OnOk result (IsEdge index.new (stamp_behind b.first offset)) }
    ensures memory { IfErr result (λ e. e ≡ Refusal.Memory) }
{
    let label = free_label(tree, index, rank + 1);
    let whole = tree.get(rank);
    let first = whole.first;
    let left = left_of(whole, offset);
    let right = right_of(whole, offset, label);
    index.note_sound();
    let node = Node::make(alloc, right)?;
    index.cut(first, offset, label)?;
    tree.replace(rank, left);
    tree.insert(rank + 1, node);
    Ok(())
}

/// Cuts the block that holds a stamp so that a block begins with the stamp. No character changes. Labels that change stay
/// changed even if memory runs out after it.
pub fn cut_at(
    alloc: Global,
    tree: &mut WeightTree<Block>,
    index: &mut IdentIndex,
    stamp: Stamp,
) -> Result<(), Refusal>
    requires kept { IsKept index.old tree.old.items }
    ensures kept { IsKept index.new tree.new.items }
    ensures cells { SameCells tree.old.items tree.new.items }
    ensures more { length tree.new.items ≤ length tree.old.items + 1 }
    ensures edges { KeepsEdges index.old index.new }
    ensures edge { OnOk result (IsEdge index.new stamp) }
    ensures memory { IfErr result (λ e. e ≡ Refusal.Memory) }
{
    let Some(spot) = find_block(tree, index, stamp) else {
        return Ok(());
    };
    if spot.offset == 0 {
        return Ok(());
    }
    cut_block(alloc, tree, index, spot.rank, spot.offset)
}

/// Inserts a block at a rank and gives it a label. Other labels that change stay changed even if memory runs out after it.
pub fn put_block(
    alloc: Global,
    tree: &mut WeightTree<Block>,
    index: &mut IdentIndex,
    rank: usize,
    block: Block,
) -> Result<(), Refusal>
    requires kept { IsKept index.old tree.old.items }
    requires within { rank ≤ length tree.old.items }
    requires sized { IsSized block }
    requires fresh { IsNew index.old block.first block.len }
    requires room { sum_by (λ b. b.len) tree.old.items + block.len ≤ MAX_CHARACTERS }
    ensures kept { IsKept index.new tree.new.items }
    ensures ok { OnOk result (without_labels tree.new.items
        ≡ insert (without_labels tree.old.items) rank (unlabelled block)) }
    ensures err { OnErr result (without_labels tree.new.items ≡ without_labels tree.old.items) }
    ensures edges { OnOk result ((s : stamp_spec.Stamp) → IsEdge index.old s
        → (Covers block.first block.len s → block.first ≡ s) → IsEdge index.new s) }
    ensures memory { IfErr result (λ e. e ≡ Refusal.Memory) }
{
    let label = free_label(tree, index, rank);
    let first = block.first;
    let len = block.len;
    index.note_sound();
    let node = Node::make(alloc, Block { label, ..block })?;
    index.add(first, len, label)?;
    tree.insert(rank, node);
    Ok(())
}

/// Removes the block at a rank. It allocates no memory.
pub fn take_block(tree: &mut WeightTree<Block>, index: &mut IdentIndex, rank: usize)
    requires kept { IsKept index.old tree.old.items }
    requires within { rank < length tree.old.items }
    ensures kept { IsKept index.new tree.new.items }
    ensures taken { tree.new.items ≡ remove tree.old.items rank }
{
    let block = tree.remove(rank);
    index.remove(block.first);
}

/// Marks the death of the block at a rank.
pub fn kill(tree: &mut WeightTree<Block>, index: &IdentIndex, rank: usize, rev: u64)
    requires kept { IsKept index.now tree.old.items }
    requires within { rank < length tree.old.items }
    ensures kept { IsKept index.now tree.new.items }
    ensures dead { (b : block_spec.Block) → slice_get tree.old.items rank ≡ Some b
        → tree.new.items ≡ slice_set tree.old.items rank (record b { died = Some rev }) }
{
    let block = Block {
        died: Some(rev),
        ..*tree.get(rank)
    };
    tree.replace(rank, block);
}
