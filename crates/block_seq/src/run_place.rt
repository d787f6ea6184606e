//! The place of a run among blocks: RGA's scan, one step a block.
ghost use Rattle.std.specs.Prelude.{◌≡◌, ℕ, ◌+◌, ◌≤◌, ◌<◌, List, Option, Some, true, not, nat_lt, ◌==◌, ◌&&◌, ◌||◌, length, drop, OnOk, IfErr};
ghost use Rattle.std.specs.List.{AllByRecursion, list_all};
ghost use Rattle.pad_model.specs.Cell.{character_of};
ghost use Rattle.pad_model.specs.Legal.{has_stamp, has_parent, counter_of};
ghost use Rattle.pad_model.specs.Log.{run_may_join};
ghost use Rattle.pad_model.specs.declared.who.Author as author;
ghost use Rattle.ident_index.specs.Index.{stamp_behind};
ghost use Rattle.blocks.specs.Blocks.{IsEdge, IsKept, KeepsEdges};
ghost use Rattle.blocks.specs.Cells.{cells_of, IsWithin, SameCells};
ghost use Rattle.block_seq.specs.RowParts.{IsCutBehind};
ghost use Rattle.block_seq.specs.Rows.{IsBehind, StartsAt, IsPlaceFor, passes};

use blocks::{Block, cut_at, find_block};
use ident_index::IdentIndex;
use pad_model::{Refusal, Run, Stamp};
use std::alloc::Global;
use weight_tree::WeightTree;

/// Returns true if a character is present. The index alone suffices: no block is looked up.
pub fn has_character(tree: &WeightTree<Block>, index: &IdentIndex, stamp: Stamp) -> bool
    requires { IsKept index.now tree.now.items }
    ensures { (authors : List author.Author) (text : List ℕ)
        → AllByRecursion (IsWithin (length authors) (length text)) tree.now.items
        → result ≡ has_stamp character_of (cells_of authors text tree.now.items) stamp }
{
    let _kept = tree.len();
    index.locate(stamp).is_some()
}

/// Returns true if the parent is present, or the root, and has a smaller counter.
fn hangs_below(
    tree: &WeightTree<Block>,
    index: &IdentIndex,
    parent: Option<Stamp>,
    counter: u64,
) -> bool
    requires { IsKept index.now tree.now.items }
    ensures { (authors : List author.Author) (text : List ℕ)
        → AllByRecursion (IsWithin (length authors) (length text)) tree.now.items
        → result ≡ (has_parent character_of (cells_of authors text tree.now.items) parent
        && nat_lt (counter_of parent) counter) }
{
    match parent {
        None => counter > 0,
        Some(stamp) => has_character(tree, index, stamp) && stamp.counter() < counter,
    }
}

/// Returns true if all characters of a stamp's replica have smaller counters.
fn is_above(tree: &WeightTree<Block>, index: &IdentIndex, first: Stamp) -> bool
    requires { IsKept index.now tree.now.items }
    ensures { (authors : List author.Author) (text : List ℕ)
        → AllByRecursion (IsWithin (length authors) (length text)) tree.now.items
        → result ≡ list_all (λ c. not (c.stamp.replica == first.replica)
        || nat_lt c.stamp.counter first.counter) (cells_of authors text tree.now.items) }
{
    let _kept = tree.len();
    let counter = first.counter();
    index.last_of(first.replica()) < counter
}

/// Returns true if a run's first character fits: its parent is present, and it is newer than its parent and its
/// replica's others.
pub fn run_fits(
    tree: &WeightTree<Block>,
    index: &IdentIndex,
    first: Stamp,
    parent: Option<Stamp>,
) -> bool
    requires { IsKept index.now tree.now.items }
    ensures { (authors : List author.Author) (text : List ℕ)
        → AllByRecursion (IsWithin (length authors) (length text)) tree.now.items
        → result ≡ run_may_join character_of (cells_of authors text tree.now.items) first parent }
{
    hangs_below(tree, index, parent, first.counter()) && is_above(tree, index, first)
}

/// The rank of the first block from a rank on that begins with an older stamp.
fn scan_blocks(tree: &WeightTree<Block>, start: usize, first: Stamp) -> usize
    requires { start ≤ length tree.now.items }
    ensures value { result ≡ start + passes first (drop start tree.now.items) }
    ensures within { result ≤ length tree.now.items }
{
    for rank in start..tree.len() {
        if !tree.get(rank).first.is_newer(first) {
            return rank;
        }
    }
    tree.len()
}

/// Cuts after a run's parent, so that no block reaches over that place. No character changes.
pub fn cut_parent(
    alloc: Global,
    tree: &mut WeightTree<Block>,
    index: &mut IdentIndex,
    first: Stamp,
    parent: Option<Stamp>,
) -> Result<(), Refusal>
    requires kept { IsKept index.old tree.old.items }
    requires later { counter_of parent < first.counter }
    ensures kept { IsKept index.new tree.new.items }
    ensures cells { SameCells tree.old.items tree.new.items }
    ensures edges { KeepsEdges index.old index.new }
    ensures cut { OnOk result (IsCutBehind index.new parent) }
    ensures memory { IfErr result (λ e. e ≡ Refusal.Memory) }
    ensures more { length tree.new.items ≤ length tree.old.items + 1 }
{
    let _limit = first.counter();
    match parent {
        None => Ok(()),
        Some(stamp) => cut_at(alloc, tree, index, stamp.plus(1)),
    }
}

/// Cuts after the parent of each run.
pub fn cut_parents(
    alloc: Global,
    tree: &mut WeightTree<Block>,
    index: &mut IdentIndex,
    runs: &[&Run],
) -> Result<(), Refusal>
    requires kept { IsKept index.old tree.old.items }
    requires later { AllByRecursion (λ run. counter_of run.now.after < run.now.first.counter)
        runs.now }
    ensures kept { IsKept index.new tree.new.items }
    ensures cells { SameCells tree.old.items tree.new.items }
    ensures edges { KeepsEdges index.old index.new }
    ensures cut { OnOk result (AllByRecursion (λ run. IsCutBehind index.new run.now.after)
        runs.now) }
    ensures memory { IfErr result (λ e. e ≡ Refusal.Memory) }
    ensures more { length tree.new.items ≤ length tree.old.items + length runs.now }
{
    for run in runs {
        cut_parent(alloc, tree, index, run.first, run.after)?;
    }
    Ok(())
}

/// Returns the rank of the block after a character. No block reaches over the place after the character.
fn rank_behind(tree: &WeightTree<Block>, index: &IdentIndex, stamp: Stamp) -> usize
    requires kept { IsKept index.now tree.now.items }
    requires cut { IsEdge index.now (stamp_behind stamp 1) }
    ensures behind { (authors : List author.Author) (text : List ℕ)
        → AllByRecursion (IsWithin (length authors) (length text)) tree.now.items
        → has_stamp character_of (cells_of authors text tree.now.items) stamp ≡ true
        → IsBehind tree.now.items stamp result }
    ensures within { result ≤ length tree.now.items }
{
    match find_block(tree, index, stamp) {
        None => tree.len(),
        Some(spot) => spot.rank + 1,
    }
}

/// The rank at which the search for a run's place begins.
fn start_run(tree: &WeightTree<Block>, index: &IdentIndex, parent: Option<Stamp>) -> usize
    requires kept { IsKept index.now tree.now.items }
    requires cut { IsCutBehind index.now parent }
    ensures start { (authors : List author.Author) (text : List ℕ)
        → AllByRecursion (IsWithin (length authors) (length text)) tree.now.items
        → has_parent character_of (cells_of authors text tree.now.items) parent ≡ true
        → StartsAt parent tree.now.items result }
    ensures within { result ≤ length tree.now.items }
{
    match parent {
        None => 0,
        Some(stamp) => rank_behind(tree, index, stamp),
    }
}

/// Finds the place of a run among blocks that are cut after its parent.
pub fn find_place(
    tree: &WeightTree<Block>,
    index: &IdentIndex,
    first: Stamp,
    parent: Option<Stamp>,
) -> usize
    requires kept { IsKept index.now tree.now.items }
    requires cut { IsCutBehind index.now parent }
    ensures place { (authors : List author.Author) (text : List ℕ)
        → AllByRecursion (IsWithin (length authors) (length text)) tree.now.items
        → has_parent character_of (cells_of authors text tree.now.items) parent ≡ true
        → IsPlaceFor parent first tree.now.items result }
    ensures within { result ≤ length tree.now.items }
{
    scan_blocks(tree, start_run(tree, index, parent), first)
}
