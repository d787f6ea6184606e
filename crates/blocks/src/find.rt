//! Finds a character among the blocks.
ghost use Rattle.std.specs.Prelude.{◌≡◌, ℕ, slice_get, Some, MatchOption};
ghost use Rattle.ident_index.specs.Index.{HoldsNone, IsSound};
ghost use Rattle.blocks.specs.Blocks.{Rises, IsKept, IsSpot};
ghost use Rattle.blocks.specs.declared.block.Block as block_spec;

use crate::block::{Block, LAST_LABEL};
use ident_index::IdentIndex;
use pad_model::Stamp;
use weight_tree::WeightTree;

/// The place of a character: the rank of its block, and the number of characters before it there.
#[derive(Clone, Copy, Debug, PartialEq, Eq)]
pub struct Spot {
    pub rank: usize,
    pub offset: u64,
}

/// The rank of the block with a label.
fn rank_of(tree: &WeightTree<Block>, label: u64) -> usize
    requires { Rises 1 0 tree.now.items LAST_LABEL }
    ensures { (r : ℕ) (b : block_spec.Block) → slice_get tree.now.items r ≡ Some b → b.label ≡ label
        → result ≡ r }
{
    tree.rank_by(|block| block.label.cmp(&label)).rank
}

/// The block that holds a character.
pub fn find_block(tree: &WeightTree<Block>, index: &IdentIndex, stamp: Stamp) -> Option<Spot>
    requires { IsKept index.now tree.now.items }
    ensures spot { MatchOption result (HoldsNone index.now stamp)
        (λ spot. IsSpot tree.now.items stamp spot.rank spot.offset) }
    ensures sound { IsSound index.now }
{
    let place = index.locate(stamp)?;
    Some(Spot {
        rank: rank_of(tree, place.label),
        offset: place.offset,
    })
}
