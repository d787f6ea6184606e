//! The tree, its sums and access by rank.
ghost use Rattle.std.specs.Prelude.{◌≡◌, ◌<◌, ◌≤◌, ◌↔◌, [], length, sum_by, take, slice_get, IsTrue};
ghost use Rattle.weight_tree.specs.Balance.{IsLow};

use crate::weigh::Weigh;
use std::marker::Model;

// The greatest height of a tree whose size fits 64 bits.
pub(crate) const MOST_HEIGHT: usize = 154;

/// A list of weighed items.
#[cycle(tree)]
#[derive(Drop)]
pub struct WeightTree<T: Weigh> {
    pub(crate) root: Option<Box<Branch<T>>>,
}

// An item between two subtrees, with the sums of all three and those of the left side. So a descent reads no node off
// its path. Fields are laid out as declared: those that a descent reads are together, after the item.
#[cycle(tree)]
#[derive(Drop)]
pub(crate) struct Branch<T: Weigh> {
    pub(crate) item: T,
    pub(crate) left_size: usize,
    pub(crate) left: WeightTree<T>,
    pub(crate) right: WeightTree<T>,
    pub(crate) left_weight: u64,
    pub(crate) size: usize,
    pub(crate) weight: u64,
    pub(crate) height: u8,
    pub(crate) left_height: u8,
    pub(crate) right_height: u8,
}

impl<T: Weigh> Model for WeightTree<T> {
    ghost use Rattle.std.specs.Prelude.{ℕ, List, length};
    ghost use Rattle.weight_tree.specs.ItemsAndHeight.{ItemsAndHeight};

    ghost Value = { ItemsAndHeight T };

    ghost use Rattle.weight_tree.specs.Tree.{items_and_height, IsWeightTree};

    ghost view = { λ a. items_and_height a.root };

    ghost invariant = { λ a. IsWeightTree T.weight_of a.root };

    ghost size = { λ d. length d.items };

    ghost use Rattle.std.proofs.Common.{arith, length-append};

    ghost size_decreases = { λ a h. Prim.grind (arith, length-append) };
}

impl<T: Weigh> Default for WeightTree<T> {
    ghost is_default = { λ tree. tree ≡ record { items = []; height = 0 } };

    fn default() -> Self {
        Self::new()
    }
}

impl<T: Weigh> WeightTree<T> {
    pub fn new() -> Self
        ensures empty { result ≡ record { items = []; height = 0 } }
    {
        WeightTree { root: None }
    }

    pub fn is_empty(&self) -> bool
        ensures empty { IsTrue result ↔ (self.now.items ≡ []) }
    {
        self.root.is_none()
    }

    pub fn len(&self) -> usize
        ensures len { result ≡ length self.now.items }
    {
        match &self.root {
            None => 0,
            Some(branch) => branch.size,
        }
    }

    pub fn weight(&self) -> u64
        ensures sum { result ≡ sum_by T.weight_of self.now.items }
    {
        match &self.root {
            None => 0,
            Some(branch) => branch.weight,
        }
    }

    /// The number of nodes on the longest path down from the root.
    pub fn height(&self) -> usize
        ensures height { result ≡ self.now.height }

        // The height is at most the logarithm to the base 4/3 of the number of items plus one.
        ensures low { IsLow self.now.height (length self.now.items) }
        ensures most { self.now.height ≤ MOST_HEIGHT }
    {
        match &self.root {
            None => 0,
            Some(branch) => branch.height as usize,
        }
    }

    pub fn get(&self, rank: usize) -> &T
        requires in_range { rank < length self.now.items }
        ensures item { slice_get self.now.items rank ≡ Some result.now }
    {
        let Some(branch) = &self.root else {
            unreachable!()
        };
        let left = branch.left_size;
        if rank < left {
            branch.left.get(rank)
        } else if rank == left {
            &branch.item
        } else {
            branch.right.get(rank - left - 1)
        }
    }

    /// The weight of the items before `rank`.
    pub fn before(&self, rank: usize) -> u64
        requires in_range { rank ≤ length self.now.items }
        ensures sum { result ≡ sum_by T.weight_of (take rank self.now.items) }
    {
        let Some(branch) = &self.root else {
            return 0;
        };
        let left = branch.left_size;
        if rank <= left {
            branch.left.before(rank)
        } else {
            let up_to_here = branch.left_weight + branch.item.weight();
            up_to_here + branch.right.before(rank - left - 1)
        }
    }
}
