//! Insertion, removal and replacement of an item.
ghost use Rattle.std.specs.Prelude.{◌≡◌, ◌+◌, ◌<◌, ◌≤◌, ◌^◌, Some, length, sum_by, insert, slice_get, slice_set};
ghost use Rattle.std.specs.List.{remove};

use crate::node::Node;
use crate::rotate::is_light_enough;
use crate::tree::WeightTree;
use crate::weigh::Weigh;
use std::mem;

impl<T: Weigh> WeightTree<T> {
    /// Inserts an item at `rank`, before the items from there on.
    pub fn insert(&mut self, rank: usize, node: Node<T>)
        requires in_range { rank ≤ length self.old.items }
        requires size_fits { length self.old.items + 1 < 2 ^ 64 }
        requires weight_fits { sum_by T.weight_of self.old.items + T.weight_of node < 2 ^ 64 }
        ensures items { self.new.items ≡ insert self.old.items rank node }
    {
        let Some(branch) = &mut self.root else {
            *self = Self::join(Self::new(), node, Self::new());
            return;
        };
        let left = branch.left_size;
        let right = branch.size - left - 1;
        if rank <= left {
            if is_light_enough(left + 1, right) {
                branch.left.insert(rank, node);
                branch.mend_left();
                return;
            }
        } else if is_light_enough(right + 1, left) {
            let rest = branch.weight - branch.right.weight();
            branch.right.insert(rank - left - 1, node);
            branch.mend_right(rest);
            return;
        }
        let (mut left, middle, mut right) = mem::take(self).split();
        let left_len = left.len();
        if rank <= left_len {
            left.insert(rank, node);
            *self = Self::rebalance(left, middle, right);
        } else {
            right.insert(rank - left_len - 1, node);
            *self = Self::rebalance(left, middle, right);
        }
    }

    /// Removes the item at `rank`. It allocates no memory.
    pub fn remove(&mut self, rank: usize) -> T
        requires in_range { rank < length self.old.items }
        ensures items { self.new.items ≡ remove self.old.items rank }
        ensures removed { slice_get self.old.items rank ≡ Some result }
    {
        let (rest, node) = mem::take(self).without(rank);
        *self = rest;
        node.into_item()
    }

    fn without(self, rank: usize) -> (Self, Node<T>)
        requires in_range { rank < length self.items }
        ensures items { result.0.items ≡ remove self.items rank }
        ensures removed { slice_get self.items rank ≡ Some result.1 }
    {
        let _fits = (self.len(), self.weight());
        let (left, middle, right) = self.split();
        let left_len = left.len();
        if rank < left_len {
            let (left, node) = left.without(rank);
            return (Self::rebalance(left, middle, right), node);
        }
        if rank > left_len {
            let (right, node) = right.without(rank - left_len - 1);
            return (Self::rebalance(left, middle, right), node);
        }
        if right.is_empty() {
            return (left, middle);
        }
        let (right, next) = right.without(0);
        (Self::rebalance(left, next, right), middle)
    }

    /// Replaces the item at `rank`, and returns the old one.
    pub fn replace(&mut self, rank: usize, item: T) -> T
        requires in_range { rank < length self.old.items }
        requires weight_fits { sum_by T.weight_of (slice_set self.old.items rank item) < 2 ^ 64 }
        ensures items { self.new.items ≡ slice_set self.old.items rank item }
        ensures height { self.new.height ≡ self.old.height }
        ensures replaced { slice_get self.old.items rank ≡ Some result }
    {
        let Some(branch) = &mut self.root else {
            unreachable!()
        };
        let left = branch.left_size;
        if rank < left {
            let rest = branch.weight - branch.left_weight;
            let replaced = branch.left.replace(rank, item);
            branch.left_weight = branch.left.weight();
            branch.weight = rest + branch.left_weight;
            replaced
        } else if rank == left {
            let rest = branch.weight - branch.item.weight();
            branch.weight = rest + item.weight();
            mem::replace(&mut branch.item, item)
        } else {
            let rest = branch.weight - branch.right.weight();
            let replaced = branch.right.replace(rank - left - 1, item);
            branch.weight = rest + branch.right.weight();
            replaced
        }
    }
}
