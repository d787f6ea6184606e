//! Takes a tree apart, puts it together, and rebalances a side that is too heavy.
//!
//! Here the weight of a side is its number of items plus one. At worst, an insertion below leaves sides of the weights
//! 3w + 1 and w, and a removal leaves sides of the weights 3w + 3 and w. Let a be the outer and b the inner part of the
//! heavy side, and c and d the parts of b. The two rotations are
//!
//!         single, where b < 2a              double
//!
//!           x               y                 x                y
//!         /   \           /   \             /   \            /   \
//!        y     w   to    a     x           v     w   to     v     x
//!       / \                   / \         / \              / \   / \
//!      a   b                 b   w       a   y            a  c  d   w
//!                                           / \
//!                                          c   d
//!
//! and the same from right to left.
ghost use Rattle.std.specs.Prelude.{◌≡◌, ℕ, ◌+◌, ◌*◌, ◌^◌, ◌<◌, ◌≤◌, ◌↔◌, max, ◌∷◌, ◌++◌, length, IsTrue, MatchBool};
ghost use Rattle.weight_tree.specs.Balance.{IsBalanced, IsTooHeavy, IsNearlyBalanced, SingleMends, DoubleMends};
ghost use Rattle.weight_tree.specs.Tree.{FitTogether};

use crate::node::Node;
use crate::tree::WeightTree;
use crate::weigh::Weigh;
use std::mem;

// Returns true if a side of this size is light enough beside the other.
pub(crate) fn is_light_enough(size: usize, other: usize) -> bool
    ensures { IsTrue result ↔ (size + 1 ≤ 3 * (other + 1)) }
{
    size as u128 + 1 <= 3 * (other as u128 + 1)
}

impl<T: Weigh> WeightTree<T> {
    // In 128 bits, so that three times the weight fits.
    fn balance_weight(&self) -> u128
        ensures weight { result ≡ length self.now.items + 1 }
        ensures fits { result ≤ 2 ^ 64 }
    {
        self.len() as u128 + 1
    }

    pub(crate) fn split(self) -> (Self, Node<T>, Self)
        requires { 0 < length self.items }
        ensures items { self.items ≡ result.0.items ++ result.1 ∷ result.2.items }
        ensures balanced { IsBalanced (length result.0.items) (length result.2.items) }
    {
        let Some(mut branch) = self.root else {
            unreachable!()
        };
        let left = mem::take(&mut branch.left);
        let right = mem::take(&mut branch.right);
        (left, Node { branch }, right)
    }

    pub(crate) fn join(left: Self, mut node: Node<T>, right: Self) -> Self
        requires balanced { IsBalanced (length left.items) (length right.items) }
        requires fits { FitTogether T.weight_of left node right }
        ensures items { result.items ≡ left.items ++ node ∷ right.items }
        ensures height { result.height ≡ max left.height right.height + 1 }
    {
        let branch = &mut *node.branch;
        branch.left_size = left.len();
        branch.left_weight = left.weight();
        branch.left_height = left.height() as u8;
        branch.right_height = right.height() as u8;
        branch.size = left.len() + right.len() + 1;
        branch.weight = left.weight() + branch.item.weight() + right.weight();
        branch.height = branch.left_height.max(branch.right_height) + 1;
        branch.left = left;
        branch.right = right;
        WeightTree {
            root: Some(node.branch),
        }
    }

    // Like `join`, after one side has gained or lost an item.
    pub(crate) fn rebalance(left: Self, node: Node<T>, right: Self) -> Self
        requires nearly { IsNearlyBalanced (length left.items) (length right.items) }
        requires fits { FitTogether T.weight_of left node right }
        ensures items { result.items ≡ left.items ++ node ∷ right.items }
    {
        if left.balance_weight() > 3 * right.balance_weight() {
            Self::lean_right(left, node, right)
        } else if right.balance_weight() > 3 * left.balance_weight() {
            Self::lean_left(left, node, right)
        } else {
            Self::join(left, node, right)
        }
    }

    // Returns true if a single rotation rebalances a heavy side with these parts.
    fn single_mends(outer: &Self, inner: &Self) -> bool
        ensures choice { IsTrue result ↔ (length inner.now.items + 1
            < 2 * (length outer.now.items + 1)) }

        // One rotation rebalances such a side: a single one, or else a double one.
        ensures mends { let a = length outer.now.items in
            let b = length inner.now.items in
            (w : ℕ) → IsBalanced a b → IsTooHeavy (a + b + 1) w →
            MatchBool result (SingleMends a b w) (DoubleMends a b w) }
    {
        inner.balance_weight() < 2 * outer.balance_weight()
    }

    // Rebalances a tree whose left side is too heavy.
    fn lean_right(left: Self, node: Node<T>, right: Self) -> Self
        requires heavy { IsTooHeavy (length left.items) (length right.items) }
        requires fits { FitTogether T.weight_of left node right }
        ensures items { result.items ≡ left.items ++ node ∷ right.items }
    {
        let (outer, above, inner) = left.split();
        if Self::single_mends(&outer, &inner) {
            Self::join(outer, above, Self::join(inner, node, right))
        } else {
            let (inner_left, middle, inner_right) = inner.split();
            let left = Self::join(outer, above, inner_left);
            let right = Self::join(inner_right, node, right);
            Self::join(left, middle, right)
        }
    }

    // Rebalances a tree whose right side is too heavy.
    fn lean_left(left: Self, node: Node<T>, right: Self) -> Self
        requires heavy { IsTooHeavy (length right.items) (length left.items) }
        requires fits { FitTogether T.weight_of left node right }
        ensures items { result.items ≡ left.items ++ node ∷ right.items }
    {
        let (inner, above, outer) = right.split();
        if Self::single_mends(&outer, &inner) {
            Self::join(Self::join(left, node, inner), above, outer)
        } else {
            let (inner_left, middle, inner_right) = inner.split();
            let left = Self::join(left, node, inner_left);
            let right = Self::join(inner_right, above, outer);
            Self::join(left, middle, right)
        }
    }
}
