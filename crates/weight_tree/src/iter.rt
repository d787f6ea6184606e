//! The items of a tree in order, with a stack of fixed size.
ghost use Rattle.std.specs.Prelude.{◌≡◌, ◌+◌, ◌≤◌, ◌++◌, take, length};
ghost use Rattle.std.specs.Iterator.{YieldsFirstRef, item_count};
ghost use Rattle.weight_tree.specs.Waiting.{from_waiting, IsWaiting};

use crate::tree::{Branch, MOST_HEIGHT, WeightTree};
use crate::weigh::Weigh;
use std::marker::Model;

/// An iterator over the items of a `WeightTree`, in order.
#[derive(Drop)]
pub struct Iter<'a, T: Weigh> {
    waiting: [Option<&'a Branch<T>>; MOST_HEIGHT],
    depth: usize,
}

impl<'a, T: Weigh> Model for Iter<'a, T> {
    ghost use Rattle.std.specs.Prelude.{List, ◌≤◌, take};

    ghost Value = { List T };

    ghost use Rattle.weight_tree.specs.declared.tree.TheConstants.{MOST_HEIGHT};
    ghost use Rattle.weight_tree.specs.Waiting.{from_waiting, IsWaiting};

    ghost view = { λ a. from_waiting (take a.depth a.waiting) };

    ghost invariant = { λ a. (a.depth ≤ MOST_HEIGHT) × IsWaiting MOST_HEIGHT a.depth a.waiting };
}

impl<T: Weigh> WeightTree<T> {
    /// Iterates over the items in order. A step takes constant time on average, and no memory is allocated.
    pub fn iter(&self) -> Iter<'_, T>
        ensures { result ≡ self.now.items }
    {
        let height = self.height();
        prove!(height <= MOST_HEIGHT);
        let mut waiting = [None; MOST_HEIGHT];
        let depth = descend(&mut waiting, 0, self);
        Iter { waiting, depth }
    }
}

impl<'a, T: Weigh> IntoIterator for &'a WeightTree<T> {
    type Item = &'a T;

    type IntoIter = Iter<'a, T>;

    ghost into_iter_gives = { λ tree items. items ≡ tree.now.items };

    fn into_iter(self) -> Iter<'a, T> {
        self.iter()
    }
}

impl<'a, T: Weigh> Iterator for Iter<'a, T> {
    type Item = &'a T;

    ghost next_gives = { YieldsFirstRef (λ s. s) };

    ghost remaining = { item_count (λ s. s) };

    fn next(&mut self) -> Option<&'a T> {
        if self.depth == 0 {
            return None;
        }
        let top = self.depth - 1;
        let waiting = &mut self.waiting[..];
        let Some(branch) = waiting[top] else {
            unreachable!()
        };
        self.depth = descend(waiting, top, &branch.right);
        Some(&branch.item)
    }
}

// Pushes the branches along the left side of `tree` from `depth` on, and returns the new depth.
fn descend<'a, T: Weigh>(
    waiting: &mut [Option<&'a Branch<T>>],
    mut depth: usize,
    mut tree: &'a WeightTree<T>,
) -> usize
    requires waiting { IsWaiting (length waiting.old) depth waiting.old }
    requires room { depth + tree.now.height ≤ length waiting.old }
    ensures waiting { IsWaiting (length waiting.new) result waiting.new }
    ensures room { result ≤ length waiting.new }
    ensures items { from_waiting (take result waiting.new)
        ≡ tree.now.items ++ from_waiting (take depth waiting.old) }
{
    while let Some(branch) = &tree.root {
        waiting[depth] = Some(branch);
        depth += 1;
        tree = &branch.left;
    }
    depth
}
