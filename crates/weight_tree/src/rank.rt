//! The rank that a closure points to.
ghost use Rattle.std.specs.Prelude.{◌≡◌, ◌≤◌, length};
ghost use Rattle.std.specs.Fn.{CalledAt, ComputesKey};
ghost use Rattle.std.specs.declared.cmp.Ordering.{Ordering};
ghost use Rattle.weight_tree.specs.Rank.{IsRankBy, AsksTimes};

use crate::tree::WeightTree;
use crate::weigh::Weigh;
use std::cmp::Ordering;

/// The result of `rank_by`.
#[derive(Clone, Copy, Debug, PartialEq, Eq)]
pub struct Placed {
    pub rank: usize,
    /// The number of nodes that were visited on the way down.
    pub visits: usize,
}

impl<T: Weigh> WeightTree<T> {
    /// Counts the items for which `f` returns `Less`. It calls `f` once for each node that it visits.
    pub fn rank_by<F: FnMut(&T) -> Ordering>(&self, mut f: F) -> Placed
        requires { F.IsAlwaysCallable f }
        ensures rank { IsRankBy F.FnMut f self.now.items result.rank }
        ensures in_range { result.rank ≤ length self.now.items }
        ensures visits { result.visits ≤ self.now.height }
        ensures calls { (last : F) × AsksTimes F.FnMut result.visits f last }
    {
        self.place(&mut f)
    }

    fn place<F: FnMut(&T) -> Ordering>(&self, f: &mut F) -> Placed
        requires { F.IsAlwaysCallable f.old }
        ensures rank { IsRankBy F.FnMut f.old self.now.items result.rank }
        ensures in_range { result.rank ≤ length self.now.items }
        ensures visits { result.visits ≤ self.now.height }
        ensures calls { AsksTimes F.FnMut result.visits f.old f.new }
    {
        let Some(branch) = &self.root else {
            return Placed { rank: 0, visits: 0 };
        };
        let below = ask(f, &branch.item).is_lt();
        if below {
            let right = branch.right.place(f);
            Placed {
                rank: branch.left_size + 1 + right.rank,
                visits: right.visits + 1,
            }
        } else {
            let left = branch.left.place(f);
            Placed {
                rank: left.rank,
                visits: left.visits + 1,
            }
        }
    }
}

// Calls `f` with one item.
fn ask<T, F: FnMut(&T) -> Ordering>(f: &mut F, item: &T) -> Ordering
    requires { F.IsAlwaysCallable f.old }
    ensures callable { F.IsAlwaysCallable f.new }
    ensures called { CalledAt F.FnMut f.old item.now result f.new }
    ensures answer { (order : T → Ordering) → ComputesKey F.FnMut order f.old →
        ComputesKey F.FnMut order f.new × (result ≡ order item.now) }
{
    f(item)
}
