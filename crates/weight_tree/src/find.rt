//! Finds the item that a number falls in, with the weights laid end to end.
ghost use Rattle.std.specs.Prelude.{◌<◌, ◌≤◌, ◌↔◌, sum_by, length, IsNone, IfSome};
ghost use Rattle.weight_tree.specs.Find.{FallsIn};

use crate::tree::WeightTree;
use crate::weigh::Weigh;

/// The result of `find`: the item that the number falls in, and how far into its weight.
#[derive(Clone, Copy, Debug, PartialEq, Eq)]
pub struct Found {
    pub rank: usize,
    pub offset: u64,
    /// The number of nodes that were visited on the way down.
    pub visits: usize,
}

impl<T: Weigh> WeightTree<T> {
    pub fn find(&self, number: u64) -> Option<Found>
        ensures none { IsNone result ↔ (sum_by T.weight_of self.now.items ≤ number) }
        ensures some { IfSome result (λ found.
            FallsIn T.weight_of self.now.items number found.rank found.offset) }
        ensures visits { IfSome result (λ found. found.visits ≤ self.now.height) }
        ensures counted { IfSome result (λ found. 0 < found.visits) }
    {
        let Some(branch) = &self.root else {
            return None;
        };
        let left_weight = branch.left_weight;
        if number < left_weight {
            let found = branch.left.find(number)?;
            return Some(Found {
                rank: found.rank,
                offset: found.offset,
                visits: found.visits + 1,
            });
        }
        let offset = number - left_weight;
        let item_weight = branch.item.weight();
        let rank = branch.left_size;
        if offset < item_weight {
            return Some(Found {
                rank,
                offset,
                visits: 1,
            });
        }
        let found = branch.right.find(offset - item_weight)?;
        Some(Found {
            rank: rank + 1 + found.rank,
            offset: found.offset,
            visits: found.visits + 1,
        })
    }
}
