//! An item in a node of its own, allocated before it enters a tree.
ghost use Rattle.std.specs.Prelude.{◌≡◌, MatchResult};

use crate::tree::{Branch, WeightTree};
use crate::weigh::Weigh;
use std::alloc::{AllocFailed, Global};
use std::marker::Model;

/// One item, in the memory that it needs in a `WeightTree`.
#[derive(Drop)]
pub struct Node<T: Weigh> {
    pub(crate) branch: Box<Branch<T>>,
}

impl<T: Weigh> Model for Node<T> {
    ghost Value = { T };

    ghost view = { λ a. a.branch.value.item };
}

impl<T: Weigh> Node<T> {
    /// Allocates the memory that an insertion needs. If there is none, the error returns the item.
    pub fn make(alloc: Global, item: T) -> Result<Node<T>, AllocFailed<T>>
        ensures { MatchResult result (λ node. node ≡ item) (λ refused. refused.value ≡ item) }
    {
        let branch = Branch {
            item,
            left_size: 0,
            left: WeightTree::new(),
            right: WeightTree::new(),
            left_weight: 0,
            size: 1,
            weight: 0,
            height: 1,
            left_height: 0,
            right_height: 0,
        };
        match Box::new(alloc, branch) {
            Ok(branch) => Ok(Node { branch }),
            Err(refused) => {
                let branch = refused.value;
                Err(AllocFailed { value: branch.item })
            }
        }
    }

    pub(crate) fn into_item(self) -> T
        ensures { result ≡ self }
    {
        let branch = Box::into_inner(self.branch);
        branch.item
    }
}
