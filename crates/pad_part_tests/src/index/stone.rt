//! The items of a tree, and their insertion.
use std::alloc::Global;
use std::process::Abort;
use std::test::Fail;
use weight_tree::{Node, Weigh, WeightTree};

#[derive(Clone, Copy, Debug, PartialEq)]
pub struct Stone {
    pub number: u64,
    pub weight: u64,
}

impl Weigh for Stone {
    ghost weight_of = { λ stone. stone.weight };

    fn weight(&self) -> u64 {
        self.weight
    }
}

pub fn put(
    rt: &impl Abort,
    alloc: Global,
    tree: &mut WeightTree<Stone>,
    rank: usize,
    stone: Stone,
) -> Result<(), Fail> {
    assert!(rt; rank <= tree.len());
    assert!(rt; tree.len() < usize::MAX);
    assert!(rt; tree.weight() <= u64::MAX - stone.weight);
    let node = Node::make(alloc, stone)?;
    tree.insert(rank, node);
    Ok(())
}
