//! A list of weighed items in a balanced tree. One descent from the root finds the item that a number falls in, the
//! weight before a rank, or the rank that a closure points to.
//!
//! It depends only on std. `Node::make` allocates a node's memory before a change, and no other call allocates any. The
//! tree is balanced by the number of items of its sides, not by their weights. It has no links to parents, and lends no
//! `&mut` to an item, which could change the item's weight unnoticed.
#![tactic(auto)]

mod edit;
mod find;
mod iter;
mod mend;
mod node;
mod rank;
mod rotate;
mod tree;
mod weigh;

pub use find::Found;
pub use iter::Iter;
pub use node::Node;
pub use rank::Placed;
pub use tree::WeightTree;
pub use weigh::Weigh;
