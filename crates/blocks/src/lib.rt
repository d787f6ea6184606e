//! A text as blocks of characters that were typed at once: in a balanced tree by their order, and in an index by their
//! first stamps.
//!
//! The functions here work on a tree and its index together. Their invariant is `IsKept`: the index has exactly the
//! blocks of the tree, and labels rise along it.
#![tactic(auto)]

mod block;
mod edit;
mod find;
mod label;

pub use block::{Block, LAST_LABEL};
pub use edit::{cut_at, kill, put_block, take_block};
pub use find::{Spot, find_block};
pub use label::free_label;
