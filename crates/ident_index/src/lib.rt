//! The place of a character: an index that finds the block that holds a stamp, and labels that tell which of two blocks
//! comes first.
//!
//! It depends on `pad_model` and std's `BTreeMap`. It keeps neither the text nor the list of its blocks, and chooses no
//! labels itself: `between` and `spaced` propose some.
#![tactic(auto)]

mod index;
mod label;
mod place;

pub use index::IdentIndex;
pub use label::{between, spaced};
pub use place::{BlockEntry, Place};
