//! A pad's operations in the order in which they were delivered: operation k makes revision k.
//!
//! They are kept as bytes, some 20 for a typed letter. The crate depends on `pad_model`. It takes any operation, whatever
//! its name, and judges none: whether an operation may be delivered is decided above it.
#![tactic(auto)]

mod index;
mod made_list;
mod maker_list;
mod number;
mod op_log;
mod op_store;
mod page;
mod read;
mod shelf;
mod time_list;
mod track;
mod write;

pub use made_list::MadeList;
pub use maker_list::{MakerList, Tally};
pub use op_log::{FoundOp, OpLog};
pub use time_list::TimeList;
