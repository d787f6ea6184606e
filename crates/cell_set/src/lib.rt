//! Sets of a server's cells that several threads may change.
//!
//! It depends only on std.
#![tactic(auto)]

mod cell_set;

pub use cell_set::CellSet;
