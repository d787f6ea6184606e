//! The parts that the command lines of the programs share: options, and the exit status after a bad command line.
//!
//! It depends on `clap`, on `server_core` for the greatest number of cells, and on `sessions` for the greatest number
//! of visits on a pad. Each program has its own help texts.
#![tactic(auto)]

mod number;
mod option;
mod status;

pub use number::{cells_of, present_of, replica_of, replica_or};
pub use option::{accounts_option, cells_option, present_option, replica_option};
pub use status::{report, status_of};

/// The version of the programs, as in CHANGELOG.md.
pub const VERSION: &str = "0.1.0";
