//! Pads that many threads share: each behind a lock of its own, with the tally of each seat at it.
//!
//! It depends on the server machine: a call does under the lock what a step of the machine does at one cell.
#![tactic(auto)]

mod gate;
mod locked_pad;
mod seat;
mod shared_pad;
mod sums;

pub use gate::{Answered, Gate, Open};
pub use locked_pad::{LockedPad, Untold};
pub use seat::{LastEdit, MAX_SEATS, Seat, SeatTally};
pub use shared_pad::{Closed, SharedPad};
