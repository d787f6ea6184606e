//! The operations of a pad that wait for others: causal delivery.
//!
//! It depends on `pad_model`. It delivers nothing itself: it says which operation may be delivered next, and its caller
//! delivers it and keeps the vector of delivered operations.
#![tactic(auto)]

mod held;
pub mod laws;
mod order;
mod ready;

pub use held::{Hold, MAX_HELD, Offer};
pub use ready::is_ready;
