//! Presence on a pad: visits, from a join to its end, with their carets.
//!
//! It depends on `pad_model`, `rights` and `indexmap`. The crates above decide whether a session may join.
#![tactic(auto)]

mod author_list;
mod presence;

pub use presence::{DEFAULT_PRESENT, MAX_PRESENT, MAX_VISITS, PresenceBook, Visit};
