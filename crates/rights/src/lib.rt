//! The rights on a pad: its owner may do everything, others what they or everyone were granted.
//!
//! It depends on `pad_model`, and on `indexmap`, which keeps grants in the order in which they were first granted. It
//! does not know about sessions: the crates above decide who is asking.
#![tactic(auto)]

mod book;
mod grantee;
pub mod laws;
mod right;

pub use book::{Grant, MAX_GRANTS, RightsBook};
pub use grantee::Grantee;
pub use right::Right;
