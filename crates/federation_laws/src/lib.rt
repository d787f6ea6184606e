//! Laws of several servers that exchange the operations of one pad, in any order and any number of times.
//!
//! It has no code: each law is the contract of a function that does nothing. It depends on the definitions of
//! `pad_model`, `holdback`, `sessions` and `pad_core`.
#![tactic(auto)]

pub mod laws;
