//! The log of a running server, on standard error.
//!
//! It depends on std, `log` and `jiff`, and knows nothing of pads.
#![tactic(auto)]

mod server_log;

pub use server_log::ServerLog;
