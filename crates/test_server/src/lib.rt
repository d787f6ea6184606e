//! A server whose sessions take request lines and return reply lines, for tests. No part of the server depends on it.
#![tactic(auto)]

mod replies;
mod test_server;

pub use replies::{between, is_refusal, number_behind, op_of, ops_in, text_len};
pub use test_server::{ANN, PEER, TestServer};
