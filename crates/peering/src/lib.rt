//! The threads that exchange operations with peers: a connection to each peer, rounds over the cells that have changed,
//! and their end.
//!
//! It depends on `relay`, which makes a round over a connection, on `store_files`, since nothing is sent to a peer before
//! it is synced, and on `cell_set`. It knows nothing of clients.
#![tactic(auto)]

mod bell;
mod connection;
mod exchange;
mod peer_link;
mod stop;

pub use bell::Bell;
pub use exchange::{Exchange, Group, MAX_THREADS, Skipped, exchange_all};
pub use stop::{Guard, Stop};
