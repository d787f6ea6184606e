//! Relay rounds: a server exchanges the operations of its pads with a peer, over one connection.
//!
//! It depends on the pads as a session asks them (`conversation`), on lines of bytes, and on the JSON of requests to peers
//! and of their answers. It knows nothing of sockets, nor of when a round is made.
#![tactic(auto)]

mod ask;
mod chosen;
mod exchanged;
mod hear;
mod known_vectors;
mod laws;
mod limits;
mod peer_lines;
mod pull;
mod push;
mod relayed;
mod round;
mod talk;

pub use chosen::visit_listed;
pub use exchanged::Exchanged;
pub use known_vectors::KnownVectors;
pub use laws::{all_cells_law, greeting_law};
pub use limits::{MAX_OPS, MAX_PULL_TURNS, MAX_PUSH_TURNS};
pub use peer_lines::{LineExchange, PeerLines};
pub use relayed::Relayed;
pub use round::{greet, relay_round, visit_cells};
