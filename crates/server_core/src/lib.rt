//! The server machine: a row of cells, each with a pad or without a name, and actors that ask for pads by name.
//!
//! An actor's step goes in, and its result comes out. All of it runs in one thread: no step waits.
#![tactic(auto)]

mod actor;
mod ask;
mod at_cell;
pub mod laws;
mod leave;
mod limits;
mod listing;
mod opening;
mod scan;
mod server;
mod step;
mod task;

pub use ask::first_cell;
pub use at_cell::request_at;
pub use limits::{DEFAULT_CELLS, MAX_ACTORS, MAX_CELLS};
pub use opening::{act_refusal, create_refusal, hello, pads_refusal, peer, people, relay};
pub use scan::past_row;
pub use server::Server;
pub use step::{Event, Moved, Step};
