//! Connections to a server of pads: each line that arrives is answered before the next one is read.
//!
//! It depends on `server_core` and `shared_pads` for the pads, on `wire_lines` for lines of bytes, and on `wire_json`
//! for requests and replies.
#![tactic(auto)]

mod alone;
mod connection;
mod conversation;
mod delivered;
pub mod laws;
mod names;
mod pad_table;
mod pads;
mod reply;
mod seating;
mod served;
mod settle;
mod shared;

pub use alone::Alone;
pub use connection::serve_connection;
pub use conversation::{Conversation, LineOutcome};
pub use delivered::delivered_by;
pub use names::Names;
pub use pad_table::{PadTable, open_row};
pub use pads::Pads;
pub use seating::{take_all_seats, take_seats};
pub use served::Served;
pub use shared::Shared;
pub use shared_pads::{Gate, Open};
