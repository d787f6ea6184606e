//! The admission of clients: wrong tokens, counted by address and by name, and connections, counted by address.
//!
//! It depends on `pad_model` for names, on `lru`, which forgets the oldest entries, and on `indexmap`. It starts no
//! threads and reads no clock: `event_loop` keeps it under a lock, and gives it the time.
#![tactic(auto)]

mod address;
mod connections;
mod wrong_tokens;

pub use address::key_of;
pub use connections::Connections;
pub use wrong_tokens::{FORGOTTEN_AFTER, MOST_ADDRESSES, MOST_NAMES, TokenCount, WrongTokens};
