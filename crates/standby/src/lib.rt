//! A standby: the copy of a server's store on another machine, and the two ends of the connection between them.
//!
//! It depends on `store_files` for the files on both sides and on `file_copies` for the lines between them. It knows nothing
//! of clients, and nothing of peers but their numbers, tokens and addresses.
#![tactic(auto)]

mod connect;
mod copies;
mod link;
mod rounds;
mod seat;
mod sending;
mod taking;

pub use copies::{Copies, CopiesAnswer, CopyPlace};
pub use link::StandbyLink;
pub use rounds::{Broken, Rounds};
pub use seat::{CopyingSeat, SocketConversation};
pub use sending::{SendingEnd, send_copies};
pub use taking::{Left, StandbyConversation, StandbyDoor, StandbyRefusal};
