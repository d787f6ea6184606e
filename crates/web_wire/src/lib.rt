//! HTTP and WebSocket from bytes to bytes: one request for a page or for the socket, and the messages of the socket as
//! lines.
//!
//! It reads no device and no clock, so both blocking and polling threads can drive it. It depends on `http1`,
//! `httparse`, `websocket` and `bytes`, and for the bytes that wait on `wire_lines`. It knows nothing of JSON: a line is
//! bytes.
#![tactic(auto)]

mod field;
mod frames;
mod front;
mod heard;
mod kept;
pub mod laws;
mod message;
mod origin;
mod page;
mod page_request;
mod plan;
mod reply;
mod user;

pub use frames::{Frames, LONGEST_MESSAGE, NextMessage};
pub use kept::{Machines, kept_page};
pub use message::put_message;
pub use page::{Page, Site, UserHeader};
pub use page_request::{LONGEST_HEAD, Next, PageRequest, Parts};
pub use user::address_number;
