//! Many connections for each thread, with workers that wait until sockets are ready.
//!
//! It depends on `conversation`, which answers the lines of a connection, on `web_wire`, which turns what browsers send into
//! lines, on `admission`, which counts wrong tokens, and on `mio`, which reports when sockets are ready. It knows nothing
//! of stores and command lines: a `Settle` is the condition that replies wait for.
#![tactic(auto)]

mod accept;
mod access;
mod arrivals;
mod browser;
mod buffers;
mod byte_socket;
mod client;
mod clients;
mod delay;
mod due;
mod hub;
pub mod laws;
mod leaving;
mod limits;
mod lobby;
mod messages;
mod newcomer;
mod outbox;
mod party;
mod protocol;
mod rarely;
mod readiness;
mod request_user;
mod serve;
mod settle;
mod threads;
mod ticker;
mod times;
mod transfer;
mod turn;
mod work;
mod written;

pub use accept::{Acceptor, accept_all};
pub use byte_socket::ByteSocket;
pub use hub::Hub;
pub use limits::Limits;
pub use party::{Party, Stage};
pub use protocol::Protocol;
pub use request_user::Authors;
pub use settle::{Reach, Settle};
pub use threads::{SetUp, set_up};
pub use transfer::{BrokenSocket, Transfer};
pub use work::{Service, Worker, serve_all};
