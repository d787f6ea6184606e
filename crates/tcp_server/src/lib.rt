//! The server over TCP: its pads, its threads, and the clients and browsers that connect, until it ends.
//!
//! It depends on `event_loop` for the workers, on `store_files` for the store, on `peering` for the rounds with peers
//! and on `accounts_file` for the accounts. It knows no command line: `Settings` says what is asked for.
#![tactic(auto)]

mod entrance;
mod listen;
mod listeners;
mod numbers_page;
mod opened;
mod other_threads;
mod pad_gate;
mod room;
mod sender;
mod serving_error;
mod settings;
mod settling;
mod standby_server;
mod status;
mod status_answer;
mod status_board;
mod status_thread;
mod threads;
mod users;
mod watch;

pub use listen::serve_clients;
pub use serving_error::ServingError;
pub use settings::{Settings, StandbyPeer};
pub use standby_server::{StandbySettings, serve_copies};
pub use threads::MAX_WORKERS;
