//! The accounts that may log in, the owner of a session, and the pads that it has joined.
//!
//! It depends on `pad_model`, on `guests`, on `indexmap` for persons, and on `sha2` and `hex` for hashes of tokens. The crates above decide whether a session may join a pad, and which cell a
//! pad has.
#![tactic(auto)]

mod accounts;
pub mod laws;
mod line;
mod mistake;
mod people;
mod person_id;
mod secret;
mod session;
mod user_name;
mod users;
mod word;

pub use accounts::{Accounts, AccountsError, MAX_ACCOUNTS, Peer};
pub use line::{MAX_ADDRESS, MAX_DISPLAY, MAX_ID, MAX_TOKEN};
pub use mistake::Mistake;
pub use people::MAX_PEOPLE;
pub use session::{Room, Session};
pub use users::Stranger;
pub use word::Word;
