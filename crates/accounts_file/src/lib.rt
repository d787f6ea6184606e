//! The accounts file of a server: it is read, mistakes are explained in words, and peers with invalid ports and tokens
//! that can be guessed are warned of.
//!
//! It depends on `sessions`, which defines the lines of the file, and on `server_log` for warnings.
#![tactic(auto)]

mod accounts;
mod accounts_error;
mod reason;
mod tokens;

pub use accounts::{has_port, read_accounts, warn_of_ports};
pub use accounts_error::AccountsFileError;
pub use reason::reason_of;
pub use tokens::{LONG_ENOUGH, warn_of_tokens};
