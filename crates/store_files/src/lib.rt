//! The files of a store: read at a server's start, and appended to and synced while it runs.
//!
//! It depends on `store_format` for the lines of a file, on `store_records` for the records of a request, and on
//! `shared_pads` for the row of pads. It knows nothing of clients and peers: whoever writes replies asks `Keeper` first
//! how much is kept, by `sync` and `look`, and whoever writes to a peer calls `settle`.
#![tactic(auto)]

mod appending;
mod copying;
mod earlier;
mod keeper;
mod kept_files;
mod numbers;
mod open_files;
mod owner;
mod pad_device;
mod pad_end;
mod pad_file;
mod pieces;
mod promised;
mod reading;
mod reserve;
mod round_log;
mod settled;
mod spares;
mod standby_store;
mod store_error;
mod stored;
mod sums;
mod synced_files;
mod waiting;

pub use keeper::Keeper;
pub use kept_files::KeptFiles;
pub use owner::Owner;
pub use promised::Promised;
pub use round_log::{Logged, log_round};
pub use settled::Settled;
pub use standby_store::{CopiedFile, KeptRound, StandbyStore, Unkept};
pub use store_error::StoreError;
pub use stored::{Size, Stored, restore};
pub use synced_files::{SyncedFile, SyncedFiles};
