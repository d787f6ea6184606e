//! Group commit: many threads note what is to be kept, and those that wait append and sync it for all.
//!
//! A note is made under its pad's lock, and costs neither a hash nor a system call. Whoever waits for notes takes the cells
//! that were noted, one after the other, appends all notes of a cell as one piece, and syncs its file. So one sync serves
//! every note that came while the last one was under way. A thread with more to do than to wait asks for the number of
//! the notes so far, and looks later how many are on the disk (`Commits::advance`, `Commits::look`).
//!
//! A duty that must not be forgotten is a value that may not be dropped: code that does not count a note, or does not
//! report a cell that it took, does not compile. And a cell is reported with a value that only `append` gives.
#![tactic(auto)]

mod appending;
mod commits;
mod confirming;
mod progress;
mod queue;
mod round_state;

pub use appending::{Committed, Device, Uncommitted, append};
pub use commits::{Commit, Commits, NoteCounts, Waiters};
pub use confirming::{Confirm, Confirmation, Confirmed, Confirming};
pub use progress::{Job, Kept};
pub use queue::{Note, Notes, Unnoted};
