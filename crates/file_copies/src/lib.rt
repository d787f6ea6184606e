//! Copies of pads' files: what a standby appends to the copy of a file, what that copy has of the file, and the lines that
//! the main server and its standby exchange.
//!
//! It depends on `store_format`, which defines the lines of a file and the sums that link them, and on `wire_json` for the
//! fields of JSON. It knows no network and opens no file.
#![tactic(auto)]

mod answer;
pub mod laws;
mod line;
mod pad_copy;
mod request;
mod round;
mod stretch;

pub use answer::{HeardMark, StandbyAnswer, copy_line, kept_line, refused_line, told_line};
pub use pad_copy::{NoStretch, PadCopy};
pub use request::StandbyRequest;
pub use round::{FileStretch, put_stretch, round_text};
pub use stretch::stretch_sum;
