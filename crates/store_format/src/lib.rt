//! The file of a pad: lines that a person can read, each with a checksum over all lines up to it.
#![tactic(auto)]

mod batch;
mod entry;
mod form;
mod header;
pub mod laws;
mod line;
mod loading;
mod reader;
mod writer;

pub use entry::{StoreLine, read_entry};
pub use form::{read_record, record_value};
pub use header::{FORMAT, Header, read_header};
pub use line::{Linked, text_of};
pub use loading::Loading;
pub use reader::{Damage, Loaded, load};
pub use writer::PadWriter;
