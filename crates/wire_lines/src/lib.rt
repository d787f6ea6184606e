//! Bytes as lines, and lines as bytes, over readers and writers that may transfer fewer bytes than asked, be
//! interrupted or fail.
//!
//! It depends on std and `thiserror`. It knows nothing of JSON: a line is bytes.
#![tactic(auto)]

mod buffer;
mod byte_buffer;
mod cause;
mod device;
mod fault;
mod feed;
mod inlet;
pub mod laws;
mod lines;
mod memory;
mod splitter;
mod std_device;
mod watched;
mod write;

pub use buffer::{FoundLine, LineBuffer};
pub use byte_buffer::{ByteBuffer, drop_front};
pub use cause::cause_of;
pub use device::{ReadError, Sink, Source, WriteError};
pub use fault::Fault;
pub use feed::MAX_LINE;
pub use inlet::{CHUNK, Inlet, MAX_READS};
pub use lines::{Line, Lines};
pub use memory::{Input, Output};
pub use splitter::LineSplitter;
pub use std_device::Std;
pub use watched::Watched;
pub use write::write_all;
