//! The meaning of a line.
ghost use Rattle.std.specs.Prelude.{◌≡◌, IfOk, option_map};
ghost use Rattle.serde_json.specs.View.{view};
ghost use Rattle.wire_json.specs.Lines as lines;
ghost use Rattle.wire_json.specs.Reading.{IsRead};
ghost use Rattle.store_format.specs.Entries.{entry_in};

use crate::form::read_record;
use crate::header::{Header, read_header};
use pad_model::Refusal;
use serde_json::Value;
use std::alloc::{AllocError, Global};
use store_records::Record;

/// The meaning of a line: the pad and the server of the file, or a step that was done on the pad.
#[derive(Debug, Drop)]
pub enum StoreLine {
    /// The first line, and each later one that begins the lines of another server.
    Header(Header),
    Record(Record),
}

/// Reads a value as a line; 102 if it is none.
pub fn read_entry(alloc: Global, value: &Value) -> Result<StoreLine, Refusal>
    ensures { IsRead (entry_in (view value.now)) result }
{
    match value.get("format") {
        Some(_) => Ok(StoreLine::Header(read_header(alloc, value)?)),
        None => Ok(StoreLine::Record(read_record(alloc, value)?)),
    }
}

/// The value of a text, if it is JSON.
pub fn value_of(alloc: Global, text: &[u8]) -> Result<Option<Value>, AllocError>
    ensures { IfOk result (λ found. lines.value_of text.now ≡ option_map view found) }
{
    match Value::from_slice(alloc, text) {
        Ok(value) => Ok(Some(value)),
        Err(error) if error.is_memory() => Err(AllocError),
        Err(_) => Ok(None),
    }
}
