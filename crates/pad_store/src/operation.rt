//! The operations of a file, line by line.
use crate::chain::{sum_on, text_on};
use crate::file_names::value_of;
use pad_model::{Op, Part, Refusal};
use serde_json::Value;
use std::alloc::{AllocError, Global};
use store_format::{StoreLine, read_entry};
use store_records::Record;

/// An operation, with the other fields of its line.
#[derive(Drop)]
pub struct Operation<'a> {
    /// The time in milliseconds since 1970, or 0 if the line has none.
    pub at: u64,
    pub op: Op,
    /// The operation as JSON.
    pub json: String,
    /// The sum of the line.
    pub sum: &'a str,
}

/// The operation of a line; None if the line has none.
pub fn operation_on(alloc: Global, line: &[u8]) -> Result<Option<Operation<'_>>, AllocError> {
    let (Some(text), Some(sum)) = (text_on(line), sum_on(line)) else {
        return Ok(None);
    };
    let Some(value) = value_of(alloc, text)? else {
        return Ok(None);
    };
    let json = match value.get("op") {
        Some(op) => op.to_string(alloc)?,
        None => return Ok(None),
    };
    match read_entry(alloc, &value) {
        Ok(StoreLine::Record(Record::Delivered { at, op, .. })) => Ok(Some(Operation {
            at,
            op,
            json,
            sum: std::str::from_utf8(sum).unwrap_or(""),
        })),
        Err(Refusal::Memory) => Err(AllocError),
        _ => Ok(None),
    }
}

/// The kind of an operation, as a word.
pub fn kind_of(parts: &[Part]) -> &'static str {
    if parts.len() != 1 {
        return "edit";
    }
    match &parts[0] {
        Part::Insert(_) => "insert",
        Part::Delete(_) => "delete",
        Part::Comment { .. } => "comment",
        Part::Resolve { .. } => "resolve",
    }
}
