//! The name and the owner of a pad, by the lines of its file.
use crate::chain::text_on;
use pad_model::{Name, Refusal};
use serde_json::Value;
use std::alloc::{AllocError, Global};
use store_format::{Header, StoreLine, read_entry};
use store_records::Record;

/// The pad's name in the first line; empty if there is none. Nothing is verified.
pub fn pad_in(alloc: Global, bytes: &[u8]) -> Result<Name, AllocError> {
    let Some(line) = bytes.split(|byte| *byte == b'\n').next() else {
        return Name::from_str(alloc, "");
    };
    match entry_on(alloc, line)? {
        Some(StoreLine::Header(Header { pad, replica: _ })) => Ok(pad),
        _ => Name::from_str(alloc, ""),
    }
}

/// The owner after these lines, who may read all of the pad: the author to whom it was handed over last, or else the one who
/// created it; empty if there is none. Nothing is verified.
pub fn owner_in(alloc: Global, bytes: &[u8]) -> Result<Name, AllocError> {
    let mut owner = Name::from_str(alloc, "")?;
    for line in bytes.split(|byte| *byte == b'\n') {
        if let Some(named) = owner_on(alloc, line)? {
            owner = named;
        }
    }
    Ok(owner)
}

/// The owner whom a line names; None if it names none.
fn owner_on(alloc: Global, line: &[u8]) -> Result<Option<Name>, AllocError> {
    if !has_owner(line) {
        return Ok(None);
    }
    match entry_on(alloc, line)? {
        Some(StoreLine::Record(Record::Named { owner, .. })) => Ok(Some(owner)),
        Some(StoreLine::Record(Record::Handed { author })) => Ok(Some(author)),
        _ => Ok(None),
    }
}

/// Returns true if a line has the field of an owner. It is in no operation, whose texts have their quotes escaped.
fn has_owner(line: &[u8]) -> bool {
    line.windows(8)
        .any(|eight| eight == b"\"owner\":".as_slice())
}

/// The entry of a line, whatever line it follows; None if it has none.
pub fn entry_on(alloc: Global, line: &[u8]) -> Result<Option<StoreLine>, AllocError> {
    let Some(text) = text_on(line) else {
        return Ok(None);
    };
    let Some(value) = value_of(alloc, text)? else {
        return Ok(None);
    };
    match read_entry(alloc, &value) {
        Ok(entry) => Ok(Some(entry)),
        Err(Refusal::Memory) => Err(AllocError),
        Err(_) => Ok(None),
    }
}

/// The value of a text, if it is JSON.
pub fn value_of(alloc: Global, text: &[u8]) -> Result<Option<Value>, AllocError> {
    match Value::from_slice(alloc, text) {
        Ok(value) => Ok(Some(value)),
        Err(error) if error.is_memory() => Err(AllocError),
        Err(_) => Ok(None),
    }
}
