//! The first line of a pad's file, and each line from which on another server wrote.
ghost use Rattle.std.specs.Prelude.{◌≡◌, IfOk, string_bytes};
ghost use Rattle.serde_json.specs.View.{view};
ghost use Rattle.serde_json.specs.Written.{compact_text};
ghost use Rattle.wire_json.specs.Reading.{IsRead};
ghost use Rattle.store_format.specs.Entries.{header_data, header_in};
ghost use Rattle.store_format.specs.Laws.{Tells};
ghost use Rattle.store_format.specs.declared.entry.StoreLine.TheVariants as StoreLine;

use pad_model::{Name, Refusal};
use serde_json::{Map, Value, put};
use std::alloc::{AllocError, Global};
use wire_json::{name_field, name_value, number_field};

/// The version of the file's format.
pub const FORMAT: u64 = 1;

/// A header: the pad's name, and the replica number of the server that wrote the following lines.
#[derive(Debug, Drop)]
pub struct Header {
    pub pad: Name,
    pub replica: u64,
}

/// The text of a header's line.
pub fn header_text(alloc: Global, pad: &Name, replica: u16) -> Result<String, AllocError>
    ensures text { IfOk result (λ text. string_bytes text ≡ compact_text (header_data pad.now replica)) }
    ensures tells { IfOk result (λ text. Tells
        (StoreLine.Header (record { pad = pad.now; replica = replica })) (string_bytes text)) }
{
    let value = header_value(alloc, pad, replica)?;
    value.to_string(alloc)
}

fn header_value(alloc: Global, pad: &Name, replica: u16) -> Result<Value, AllocError>
    ensures { IfOk result (λ v. view v ≡ header_data pad.now replica) }
{
    let mut fields = Map::new(alloc);
    put(&mut fields, alloc, "format", Value::from(FORMAT))?;
    put(&mut fields, alloc, "pad", name_value(alloc, pad)?)?;
    put(
        &mut fields,
        alloc,
        "replica",
        Value::from(u64::from(replica)),
    )?;
    Ok(Value::Object(fields))
}

/// Reads a value as a header; 102 if it is none, or of another format.
pub fn read_header(alloc: Global, value: &Value) -> Result<Header, Refusal>
    ensures { IsRead (header_in (view value.now)) result }
{
    if number_field(value, "format")? != FORMAT {
        return Err(Refusal::NotRequest);
    }
    let pad = name_field(alloc, value, "pad")?;
    let replica = number_field(value, "replica")?;
    Ok(Header { pad, replica })
}
