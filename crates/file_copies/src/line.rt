//! A value as a line, and a line as a value.
ghost use Rattle.std.specs.Prelude.{◌≡◌, ◌⊎◌, false, IfOk, MatchResult, None, Some, string_bytes};
ghost use Rattle.serde_json.specs.View.{view};
ghost use Rattle.serde_json.specs.Written.{has_float};
ghost use Rattle.wire_json.specs.Lines.{value_of};
ghost use Rattle.file_copies.specs.Requests.{line_of};

use pad_model::Refusal;
use serde_json::Value;
use std::alloc::{AllocError, Global};

/// The line of a value without fractions: compact JSON, and a line feed.
pub fn line_text(alloc: Global, value: &Value) -> Result<String, AllocError>
    ensures { IfOk result (λ line. has_float (view value.now) ≡ false
        → string_bytes line ≡ line_of (view value.now)) }
{
    let mut line = value.to_string(alloc)?;
    line.push('\n')?;
    Ok(line)
}

/// The value of a line; 101 if it is not JSON.
pub fn read_value(alloc: Global, line: &[u8]) -> Result<Value, Refusal>
    ensures { MatchResult result (λ value. value_of line.now ≡ Some (view value))
        (λ e. (e ≡ Refusal.Memory) ⊎ ((e ≡ Refusal.NotJson) × (value_of line.now ≡ None))) }
{
    match Value::from_slice(alloc, line) {
        Ok(value) => Ok(value),
        Err(error) if error.is_memory() => Err(Refusal::Memory),
        Err(_) => Err(Refusal::NotJson),
    }
}
