//! The line of a reply that is first made as a JSON value.
ghost use Rattle.std.specs.Prelude.{◌≡◌, ◌≤◌, false, Ok, IfOk, string_bytes};
ghost use Rattle.serde_json.specs.Data.{depth};
ghost use Rattle.serde_json.specs.Read.{max_depth};
ghost use Rattle.serde_json.specs.View.{view};
ghost use Rattle.serde_json.specs.Written.{has_float};
ghost use Rattle.wire_json.specs.Replies.{IsWritten};

use serde_json::Value;
use std::alloc::{AllocError, Global};

/// The line of a value. If memory ran out for the value or for its line, it is an error.
pub fn value_line(alloc: Global, value: Result<Value, AllocError>) -> Result<String, AllocError>
    ensures { IfOk result (λ line. (made : Value) × (value ≡ Ok made)
        × (has_float (view made) ≡ false → depth (view made) ≤ max_depth
        → IsWritten (view made) (string_bytes line))) }
{
    text_of(alloc, &value?)
}

fn text_of(alloc: Global, value: &Value) -> Result<String, AllocError>
    ensures { IfOk result (λ line. has_float (view value.now) ≡ false
        → depth (view value.now) ≤ max_depth → IsWritten (view value.now) (string_bytes line)) }
{
    let mut line = value.to_string(alloc)?;
    line.push('\n')?;
    Ok(line)
}
