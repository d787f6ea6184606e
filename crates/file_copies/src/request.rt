//! The requests to a standby: lines of JSON, each answered by one or more lines, and the bytes of files between them.
ghost use Rattle.std.specs.Prelude.{◌≡◌, IfOk, codes, string_bytes};
ghost use Rattle.serde_json.specs.View.{view};
ghost use Rattle.wire_json.specs.Reading.{IsLine, IsRead};
ghost use Rattle.file_copies.specs.Requests.{copies_data, keep_data, line_of, promote_data, request_data, request_in, request_of, request_said, sync_data};

use crate::line::{line_text, read_value};
use pad_model::{Name, Refusal};
use serde_json::{Value, json};
use std::alloc::{AllocError, Global};
use wire_json::{name_field, number_field, str_field};

/// A request to a standby, by its main server or by whoever promotes it.
#[derive(Debug, Drop)]
pub enum StandbyRequest {
    /// Asks for the progress of each copy. Answered by a line for each, and one after them.
    Copies,
    /// After this line come `bytes` bytes of the file of `pad`, which stand there from byte `from` on. Not answered.
    Keep { pad: Name, from: u64, bytes: u64 },
    /// Everything so far is to be on the disk before this is answered. It belongs to `mark`.
    Sync { mark: u64 },
    /// The standby is to serve the pads itself. Answered once it takes no copy any more.
    Promote,
}

impl StandbyRequest {
    /// The line of the request, with its line feed.
    pub fn line(&self, alloc: Global) -> Result<String, AllocError>
        ensures { IfOk result (λ line. string_bytes line ≡ line_of (request_data self.now)) }
    {
        match self {
            StandbyRequest::Copies => copies_line(alloc),
            StandbyRequest::Keep { pad, from, bytes } => keep_line(alloc, pad, *from, *bytes),
            StandbyRequest::Sync { mark } => sync_line(alloc, *mark),
            StandbyRequest::Promote => promote_line(alloc),
        }
    }

    /// Reads a line as a request; 101 if it is not JSON, 102 if it is no request to a standby.
    pub fn read(alloc: Global, line: &[u8]) -> Result<StandbyRequest, Refusal>
        ensures { IsLine (request_said line.now) result }
    {
        let value = read_value(alloc, line)?;
        read_request(alloc, &value)
    }
}

fn copies_line(alloc: Global) -> Result<String, AllocError>
    ensures { IfOk result (λ line. string_bytes line ≡ line_of copies_data) }
{
    let value = copies_value(alloc)?;
    line_text(alloc, &value)
}

fn copies_value(alloc: Global) -> Result<Value, AllocError>
    ensures { IfOk result (λ value. view value ≡ copies_data) }
{
    json!(in alloc; {"do": "copies"})
}

// The line that announces bytes of a pad's file.
pub(crate) fn keep_line(
    alloc: Global,
    pad: &Name,
    from: u64,
    bytes: u64,
) -> Result<String, AllocError>
    ensures { IfOk result (λ line. string_bytes line ≡ line_of (keep_data pad.now from bytes)) }
{
    let value = keep_value(alloc, pad, from, bytes)?;
    line_text(alloc, &value)
}

fn keep_value(alloc: Global, pad: &Name, from: u64, bytes: u64) -> Result<Value, AllocError>
    ensures { IfOk result (λ value. view value ≡ keep_data pad.now from bytes) }
{
    json!(in alloc; {"bytes": bytes, "do": "keep", "from": from, "pad": pad.as_str()})
}

fn sync_line(alloc: Global, mark: u64) -> Result<String, AllocError>
    ensures { IfOk result (λ line. string_bytes line ≡ line_of (sync_data mark)) }
{
    let value = sync_value(alloc, mark)?;
    line_text(alloc, &value)
}

fn sync_value(alloc: Global, mark: u64) -> Result<Value, AllocError>
    ensures { IfOk result (λ value. view value ≡ sync_data mark) }
{
    json!(in alloc; {"do": "sync", "mark": mark})
}

fn promote_line(alloc: Global) -> Result<String, AllocError>
    ensures { IfOk result (λ line. string_bytes line ≡ line_of promote_data) }
{
    let value = promote_value(alloc)?;
    line_text(alloc, &value)
}

fn promote_value(alloc: Global) -> Result<Value, AllocError>
    ensures { IfOk result (λ value. view value ≡ promote_data) }
{
    json!(in alloc; {"do": "promote"})
}

fn read_request(alloc: Global, value: &Value) -> Result<StandbyRequest, Refusal>
    ensures { IsRead (request_in (view value.now)) result }
{
    match str_field(value, "do")? {
        "copies" => Ok(StandbyRequest::Copies),
        "keep" => read_keep(alloc, value),
        "sync" => Ok(StandbyRequest::Sync {
            mark: number_field(value, "mark")?,
        }),
        "promote" => Ok(StandbyRequest::Promote),
        _ => Err(Refusal::NotRequest),
    }
}

fn read_keep(alloc: Global, value: &Value) -> Result<StandbyRequest, Refusal>
    ensures { IsRead (request_of (codes "keep") (view value.now)) result }
{
    let pad = name_field(alloc, value, "pad")?;
    let from = number_field(value, "from")?;
    let bytes = number_field(value, "bytes")?;
    Ok(StandbyRequest::Keep { pad, from, bytes })
}
