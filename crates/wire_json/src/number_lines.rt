//! The lines of replies that hold only numbers. These are most of a session's replies, so they are written directly,
//! without a JSON value.
ghost use Rattle.std.specs.Prelude.{◌≡◌, [], IfOk, string_bytes};
ghost use Rattle.wire_json.specs.Replies.{IsWritten, answer, pad_data};

use crate::word::state_word;
use pad_core::{PadReply, Pushed};
use std::alloc::{AllocError, Global};
use std::fmt::Write;

// Room for three numbers of twenty digits and the longest keys.
const ROOM: usize = 128;

pub fn ended_line(alloc: Global) -> Result<String, AllocError>
    ensures { IfOk result (λ line. IsWritten (answer []) (string_bytes line)) }
{
    String::from_str(alloc, "{\"ok\":true}\n")
}

pub fn joined_line(alloc: Global, now: u64, visit: u64) -> Result<String, AllocError>
    ensures { IfOk result (λ line. IsWritten (pad_data (PadReply.Joined now visit))
        (string_bytes line)) }
{
    let mut line = String::with_capacity(alloc, ROOM)?;
    writeln!(line, "{{\"now\":{now},\"ok\":true,\"visit\":{visit}}}")?;
    Ok(line)
}

pub fn done_line(alloc: Global, now: u64) -> Result<String, AllocError>
    ensures { IfOk result (λ line. IsWritten (pad_data (PadReply.Done now)) (string_bytes line)) }
{
    let mut line = String::with_capacity(alloc, ROOM)?;
    writeln!(line, "{{\"now\":{now},\"ok\":true}}")?;
    Ok(line)
}

pub fn made_line(alloc: Global, now: u64, origin: u16, number: u64) -> Result<String, AllocError>
    ensures { IfOk result (λ line. IsWritten
        (pad_data (PadReply.Made now (record { origin = origin; number = number })))
        (string_bytes line)) }
{
    let mut line = String::with_capacity(alloc, ROOM)?;
    writeln!(
        line,
        "{{\"name\":[{origin},{number}],\"now\":{now},\"ok\":true}}"
    )?;
    Ok(line)
}

pub fn changed_line(
    alloc: Global,
    now: u64,
    origin: u16,
    number: u64,
    hidden: u64,
) -> Result<String, AllocError>
    ensures { IfOk result (λ line. IsWritten
        (pad_data (PadReply.Changed now (record { origin = origin; number = number }) hidden))
        (string_bytes line)) }
{
    let mut line = String::with_capacity(alloc, ROOM)?;
    writeln!(
        line,
        "{{\"hidden\":{hidden},\"name\":[{origin},{number}],\"now\":{now},\"ok\":true}}"
    )?;
    Ok(line)
}

pub fn revs_line(alloc: Global, now: u64, cells: u64, length: u64) -> Result<String, AllocError>
    ensures { IfOk result (λ line. IsWritten (pad_data (PadReply.Revs now cells length))
        (string_bytes line)) }
{
    let mut line = String::with_capacity(alloc, ROOM)?;
    writeln!(
        line,
        "{{\"cells\":{cells},\"length\":{length},\"now\":{now},\"ok\":true}}"
    )?;
    Ok(line)
}

pub fn pushed_line(
    alloc: Global,
    now: u64,
    state: Pushed,
    released: u64,
    dropped: u64,
) -> Result<String, AllocError>
    ensures { IfOk result (λ line. IsWritten (pad_data (PadReply.Pushed now state released dropped))
        (string_bytes line)) }
{
    let state = state_word(state);
    let mut line = String::with_capacity(alloc, ROOM)?;
    writeln!(
        line,
        "{{\"dropped\":{dropped},\"now\":{now},\"ok\":true,\"released\":{released},\"state\":\"{state}\"}}"
    )?;
    Ok(line)
}
