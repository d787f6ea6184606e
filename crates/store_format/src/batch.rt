//! The lines that were written after all lines before them were synced.
ghost use Rattle.std.specs.Prelude.{◌≡◌, IfOk};
ghost use Rattle.std.specs.List.{list_any};
ghost use Rattle.store_format.specs.Batches as batches;
ghost use Rattle.store_format.specs.Lines.{whole_lines};

use crate::entry::value_of;
use crate::line::{find_feed, text_within_line};
use std::alloc::{AllocError, Global};

/// Returns true if one of the whole lines of these bytes begins a batch. Everything before such a line was synced.
pub fn has_beginning(alloc: Global, bytes: &[u8]) -> Result<bool, AllocError>
    ensures { IfOk result (λ found. found ≡ list_any batches.begins_batch (whole_lines bytes.now)) }
{
    let mut rest = bytes;
    while let Some(end) = find_feed(rest) {
        if begins_batch(alloc, &rest[..end])? {
            return Ok(true);
        }
        rest = &rest[end + 1..];
    }
    Ok(false)
}

// Returns true if a line has the form of one, and does not say that it was written together with an earlier line.
fn begins_batch(alloc: Global, line: &[u8]) -> Result<bool, AllocError>
    ensures { IfOk result (λ begins. begins ≡ batches.begins_batch line.now) }
{
    let Some(text) = text_within_line(alloc, line)? else {
        return Ok(false);
    };
    match value_of(alloc, text)? {
        Some(value) => Ok(value.get("together").is_none()),
        None => Ok(false),
    }
}
