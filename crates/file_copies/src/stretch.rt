//! Stretches of a pad's file: whole lines, each linked to the one before it.
ghost use Rattle.std.specs.Prelude.{◌≡◌, IfOk, option_map, string_bytes};
ghost use Rattle.std.specs.List.{position};
ghost use Rattle.store_format.specs.Lines.{is_feed};
ghost use Rattle.file_copies.specs.Stretches as stretches;

use std::alloc::{AllocError, Global};
use store_format::text_of;

/// The sum of the last line of these bytes, if they are whole lines, each linked to the one before it. `before` is the sum
/// of the line before the first of them, which is empty at the beginning of a file.
pub fn stretch_sum(alloc: Global, before: &str, bytes: &[u8]) -> Result<Option<String>, AllocError>
    ensures { IfOk result (λ found. option_map string_bytes found ≡ stretches.stretch_sum before.now bytes.now) }
{
    let mut sum = before.to_string(alloc)?;
    let mut rest = bytes;
    while let Some(end) = find_feed(rest) {
        let Some((_text, next)) = text_of(alloc, sum.as_str(), &rest[..end])? else {
            return Ok(None);
        };
        sum = next;
        rest = &rest[end + 1..];
    }
    if rest.is_empty() {
        Ok(Some(sum))
    } else {
        Ok(None)
    }
}

// The index of the first line feed.
fn find_feed(bytes: &[u8]) -> Option<usize>
    ensures { result ≡ position is_feed bytes.now }
{
    bytes.iter().position(|byte| *byte == b'\n')
}
