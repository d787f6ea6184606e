//! The output of `list`.
ghost use Rattle.std.specs.Prelude.{◌≡◌, [], IfOk, OnOk};
ghost use Rattle.pad_accounts.specs.Lines.{raw_lines};
ghost use Rattle.pad_accounts.specs.Listed.{with_line, with_shown};

use crate::lines::{cut_line, first_word, strip, without_end};
use std::alloc::{AllocError, Global};

/// The authors of an accounts file, the numbers of its peers, and the lines of its persons, one a line, in the order of the file.
pub fn listed(alloc: Global, text: &[u8]) -> Result<Vec<u8>, AllocError>
    ensures { IfOk result (λ shown. shown.items ≡ with_shown [] (raw_lines text.now)) }
{
    let mut shown = Vec::new(alloc);
    let mut rest = text;
    while !rest.is_empty() {
        let (line, after) = cut_line(rest);
        push_shown(&mut shown, line)?;
        rest = after;
    }
    Ok(shown)
}

/// Adds the part of a line that is shown.
fn push_shown(text: &mut Vec<u8>, line: &[u8]) -> Result<(), AllocError>
    ensures { OnOk result (text.new.items ≡ with_line text.old.items line.now) }
{
    if let Some(rest) = strip(b"author ", line) {
        text.extend_from_slice(b"author ")?;
        text.extend_from_slice(first_word(rest))?;
        text.extend_from_slice(b"\n")
    } else if let Some(rest) = strip(b"hash ", line) {
        text.extend_from_slice(b"hash ")?;
        text.extend_from_slice(first_word(rest))?;
        text.extend_from_slice(b"\n")
    } else if let Some(rest) = strip(b"peer ", line) {
        text.extend_from_slice(b"peer ")?;
        text.extend_from_slice(first_word(rest))?;
        text.extend_from_slice(b"\n")
    } else if strip(b"person ", line).is_some() {
        text.extend_from_slice(without_end(line))?;
        text.extend_from_slice(b"\n")
    } else {
        Ok(())
    }
}
