//! Removes an author.
ghost use Rattle.std.specs.Prelude.{IfOk};
ghost use Rattle.pad_accounts.specs.Removed.{Removes};

use crate::account_file::AccountFile;
use crate::checked::check;
use crate::failure::AccountsFailure;
use crate::lines::{Taken, without};
use crate::names::{has_author, has_line};
use std::alloc::Global;

/// Removes an author, and the line of the person, from an accounts file.
pub fn remove<'a>(
    rt: &HostRuntime,
    path: &'a str,
    name: &'a str,
) -> Result<(), AccountsFailure<'a>> {
    let held = AccountFile::open(rt, path)?;
    let text = held.read(rt)?;
    check(rt.alloc(), path, text.as_slice())?;
    if !is_there(text.as_slice(), name.as_bytes()) {
        return Err(AccountsFailure::NoAuthor { path, name });
    }
    let less = shrink(rt.alloc(), path, text.as_slice(), name.as_bytes())?;
    held.replace(rt, less.as_slice())
}

/// Returns true if the text has a line of this author or this person.
fn is_there(text: &[u8], name: &[u8]) -> bool {
    has_author(text, name) || has_line(b"person ", text, name)
}

/// The text without the lines of an author, which is an accounts file.
pub fn shrink<'a>(
    alloc: Global,
    path: &'a str,
    text: &[u8],
    name: &[u8],
) -> Result<Vec<u8>, AccountsFailure<'a>>
    ensures { IfOk result (λ less. Removes text.now name.now less.items) }
{
    let less = without(alloc, text, name, Taken::AllLines)?;
    let _accounts = check(alloc, path, less.as_slice())?;
    Ok(less)
}
