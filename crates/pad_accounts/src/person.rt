//! Says who a person is.
ghost use Rattle.std.specs.Prelude.{◌≡◌, ◌++◌, ◌∷◌, [], codes, true, Ok, Some, IfOk, OnOk};
ghost use Rattle.sessions.specs.Accounts.{accounts_of};
ghost use Rattle.sessions.specs.People.{display_of};
ghost use Rattle.pad_accounts.specs.Lines.{line_end};
ghost use Rattle.pad_accounts.specs.Persons.{Introduces, with_person};

use crate::account_file::AccountFile;
use crate::checked::check;
use crate::failure::AccountsFailure;
use crate::lines::{Taken, line_end, without};
use pad_model::Name;
use sessions::{Accounts, AccountsError};
use std::alloc::{AllocError, Global};

/// Adds the line of a person to an accounts file, in place of the one that it has for this name. The words are the name,
/// the ID and those of the display name.
pub fn introduce<'a>(
    rt: &HostRuntime,
    path: &'a str,
    words: &[&str],
) -> Result<(), AccountsFailure<'a>> {
    let alloc = rt.alloc();
    let held = AccountFile::open(rt, path)?;
    let text = held.read_or_begin(rt)?;
    check(alloc, path, text.as_slice())?;
    if let [name, id, first, more @ ..] = words {
        let display = joined(alloc, first, more)?;
        let more = extend(alloc, text.as_slice(), name, id, display.as_str())?;
        held.replace(rt, more.as_slice())?;
    }
    Ok(())
}

/// Words with a space between each two.
fn joined(alloc: Global, first: &str, more: &[&str]) -> Result<String, AllocError> {
    let mut text = String::from_str(alloc, first)?;
    for word in more {
        text.push_str(" ")?;
        text.push_str(word)?;
    }
    Ok(text)
}

/// The text, followed by the line of a person, in place of the one that it has for this name. In the result, the name
/// has the display name.
pub fn extend(
    alloc: Global,
    text: &[u8],
    name: &str,
    id: &str,
    display: &str,
) -> Result<Vec<u8>, AccountsFailure<'static>>
    ensures { IfOk result (λ more. Introduces text.now name.now id.now display.now more.items) }
{
    let mut more = without(alloc, text, name.as_bytes(), Taken::PersonLine)?;
    push_person(
        &mut more,
        name.as_bytes(),
        id.as_bytes(),
        display.as_bytes(),
    )?;
    let accounts = check_person(alloc, more.as_slice())?;
    let name = Name::from_str(alloc, name)?;
    if !is_shown_as(&accounts, &name, display) {
        return Err(AccountsFailure::NoPerson);
    }
    Ok(more)
}

/// Adds the line of a person, and before it the line feed that the text lacks.
fn push_person(text: &mut Vec<u8>, name: &[u8], id: &[u8], display: &[u8]) -> Result<(), AllocError>
    ensures { OnOk result (text.new.items
        ≡ with_person text.old.items name.now id.now display.now) }
{
    let end = line_end(text.as_slice());
    text.extend_from_slice(end)?;
    text.extend_from_slice(b"person ")?;
    text.extend_from_slice(name)?;
    text.extend_from_slice(b" ")?;
    text.extend_from_slice(id)?;
    text.extend_from_slice(b" ")?;
    text.extend_from_slice(display)?;
    text.extend_from_slice(b"\n")
}

/// The accounts of the text that is to be written, as a server reads them.
fn check_person(alloc: Global, more: &[u8]) -> Result<Accounts, AccountsFailure<'static>>
    ensures { IfOk result (λ accounts. accounts_of more.now ≡ Ok accounts) }
{
    match Accounts::read(alloc, more) {
        Ok(accounts) => Ok(accounts),
        Err(AccountsError::BadLine { mistake, .. }) => Err(AccountsFailure::WrongPerson(mistake)),
        Err(AccountsError::Memory) => Err(AccountsFailure::Memory),
    }
}

/// Returns true if a name has this display name.
fn is_shown_as(accounts: &Accounts, name: &Name, display: &str) -> bool
    ensures { result ≡ true → display_of name.now accounts.now.people ≡ Some display.now }
{
    match accounts.display_of(name) {
        Some(shown) => shown == display,
        None => false,
    }
}
