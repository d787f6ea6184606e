//! Checks that a text is an accounts file that a server takes.
ghost use Rattle.std.specs.Prelude.{◌≡◌, Ok, true, IfOk, IfErr};
ghost use Rattle.sessions.specs.Accounts.{accounts_of, is_author};
ghost use Rattle.pad_accounts.specs.Checked.{Refuses};

use crate::failure::AccountsFailure;
use sessions::{Accounts, AccountsError};
use std::alloc::Global;

/// The accounts of a text, as a server reads them.
pub fn check<'a>(alloc: Global, path: &'a str, text: &[u8]) -> Result<Accounts, AccountsFailure<'a>>
    ensures ok { IfOk result (λ accounts. accounts_of text.now ≡ Ok accounts) }
    ensures refused { IfErr result (Refuses text.now) }
{
    match Accounts::read(alloc, text) {
        Ok(accounts) => Ok(accounts),
        Err(AccountsError::BadLine { line, mistake }) => Err(AccountsFailure::WrongFile {
            path,
            line,
            mistake,
        }),
        Err(AccountsError::Memory) => Err(AccountsFailure::Memory),
    }
}

/// Returns true if an author logs in with this token.
pub fn logs_in(accounts: &Accounts, name: &[u8], token: &[u8]) -> bool
    ensures { result ≡ true → is_author name.now token.now accounts.now ≡ true }
{
    match (str::from_utf8(name), str::from_utf8(token)) {
        (Ok(name), Ok(token)) => accounts.author(name, token),
        _ => false,
    }
}
