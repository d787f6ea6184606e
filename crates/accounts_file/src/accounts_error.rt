//! The reason why an accounts file was not accepted.
use sessions::{AccountsError, Mistake};
use std::io;
use thiserror::Error;

/// The reason why an accounts file was not accepted.
#[derive(Clone, Copy, Debug, Error)]
pub enum AccountsFileError<'a> {
    /// The file could not be read.
    #[error("the accounts file {path} cannot be read: {cause}")]
    Unread {
        path: &'a str,
        cause: io::Error,
    },
    /// The first invalid line, counted from 1. `reason_of` says what is wrong with it.
    #[error("500 BadAccounts line {line}")]
    BadLine {
        path: &'a str,
        line: u64,
        mistake: Mistake,
    },
    /// Memory ran out.
    #[error("900 Memory")]
    Memory,
}

impl<'a> AccountsFileError<'a> {
    /// The error for the file at this path.
    pub fn of(path: &'a str, error: AccountsError) -> AccountsFileError<'a> {
        match error {
            AccountsError::BadLine { line, mistake } => AccountsFileError::BadLine {
                path,
                line,
                mistake,
            },
            AccountsError::Memory => AccountsFileError::Memory,
        }
    }
}
