//! The reason why the program ends early.
ghost use Rattle.std.specs.Prelude.{◌≡◌};
ghost use Rattle.std.specs.Process.{exit_status};
ghost use Rattle.pad_accounts.specs.Status.{status};
ghost use Rattle.pad_accounts.specs.declared.failure.AccountsFailure.TheVariants.{Memory};

use crate::names::{NameFault, WrongName};
use accounts_file::reason_of;
use sessions::Mistake;
use std::alloc::{AllocError, AllocFailed};
use std::io::ErrorKind;
use std::process::ExitCode;
use std::{fmt, io};

/// The reason why the program ends early.
#[derive(Clone, Copy)]
pub enum AccountsFailure<'a> {
    Memory,
    /// The arguments could not be read.
    Unasked(io::Error),
    /// The accounts file, or its folder, could not be read.
    Unread {
        path: &'a str,
        cause: io::Error,
    },
    /// The list of names could not be read.
    UnreadList {
        path: &'a str,
        cause: io::Error,
    },
    /// The list has no name.
    EmptyList {
        path: &'a str,
    },
    /// The accounts file is wrong, and was so before.
    WrongFile {
        path: &'a str,
        line: u64,
        mistake: Mistake,
    },
    /// A name cannot be added.
    WrongName(WrongName<'a>),
    /// No author has the name.
    NoAuthor {
        path: &'a str,
        name: &'a str,
    },
    /// Of the token of this author the accounts file has only the hash.
    OnlyHash {
        path: &'a str,
        name: &'a str,
    },
    /// The accounts file would be wrong with the addition.
    WouldBeWrong(Mistake),
    /// The accounts file would be wrong with the line of a person.
    WrongPerson(Mistake),
    /// A person would not have the display name.
    NoPerson,
    /// An author could not log in with the addition.
    NoLogin,
    /// There are no random bytes.
    NoRandom(io::Error),
    /// Another run has the lock on the folder of the accounts file.
    Busy {
        path: &'a str,
    },
    /// The accounts file could not be replaced.
    Unwritten {
        path: &'a str,
        cause: io::Error,
    },
    /// The accounts file is replaced, but its folder could not be synced.
    Unsynced {
        path: &'a str,
        cause: io::Error,
    },
    /// Standard output failed.
    Unprinted(io::Error),
}

impl<'a> AccountsFailure<'a> {
    /// The reason why an accounts file could not be read.
    pub fn unread(path: &'a str, cause: io::Error) -> AccountsFailure<'a> {
        match cause.kind() {
            ErrorKind::OutOfMemory => AccountsFailure::Memory,
            _ => AccountsFailure::Unread { path, cause },
        }
    }

    /// The reason why a list of names could not be read.
    pub fn unread_list(path: &'a str, cause: io::Error) -> AccountsFailure<'a> {
        match cause.kind() {
            ErrorKind::OutOfMemory => AccountsFailure::Memory,
            _ => AccountsFailure::UnreadList { path, cause },
        }
    }

    /// The reason why an accounts file could not be replaced.
    pub fn unwritten(path: &'a str, cause: io::Error) -> AccountsFailure<'a> {
        match cause.kind() {
            ErrorKind::OutOfMemory => AccountsFailure::Memory,
            _ => AccountsFailure::Unwritten { path, cause },
        }
    }

    /// The reason why the arguments could not be read.
    pub fn of_arguments(cause: io::Error) -> AccountsFailure<'static> {
        match cause.kind() {
            ErrorKind::OutOfMemory => AccountsFailure::Memory,
            _ => AccountsFailure::Unasked(cause),
        }
    }

    /// The reason why nothing could be printed.
    pub fn of_output(cause: io::Error) -> AccountsFailure<'static> {
        match cause.kind() {
            ErrorKind::OutOfMemory => AccountsFailure::Memory,
            _ => AccountsFailure::Unprinted(cause),
        }
    }

    /// 2 if a name, a list or the accounts file is wrong, otherwise 1.
    pub fn status(self) -> ExitCode
        ensures { exit_status result ≡ status self.entry }
    {
        match self {
            AccountsFailure::EmptyList { .. }
            | AccountsFailure::WrongFile { .. }
            | AccountsFailure::WrongName(_)
            | AccountsFailure::NoAuthor { .. }
            | AccountsFailure::OnlyHash { .. }
            | AccountsFailure::WouldBeWrong(_)
            | AccountsFailure::WrongPerson(_)
            | AccountsFailure::NoPerson => ExitCode::from(2),
            _ => ExitCode::FAILURE,
        }
    }
}

impl fmt::Display for AccountsFailure<'_> {
    fn fmt<W: fmt::Write>(&self, f: &mut fmt::Formatter<W>) -> fmt::Result {
        match self {
            AccountsFailure::Memory => write!(f, "900 Memory"),
            AccountsFailure::Unasked(cause) => write!(f, "the arguments cannot be read: {cause}"),
            AccountsFailure::Unread { path, cause } => {
                write!(f, "the accounts file {path} cannot be read: {cause}")
            }
            AccountsFailure::UnreadList { path, cause } => {
                write!(f, "the list {path} cannot be read: {cause}")
            }
            AccountsFailure::EmptyList { path } => write!(f, "the list {path} has no name"),
            AccountsFailure::WrongFile {
                path,
                line,
                mistake,
            } => write_mistake(f, path, *line, *mistake),
            AccountsFailure::WrongName(wrong) => write!(f, "{wrong}"),
            AccountsFailure::NoAuthor { path, name } => {
                write!(f, "the accounts file {path} has no author {name:?}")
            }
            AccountsFailure::WouldBeWrong(mistake) => {
                let reason = reason_of(*mistake);
                write!(f, "nothing is written: with these names, {reason}")
            }
            AccountsFailure::OnlyHash { path, name } => write!(
                f,
                "the token of {name} is not known: {path} has only its hash; remove and add the author for a new link"
            ),
            AccountsFailure::WrongPerson(mistake) => {
                let reason = reason_of(*mistake);
                write!(f, "nothing is written: {reason}")
            }
            AccountsFailure::NoPerson => write!(
                f,
                "nothing is written: a display name is one line of text"
            ),
            AccountsFailure::NoLogin => write!(
                f,
                "nothing is written: a new author could not log in"
            ),
            AccountsFailure::NoRandom(cause) => {
                write!(
                    f,
                    "nothing is written: /dev/urandom cannot be read: {cause}"
                )
            }
            AccountsFailure::Busy { path } => {
                write!(
                    f,
                    "the folder of {path} is locked by another run; try again"
                )
            }
            AccountsFailure::Unwritten { path, cause } => {
                write!(f, "the accounts file {path} cannot be replaced: {cause}")
            }
            AccountsFailure::Unsynced { path, cause } => {
                write!(
                    f,
                    "the accounts file {path} is replaced, but its folder cannot be synced: {cause}"
                )
            }
            AccountsFailure::Unprinted(cause) => write!(f, "standard output: {cause}"),
        }
    }
}

/// The first mistake of an accounts file, in the words of the server.
fn write_mistake<W: fmt::Write>(
    f: &mut fmt::Formatter<W>,
    path: &str,
    line: u64,
    mistake: Mistake,
) -> fmt::Result {
    let reason = reason_of(mistake);
    write!(
        f,
        "500 BadAccounts line {line}\npad_accounts: the accounts file {path}: {reason}"
    )
}

impl fmt::Display for WrongName<'_> {
    fn fmt<W: fmt::Write>(&self, f: &mut fmt::Formatter<W>) -> fmt::Result {
        write!(f, "nothing is written: ")?;
        if let Some(line) = self.named.line {
            write!(f, "line {line} of the list: ")?;
        }
        match str::from_utf8(self.named.name) {
            Ok(name) => write!(f, "{name:?} ")?,
            Err(_) => write!(f, "what is no text ")?,
        }
        match self.fault {
            NameFault::NotAName => {
                write!(
                    f,
                    "is not a name; a name has 1 to 32 characters of a-z, 0-9 and -"
                )
            }
            NameFault::Twice => write!(f, "is named twice"),
            NameFault::Taken => write!(f, "is in the accounts file already"),
        }
    }
}

impl From<AllocError> for AccountsFailure<'_> {
    ghost from_gives = { λ _ failure. failure ≡ Memory };

    fn from(_refused: AllocError) -> Self {
        AccountsFailure::Memory
    }
}

impl<T: Drop> From<AllocFailed<T>> for AccountsFailure<'_> {
    ghost from_gives = { λ _ failure. failure ≡ Memory };

    fn from(_refused: AllocFailed<T>) -> Self {
        AccountsFailure::Memory
    }
}
