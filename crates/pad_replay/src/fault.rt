//! The reason why a story could not be played.
ghost use Rattle.std.specs.Prelude.{◌≡◌};
ghost use Rattle.std.specs.Process.{exit_status};
ghost use Rattle.pad_replay.specs.Status.{status};

use pad_model::Refusal;
use sessions::AccountsError;
use std::alloc::{AllocError, AllocFailed};
use std::process::ExitCode;
use std::{fmt, io};

/// The reason why a story could not be played.
#[derive(Drop)]
pub enum StoryFault {
    /// A line of the accounts file is invalid.
    BadAccounts { line: u64 },
    /// A line of the story, counted from 1, has none of the forms of a story.
    NoStory { line: u64 },
    /// A title, at this line of the story, names a number that no replica can have.
    NoReplica { line: u64 },
    /// There was no room for a session, or no memory.
    Refused(Refusal),
    /// A step was not answered.
    NoAnswer,
    /// Reading or writing failed.
    Broken(io::Error),
}

impl StoryFault {
    /// 2 for an invalid line of the accounts file, otherwise 1.
    pub fn status(&self) -> ExitCode
        ensures { exit_status result ≡ status self.now }
    {
        match self {
            StoryFault::BadAccounts { .. } => ExitCode::from(2),
            _ => ExitCode::FAILURE,
        }
    }
}

impl fmt::Display for StoryFault {
    fn fmt<W: fmt::Write>(&self, f: &mut fmt::Formatter<W>) -> fmt::Result {
        match self {
            StoryFault::BadAccounts { line } => write!(f, "500 BadAccounts line {line}"),
            StoryFault::NoStory { line } => write!(f, "line {line} is none of a story"),
            StoryFault::NoReplica { line } => {
                write!(f, "line {line}: a replica number is 1 to 65535")
            }
            StoryFault::Refused(refusal) => {
                let code = refusal.code();
                let name = refusal.name();
                write!(f, "{code} {name}")
            }
            StoryFault::NoAnswer => write!(f, "no answer"),
            StoryFault::Broken(error) => write!(f, "{error}"),
        }
    }
}

impl From<AccountsError> for StoryFault {
    fn from(error: AccountsError) -> StoryFault {
        match error {
            AccountsError::BadLine { line, .. } => StoryFault::BadAccounts { line },
            AccountsError::Memory => StoryFault::Refused(Refusal::Memory),
        }
    }
}

impl From<Refusal> for StoryFault {
    fn from(refusal: Refusal) -> StoryFault {
        StoryFault::Refused(refusal)
    }
}

impl From<AllocError> for StoryFault {
    fn from(_refused: AllocError) -> StoryFault {
        StoryFault::Refused(Refusal::Memory)
    }
}

impl<T: Drop> From<AllocFailed<T>> for StoryFault {
    fn from(_refused: AllocFailed<T>) -> StoryFault {
        StoryFault::Refused(Refusal::Memory)
    }
}

impl From<io::Error> for StoryFault {
    fn from(error: io::Error) -> StoryFault {
        StoryFault::Broken(error)
    }
}
