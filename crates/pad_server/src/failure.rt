//! The reason why the server does not start, or ends early.
ghost use Rattle.std.specs.Prelude.{◌≡◌};
ghost use Rattle.std.specs.Process.{exit_status};
ghost use Rattle.pad_server.specs.Status.{status};

use accounts_file::AccountsFileError;
use pad_model::Refusal;
use std::alloc::AllocError;
use std::io;
use std::io::ErrorKind;
use std::process::ExitCode;
use store_files::StoreError;
use tcp_server::ServingError;
use thiserror::Error;
use wire_lines::{Fault, cause_of};

/// The reason why the server does not start, or ends before the end of its input.
#[derive(Clone, Copy, Debug, Error)]
pub enum ServerFailure<'a> {
    #[error("the arguments cannot be read: {0}")]
    ArgumentsUnread(io::Error),
    #[error("{0}")]
    Accounts(AccountsFileError<'a>),
    #[error("{0}")]
    Serving(ServingError<'a>),
    #[error("{code} {name}")]
    Refused { code: u16, name: &'static str },
    #[error("{0}")]
    Fault(Fault),
    #[error("{fault}: {cause}")]
    Broken { fault: Fault, cause: io::Error },
}

impl<'a> ServerFailure<'a> {
    /// The failure for a connection's fault, with the system's error if its device reported one.
    pub fn of(
        fault: Fault,
        unread: Option<io::Error>,
        unwritten: Option<io::Error>,
    ) -> ServerFailure<'static> {
        match cause_of(fault, unread, unwritten) {
            Some(cause) => ServerFailure::Broken { fault, cause },
            None => ServerFailure::Fault(fault),
        }
    }

    /// The reason why the arguments could not be read.
    pub fn of_arguments(cause: io::Error) -> ServerFailure<'static> {
        match cause.kind() {
            ErrorKind::OutOfMemory => ServerFailure::Fault(Fault::Memory),
            _ => ServerFailure::ArgumentsUnread(cause),
        }
    }

    /// The error in the accounts file; None for another failure.
    pub fn accounts(self) -> Option<AccountsFileError<'a>> {
        match self {
            ServerFailure::Accounts(error) => Some(error),
            ServerFailure::Serving(ServingError::Accounts(error)) => Some(error),
            _ => None,
        }
    }

    /// 2 for an invalid line of the accounts file, the store of another server or a number that is not new; otherwise
    /// 1.
    pub fn status(self) -> ExitCode
        ensures { exit_status result ≡ status self.entry }
    {
        match self {
            ServerFailure::Accounts(AccountsFileError::BadLine { .. })
            | ServerFailure::Serving(ServingError::Accounts(AccountsFileError::BadLine { .. }))
            | ServerFailure::Serving(ServingError::Store(StoreError::OtherReplica { .. }))
            | ServerFailure::Serving(ServingError::Store(StoreError::UsedReplica { .. })) => {
                ExitCode::from(2)
            }
            _ => ExitCode::FAILURE,
        }
    }
}

impl<'a> From<AccountsFileError<'a>> for ServerFailure<'a> {
    fn from(error: AccountsFileError<'a>) -> Self {
        ServerFailure::Accounts(error)
    }
}

impl From<Refusal> for ServerFailure<'_> {
    fn from(refusal: Refusal) -> Self {
        ServerFailure::Refused {
            code: refusal.code(),
            name: refusal.name(),
        }
    }
}

impl From<AllocError> for ServerFailure<'_> {
    fn from(_refused: AllocError) -> Self {
        ServerFailure::Fault(Fault::Memory)
    }
}
