//! The reason why a server over TCP does not start, or ends early.
use accounts_file::AccountsFileError;
use pad_model::Refusal;
use std::alloc::AllocError;
use std::io;
use store_files::StoreError;
use thiserror::Error;

/// The reason why a server over TCP does not start, or ends early.
#[derive(Clone, Copy, Debug, Error)]
pub enum ServingError<'a> {
    /// The accounts file is refused.
    #[error("{0}")]
    Accounts(AccountsFileError<'a>),
    /// The store is refused.
    #[error("{0}")]
    Store(StoreError<'a>),
    /// The address has no port number.
    #[error("cannot listen at {address}: HOST:PORT is needed, such as 127.0.0.1:7878")]
    NoPort { address: &'a str },
    /// The system refused the address.
    #[error("cannot listen at {address}: {cause}")]
    AddressRefused { address: &'a str, cause: io::Error },
    /// The address that was bound could not be printed.
    #[error("standard output: {0}")]
    OutputFailed(io::Error),
    /// The system gives no sockets or events for the workers.
    #[error("the threads that serve connections cannot be set up: {0}")]
    NotSetUp(io::Error),
    /// The system cannot make as many threads as are needed.
    #[error("cannot start a thread: the system's limit is reached")]
    NoThread,
    /// The store failed while the server ran.
    #[error("the store {folder} failed")]
    StoreFailed { folder: &'a str },
    /// The accounts file has no line for the main server or the standby.
    #[error("the accounts file has no line for peer {number}")]
    NoPeer { number: u16 },
    /// The standby did not answer a server that promised never to go on without it.
    #[error("the standby {number} does not answer")]
    StandbyLost { number: u16 },
    /// A worker or the acceptor failed while the server ran.
    #[error("a thread that serves connections failed")]
    WorkerFailed,
    /// The pads are refused: they have no room for the seats of all threads, or there is no memory.
    #[error("{} {}", .0.code(), .0.name())]
    Refused(Refusal),
}

impl<'a> From<AccountsFileError<'a>> for ServingError<'a> {
    fn from(error: AccountsFileError<'a>) -> Self {
        ServingError::Accounts(error)
    }
}

impl<'a> From<StoreError<'a>> for ServingError<'a> {
    fn from(error: StoreError<'a>) -> Self {
        ServingError::Store(error)
    }
}

impl From<Refusal> for ServingError<'_> {
    fn from(refusal: Refusal) -> Self {
        ServingError::Refused(refusal)
    }
}

impl From<AllocError> for ServingError<'_> {
    fn from(_refused: AllocError) -> Self {
        ServingError::Refused(Refusal::Memory)
    }
}
