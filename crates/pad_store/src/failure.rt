//! The reason why the program ends early.
use crate::trouble::Trouble;
use std::alloc::{AllocError, AllocFailed};
use std::io::ErrorKind;
use std::process::ExitCode;
use std::{fmt, io};

/// The reason why the program ends early.
#[derive(Clone, Copy)]
pub enum StoreFailure<'a> {
    Memory,
    /// The arguments could not be read.
    Unasked(io::Error),
    /// A file or a folder could not be read.
    Unread { path: &'a str, cause: io::Error },
    /// The pad of a file could not be read.
    Troubled { path: &'a str, trouble: Trouble },
    /// No line of a file has the sum.
    NoSum { path: &'a str },
    /// The first revision of a comparison is the newer one.
    Backwards,
    /// Of two stores that are compared, one is a folder and the other a file.
    Unlike,
    /// Standard output failed.
    Unwritten(io::Error),
}

impl<'a> StoreFailure<'a> {
    /// The reason why a file or a folder could not be read.
    pub fn of_file(path: &'a str, cause: io::Error) -> StoreFailure<'a> {
        match cause.kind() {
            ErrorKind::OutOfMemory => StoreFailure::Memory,
            _ => StoreFailure::Unread { path, cause },
        }
    }

    /// The reason why a file's pad could not be read.
    pub fn of_pad(path: &'a str, trouble: Trouble) -> StoreFailure<'a> {
        match trouble {
            Trouble::Memory => StoreFailure::Memory,
            _ => StoreFailure::Troubled { path, trouble },
        }
    }

    /// The reason why the arguments could not be read.
    pub fn of_arguments(cause: io::Error) -> StoreFailure<'static> {
        match cause.kind() {
            ErrorKind::OutOfMemory => StoreFailure::Memory,
            _ => StoreFailure::Unasked(cause),
        }
    }

    /// Returns true if standard output has lost its reader, which is not a failure.
    pub fn is_end(self) -> bool {
        match self {
            StoreFailure::Unwritten(cause) => cause.kind() == ErrorKind::BrokenPipe,
            _ => false,
        }
    }

    /// 2 if the command line is wrong, otherwise 1.
    pub fn status(self) -> ExitCode {
        match self {
            StoreFailure::Backwards | StoreFailure::Unlike => ExitCode::from(2),
            _ => ExitCode::FAILURE,
        }
    }
}

impl fmt::Display for StoreFailure<'_> {
    fn fmt<W: fmt::Write>(&self, f: &mut fmt::Formatter<W>) -> fmt::Result {
        match self {
            StoreFailure::Memory => write!(f, "900 Memory"),
            StoreFailure::Unasked(cause) => write!(f, "the arguments cannot be read: {cause}"),
            StoreFailure::Unread { path, cause } => write!(f, "{path}: {cause}"),
            StoreFailure::Troubled { path, trouble } => write!(f, "{path}: {trouble}"),
            StoreFailure::NoSum { path } => write!(f, "{path}: no line has this sum"),
            StoreFailure::Backwards => write!(f, "diff needs the older revision first"),
            StoreFailure::Unlike => write!(f, "beyond needs two folders or two files"),
            StoreFailure::Unwritten(cause) => write!(f, "standard output: {cause}"),
        }
    }
}

impl From<io::Error> for StoreFailure<'_> {
    fn from(cause: io::Error) -> Self {
        match cause.kind() {
            ErrorKind::OutOfMemory => StoreFailure::Memory,
            _ => StoreFailure::Unwritten(cause),
        }
    }
}

impl From<AllocError> for StoreFailure<'_> {
    fn from(_refused: AllocError) -> Self {
        StoreFailure::Memory
    }
}

impl<T: Drop> From<AllocFailed<T>> for StoreFailure<'_> {
    fn from(_refused: AllocFailed<T>) -> Self {
        StoreFailure::Memory
    }
}
