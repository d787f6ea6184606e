//! The reason why the pads of a store cannot be served.
use std::alloc::AllocError;
use std::io;
use thiserror::Error;

/// The reason why the pads of a store cannot be served. Each names the folder as it was given to `restore`.
#[derive(Clone, Copy, Debug, Error)]
pub enum StoreError<'a> {
    /// The system refused a folder or a file, to read, to write, to cut or to rename it.
    #[error("the store {folder} cannot be opened: {cause}")]
    Unopened { folder: &'a str, cause: io::Error },
    /// Another process holds the folder's lock.
    #[error("the store {folder} is in use by another process")]
    InUse { folder: &'a str },
    /// Bytes of a file that had been synced were changed. The file and its line were named on standard error before.
    #[error("the store {folder} is damaged")]
    Damaged { folder: &'a str },
    /// The last header of a file is that of a server with this number, and the owner's is not new.
    #[error("the store {folder} belongs to the server with replica number {replica}; to continue it under a number that no server has used, add --new-replica")]
    OtherReplica { folder: &'a str, replica: u64 },
    /// The owner's number is to be new, and operations of a pad have it.
    #[error("the store {folder} has operations of a server with replica number {number}")]
    UsedReplica { folder: &'a str, number: u16 },
    /// There are more files with a pad than the row is to have cells.
    #[error("the store {folder} has more pads than there are cells")]
    TooManyPads { folder: &'a str },
    /// There is no memory for a pad or for a list of them.
    #[error("900 Memory")]
    Memory,
}

impl From<AllocError> for StoreError<'_> {
    fn from(_refused: AllocError) -> Self {
        StoreError::Memory
    }
}
