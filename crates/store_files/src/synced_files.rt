//! The files that are copied, as whoever copies them sees them.
use file_copies::HeardMark;
use pad_model::Name;
use std::alloc::{AllocError, Global};
use std::io;
use std::sync::Wait;
use std::time::{Clock, Duration};

/// A pad's file, as far as it is synced.
#[derive(Debug, Drop)]
pub struct SyncedFile {
    pub pad: Name,
    /// The number of bytes.
    pub length: u64,
}

/// The files of pads, as far as they are synced, and the receiver of reports on the copies: the files of a server's
/// store, or a list in memory in tests.
pub trait SyncedFiles {
    /// The number of cells.
    fn cells(&self) -> usize;

    /// The cells whose files have grown since this was last called. One thread calls it.
    fn take_grown(&self, alloc: Global) -> Result<Vec<u32>, AllocError>;

    /// Waits until more than the first `seen` notes are synced, for at most `most`, and returns how many are. None: the
    /// files can no longer be written.
    fn follow<R: Wait + Clock>(&self, rt: &R, seen: u64, most: Duration) -> Option<u64>;

    /// The file at a cell. None: the cell has no pad yet.
    fn file_at<R: Wait>(&self, rt: &R, alloc: Global, cell: u32) -> io::Result<Option<SyncedFile>>;

    /// The synced bytes of a file from this place on, whole lines alone: about `most` bytes, and at least one line where there
    /// is one.
    fn lines_from<R: Wait>(
        &self,
        rt: &R,
        alloc: Global,
        cell: u32,
        from: u64,
        most: u64,
    ) -> io::Result<Vec<u8>>;

    /// The sum of the line that ends at this place of a file; empty at its beginning. None: no line can end there.
    fn sum_before<R: Wait>(
        &self,
        rt: &R,
        alloc: Global,
        cell: u32,
        end: u64,
    ) -> io::Result<Option<String>>;

    /// The copies have synced a round, after which they have this number of bytes. For those who watch the server.
    fn note_round(&self, bytes: u64);

    /// The copies have the bytes of the first notes, as many as the mark. `is_all` is true if they had everything.
    /// Returns true if the server was alone until then.
    fn hear<R: Wait>(&self, rt: &R, heard: &HeardMark, is_all: bool) -> bool;
}
