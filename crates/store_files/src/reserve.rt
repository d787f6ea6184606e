//! Room on the disk of a store, held in reserve, so that what was done can still be written when the disk is full.
use crate::spares::PRIVATE;
use std::alloc::Global;
use std::fs::{File, OpenOptions};
use std::io;
use std::io::{ErrorKind, Write};
use std::os::unix::fs::OpenOptionsExt;
use std::sync::{Mutex, Wait};

/// The number of bytes held in reserve. A thread has at most one request under way when the disk is full.
const BYTES: usize = 16_777_216;

/// The number of these that are written at once.
const BLOCK: usize = 1_048_576;

/// The file and its state.
#[derive(Drop)]
struct State {
    file: File,
    /// True if all its bytes are there.
    is_whole: bool,
    /// The second of the last attempt to make it whole.
    tried: u64,
}

/// A file of bytes that were really written. It is emptied when the disk is full, and written again when there is room.
#[derive(Drop)]
pub struct Reserve {
    state: Mutex<State>,
}

impl Reserve {
    /// The reserve in a file. If the disk has no room for it, it counts as spent.
    pub fn open(files: &HostRuntime, path: &str) -> io::Result<Reserve> {
        let mut options = OpenOptions::new();
        options.append(true).create(true).mode(PRIVATE);
        let mut state = State {
            file: options.open(files, path)?,
            is_whole: false,
            tried: 0,
        };
        match state.fill(files.alloc()) {
            Err(cause) if is_full(&cause) => state.empty()?,
            filled => filled?,
        }
        Ok(Reserve {
            state: Mutex::new(state),
        })
    }

    /// Returns true if the reserve is whole.
    pub fn is_whole<R: Wait>(&self, rt: &R) -> bool {
        self.state.lock(rt).is_whole
    }

    /// Gives the room back to the disk. Returns false if it was given back before.
    pub fn spend<R: Wait>(&self, rt: &R) -> io::Result<bool> {
        let mut state = self.state.lock(rt);
        let was_whole = state.is_whole;
        state.is_whole = false;
        state.empty()?;
        Ok(was_whole)
    }

    /// Writes a spent reserve again, at most once a second, and returns whether it is whole now.
    pub fn renew<R: Wait>(&self, rt: &R, alloc: Global, second: u64) -> bool {
        let mut state = self.state.lock(rt);
        if state.is_whole || state.tried == second {
            return state.is_whole;
        }
        state.tried = second;
        if state.fill(alloc).is_err() {
            let _what_is_there_stays = state.empty();
        }
        state.is_whole
    }
}

impl State {
    // Writes all bytes, and syncs them.
    fn fill(&mut self, alloc: Global) -> io::Result<()> {
        self.file.set_len(0)?;
        let mut block = Vec::new(alloc);
        block.resize(BLOCK, b'.')?;
        for _block in 0..BYTES / BLOCK {
            self.file.write_all(block.as_slice())?;
        }
        self.file.sync_all()?;
        self.is_whole = true;
        Ok(())
    }

    // Gives all bytes back, and syncs that.
    fn empty(&mut self) -> io::Result<()> {
        self.file.set_len(0)?;
        self.file.sync_all()
    }
}

/// Returns true if a call failed because the disk, or the server's quota of it, is full.
pub fn is_full(cause: &io::Error) -> bool {
    matches!(
        cause.kind(),
        ErrorKind::StorageFull | ErrorKind::QuotaExceeded
    )
}
