//! Files that are opened before a pad is named, so that naming it opens no more files of the system.
use std::alloc::Global;
use std::fs::{File, OpenOptions};
use std::io::ErrorKind;
use std::os::unix::fs::OpenOptionsExt;
use std::sync::{Mutex, Wait};
use std::{fs, io};

/// The permissions of the files of a store: for the server's user alone.
pub const PRIVATE: u32 = 0o600;

/// A file without a pad, open for appending.
#[derive(Drop)]
pub struct Spare {
    pub file: File,
    path: String,
}

impl Spare {
    /// Gives the file the name of a pad's file, which no other file has.
    pub fn rename(&self, files: &HostRuntime, path: &str) -> io::Result<()> {
        if fs::exists(files, path)? {
            return Err(io::Error::from(ErrorKind::AlreadyExists));
        }
        fs::rename(files, self.path.as_str(), path)
    }
}

// The files that are ready, the number of creations to which one is promised, and the number that were made.
#[derive(Drop)]
struct State {
    ready: Vec<Spare>,
    promised: usize,
    made: u64,
}

/// Files for the pads that are created next. A creation is promised one before it claims a name.
#[derive(Drop)]
pub struct Spares {
    state: Mutex<State>,
}

impl Spares {
    /// No file is made yet.
    pub fn new(alloc: Global) -> Spares {
        Spares {
            state: Mutex::new(State {
                ready: Vec::new(alloc),
                promised: 0,
                made: 0,
            }),
        }
    }

    /// Promises a file in this folder to a creation, and makes one if all are promised already.
    pub fn promise<R: Wait>(&self, rt: &R, files: &HostRuntime, folder: &str) -> io::Result<()> {
        let mut state = self.state.lock(rt);
        if state.ready.len() <= state.promised {
            let spare = open(files, folder, state.made)?;
            state.ready.push(spare)?;
            state.made = state.made.saturating_add(1);
        }
        state.promised = state.promised.saturating_add(1);
        Ok(())
    }

    /// Takes a promise back from a creation that has named no pad.
    pub fn release<R: Wait>(&self, rt: &R) {
        let mut state = self.state.lock(rt);
        state.promised = state.promised.saturating_sub(1);
    }

    /// Takes the file that was promised to a creation.
    pub fn take<R: Wait>(&self, rt: &R) -> Option<Spare> {
        let mut state = self.state.lock(rt);
        state.promised = state.promised.saturating_sub(1);
        state.ready.pop()
    }
}

// Makes an empty file, or opens one left by a server that has ended.
fn open(files: &HostRuntime, folder: &str, number: u64) -> io::Result<Spare> {
    let path = format!(in files.alloc(); "{folder}/spare-{number}")?;
    let mut options = OpenOptions::new();
    options.read(true).append(true).create(true).mode(PRIVATE);
    let file = options.open(files, path.as_str())?;
    Ok(Spare { file, path })
}
