//! The accounts file on a disk. It is replaced whole: its folder has the old file or the new one, whatever fails.
use crate::failure::AccountsFailure;
use std::fs::{File, OpenOptions, TryLockError};
use std::io::{ErrorKind, Read, Write};
use std::os::unix::fs::{MetadataExt, OpenOptionsExt, fchown};
use std::{fs, io};

/// The permissions of an accounts file: for the server's user alone.
const PRIVATE: u32 = 0o600;

/// The accounts file of a command, and the lock on its folder until the value is dropped.
#[derive(Drop)]
pub struct AccountFile<'a> {
    path: &'a str,
    /// The file to which the path leads, without links.
    target: String,
    folder: File,
}

impl<'a> AccountFile<'a> {
    /// Takes the lock on the folder of an accounts file.
    pub fn open(rt: &HostRuntime, path: &'a str) -> Result<AccountFile<'a>, AccountsFailure<'a>> {
        match open_file(rt, path) {
            Ok(Some(held)) => Ok(held),
            Ok(None) => Err(AccountsFailure::Busy { path }),
            Err(cause) => Err(AccountsFailure::unread(path, cause)),
        }
    }

    /// The bytes of the file.
    pub fn read(&self, rt: &HostRuntime) -> Result<Vec<u8>, AccountsFailure<'a>> {
        read_accounts_file(rt, self.path)
    }

    /// The bytes of the file; none if it is not there.
    pub fn read_or_begin(&self, rt: &HostRuntime) -> Result<Vec<u8>, AccountsFailure<'a>> {
        match fs::read(rt, self.target.as_str()) {
            Ok(bytes) => Ok(bytes),
            Err(cause) if cause.kind() == ErrorKind::NotFound => Ok(Vec::new(rt.alloc())),
            Err(cause) => Err(AccountsFailure::unread(self.path, cause)),
        }
    }

    /// Writes another file with these bytes, the old file's owner and mode 0600, and puts it in place of the old one.
    pub fn replace(&self, rt: &HostRuntime, bytes: &[u8]) -> Result<(), AccountsFailure<'a>> {
        let path = self.path;
        let beside = format!(in rt.alloc(); "{}.new", self.target)?;
        if let Err(cause) = self.put(rt, beside.as_str(), bytes) {
            let _left = fs::remove_file(rt, beside.as_str());
            return Err(AccountsFailure::unwritten(path, cause));
        }
        match self.folder.sync_all() {
            Ok(()) => Ok(()),
            Err(cause) => Err(AccountsFailure::Unsynced { path, cause }),
        }
    }

    // Writes the file beside the old one, syncs it, and renames it over that.
    fn put(&self, rt: &HostRuntime, beside: &str, bytes: &[u8]) -> io::Result<()> {
        let mut file = make(rt, beside)?;
        self.keep_owner(rt, &file)?;
        file.write_all(bytes)?;
        file.sync_all()?;
        fs::rename(rt, beside, self.target.as_str())
    }

    // Gives a file the owner and the group of the old one, if there is one.
    fn keep_owner(&self, rt: &HostRuntime, file: &File) -> io::Result<()> {
        match fs::metadata(rt, self.target.as_str()) {
            Ok(old) => fchown(file, Some(old.uid()), Some(old.gid())),
            Err(cause) if cause.kind() == ErrorKind::NotFound => Ok(()),
            Err(cause) => Err(cause),
        }
    }
}

// The file at a path, and the lock on its folder. None: another process has the lock.
fn open_file<'a>(rt: &HostRuntime, path: &'a str) -> io::Result<Option<AccountFile<'a>>> {
    let target = resolved(rt, path)?;
    let folder = File::open(rt, folder_of(target.as_str()))?;
    match folder.try_lock() {
        Ok(()) => Ok(Some(AccountFile {
            path,
            target,
            folder,
        })),
        Err(TryLockError::WouldBlock) => Ok(None),
        Err(TryLockError::Error(cause)) => Err(cause),
    }
}

// The path without links; the path itself if there is no file.
fn resolved(rt: &HostRuntime, path: &str) -> io::Result<String> {
    match fs::canonicalize(rt, path) {
        Ok(target) => Ok(target.into_string()),
        Err(cause) if cause.kind() == ErrorKind::NotFound => {
            Ok(String::from_str(rt.alloc(), path)?)
        }
        Err(cause) => Err(cause),
    }
}

// The folder of a path.
fn folder_of(path: &str) -> &str {
    match path.rsplit_once('/') {
        Some(("", _name)) => "/",
        Some((folder, _name)) => folder,
        None => ".",
    }
}

// Makes an empty file, in place of one that an interrupted run left.
fn make(rt: &HostRuntime, path: &str) -> io::Result<File> {
    match fs::remove_file(rt, path) {
        Err(cause) if cause.kind() != ErrorKind::NotFound => return Err(cause),
        _ => {}
    }
    let mut options = OpenOptions::new();
    options.write(true).create_new(true).mode(PRIVATE);
    options.open(rt, path)
}

/// The bytes of an accounts file.
pub fn read_accounts_file<'a>(
    rt: &HostRuntime,
    path: &'a str,
) -> Result<Vec<u8>, AccountsFailure<'a>> {
    match fs::read(rt, path) {
        Ok(bytes) => Ok(bytes),
        Err(cause) => Err(AccountsFailure::unread(path, cause)),
    }
}

/// The bytes of a list of names; `-` is standard input.
pub fn read_list<'a>(rt: &HostRuntime, path: &'a str) -> Result<Vec<u8>, AccountsFailure<'a>> {
    let read = if path == "-" {
        read_input(rt)
    } else {
        fs::read(rt, path)
    };
    match read {
        Ok(bytes) => Ok(bytes),
        Err(cause) => Err(AccountsFailure::unread_list(path, cause)),
    }
}

// The bytes of standard input.
fn read_input(rt: &HostRuntime) -> io::Result<Vec<u8>> {
    let mut bytes = Vec::new(rt.alloc());
    rt.reader().read_to_end(&mut bytes)?;
    Ok(bytes)
}
