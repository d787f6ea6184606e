//! The end of a pad's file, where lines are appended, and whether the file is open.
use std::alloc::Global;
use std::fs::{File, OpenOptions};
use std::io;
use store_format::PadWriter;

/// The end of a pad's file.
#[derive(Drop)]
pub struct PadEnd {
    /// The file, open for appending and reading. None: it is closed, or still to be made.
    pub file: Option<File>,
    pub writer: PadWriter,
    /// The name of the pad. None: it has none yet, and no file.
    pub name: Option<String>,
    /// The number of bytes of the file that are synced, if a standby has a copy.
    pub synced: u64,
}

impl PadEnd {
    /// Opens the file to read it, if it is closed.
    pub fn open_closed(
        &self,
        alloc: Global,
        files: &HostRuntime,
        folder: &str,
    ) -> io::Result<Option<File>> {
        match (&self.file, &self.name) {
            (None, Some(name)) => {
                let path = path_of(alloc, folder, name.as_str())?;
                Ok(Some(File::open(files, path.as_str())?))
            }
            _ => Ok(None),
        }
    }
}

/// The path of the file of a pad.
pub fn path_of(alloc: Global, folder: &str, pad: &str) -> io::Result<String> {
    Ok(format!(in alloc; "{folder}/{pad}.pad")?)
}

/// Opens the file at a path, which is there, for appending and reading.
pub fn open_end(files: &HostRuntime, path: &str) -> io::Result<File> {
    let mut options = OpenOptions::new();
    options.read(true).append(true);
    options.open(files, path)
}
