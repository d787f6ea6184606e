//! The files of pads on a disk.
use crate::failure::StoreFailure;
use std::alloc::Global;
use std::fs::Files;
use std::io::Eprint;
use std::rt::Runtime;
use std::{fs, io};

/// The size in MiB from which a file is announced: replaying that much takes about a second.
const LARGE: usize = 16;

/// Returns true if a path is that of a folder.
pub fn is_folder(files: &impl Files, path: &str) -> io::Result<bool> {
    Ok(fs::metadata(files, path)?.is_dir())
}

/// The names of the files of pads in a folder, in order.
pub fn names_of<R: Runtime<A = Global>>(rt: &R, folder: &str) -> io::Result<Vec<String>> {
    let alloc = rt.alloc();
    let mut names = Vec::new(alloc);
    for entry in fs::read_dir(rt, folder)? {
        let entry = entry?;
        if entry.file_name().ends_with(".pad") {
            names.push(String::from_str(alloc, entry.file_name())?)?;
        }
    }
    names.sort()?;
    Ok(names)
}

/// Reads a file. A large one is announced on standard error.
pub fn read_file<'a, R: Runtime<A = Global>>(
    rt: &R,
    path: &'a str,
) -> Result<Vec<u8>, StoreFailure<'a>> {
    let bytes = match fs::read(rt, path) {
        Ok(bytes) => bytes,
        Err(cause) => return Err(StoreFailure::of_file(path, cause)),
    };
    let size = bytes.len() / 1_048_576;
    if size >= LARGE {
        let _told = eprintln!(rt; "pad_store: {path}: reading {size} MiB");
    }
    Ok(bytes)
}
