//! Verifies files.
use crate::failure::StoreFailure;
use crate::files::{is_folder, names_of, read_file};
use crate::inspected_pad::InspectedPad;
use crate::progress_report::ProgressReport;
use crate::trouble::Trouble;
use std::alloc::{AllocError, Global};
use std::io::{Eprint, Write};
use std::rt::Runtime;
use store_format::Damage;

/// Verifies a file, or each file of a folder, and prints a line for each. Returns whether all are undamaged.
pub fn check<'a, R: Runtime<A = Global>, W: Write>(
    rt: &R,
    path: &'a str,
    out: &mut W,
) -> Result<bool, StoreFailure<'a>> {
    let in_folder = match is_folder(rt, path) {
        Ok(in_folder) => in_folder,
        Err(cause) => return Err(StoreFailure::of_file(path, cause)),
    };
    if !in_folder {
        return check_file(rt, path, None, out);
    }
    match names_of(rt, path) {
        Ok(names) => check_files(rt, path, names.as_slice(), out),
        Err(cause) => Err(StoreFailure::of_file(path, cause)),
    }
}

// Verifies these files of a folder. A file that is damaged or cannot be read is reported, and the others are still
// verified.
fn check_files<'a, R: Runtime<A = Global>, W: Write>(
    rt: &R,
    folder: &'a str,
    names: &[String],
    out: &mut W,
) -> Result<bool, StoreFailure<'a>> {
    let mut progress = ProgressReport::start(rt);
    let mut whole = true;
    let mut done: u64 = 0;
    for name in names {
        whole = check_named(rt, folder, name.as_str(), out)? && whole;
        done = done.saturating_add(1);
        progress.report(rt, "file", done, names.len() as u64);
    }
    Ok(whole)
}

// Verifies the file with this name in a folder.
fn check_named<'a, R: Runtime<A = Global>, W: Write>(
    rt: &R,
    folder: &'a str,
    name: &str,
    out: &mut W,
) -> Result<bool, StoreFailure<'a>> {
    let path = format!(in rt.alloc(); "{folder}/{name}")?;
    let pad = name.strip_suffix(".pad").unwrap_or(name);
    match check_file(rt, path.as_str(), Some(pad), out) {
        Ok(sound) => Ok(sound),
        Err(StoreFailure::Unwritten(cause)) => Err(StoreFailure::Unwritten(cause)),
        Err(StoreFailure::Memory) => Err(StoreFailure::Memory),
        Err(failure) => {
            let _told = eprintln!(rt; "pad_store: {failure}");
            Ok(false)
        }
    }
}

// Verifies a file. In a folder, it has to be the file of the pad after which it is named.
fn check_file<'a, R: Runtime<A = Global>, W: Write>(
    rt: &R,
    path: &'a str,
    pad: Option<&str>,
    out: &mut W,
) -> Result<bool, StoreFailure<'a>> {
    let bytes = read_file(rt, path)?;
    match summary(rt.alloc(), bytes.as_slice(), pad) {
        Ok(line) => {
            out.write_all(line.as_bytes())?;
            Ok(true)
        }
        Err(Trouble::Memory) => Err(StoreFailure::Memory),
        Err(trouble) => {
            out.flush()?;
            let _told = eprintln!(rt; "pad_store: {path}: {trouble}");
            Ok(false)
        }
    }
}

// The output line for a file.
fn summary(alloc: Global, bytes: &[u8], pad: Option<&str>) -> Result<String, Trouble> {
    match InspectedPad::read(alloc, bytes) {
        Ok(mut book) => line_of(alloc, &mut book, pad),
        Err(trouble) => Err(trouble),
    }
}

// The output line for a file's pad.
fn line_of(alloc: Global, book: &mut InspectedPad, pad: Option<&str>) -> Result<String, Trouble> {
    if pad.is_some() && pad != Some(book.name.as_str()) {
        return Err(Trouble::Damaged(Damage::OtherPad));
    }
    let length = book.length(alloc)?;
    Ok(line_with(alloc, book, length)?)
}

// The output line for a file's pad with this many characters.
fn line_with(alloc: Global, book: &InspectedPad, length: u64) -> Result<String, AllocError> {
    let rev = book.revision();
    let name = book.name.as_str();
    let sum = book.sum.as_str();
    let behind = book.cut;
    format!(in alloc;
        "{name} operations={rev} revision={rev} length={length} sum={sum} behind={behind}\n"
    )
}
