//! The lines that an older store has beyond a newer one: those of each file after the last one that both have.
use crate::failure::StoreFailure;
use crate::files::{is_folder, names_of, read_file};
use crate::inspected_pad::InspectedPad;
use crate::log::put_lines_behind;
use crate::parting::{part, whole_lines};
use crate::progress_report::ProgressReport;
use crate::trouble::Trouble;
use std::alloc::{AllocError, Global};
use std::io::{Eprint, Write};
use std::rt::Runtime;

/// The numbers of pads of the older store, by the result of their comparison.
#[derive(Clone, Copy)]
struct BeyondCounts {
    pads: u64,
    /// Pads with lines that the newer store lacks.
    beyond: u64,
    /// Pads without a file in the newer store.
    missing: u64,
    /// Pads whose two files have no line in common.
    apart: u64,
    /// Pads of which a file is damaged or cannot be read.
    damaged: u64,
    /// The lines that the newer store lacks.
    lines: u64,
}

impl BeyondCounts {
    fn new() -> BeyondCounts {
        BeyondCounts {
            pads: 0,
            beyond: 0,
            missing: 0,
            apart: 0,
            damaged: 0,
            lines: 0,
        }
    }

    // Counts a pad with this number of lines that the newer store lacks.
    fn add_lines(&mut self, lines: usize) {
        self.lines = self.lines.saturating_add(lines as u64);
        if lines > 0 {
            self.beyond = self.beyond.saturating_add(1);
        }
    }

    // Returns true if each pad was read, and the newer store has all lines of each.
    fn is_nothing(&self) -> bool {
        self.beyond == 0 && self.missing == 0 && self.apart == 0 && self.damaged == 0
    }

    // The last line that is printed.
    fn line(&self, alloc: Global) -> Result<String, AllocError> {
        let BeyondCounts {
            pads,
            beyond,
            missing,
            apart,
            damaged,
            lines,
        } = *self;
        format!(in alloc;
            "pads={pads} beyond={beyond} missing={missing} apart={apart} damaged={damaged} lines={lines}\n"
        )
    }
}

/// Prints the lines that an older store, or one file of it, has beyond a newer one. Returns true if there are none.
pub fn beyond<'a, R: Runtime<A = Global>, W: Write>(
    rt: &R,
    old: &'a str,
    new: &'a str,
    out: &mut W,
) -> Result<bool, StoreFailure<'a>> {
    let mut counts = BeyondCounts::new();
    match (kind_of(rt, old)?, kind_of(rt, new)?) {
        (true, true) => compare_folders(rt, old, new, &mut counts, out)?,
        (false, false) => compare(rt, old, new, &mut counts, out)?,
        _ => return Err(StoreFailure::Unlike),
    }
    out.write_all(counts.line(rt.alloc())?.as_bytes())?;
    Ok(counts.is_nothing())
}

// Returns true if a path is that of a folder.
fn kind_of<'a, R: Runtime<A = Global>>(rt: &R, path: &'a str) -> Result<bool, StoreFailure<'a>> {
    match is_folder(rt, path) {
        Ok(in_folder) => Ok(in_folder),
        Err(cause) => Err(StoreFailure::of_file(path, cause)),
    }
}

// The names of the files of pads in a folder.
fn names_in<'a, R: Runtime<A = Global>>(
    rt: &R,
    folder: &'a str,
) -> Result<Vec<String>, StoreFailure<'a>> {
    match names_of(rt, folder) {
        Ok(names) => Ok(names),
        Err(cause) => Err(StoreFailure::of_file(folder, cause)),
    }
}

// Compares the files of the older folder with those of the same names.
fn compare_folders<'a, R: Runtime<A = Global>, W: Write>(
    rt: &R,
    old: &'a str,
    new: &'a str,
    counts: &mut BeyondCounts,
    out: &mut W,
) -> Result<(), StoreFailure<'a>> {
    let mut progress = ProgressReport::start(rt);
    let names = names_in(rt, old)?;
    let others = names_in(rt, new)?;
    let mut done: u64 = 0;
    for name in names.as_slice() {
        if others
            .as_slice()
            .iter()
            .any(|other| other.as_str() == name.as_str())
        {
            compare_named(rt, old, new, name.as_str(), counts, out)?;
        } else {
            counts.pads = counts.pads.saturating_add(1);
            counts.missing = counts.missing.saturating_add(1);
            put_missing(rt.alloc(), name.as_str(), out)?;
        }
        done = done.saturating_add(1);
        progress.report(rt, "file", done, names.len() as u64);
    }
    Ok(())
}

// Prints that the newer folder has no file of this name.
fn put_missing<W: Write>(
    alloc: Global,
    name: &str,
    out: &mut W,
) -> Result<(), StoreFailure<'static>> {
    let pad = name.strip_suffix(".pad").unwrap_or(name);
    let line = format!(in alloc; "{pad} missing\n")?;
    Ok(out.write_all(line.as_bytes())?)
}

// Compares the files of one name in both folders.
fn compare_named<R: Runtime<A = Global>, W: Write>(
    rt: &R,
    old: &str,
    new: &str,
    name: &str,
    counts: &mut BeyondCounts,
    out: &mut W,
) -> Result<(), StoreFailure<'static>> {
    let old = format!(in rt.alloc(); "{old}/{name}")?;
    let new = format!(in rt.alloc(); "{new}/{name}")?;
    match compare(rt, old.as_str(), new.as_str(), counts, out) {
        Ok(()) => Ok(()),
        Err(StoreFailure::Unwritten(cause)) => Err(StoreFailure::Unwritten(cause)),
        Err(_) => Err(StoreFailure::Memory),
    }
}

// Compares two files. One that is damaged or cannot be read is reported.
fn compare<'a, R: Runtime<A = Global>, W: Write>(
    rt: &R,
    old: &'a str,
    new: &'a str,
    counts: &mut BeyondCounts,
    out: &mut W,
) -> Result<(), StoreFailure<'a>> {
    counts.pads = counts.pads.saturating_add(1);
    match compare_files(rt, old, new, counts, out) {
        Ok(()) => Ok(()),
        Err(StoreFailure::Unwritten(cause)) => Err(StoreFailure::Unwritten(cause)),
        Err(StoreFailure::Memory) => Err(StoreFailure::Memory),
        Err(failure) => {
            out.flush()?;
            let _told = eprintln!(rt; "pad_store: {failure}");
            counts.damaged = counts.damaged.saturating_add(1);
            Ok(())
        }
    }
}

// Reads two files, and prints the lines that the older one has beyond the newer one.
fn compare_files<'a, R: Runtime<A = Global>, W: Write>(
    rt: &R,
    old: &'a str,
    new: &'a str,
    counts: &mut BeyondCounts,
    out: &mut W,
) -> Result<(), StoreFailure<'a>> {
    let others = read_file(rt, new)?;
    let whole = match length_of(rt.alloc(), others.as_slice()) {
        Ok(whole) => whole,
        Err(trouble) => return Err(StoreFailure::of_pad(new, trouble)),
    };
    let bytes = read_file(rt, old)?;
    let news = whole_lines(rt.alloc(), front(others.as_slice(), whole))?;
    compare_with(rt, old, bytes.as_slice(), news.as_slice(), counts, out)
}

// Prints the lines that the older file has beyond those of the newer one.
fn compare_with<'a, R: Runtime<A = Global>, W: Write>(
    rt: &R,
    path: &'a str,
    bytes: &[u8],
    news: &[&[u8]],
    counts: &mut BeyondCounts,
    out: &mut W,
) -> Result<(), StoreFailure<'a>> {
    match InspectedPad::read(rt.alloc(), bytes) {
        Ok(mut book) => compare_book(rt, path, &mut book, bytes, news, counts, out),
        Err(trouble) => Err(StoreFailure::of_pad(path, trouble)),
    }
}

// Prints the lines that the older file, which leads to this pad, has beyond those of the newer one.
fn compare_book<'a, R: Runtime<A = Global>, W: Write>(
    rt: &R,
    path: &'a str,
    book: &mut InspectedPad,
    bytes: &[u8],
    news: &[&[u8]],
    counts: &mut BeyondCounts,
    out: &mut W,
) -> Result<(), StoreFailure<'a>> {
    let olds = whole_lines(rt.alloc(), front(bytes, book.whole))?;
    put_beyond(rt, path, book, olds.as_slice(), news, counts, out)
}

// The number of bytes of the whole lines of a file whose pad can be read.
fn length_of(alloc: Global, bytes: &[u8]) -> Result<u64, Trouble> {
    match InspectedPad::read(alloc, bytes) {
        Ok(book) => Ok(book.whole),
        Err(trouble) => Err(trouble),
    }
}

// The first bytes of a file.
fn front(bytes: &[u8], count: u64) -> &[u8] {
    &bytes[..bytes.len().min(count as usize)]
}

// Prints the lines of the older file after the last one whose sum both have, under the pad's name.
fn put_beyond<'a, R: Runtime<A = Global>, W: Write>(
    rt: &R,
    path: &'a str,
    book: &mut InspectedPad,
    olds: &[&[u8]],
    news: &[&[u8]],
    counts: &mut BeyondCounts,
    out: &mut W,
) -> Result<(), StoreFailure<'a>> {
    let (shared, more) = part(olds, news);
    if shared.is_empty() {
        counts.apart = counts.apart.saturating_add(1);
        let line = format!(in rt.alloc(); "{} apart\n", book.name.as_str())?;
        return Ok(out.write_all(line.as_bytes())?);
    }
    counts.add_lines(more.len());
    if more.is_empty() && book.cut == 0 {
        return Ok(());
    }
    let title = format!(in rt.alloc();
        "{} lines={} torn={}\n",
        book.name.as_str(),
        more.len(),
        book.cut
    )?;
    out.write_all(title.as_bytes())?;
    put_lines_behind(rt, path, book, shared, more, out)
}
