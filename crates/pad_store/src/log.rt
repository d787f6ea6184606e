//! The log of a pad: who did what, and when.
use crate::failure::StoreFailure;
use crate::inspected_pad::InspectedPad;
use crate::log_filter::LogFilter;
use crate::operation::{Operation, kind_of, operation_on};
use crate::other_line::{name_on, named_line, other_line};
use crate::pieces::{put_words, words};
use crate::progress_report::ProgressReport;
use crate::trouble::Trouble;
use jiff::Timestamp;
use pad_model::Part;
use std::alloc::{AllocError, Global};
use std::io::Write;
use std::rt::Runtime;

/// Prints a line for each revision that is listed, and for each name that one was given.
pub fn log<'a, R: Runtime<A = Global>, W: Write>(
    rt: &R,
    path: &'a str,
    bytes: &[u8],
    filter: LogFilter<'_>,
    out: &mut W,
) -> Result<(), StoreFailure<'a>> {
    match InspectedPad::read(rt.alloc(), bytes) {
        Ok(mut book) => put_lines(rt, path, &mut book, bytes, filter, out),
        Err(trouble) => Err(StoreFailure::of_pad(path, trouble)),
    }
}

// Prints the lines of a file's pad.
fn put_lines<'a, R: Runtime<A = Global>, W: Write>(
    rt: &R,
    path: &'a str,
    book: &mut InspectedPad,
    bytes: &[u8],
    filter: LogFilter<'_>,
    out: &mut W,
) -> Result<(), StoreFailure<'a>> {
    let mut progress = ProgressReport::start(rt);
    let whole = bytes.len().min(book.whole as usize);
    let all = book.revision();
    let mut rev: u64 = 0;
    for line in bytes[..whole].split(|byte| *byte == b'\n') {
        if let Some(done) = operation_on(rt.alloc(), line)? {
            rev = rev.saturating_add(1);
            if filter.lists(rev, done.op.author.as_str(), done.at) {
                put_line(rt.alloc(), path, book, rev, &done, out)?;
            }
            progress.report(rt, "revision", rev, all);
        } else if let Some(named) = name_on(rt.alloc(), line)? {
            if filter.lists(rev, named.author.as_str(), named.at) {
                out.write_all(named_line(rt.alloc(), &named)?.as_bytes())?;
            }
        }
    }
    Ok(())
}

/// Prints a line for each of these lines of a file: for an operation as `log` does, and for any other line its kind.
/// `before` are the lines before them.
pub fn put_lines_behind<'a, R: Runtime<A = Global>, W: Write>(
    rt: &R,
    path: &'a str,
    book: &mut InspectedPad,
    before: &[&[u8]],
    lines: &[&[u8]],
    out: &mut W,
) -> Result<(), StoreFailure<'a>> {
    let mut progress = ProgressReport::start(rt);
    let all = book.revision();
    let mut rev = revisions_in(rt.alloc(), before)?;
    for line in lines {
        match operation_on(rt.alloc(), line)? {
            Some(done) => {
                rev = rev.saturating_add(1);
                put_line(rt.alloc(), path, book, rev, &done, out)?;
            }
            None => out.write_all(other_line(rt.alloc(), line)?.as_bytes())?,
        }
        progress.report(rt, "revision", rev, all);
    }
    Ok(())
}

// The number of revisions that these lines make.
fn revisions_in(alloc: Global, lines: &[&[u8]]) -> Result<u64, AllocError> {
    let mut revisions: u64 = 0;
    for line in lines {
        if operation_on(alloc, line)?.is_some() {
            revisions = revisions.saturating_add(1);
        }
    }
    Ok(revisions)
}

// Prints the line of a revision.
fn put_line<'a, W: Write>(
    alloc: Global,
    path: &'a str,
    book: &mut InspectedPad,
    rev: u64,
    done: &Operation<'_>,
    out: &mut W,
) -> Result<(), StoreFailure<'a>> {
    match line_of(alloc, book, rev, done) {
        Ok(line) => Ok(out.write_all(line.as_bytes())?),
        Err(trouble) => Err(StoreFailure::of_pad(path, trouble)),
    }
}

// The output line for a revision: its number, its time, its author, its kind, and the words that were deleted and
// inserted.
fn line_of(
    alloc: Global,
    book: &mut InspectedPad,
    rev: u64,
    done: &Operation<'_>,
) -> Result<String, Trouble> {
    let time = time_of(alloc, seconds_of(done.at))?;
    let name = done.op.author.as_str();
    let origin = done.op.name.origin;
    let kind = kind_of(done.op.parts.as_slice());
    let words = words_of(alloc, book, rev, done)?;
    Ok(format!(in alloc; "{rev} {time} {name}@{origin} {kind}{words}\n")?)
}

/// The seconds of a time in milliseconds, or None for 0, which a line has without a time.
pub fn seconds_of(at: u64) -> Option<u64> {
    if at == 0 { None } else { Some(at / 1000) }
}

/// A time in UTC, or `-` if there is none.
pub fn time_of(alloc: Global, at: Option<u64>) -> Result<String, AllocError> {
    let second = match at {
        Some(at) => i64::try_from(at).unwrap_or(i64::MAX),
        None => return String::from_str(alloc, "-"),
    };
    match Timestamp::from_second(second) {
        Ok(time) => format!(in alloc; "{time}"),
        Err(_) => String::from_str(alloc, "-"),
    }
}

// The words of a revision. The text before it is read only if words were deleted.
fn words_of(
    alloc: Global,
    book: &mut InspectedPad,
    rev: u64,
    done: &Operation<'_>,
) -> Result<String, Trouble> {
    let parts = done.op.parts.as_slice();
    if erases(parts) {
        return words_between(alloc, book, rev.saturating_sub(1), rev);
    }
    Ok(words_of_parts(alloc, parts)?)
}

// Returns true if one of the parts erases.
fn erases(parts: &[Part]) -> bool {
    for part in parts {
        if let Part::Delete(_) = part {
            return true;
        }
    }
    false
}

// The words that were deleted and inserted between two revisions.
fn words_between(
    alloc: Global,
    book: &mut InspectedPad,
    rev: u64,
    to: u64,
) -> Result<String, Trouble> {
    let pieces = book.changes(alloc, rev, to)?;
    let text = book.text(alloc, Some(rev))?;
    Ok(words(alloc, pieces.as_slice(), text.as_slice())?)
}

// The texts that parts insert or comment, and the comments that they resolve.
fn words_of_parts(alloc: Global, parts: &[Part]) -> Result<String, AllocError> {
    let mut out = String::new(alloc);
    for part in parts {
        put_part(alloc, &mut out, part)?;
    }
    Ok(out)
}

// Adds the text that a part inserts or comments, or the comment that it resolves.
fn put_part(alloc: Global, out: &mut String, part: &Part) -> Result<(), AllocError> {
    match part {
        Part::Insert(run) => put_words(alloc, out, " +", run.text.as_slice()),
        Part::Comment { text, .. } => put_words(alloc, out, " ", text.as_slice()),
        Part::Resolve { comment } => {
            let name = format!(in alloc; " [{},{}]", comment.origin, comment.number)?;
            out.push_str(name.as_str())?;
            Ok(())
        }
        Part::Delete(_) => Ok(()),
    }
}
