//! Exports the operations of a file, for other programs.
use crate::chain::line_with_sum;
use crate::failure::StoreFailure;
use crate::inspected_pad::InspectedPad;
use crate::operation::{Operation, operation_on};
use crate::progress_report::ProgressReport;
use crate::revision_choice::RevisionChoice;
use crate::trouble::Trouble;
use std::alloc::{AllocError, Global};
use std::io::Write;
use std::rt::Runtime;

/// Prints a line of JSON for each operation, up to the revision that is asked for.
pub fn export<'a, R: Runtime<A = Global>, W: Write>(
    rt: &R,
    path: &'a str,
    bytes: &[u8],
    asked: RevisionChoice,
    out: &mut W,
) -> Result<(), StoreFailure<'a>> {
    match read(rt.alloc(), bytes, asked) {
        Ok((last, whole)) => put_lines(rt, &bytes[..bytes.len().min(whole)], last, out),
        Err(trouble) => Err(StoreFailure::of_pad(path, trouble)),
    }
}

// The number of the revision that is asked for, of a file's pad, and the number of bytes of its whole lines.
fn read(alloc: Global, bytes: &[u8], asked: RevisionChoice) -> Result<(u64, usize), Trouble> {
    match InspectedPad::read(alloc, bytes) {
        Ok(mut book) => last_of(alloc, &mut book, asked),
        Err(trouble) => Err(trouble),
    }
}

// The same of a file's pad.
fn last_of(
    alloc: Global,
    book: &mut InspectedPad,
    asked: RevisionChoice,
) -> Result<(u64, usize), Trouble> {
    let last = book.number_of(alloc, asked)?;
    if book.revision() < last {
        return Err(Trouble::NoRevision);
    }
    Ok((last, book.whole as usize))
}

// Prints the operations of these lines, up to a revision.
fn put_lines<'a, R: Runtime<A = Global>, W: Write>(
    rt: &R,
    bytes: &[u8],
    last: u64,
    out: &mut W,
) -> Result<(), StoreFailure<'a>> {
    let mut progress = ProgressReport::start(rt);
    let mut made: u64 = 0;
    for line in bytes.split(|byte| *byte == b'\n') {
        if made >= last {
            return Ok(());
        }
        if let Some(done) = operation_on(rt.alloc(), line)? {
            made = made.saturating_add(1);
            out.write_all(line_of(rt.alloc(), made, &done)?.as_bytes())?;
            progress.report(rt, "revision", made, last);
        }
    }
    Ok(())
}

// The output line for an operation.
fn line_of(alloc: Global, rev: u64, done: &Operation<'_>) -> Result<String, AllocError> {
    let at = done.at / 1000;
    let op = done.json.as_str();
    let sum = done.sum;
    format!(in alloc; "{{\"at\":{at},\"op\":{op},\"rev\":{rev},\"sum\":\"{sum}\"}}\n")
}

/// Prints the number of the line with a sum.
pub fn find<'a, W: Write>(
    alloc: Global,
    path: &'a str,
    bytes: &[u8],
    sum: &str,
    out: &mut W,
) -> Result<(), StoreFailure<'a>> {
    let whole = match read(alloc, bytes, RevisionChoice::Present) {
        Ok((_, whole)) => bytes.len().min(whole),
        Err(trouble) => return Err(StoreFailure::of_pad(path, trouble)),
    };
    match line_with_sum(&bytes[..whole], sum.as_bytes()) {
        Some(number) => {
            let line = format!(in alloc; "line {number}\n")?;
            Ok(out.write_all(line.as_bytes())?)
        }
        None => Err(StoreFailure::NoSum { path }),
    }
}
