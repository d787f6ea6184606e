//! Bytes that arrive in pieces and the lines in them, and the reads of a source.
ghost use Rattle.std.specs.Prelude.{◌<◌};

use crate::shown::text_of;
use std::alloc::Global;
use std::process::Abort;
use std::test::Fail;
use wire_lines::{Fault, FoundLine, Inlet, Input, LineSplitter, MAX_LINE, Source};

// Takes the complete lines, each ended by a bar; `!` is a line that is too long.
fn take_lines(splitter: &mut LineSplitter, out: &mut Vec<u8>) -> Result<(), Fault> {
    for _ in 0..10 {
        match splitter.next_line() {
            Some(FoundLine::Text) => {
                out.extend_from_slice(splitter.line())?;
                out.push(b'|')?;
            }
            Some(_) => out.push(b'!')?,
            None => return Ok(()),
        }
    }
    Ok(())
}

// Takes the bytes that wait without a line feed, ended by a full stop.
fn take_last(splitter: &mut LineSplitter, out: &mut Vec<u8>) -> Result<(), Fault> {
    if splitter.next_line().is_none() && splitter.last_line() {
        out.extend_from_slice(splitter.line())?;
        out.push(b'.')?;
    }
    Ok(())
}

const BYTES: &[u8] = b"a\nbc\r\n\n\r\nd\re\r\r\n\rlast\r";

const LINES: &[u8] = b"a|bc|||d\re\r|\rlast\r.";

// The lines of bytes that arrive in pieces of one size. After each piece, the memory that is not needed is freed or
// not.
fn lines_in_pieces(alloc: Global, size: usize, is_released: bool) -> Result<Vec<u8>, Fault>
    requires { 0 < size }
{
    let mut splitter = LineSplitter::new(alloc);
    let mut out = Vec::new(alloc);
    for piece in BYTES.chunks(size) {
        splitter.receive(piece)?;
        take_lines(&mut splitter, &mut out)?;
        if is_released {
            splitter.release();
        }
    }
    take_last(&mut splitter, &mut out)?;
    Ok(out)
}

#[test]
fn lines_of_pieces(rt: HostRuntime) -> Result<(), Fail> {
    for size in 1..=BYTES.len() {
        for is_released in [false, true] {
            let came = lines_in_pieces(rt.alloc(), size, is_released)?;
            assert!(rt;
                came.as_slice() == LINES,
                "pieces of {size}: came {:?}",
                text_of(came.as_slice())
            );
        }
    }
    Ok(())
}

#[test]
fn lines_that_wait_for_their_turn(rt: HostRuntime) -> Result<(), Fail> {
    for size in 1..=BYTES.len() {
        let mut splitter = LineSplitter::new(rt.alloc());
        let mut out = Vec::new(rt.alloc());
        for piece in BYTES.chunks(size) {
            splitter.receive(piece)?;
            if let Some(FoundLine::Text) = splitter.next_line() {
                out.extend_from_slice(splitter.line())?;
                out.push(b'|')?;
            }
        }
        take_lines(&mut splitter, &mut out)?;
        take_last(&mut splitter, &mut out)?;
        assert!(rt;
            out.as_slice() == LINES,
            "pieces of {size}: came {:?}",
            text_of(out.as_slice())
        );
    }
    Ok(())
}

// Bytes, their first line if it is complete, and whether any byte follows it.
const FIRST: &[(&str, Option<&str>, bool)] = &[
    ("", None, false),
    ("a", None, false),
    ("a\r", None, false),
    ("a\n", Some("a"), false),
    ("a\r\n", Some("a"), false),
    ("\n", Some(""), false),
    ("a\nb", Some("a"), true),
    ("a\r\n\n", Some("a"), true),
];

// Asserts the report on bytes, twice.
fn tells_first(
    rt: &impl Abort,
    alloc: Global,
    bytes: &str,
    first: Option<&str>,
    second: bool,
) -> Result<(), Fault> {
    let mut splitter = LineSplitter::new(alloc);
    splitter.receive(bytes.as_bytes())?;
    for _ in 0..2 {
        let came = splitter.first_line().map(text_of);
        assert!(rt; came == first, "{bytes:?}: wanted {first:?}, came {came:?}");
        let came = splitter.has_second();
        assert!(rt; came == second, "{bytes:?}: wanted {second}, came {came}");
    }
    let len = splitter.len();
    assert!(rt; len == bytes.len(), "{bytes:?}: {len} bytes wait");
    let is_empty = splitter.is_empty();
    assert!(rt;
        is_empty == bytes.is_empty(),
        "{bytes:?}: empty, {is_empty}"
    );
    Ok(())
}

#[test]
fn the_first_line_is_told_without_effect(rt: HostRuntime) -> Result<(), Fail> {
    for (bytes, first, second) in FIRST {
        tells_first(&rt, rt.alloc(), bytes, *first, *second)?;
    }
    Ok(())
}

// This many letters and an end, and the line that is found first.
const LONG: &[(usize, &[u8], Option<FoundLine>)] = &[
    (MAX_LINE, b"", None),
    (MAX_LINE, b"\n", Some(FoundLine::Text)),
    (MAX_LINE - 1, b"\r\nx", Some(FoundLine::Text)),
    (MAX_LINE, b"\r\n", Some(FoundLine::TooLong)),
    (MAX_LINE + 1, b"", Some(FoundLine::TooLong)),
    (MAX_LINE + 1, b"\n", Some(FoundLine::TooLong)),
];

// The line that is found first, and true if `first_line` gave one before.
fn found_of_long(
    alloc: Global,
    length: usize,
    end: &[u8],
) -> Result<(Option<FoundLine>, bool), Fail> {
    let mut splitter = LineSplitter::new(alloc);
    splitter.receive(vec![in alloc; b'a'; length]?.as_slice())?;
    splitter.receive(end)?;
    let is_line = splitter.first_line().is_some();
    Ok((splitter.next_line(), is_line))
}

#[test]
fn the_longest_piece(rt: HostRuntime) -> Result<(), Fail> {
    for (length, end, want) in LONG {
        let (came, is_line) = found_of_long(rt.alloc(), *length, end)?;
        assert!(rt;
            came == *want,
            "{length} letters: wanted {want:?}, came {came:?}"
        );
        assert!(rt;
            is_line == (came == Some(FoundLine::Text)),
            "{length} letters: a first line, {is_line}"
        );
    }
    Ok(())
}

// Reads once, and writes the bytes that were read, ended by a bar; a full stop at the end.
fn read_once<R: Source>(inlet: &mut Inlet, source: &mut R, out: &mut Vec<u8>) -> Result<(), Fault> {
    if inlet.has_ended() {
        out.push(b'.')?;
        return Ok(());
    }
    match inlet.read(source) {
        Ok(()) => out.extend_from_slice(inlet.bytes())?,
        Err(_) => out.push(b'?')?,
    }
    out.push(b'|')?;
    Ok(())
}

#[test]
fn an_inlet_reads_once(rt: HostRuntime) -> Result<(), Fail> {
    let mut source = Input::new(b"abc").in_pieces(2).interrupted().failing_at(3);
    let mut inlet = Inlet::new(rt.alloc())?;
    let mut out = Vec::new(rt.alloc());
    for _ in 0..7 {
        read_once(&mut inlet, &mut source, &mut out)?;
    }
    assert!(rt;
        out.as_slice() == b"|ab|?|c|||.".as_slice(),
        "came {:?}",
        text_of(out.as_slice())
    );
    Ok(())
}
