//! Bytes as lines, in whatever pieces they arrive, and lines that are written.
use crate::shown::text_of;
use std::alloc::Global;
use std::process::Abort;
use std::test::Fail;
use wire_lines::{Fault, Input, Line, Lines, MAX_LINE, Output, Source, write_all};

// The lines of a source, each ended by a bar; `!` is a line that is too long, `?` a failed read.
fn shown<R: Source>(alloc: Global, source: &mut R) -> Result<Vec<u8>, Fault> {
    let mut out = Vec::new(alloc);
    let mut lines = Lines::new(alloc, source)?;
    for _ in 0..100 {
        match lines.next() {
            Ok(Line::Text(text)) => out.extend_from_slice(text)?,
            Ok(Line::TooLong) => out.push(b'!')?,
            Ok(Line::End) => return Ok(out),
            Err(Fault::ReadFault) => out.push(b'?')?,
            Err(fault) => return Err(fault),
        }
        if out.ends_with(b"!!!") || out.ends_with(b"???") {
            return Ok(out);
        }
        if !out.ends_with(b"!") && !out.ends_with(b"?") {
            out.push(b'|')?;
        }
    }
    Ok(out)
}

const FORMS: &[(&str, &str)] = &[
    ("", ""),
    ("\n", "|"),
    ("a\nbc\n", "a|bc|"),
    ("a\r\nb", "a|b|"),
    ("a\r\r\n", "a\r|"),
    ("\r\n\n", "||"),
    ("a\r", "a\r|"),
    ("\r", "\r|"),
    ("a\rb\n", "a\rb|"),
    ("a\n\r", "a|\r|"),
];

// Asserts that the lines of a source are these. The number tells which source: the length of its pieces, or which read
// fails.
fn shows<R: Source>(
    rt: &impl Abort,
    alloc: Global,
    source: &mut R,
    number: u64,
    want: &[u8],
) -> Result<(), Fault> {
    let came = shown(alloc, source)?;
    assert!(rt;
        came.as_slice() == want,
        "source {number}: wanted {:?}, came {:?}",
        text_of(want),
        text_of(came.as_slice())
    );
    Ok(())
}

// The length of the output of `shown` for a source.
fn count_shown<R: Source>(alloc: Global, source: &mut R) -> Result<usize, Fault> {
    let found = shown(alloc, source)?;
    Ok(found.len())
}

#[test]
fn line_forms(rt: HostRuntime) -> Result<(), Fail> {
    for (input, lines) in FORMS {
        for piece in 1..4 {
            let mut source = Input::new(input.as_bytes()).in_pieces(piece);
            shows(&rt, rt.alloc(), &mut source, piece as u64, lines.as_bytes())?;
        }
    }
    Ok(())
}

// Two lines of a session, and the lines that are read of them, up to the byte after which they are cut.
const SESSION: &[u8] = b"{\"do\":\"create\",\"pad\":\"p\"}\r\n{\"do\":\"text\",\"pad\":\"p\"}\n";

const BOTH: &[u8] = br#"{"do":"create","pad":"p"}|{"do":"text","pad":"p"}|"#;

#[test]
fn lines_cut_after_each_byte(rt: HostRuntime) -> Result<(), Fail> {
    for cut in 1..=SESSION.len() {
        let mut source = Input::new(&SESSION[..cut]);
        let found = count_shown(rt.alloc(), &mut source)?;
        let length = match cut {
            ..27 => cut + 1,
            27 => 26,
            28..51 => cut,
            _ => 50,
        };
        assert!(rt;
            found == length,
            "cut behind {cut}: wanted {length}, came {found}"
        );
    }
    Ok(())
}

#[test]
fn lines_by_bytes_and_with_interrupts(rt: HostRuntime) -> Result<(), Fail> {
    for piece in 1..60 {
        let mut source = Input::new(SESSION).in_pieces(piece).interrupted();
        shows(&rt, rt.alloc(), &mut source, piece as u64, BOTH)?;
    }
    Ok(())
}

// A read that fails: the lines whose line feed was read are given, then the fault, again and again.
const FAILED_READS: &[(u64, &str)] = &[(1, "???"), (2, "ab|???"), (3, "ab|???"), (4, "ab|c|")];

#[test]
fn a_read_that_fails(rt: HostRuntime) -> Result<(), Fail> {
    for (call, lines) in FAILED_READS {
        let mut source = Input::new(b"ab\nc").in_pieces(3).failing_at(*call);
        shows(&rt, rt.alloc(), &mut source, *call, lines.as_bytes())?;
    }
    Ok(())
}

// The longest line is given, one byte more is not, with a line feed after it or without; nothing follows.
const LONG: &[(usize, &[u8], usize)] = &[
    (MAX_LINE, b"", MAX_LINE + 1),
    (MAX_LINE, b"\nx", MAX_LINE + 3),
    (MAX_LINE - 1, b"\r\nx", MAX_LINE + 2),
    (MAX_LINE, b"\r\nx", 3),
    (MAX_LINE + 1, b"", 3),
    (MAX_LINE + 1, b"\nx", 3),
];

// The length of the output of `shown` for this many letters and an end.
fn count_of_long(alloc: Global, length: usize, end: &[u8]) -> Result<usize, Fail> {
    let mut bytes = vec![in alloc; b'a'; length]?;
    bytes.extend_from_slice(end)?;
    Ok(count_shown(alloc, &mut Input::new(&bytes))?)
}

#[test]
fn the_longest_line(rt: HostRuntime) -> Result<(), Fail> {
    for (length, end, want) in LONG {
        let came = count_of_long(rt.alloc(), *length, end)?;
        assert!(rt;
            came == *want,
            "{length} letters: wanted {want}, came {came}"
        );
    }
    Ok(())
}

/// The number of bytes that a writer takes at a time, if not all; the call at which it fails, if any; the result, and
/// the bytes that it took.
type WriteCase = (Option<usize>, Option<u64>, Result<(), Fault>, &'static str);

const WRITTEN: &[WriteCase] = &[
    (None, None, Ok(()), "0123456789abc\n"),
    (Some(1), None, Ok(()), "0123456789abc\n"),
    (Some(10), Some(2), Err(Fault::WriteFault), "0123456789"),
    (Some(0), None, Err(Fault::WriteFault), ""),
];

fn output_of(alloc: Global, piece: Option<usize>, call: Option<u64>) -> Output {
    let output = Output::new(alloc);
    match (piece, call) {
        (Some(piece), Some(call)) => output.in_pieces(piece).failing_at(call),
        (Some(piece), None) => output.in_pieces(piece),
        (None, Some(call)) => output.failing_at(call),
        (None, None) => output,
    }
}

fn writes(rt: &impl Abort, output: &mut Output, want: Result<(), Fault>, written: &str) {
    let came = write_all(output, b"0123456789abc\n");
    assert!(rt; came == want, "{written:?}: wanted {want:?}, came {came:?}");
    assert!(rt;
        output.bytes() == written.as_bytes(),
        "wanted {written:?}, came {:?}",
        text_of(output.bytes())
    );
}

#[test]
fn what_is_written(rt: HostRuntime) {
    for (piece, call, fault, written) in WRITTEN {
        let mut output = output_of(rt.alloc(), *piece, *call);
        writes(&rt, &mut output, *fault, written);
    }
}
