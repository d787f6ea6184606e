//! The lines and replies that messages lead to, whatever pieces their bytes arrive in.
use crate::sent::frames;
use std::alloc::{AllocError, Global};
use std::process::Abort;
use std::test::Fail;
use web_wire::{Frames, NextMessage, put_message};

// Feeds the bytes in pieces, and returns the lines and the bytes sent. A line `!` means that the socket is to be
// closed.
fn talk(alloc: Global, bytes: &[u8], piece: usize) -> Result<(Vec<u8>, Vec<u8>), AllocError> {
    let mut socket = Frames::new(alloc, Vec::new(alloc));
    let mut lines = Vec::new(alloc);
    let mut output = Vec::new(alloc);
    for part in bytes.chunks(piece.max(1)) {
        socket.feed(part)?;
        take(&mut socket, &mut lines, &mut output)?;
        socket.release();
    }
    Ok((lines, output))
}

// Takes lines until more bytes are needed. A closed socket reports this again, which counts once.
fn take(socket: &mut Frames, lines: &mut Vec<u8>, output: &mut Vec<u8>) -> Result<(), AllocError> {
    for _ in 0..100 {
        match socket.next_line(lines, output)? {
            NextMessage::Line => {}
            NextMessage::Read => return Ok(()),
            NextMessage::Close => {
                if !lines.ends_with(b"!\n") {
                    lines.extend_from_slice(b"!\n")?;
                }
                return Ok(());
            }
        }
    }
    Ok(())
}

// Asserts that frames lead to these lines and these sent bytes, whole and in pieces of each length.
fn comes_to(
    rt: &impl Abort,
    alloc: Global,
    name: &str,
    list: &[(u8, &[u8])],
    lines: &str,
    sent: &[u8],
) -> Result<(), AllocError> {
    let bytes = frames(alloc, list)?;
    for piece in 1..=bytes.len() {
        let (came, output) = talk(alloc, bytes.as_slice(), piece)?;
        let same = came.as_slice() == lines.as_bytes();
        assert!(rt;
            same,
            "{name} in pieces of {piece}: {}",
            came.escape_ascii()
        );
        let same = output.as_slice() == sent;
        assert!(rt;
            same,
            "{name} in pieces of {piece}: sent {}",
            output.escape_ascii()
        );
    }
    Ok(())
}

// A name, frames by their first byte and payload, the lines, and the bytes that are sent.
type Row = (
    &'static str,
    &'static [(u8, &'static [u8])],
    &'static str,
    &'static [u8],
);

const MESSAGES: &[Row] = &[
    ("none", &[], "", b""),
    ("a message", &[(0x81, b"hi")], "hi\n", b""),
    (
        "two messages",
        &[(0x81, b"one"), (0x81, b"two")],
        "one\ntwo\n",
        b"",
    ),
    ("a carriage return", &[(0x81, b"a\r")], "a\r\n", b""),
    (
        "text beyond ASCII",
        &[(0x81, b"\xC3\xA9\xF0\x9F\x98\x80")],
        "\u{E9}\u{1F600}\n",
        b"",
    ),
    (
        "a message in fragments",
        &[(0x01, b"a"), (0x00, b"b"), (0x80, b"c")],
        "abc\n",
        b"",
    ),
    (
        "a character in fragments",
        &[(0x01, b"\xC3"), (0x80, b"\xA9")],
        "\u{E9}\n",
        b"",
    ),
    (
        "an empty first fragment",
        &[(0x01, b""), (0x80, b"a")],
        "a\n",
        b"",
    ),
    ("a ping", &[(0x89, b"p"), (0x81, b"a")], "a\n", b"\x8A\x01p"),
    (
        "a ping between fragments",
        &[(0x01, b"a"), (0x89, b""), (0x80, b"b")],
        "ab\n",
        b"\x8A\x00",
    ),
    ("a pong", &[(0x8A, b"p"), (0x81, b"a")], "a\n", b""),
];

const CLOSED: &[Row] = &[
    (
        "a close",
        &[(0x88, b"\x03\xE8bye"), (0x81, b"a")],
        "!\n",
        b"\x88\x05\x03\xE8bye",
    ),
    (
        "a close without a code",
        &[(0x81, b"a"), (0x88, b"")],
        "a\n!\n",
        b"\x88\x00",
    ),
    (
        "an empty message",
        &[(0x81, b"")],
        "!\n",
        b"\x88\x02\x03\xF0",
    ),
    (
        "empty fragments",
        &[(0x01, b""), (0x80, b"")],
        "!\n",
        b"\x88\x02\x03\xF0",
    ),
    (
        "a line feed",
        &[(0x81, b"a\nb")],
        "!\n",
        b"\x88\x02\x03\xF0",
    ),
    (
        "a line feed at the end",
        &[(0x81, b"a\n")],
        "!\n",
        b"\x88\x02\x03\xF0",
    ),
    (
        "a binary message",
        &[(0x82, b"a")],
        "!\n",
        b"\x88\x02\x03\xEB",
    ),
    ("no UTF-8", &[(0x81, b"a\xFF")], "!\n", b"\x88\x02\x03\xEF"),
    (
        "half a character",
        &[(0x81, b"\xC3")],
        "!\n",
        b"\x88\x02\x03\xEF",
    ),
    (
        "no UTF-8 in a fragment",
        &[(0x01, b"\xFF")],
        "!\n",
        b"\x88\x02\x03\xEF",
    ),
    (
        "a reserved bit",
        &[(0xC1, b"a")],
        "!\n",
        b"\x88\x02\x03\xEA",
    ),
    (
        "a reserved opcode",
        &[(0x83, b"a")],
        "!\n",
        b"\x88\x02\x03\xEA",
    ),
    (
        "a continuation of nothing",
        &[(0x80, b"a")],
        "!\n",
        b"\x88\x02\x03\xEA",
    ),
    (
        "a message between fragments",
        &[(0x01, b"a"), (0x81, b"b")],
        "!\n",
        b"\x88\x02\x03\xEA",
    ),
    (
        "a ping in fragments",
        &[(0x09, b"a")],
        "!\n",
        b"\x88\x02\x03\xEA",
    ),
    (
        "half a close code",
        &[(0x88, b"\x03")],
        "!\n",
        b"\x88\x02\x03\xEA",
    ),
];

#[test]
fn messages_are_lines(rt: HostRuntime) -> Result<(), Fail> {
    for (name, list, lines, sent) in MESSAGES {
        comes_to(&rt, rt.alloc(), name, list, lines, sent)?;
    }
    Ok(())
}

#[test]
fn sockets_are_closed(rt: HostRuntime) -> Result<(), Fail> {
    for (name, list, lines, sent) in CLOSED {
        comes_to(&rt, rt.alloc(), name, list, lines, sent)?;
    }
    Ok(())
}

// A frame without a mask, a length that is not in its shortest form, and a frame over the limit, as raw bytes.
const RAW: &[(&[u8], &[u8])] = &[
    (b"\x81\x02hi", b"\x88\x02\x03\xEA"),
    (b"\x81\xFE\x00\x01\0\0\0\0a", b"\x88\x02\x03\xEA"),
    (b"\x81\xFF\0\0\0\0\0\x80\0\x01\0\0\0\0", b"\x88\x02\x03\xF1"),
];

#[test]
fn raw_frames_are_refused(rt: HostRuntime) -> Result<(), Fail> {
    for (bytes, sent) in RAW {
        let (lines, output) = talk(rt.alloc(), bytes, bytes.len())?;
        assert!(rt;
            lines.as_slice() == b"!\n".as_slice(),
            "{}",
            bytes.escape_ascii()
        );
        assert!(rt; output.as_slice() == *sent, "{}", output.escape_ascii());
    }
    Ok(())
}

#[test]
fn bytes_behind_the_request(rt: HostRuntime) -> Result<(), Fail> {
    let bytes = frames(rt.alloc(), &[(0x81, b"a"), (0x81, b"b")])?;
    let mut socket = Frames::new(rt.alloc(), bytes);
    let mut lines = Vec::new(rt.alloc());
    let mut output = Vec::new(rt.alloc());
    take(&mut socket, &mut lines, &mut output)?;
    assert!(rt; lines.as_slice() == b"a\nb\n".as_slice() && socket.is_empty());
    Ok(())
}

#[test]
fn replies_are_messages(rt: HostRuntime) -> Result<(), Fail> {
    let mut output = Vec::new(rt.alloc());
    put_message(b"{\"ok\":true}", &mut output)?;
    put_message(b"a", &mut output)?;
    assert!(rt; output.as_slice() == b"\x81\x0B{\"ok\":true}\x81\x01a".as_slice());
    Ok(())
}

#[test]
fn a_server_that_ends_closes_its_sockets(rt: HostRuntime) -> Result<(), Fail> {
    let bytes = frames(rt.alloc(), &[(0x81, b"a")])?;
    let mut socket = Frames::new(rt.alloc(), bytes);
    let mut line = Vec::new(rt.alloc());
    let mut output = Vec::new(rt.alloc());
    socket.go_away(&mut output)?;
    socket.go_away(&mut output)?;
    assert!(rt; output.as_slice() == b"\x88\x02\x03\xE9".as_slice());
    let next = socket.next_line(&mut line, &mut output)?;
    assert!(rt; next == NextMessage::Close && line.is_empty() && output.len() == 4);
    Ok(())
}
