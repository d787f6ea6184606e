//! The longest message, in one frame and in fragments.
use crate::sent::put_frame;
use std::alloc::{AllocError, Global};
use std::test::Fail;
use web_wire::{Frames, LONGEST_MESSAGE, NextMessage};

// A text of this many bytes.
fn text(alloc: Global, length: usize) -> Result<Vec<u8>, AllocError> {
    let mut bytes = Vec::new(alloc);
    bytes.resize(length, b'a')?;
    Ok(bytes)
}

// Returns the result of a message in fragments of these lengths: the turn, the length of its line, and the bytes sent.
fn parts(alloc: Global, lengths: &[usize]) -> Result<(NextMessage, usize, Vec<u8>), AllocError> {
    let mut socket = Frames::new(alloc, Vec::new(alloc));
    let mut line = Vec::new(alloc);
    let mut output = Vec::new(alloc);
    let mut turn = NextMessage::Read;
    let mut left = lengths.len();
    for length in lengths {
        left = left.saturating_sub(1);
        let opcode = if left + 1 == lengths.len() { 1 } else { 0 };
        let last = if left == 0 { 0x80 } else { 0 };
        let mut bytes = Vec::new(alloc);
        put_frame(opcode | last, text(alloc, *length)?.as_slice(), &mut bytes)?;
        socket.feed(bytes.as_slice())?;
        turn = socket.next_line(&mut line, &mut output)?;
    }
    Ok((turn, line.len(), output))
}

#[test]
fn the_longest_message(rt: HostRuntime) -> Result<(), Fail> {
    let half = LONGEST_MESSAGE / 2;
    for lengths in [&[LONGEST_MESSAGE].as_slice(), &[half, half].as_slice()] {
        let (turn, length, output) = parts(rt.alloc(), lengths)?;
        assert!(rt; turn == NextMessage::Line && output.is_empty());
        assert!(rt; length == LONGEST_MESSAGE + 1, "{length}");
    }
    Ok(())
}

#[test]
fn a_longer_message(rt: HostRuntime) -> Result<(), Fail> {
    let half = LONGEST_MESSAGE / 2;
    for lengths in [
        &[LONGEST_MESSAGE + 1].as_slice(),
        &[half, half, 1].as_slice(),
    ] {
        let (turn, length, output) = parts(rt.alloc(), lengths)?;
        assert!(rt; turn == NextMessage::Close && length == 0);
        assert!(rt; output.as_slice() == b"\x88\x02\x03\xF1".as_slice());
    }
    Ok(())
}

// The three forms of a frame's length.
#[test]
fn lengths_of_all_forms(rt: HostRuntime) -> Result<(), Fail> {
    for length in [1, 125, 126, 65_535, 65_536, 100_000] {
        let (turn, came, output) = parts(rt.alloc(), &[length])?;
        assert!(rt;
            turn == NextMessage::Line && came == length + 1 && output.is_empty(),
            "{length}"
        );
    }
    Ok(())
}
