//! A reply line as a message.
ghost use Rattle.std.specs.Prelude.{◌≡◌, ◌+◌, ◌≤◌, ◌++◌, length, vec_len, vec_capacity, IsOk, OnOk, OnErr};
ghost use Rattle.web_wire.specs.Messages.{message_bytes};

use std::alloc::AllocError;
use websocket::protocol::frame::coding::{Data, OpCode};
use websocket::protocol::frame::{FrameHeader, write_frame};

/// Appends a reply line, without its line feed, as one text message; if memory runs out, nothing. The line has to be
/// UTF-8, as replies are: otherwise a browser closes the socket.
pub fn put_message(line: &[u8], output: &mut Vec<u8>) -> Result<(), AllocError>
    ensures ok { OnOk result (output.new.items ≡ output.old.items ++ message_bytes line.now) }
    ensures err { OnErr result (output.new.items ≡ output.old.items) }
    // The head of the frame has at most ten bytes.
    ensures room { vec_len output.old + (10 + length line.now) ≤ vec_capacity output.old
        → IsOk result }
{
    let header = FrameHeader::new(OpCode::Data(Data::Text), None);
    write_frame(&header, line, output)
}
