//! The server's side of a WebSocket after its handshake: bytes arrive in pieces, and each text message is a line.
ghost use Rattle.std.specs.Prelude.{◌≡◌, ◌⊎◌, ◌<◌, true, false, if◌then◌else◌, [], ◌++◌, length, nat_eq, Ok, Err, IfOk, OnOk, OnErr};
ghost use Rattle.websocket.specs.declared.protocol.config.Role.TheVariants.{Server};
ghost use Rattle.web_wire.specs.Course.{close_code, farewell, waits};
ghost use Rattle.web_wire.specs.Socket.{GivesLine, GoesOn, course, fed, fresh, opened};

use crate::front::{Front, read_frame};
use crate::heard::Heard;
use std::alloc::{AllocError, Global};
use std::marker::Model;
use websocket::error::Error;
use websocket::protocol::{CloseCode, CloseFrame, NoMask, Role, WebSocketConfig, WebSocketContext};
use wire_lines::ByteBuffer;

/// The most bytes of a message, and of a frame: as many as of a line.
pub const LONGEST_MESSAGE: usize = 8_388_608;

// The most bytes of a pong or a close frame.
const LONGEST_REPLY: usize = 139;

/// The next step of the connection.
#[derive(Clone, Copy, Debug, PartialEq, Eq)]
pub enum NextMessage {
    /// No complete message waits: more bytes are needed.
    Read,
    /// A line was appended, with its line feed.
    Line,
    /// Send the output, then close the connection.
    Close,
}

// The outcome of one frame.
#[derive(Clone, Copy)]
enum FrameStep {
    Waits,
    Quiet,
    Line,
    Closes,
}

/// The unused bytes of a socket, and the state of the message that they continue.
#[derive(Drop)]
pub struct Frames {
    context: WebSocketContext,
    bytes: ByteBuffer,
    ended: bool,
}

impl Model for Frames {
    ghost use Rattle.std.specs.Prelude.{◌≡◌, false};
    ghost use Rattle.websocket.specs.declared.protocol.config.Role.TheVariants.{Server};
    ghost use Rattle.web_wire.specs.Socket.{Socket};

    ghost Value = { Socket };

    ghost view = { λ f. record {
      conn = f.context;
      waiting = f.bytes.waiting;
      ended = f.ended;
    } };

    ghost invariant = { λ f. f.ended ≡ false → f.context.role ≡ Server };
}

impl Frames {
    /// A socket after its handshake. `input` holds the bytes that followed the request.
    pub fn new(alloc: Global, input: Vec<u8>) -> Frames
        ensures { result ≡ fresh input.items }
    {
        Frames {
            context: WebSocketContext::new(alloc, Role::Server, config()),
            bytes: ByteBuffer::of(input),
            ended: false,
        }
    }

    /// Appends bytes to those that wait; if memory runs out, none of them.
    pub fn feed(&mut self, bytes: &[u8]) -> Result<(), AllocError>
        ensures ok { OnOk result (self.new ≡ fed self.old bytes.now) }
        ensures err { OnErr result (self.new ≡ self.old) }
    {
        self.bytes.push(bytes)
    }

    /// Takes frames up to the next message, and appends its line to `line`. Pongs and the close frame are appended to
    /// `output`, which has to be sent after each call.
    ///
    /// If memory runs out, the further course of the socket is unchanged, or the socket has ended. It ends if there is
    /// no memory for a message in fragments or for the close.
    pub fn next_line(
        &mut self,
        line: &mut Vec<u8>,
        output: &mut Vec<u8>,
    ) -> Result<NextMessage, AllocError>
        ensures line { result ≡ Ok NextMessage.Line → GivesLine self.old line.old.items output.old.items
            self.new line.new.items output.new.items }
        ensures none { result ≡ Ok NextMessage.Read
            → GoesOn [] self.old output.old.items self.new output.new.items
            × (course self.new [] ≡ waits) }
        ensures end { result ≡ Ok NextMessage.Close
            → GoesOn [] self.old output.old.items self.new output.new.items
            × (self.new.ended ≡ true) }
        ensures err { OnErr result (GoesOn [] self.old output.old.items self.new output.new.items
            ⊎ (self.new.ended ≡ true)) }
        ensures lines { (result ≡ Ok NextMessage.Line) ⊎ (line.new.items ≡ line.old.items) }
    {
        if self.ended {
            return Ok(NextMessage::Close);
        }
        loop {
            match self.step(line, output)? {
                FrameStep::Quiet => {}
                FrameStep::Waits => return Ok(NextMessage::Read),
                FrameStep::Line => return Ok(NextMessage::Line),
                FrameStep::Closes => return Ok(NextMessage::Close),
            }
        }
    }

    /// Ends a socket because the server stops, or no longer serves it: appends a close frame with code 1001 to
    /// `output`, unless the socket has ended. If memory runs out, the socket ends without one.
    pub fn go_away(&mut self, output: &mut Vec<u8>) -> Result<(), AllocError>
        ensures ok { OnOk result (output.new.items ≡ output.old.items ++ (if self.old.ended then []
            else farewell self.old.conn CloseCode.Away)) }
        ensures ended { self.new.ended ≡ true }
    {
        if self.ended {
            return Ok(());
        }
        match self.end(CloseCode::Away, output) {
            Ok(_) => Ok(()),
            Err(error) => Err(error),
        }
    }

    /// The number of waiting bytes.
    pub fn len(&self) -> usize
        ensures { result ≡ length self.now.waiting }
    {
        self.bytes.len()
    }

    /// Returns true if no bytes wait.
    pub fn is_empty(&self) -> bool
        ensures { result ≡ nat_eq 0 (length self.now.waiting) }
    {
        self.bytes.is_empty()
    }

    /// Frees the capacity that waiting bytes do not need, except 1 KiB. It moves the bytes, so call it while none
    /// arrive.
    pub fn release(&mut self)
        ensures { self.new ≡ self.old }
    {
        self.bytes.release();
    }

    // Takes one frame.
    fn step(&mut self, line: &mut Vec<u8>, output: &mut Vec<u8>) -> Result<FrameStep, AllocError>
        requires { self.old.ended ≡ false }
        ensures quiet { result ≡ Ok FrameStep.Quiet
            → GoesOn [] self.old output.old.items self.new output.new.items
            × (length self.new.waiting < length self.old.waiting) × (self.new.ended ≡ false) }
        ensures line { result ≡ Ok FrameStep.Line → GivesLine self.old line.old.items output.old.items
            self.new line.new.items output.new.items }
        ensures waits { result ≡ Ok FrameStep.Waits
            → GoesOn [] self.old output.old.items self.new output.new.items
            × (course self.new [] ≡ waits) }
        ensures closes { result ≡ Ok FrameStep.Closes
            → GoesOn [] self.old output.old.items self.new output.new.items
            × (self.new.ended ≡ true) }
        ensures err { OnErr result (GoesOn [] self.old output.old.items self.new output.new.items
            ⊎ (self.new.ended ≡ true)) }
        ensures lines { (result ≡ Ok FrameStep.Line) ⊎ (line.new.items ≡ line.old.items) }
    {
        // Memory is reserved before a frame is read. After that, only a message in fragments can run out of it.
        output.reserve(LONGEST_REPLY)?;
        line.reserve(self.bytes.len().min(LONGEST_MESSAGE) + 1)?;
        match read_frame(&mut self.context, &mut self.bytes, line, output) {
            Ok(Front::Cut) => Ok(FrameStep::Waits),
            Ok(Front::Whole(count, heard)) => {
                self.bytes.take(count);
                match heard {
                    Heard::Nothing => Ok(FrameStep::Quiet),
                    Heard::Line => Ok(FrameStep::Line),
                    Heard::Closed => {
                        self.ended = true;
                        Ok(FrameStep::Closes)
                    }
                    Heard::Refused(code) => self.end(code, output),
                }
            }
            Err(error) => self.fail(error, output),
        }
    }

    // Ends the socket after a read that failed.
    fn fail(&mut self, error: Error, output: &mut Vec<u8>) -> Result<FrameStep, AllocError>
        requires { self.old.conn.role ≡ Server }
        ensures ok { OnOk result (output.new.items
            ≡ output.old.items ++ farewell self.old.conn (close_code error)) }
        ensures step { IfOk result (λ step. step ≡ FrameStep.Closes) }
        ensures ended { self.new.ended ≡ true }
        ensures memory { error ≡ Error.OutOfMemory → result ≡ Err (record {}) }
    {
        match error {
            Error::OutOfMemory => {
                self.ended = true;
                Err(AllocError)
            }
            error => self.end(code_of(error), output),
        }
    }

    // Ends the socket with a close frame that has this code.
    fn end(&mut self, code: CloseCode, output: &mut Vec<u8>) -> Result<FrameStep, AllocError>
        requires { self.old.conn.role ≡ Server }
        ensures ok { OnOk result (output.new.items
            ≡ output.old.items ++ farewell self.old.conn code) }
        ensures step { IfOk result (λ step. step ≡ FrameStep.Closes) }
        ensures ended { self.new.ended ≡ true }
    {
        let frame = CloseFrame { code, reason: "" };
        let told = self.context.close(Some(frame), output, &mut NoMask);
        self.ended = true;
        // All of these codes may be sent, so only memory can be missing.
        match told {
            Ok(()) => Ok(FrameStep::Closes),
            Err(_) => Err(AllocError),
        }
    }
}

// The limits of a socket. A client masks its frames.
fn config() -> WebSocketConfig
    ensures { result ≡ opened.config }
{
    WebSocketConfig {
        max_message_size: Some(LONGEST_MESSAGE),
        max_frame_size: Some(LONGEST_MESSAGE),
        accept_unmasked_frames: false,
    }
}

// The code with which a socket ends after a read that failed.
fn code_of(error: Error) -> CloseCode
    ensures { result ≡ close_code error }
{
    match error {
        Error::Capacity(_) => CloseCode::Size,
        Error::Utf8 => CloseCode::Invalid,
        _ => CloseCode::Protocol,
    }
}
