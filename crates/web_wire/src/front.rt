//! The frame at the front of the bytes.
ghost use Rattle.std.specs.Prelude.{◌≡◌, length};
ghost use Rattle.websocket.specs.declared.protocol.config.Role.TheVariants.{Server};
ghost use Rattle.web_wire.specs.Front.{Reads};

use crate::heard::{Heard, hear};
use websocket::error::Error;
use websocket::protocol::{FrameStatus, NoMask, WebSocketContext};
use wire_lines::ByteBuffer;

/// The state of the front of the bytes.
pub(crate) enum Front {
    /// No complete frame.
    Cut,
    /// A frame of this many bytes, and its meaning to a server of lines.
    Whole(usize, Heard),
}

/// Reads the frame at the front of the bytes that wait, and unmasks it there. Its line is appended to `line`, and the frame
/// that answers it to `output`. It stays until it is taken.
#[tactic(auto, using(wire_lines::proofs::Bytes::all_written))]
pub(crate) fn read_frame(
    context: &mut WebSocketContext,
    bytes: &mut ByteBuffer,
    line: &mut Vec<u8>,
    output: &mut Vec<u8>,
) -> Result<Front, Error>
    requires { context.old.role ≡ Server }
    ensures reads { Reads result
        (record {
          conn = context.old;
          bytes = bytes.old.waiting;
          line = line.old.items;
          output = output.old.items;
        })
        (record {
          conn = context.new;
          bytes = bytes.new.waiting;
          line = line.new.items;
          output = output.new.items;
        }) }
    ensures role { context.new.role ≡ Server }
    ensures len { length bytes.new.waiting ≡ length bytes.old.waiting }
    ensures held { bytes.new.held ≡ bytes.old.held }
{
    read_front(context, bytes.waiting_mut(), line, output)
}

// Reads the frame at the front of the bytes.
fn read_front(
    context: &mut WebSocketContext,
    bytes: &mut [u8],
    line: &mut Vec<u8>,
    output: &mut Vec<u8>,
) -> Result<Front, Error>
    requires { context.old.role ≡ Server }
    ensures reads { Reads result
        (record {
          conn = context.old;
          bytes = bytes.old;
          line = line.old.items;
          output = output.old.items;
        })
        (record {
          conn = context.new;
          bytes = bytes.new;
          line = line.new.items;
          output = output.new.items;
        }) }
    ensures role { context.new.role ≡ Server }
{
    match context.read(bytes, output, &mut NoMask)? {
        FrameStatus::Partial(_) => Ok(Front::Cut),
        FrameStatus::Complete(step) => {
            let heard = hear(&step.message, bytes, line)?;
            Ok(Front::Whole(step.consumed, heard))
        }
    }
}
