//! A WebSocket's messages as the lines of a conversation, and its replies as messages.
ghost use Rattle.std.specs.Prelude.{◌≡◌, ◌⊎◌, ◌<◌, ◌≤◌, [], true, IfSome, Ok, min, length};
ghost use Rattle.std.specs.List.{position};
ghost use Rattle.web_wire.specs.Course as course_spec;
ghost use Rattle.web_wire.specs.Messages.{is_feed};
ghost use Rattle.web_wire.specs.Socket.{GoesOn, course};
ghost use Rattle.web_wire.specs.declared.frames.NextMessage.TheVariants as Taken;
ghost use Rattle.conversation.specs.Talk.{unwritten};
ghost use Rattle.event_loop.specs.Messages.{GivesTo, IsFirst, SaysFirst};

use conversation::Conversation;
use std::alloc::AllocError;
use web_wire::{Frames, NextMessage, put_message};
use wire_lines::Fault;

/// The capacity of the line buffer that is kept after a long message.
const KEPT: usize = 65_536;

/// Gives a conversation the line of the next message. `line` is a buffer for it. Frames that answer the client's frames
/// are appended to `output`.
pub fn hear(
    frames: &mut Frames,
    conversation: &mut Conversation,
    line: &mut Vec<u8>,
    output: &mut Vec<u8>,
) -> Result<NextMessage, Fault>
    ensures line { result ≡ Ok Taken.Line → GivesTo frames.old conversation.old output.old.items
        frames.new conversation.new output.new.items }
    ensures none { result ≡ Ok Taken.Read
        → GoesOn [] frames.old output.old.items frames.new output.new.items
        × (course frames.new [] ≡ course_spec.waits) }
    ensures end { result ≡ Ok Taken.Close
        → GoesOn [] frames.old output.old.items frames.new output.new.items
        × (frames.new.ended ≡ true) }
    ensures other { (result ≡ Ok Taken.Line) ⊎ (conversation.new ≡ conversation.old) }
{
    line.clear();
    let turn = frames.next_line(line, output)?;
    if turn == NextMessage::Line {
        conversation.receive(line.as_slice())?;
    }
    line.clear();
    line.shrink_to(KEPT);
    Ok(turn)
}

/// Appends the first of a conversation's replies to the output as a message, unless a part of it is in the last `held`
/// bytes of the replies. Returns false if there is none.
pub fn say(
    conversation: &mut Conversation,
    output: &mut Vec<u8>,
    held: usize,
) -> Result<bool, AllocError>
    ensures only { conversation.new ≡ unwritten conversation.old conversation.new.replies }
    ensures said { result ≡ Ok true → SaysFirst conversation.old.replies output.old.items
        conversation.new.replies output.new.items }
    ensures shorter { result ≡ Ok true
        → length conversation.new.replies < length conversation.old.replies }
    ensures other { (result ≡ Ok true)
        ⊎ ((conversation.new ≡ conversation.old) × (output.new.items ≡ output.old.items)) }
    ensures held { min held (length conversation.old.replies) ≤ length conversation.new.replies }
{
    let replies = conversation.replies();
    let free = replies.len().saturating_sub(held);
    let Some(end) = first_end(replies, free) else {
        return Ok(false);
    };
    put_message(&replies[..end], output)?;
    conversation.sent(end + 1);
    Ok(true)
}

// The end of the first line, if its line feed is in the first `free` bytes.
fn first_end(bytes: &[u8], free: usize) -> Option<usize>
    requires { free ≤ length bytes.now }
    ensures first { IfSome result (IsFirst bytes.now) }
    ensures inside { IfSome result (λ end. end < free) }
{
    find_feed(&bytes[..free])
}

fn find_feed(bytes: &[u8]) -> Option<usize>
    ensures { result ≡ position is_feed bytes.now }
{
    bytes.iter().position(|byte| *byte == b'\n')
}
