//! Answers one line, and appends the reply to earlier ones.
ghost use Rattle.std.specs.Prelude.{◌≡◌, ◌+◌, ◌≤◌, true, false, nat_lt, ◌++◌, length, vec_len, vec_capacity};
ghost use Rattle.wire_json.specs.Lines.{request};
ghost use Rattle.wire_json.specs.Replies.{line_of};
ghost use Rattle.conversation.specs.Delivered.{delivered_of};
ghost use Rattle.conversation.specs.Session.{Hears};
ghost use Rattle.conversation.specs.Talk.{HasRoom, PutsAnswer, TellsOne};

use crate::delivered::delivered_by;
use crate::pads::Pads;
use pad_core::Reply;
use pad_model::Refusal;
use shared_pads::Gate;
use std::alloc::Global;
use wire_json::{memory_line, read_request, reply_line, too_long_line};

/// Reserves memory for either of the fixed replies: out of memory, and line too long. Returns false if there is none.
pub(crate) fn make_room(replies: &mut Vec<u8>) -> bool
    ensures room { result ≡ true → HasRoom replies.new }
    ensures items { replies.new.items ≡ replies.old.items }
{
    let most = memory_line().len().max(too_long_line().len());
    replies.reserve(most).is_ok()
}

/// Answers a line and appends the reply. Returns the number of operations that the reply reports as delivered, or None
/// for an empty line, which has no reply.
pub(crate) fn tell<P: Pads, G: Gate>(
    alloc: Global,
    pads: &mut P,
    line: &[u8],
    replies: &mut Vec<u8>,
    connection: u64,
    gate: &G,
) -> Option<u64>
    requires room { HasRoom replies.old }
    ensures { TellsOne P.calls pads.old line.now result replies.old.items replies.new.items
        pads.new }
{
    if line.is_empty() {
        return None;
    }
    let answer = answer_line(alloc, pads, line);
    Some(put_answer(alloc, replies, connection, gate, &answer))
}

// Answers a line.
fn answer_line<P: Pads>(alloc: Global, pads: &mut P, line: &[u8]) -> Result<Reply, Refusal>
    ensures { Hears P.calls pads.old (request line.now) result pads.new }
{
    let request = read_request(alloc, line)?;
    pads.call(alloc, &request)
}

// Appends an answer, or the out-of-memory line in its place. Returns the number of operations that it reports as
// delivered.
fn put_answer<G: Gate>(
    alloc: Global,
    replies: &mut Vec<u8>,
    connection: u64,
    gate: &G,
    answer: &Result<Reply, Refusal>,
) -> u64
    requires room { HasRoom replies.old }
    ensures put { PutsAnswer answer.now result replies.old.items replies.new.items }
    ensures announced { G.announced gate.now connection (nat_lt 0 (delivered_of answer.now)) }
{
    let delivered = delivered_by(answer);
    let whole = put_whole(alloc, replies, answer);
    gate.before_reply(connection, delivered > 0);
    if whole {
        return delivered;
    }
    put(replies, memory_line());
    0
}

// Appends the line of an answer. Returns false if there is no memory for it.
fn put_whole(alloc: Global, replies: &mut Vec<u8>, answer: &Result<Reply, Refusal>) -> bool
    requires room { HasRoom replies.old }
    ensures whole { result ≡ true → replies.new.items ≡ replies.old.items ++ line_of answer.now }
    ensures none { result ≡ false → (replies.new.items ≡ replies.old.items) × HasRoom replies.new }
{
    match reply_line(alloc, answer) {
        Ok(line) => replies.extend_from_slice(line.as_bytes()).is_ok(),
        Err(_) => false,
    }
}

/// Appends a line, for which there is room.
pub(crate) fn put(replies: &mut Vec<u8>, line: &[u8])
    requires { vec_len replies.old + length line.now ≤ vec_capacity replies.old }
    ensures { replies.new.items ≡ replies.old.items ++ line.now }
{
    match replies.extend_from_slice(line) {
        Ok(()) => {}
        Err(_) => unreachable!(),
    }
}
