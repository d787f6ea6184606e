//! The meaning of a message to a server of lines.
ghost use Rattle.std.specs.Prelude.{◌≡◌, ◌≢◌, ◌++◌, true, option_map, Ok, Some, IfOk, IfSome, OnOk, OnErr};
ghost use Rattle.websocket.specs.Content.{IsPayloadInside, IsReceivedInside, payload_bytes, received_content, text};
ghost use Rattle.web_wire.specs.Messages.{heard_of, is_line, text_of, with_feed};

use std::alloc::AllocError;
use websocket::protocol::{CloseCode, Payload, Received};

/// The meaning of a message to a server of lines.
#[derive(Clone, Copy)]
pub(crate) enum Heard {
    /// No line: a fragment of a message, a ping or a pong.
    Nothing,
    /// A line.
    Line,
    /// The client closes the socket.
    Closed,
    /// The socket has to be closed with this code.
    Refused(CloseCode),
}

/// Returns the meaning of a message, and appends its line with a line feed. `input` is as the read left it.
pub(crate) fn hear(
    message: &Option<Received>,
    input: &[u8],
    line: &mut Vec<u8>,
) -> Result<Heard, AllocError>
    requires { IfSome message.now (IsReceivedInside input.now) }
    ensures heard { IfOk result (λ heard. heard
        ≡ heard_of (option_map (received_content input.now) message.now)) }
    ensures line { result ≡ Ok Heard.Line → line.new.items
        ≡ line.old.items ++ with_feed (text_of
        (option_map (received_content input.now) message.now)) }
    ensures is_line { result ≡ Ok Heard.Line →
        is_line (text_of (option_map (received_content input.now) message.now)) ≡ true }
    ensures other { result ≢ Ok Heard.Line → line.new.items ≡ line.old.items }
{
    match message {
        None | Some(Received::Ping(_)) | Some(Received::Pong(_)) => Ok(Heard::Nothing),
        Some(Received::Close(_)) => Ok(Heard::Closed),
        Some(Received::Binary(_)) => Ok(Heard::Refused(CloseCode::Unsupported)),
        Some(Received::Text(payload)) => hear_text(payload, input, line),
    }
}

// Appends a text as a line, if it is exactly one line.
fn hear_text(payload: &Payload, input: &[u8], line: &mut Vec<u8>) -> Result<Heard, AllocError>
    requires { IsPayloadInside input.now payload.now }
    ensures heard { IfOk result (λ heard. heard
        ≡ heard_of (Some (text (payload_bytes input.now payload.now)))) }
    ensures line { result ≡ Ok Heard.Line
        → line.new.items ≡ line.old.items ++ with_feed (payload_bytes input.now payload.now) }
    ensures is_line { result ≡ Ok Heard.Line
        → is_line (payload_bytes input.now payload.now) ≡ true }
    ensures other { result ≢ Ok Heard.Line → line.new.items ≡ line.old.items }
{
    let text = payload.of(input);
    if !is_line(text) {
        return Ok(Heard::Refused(CloseCode::Policy));
    }
    put_line(text, line)?;
    Ok(Heard::Line)
}

// Returns true if a text is one line.
fn is_line(text: &[u8]) -> bool
    ensures { result ≡ is_line text.now }
{
    !text.is_empty() && !text.contains(&b'\n')
}

// Appends a line with a line feed; if memory runs out, nothing.
fn put_line(text: &[u8], line: &mut Vec<u8>) -> Result<(), AllocError>
    ensures ok { OnOk result (line.new.items ≡ line.old.items ++ with_feed text.now) }
    ensures err { OnErr result (line.new.items ≡ line.old.items) }
{
    line.reserve(text.len() + 1)?;
    line.extend_from_slice(text)?;
    line.push(b'\n')?;
    Ok(())
}
