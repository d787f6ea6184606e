//! The responses of the address of the status.
ghost use Rattle.std.specs.Prelude.{◌≡◌, IfOk, Some, string_bytes};
ghost use Rattle.server_counts.specs.Responses.{head_text, response_text, sent, status_text};

use std::alloc::{AllocError, Global};
use std::fmt;
use std::fmt::{Display, Formatter};

/// The status of a response.
#[derive(Clone, Copy)]
pub enum Status {
    Ok,
    BadRequest,
    NotFound,
    NotAllowed,
    Unavailable,
}

impl Display for Status {
    ghost output = { λ status. Some (status_text status) };

    fn fmt<W: fmt::Write>(&self, f: &mut Formatter<W>) -> fmt::Result {
        f.write_str(match self {
            Status::Ok => "200 OK",
            Status::BadRequest => "400 Bad Request",
            Status::NotFound => "404 Not Found",
            Status::NotAllowed => "405 Method Not Allowed\r\nAllow: GET, HEAD",
            Status::Unavailable => "503 Service Unavailable",
        })
    }
}

/// The bytes of a response with this content, after which the connection ends. To `HEAD`, the content is left out.
pub fn response(
    alloc: Global,
    status: Status,
    content_type: &str,
    content: &str,
    is_head: bool,
) -> Result<String, AllocError>
    ensures { IfOk result (λ text. string_bytes text ≡ response_text status content_type.now content.now is_head) }
{
    let mut text = head(alloc, status, content_type, content.len())?;
    text.push_str(sent(content, is_head))?;
    Ok(text)
}

// The head of a response whose content has `length` bytes.
fn head(
    alloc: Global,
    status: Status,
    content_type: &str,
    length: usize,
) -> Result<String, AllocError>
    ensures { IfOk result (λ text. string_bytes text ≡ head_text status content_type.now length) }
{
    format!(in alloc;
        "HTTP/1.1 {status}\r\nContent-Type: {content_type}\r\nContent-Length: {length}\r\nCache-Control: no-store\r\nX-Content-Type-Options: nosniff\r\nConnection: close\r\n\r\n"
    )
}

// The content that is sent.
fn sent(content: &str, is_head: bool) -> &str
    ensures { result.now ≡ sent content.now is_head }
{
    if is_head { "" } else { content }
}
