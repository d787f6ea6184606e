//! The responses.
ghost use Rattle.std.specs.Prelude.{◌≡◌, [], ◌++◌, OnOk, length};
ghost use Rattle.websocket.specs.Handshake.{response_bytes};
ghost use Rattle.http1.specs.Head.{pairs};
ghost use Rattle.web_wire.specs.PageRequests.{Grows, PutsUser, PutsPage, PutsRefusal, PutsUnchanged, PutsUnread, page_fields};

use crate::page::Page;
use http1::{BodySize, Header, Server, WriteError};
use websocket::handshake::HandshakeError;
use websocket::handshake::server::write_response;

/// The content security policy: a page may load its own files and open its own socket, and nothing else.
const POLICY: &[u8] =
    b"default-src 'none'; script-src 'self'; style-src 'self'; img-src 'self'; connect-src 'self'; base-uri 'none'; form-action 'none'; frame-ancestors 'none'";

// The phrase of a status.
fn reason(status: u16) -> &'static [u8] {
    match status {
        400 => b"Bad Request",
        403 => b"Forbidden",
        404 => b"Not Found",
        405 => b"Method Not Allowed",
        413 => b"Content Too Large",
        414 => b"URI Too Long",
        426 => b"Upgrade Required",
        431 => b"Request Header Fields Too Large",
        503 => b"Service Unavailable",
        _ => b"Internal Server Error",
    }
}

// The words of a refusal.
fn words(status: u16) -> &'static [u8] {
    match status {
        503 => b"The server is full. Please try again later.\n",
        _ => reason(status),
    }
}

// The fields of a page's response.
fn fields(page: &Page) -> [Header<'_>; 9]
    ensures { pairs result ≡ page_fields page.now }
{
    [
        Header {
            name: b"content-type",
            value: page.kind.as_bytes(),
        },
        Header {
            name: b"cache-control",
            value: page.cache.as_bytes(),
        },
        Header {
            name: b"etag",
            value: page.tag.as_bytes(),
        },
        Header {
            name: b"content-security-policy",
            value: POLICY,
        },
        Header {
            name: b"x-content-type-options",
            value: b"nosniff",
        },
        Header {
            name: b"referrer-policy",
            value: b"no-referrer",
        },
        Header {
            name: b"cross-origin-opener-policy",
            value: b"same-origin",
        },
        Header {
            name: b"cross-origin-resource-policy",
            value: b"same-origin",
        },
        Header {
            name: b"connection",
            value: b"close",
        },
    ]
}

// The size of a text that is sent whole.
fn size_of(text: &[u8]) -> BodySize
    ensures { result ≡ BodySize.Known (length text.now) }
{
    BodySize::Known(text.len() as u64)
}

/// Appends a page: whole, or only its head.
pub(crate) fn put_page(
    server: &mut Server,
    output: &mut Vec<u8>,
    page: &Page,
    whole: bool,
) -> Result<(), WriteError>
    ensures ok { OnOk result (PutsPage server.old page.now whole output.old.items output.new.items) }
    ensures grows { Grows output.old.items output.new.items }
{
    let body = page.text.as_bytes();
    let size = size_of(body);
    server.write_response(output, 200, b"OK", &fields(page), size)?;
    if whole {
        output.extend_from_slice(body)?;
    }
    Ok(())
}

/// Appends the response that a page is unchanged.
pub(crate) fn put_unchanged(
    server: &mut Server,
    output: &mut Vec<u8>,
    page: &Page,
) -> Result<(), WriteError>
    ensures ok { OnOk result (PutsUnchanged server.old page.now output.old.items output.new.items) }
    ensures grows { Grows output.old.items output.new.items }
{
    server.write_response(output, 304, b"Not Modified", &fields(page), BodySize::Empty)
}

/// Appends a refusal of a request that was read, in words unless it asked only for a head.
pub(crate) fn put_refusal(
    server: &mut Server,
    output: &mut Vec<u8>,
    status: u16,
    whole: bool,
) -> Result<(), WriteError>
    ensures ok { OnOk result (PutsRefusal server.old status whole output.old.items output.new.items) }
    ensures grows { Grows output.old.items output.new.items }
{
    let text = words(status);
    let size = size_of(text);
    server.write_response(
        output,
        status,
        reason(status),
        &refusal_fields(status),
        size,
    )?;
    if whole {
        output.extend_from_slice(text)?;
    }
    Ok(())
}

// The fields of a refusal. The last one is the one that the status requires.
fn refusal_fields(status: u16) -> [Header<'static>; 4] {
    let last = match status {
        405 => Header {
            name: b"allow",
            value: b"GET, HEAD",
        },
        426 => Header {
            name: b"sec-websocket-version",
            value: b"13",
        },
        503 => Header {
            name: b"retry-after",
            value: b"30",
        },
        _ => Header {
            name: b"cache-control",
            value: b"no-store",
        },
    };
    [
        Header {
            name: b"x-content-type-options",
            value: b"nosniff",
        },
        Header {
            name: b"connection",
            value: b"close",
        },
        Header {
            name: b"content-type",
            value: b"text/plain; charset=utf-8",
        },
        last,
    ]
}

/// Appends a refusal of bytes that are not a request, or were not read. The response ends when the connection closes.
pub(crate) fn put_unread(output: &mut Vec<u8>, status: u16) -> Result<(), WriteError>
    ensures ok { OnOk result (PutsUnread status output.old.items output.new.items) }
    ensures grows { Grows output.old.items output.new.items }
{
    http1::head::write_response(
        output,
        1,
        status,
        reason(status),
        &refusal_fields(status),
        &[],
    )?;
    Ok(output.extend_from_slice(words(status))?)
}

// The words before the user who is not an author, and those between the user and the reason.
const LOGGED_IN_AS: &[u8] = b"You have logged in as \"";

const BUT: &[u8] = b"\", but ";

/// Appends a refusal of a request whose user is no author, with the reason in words. The response ends when the connection
/// closes.
pub(crate) fn put_stranger(output: &mut Vec<u8>, user: &[u8], why: &[u8]) -> Result<(), WriteError>
    ensures ok { OnOk result (PutsUnread 403 output.old.items output.new.items) }
    ensures grows { Grows output.old.items output.new.items }
{
    http1::head::write_response(output, 1, 403, reason(403), &refusal_fields(403), &[])?;
    output.extend_from_slice(LOGGED_IN_AS)?;
    output.extend_from_slice(user)?;
    output.extend_from_slice(BUT)?;
    Ok(output.extend_from_slice(why)?)
}

// The fields of the response that names the user.
fn user_fields() -> [Header<'static>; 5] {
    [
        Header {
            name: b"content-type",
            value: b"application/json",
        },
        Header {
            name: b"cache-control",
            value: b"no-store",
        },
        Header {
            name: b"x-content-type-options",
            value: b"nosniff",
        },
        Header {
            name: b"cross-origin-resource-policy",
            value: b"same-origin",
        },
        Header {
            name: b"connection",
            value: b"close",
        },
    ]
}

/// Appends who the user of a request is, in this text of JSON. The response ends when the connection closes.
pub(crate) fn put_user(output: &mut Vec<u8>, text: &[u8]) -> Result<(), WriteError>
    ensures ok { OnOk result (PutsUser text.now output.old.items output.new.items) }
    ensures grows { Grows output.old.items output.new.items }
{
    http1::head::write_response(output, 1, 200, b"OK", &user_fields(), &[])?;
    Ok(output.extend_from_slice(text)?)
}

/// Appends the response that the connection is a socket from here on.
pub(crate) fn put_upgrade(output: &mut Vec<u8>, key: &[u8; 28]) -> Result<(), WriteError>
    ensures ok { OnOk result (output.new.items ≡ output.old.items ++ response_bytes key.now []) }
    ensures grows { Grows output.old.items output.new.items }
{
    match write_response(key, &[], output) {
        Ok(()) => Ok(()),
        Err(HandshakeError::OutOfMemory) => Err(WriteError::OutOfMemory),
        Err(_) => Err(WriteError::InvalidHeader),
    }
}
