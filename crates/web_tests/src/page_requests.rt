//! Requests for pages and for the socket, and how they are answered.
use std::alloc::{AllocError, Global};
use std::process::Abort;
use std::test::Fail;
use web_wire::{LONGEST_HEAD, Machines, Next, Page, PageRequest, Site, kept_page};

const PAGES: &[Page] = &[
    Page {
        path: "/",
        kind: "text/html; charset=utf-8",
        cache: "no-cache",
        tag: "\"one\"",
        text: "<!doctype html><title>Pads</title>\n",
    },
    Page {
        path: "/style.css",
        kind: "text/css; charset=utf-8",
        cache: "no-cache",
        tag: "\"two\"",
        text: "body { color: black }\n",
    },
];

// Asks in pieces, and returns the next step and the bytes to be sent.
fn ask(
    alloc: Global,
    origins: &[String],
    bytes: &[u8],
    piece: usize,
    has_room: bool,
) -> Result<(Next, Vec<u8>), AllocError> {
    let site = Site {
        pages: PAGES,
        origins,
        users: None,
    };
    let mut request = PageRequest::new(alloc);
    let mut next = Next::Read;
    for part in bytes.chunks(piece.max(1)) {
        request.feed(part)?;
        next = request.answer(alloc, site, &kept_page(Machines::One), has_room, 1)?;
        if next != Next::Read {
            break;
        }
    }
    let mut sent = Vec::new(alloc);
    sent.extend_from_slice(request.output())?;
    Ok((next, sent))
}

// Returns true if one text contains the other.
fn has(bytes: &[u8], part: &str) -> bool {
    match str::from_utf8(bytes) {
        Ok(text) => text.contains(part),
        Err(_) => false,
    }
}

// Asserts that a request, whole and in pieces of each length, is answered so, and that the response has these parts.
fn answers(
    rt: &impl Abort,
    alloc: Global,
    request: &str,
    next: Next,
    parts: &[&str],
) -> Result<(), AllocError> {
    let origins = [String::from_str(alloc, "https://pads.example")?];
    for piece in 1..=request.len() {
        let (came, sent) = ask(alloc, &origins, request.as_bytes(), piece, true)?;
        assert!(rt; came == next, "{request:?} in pieces of {piece}: {came:?}");
        for part in parts {
            assert!(rt;
                has(sent.as_slice(), part),
                "{part:?} is not in {}",
                sent.escape_ascii()
            );
        }
    }
    Ok(())
}

const SECURITY: &[&str] = &[
    "HTTP/1.1 200 OK\r\n",
    "content-type: text/html; charset=utf-8\r\n",
    "etag: \"one\"\r\n",
    "content-length: 35\r\n",
    "connection: close\r\n",
    "cache-control: no-cache\r\n",
    "content-security-policy: default-src 'none'; script-src 'self'; style-src 'self'; img-src 'self'; connect-src 'self'; base-uri 'none'; form-action 'none'; frame-ancestors 'none'\r\n",
    "x-content-type-options: nosniff\r\n",
    "referrer-policy: no-referrer\r\n",
    "cross-origin-opener-policy: same-origin\r\n",
    "cross-origin-resource-policy: same-origin\r\n",
    "\r\n\r\n<!doctype html><title>Pads</title>\n",
];

#[test]
fn a_page_has_its_headers(rt: HostRuntime) -> Result<(), Fail> {
    answers(
        &rt,
        rt.alloc(),
        "GET / HTTP/1.1\r\nHost: a\r\n\r\n",
        Next::Close(200),
        SECURITY,
    )?;
    Ok(())
}

// Requests, how they end, and a part of the response.
const REQUESTS: &[(&str, u16, &str)] = &[
    (
        "GET /?pad=x HTTP/1.1\r\nHost: a\r\n\r\n",
        200,
        "<title>Pads",
    ),
    ("GET /style.css HTTP/1.0\r\n\r\n", 200, "color: black"),
    (
        "HEAD /kept HTTP/1.1\r\nHost: a\r\n\r\n",
        200,
        "cache-control: no-store\r\n",
    ),
    (
        "POST /kept HTTP/1.1\r\nHost: a\r\n\r\n",
        405,
        "allow: GET, HEAD\r\n",
    ),
    ("GET /kept HTTP/1.1\r\n\r\n", 400, "Bad Request"),
    ("GET /kept/ HTTP/1.1\r\nHost: a\r\n\r\n", 404, "Not Found"),
    (
        "HEAD / HTTP/1.1\r\nHost: a\r\n\r\n",
        200,
        "content-length: 35\r\n",
    ),
    (
        "GET / HTTP/1.1\r\nHost: a\r\nIf-None-Match: \"one\"\r\n\r\n",
        304,
        "etag: \"one\"\r\n",
    ),
    (
        "GET / HTTP/1.1\r\nHost: a\r\nIf-None-Match: \"x\", W/\"one\"\r\n\r\n",
        304,
        "304 Not Modified",
    ),
    (
        "GET / HTTP/1.1\r\nHost: a\r\nIf-None-Match: *\r\n\r\n",
        304,
        "304 Not Modified",
    ),
    (
        "GET / HTTP/1.1\r\nHost: a\r\nIf-None-Match: \"two\"\r\n\r\n",
        200,
        "<title>Pads",
    ),
    (
        "GET / HTTP/1.1\r\nHost: a\r\nIf-None-Match: W/\"two\"\t, \"one\"\t\r\n\r\n",
        304,
        "304 Not Modified",
    ),
    (
        "GET / HTTP/1.1\r\nHost: a\r\nIf-None-Match: W/\"two\", \"\", \"one\"x\r\n\r\n",
        200,
        "<title>Pads",
    ),
    ("GET /x HTTP/1.1\r\nHost: a\r\n\r\n", 404, "404 Not Found"),
    (
        "GET /STYLE.CSS HTTP/1.1\r\nHost: a\r\n\r\n",
        404,
        "404 Not Found",
    ),
    (
        "POST / HTTP/1.1\r\nHost: a\r\n\r\n",
        405,
        "allow: GET, HEAD\r\n",
    ),
    (
        "GET / HTTP/1.1\r\nHost: a\r\nContent-Length: 1\r\n\r\n",
        413,
        "413 Content Too Large",
    ),
    (
        "GET / HTTP/1.1\r\nHost: a\r\nTransfer-Encoding: chunked\r\n\r\n",
        413,
        "413 Content Too Large",
    ),
    ("GET / HTTP/1.1\r\n\r\n", 400, "400 Bad Request"),
    (
        "GET / HTTP/1.1\r\nHost: a\r\nHost: b\r\n\r\n",
        400,
        "400 Bad Request",
    ),
    ("GET / HTTP/1.1\nHost: a\n\n", 400, "400 Bad Request"),
    ("GET / HTTP/2.0\r\nHost: a\r\n\r\n", 400, "400 Bad Request"),
    ("\x16\x03\x01", 400, "400 Bad Request"),
];

#[test]
fn requests_are_answered(rt: HostRuntime) -> Result<(), Fail> {
    for (request, status, part) in REQUESTS {
        answers(&rt, rt.alloc(), request, Next::Close(*status), &[*part])?;
    }
    Ok(())
}

#[test]
fn a_head_request_has_no_text(rt: HostRuntime) -> Result<(), Fail> {
    let (_, sent) = ask(
        rt.alloc(),
        &[],
        b"HEAD / HTTP/1.1\r\nHost: a\r\n\r\n",
        100,
        true,
    )?;
    assert!(rt;
        sent.as_slice().ends_with(b"\r\n\r\n"),
        "{}",
        sent.escape_ascii()
    );
    Ok(())
}

// The fields of a handshake except its origin, with the key of the example in RFC 6455.
const HANDSHAKE: &str =
    "GET /socket HTTP/1.1\r\nHost: pads.lan:80\r\nUpgrade: websocket\r\nConnection: keep-alive, Upgrade\r\nSec-WebSocket-Key: dGhlIHNhbXBsZSBub25jZQ==\r\nSec-WebSocket-Version: 13\r\n";

const ACCEPTED: &str =
    "HTTP/1.1 101 Switching Protocols\r\nconnection: Upgrade\r\nupgrade: websocket\r\nsec-websocket-accept: s3pPLMBiTxaQ9kYGzzhZRbK+xOo=\r\n\r\n";

// Further fields of a handshake, and whether it becomes a socket.
const ORIGINS: &[(&str, Next)] = &[
    ("", Next::Socket),
    ("Origin: http://pads.lan:80\r\n", Next::Socket),
    ("Origin: https://pads.lan:80\r\n", Next::Socket),
    ("Origin: https://PADS.lan:80\r\n", Next::Socket),
    ("Origin: https://pads.example\r\n", Next::Socket),
    ("Origin: http://pads.example\r\n", Next::Close(403)),
    ("Origin: https://pads.example.evil\r\n", Next::Close(403)),
    ("Origin: http://pads.lan\r\n", Next::Close(403)),
    ("Origin: http://pads.lan:8080\r\n", Next::Close(403)),
    ("Origin: http://evil/pads.lan:80\r\n", Next::Close(403)),
    ("Origin: null\r\n", Next::Close(403)),
    ("Origin: \r\n", Next::Close(403)),
    (
        "Origin: http://pads.lan:80\r\nOrigin: http://evil\r\n",
        Next::Close(403),
    ),
    (
        "Origin: http://evil\r\nOrigin: http://pads.lan:80\r\n",
        Next::Close(403),
    ),
];

#[test]
fn origins_are_checked(rt: HostRuntime) -> Result<(), Fail> {
    for (fields, next) in ORIGINS {
        let request = format!(in rt.alloc(); "{HANDSHAKE}{fields}\r\n")?;
        let part = if *next == Next::Socket {
            ACCEPTED
        } else {
            "403 Forbidden"
        };
        answers(&rt, rt.alloc(), request.as_str(), *next, &[part])?;
    }
    Ok(())
}

// Faulty handshakes, and their status.
const FAULTY: &[(&str, u16)] = &[
    ("GET /socket HTTP/1.1\r\nHost: a\r\n\r\n", 426),
    (
        "GET /socket HTTP/1.1\r\nHost: a\r\nConnection: Upgrade\r\n\r\n",
        426,
    ),
    (
        "GET /socket HTTP/1.1\r\nHost: a\r\nConnection: Upgrade\r\nUpgrade: websocket\r\nSec-WebSocket-Key: dGhlIHNhbXBsZSBub25jZQ==\r\nSec-WebSocket-Version: 12\r\n\r\n",
        426,
    ),
    (
        "GET /socket HTTP/1.1\r\nHost: a\r\nConnection: Upgrade\r\nUpgrade: websocket\r\nSec-WebSocket-Version: 13\r\n\r\n",
        400,
    ),
    (
        "GET /socket HTTP/1.1\r\nHost: a\r\nConnection: Upgrade\r\nUpgrade: websocket\r\nSec-WebSocket-Key: short\r\nSec-WebSocket-Version: 13\r\n\r\n",
        400,
    ),
    (
        "HEAD /socket HTTP/1.1\r\nHost: a\r\nConnection: Upgrade\r\nUpgrade: websocket\r\nSec-WebSocket-Key: dGhlIHNhbXBsZSBub25jZQ==\r\nSec-WebSocket-Version: 13\r\n\r\n",
        400,
    ),
    (
        "GET /socket HTTP/1.1\r\nHost: a\r\nConnection: Upgrade\r\nUpgrade: websocket\r\nSec-WebSocket-Key: dGhlIHNhbXBsZSBub25jZQ==\r\nSec-WebSocket-Version: 13\r\nContent-Length: 6\r\n\r\n",
        413,
    ),
    (
        "GET /socket HTTP/1.1\r\nHost: a\r\nConnection: Upgrade\r\nUpgrade: websocket\r\nSec-WebSocket-Key: dGhlIHNhbXBsZSBub25jZQ==\r\nSec-WebSocket-Version: 13\r\nTransfer-Encoding: chunked\r\n\r\n",
        413,
    ),
];

#[test]
fn faulty_handshakes_are_refused(rt: HostRuntime) -> Result<(), Fail> {
    for (request, status) in FAULTY {
        answers(&rt, rt.alloc(), request, Next::Close(*status), &[])?;
    }
    Ok(())
}

#[test]
fn a_full_server_says_so(rt: HostRuntime) -> Result<(), Fail> {
    let request = format!(in rt.alloc(); "{HANDSHAKE}\r\n")?;
    let (next, sent) = ask(rt.alloc(), &[], request.as_bytes(), 1_000, false)?;
    assert!(rt; next == Next::Close(503) && has(sent.as_slice(), "\r\n\r\nThe server is full."));
    let mut request = PageRequest::new(rt.alloc());
    assert!(rt; request.refuse()? == Next::Close(503));
    assert!(rt; has(request.output(), "HTTP/1.1 503 Service Unavailable\r\n"));
    Ok(())
}

// A head with a target and a field of these lengths.
fn long_head(alloc: Global, target: usize, field: usize) -> Result<Vec<u8>, AllocError> {
    let mut head = Vec::new(alloc);
    head.extend_from_slice(b"GET /")?;
    head.resize(head.len().saturating_add(target), b'a')?;
    head.extend_from_slice(b" HTTP/1.1\r\nHost: a\r\nX: ")?;
    head.resize(head.len().saturating_add(field), b'a')?;
    head.extend_from_slice(b"\r\n\r\n")?;
    Ok(head)
}

#[test]
fn heads_are_limited(rt: HostRuntime) -> Result<(), Fail> {
    let room = LONGEST_HEAD.saturating_sub(long_head(rt.alloc(), 0, 1)?.len());
    for (target, field, status) in [
        (room, 1, 404),
        (0, room.saturating_add(1), 200),
        (0, room.saturating_add(2), 431),
        (LONGEST_HEAD, 1, 414),
    ] {
        let head = long_head(rt.alloc(), target, field)?;
        let (next, _) = ask(rt.alloc(), &[], head.as_slice(), 1_000, true)?;
        assert!(rt; next == Next::Close(status), "{target} {field}: {next:?}");
    }
    Ok(())
}

#[test]
fn fields_are_limited(rt: HostRuntime) -> Result<(), Fail> {
    for (count, status) in [(63, 200), (64, 431)] {
        let mut head = Vec::new(rt.alloc());
        head.extend_from_slice(b"GET / HTTP/1.1\r\nHost: a\r\n")?;
        for _ in 0..count {
            head.extend_from_slice(b"X: a\r\n")?;
        }
        head.extend_from_slice(b"\r\n")?;
        let (next, _) = ask(rt.alloc(), &[], head.as_slice(), 1_000, true)?;
        assert!(rt; next == Next::Close(status), "{count}: {next:?}");
    }
    Ok(())
}

// The bytes after a handshake are left for the socket.
#[test]
fn frames_behind_a_handshake(rt: HostRuntime) -> Result<(), Fail> {
    let site = Site {
        pages: PAGES,
        origins: &[],
        users: None,
    };
    let alloc = rt.alloc();
    let mut request = PageRequest::new(alloc);
    request.feed(HANDSHAKE.as_bytes())?;
    request.feed(b"\r\n\x81\x82\0\0\0\0hi")?;
    assert!(rt; request.answer(alloc, site, &kept_page(Machines::One), true, 1)? == Next::Socket);
    assert!(rt; request.into_parts().input.as_slice() == b"\x81\x82\0\0\0\0hi".as_slice());
    Ok(())
}
