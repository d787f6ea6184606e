//! The user of a request, as the proxy in front names it, and the answer.
use std::alloc::{AllocError, Global};
use std::net::IpAddr;
use std::process::Abort;
use std::test::Fail;
use web_wire::{Machines, Next, Page, PageRequest, Site, UserHeader, address_number, kept_page};

const PAGES: &[Page] = &[Page {
    path: "/",
    kind: "text/html; charset=utf-8",
    cache: "no-cache",
    tag: "\"one\"",
    text: "pads\n",
}];

const PROXY: [u8; 4] = [127, 0, 0, 1];

const STRANGER: [u8; 4] = [127, 0, 0, 2];

// Answers a request from an address at a site whose users the proxy names in `X-User`.
fn ask(alloc: Global, from: [u8; 4], text: &str) -> Result<(Next, PageRequest), AllocError> {
    let proxies = [address_number(IpAddr::from(PROXY))];
    let site = Site {
        pages: PAGES,
        origins: &[],
        users: Some(UserHeader {
            name: "X-User",
            proxies: &proxies,
        }),
    };
    let mut request = PageRequest::new(alloc);
    request.feed(text.as_bytes())?;
    let from = address_number(IpAddr::from(from));
    let next = request.answer(alloc, site, &kept_page(Machines::One), true, from)?;
    Ok((next, request))
}

// A request with these further fields.
fn get(alloc: Global, path: &str, fields: &str) -> Result<String, AllocError> {
    let mut text = String::from_str(alloc, "GET ")?;
    text.push_str(path)?;
    text.push_str(" HTTP/1.1\r\nHost: a\r\n")?;
    text.push_str(fields)?;
    text.push_str("\r\n")?;
    Ok(text)
}

const UPGRADE: &str =
    "Connection: Upgrade\r\nUpgrade: websocket\r\nSec-WebSocket-Version: 13\r\nSec-WebSocket-Key: dGhlIHNhbXBsZSBub25jZQ==\r\n";

// An address, a path, fields beside those of a handshake, what comes next, and the user.
type Row = (
    [u8; 4],
    &'static str,
    &'static str,
    Next,
    Option<&'static str>,
);

const ROWS: &[Row] = &[
    (PROXY, "/socket", "", Next::Socket, None),
    (
        PROXY,
        "/socket",
        "X-User: ann\r\n",
        Next::Socket,
        Some("ann"),
    ),
    (
        PROXY,
        "/socket",
        "x-uSER:   ann@a.example \t\r\n",
        Next::Socket,
        Some("ann@a.example"),
    ),
    (PROXY, "/socket", "X-User:\r\n", Next::Socket, Some("")),
    (
        PROXY,
        "/socket?X-User=bob",
        "Remote-User: bob\r\n",
        Next::Socket,
        None,
    ),
    (
        PROXY,
        "/socket",
        "X-User: ann\r\nX-User: ann\r\n",
        Next::Close(403),
        None,
    ),
    (STRANGER, "/socket", "", Next::Socket, None),
    (
        STRANGER,
        "/socket",
        "X-User: ann\r\n",
        Next::Close(403),
        None,
    ),
    (STRANGER, "/socket", "X-User:\r\n", Next::Close(403), None),
    (STRANGER, "/", "X-User: ann\r\n", Next::Close(403), None),
    (STRANGER, "/", "", Next::Close(200), None),
    (STRANGER, "/me", "X-User: ann\r\n", Next::Close(403), None),
    (STRANGER, "/none", "X-User: ann\r\n", Next::Close(403), None),
    (STRANGER, "/none", "", Next::Close(404), None),
    (PROXY, "/", "X-User: ann\r\n", Next::Close(200), Some("ann")),
    (PROXY, "/me", "X-User: ann\r\n", Next::User, Some("ann")),
    (PROXY, "/me", "", Next::User, None),
    (STRANGER, "/me", "", Next::User, None),
];

#[test]
fn a_user_is_taken_from_a_proxy(rt: HostRuntime) -> Result<(), Fail> {
    let alloc = rt.alloc();
    for row in ROWS {
        let (from, path, fields, next, user) = *row;
        let mut all = String::from_str(alloc, UPGRADE)?;
        all.push_str(fields)?;
        let text = get(alloc, path, all.as_str())?;
        let (came, request) = ask(alloc, from, text.as_str())?;
        assert!(rt; came == next, "{path} {fields:?}: {came:?}");
        if let Next::Socket | Next::User = next {
            let same = request.user() == user.map(|user: &str| user.as_bytes());
            assert!(rt; same, "{path} {fields:?}: another user");
        }
    }
    Ok(())
}

#[test]
fn nobody_asks_by_another_method(rt: HostRuntime) -> Result<(), Fail> {
    for (text, status) in [
        ("HEAD /me HTTP/1.1\r\nHost: a\r\n\r\n", 400),
        (
            "POST /me HTTP/1.1\r\nHost: a\r\nContent-Length: 0\r\n\r\n",
            405,
        ),
        (
            "GET /me HTTP/1.1\r\nHost: a\r\nContent-Length: 1\r\n\r\n",
            413,
        ),
    ] {
        let (next, _) = ask(rt.alloc(), PROXY, text)?;
        assert!(rt; next == Next::Close(status), "{text:?}: {next:?}");
    }
    Ok(())
}

// Returns true if one text ends with the other.
fn ends(bytes: &[u8], part: &str) -> bool {
    bytes.ends_with(part.as_bytes())
}

#[test]
fn the_user_is_told(rt: HostRuntime) -> Result<(), Fail> {
    let alloc = rt.alloc();
    let text = get(alloc, "/me", "X-User: a\"b\r\n")?;
    let (_, mut known) = ask(alloc, PROXY, text.as_str())?;
    assert!(rt; known.tell_user(b"{\"author\":\"ann@1\"}")? == Next::Close(200));
    assert!(rt; ends(known.output(), "\r\n\r\n{\"author\":\"ann@1\"}"));
    assert!(rt; known.output().starts_with(b"HTTP/1.1 200 OK\r\n"));
    let (_, mut nobody) = ask(alloc, PROXY, get(alloc, "/me", "")?.as_str())?;
    assert!(rt; nobody.tell_user(b"{}")? == Next::Close(200));
    assert!(rt; ends(nobody.output(), "\r\n\r\n{}"));
    let (_, mut stranger) = ask(alloc, PROXY, text.as_str())?;
    assert!(rt; stranger.refuse_user(b"nobody knows you.\n")? == Next::Close(403));
    assert!(rt; stranger.output().starts_with(b"HTTP/1.1 403 Forbidden\r\n"));
    assert!(rt; ends(stranger.output(), WORDS));
    let mut all = String::from_str(alloc, UPGRADE)?;
    all.push_str("X-User: bob\r\n")?;
    let (next, mut socket) = ask(alloc, PROXY, get(alloc, "/socket", all.as_str())?.as_str())?;
    assert!(rt; next == Next::Socket);
    assert!(rt; socket.refuse_user(b"")? == Next::Close(403));
    assert!(rt; socket.output().starts_with(b"HTTP/1.1 403 Forbidden\r\n"));
    Ok(())
}

const WORDS: &str = "\r\n\r\nYou have logged in as \"a\"b\", but nobody knows you.\n";

// An IPv4 address has one number, however it is written, and no other address has it.
#[test]
fn addresses_have_numbers(rt: HostRuntime) -> Result<(), Fail> {
    let own = address_number(IpAddr::from(PROXY));
    let mapped = [0u8, 0, 0, 0, 0, 0, 0, 0, 0, 0, 0xFF, 0xFF, 127, 0, 0, 1];
    let compatible = [0u8, 0, 0, 0, 0, 0, 0, 0, 0, 0, 0, 0, 127, 0, 0, 1];
    let loopback = [0u8, 0, 0, 0, 0, 0, 0, 0, 0, 0, 0, 0, 0, 0, 0, 1];
    assert!(rt; own == 0xFFFF_7F00_0001);
    assert!(rt; address_number(IpAddr::from(mapped)) == own);
    assert!(rt; address_number(IpAddr::from(compatible)) == 0x7F00_0001);
    assert!(rt; address_number(IpAddr::from(loopback)) == 1);
    assert!(rt; address_number(IpAddr::from(STRANGER)) != own);
    Ok(())
}
