//! A browser whose user a proxy names: its session is that author's from the start.
use crate::memory_socket::MemorySocket;
use crate::stage::{PROXY, PartyPads, put_frame, request_bytes, seated, serve_browser};
use event_loop::{Party, Protocol};
use std::process::Abort;
use std::sync::Wait;
use std::test::Fail;
use web_wire::PageRequest;

const ELSEWHERE: u128 = 2;

const CREATE: &[u8] = br#"{"do":"create","pad":"one"}"#;

const HELLO: &[u8] = br#"{"do":"hello","name":"a2","token":"t"}"#;

const CREATED: &str = r#"{"now":0,"ok":true,"visit":1}"#;

const NO_SESSION: &str = r#"{"code":200,"error":"NoSession","ok":false}"#;

const HAVE_SESSION: &str = r#"{"code":202,"error":"HaveSession","ok":false}"#;

const HELLO_ONE: &str = "{\"author\":\"a1@1\",\"ok\":true}\n";

const HELLO_TWO: &str = r#"{"author":"a2@1","ok":true}"#;

// An address, a target, fields, how the response begins, and parts that it has, in this order.
type UserRow = (
    u128,
    &'static str,
    &'static str,
    &'static str,
    &'static [&'static str],
);

const ROWS: &[UserRow] = &[
    (
        PROXY,
        "/socket",
        "X-User: one@a.example\r\n",
        "HTTP/1.1 101 ",
        &[CREATED, HAVE_SESSION],
    ),
    (
        PROXY,
        "/socket",
        "",
        "HTTP/1.1 101 ",
        &[NO_SESSION, HELLO_TWO],
    ),
    (
        PROXY,
        "/socket",
        "X-User: a1\r\n",
        "HTTP/1.1 403 ",
        &["\"a1\"", "no person line"],
    ),
    (
        PROXY,
        "/socket",
        "Remote-User: one@a.example\r\n",
        "HTTP/1.1 101 ",
        &[NO_SESSION],
    ),
    (
        PROXY,
        "/socket?X-User=one@a.example",
        "",
        "HTTP/1.1 101 ",
        &[NO_SESSION],
    ),
    (
        ELSEWHERE,
        "/socket",
        "X-User: one@a.example\r\n",
        "HTTP/1.1 403 ",
        &[],
    ),
    (ELSEWHERE, "/socket", "", "HTTP/1.1 101 ", &[NO_SESSION]),
    (
        PROXY,
        "/me",
        "X-User: one@a.example\r\n",
        "HTTP/1.1 200 ",
        &[HELLO_ONE],
    ),
    (PROXY, "/me", "", "HTTP/1.1 200 ", &[NO_SESSION]),
    (
        PROXY,
        "/me",
        "X-User: two@a.example\r\n",
        "HTTP/1.1 403 ",
        &["no person line"],
    ),
    (
        ELSEWHERE,
        "/me",
        "X-User: one@a.example\r\n",
        "HTTP/1.1 403 ",
        &[],
    ),
];

// The same, where any user of the proxy is an author.
const ANY_USER_ROWS: &[UserRow] = &[
    (
        PROXY,
        "/socket",
        "X-User: two@b.example\r\n",
        "HTTP/1.1 101 ",
        &[CREATED, HAVE_SESSION],
    ),
    (
        PROXY,
        "/me",
        "X-User: two@b.example\r\n",
        "HTTP/1.1 200 ",
        &["{\"author\":\"two-tb-pexample@1\",\"ok\":true}\n"],
    ),
    (
        PROXY,
        "/me",
        "X-User: one@a.example\r\n",
        "HTTP/1.1 200 ",
        &[HELLO_ONE],
    ),
    (
        PROXY,
        "/socket",
        "X-User: a1\r\n",
        "HTTP/1.1 403 ",
        &["\"a1\"", "to somebody else"],
    ),
    (
        PROXY,
        "/me",
        "X-User: a2\r\n",
        "HTTP/1.1 403 ",
        &["\"a2\"", "to somebody else"],
    ),
    (
        PROXY,
        "/me",
        "X-User: 123456789012345678901234567890123\r\n",
        "HTTP/1.1 403 ",
        &["no name of an author"],
    ),
    (
        ELSEWHERE,
        "/socket",
        "X-User: two@b.example\r\n",
        "HTTP/1.1 403 ",
        &[],
    ),
    (PROXY, "/me", "", "HTTP/1.1 200 ", &[NO_SESSION]),
];

#[test]
fn a_session_is_that_of_the_user(rt: HostRuntime) -> Result<(), Fail> {
    for row in ROWS {
        let stage = PartyPads::new(&rt, rt.alloc())?;
        is_answered(&rt, &stage, *row)?;
    }
    Ok(())
}

#[test]
fn any_user_is_an_author(rt: HostRuntime) -> Result<(), Fail> {
    for row in ANY_USER_ROWS {
        let stage = PartyPads::with_any_user(&rt, rt.alloc())?;
        is_answered(&rt, &stage, *row)?;
    }
    Ok(())
}

// Sends a request, and after it, if it opens a socket, two messages.
fn is_answered<R: AllocGlobal + Wait + Abort>(
    rt: &R,
    stage: &PartyPads,
    row: UserRow,
) -> Result<(), Fail> {
    let alloc = rt.alloc();
    let (from, target, fields, begins, parts) = row;
    let mut bytes = request_bytes(alloc, target, fields)?;
    put_frame(0x81, CREATE, &mut bytes)?;
    put_frame(0x81, HELLO, &mut bytes)?;
    let table = stage.table(rt);
    let mut pads = seated(alloc, &table)?;
    let socket = MemorySocket::new(alloc, bytes.as_slice(), 1_000);
    let mut party = Party::new(
        alloc,
        socket,
        Protocol::PageRequest(PageRequest::new(alloc)),
    );
    serve_browser(alloc, &mut party, &mut pads, stage.authors(), from, 64)?;
    let came = party.end(&mut pads).into_written();
    let mut is_so = came.starts_with(begins.as_bytes());
    for part in parts {
        is_so = is_so && has(came.as_slice(), part.as_bytes());
    }
    assert!(rt;
        is_so,
        "{target} {fields:?} from {from}: came {}",
        came.escape_ascii()
    );
    Ok(())
}

// Returns true if one list of bytes contains the other.
fn has(bytes: &[u8], part: &[u8]) -> bool {
    bytes.windows(part.len().max(1)).any(|some| some == part)
}
