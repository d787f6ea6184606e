//! A browser: its request, its messages, and the bytes that it is sent.
use crate::memory_socket::MemorySocket;
use crate::stage::{PartyPads, browser_bytes, put_frame, seated, serve_browser};
use event_loop::{Party, Protocol, Stage};
use std::process::Abort;
use std::test::Fail;
use web_wire::PageRequest;

/// The answer of RFC 6455, section 1.3 to its example of a key.
const ACCEPTED: &str = "s3pPLMBiTxaQ9kYGzzhZRbK+xOo=";

const HELLO: &[u8] = br#"{"do":"hello","name":"a1","token":"t"}"#;

const CREATE: &[u8] = br#"{"do":"create","pad":"one"}"#;

const AUTHOR: &[u8] = br#"{"author":"a1@1","ok":true}"#;

const CREATED: &[u8] = br#"{"now":0,"ok":true,"visit":1}"#;

// Returns true if a response opens the socket.
fn is_opened(response: &[u8]) -> bool {
    match str::from_utf8(response) {
        Ok(text) => text.starts_with("HTTP/1.1 101 ")
            && text.contains(ACCEPTED)
            && text.ends_with("\r\n\r\n"),
        Err(_) => false,
    }
}

#[test]
fn a_browser_is_answered_by_messages_in_pieces_of_each_size(rt: HostRuntime) -> Result<(), Fail> {
    let alloc = rt.alloc();
    let mut bytes = browser_bytes(alloc)?;
    put_frame(0x81, HELLO, &mut bytes)?;
    put_frame(0x89, b"are you there", &mut bytes)?;
    put_frame(0x81, CREATE, &mut bytes)?;
    let mut wanted = Vec::new(alloc);
    // Each reply is a text frame without a mask, and the ping is answered by a pong (RFC 6455, sections 5.2 and 5.5.3).
    wanted.extend_from_slice(&[0x81, AUTHOR.len() as u8])?;
    wanted.extend_from_slice(AUTHOR)?;
    wanted.extend_from_slice(&[0x8A, 13])?;
    wanted.extend_from_slice(b"are you there")?;
    wanted.extend_from_slice(&[0x81, CREATED.len() as u8])?;
    wanted.extend_from_slice(CREATED)?;
    for read in 1..=bytes.len() {
        for taken in [1, 3, 1_000] {
            let stage = PartyPads::new(&rt, alloc)?;
            let table = stage.table(&rt);
            let mut pads = seated(alloc, &table)?;
            let socket = MemorySocket::new(alloc, bytes.as_slice(), taken);
            let mut party = Party::new(
                alloc,
                socket,
                Protocol::PageRequest(PageRequest::new(alloc)),
            );
            serve_browser(alloc, &mut party, &mut pads, stage.authors(), 2, read)?;
            let came = party.end(&mut pads).into_written();
            let response = came.len().saturating_sub(wanted.len());
            assert!(rt;
                is_opened(&came[..response]) && came.ends_with(wanted.as_slice()),
                "read {read} bytes and wrote {taken} at a time: came {}",
                came.escape_ascii()
            );
        }
    }
    Ok(())
}

#[test]
fn a_page_is_written_and_nothing_more_is_read(rt: HostRuntime) -> Result<(), Fail> {
    let alloc = rt.alloc();
    let stage = PartyPads::new(&rt, alloc)?;
    let table = stage.table(&rt);
    let mut pads = seated(alloc, &table)?;
    let request = b"GET / HTTP/1.1\r\nHost: pads.example\r\n\r\nmore";
    let socket = MemorySocket::new(alloc, request, 1_000);
    let mut party = Party::new(
        alloc,
        socket,
        Protocol::PageRequest(PageRequest::new(alloc)),
    );
    serve_browser(alloc, &mut party, &mut pads, stage.authors(), 2, 64)?;
    assert!(rt; party.stage() == Stage::Ends, "came {:?}", party.stage());
    let came = party.end(&mut pads).into_written();
    assert!(rt;
        came.starts_with(b"HTTP/1.1 200 OK\r\n"),
        "came {}",
        came.escape_ascii()
    );
    assert!(rt;
        came.ends_with(b"\r\n\r\n<!doctype html><title>Pads</title>\n"),
        "came {}",
        came.escape_ascii()
    );
    Ok(())
}

#[test]
fn a_request_is_refused_while_the_server_is_full(rt: HostRuntime) -> Result<(), Fail> {
    let alloc = rt.alloc();
    let stage = PartyPads::new(&rt, alloc)?;
    let table = stage.table(&rt);
    let mut pads = seated(alloc, &table)?;
    let socket = MemorySocket::new(alloc, b"GET / HTTP/1.1\r\n\r\n", 1_000);
    let mut party = Party::new(
        alloc,
        socket,
        Protocol::PageRequest(PageRequest::new(alloc)),
    );
    party.refuse(alloc)?;
    serve_browser(alloc, &mut party, &mut pads, stage.authors(), 2, 64)?;
    assert!(rt; party.stage() == Stage::Ends, "came {:?}", party.stage());
    let came = party.end(&mut pads).into_written();
    assert!(rt;
        came.starts_with(b"HTTP/1.1 503 Service Unavailable\r\n"),
        "came {}",
        came.escape_ascii()
    );
    Ok(())
}
