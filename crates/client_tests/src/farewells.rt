//! The farewell that a client gets once when it is no longer served.
use crate::memory_socket::MemorySocket;
use crate::stage::{PartyPads, browser_bytes, seated, serve_browser, write};
use event_loop::{Party, Protocol, Stage, Transfer};
use std::process::Abort;
use std::test::Fail;
use web_wire::PageRequest;

#[test]
fn a_client_of_lines_is_told_once_that_memory_ran_out(rt: HostRuntime) -> Result<(), Fail> {
    let alloc = rt.alloc();
    let stage = PartyPads::new(&rt, alloc)?;
    let table = stage.table(&rt);
    let mut pads = seated(alloc, &table)?;
    let socket = MemorySocket::new(alloc, b"", 1_000);
    let mut party = Party::new(alloc, socket, Protocol::Lines);
    party.tell_of_memory();
    party.tell_of_memory();
    write(&mut party)?;
    assert!(rt; party.stage() == Stage::Over, "came {:?}", party.stage());
    let came = party.end(&mut pads).into_written();
    let wanted = "{\"code\":900,\"error\":\"Memory\",\"ok\":false}\n";
    assert!(rt;
        came.as_slice() == wanted.as_bytes(),
        "came {}",
        came.escape_ascii()
    );
    Ok(())
}

#[test]
fn a_client_that_is_owed_a_reply_is_told_nothing(rt: HostRuntime) -> Result<(), Fail> {
    let alloc = rt.alloc();
    let stage = PartyPads::new(&rt, alloc)?;
    let table = stage.table(&rt);
    let mut pads = seated(alloc, &table)?;
    let socket = MemorySocket::new(alloc, b"no JSON\n", 1_000);
    let mut party = Party::new(alloc, socket, Protocol::Lines);
    let mut chunk = [0u8; 64];
    let read = party.read(&mut chunk);
    assert!(rt;
        read.is_ok_and(|passed| passed == Transfer::Passed),
        "nothing was read"
    );
    let _answered = party.answer(alloc, &mut pads, 1)?;
    party.tell_of_memory();
    write(&mut party)?;
    let came = party.end(&mut pads).into_written();
    assert!(rt; came.is_empty(), "came {}", came.escape_ascii());
    Ok(())
}

#[test]
fn a_socket_is_closed_once_with_1001(rt: HostRuntime) -> Result<(), Fail> {
    let alloc = rt.alloc();
    let stage = PartyPads::new(&rt, alloc)?;
    let table = stage.table(&rt);
    let mut pads = seated(alloc, &table)?;
    let bytes = browser_bytes(alloc)?;
    let socket = MemorySocket::new(alloc, bytes.as_slice(), 1_000);
    let mut party = Party::new(
        alloc,
        socket,
        Protocol::PageRequest(PageRequest::new(alloc)),
    );
    serve_browser(alloc, &mut party, &mut pads, stage.authors(), 2, 1_000)?;
    party.say_goodbye();
    party.say_goodbye();
    write(&mut party)?;
    let came = party.end(&mut pads).into_written();
    // A close frame with the code 1001 (RFC 6455, sections 5.5.1 and 7.4.1), after the response.
    assert!(rt;
        came.ends_with(b"\r\n\r\n\x88\x02\x03\xE9"),
        "came {}",
        came.escape_ascii()
    );
    Ok(())
}
