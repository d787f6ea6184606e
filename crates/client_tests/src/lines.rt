//! A client that speaks lines, in pieces of each size.
use crate::memory_socket::MemorySocket;
use crate::stage::{PartyPads, seated, serve_lines};
use event_loop::{Party, Protocol};
use std::process::Abort;
use std::test::Fail;

const STORY: &str = concat!(
    r#"{"do":"hello","name":"a1","token":"t"}"#,
    "\n",
    r#"{"do":"create","pad":"one"}"#,
    "\r\n\n",
    "no JSON\n",
    r#"{"do":"insert","pad":"one","rev":0,"at":0,"text":"x"}"#,
    "\n",
    r#"{"do":"text","pad":"one"}"#,
);

const REPLIES: &str = concat!(
    r#"{"author":"a1@1","ok":true}"#,
    "\n",
    r#"{"now":0,"ok":true,"visit":1}"#,
    "\n",
    r#"{"code":101,"error":"NotJson","ok":false}"#,
    "\n",
    r#"{"name":[1,1],"now":1,"ok":true}"#,
    "\n",
    r#"{"now":1,"ok":true,"rev":1,"text":"x"}"#,
    "\n",
);

#[test]
fn a_story_is_answered_in_pieces_of_each_size(rt: HostRuntime) -> Result<(), Fail> {
    let alloc = rt.alloc();
    for read in 1..=STORY.len() {
        for taken in [1, 2, 7, 1_000] {
            let stage = PartyPads::new(&rt, alloc)?;
            let table = stage.table(&rt);
            let mut pads = seated(alloc, &table)?;
            let socket = MemorySocket::new(alloc, STORY.as_bytes(), taken);
            let mut party = Party::new(alloc, socket, Protocol::Lines);
            serve_lines(alloc, &mut party, &mut pads, read)?;
            let came = party.end(&mut pads).into_written();
            assert!(rt;
                came.as_slice() == REPLIES.as_bytes(),
                "read {read} bytes and wrote {taken} at a time: came {}",
                came.escape_ascii()
            );
        }
    }
    Ok(())
}

#[test]
fn two_clients_of_one_thread_keep_their_sessions(rt: HostRuntime) -> Result<(), Fail> {
    let alloc = rt.alloc();
    let stage = PartyPads::new(&rt, alloc)?;
    let table = stage.table(&rt);
    let mut pads = seated(alloc, &table)?;
    let socket = MemorySocket::new(alloc, STORY.as_bytes(), 1_000);
    let mut first = Party::new(alloc, socket, Protocol::Lines);
    let other = concat!(
        r#"{"do":"hello","name":"a2","token":"t"}"#,
        "\n",
        r#"{"do":"text","pad":"one"}"#,
        "\n",
    );
    let socket = MemorySocket::new(alloc, other.as_bytes(), 1_000);
    let mut second = Party::new(alloc, socket, Protocol::Lines);
    serve_lines(alloc, &mut first, &mut pads, 1)?;
    serve_lines(alloc, &mut second, &mut pads, 1)?;
    let came = first.end(&mut pads).into_written();
    assert!(rt;
        came.as_slice() == REPLIES.as_bytes(),
        "came {}",
        came.escape_ascii()
    );
    let refused = concat!(
        r#"{"author":"a2@1","ok":true}"#,
        "\n",
        r#"{"code":310,"error":"NotJoined","ok":false}"#,
        "\n",
    );
    let came = second.end(&mut pads).into_written();
    assert!(rt;
        came.as_slice() == refused.as_bytes(),
        "came {}",
        came.escape_ascii()
    );
    Ok(())
}

#[test]
fn a_client_that_has_ended_leaves_its_pads(rt: HostRuntime) -> Result<(), Fail> {
    let alloc = rt.alloc();
    let stage = PartyPads::new(&rt, alloc)?;
    let table = stage.table(&rt);
    let mut pads = seated(alloc, &table)?;
    let socket = MemorySocket::new(alloc, STORY.as_bytes(), 1_000);
    let mut first = Party::new(alloc, socket, Protocol::Lines);
    serve_lines(alloc, &mut first, &mut pads, 64)?;
    let _closed = first.end(&mut pads);
    let asked = concat!(
        r#"{"do":"hello","name":"a1","token":"t"}"#,
        "\n",
        r#"{"do":"join","pad":"one"}"#,
        "\n",
        r#"{"do":"who","pad":"one"}"#,
        "\n",
    );
    let socket = MemorySocket::new(alloc, asked.as_bytes(), 1_000);
    let mut second = Party::new(alloc, socket, Protocol::Lines);
    serve_lines(alloc, &mut second, &mut pads, 64)?;
    let came = second.end(&mut pads).into_written();
    let here = concat!(
        r#"{"author":"a1@1","ok":true}"#,
        "\n",
        r#"{"now":1,"ok":true,"visit":2}"#,
        "\n",
        r#"{"now":1,"ok":true,"who":[{"author":"a1@1","caret":0,"visit":2}]}"#,
        "\n",
    );
    assert!(rt;
        came.as_slice() == here.as_bytes(),
        "came {}",
        came.escape_ascii()
    );
    Ok(())
}
