//! Replies of a peer that end a round.
use crate::stage::{TYPES, Talked, talk, text_of};
use std::alloc::Global;
use std::process::Abort;
use std::test::Fail;
use wire_lines::Fault;

// All replies of a peer that takes the one operation of server 1.
const TALK: &str = concat!(
    r#"{"ok":true,"replica":2,"version":2}"#,
    "\n",
    r#"{"now":0,"ok":true,"ops":[]}"#,
    "\n",
    r#"{"now":0,"ok":true,"seen":[]}"#,
    "\n",
    r#"{"dropped":0,"now":1,"ok":true,"released":0,"state":"delivered"}"#,
    "\n",
    r#"{"now":1,"ok":true,"seen":[[1,1]]}"#,
    "\n",
);

// Returns the fault that ends a round with a peer that writes these bytes, if there is one.
fn ends(alloc: Global, peer: &[u8]) -> Result<Option<Fault>, Fail> {
    let Talked { ended, .. } = talk(alloc, &[TYPES], peer)?;
    Ok(match ended {
        Ok(_) => None,
        Err(fault) => Some(fault),
    })
}

// Asserts how a round with a peer that writes these bytes ends.
fn ends_so(rt: &impl Abort, alloc: Global, peer: &[u8], want: Option<Fault>) -> Result<(), Fail> {
    let came = ends(alloc, peer)?;
    assert!(rt;
        came == want,
        "{}: wanted {want:?}, came {came:?}",
        text_of(peer)
    );
    Ok(())
}

// The last line may lack its line feed.
#[test]
fn an_answer_that_is_cut_is_none(rt: HostRuntime) -> Result<(), Fail> {
    let talk = TALK.as_bytes();
    let whole = talk.len().saturating_sub(1);
    for count in 0..whole {
        ends_so(&rt, rt.alloc(), &talk[..count], Some(Fault::PeerReply))?;
    }
    ends_so(&rt, rt.alloc(), &talk[..whole], None)?;
    ends_so(&rt, rt.alloc(), talk, None)
}

#[test]
fn an_answer_of_another_form_is_none(rt: HostRuntime) -> Result<(), Fail> {
    let greetings = [
        "",
        "[]",
        r#"{"ok":true}"#,
        r#"{"ok":1,"replica":2}"#,
        r#"{"ok":true,"replica":0}"#,
        r#"{"ok":true,"replica":2,"version":3}"#,
        r#"{"ok":true,"replica":2,"version":null}"#,
        r#"{"code":201,"ok":false}"#,
    ];
    let alloc = rt.alloc();
    for greeting in greetings {
        let line = format!(in alloc; "{greeting}\n")?;
        ends_so(&rt, alloc, line.as_bytes(), Some(Fault::PeerReply))?;
    }
    Ok(())
}

#[test]
fn a_peer_that_refuses_the_greeting_ends_the_round(rt: HostRuntime) -> Result<(), Fail> {
    let refusal = concat!(r#"{"code":201,"error":"BadToken","ok":false}"#, "\n");
    ends_so(&rt, rt.alloc(), refusal.as_bytes(), Some(Fault::PeerReply))
}
