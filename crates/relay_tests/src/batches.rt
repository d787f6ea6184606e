//! Batches of operations, from current and older peers and to them.
use crate::stage::{kinds_of, typed_on};
use relay::{KnownVectors, PeerLines, Relayed, greet, visit_cells};
use std::alloc::Global;
use std::process::Abort;
use std::test::Fail;
use wire_lines::{Input, Output};

const MET: &str = concat!(r#"{"ok":true,"replica":2,"version":2}"#, "\n");

const NO_COUNTS: &str = concat!(r#"{"now":0,"ok":true,"seen":[]}"#, "\n");

const DELIVERED: &str = concat!(
    r#"{"dropped":0,"now":1,"ok":true,"released":0,"state":"delivered"}"#,
    "\n"
);

const NOTHING: Relayed = Relayed {
    pads: 0,
    pulled: 0,
    pushed: 0,
    refused: 0,
    unsaid: 0,
};

// Adds a peer's reply with operations of one character each: those after number `from`, up to number `to`.
fn add_ops(alloc: Global, text: &mut String, from: u32, to: u32) -> Result<(), Fail> {
    text.push_str(r#"{"now":0,"ok":true,"ops":["#)?;
    for number in from..to {
        if from < number {
            text.push_str(",")?;
        }
        let parent = if number == 0 {
            format!(in alloc; "null")?
        } else {
            format!(in alloc; "[{number},2]")?
        };
        let next = number.saturating_add(1);
        let op = format!(in alloc;
            r#"{{"after":{parent},"author":"bob","first":[{next},2],"kind":"insert","name":[2,{next}],"seen":[],"text":"y"}}"#
        )?;
        text.push_str(op.as_str())?;
    }
    text.push_str("]}\n")?;
    Ok(())
}

// Adds the peer's version vector after `count` operations of one server.
fn add_counts(alloc: Global, text: &mut String, replica: u32, count: u32) -> Result<(), Fail> {
    let line = format!(in alloc; r#"{{"now":{count},"ok":true,"seen":[[{replica},{count}]]}}"#)?;
    text.push_str(line.as_str())?;
    text.push_str("\n")?;
    Ok(())
}

// Visits one pad, on which ann has typed a number of letters. Returns the requests that were written, as `kinds_of` does.
fn asked(
    rt: &impl Abort,
    alloc: Global,
    letters: u32,
    peer: &str,
    wanted: Relayed,
) -> Result<String, Fail> {
    let mut pads = typed_on(alloc, 1, 0, letters)?;
    let mut link = PeerLines::new(alloc, Input::new(peer.as_bytes()), Output::new(alloc))?;
    let version = greet(alloc, &mut link, 1, "p2")?;
    let known = KnownVectors::new(alloc);
    let relayed = visit_cells(alloc, &mut pads, &mut link, version, known)?.relayed;
    assert!(rt; relayed == wanted, "wanted {wanted:?}, came {relayed:?}");
    let (_input, output) = link.into_parts();
    kinds_of(alloc, output.bytes())
}

#[test]
fn a_peer_of_now_gives_256_at_once(rt: HostRuntime) -> Result<(), Fail> {
    let mut peer = String::new(rt.alloc());
    peer.push_str(MET)?;
    add_ops(rt.alloc(), &mut peer, 0, 256)?;
    add_ops(rt.alloc(), &mut peer, 256, 256)?;
    add_counts(rt.alloc(), &mut peer, 2, 256)?;
    let relayed = Relayed {
        pads: 1,
        pulled: 256,
        ..NOTHING
    };
    let kinds = asked(&rt, rt.alloc(), 0, peer.as_str(), relayed)?;
    assert!(&rt; kinds.as_str() == "gllv", "came {kinds}");
    Ok(())
}

// An older peer does not know the field `batch`.
#[test]
fn a_peer_of_before_gives_four_at_once(rt: HostRuntime) -> Result<(), Fail> {
    let mut peer = String::new(rt.alloc());
    peer.push_str(MET)?;
    add_ops(rt.alloc(), &mut peer, 0, 4)?;
    add_ops(rt.alloc(), &mut peer, 4, 8)?;
    add_ops(rt.alloc(), &mut peer, 8, 9)?;
    add_ops(rt.alloc(), &mut peer, 9, 9)?;
    add_counts(rt.alloc(), &mut peer, 2, 9)?;
    let relayed = Relayed {
        pads: 1,
        pulled: 9,
        ..NOTHING
    };
    let kinds = asked(&rt, rt.alloc(), 0, peer.as_str(), relayed)?;
    assert!(&rt; kinds.as_str() == "gllllv", "came {kinds}");
    Ok(())
}

#[test]
fn what_a_peer_lacks_is_pushed_256_at_once(rt: HostRuntime) -> Result<(), Fail> {
    let mut peer = String::new(rt.alloc());
    peer.push_str(MET)?;
    add_ops(rt.alloc(), &mut peer, 0, 0)?;
    peer.push_str(NO_COUNTS)?;
    let mut wanted = String::new(rt.alloc());
    wanted.push_str("glv")?;
    for _ in 0..256 {
        peer.push_str(DELIVERED)?;
        wanted.push_str("s")?;
    }
    add_counts(rt.alloc(), &mut peer, 1, 256)?;
    peer.push_str(DELIVERED)?;
    peer.push_str(DELIVERED)?;
    add_counts(rt.alloc(), &mut peer, 1, 258)?;
    wanted.push_str("vssv")?;
    let relayed = Relayed {
        pads: 1,
        pushed: 258,
        ..NOTHING
    };
    let kinds = asked(&rt, rt.alloc(), 258, peer.as_str(), relayed)?;
    assert!(&rt; kinds == wanted, "wanted {wanted}, came {kinds}");
    Ok(())
}
