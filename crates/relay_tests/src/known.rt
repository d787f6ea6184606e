//! What a peer is known to have of a pad is not asked again.
use crate::stage::{kinds_of, text_of, type_another, typed_on};
use relay::{KnownVectors, PeerLines, greet, visit_cells};
use std::alloc::Global;
use std::process::Abort;
use std::test::Fail;
use wire_lines::{Input, Output};

const MET: &str = concat!(r#"{"ok":true,"replica":2,"version":2}"#, "\n");

const NO_OPS: &str = concat!(r#"{"now":0,"ok":true,"ops":[]}"#, "\n");

const NO_COUNTS: &str = concat!(r#"{"now":0,"ok":true,"seen":[]}"#, "\n");

const DELIVERED: &str = concat!(
    r#"{"dropped":0,"now":1,"ok":true,"released":0,"state":"delivered"}"#,
    "\n"
);

const REPEAT: &str = concat!(
    r#"{"dropped":0,"now":1,"ok":true,"released":0,"state":"repeat"}"#,
    "\n"
);

const HELD: &str = concat!(
    r#"{"dropped":0,"now":0,"ok":true,"released":0,"state":"held"}"#,
    "\n"
);

const REFUSED: &str = concat!(r#"{"code":300,"error":"NoPad","ok":false}"#, "\n");

const SECOND_LETTER: &str = concat!(
    r#"{"do":"push","op":{"after":null,"author":"ann","first":[2,1],"kind":"insert","name":[1,2],"seen":[],"text":"x"},"pad":"p0"}"#,
    "\n"
);

// Greets a peer that writes these lines, visits the pad `p0`, on which ann has typed a letter, and visits it once more
// after a second letter. Returns the lines that were written.
fn visit_twice(alloc: Global, peer: &[&str], pads_known: usize) -> Result<Output, Fail> {
    let mut text = String::new(alloc);
    text.push_str(MET)?;
    for line in peer {
        text.push_str(line)?;
    }
    let mut pads = typed_on(alloc, 1, 0, 1)?;
    let mut link = PeerLines::new(alloc, Input::new(text.as_bytes()), Output::new(alloc))?;
    let version = greet(alloc, &mut link, 1, "p2")?;
    let known = KnownVectors::of_pads(alloc, pads_known)?;
    let first = visit_cells(alloc, &mut pads, &mut link, version, known)?;
    type_another(alloc, &mut pads, 1)?;
    let _second = visit_cells(alloc, &mut pads, &mut link, version, first.known)?;
    let (_input, output) = link.into_parts();
    Ok(output)
}

// Asserts the kinds of the requests of both visits.
fn wrote(
    rt: &impl Abort,
    alloc: Global,
    peer: &[&str],
    pads_known: usize,
    wanted: &str,
) -> Result<(), Fail> {
    let output = visit_twice(alloc, peer, pads_known)?;
    let kinds = kinds_of(alloc, output.bytes())?;
    assert!(rt; kinds.as_str() == wanted, "wanted {wanted}, came {kinds}");
    Ok(())
}

#[test]
fn a_further_letter_is_one_request(rt: HostRuntime) -> Result<(), Fail> {
    let peer = [NO_OPS, NO_COUNTS, DELIVERED, DELIVERED];
    let output = visit_twice(rt.alloc(), &peer, 1)?;
    let kinds = kinds_of(rt.alloc(), output.bytes())?;
    assert!(&rt; kinds.as_str() == "glvss", "wanted glvss, came {kinds}");
    let written = text_of(output.bytes());
    assert!(&rt; written.ends_with(SECOND_LETTER), "came {written}");
    Ok(())
}

// The peer got it from another server before.
#[test]
fn what_a_peer_had_before_is_known_too(rt: HostRuntime) -> Result<(), Fail> {
    let peer = [NO_OPS, NO_COUNTS, REPEAT, REPEAT];
    wrote(&rt, rt.alloc(), &peer, 1, "glvss")
}

// A peer that holds an operation back may drop it.
#[test]
fn after_an_operation_is_held_the_peer_is_asked(rt: HostRuntime) -> Result<(), Fail> {
    let peer = [
        NO_OPS, NO_COUNTS, HELD, NO_OPS, NO_COUNTS, DELIVERED, DELIVERED,
    ];
    wrote(&rt, rt.alloc(), &peer, 1, "glvslvss")
}

#[test]
fn after_a_refused_push_the_peer_is_asked(rt: HostRuntime) -> Result<(), Fail> {
    let peer = [
        NO_OPS, NO_COUNTS, REFUSED, NO_OPS, NO_COUNTS, DELIVERED, DELIVERED,
    ];
    wrote(&rt, rt.alloc(), &peer, 1, "glvslvss")
}

#[test]
fn after_a_refused_pull_the_peer_is_asked(rt: HostRuntime) -> Result<(), Fail> {
    let peer = [REFUSED, NO_OPS, NO_COUNTS, DELIVERED, DELIVERED];
    wrote(&rt, rt.alloc(), &peer, 1, "gllvss")
}

// A table of no pads keeps nothing, so each visit asks.
#[test]
fn without_a_table_each_visit_asks(rt: HostRuntime) -> Result<(), Fail> {
    let counts = concat!(r#"{"now":1,"ok":true,"seen":[[1,1]]}"#, "\n");
    let both = concat!(r#"{"now":2,"ok":true,"seen":[[1,2]]}"#, "\n");
    let peer = [
        NO_OPS, NO_COUNTS, DELIVERED, counts, NO_OPS, counts, DELIVERED, both,
    ];
    wrote(&rt, rt.alloc(), &peer, 0, "glvsvlvsv")
}
