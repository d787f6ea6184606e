//! Visits to the cells of a list, over one link.
use crate::stage::{text_of, typed_on};
use relay::{KnownVectors, PeerLines, Relayed, greet, visit_cells, visit_listed};
use std::alloc::Global;
use std::process::Abort;
use std::test::Fail;
use wire_lines::{Fault, Input, Output};

const GREETING: &str = concat!(r#"{"do":"peer","number":1,"token":"p2","version":2}"#, "\n");

const MET: &str = concat!(r#"{"ok":true,"replica":2,"version":2}"#, "\n");

const NO_OPS: &str = concat!(r#"{"now":0,"ok":true,"ops":[]}"#, "\n");

const NO_COUNTS: &str = concat!(r#"{"now":0,"ok":true,"seen":[]}"#, "\n");

const COUNTS: &str = concat!(r#"{"now":1,"ok":true,"seen":[[1,1]]}"#, "\n");

const DELIVERED: &str = concat!(
    r#"{"dropped":0,"now":1,"ok":true,"released":0,"state":"delivered"}"#,
    "\n"
);

// The four requests for a letter that ann typed on the pad `p17`, if nothing is kept of what the peer has.
const FOR_A_LETTER: &str = concat!(
    r#"{"batch":256,"do":"pull","max":4,"pad":"p17","seen":[[1,1]]}"#,
    "\n",
    r#"{"do":"vector","pad":"p17"}"#,
    "\n",
    r#"{"do":"push","op":{"after":null,"author":"ann","first":[1,1],"kind":"insert","name":[1,1],"seen":[],"text":"x"},"pad":"p17"}"#,
    "\n",
    r#"{"do":"vector","pad":"p17"}"#,
    "\n",
);

// The two requests for a pad on which nobody has typed.
const FOR_NOTHING: &str = concat!(
    r#"{"batch":256,"do":"pull","max":4,"pad":"p3","seen":[]}"#,
    "\n",
    r#"{"do":"vector","pad":"p3"}"#,
    "\n",
);

const NOTHING: Relayed = Relayed {
    pads: 0,
    pulled: 0,
    pushed: 0,
    refused: 0,
    unsaid: 0,
};

// The output of a server with twenty pads and a letter on `p17` after the greeting, and the end of each visit.
#[derive(Drop)]
struct Visited {
    output: Output,
    ended: Vec<Result<Relayed, Fault>>,
}

// Greets a peer that writes these lines, then visits one list after another.
fn visit_lists(alloc: Global, lists: &[&[u32]], peer: &[&str]) -> Result<Visited, Fail> {
    let mut text = String::new(alloc);
    text.push_str(MET)?;
    for line in peer {
        text.push_str(line)?;
    }
    let mut pads = typed_on(alloc, 20, 17, 1)?;
    let mut link = PeerLines::new(alloc, Input::new(text.as_bytes()), Output::new(alloc))?;
    let mut ended = Vec::new(alloc);
    let version = greet(alloc, &mut link, 1, "p2")?;
    for cells in lists {
        let known = KnownVectors::new(alloc);
        let visited = visit_listed(alloc, &mut pads, &mut link, version, cells, known);
        ended.push(visited.map(|done| done.relayed))?;
    }
    let (_input, output) = link.into_parts();
    Ok(Visited { output, ended })
}

// Asserts the lines that were written and the counts of each visit.
fn wrote(rt: &impl Abort, came: &Visited, lines: &str, counted: &[Relayed]) {
    let written = text_of(came.output.bytes());
    assert!(rt; written == lines, "wanted {lines}, came {written}");
    assert!(rt; came.ended.len() == counted.len());
    for (ended, wanted) in came.ended.iter().zip(counted) {
        assert!(rt; *ended == Ok(*wanted), "wanted {wanted:?}, came {ended:?}");
    }
}

fn after_greeting(alloc: Global, parts: &[&str]) -> Result<String, Fail> {
    let mut text = String::new(alloc);
    text.push_str(GREETING)?;
    for part in parts {
        text.push_str(part)?;
    }
    Ok(text)
}

#[test]
fn a_letter_on_one_of_many_pads_takes_four_requests(rt: HostRuntime) -> Result<(), Fail> {
    let peer = [NO_OPS, NO_COUNTS, DELIVERED, COUNTS];
    let came = visit_lists(rt.alloc(), &[&[17]], &peer)?;
    let wanted = after_greeting(rt.alloc(), &[FOR_A_LETTER])?;
    let relayed = Relayed {
        pads: 1,
        pushed: 1,
        ..NOTHING
    };
    wrote(&rt, &came, wanted.as_str(), &[relayed]);
    Ok(())
}

#[test]
fn several_visits_need_one_greeting(rt: HostRuntime) -> Result<(), Fail> {
    let peer = [NO_OPS, NO_COUNTS, DELIVERED, COUNTS, NO_OPS, NO_COUNTS];
    let came = visit_lists(rt.alloc(), &[&[17], &[3]], &peer)?;
    let wanted = after_greeting(rt.alloc(), &[FOR_A_LETTER, FOR_NOTHING])?;
    let first = Relayed {
        pads: 1,
        pushed: 1,
        ..NOTHING
    };
    let second = Relayed { pads: 1, ..NOTHING };
    wrote(&rt, &came, wanted.as_str(), &[first, second]);
    Ok(())
}

#[test]
fn a_list_is_visited_in_its_order(rt: HostRuntime) -> Result<(), Fail> {
    let peer = [NO_OPS, NO_COUNTS, NO_OPS, NO_COUNTS, DELIVERED, COUNTS];
    let came = visit_lists(rt.alloc(), &[&[3, 17]], &peer)?;
    let wanted = after_greeting(rt.alloc(), &[FOR_NOTHING, FOR_A_LETTER])?;
    let relayed = Relayed {
        pads: 2,
        pushed: 1,
        ..NOTHING
    };
    wrote(&rt, &came, wanted.as_str(), &[relayed]);
    Ok(())
}

// No cell can have the last number.
#[test]
fn without_a_cell_nothing_is_asked(rt: HostRuntime) -> Result<(), Fail> {
    let came = visit_lists(rt.alloc(), &[&[], &[20, 4_294_967_295]], &[])?;
    wrote(&rt, &came, GREETING, &[NOTHING, NOTHING]);
    Ok(())
}

#[test]
fn a_visit_to_all_cells_passes_none(rt: HostRuntime) -> Result<(), Fail> {
    let mut pads = typed_on(rt.alloc(), 3, 1, 0)?;
    let mut peer = String::new(rt.alloc());
    peer.push_str(MET)?;
    for _ in 0..3 {
        peer.push_str(NO_OPS)?;
        peer.push_str(NO_COUNTS)?;
    }
    let mut link = PeerLines::new(
        rt.alloc(),
        Input::new(peer.as_bytes()),
        Output::new(rt.alloc()),
    )?;
    let version = greet(rt.alloc(), &mut link, 1, "p2")?;
    let known = KnownVectors::new(rt.alloc());
    let done = visit_cells(rt.alloc(), &mut pads, &mut link, version, known)?;
    assert!(&rt; done.relayed == Relayed { pads: 3, ..NOTHING });
    Ok(())
}
