//! Rounds that complete.
use crate::stage::{EDITS, TYPES, Talked, talk, text_of};
use relay::Relayed;
use std::alloc::Global;
use std::process::Abort;
use std::test::Fail;

const GREETING: &str = concat!(r#"{"do":"peer","number":1,"token":"p2","version":2}"#, "\n");

const VECTOR: &str = concat!(r#"{"do":"vector","pad":"p"}"#, "\n");

const PULL: &str = concat!(
    r#"{"batch":256,"do":"pull","max":4,"pad":"p","seen":[[1,1]]}"#,
    "\n"
);

const PUSH: &str = concat!(
    r#"{"do":"push","op":{"after":null,"author":"ann","first":[1,1],"kind":"insert","name":[1,1],"seen":[],"text":"one"},"pad":"p"}"#,
    "\n"
);

const MET: &str = concat!(r#"{"ok":true,"replica":2,"version":2}"#, "\n");

const MET_OLD: &str = concat!(r#"{"ok":true,"replica":2}"#, "\n");

const NO_OPS: &str = concat!(r#"{"now":0,"ok":true,"ops":[]}"#, "\n");

const NO_COUNTS: &str = concat!(r#"{"now":0,"ok":true,"seen":[]}"#, "\n");

const DELIVERED: &str = concat!(
    r#"{"dropped":0,"now":1,"ok":true,"released":0,"state":"delivered"}"#,
    "\n"
);

const COUNTS: &str = concat!(r#"{"now":1,"ok":true,"seen":[[1,1]]}"#, "\n");

const REFUSAL: &str = concat!(r#"{"code":300,"error":"NoPad","ok":false}"#, "\n");

// The reply of a peer with four operations by bob, of one character each.
const FOUR: &str = concat!(
    r#"{"now":4,"ok":true,"ops":[{"after":null,"author":"bob","first":[1,2],"kind":"insert","name":[2,1],"seen":[],"text":"t"},{"after":[1,2],"author":"bob","first":[2,2],"kind":"insert","name":[2,2],"seen":[],"text":"w"},{"after":[2,2],"author":"bob","first":[3,2],"kind":"insert","name":[2,3],"seen":[],"text":"o"},{"after":[3,2],"author":"bob","first":[4,2],"kind":"insert","name":[2,4],"seen":[],"text":"!"}]}"#,
    "\n"
);

const ALL_COUNTS: &str = concat!(r#"{"now":5,"ok":true,"seen":[[1,1],[2,4]]}"#, "\n");

const PULL_BEHIND_FOUR: &str = concat!(
    r#"{"batch":256,"do":"pull","max":4,"pad":"p","seen":[[1,1],[2,4]]}"#,
    "\n"
);
// The first stamp has another replica than the name, which every server refuses.
const FAULTY: &str = concat!(
    r#"{"now":1,"ok":true,"ops":[{"after":null,"author":"bob","first":[1,3],"kind":"insert","name":[2,1],"seen":[],"text":"t"}]}"#,
    "\n"
);

const NOTHING: Relayed = Relayed {
    pads: 0,
    pulled: 0,
    pushed: 0,
    refused: 0,
    unsaid: 0,
};

// Joins lines into one text.
fn joined(alloc: Global, lines: &[&str]) -> Result<String, Fail> {
    let mut text = String::new(alloc);
    for line in lines {
        text.push_str(line)?;
    }
    Ok(text)
}

// Asserts that a round wrote exactly these lines, and its counts.
fn wrote(
    rt: &impl Abort,
    alloc: Global,
    typed: &[&str],
    peer: &[&str],
    lines: &[&str],
    relayed: Relayed,
) -> Result<(), Fail> {
    let peer = joined(alloc, peer)?;
    let wanted = joined(alloc, lines)?;
    let Talked { output, ended } = talk(alloc, typed, peer.as_bytes())?;
    assert!(rt;
        output.bytes() == wanted.as_bytes(),
        "wanted {wanted}, came {}",
        text_of(output.bytes())
    );
    assert!(rt; ended == Ok(relayed), "wanted {relayed:?}, came {ended:?}");
    Ok(())
}

#[test]
fn what_the_peer_lacks_is_pushed(rt: HostRuntime) -> Result<(), Fail> {
    let peer = [MET, NO_OPS, NO_COUNTS, DELIVERED, COUNTS];
    let lines = [GREETING, PULL, VECTOR, PUSH, VECTOR];
    let relayed = Relayed {
        pads: 1,
        pushed: 1,
        ..NOTHING
    };
    wrote(&rt, rt.alloc(), &[TYPES], &peer, &lines, relayed)
}

#[test]
fn a_turn_without_a_delivery_is_the_last(rt: HostRuntime) -> Result<(), Fail> {
    let peer = [MET, FOUR, FOUR, ALL_COUNTS];
    let lines = [GREETING, PULL, PULL_BEHIND_FOUR, VECTOR];
    let relayed = Relayed {
        pads: 1,
        pulled: 4,
        ..NOTHING
    };
    wrote(&rt, rt.alloc(), &[TYPES], &peer, &lines, relayed)
}

#[test]
fn a_faulty_operation_is_counted_and_passed(rt: HostRuntime) -> Result<(), Fail> {
    let peer = [MET, FAULTY, COUNTS];
    let lines = [GREETING, PULL, VECTOR];
    let relayed = Relayed {
        pads: 1,
        refused: 1,
        ..NOTHING
    };
    wrote(&rt, rt.alloc(), &[TYPES], &peer, &lines, relayed)
}

#[test]
fn a_refused_pull_ends_the_part_of_the_pad(rt: HostRuntime) -> Result<(), Fail> {
    wrote(
        &rt,
        rt.alloc(),
        &[TYPES],
        &[MET, REFUSAL],
        &[GREETING, PULL],
        NOTHING,
    )
}

#[test]
fn a_refused_vector_ends_the_part_of_the_pad(rt: HostRuntime) -> Result<(), Fail> {
    let relayed = Relayed { pads: 1, ..NOTHING };
    let peer = [MET, NO_OPS, REFUSAL];
    wrote(
        &rt,
        rt.alloc(),
        &[TYPES],
        &peer,
        &[GREETING, PULL, VECTOR],
        relayed,
    )
}

#[test]
fn a_refused_push_is_counted(rt: HostRuntime) -> Result<(), Fail> {
    let relayed = Relayed {
        pads: 1,
        refused: 1,
        ..NOTHING
    };
    let peer = [MET, NO_OPS, NO_COUNTS, REFUSAL];
    let lines = [GREETING, PULL, VECTOR, PUSH];
    wrote(&rt, rt.alloc(), &[TYPES], &peer, &lines, relayed)
}

// An operation of two parts cannot be written in the first version.
#[test]
fn an_old_peer_gets_what_it_can_read(rt: HostRuntime) -> Result<(), Fail> {
    let seen = concat!(
        r#"{"batch":256,"do":"pull","max":4,"pad":"p","seen":[[1,2]]}"#,
        "\n"
    );
    let peer = [MET_OLD, NO_OPS, NO_COUNTS, DELIVERED];
    let lines = [GREETING, seen, VECTOR, PUSH];
    let relayed = Relayed {
        pads: 1,
        pushed: 1,
        unsaid: 1,
        ..NOTHING
    };
    wrote(&rt, rt.alloc(), &[TYPES, EDITS], &peer, &lines, relayed)
}
