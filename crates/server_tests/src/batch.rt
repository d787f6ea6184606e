//! Pulls of a pad with many operations: how many of them one answer holds.
use pad_model::Refusal;
use std::alloc::Global;
use std::process::Abort;
use std::test::Fail;
use test_server::{ANN, PEER, TestServer, is_refusal, ops_in};

/// The most bytes of an answer: 1 MiB of operations, and the bytes around them.
const MOST: usize = 1_048_576 + 64;

/// The fields of a pull, and how many operations it returns, of 300 with one character each.
const SHORT: &[(&str, usize)] = &[
    (r#""seen":[],"max":4"#, 4),
    (r#""seen":[],"max":1"#, 1),
    (r#""seen":[[1,298]],"max":4"#, 2),
    (r#""seen":[],"max":4,"batch":1"#, 1),
    (r#""seen":[],"max":4,"batch":3"#, 3),
    (r#""seen":[],"max":1,"batch":5"#, 5),
    (r#""seen":[],"max":4,"batch":256"#, 256),
    (r#""seen":[[1,256]],"max":4,"batch":256"#, 44),
    (r#""seen":[[1,299]],"max":4,"batch":256"#, 1),
    (r#""seen":[[1,300]],"max":4,"batch":256"#, 0),
];

/// The same, of 20 with 10,000 characters each. One counts as 60,256 bytes: 17 are less than 1 MiB, 18 are more.
const LONG: &[(&str, usize)] = &[
    (r#""seen":[],"max":4"#, 4),
    (r#""seen":[],"max":4,"batch":16"#, 16),
    (r#""seen":[],"max":4,"batch":17"#, 17),
    (r#""seen":[],"max":4,"batch":18"#, 17),
    (r#""seen":[],"max":4,"batch":256"#, 17),
    (r#""seen":[[1,3]],"max":4,"batch":256"#, 17),
    (r#""seen":[[1,4]],"max":4,"batch":256"#, 16),
    (r#""seen":[[1,19]],"max":4,"batch":256"#, 1),
    (r#""seen":[[1,20]],"max":4,"batch":256"#, 0),
];

/// The same, of 20 by ann and 20 by another server, in turn.
const TURNS: &[(&str, usize)] = &[
    (r#""seen":[[2,20]],"max":4,"batch":256"#, 20),
    (r#""seen":[[1,20]],"max":4,"batch":256"#, 20),
    (r#""seen":[[1,5],[2,7]],"max":4"#, 4),
    (r#""seen":[[1,5],[2,7]],"max":4,"batch":10"#, 10),
    (r#""seen":[[1,5],[2,7]],"max":4,"batch":256"#, 28),
    (r#""seen":[[1,20],[2,19]],"max":4,"batch":256"#, 1),
    (r#""seen":[[1,20],[2,20]],"max":4,"batch":256"#, 0),
];

/// Ann inserts a text at the beginning of a revision.
fn type_text(alloc: Global, rig: &mut TestServer, rev: u64, text: &str) -> Result<(), Refusal> {
    let line = format!(in alloc;
        r#"{{"do":"insert","pad":"p","rev":{rev},"at":0,"text":"{text}"}}"#
    )?;
    rig.tell(ANN, line.as_str())
}

/// A server on whose pad ann has inserted a text this many times.
fn typed(alloc: Global, text: &str, times: u64) -> Result<TestServer, Refusal> {
    let mut rig = TestServer::new(alloc, 1)?;
    for rev in 0..times {
        type_text(alloc, &mut rig, rev, text)?;
    }
    Ok(rig)
}

/// The peer pushes the next operation of server 2, which inserts one character.
fn push_next(alloc: Global, rig: &mut TestServer, number: u64) -> Result<(), Refusal> {
    let line = format!(in alloc;
        r#"{{"do":"push","pad":"p","op":{{"author":"bob","kind":"insert","name":[2,{number}],"seen":[],"after":null,"first":[{number},2],"text":"b"}}}}"#
    )?;
    rig.tell(PEER, line.as_str())
}

/// A server on whose pad ann and server 2 have inserted a character in turn, this many times.
fn typed_in_turn(alloc: Global, times: u64) -> Result<TestServer, Refusal> {
    let mut rig = TestServer::new(alloc, 1)?;
    for done in 0..times {
        type_text(alloc, &mut rig, 0, "a")?;
        push_next(alloc, &mut rig, done.saturating_add(1))?;
    }
    Ok(rig)
}

/// The answer to a pull with these fields.
fn pulled(alloc: Global, rig: &mut TestServer, fields: &str) -> Result<String, Refusal> {
    let line = format!(in alloc; r#"{{"do":"pull","pad":"p",{fields}}}"#)?;
    rig.say(PEER, line.as_str())
}

/// Asserts that a pull with these fields is answered with this many operations.
fn gives(
    rt: &impl Abort,
    alloc: Global,
    rig: &mut TestServer,
    fields: &str,
    want: usize,
) -> Result<(), Refusal> {
    let reply = pulled(alloc, rig, fields)?;
    let came = ops_in(alloc, reply.as_str())?.len();
    let bytes = reply.len();
    assert!(rt; !is_refusal(reply.as_str()), "{fields}: refused");
    assert!(rt;
        came == want,
        "{fields}: wanted {want} operations, came {came}"
    );
    assert!(rt;
        bytes <= MOST,
        "{fields}: wanted {MOST} bytes at most, came {bytes}"
    );
    Ok(())
}

fn all_give(
    rt: &impl Abort,
    alloc: Global,
    mut rig: TestServer,
    pulls: &[(&str, usize)],
) -> Result<(), Refusal> {
    for (fields, want) in pulls {
        gives(rt, alloc, &mut rig, fields, *want)?;
    }
    Ok(())
}

#[test]
fn a_batch_has_as_many_as_it_asks_for(rt: HostRuntime) -> Result<(), Fail> {
    let rig = typed(rt.alloc(), "a", 300)?;
    all_give(&rt, rt.alloc(), rig, SHORT)?;
    Ok(())
}

#[test]
fn a_batch_has_as_many_as_fit(rt: HostRuntime) -> Result<(), Fail> {
    let mut text = String::new(rt.alloc());
    for _ in 0..10_000 {
        text.push_str("\\u0001")?;
    }
    let rig = typed(rt.alloc(), text.as_str(), 20)?;
    all_give(&rt, rt.alloc(), rig, LONG)?;
    Ok(())
}

#[test]
fn a_batch_passes_over_what_the_peer_has(rt: HostRuntime) -> Result<(), Fail> {
    let rig = typed_in_turn(rt.alloc(), 20)?;
    all_give(&rt, rt.alloc(), rig, TURNS)?;
    Ok(())
}
