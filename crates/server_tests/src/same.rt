//! Two servers whose pads read alike.
use pad_model::Refusal;
use std::process::Abort;
use test_server::{ANN, TestServer};

/// Readings of the present revision.
const READINGS: &[&str] = &[
    r#"{"do":"text","pad":"p"}"#,
    r#"{"do":"runs","pad":"p"}"#,
    r#"{"do":"comments","pad":"p"}"#,
    r#"{"do":"revs","pad":"p"}"#,
];

/// They are the same on two servers.
pub fn are_all_same(
    rt: &impl Abort,
    one: &mut TestServer,
    two: &mut TestServer,
) -> Result<(), Refusal> {
    for line in READINGS {
        are_same(rt, one, two, line)?;
    }
    Ok(())
}

fn are_same(
    rt: &impl Abort,
    one: &mut TestServer,
    two: &mut TestServer,
    line: &str,
) -> Result<(), Refusal> {
    let first = one.say(ANN, line)?;
    let second = two.say(ANN, line)?;
    assert!(rt;
        first.as_str() == second.as_str(),
        "{line}: came {first} and {second}"
    );
    Ok(())
}
