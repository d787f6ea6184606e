//! Lines of the greatest length, and one byte longer.
use crate::connection::{CREATE, CREATED, are_both, serve};
use crate::shown::text_of;
use std::alloc::Global;
use std::process::Abort;
use std::test::Fail;
use wire_lines::{Input, Output};

const REVS: &str = r#"{"do":"revs","pad":"p"}"#;

// The creation of a pad, then a request for its length followed by this many spaces, and then that request without
// them.
fn with_spaces(alloc: Global, spaces: usize) -> Result<Vec<u8>, Fail> {
    let mut lines = CREATE.as_bytes().to_vec(alloc)?;
    lines.extend_from_slice(REVS.as_bytes())?;
    let long = lines.len().saturating_add(spaces);
    lines.resize(long, b' ')?;
    lines.push(b'\n')?;
    lines.extend_from_slice(REVS.as_bytes())?;
    Ok(lines)
}

// Asserts that these bytes are answered with a new pad's visit, and then with this.
fn is_answered(rt: &impl Abort, alloc: Global, lines: &[u8], answer: &str) -> Result<(), Fail> {
    let mut reader = Input::new(lines);
    let mut writer = Output::new(alloc);
    let served = serve(alloc, &mut reader, &mut writer)?;
    assert!(rt; served.is_ok(), "came {served:?}");
    assert!(rt;
        are_both(writer.bytes(), CREATED, answer),
        "wanted {CREATED}{answer}, came {}",
        text_of(writer.bytes())
    );
    Ok(())
}

// A line that is too long is refused, and nothing after it is served.
#[test]
fn a_line_that_is_too_long(rt: HostRuntime) -> Result<(), Fail> {
    for (spaces, answer) in [
        (
            8_388_608 - REVS.len(),
            concat!(
                r#"{"cells":0,"length":0,"now":0,"ok":true}"#,
                "\n",
                r#"{"cells":0,"length":0,"now":0,"ok":true}"#,
                "\n"
            ),
        ),
        (
            8_388_609 - REVS.len(),
            concat!(r#"{"code":100,"error":"TooLong","ok":false}"#, "\n"),
        ),
    ] {
        let lines = with_spaces(rt.alloc(), spaces)?;
        is_answered(&rt, rt.alloc(), lines.as_slice(), answer)?;
    }
    Ok(())
}
