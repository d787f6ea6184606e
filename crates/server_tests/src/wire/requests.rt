//! A line for each request, and texts and lists in them.
use pad_core::{Act, Request};
use pad_model::{Name, Seen};
use std::alloc::{AllocError, Global};
use std::process::Abort;
use std::test::Fail;
use wire_json::{pull_line, read_request};

const REQUESTS: &[(&str, &str)] = &[
    (
        r#"{"do":"hello","name":"ann","token":"t1"}"#,
        r#"Hello { name: Name { text: "ann" }, token: Word { text: "t1" } }"#,
    ),
    (
        r#"{"do":"guest","token":"k3Zt0Qm8vJx2bN5wYcR7Ag.9hUe_Lr4TqP-d6XoVs1KzA"}"#,
        r#"Hello { name: Name { text: "guest-duu243qz3z64xpavd3owwngasz" }, token: Word { text: "k3Zt0Qm8vJx2bN5wYcR7Ag.9hUe_Lr4TqP-d6XoVs1KzA" } }"#,
    ),
    (
        r#"{"do":"guest","name":"ann","token":"AAAAAAAAAAAAAAAAAAAAA_.AAAAAAAAAAAAAAAAAAAAA_"}"#,
        r#"Hello { name: Name { text: "guest-ry5zwiel42qny4emxg5kvte73n" }, token: Word { text: "AAAAAAAAAAAAAAAAAAAAA_.AAAAAAAAAAAAAAAAAAAAA_" } }"#,
    ),
    (
        r#"{"do":"peer","number":2,"token":"p2"}"#,
        r#"Peer { number: 2, token: Word { text: "p2" }, version: One }"#,
    ),
    (
        r#"{"do":"peer","number":65536,"token":"","version":2}"#,
        r#"Peer { number: 65536, token: Word { text: "" }, version: Two }"#,
    ),
    (
        r#"{"do":"peer","number":1,"token":"p","version":null}"#,
        r#"Peer { number: 1, token: Word { text: "p" }, version: One }"#,
    ),
    (
        r#"{"do":"create","pad":"p"}"#,
        r#"Create { pad: Name { text: "p" } }"#,
    ),
    (
        r#"{"do":"create","pad":"P"}"#,
        r#"Create { pad: Name { text: "P" } }"#,
    ),
    (r#"{"do":"pads"}"#, "Pads"),
    (
        r#"{"do":"people","authors":["ann",""]}"#,
        r#"People { names: Items { items: [Name { text: "ann" }, Name { text: "" }] } }"#,
    ),
    (
        r#"{"do":"join","pad":"p"}"#,
        r#"On { pad: Name { text: "p" }, act: Join }"#,
    ),
    (
        r#"{"do":"join","pad":"p","instead":null}"#,
        r#"On { pad: Name { text: "p" }, act: Join }"#,
    ),
    (
        r#"{"do":"join","pad":"p","instead":17}"#,
        r#"On { pad: Name { text: "p" }, act: Rejoin { old: 17 } }"#,
    ),
    (
        r#"{"do":"leave","pad":"p"}"#,
        r#"On { pad: Name { text: "p" }, act: Leave }"#,
    ),
    (
        r#"{"do":"insert","pad":"p","rev":0,"at":1,"text":"a"}"#,
        r#"On { pad: Name { text: "p" }, act: Insert { rev: 0, at: 1, text: Text { characters: ['a'] } } }"#,
    ),
    (
        r#"{"do":"delete","pad":"p","rev":1,"at":2,"len":3}"#,
        r#"On { pad: Name { text: "p" }, act: Delete { rev: 1, at: 2, len: 3 } }"#,
    ),
    (
        r#"{"do":"edit","pad":"p","rev":1,"parts":[{"at":1,"len":3},{"at":4,"text":"e"}]}"#,
        r#"On { pad: Name { text: "p" }, act: Edit { rev: 1, changes: Items { items: [Delete { at: 1, len: 3 }, Insert { at: 4, text: Text { characters: ['e'] } }] } } }"#,
    ),
    (
        r#"{"do":"edit","pad":"p","rev":1,"parts":[]}"#,
        r#"On { pad: Name { text: "p" }, act: Edit { rev: 1, changes: Items { items: [] } } }"#,
    ),
    (
        r#"{"do":"text","pad":"p"}"#,
        r#"On { pad: Name { text: "p" }, act: Text { rev: None } }"#,
    ),
    (
        r#"{"do":"text","pad":"p","x":[]}"#,
        r#"On { pad: Name { text: "p" }, act: Text { rev: None } }"#,
    ),
    (
        r#"{"do":"text","pad":"p","rev":null}"#,
        r#"On { pad: Name { text: "p" }, act: Text { rev: None } }"#,
    ),
    (
        r#"{"do":"text","pad":"p","rev":18446744073709551615}"#,
        r#"On { pad: Name { text: "p" }, act: Text { rev: Some(18446744073709551615) } }"#,
    ),
    (
        r#"{"do":"runs","pad":"p","rev":2}"#,
        r#"On { pad: Name { text: "p" }, act: Runs { rev: Some(2) } }"#,
    ),
    (
        r#"{"do":"comment","pad":"p","rev":1,"at":0,"len":5,"text":"c"}"#,
        r#"On { pad: Name { text: "p" }, act: Comment { rev: 1, at: 0, len: 5, text: Text { characters: ['c'] } } }"#,
    ),
    (
        r#"{"do":"resolve","pad":"p","comment":[1,3]}"#,
        r#"On { pad: Name { text: "p" }, act: Resolve { comment: OpName { origin: 1, number: 3 } } }"#,
    ),
    (
        r#"{"do":"comments","pad":"p"}"#,
        r#"On { pad: Name { text: "p" }, act: Comments { rev: None } }"#,
    ),
    (
        r#"{"do":"changes","pad":"p","rev":1}"#,
        r#"On { pad: Name { text: "p" }, act: Changes { rev: 1, to: None, wait: 0 } }"#,
    ),
    (
        r#"{"do":"changes","pad":"p","rev":1,"to":4,"wait":61}"#,
        r#"On { pad: Name { text: "p" }, act: Changes { rev: 1, to: Some(4), wait: 61 } }"#,
    ),
    (
        r#"{"do":"changes","pad":"p","rev":0,"to":null,"wait":null}"#,
        r#"On { pad: Name { text: "p" }, act: Changes { rev: 0, to: None, wait: 0 } }"#,
    ),
    (
        r#"{"do":"revs","pad":"p"}"#,
        r#"On { pad: Name { text: "p" }, act: Revs }"#,
    ),
    (
        r#"{"do":"times","pad":"p","from":1,"step":2,"count":3}"#,
        r#"On { pad: Name { text: "p" }, act: Times { from: 1, step: 2, count: 3 } }"#,
    ),
    (
        r#"{"do":"times","pad":"p","at":[5,0],"from":1}"#,
        r#"On { pad: Name { text: "p" }, act: RevsAt { moments: Items { items: [5, 0] } } }"#,
    ),
    (
        r#"{"do":"entries","pad":"p","from":1,"count":101}"#,
        r#"On { pad: Name { text: "p" }, act: Entries { from: 1, count: 101, times: false } }"#,
    ),
    (
        r#"{"do":"entries","pad":"p","from":1,"count":2,"times":true}"#,
        r#"On { pad: Name { text: "p" }, act: Entries { from: 1, count: 2, times: true } }"#,
    ),
    (
        r#"{"do":"entries","pad":"p","from":1,"count":2,"times":null}"#,
        r#"On { pad: Name { text: "p" }, act: Entries { from: 1, count: 2, times: false } }"#,
    ),
    (
        r#"{"do":"birth","pad":"p","rev":120,"at":57}"#,
        r#"On { pad: Name { text: "p" }, act: Birth { rev: 120, at: 57 } }"#,
    ),
    (
        r#"{"do":"caret","pad":"p","rev":1,"at":2}"#,
        r#"On { pad: Name { text: "p" }, act: Caret { rev: 1, at: 2 } }"#,
    ),
    (
        r#"{"do":"who","pad":"p"}"#,
        r#"On { pad: Name { text: "p" }, act: Who }"#,
    ),
    (
        r#"{"do":"grant","pad":"p","author":"bob","right":"own"}"#,
        r#"On { pad: Name { text: "p" }, act: Grant { grantee: Author(Name { text: "bob" }), right: Some(Own) } }"#,
    ),
    (
        r#"{"do":"grant","pad":"p","author":"","right":"none"}"#,
        r#"On { pad: Name { text: "p" }, act: Grant { grantee: Author(Name { text: "" }), right: None } }"#,
    ),
    (
        r#"{"do":"grant","pad":"p","author":"*","right":"write"}"#,
        r#"On { pad: Name { text: "p" }, act: Grant { grantee: Everyone, right: Some(Write) } }"#,
    ),
    (
        r#"{"do":"invite","pad":"p","secret":"k3Zt0Qm8vJx2bN5wYcR7Ag","right":"write"}"#,
        r#"On { pad: Name { text: "p" }, act: Grant { grantee: Author(Name { text: "guest-duu243qz3z64x" }), right: Some(Write) } }"#,
    ),
    (
        r#"{"do":"invite","pad":"p","secret":"AAAAAAAAAAAAAAAAAAAAA_","author":"*","right":"comment"}"#,
        r#"On { pad: Name { text: "p" }, act: Grant { grantee: Author(Name { text: "guest-ry5zwiel42qny" }), right: Some(Comment) } }"#,
    ),
    (
        r#"{"do":"invite","pad":"p","secret":"9hUe_Lr4TqP-d6XoVs1KzA","right":"read"}"#,
        r#"On { pad: Name { text: "p" }, act: Grant { grantee: Author(Name { text: "guest-foxqwecc42qgd" }), right: Some(Read) } }"#,
    ),
    (
        r#"{"do":"hand","pad":"p","author":"bob"}"#,
        r#"On { pad: Name { text: "p" }, act: Hand { author: Name { text: "bob" } } }"#,
    ),
    (
        r#"{"do":"rights","pad":"p"}"#,
        r#"On { pad: Name { text: "p" }, act: Rights }"#,
    ),
    (
        r#"{"do":"close","pad":"p"}"#,
        r#"On { pad: Name { text: "p" }, act: SetClosed { closed: true } }"#,
    ),
    (
        r#"{"do":"reopen","pad":"p"}"#,
        r#"On { pad: Name { text: "p" }, act: SetClosed { closed: false } }"#,
    ),
    (
        r#"{"do":"mark","pad":"p","rev":120,"text":"Ok"}"#,
        r#"On { pad: Name { text: "p" }, act: Mark { rev: 120, text: Text { characters: ['O', 'k'] } } }"#,
    ),
    (
        r#"{"do":"mark","pad":"p","rev":0,"text":""}"#,
        r#"On { pad: Name { text: "p" }, act: Mark { rev: 0, text: Text { characters: [] } } }"#,
    ),
    (
        r#"{"do":"marks","pad":"p"}"#,
        r#"On { pad: Name { text: "p" }, act: Marks }"#,
    ),
    (
        r#"{"do":"vector","pad":"p"}"#,
        r#"On { pad: Name { text: "p" }, act: Vector }"#,
    ),
    (
        r#"{"do":"pull","pad":"p","seen":[],"max":4}"#,
        r#"On { pad: Name { text: "p" }, act: Pull { seen: Seen { pairs: [] }, max: 4, batch: None } }"#,
    ),
    (
        r#"{"do":"pull","pad":"p","seen":[],"max":4,"batch":1}"#,
        r#"On { pad: Name { text: "p" }, act: Pull { seen: Seen { pairs: [] }, max: 4, batch: Some(1) } }"#,
    ),
    (
        r#"{"do":"pull","pad":"p","seen":[],"max":0,"batch":256}"#,
        r#"On { pad: Name { text: "p" }, act: Pull { seen: Seen { pairs: [] }, max: 0, batch: Some(256) } }"#,
    ),
    (
        r#"{"do":"pull","pad":"p","seen":[[1,1],[65535,18446744073709551615]],"max":0}"#,
        r#"On { pad: Name { text: "p" }, act: Pull { seen: Seen { pairs: [Counted { origin: 1, count: 1 }, Counted { origin: 65535, count: 18446744073709551615 }] }, max: 0, batch: None } }"#,
    ),
    (
        r#"{"d\u006f":"text","pad":"\u0070","do":"revs"}"#,
        r#"On { pad: Name { text: "p" }, act: Revs }"#,
    ),
    (
        " {\"do\" :\t\"create\", \"pad\":\"x\",\"pad\":\"p\"}\r",
        r#"Create { pad: Name { text: "p" } }"#,
    ),
];

/// The reading of a line: its request in `{:?}` form, or the number of its refusal.
fn shown(alloc: Global, line: &[u8]) -> Result<String, AllocError> {
    match read_request(alloc, line) {
        Ok(request) => format!(in alloc; "{request:?}"),
        Err(refusal) => format!(in alloc; "{}", refusal.code()),
    }
}

fn shows(rt: &impl Abort, alloc: Global, line: &str, want: &str) -> Result<(), AllocError> {
    let came = shown(alloc, line.as_bytes())?;
    assert!(rt; came.as_str() == want, "{line}: wanted {want}, came {came}");
    Ok(())
}

#[test]
fn requests_are_read(rt: HostRuntime) -> Result<(), Fail> {
    for (line, want) in REQUESTS {
        shows(&rt, rt.alloc(), line, want)?;
    }
    Ok(())
}

/// The text that a line inserts; empty if it is not an insertion.
fn text_of(alloc: Global, line: &[u8]) -> Result<String, AllocError> {
    match &read_request(alloc, line) {
        Ok(
            Request::On {
                act: Act::Insert { text, .. },
                ..
            },
        ) => text.to_string(alloc),
        _ => Ok(String::new(alloc)),
    }
}

/// The line that inserts a text.
fn insertion(alloc: Global, written: &[u8]) -> Result<Vec<u8>, AllocError> {
    let mut line = Vec::new(alloc);
    line.extend_from_slice(br#"{"do":"insert","pad":"p","rev":0,"at":0,"text":""#)?;
    line.extend_from_slice(written)?;
    line.extend_from_slice(br#""}"#)?;
    Ok(line)
}

/// Texts in their written form, and their meaning.
const TEXTS: &[(&[u8], &str)] = &[
    (b"\\u0000\\uffff\\n\\/", "\u{0}\u{ffff}\n/"),
    (b"\\ud83d\\ude00", "\u{1f600}"),
    (b"\xF0\x9F\x98\x80\x7F", "\u{1f600}\u{7f}"),
    (b"\\\"\\\\\\b\\f\\r\\t", "\"\\\u{8}\u{c}\r\t"),
];

/// Asserts that a line inserts these characters.
fn inserts(rt: &impl Abort, alloc: Global, line: &[u8], want: &str) -> Result<(), AllocError> {
    let came = text_of(alloc, line)?;
    assert!(rt;
        came.as_str() == want,
        "{}: wanted {want:?}, came {came:?}",
        line.escape_ascii()
    );
    Ok(())
}

/// Asserts that these characters are inserted if they are written so.
fn is_written(
    rt: &impl Abort,
    alloc: Global,
    written: &[u8],
    want: &str,
) -> Result<(), AllocError> {
    let line = insertion(alloc, written)?;
    inserts(rt, alloc, line.as_slice(), want)
}

#[test]
fn texts_hold_any_character(rt: HostRuntime) -> Result<(), Fail> {
    for (written, want) in TEXTS {
        is_written(&rt, rt.alloc(), written, want)?;
    }
    Ok(())
}

/// A creation with this many nested lists beside its pad.
fn nested(alloc: Global, depth: u32) -> Result<String, AllocError> {
    let mut line = String::from_str(alloc, r#"{"do":"create","pad":"p","x":"#)?;
    for bracket in ['[', ']'] {
        for _ in 0..depth {
            line.push(bracket)?;
        }
    }
    line.push('}')?;
    Ok(line)
}

const NESTED: &[(u32, &str)] = &[(126, r#"Create { pad: Name { text: "p" } }"#), (127, "101")];

fn shows_nested(rt: &impl Abort, alloc: Global, depth: u32, want: &str) -> Result<(), AllocError> {
    let line = nested(alloc, depth)?;
    shows(rt, alloc, line.as_str(), want)
}

#[test]
fn lists_nest_127_deep(rt: HostRuntime) -> Result<(), Fail> {
    for (depth, want) in NESTED {
        shows_nested(&rt, rt.alloc(), *depth, want)?;
    }
    Ok(())
}

/// The batch that a server asks a peer for, and its line.
const PULLS: &[(Option<u64>, &str)] = &[
    (
        None,
        concat!(r#"{"do":"pull","max":4,"pad":"p","seen":[]}"#, "\n"),
    ),
    (
        Some(256),
        concat!(
            r#"{"batch":256,"do":"pull","max":4,"pad":"p","seen":[]}"#,
            "\n"
        ),
    ),
];

fn asks(rt: &impl Abort, alloc: Global, batch: Option<u64>, want: &str) -> Result<(), AllocError> {
    let pad = Name::from_str(alloc, "p")?;
    let came = pull_line(alloc, &pad, &Seen::new(alloc), 4, batch)?;
    assert!(rt;
        came.as_str() == want,
        "{batch:?}: wanted {want}, came {came}"
    );
    Ok(())
}

#[test]
fn pulls_are_asked_for(rt: HostRuntime) -> Result<(), Fail> {
    for (batch, want) in PULLS {
        asks(&rt, rt.alloc(), *batch, want)?;
    }
    Ok(())
}
