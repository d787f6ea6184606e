//! A line for each reply.
use crate::wire::samples::{Sample, reply_of};
use pad_core::Pushed;
use pad_model::{Refusal, Version};
use std::alloc::Global;
use std::process::Abort;
use std::test::Fail;
use wire_json::reply_line;

fn line_of(alloc: Global, sample: Sample) -> Result<String, Refusal> {
    reply_line(alloc, &reply_of(alloc, sample))
}

fn is_line(rt: &impl Abort, alloc: Global, sample: Sample, want: &str) -> Result<(), Refusal> {
    let came = line_of(alloc, sample)?;
    assert!(rt;
        came.as_str() == want,
        "{sample:?}: wanted {want}, came {came}"
    );
    Ok(())
}

fn are_lines(rt: &impl Abort, alloc: Global, lines: &[(Sample, &str)]) -> Result<(), Refusal> {
    for (sample, want) in lines {
        is_line(rt, alloc, *sample, want)?;
    }
    Ok(())
}

const SESSIONS: &[(Sample, &str)] = &[
    (
        Sample::Hello,
        concat!(r#"{"author":"ann@1","ok":true}"#, "\n"),
    ),
    (
        Sample::Peer(300, Version::Two),
        concat!(r#"{"ok":true,"replica":300,"version":2}"#, "\n"),
    ),
    (
        Sample::Peer(1, Version::One),
        concat!(r#"{"ok":true,"replica":1}"#, "\n"),
    ),
    (Sample::Ended, concat!(r#"{"ok":true}"#, "\n")),
    (
        Sample::Refused(Refusal::NotRequest),
        concat!(r#"{"code":102,"error":"NotRequest","ok":false}"#, "\n"),
    ),
    (
        Sample::Refused(Refusal::OldPeer),
        concat!(r#"{"code":405,"error":"OldPeer","ok":false}"#, "\n"),
    ),
    (
        Sample::Refused(Refusal::Memory),
        concat!(r#"{"code":900,"error":"Memory","ok":false}"#, "\n"),
    ),
];

#[test]
fn sessions_and_refusals_are_written(rt: HostRuntime) -> Result<(), Fail> {
    Ok(are_lines(&rt, rt.alloc(), SESSIONS)?)
}

const ACTS: &[(Sample, &str)] = &[
    (Sample::Elsewhere, concat!(r#"{"ok":true}"#, "\n")),
    (
        Sample::Joined,
        concat!(r#"{"now":0,"ok":true,"visit":1}"#, "\n"),
    ),
    (
        Sample::Rejoined(0),
        concat!(
            r#"{"last":null,"made":0,"now":4,"ok":true,"visit":3}"#,
            "\n"
        ),
    ),
    (
        Sample::Rejoined(5),
        concat!(
            r#"{"last":[1,2],"made":5,"now":4,"ok":true,"visit":3}"#,
            "\n"
        ),
    ),
    (
        Sample::Done,
        concat!(r#"{"now":18446744073709551615,"ok":true}"#, "\n"),
    ),
    (
        Sample::Made,
        concat!(r#"{"name":[1,2],"now":2,"ok":true}"#, "\n"),
    ),
    (
        Sample::Changed,
        concat!(r#"{"hidden":3,"name":[1,2],"now":2,"ok":true}"#, "\n"),
    ),
    (
        Sample::Revs,
        concat!(r#"{"cells":5,"length":4,"now":1,"ok":true}"#, "\n"),
    ),
    (
        Sample::Pushed(Pushed::Held, 0, 0),
        concat!(
            r#"{"dropped":0,"now":2,"ok":true,"released":0,"state":"held"}"#,
            "\n"
        ),
    ),
    (
        Sample::Pushed(Pushed::Delivered, 1, 7),
        concat!(
            r#"{"dropped":7,"now":2,"ok":true,"released":1,"state":"delivered"}"#,
            "\n"
        ),
    ),
    (
        Sample::Pushed(Pushed::Repeat, 0, 0),
        concat!(
            r#"{"dropped":0,"now":2,"ok":true,"released":0,"state":"repeat"}"#,
            "\n"
        ),
    ),
];

#[test]
fn acts_are_answered(rt: HostRuntime) -> Result<(), Fail> {
    Ok(are_lines(&rt, rt.alloc(), ACTS)?)
}

const ESCAPED: &str =
    "{\"now\":3,\"ok\":true,\"rev\":1,\"text\":\"he\\\"\\\\/\\n\\u0001\u{7f}\u{2028}😀\"}\n";

#[test]
fn texts_are_escaped(rt: HostRuntime) -> Result<(), Fail> {
    Ok(is_line(&rt, rt.alloc(), Sample::Text, ESCAPED)?)
}

const WITH_AUTHORS: &[(Sample, &str)] = &[
    (
        Sample::Runs,
        concat!(
            r#"{"now":2,"ok":true,"rev":2,"runs":[["bob@65535",3],["ann@1",2]]}"#,
            "\n"
        ),
    ),
    (
        Sample::Comments,
        concat!(
            r#"{"comments":[{"at":0,"author":"bob@65535","len":7,"name":[1,3],"resolved":false,"text":"c"}],"now":5,"ok":true,"rev":4}"#,
            "\n"
        ),
    ),
    (
        Sample::Who,
        concat!(
            r#"{"now":1,"ok":true,"who":[{"author":"ann@1","caret":2,"visit":1}]}"#,
            "\n"
        ),
    ),
];

#[test]
fn authors_are_shown_with_their_server(rt: HostRuntime) -> Result<(), Fail> {
    Ok(are_lines(&rt, rt.alloc(), WITH_AUTHORS)?)
}

const LISTS: &[(Sample, &str)] = &[
    (
        Sample::Pads,
        concat!(
            r#"{"ok":true,"pads":[["minutes","own",7],["p","read",0,"closed"]]}"#,
            "\n"
        ),
    ),
    (
        Sample::People,
        concat!(
            r#"{"ok":true,"people":[{"author":"ann","name":"Ann \"A\" Example"},{"author":"bob","name":"Ł😀"}]}"#,
            "\n"
        ),
    ),
    (
        Sample::Changes,
        concat!(
            r#"{"changes":[["keep",3],["drop",2],["insert","X😀","ann@1"]],"notes":2,"now":9,"ok":true,"rev":4,"to":7}"#,
            "\n"
        ),
    ),
    (
        Sample::Entries,
        concat!(
            r#"{"entries":[{"author":"ann@1","kind":"insert","name":[1,1],"rev":1},{"author":"bob@1","kind":"edit","name":[1,2],"rev":2}],"now":2,"ok":true}"#,
            "\n"
        ),
    ),
    (
        Sample::TimedEntries,
        concat!(
            r#"{"entries":[{"at":0,"author":"ann@1","kind":"insert","name":[1,1],"rev":1},{"at":1795879200000,"author":"bob@1","kind":"edit","name":[1,2],"rev":2}],"now":2,"ok":true}"#,
            "\n"
        ),
    ),
    (
        Sample::Birth,
        concat!(
            r#"{"at":1795873600000,"author":"bob@65535","now":130,"ok":true,"rev":37}"#,
            "\n"
        ),
    ),
    (
        Sample::Times,
        concat!(r#"{"now":2,"ok":true,"times":[0,1795879200000]}"#, "\n"),
    ),
    (
        Sample::RevsAt,
        concat!(r#"{"now":2,"ok":true,"revs":[2]}"#, "\n"),
    ),
    (
        Sample::Rights { closed: false },
        concat!(
            r#"{"now":2,"ok":true,"rights":[["ann","own"],["*","read"],["bob","comment"]]}"#,
            "\n"
        ),
    ),
    (
        Sample::Rights { closed: true },
        concat!(
            r#"{"closed":true,"now":2,"ok":true,"rights":[["ann","own"],["*","read"],["bob","comment"]]}"#,
            "\n"
        ),
    ),
    (
        Sample::Marks,
        concat!(
            r#"{"marks":[{"at":1795879200120,"author":"ann","rev":120,"text":"Approved on 9 December"},{"at":1795879200000,"author":"bob","rev":0,"text":"\"😀\n"}],"now":130,"ok":true}"#,
            "\n"
        ),
    ),
    (
        Sample::Vector,
        concat!(r#"{"now":2,"ok":true,"seen":[[1,2],[300,1]]}"#, "\n"),
    ),
    (
        Sample::Pulled,
        concat!(
            r#"{"now":2,"ok":true,"ops":[{"author":"ann","kind":"delete","name":[1,2],"seen":[],"spans":[[2,1,2]]}]}"#,
            "\n"
        ),
    ),
];

#[test]
fn lists_are_written(rt: HostRuntime) -> Result<(), Fail> {
    Ok(are_lines(&rt, rt.alloc(), LISTS)?)
}
