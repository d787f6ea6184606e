//! Actors in turn.
use crate::scan::stage::{Turn, are_told, open, open_more, open_with_room, runs_so};
use pad_model::Refusal;
use std::alloc::Global;
use std::process::Abort;
use std::test::Fail;

const HELLO: &str = r#"{"do":"hello","name":"ann","token":"t1"}"#;

const WELCOME: &str = r#"{"author":"ann@1","ok":true}"#;

const HELLO_ANN: Turn<'static> = (0, HELLO, WELCOME);

const HELLO_BOB: Turn<'static> = (
    1,
    r#"{"do":"hello","name":"bob","token":"t2"}"#,
    r#"{"author":"bob@1","ok":true}"#,
);

/// Two actors ask for the same name in a row of one cell; the first to move gets it. Then the row is full.
const RACE: &[Turn<'static>] = &[
    HELLO_ANN,
    HELLO_BOB,
    (0, r#"{"do":"create","pad":"x"}"#, "scanning"),
    (1, r#"{"do":"create","pad":"x"}"#, "scanning"),
    (0, "move", r#"{"now":0,"ok":true,"visit":1}"#),
    (1, "move", r#"{"code":301,"error":"PadExists","ok":false}"#),
    (1, r#"{"do":"create","pad":"y"}"#, "scanning"),
    (1, "move", r#"{"code":302,"error":"NoSlot","ok":false}"#),
    (
        1,
        r#"{"do":"vector","pad":"y"}"#,
        r#"{"code":404,"error":"NotPeer","ok":false}"#,
    ),
    (1, r#"{"do":"text","pad":"y"}"#, "scanning"),
    (1, "move", r#"{"code":300,"error":"NoPad","ok":false}"#),
    (0, "look 0", "x"),
];

/// A creation goes past another name, one cell at each move. Meanwhile nothing else is answered.
const STEPS: &[Turn<'static>] = &[
    HELLO_ANN,
    HELLO_BOB,
    (0, r#"{"do":"create","pad":"x"}"#, "scanning"),
    (0, "move", r#"{"now":0,"ok":true,"visit":1}"#),
    (1, r#"{"do":"create","pad":"y"}"#, "scanning"),
    (
        1,
        r#"{"do":"create","pad":"y"}"#,
        r#"{"code":203,"error":"Busy","ok":false}"#,
    ),
    (1, "look 1", r#"{"code":203,"error":"Busy","ok":false}"#),
    (1, "relay 2", r#"{"code":203,"error":"Busy","ok":false}"#),
    (0, "look 1", "no name"),
    (1, "move", "scanning"),
    (1, "move", r#"{"now":0,"ok":true,"visit":1}"#),
    (1, "move", "idle"),
    (0, "look 1", "y"),
    (1, "end", "scanning"),
    (1, "end", "scanning"),
    (1, "move", r#"{"ok":true}"#),
    (
        1,
        r#"{"do":"revs","pad":"y"}"#,
        r#"{"code":200,"error":"NoSession","ok":false}"#,
    ),
    (1, "relay 2", r#"{"ok":true,"replica":1,"version":2}"#),
    (
        1,
        "relay 2",
        r#"{"code":202,"error":"HaveSession","ok":false}"#,
    ),
    (1, "end", r#"{"ok":true}"#),
    (7, "move", "idle"),
];

/// Two authors and a peer on one pad, their scans in turn.
const STORY: &[Turn<'static>] = &[
    HELLO_ANN,
    HELLO_BOB,
    (
        2,
        r#"{"do":"peer","number":2,"token":"p2","version":2}"#,
        r#"{"ok":true,"replica":1,"version":2}"#,
    ),
    (0, r#"{"do":"create","pad":"news"}"#, "scanning"),
    (1, r#"{"do":"create","pad":"news"}"#, "scanning"),
    (0, "move", r#"{"now":0,"ok":true,"visit":1}"#),
    (1, "move", r#"{"code":301,"error":"PadExists","ok":false}"#),
    (
        0,
        r#"{"do":"insert","pad":"news","rev":0,"at":0,"text":"abc"}"#,
        "scanning",
    ),
    (2, r#"{"do":"vector","pad":"news"}"#, "scanning"),
    (2, "move", r#"{"now":0,"ok":true,"seen":[]}"#),
    (0, "move", r#"{"name":[1,1],"now":1,"ok":true}"#),
    (1, r#"{"do":"join","pad":"news"}"#, "scanning"),
    (
        0,
        r#"{"do":"grant","pad":"news","author":"bob","right":"write"}"#,
        "scanning",
    ),
    (1, "move", r#"{"code":312,"error":"Denied","ok":false}"#),
    (0, "move", r#"{"now":1,"ok":true}"#),
    (1, r#"{"do":"join","pad":"news"}"#, "scanning"),
    (1, "move", r#"{"now":1,"ok":true,"visit":2}"#),
    (
        2,
        r#"{"do":"push","pad":"news","op":{"author":"cyd","kind":"insert","name":[2,1],"seen":[[1,1]],"after":[3,1],"first":[4,2],"text":"!"}}"#,
        "scanning",
    ),
    (
        1,
        r#"{"do":"insert","pad":"news","rev":1,"at":1,"text":"X"}"#,
        "scanning",
    ),
    (
        2,
        "move",
        r#"{"dropped":0,"now":2,"ok":true,"released":0,"state":"delivered"}"#,
    ),
    (1, "move", r#"{"name":[1,2],"now":3,"ok":true}"#),
    (0, r#"{"do":"text","pad":"news"}"#, "scanning"),
    (0, "move", r#"{"now":3,"ok":true,"rev":3,"text":"aXbc!"}"#),
    (0, r#"{"do":"runs","pad":"news"}"#, "scanning"),
    (
        0,
        "move",
        r#"{"now":3,"ok":true,"rev":3,"runs":[["ann@1",1],["bob@1",1],["ann@1",2],["cyd@2",1]]}"#,
    ),
    (
        2,
        r#"{"do":"pull","pad":"news","seen":[[1,1],[2,1]],"max":4}"#,
        "scanning",
    ),
    (
        2,
        "move",
        r#"{"now":3,"ok":true,"ops":[{"after":[1,1],"author":"bob","first":[5,1],"kind":"insert","name":[1,2],"seen":[[2,1]],"text":"X"}]}"#,
    ),
    (1, r#"{"do":"create","pad":"minutes"}"#, "scanning"),
    (1, "move", "scanning"),
    (1, "end", "scanning"),
    (1, "move", r#"{"ok":true}"#),
    (0, r#"{"do":"who","pad":"news"}"#, "scanning"),
    (
        0,
        "move",
        r#"{"now":3,"ok":true,"who":[{"author":"ann@1","caret":0,"visit":1}]}"#,
    ),
    (0, "look 1", "no name"),
];

/// The number of pads that a server has room for, and the steps of its actors with their results.
const TABLES: &[(u32, &[Turn<'static>])] = &[(1, RACE), (3, STEPS), (2, STORY)];

fn are_told_by_new(
    rt: &impl Abort,
    alloc: Global,
    cells: u32,
    turns: &[Turn<'_>],
) -> Result<(), Fail> {
    let mut server = open(alloc, cells)?;
    are_told(rt, alloc, &mut server, turns)
}

#[test]
fn actors_in_turn(rt: HostRuntime) -> Result<(), Fail> {
    for (cells, turns) in TABLES {
        are_told_by_new(&rt, rt.alloc(), *cells, turns)?;
    }
    Ok(())
}

#[test]
fn limit_actors(rt: HostRuntime) -> Result<(), Fail> {
    let alloc = rt.alloc();
    let mut server = open(alloc, 1)?;
    open_more(alloc, &mut server, 1_021)?;
    let came = server.open(alloc);
    assert!(rt;
        came == Err(Refusal::ActorsFull),
        "wanted ActorsFull, came {came:?}"
    );
    Ok(())
}

/// Sessions go on under new accounts; log-ins need one of them.
const NEW_ACCOUNTS: &[Turn<'static>] = &[
    HELLO_ANN,
    (0, "author bob t9\npeer 3 p3 127.0.0.1:7403\n", "idle"),
    (0, r#"{"do":"create","pad":"x"}"#, "scanning"),
    (0, "move", r#"{"now":0,"ok":true,"visit":1}"#),
    (
        1,
        r#"{"do":"hello","name":"ann","token":"t1"}"#,
        r#"{"code":201,"error":"BadToken","ok":false}"#,
    ),
    (
        1,
        r#"{"do":"hello","name":"bob","token":"t2"}"#,
        r#"{"code":201,"error":"BadToken","ok":false}"#,
    ),
    (
        1,
        r#"{"do":"hello","name":"bob","token":"t9"}"#,
        r#"{"author":"bob@1","ok":true}"#,
    ),
    (
        2,
        r#"{"do":"peer","number":2,"token":"p2"}"#,
        r#"{"code":201,"error":"BadToken","ok":false}"#,
    ),
    (0, "end", "scanning"),
    (0, "move", r#"{"ok":true}"#),
    (
        0,
        r#"{"do":"hello","name":"ann","token":"t1"}"#,
        r#"{"code":201,"error":"BadToken","ok":false}"#,
    ),
];

#[test]
fn a_run_goes_on_under_new_accounts(rt: HostRuntime) -> Result<(), Fail> {
    let mut server = open(rt.alloc(), 1)?;
    runs_so(&rt, rt.alloc(), &mut server, NEW_ACCOUNTS)
}

const NOBODY_IS_TOLD: &str = r#"{"code":200,"error":"NoSession","ok":false}"#;

/// Display names are those of the present accounts, and only authors get them.
const DISPLAY_NAMES: &[Turn<'static>] = &[
    (0, r#"{"do":"people","authors":["ann"]}"#, NOBODY_IS_TOLD),
    HELLO_ANN,
    (
        0,
        r#"{"do":"people","authors":["ann"]}"#,
        r#"{"ok":true,"people":[]}"#,
    ),
    (
        0,
        "author ann t1\nperson ann - Ann E.\nperson cyd c Cyd\n",
        "idle",
    ),
    (
        0,
        r#"{"do":"people","authors":["cyd","bob","ann","ann@1","cyd"]}"#,
        r#"{"ok":true,"people":[{"author":"cyd","name":"Cyd"},{"author":"ann","name":"Ann E."},{"author":"cyd","name":"Cyd"}]}"#,
    ),
    (
        1,
        r#"{"do":"peer","number":2,"token":"p2"}"#,
        r#"{"code":201,"error":"BadToken","ok":false}"#,
    ),
    (1, r#"{"do":"people","authors":["ann"]}"#, NOBODY_IS_TOLD),
];

#[test]
fn display_names_are_told(rt: HostRuntime) -> Result<(), Fail> {
    let mut server = open(rt.alloc(), 1)?;
    runs_so(&rt, rt.alloc(), &mut server, DISPLAY_NAMES)
}

#[test]
fn a_run_tells_what_its_steps_do(rt: HostRuntime) -> Result<(), Fail> {
    let mut server = open(rt.alloc(), 1)?;
    runs_so(&rt, rt.alloc(), &mut server, RACE)
}

const CROWDED: &str = r#"{"code":313,"error":"Crowded","ok":false}"#;

/// Five sessions of ann, with at most three visits present on a pad: the owner's counts, and a place that becomes free
/// is given again. Another pad has its own limit.
const THREE_PRESENT: &[Turn<'static>] = &[
    HELLO_ANN,
    (1, HELLO, WELCOME),
    (2, HELLO, WELCOME),
    (3, HELLO, WELCOME),
    (4, HELLO, WELCOME),
    (0, r#"{"do":"create","pad":"x"}"#, "scanning"),
    (0, "move", r#"{"now":0,"ok":true,"visit":1}"#),
    (1, r#"{"do":"join","pad":"x"}"#, "scanning"),
    (1, "move", r#"{"now":0,"ok":true,"visit":2}"#),
    (2, r#"{"do":"join","pad":"x"}"#, "scanning"),
    (2, "move", r#"{"now":0,"ok":true,"visit":3}"#),
    (3, r#"{"do":"join","pad":"x"}"#, "scanning"),
    (3, "move", CROWDED),
    (1, r#"{"do":"leave","pad":"x"}"#, "scanning"),
    (1, "move", r#"{"now":0,"ok":true}"#),
    (3, r#"{"do":"join","pad":"x"}"#, "scanning"),
    (3, "move", r#"{"now":0,"ok":true,"visit":4}"#),
    (4, r#"{"do":"join","pad":"x"}"#, "scanning"),
    (4, "move", CROWDED),
    (4, r#"{"do":"create","pad":"y"}"#, "scanning"),
    (4, "move", "scanning"),
    (4, "move", r#"{"now":0,"ok":true,"visit":1}"#),
    (0, "end", "scanning"),
    (0, "move", r#"{"ok":true}"#),
    (4, r#"{"do":"join","pad":"x"}"#, "scanning"),
    (4, "move", r#"{"now":0,"ok":true,"visit":5}"#),
];

#[test]
fn limit_presence_of_three(rt: HostRuntime) -> Result<(), Fail> {
    let mut server = open_with_room(rt.alloc(), 3, 2)?;
    open_more(rt.alloc(), &mut server, 2)?;
    are_told(&rt, rt.alloc(), &mut server, THREE_PRESENT)
}
