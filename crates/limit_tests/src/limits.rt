//! The limits of a pad that take many requests to reach, and the reply to one more.
use crate::limits::LimitCase::{Asks, ComeAndGo, Fill, JoinMore, Opens, Says, Taken, Types};
use pad_model::Refusal;
use std::alloc::Global;
use std::process::Abort;
use std::test::Fail;
use test_server::{ANN, PEER, TestServer, number_behind};

const JOIN: &str = r#"{"do":"join","pad":"p"}"#;

const LEAVE: &str = r#"{"do":"leave","pad":"p"}"#;

const COMMENT: &str = r#"{"do":"comment","pad":"p","rev":1,"at":1,"len":1,"text":"c"}"#;

const RESOLVE: &str = r#"{"do":"resolve","pad":"p","comment":[1,2]}"#;

/// The number of the refusal of a request; 0 if it is not refused.
fn code(rig: &mut TestServer, session: u32, line: &str) -> Result<u64, Refusal> {
    let reply = rig.say(session, line)?;
    Ok(number_behind(reply.as_str(), r#"{"code":"#).unwrap_or(0))
}

/// Returns the number of times that a request is taken before it is refused, at most `times`.
fn count_taken(rig: &mut TestServer, line: &str, times: u64) -> Result<u64, Refusal> {
    for taken in 0..times {
        if rig.refuses(ANN, line)? {
            return Ok(taken);
        }
    }
    Ok(times)
}

/// A server with `abc` by ann, and `z` by server 2 with the last counter.
fn with_last_counter(alloc: Global) -> Result<TestServer, Refusal> {
    let mut rig = TestServer::new(alloc, 1)?;
    type_last(&mut rig)?;
    Ok(rig)
}

fn type_last(rig: &mut TestServer) -> Result<(), Refusal> {
    rig.tell(
        ANN,
        r#"{"do":"insert","pad":"p","rev":0,"at":0,"text":"abc"}"#,
    )?;
    rig.tell(ANN, COMMENT)?;
    rig.tell(PEER, Z)
}

const Z: &str =
    r#"{"do":"push","pad":"p","op":{"name":[2,1],"seen":[],"author":"bob","kind":"insert","after":null,"first":[281474976710656,2],"text":"z"}}"#;

/// An act on a server, and the expected result.
#[derive(Clone, Copy, Debug)]
enum LimitCase {
    /// A session's request, and the number of its refusal; 0 if it is not refused.
    Asks(u32, &'static str, u64),
    /// A request of ann, how often it is made at most, and how often it is taken before it is refused.
    Taken(&'static str, u64, u64),
    /// A request of ann, and its reply.
    Says(&'static str, &'static str),
    /// Leaves and joins of ann, all of which are taken.
    ComeAndGo(u64),
    /// This many more sessions of ann, whose joins are taken.
    JoinMore(u64),
    /// One more session of ann, which gets this number.
    Opens(u32),
    /// This many times 10,000 characters, which are taken.
    Fill(u64),
    /// An operation of this number types characters from a counter on, and is taken.
    Types(u64, u64, u64),
}

/// On a pad with 10,000 comments, and then with 200,000 operations, 10,000 comments among them, and no counter left.
const COMMENTS_AND_OPERATIONS: &[LimitCase] = &[
    Taken(COMMENT, 20_000, 9_999),
    Asks(ANN, COMMENT, 328),
    Asks(
        PEER,
        r#"{"do":"push","pad":"p","op":{"name":[3,1],"seen":[],"author":"bob","kind":"comment","first":[1,1],"last":[2,1],"text":"n"}}"#,
        328,
    ),
    Asks(
        PEER,
        r#"{"do":"push","pad":"p","op":{"name":[3,1],"seen":[],"author":"bob","kind":"comment","first":[2,1],"last":[1,1],"text":"n"}}"#,
        403,
    ),
    Asks(ANN, RESOLVE, 0),
    Taken(RESOLVE, 300_000, 189_997),
    Asks(
        ANN,
        r#"{"do":"insert","pad":"p","rev":1,"at":0,"text":"x"}"#,
        325,
    ),
    Asks(
        ANN,
        r#"{"do":"delete","pad":"p","rev":1,"at":0,"len":1}"#,
        327,
    ),
    Asks(ANN, COMMENT, 327),
    Asks(ANN, RESOLVE, 327),
    Asks(ANN, r#"{"do":"resolve","pad":"p","comment":[1,1]}"#, 326),
    Asks(
        PEER,
        r#"{"do":"push","pad":"p","op":{"name":[3,1],"seen":[],"author":"bob","kind":"insert","after":null,"first":[1,3],"text":"x"}}"#,
        327,
    ),
    Asks(
        PEER,
        r#"{"do":"push","pad":"p","op":{"name":[3,1],"seen":[],"author":"bob","kind":"comment","first":[1,1],"last":[2,1],"text":"n"}}"#,
        327,
    ),
    Asks(
        PEER,
        r#"{"do":"push","pad":"p","op":{"name":[3,1],"seen":[],"author":"bob","kind":"resolve","comment":[1,1]}}"#,
        403,
    ),
    Asks(ANN, r#"{"do":"text","pad":"p","rev":200001}"#, 320),
    Asks(ANN, r#"{"do":"text","pad":"p","rev":200000}"#, 0),
    Says(
        r#"{"do":"text","pad":"p"}"#,
        concat!(
            r#"{"now":200000,"ok":true,"rev":200000,"text":"zabc"}"#,
            "\n"
        ),
    ),
];

#[test]
fn limits_of_comments_and_operations(rt: HostRuntime) -> Result<(), Fail> {
    let mut rig = with_last_counter(rt.alloc())?;
    Ok(play_all(&rt, rt.alloc(), &mut rig, COMMENTS_AND_OPERATIONS)?)
}

/// Leaves and joins, and returns how many joins were taken.
fn come_and_go(rig: &mut TestServer, times: u64) -> Result<u64, Refusal> {
    let mut taken = 0_u64;
    for _ in 0..times {
        rig.tell(ANN, LEAVE)?;
        if !rig.refuses(ANN, JOIN)? {
            taken = taken.saturating_add(1);
        }
    }
    Ok(taken)
}

/// Lets this many more sessions of ann join, and returns how many joins were taken.
fn join_more(rig: &mut TestServer, times: u64) -> Result<u64, Refusal> {
    let mut taken = 0_u64;
    for _ in 0..times {
        let session = rig.open_ann()?;
        if code(rig, session, JOIN)? == 0 {
            taken = taken.saturating_add(1);
        }
    }
    Ok(taken)
}

/// 64 sessions of ann join a million times in all, and then one more joins.
const VISITS: &[LimitCase] = &[
    ComeAndGo(999_936),
    JoinMore(63),
    Opens(65),
    Asks(65, JOIN, 313),
    Asks(ANN, LEAVE, 0),
    Asks(65, JOIN, 314),
];

#[test]
fn limit_visits(rt: HostRuntime) -> Result<(), Fail> {
    let mut rig = TestServer::new(rt.alloc(), 1)?;
    Ok(play_all(&rt, rt.alloc(), &mut rig, VISITS)?)
}

/// The push of an operation of server 2 that types this many characters at the start.
fn typing(alloc: Global, number: u64, first: u64, len: u64) -> Result<String, Refusal> {
    let mut line = format!(in alloc;
        r#"{{"do":"push","pad":"p","op":{{"name":[2,{number}],"seen":[],"author":"bob","kind":"insert","after":null,"first":[{first},2],"text":""#
    )?;
    add_letters(&mut line, len)?;
    Ok(line)
}

fn add_letters(line: &mut String, len: u64) -> Result<(), Refusal> {
    for _ in 0..len {
        line.push('x')?;
    }
    Ok(line.push_str(r#""}}"#)?)
}

/// Returns true if such an operation is taken.
fn types(
    alloc: Global,
    rig: &mut TestServer,
    number: u64,
    first: u64,
    len: u64,
) -> Result<bool, Refusal> {
    let line = typing(alloc, number, first, len)?;
    Ok(!rig.refuses(PEER, line.as_str())?)
}

/// Types 10,000 characters at a time, and returns how many times they were taken.
fn fill(alloc: Global, rig: &mut TestServer, times: u64) -> Result<u64, Refusal> {
    let mut first = 1_u64;
    for taken in 0..times {
        if !types(alloc, rig, taken.saturating_add(1), first, 10_000)? {
            return Ok(taken);
        }
        first = first.saturating_add(10_000);
    }
    Ok(times)
}

/// The last character that there is room for, with the last counter.
const LAST: &str =
    r#"{"do":"push","pad":"p","op":{"name":[3,1],"seen":[],"author":"bob","kind":"insert","after":null,"first":[281474976710656,3],"text":"z"}}"#;

/// On a pad with 4,000,000 characters and no counter left at the end.
const CHARACTERS: &[LimitCase] = &[
    Fill(399),
    Types(400, 3_990_001, 9_999),
    Asks(PEER, LAST, 0),
    Asks(
        ANN,
        r#"{"do":"insert","pad":"p","rev":1,"at":0,"text":"x"}"#,
        324,
    ),
    Asks(
        PEER,
        r#"{"do":"push","pad":"p","op":{"name":[4,1],"seen":[],"author":"bob","kind":"insert","after":null,"first":[1,4],"text":"x"}}"#,
        324,
    ),
    Asks(
        ANN,
        r#"{"do":"delete","pad":"p","rev":1,"at":0,"len":1}"#,
        0,
    ),
];

#[test]
fn limit_characters(rt: HostRuntime) -> Result<(), Fail> {
    let mut rig = TestServer::new(rt.alloc(), 1)?;
    Ok(play_all(&rt, rt.alloc(), &mut rig, CHARACTERS)?)
}

fn says(
    rt: &impl Abort,
    rig: &mut TestServer,
    place: usize,
    line: &str,
    want: &str,
) -> Result<(), Refusal> {
    let came = rig.say(ANN, line)?;
    assert!(rt;
        came.as_str() == want,
        "step {place}, {line}: wanted {want}, came {came}"
    );
    Ok(())
}

/// Makes a step, and asserts that it has the expected result.
fn play(
    rt: &impl Abort,
    alloc: Global,
    rig: &mut TestServer,
    place: usize,
    step: LimitCase,
) -> Result<(), Refusal> {
    let (came, want) = match step {
        Asks(session, line, want) => (code(rig, session, line)?, want),
        Taken(line, times, want) => (count_taken(rig, line, times)?, want),
        Says(line, want) => return says(rt, rig, place, line, want),
        ComeAndGo(times) => (come_and_go(rig, times)?, times),
        JoinMore(times) => (join_more(rig, times)?, times),
        Opens(want) => (u64::from(rig.open_ann()?), u64::from(want)),
        Fill(times) => (fill(alloc, rig, times)?, times),
        Types(number, first, len) => (u64::from(types(alloc, rig, number, first, len)?), 1),
    };
    assert!(rt;
        came == want,
        "step {place}, {step:?}: wanted {want}, came {came}"
    );
    Ok(())
}

fn play_all(
    rt: &impl Abort,
    alloc: Global,
    rig: &mut TestServer,
    steps: &[LimitCase],
) -> Result<(), Refusal> {
    for (place, step) in steps.iter().enumerate() {
        play(rt, alloc, rig, place, *step)?;
    }
    Ok(())
}
