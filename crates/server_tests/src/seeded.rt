//! Two servers whose authors act on all revisions, and which exchange operations from time to time.
use crate::choice::Choice;
use crate::expected::{comments_line, runs_line, text_line};
use crate::plain_page::PlainPage;
use crate::same::are_all_same;
use dice::Dice;
use pad_model::Refusal;
use std::alloc::Global;
use std::process::Abort;
use std::test::Fail;
use test_server::{
    ANN, PEER, TestServer, between, is_refusal, number_behind, op_of, ops_in, text_len,
};

const EVENTS: u64 = 2_000;

/// The number of events of each kind that made an operation, of those that were refused, and of characters that were
/// erased.
#[derive(Clone, Copy, Debug, Default)]
struct EventShares {
    typed: u64,
    erased: u64,
    edited: u64,
    noted: u64,
    resolved: u64,
    refused: u64,
    hidden: u64,
}

impl EventShares {
    fn count(&mut self, choice: Choice, reply: &str) {
        let share = match choice {
            _ if is_refusal(reply) => &mut self.refused,
            Choice::Type => &mut self.typed,
            Choice::Erase => &mut self.erased,
            Choice::Edit => &mut self.edited,
            Choice::Note => &mut self.noted,
            Choice::Resolve => &mut self.resolved,
        };
        *share = share.saturating_add(1);
        let hidden = number_behind(reply, r#""hidden":"#).unwrap_or(0);
        self.hidden = self.hidden.saturating_add(hidden);
    }

    fn are_many(&self) -> bool {
        self.typed >= 500
            && self.erased >= 300
            && self.edited >= 150
            && self.noted >= 200
            && self.resolved >= 200
            && self.refused >= 20
            && self.hidden >= 400
    }
}

/// The reply to a reading of a revision.
fn read(alloc: Global, rig: &mut TestServer, what: &str, rev: u64) -> Result<String, Refusal> {
    let line = format!(in alloc; r#"{{"do":"{what}","pad":"p","rev":{rev}}}"#)?;
    rig.say(ANN, line.as_str())
}

/// Asserts that a reading of a revision is answered so.
fn reads(
    rt: &impl Abort,
    alloc: Global,
    rig: &mut TestServer,
    what: &str,
    rev: u64,
    want: &str,
) -> Result<(), Refusal> {
    let came = read(alloc, rig, what, rev)?;
    assert!(rt;
        came.as_str() == want,
        "{what} of {rev}: wanted {want}, came {came}"
    );
    Ok(())
}

/// The number of characters of a revision.
fn length_at(alloc: Global, rig: &mut TestServer, rev: u64) -> Result<u64, Refusal> {
    let reply = read(alloc, rig, "text", rev)?;
    Ok(text_len(reply.as_str()))
}

fn revision(rig: &mut TestServer) -> Result<u64, Refusal> {
    let reply = rig.say(ANN, r#"{"do":"revs","pad":"p"}"#)?;
    Ok(number_behind(reply.as_str(), r#""now":"#).unwrap_or(0))
}

/// Makes one event on a server, at any of its revisions.
fn happen(
    alloc: Global,
    rig: &mut TestServer,
    dice: &mut Dice,
    noted: &mut Vec<String>,
    shares: &mut EventShares,
) -> Result<(), Refusal> {
    let now = revision(rig)?;
    let rev = dice.roll(now.saturating_add(1));
    let length = length_at(alloc, rig, rev)?;
    let choice = Choice::pick(dice);
    let place = dice.roll(noted.len() as u64) as usize;
    let comment = one_of(noted.as_slice(), place);
    let line = choice.line(alloc, dice, rev, length, comment)?;
    act(alloc, rig, choice, line.as_str(), noted, shares)
}

fn act(
    alloc: Global,
    rig: &mut TestServer,
    choice: Choice,
    line: &str,
    noted: &mut Vec<String>,
    shares: &mut EventShares,
) -> Result<(), Refusal> {
    let reply = rig.say(ANN, line)?;
    shares.count(choice, reply.as_str());
    if choice == Choice::Note {
        keep_name(alloc, reply.as_str(), noted)?;
    }
    Ok(())
}

/// The name of the comment at an index; if there is none, a name that no comment has.
fn one_of(noted: &[String], place: usize) -> &str {
    match noted.get(place) {
        Some(name) => name.as_str(),
        None => "[1,1]",
    }
}

fn keep_name(alloc: Global, reply: &str, noted: &mut Vec<String>) -> Result<(), Refusal> {
    if let Some(name) = between(reply, r#""name":"#, r#","now""#) {
        noted.push(String::from_str(alloc, name)?)?;
    }
    Ok(())
}

/// The next operations that a server with this vector lacks of another one, each as JSON.
fn lacking(alloc: Global, from: &mut TestServer, seen: &str) -> Result<Vec<String>, Refusal> {
    let line = format!(in alloc; r#"{{"do":"pull","pad":"p","seen":{seen},"max":4}}"#)?;
    let reply = from.say(PEER, line.as_str())?;
    ops_in(alloc, reply.as_str())
}

/// The version vector of a server, as JSON.
fn vector(alloc: Global, rig: &mut TestServer) -> Result<String, Refusal> {
    let reply = rig.say(PEER, r#"{"do":"vector","pad":"p"}"#)?;
    let seen = between(reply.as_str(), r#""seen":"#, "}").unwrap_or("[]");
    Ok(String::from_str(alloc, seen)?)
}

/// Pushes to a server the operations that it lacks of another one. Returns true if there were any.
fn hear_some(alloc: Global, rig: &mut TestServer, other: &mut TestServer) -> Result<bool, Refusal> {
    let seen = vector(alloc, rig)?;
    let ops = lacking(alloc, other, seen.as_str())?;
    push_all(alloc, rig, ops.as_slice())?;
    Ok(!ops.is_empty())
}

fn push_all(alloc: Global, rig: &mut TestServer, ops: &[String]) -> Result<(), Refusal> {
    for op in ops {
        push(alloc, rig, op.as_str())?;
    }
    Ok(())
}

fn push(alloc: Global, rig: &mut TestServer, op: &str) -> Result<(), Refusal> {
    let line = format!(in alloc; r#"{{"do":"push","pad":"p","op":{op}}}"#)?;
    rig.tell(PEER, line.as_str())
}

fn hear(alloc: Global, rig: &mut TestServer, other: &mut TestServer) -> Result<(), Refusal> {
    for _ in 0..EVENTS {
        if !hear_some(alloc, rig, other)? {
            break;
        }
    }
    Ok(())
}

fn exchange(alloc: Global, one: &mut TestServer, two: &mut TestServer) -> Result<(), Refusal> {
    hear(alloc, one, two)?;
    hear(alloc, two, one)
}

/// All operations of a server in order of delivery, each as JSON.
fn log_of(alloc: Global, rig: &mut TestServer) -> Result<Vec<String>, Refusal> {
    let mut log: Vec<String> = Vec::new(alloc);
    let mut counts = [0_u64; 2];
    for _ in 0..EVENTS {
        if !add_next(alloc, rig, &mut log, &mut counts)? {
            break;
        }
    }
    Ok(log)
}

/// Adds the next operations after those that are counted. Returns whether there were any.
fn add_next(
    alloc: Global,
    rig: &mut TestServer,
    log: &mut Vec<String>,
    counts: &mut [u64; 2],
) -> Result<bool, Refusal> {
    let before = log.len();
    let seen = seen_text(alloc, *counts)?;
    for op in lacking(alloc, rig, seen.as_str())? {
        count(op.as_str(), counts);
        log.push(op)?;
    }
    Ok(log.len() > before)
}

/// Counts one more operation of its server.
fn count(op: &str, counts: &mut [u64; 2]) {
    match number_behind(op, r#""name":["#) {
        Some(1) => counts[0] = counts[0].saturating_add(1),
        _ => counts[1] = counts[1].saturating_add(1),
    }
}

/// The vector with these counts of the servers 1 and 2, as JSON.
fn seen_text(alloc: Global, counts: [u64; 2]) -> Result<String, Refusal> {
    let [one, two] = counts;
    Ok(match (one, two) {
        (0, 0) => String::from_str(alloc, "[]")?,
        (0, _) => format!(in alloc; "[[2,{two}]]")?,
        (_, 0) => format!(in alloc; "[[1,{one}]]")?,
        (_, _) => format!(in alloc; "[[1,{one}],[2,{two}]]")?,
    })
}

/// Asserts that a revision reads as a page that took its operations: text, runs and, at each hundredth revision,
/// comments.
fn agrees(
    rt: &impl Abort,
    alloc: Global,
    rig: &mut TestServer,
    page: &PlainPage,
    now: u64,
    rev: u64,
) -> Result<(), Refusal> {
    text_agrees(rt, alloc, rig, page, now, rev)?;
    runs_agree(rt, alloc, rig, page, now, rev)?;
    if rev == now || rev % 100 == 0 {
        comments_agree(rt, alloc, rig, page, now, rev)?;
    }
    Ok(())
}

fn text_agrees(
    rt: &impl Abort,
    alloc: Global,
    rig: &mut TestServer,
    page: &PlainPage,
    now: u64,
    rev: u64,
) -> Result<(), Refusal> {
    let want = text_line(alloc, page, now, rev)?;
    reads(rt, alloc, rig, "text", rev, want.as_str())
}

fn runs_agree(
    rt: &impl Abort,
    alloc: Global,
    rig: &mut TestServer,
    page: &PlainPage,
    now: u64,
    rev: u64,
) -> Result<(), Refusal> {
    let want = runs_line(alloc, page, now, rev)?;
    reads(rt, alloc, rig, "runs", rev, want.as_str())
}

fn comments_agree(
    rt: &impl Abort,
    alloc: Global,
    rig: &mut TestServer,
    page: &PlainPage,
    now: u64,
    rev: u64,
) -> Result<(), Refusal> {
    let want = comments_line(alloc, page, now, rev)?;
    reads(rt, alloc, rig, "comments", rev, want.as_str())
}

/// Asserts that each revision of a server, from 1 on, reads as a page that took the log up to there. Returns the number
/// of revisions.
fn count_agreeing(rt: &impl Abort, alloc: Global, rig: &mut TestServer) -> Result<u64, Refusal> {
    let log = log_of(alloc, rig)?;
    count_agreeing_with(rt, alloc, rig, log.as_slice())
}

fn count_agreeing_with(
    rt: &impl Abort,
    alloc: Global,
    rig: &mut TestServer,
    log: &[String],
) -> Result<u64, Refusal> {
    let now = revision(rig)?;
    let mut page = PlainPage::new(alloc);
    let mut rev = 0_u64;
    for op in log {
        take(alloc, &mut page, op.as_str())?;
        rev = rev.saturating_add(1);
        agrees(rt, alloc, rig, &page, now, rev)?;
    }
    Ok(rev)
}

fn take(alloc: Global, page: &mut PlainPage, text: &str) -> Result<(), Refusal> {
    let op = op_of(alloc, text)?;
    page.take(&op)
}

/// Makes all events, on one server or the other.
fn play(alloc: Global, one: &mut TestServer, two: &mut TestServer) -> Result<EventShares, Refusal> {
    let mut dice = Dice::new(11);
    let mut noted = Vec::new(alloc);
    let mut shares = EventShares::default();
    for _ in 0..EVENTS {
        happen_somewhere(alloc, one, two, &mut dice, &mut noted, &mut shares)?;
    }
    Ok(shares)
}

/// Makes one event on one server or the other, which may then exchange operations.
fn happen_somewhere(
    alloc: Global,
    one: &mut TestServer,
    two: &mut TestServer,
    dice: &mut Dice,
    noted: &mut Vec<String>,
    shares: &mut EventShares,
) -> Result<(), Refusal> {
    match dice.roll(2) {
        0 => happen(alloc, one, dice, noted, shares)?,
        _ => happen(alloc, two, dice, noted, shares)?,
    }
    if dice.roll(25) == 0 {
        exchange(alloc, one, two)?;
    }
    Ok(())
}

/// The results of a run: the shares of its events, and how many revisions each server has, all of which read as
/// expected.
#[derive(Clone, Copy)]
struct SeededResult {
    shares: EventShares,
    revisions: [u64; 2],
}

fn play_to_the_end(
    rt: &impl Abort,
    alloc: Global,
    one: &mut TestServer,
    two: &mut TestServer,
) -> Result<SeededResult, Refusal> {
    let shares = play(alloc, one, two)?;
    exchange(alloc, one, two)?;
    are_all_same(rt, one, two)?;
    Ok(SeededResult {
        shares,
        revisions: [
            count_agreeing(rt, alloc, one)?,
            count_agreeing(rt, alloc, two)?,
        ],
    })
}

fn play_both(rt: &impl Abort, alloc: Global) -> Result<SeededResult, Refusal> {
    let mut one = TestServer::new(alloc, 1)?;
    let mut two = TestServer::new(alloc, 2)?;
    play_to_the_end(rt, alloc, &mut one, &mut two)
}

#[test]
fn seeded_servers_agree(rt: HostRuntime) -> Result<(), Fail> {
    let SeededResult { shares, revisions } = play_both(&rt, rt.alloc())?;
    let made = EVENTS.saturating_sub(shares.refused);
    assert!(rt;
        revisions[0] == made && revisions[1] == made,
        "wanted {made} revisions of each, came {revisions:?}"
    );
    assert!(rt; shares.are_many(), "too few of some kind: {shares:?}");
    Ok(())
}
