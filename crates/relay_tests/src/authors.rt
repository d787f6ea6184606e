//! The four authors of a server under stress, who read and edit one pad at once.
use crate::loopback::{LoopbackRow, ask_all, seats_of};
use crate::sides::{AuthorAnswers, NO_ANSWER};
use conversation::{Pads, Shared};
use pad_core::{Act, PadReply, Recorded, Reply, Request};
use pad_model::{Name, Refusal, Text};
use sessions::Session;
use shared_pads::Seat;
use std::alloc::Global;
use std::sync::Wait;
use std::thread;
use std::thread::Threads;

// The number of edits that each author makes in a phase.
const EDITS: u64 = 10;

const HELLOS: [&str; 4] = [
    r#"{"do":"hello","name":"a1","token":"t"}"#,
    r#"{"do":"hello","name":"a2","token":"t"}"#,
    r#"{"do":"hello","name":"a3","token":"t"}"#,
    r#"{"do":"hello","name":"a4","token":"t"}"#,
];

const JOIN: &str = r#"{"do":"join","pad":"p"}"#;

// The task of an author, and its seats.
#[derive(Drop)]
struct AuthorTask {
    hello: &'static str,
    seats: Vec<Seat>,
}

fn on_pad(alloc: Global, act: Act) -> Result<Request, Refusal> {
    let pad = Name::from_str(alloc, "p")?;
    Ok(Request::On { pad, act })
}

// Returns the edit with this number at a revision of `len` characters. Every tenth is a comment, every other fifth a
// deletion, and the rest are insertions.
fn edit_act(alloc: Global, number: u64, rev: u64, len: u64) -> Result<Act, Refusal> {
    let Some(at) = number.checked_rem(len) else {
        let text = Text::from_str(alloc, "first")?;
        return Ok(Act::Insert { rev, at: 0, text });
    };
    if number % 10 == 0 {
        let text = Text::from_str(alloc, "why?")?;
        return Ok(Act::Comment {
            rev,
            at,
            len: 1,
            text,
        });
    }
    if number % 5 == 0 {
        return Ok(Act::Delete { rev, at, len: 1 });
    }
    let text = Text::from_str(alloc, "word ")?;
    Ok(Act::Insert { rev, at, text })
}

fn ask<P: Pads>(alloc: Global, pads: &mut P, act: Act) -> Result<Reply, Refusal> {
    let request = on_pad(alloc, act)?;
    pads.call(alloc, &request)
}

// Returns the revision and the text of a reply to a read.
fn text_of(reply: Reply) -> Result<(u64, Text), Refusal> {
    match reply {
        Reply::Pad(PadReply::Text { rev, text, .. }) => Ok((rev, text)),
        _ => Err(NO_ANSWER),
    }
}

// Returns the edit that a reply reports.
fn edit_of(reply: Reply) -> Result<Recorded, Refusal> {
    match reply {
        Reply::Pad(PadReply::Made { now, name } | PadReply::Changed { now, name, .. }) => {
            Ok(Recorded::Edit { name, rev: now })
        }
        _ => Err(NO_ANSWER),
    }
}

// Reads the text. Returns its revision and its length.
fn read<P: Pads>(
    alloc: Global,
    pads: &mut P,
    records: &mut Vec<Recorded>,
) -> Result<(u64, u64), Refusal> {
    let (rev, text) = text_of(ask(alloc, pads, Act::Text { rev: None })?)?;
    let len = text.as_slice().len() as u64;
    records.push(Recorded::Read { rev, text })?;
    Ok((rev, len))
}

// Reads the text, and edits it at the revision read.
fn read_and_edit<P: Pads>(
    alloc: Global,
    pads: &mut P,
    number: u64,
    records: &mut Vec<Recorded>,
) -> Result<(), Refusal> {
    let (rev, len) = read(alloc, pads, records)?;
    let act = edit_act(alloc, number, rev, len)?;
    let edit = edit_of(ask(alloc, pads, act)?)?;
    records.push(edit)?;
    Ok(())
}

fn write<P: Pads>(alloc: Global, pads: &mut P, hello: &str) -> Result<Vec<Recorded>, Refusal> {
    ask_all(alloc, pads, &[hello, JOIN])?;
    let mut records = Vec::new(alloc);
    for number in 1..=EDITS {
        read_and_edit(alloc, pads, number, &mut records)?;
    }
    Ok(records)
}

fn work<R: Wait>(alloc: Global, row: &LoopbackRow<'_, R>, job: AuthorTask) -> AuthorAnswers {
    let AuthorTask { hello, seats } = job;
    let mut pads = Shared::new(row, seats, Session::new(alloc));
    let records = write(alloc, &mut pads, hello);
    pads.end(alloc);
    AuthorAnswers {
        records,
        seats: pads.seats(),
    }
}

// Lets the four authors of a server write at once.
pub fn write_all<R: Threads + Wait + Sync>(
    alloc: Global,
    row: &LoopbackRow<'_, R>,
) -> Result<Vec<AuthorAnswers>, Refusal> {
    let mut jobs = Vec::new(alloc);
    for hello in HELLOS {
        let seats = seats_of(row.rt, alloc, row.cells)?;
        jobs.push(AuthorTask { hello, seats })?;
    }
    Ok(thread::map_vec(row.rt, jobs, &|job: AuthorTask| { work(alloc, row, job) })?)
}
