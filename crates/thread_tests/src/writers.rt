//! Four threads that write to one pad and read it, each with its own session and seat.
use crate::stage::{accounts, ask, ask_all};
use block_seq::BlockSeq;
use conversation::{Names, PadTable, Pads, Shared, open_row, take_seats};
use pad_core::{PadReply, Recorded, Reply, audit};
use pad_model::{AuthorRun, Refusal, Text};
use presence::DEFAULT_PRESENT;
use sessions::Session;
use shared_pads::{Open, Seat, SharedPad};
use std::alloc::Global;
use std::sync::Wait;
use std::test::Fail;
use std::thread;
use std::thread::Threads;

// The number of times that each author writes its letter.
const ROUNDS: u64 = 250;

const JOIN: &str = r#"{"do":"join","pad":"p"}"#;

const TEXT: &str = r#"{"do":"text","pad":"p"}"#;

const RUNS: &str = r#"{"do":"runs","pad":"p"}"#;

// The owner's requests before the others start.
const BEGINNING: [&str; 6] = [
    r#"{"do":"hello","name":"a5","token":"t"}"#,
    r#"{"do":"create","pad":"p"}"#,
    r#"{"do":"grant","pad":"p","author":"a1","right":"write"}"#,
    r#"{"do":"grant","pad":"p","author":"a2","right":"write"}"#,
    r#"{"do":"grant","pad":"p","author":"a3","right":"write"}"#,
    r#"{"do":"grant","pad":"p","author":"a4","right":"write"}"#,
];

// Each author's greeting, its edit, and its letter.
const AUTHORS: [(&str, &str, char); 4] = [
    (
        r#"{"do":"hello","name":"a1","token":"t"}"#,
        r#"{"do":"insert","pad":"p","rev":0,"at":0,"text":"a"}"#,
        'a',
    ),
    (
        r#"{"do":"hello","name":"a2","token":"t"}"#,
        r#"{"do":"insert","pad":"p","rev":0,"at":0,"text":"b"}"#,
        'b',
    ),
    (
        r#"{"do":"hello","name":"a3","token":"t"}"#,
        r#"{"do":"insert","pad":"p","rev":0,"at":0,"text":"c"}"#,
        'c',
    ),
    (
        r#"{"do":"hello","name":"a4","token":"t"}"#,
        r#"{"do":"insert","pad":"p","rev":0,"at":0,"text":"d"}"#,
        'd',
    ),
];

// Represents an answer of another kind than was asked for. No pad gives this refusal.
const NO_ANSWER: Refusal = Refusal::Busy;

// The task of a thread, and its seats.
#[derive(Drop)]
struct WriterTask {
    hello: &'static str,
    insert: &'static str,
    letter: char,
    seats: Vec<Seat>,
}

// The answers to a thread, unless something was refused, and its seats.
#[derive(Drop)]
struct WriterAnswers {
    records: Result<Vec<Recorded>, Refusal>,
    seats: Vec<Seat>,
}

fn count_of(text: &Text, letter: char) -> u64 {
    let mut count = 0u64;
    for character in text.as_slice() {
        if *character == letter {
            count = count.saturating_add(1);
        }
    }
    count
}

fn edit<P: Pads>(alloc: Global, pads: &mut P, insert: &str) -> Result<Recorded, Refusal> {
    match ask(alloc, pads, insert)? {
        Reply::Pad(PadReply::Made { now, name }) => Ok(Recorded::Edit { name, rev: now }),
        _ => Err(NO_ANSWER),
    }
}

// Reads the text, which has an author's letter at least this many times.
fn read<P: Pads>(
    alloc: Global,
    pads: &mut P,
    letter: char,
    least: u64,
) -> Result<Recorded, Refusal> {
    let Reply::Pad(PadReply::Text { rev, text, .. }) = ask(alloc, pads, TEXT)? else {
        return Err(NO_ANSWER);
    };
    if count_of(&text, letter) < least {
        return Err(NO_ANSWER);
    }
    Ok(Recorded::Read { rev, text })
}

fn write<P: Pads>(alloc: Global, pads: &mut P, job: &WriterTask) -> Result<Vec<Recorded>, Refusal> {
    ask_all(alloc, pads, &[job.hello, JOIN])?;
    let mut records = Vec::new(alloc);
    for count in 1..=ROUNDS {
        records.push(edit(alloc, pads, job.insert)?)?;
        records.push(read(alloc, pads, job.letter, count)?)?;
    }
    Ok(records)
}

fn work<R: Wait>(
    alloc: Global,
    row: &PadTable<'_, BlockSeq, R, Open>,
    mut job: WriterTask,
) -> WriterAnswers {
    let seats = std::mem::replace(&mut job.seats, Vec::new(alloc));
    let mut shared = Shared::new(row, seats, Session::new(alloc));
    let records = write(alloc, &mut shared, &job);
    shared.end(alloc);
    WriterAnswers {
        records,
        seats: shared.seats(),
    }
}

// Makes the four jobs, with seats for each.
fn jobs<R: Wait>(
    rt: &R,
    alloc: Global,
    cells: &[SharedPad<BlockSeq>],
) -> Result<Vec<WriterTask>, Refusal> {
    let mut jobs = Vec::new(alloc);
    for (hello, insert, letter) in AUTHORS {
        let mut seats = Vec::new(alloc);
        take_seats(rt, cells, &mut seats)?;
        jobs.push(WriterTask {
            hello,
            insert,
            letter,
            seats,
        })?;
    }
    Ok(jobs)
}

fn letter_of(run: &AuthorRun) -> Option<char> {
    match run.author.name.as_str() {
        "a1" => Some('a'),
        "a2" => Some('b'),
        "a3" => Some('c'),
        "a4" => Some('d'),
        _ => None,
    }
}

// Returns true if the characters of each run are its author's letter, and there are no others.
fn are_own(text: &Text, runs: &[AuthorRun]) -> bool {
    let mut characters = text.as_slice().iter();
    for run in runs {
        for _ in 0..run.len {
            if characters.next().copied() != letter_of(run) {
                return false;
            }
        }
    }
    characters.next().is_none()
}

fn text_of<P: Pads>(alloc: Global, pads: &mut P) -> Result<Text, Refusal> {
    match ask(alloc, pads, TEXT)? {
        Reply::Pad(PadReply::Text { text, .. }) => Ok(text),
        _ => Err(NO_ANSWER),
    }
}

fn runs_of<P: Pads>(alloc: Global, pads: &mut P) -> Result<pad_model::Items<AuthorRun>, Refusal> {
    match ask(alloc, pads, RUNS)? {
        Reply::Pad(PadReply::Runs { runs, .. }) => Ok(runs),
        _ => Err(NO_ANSWER),
    }
}

// Returns true if the text has each author's letter as often as it was written, and reports each as its author's own.
fn is_whole<P: Pads>(alloc: Global, pads: &mut P) -> Result<bool, Refusal> {
    let text = text_of(alloc, pads)?;
    let runs = runs_of(alloc, pads)?;
    let mut whole = are_own(&text, runs.as_slice());
    for letter in ['a', 'b', 'c', 'd'] {
        whole = whole && count_of(&text, letter) == ROUNDS;
    }
    Ok(whole)
}

// Collects all records and all seats, one thread after another.
fn gather(
    all: Vec<WriterAnswers>,
    records: &mut Vec<Recorded>,
    seats: &mut Vec<Seat>,
) -> Result<(), Refusal> {
    for written in all {
        let WriterAnswers {
            records: more,
            seats: own,
        } = written;
        for record in more? {
            records.push(record)?;
        }
        for seat in own {
            seats.push(seat)?;
        }
    }
    Ok(())
}

fn calls_of(seats: &[Seat]) -> u64 {
    let mut calls = 0u64;
    for seat in seats {
        calls = calls.saturating_add(seat.tally().calls);
    }
    calls
}

// Returns true if the seats close their pad with the answers, as an audit of its log finds.
fn is_closed(
    alloc: Global,
    cells: Vec<SharedPad<BlockSeq>>,
    seats: Vec<Seat>,
    records: &[Recorded],
) -> bool {
    let mut cells = cells;
    let calls = calls_of(seats.as_slice());
    let Some(pad) = cells.pop() else {
        return false;
    };
    match pad.close(seats) {
        Ok(closed) => closed.operations == 4 * ROUNDS
            && closed.pad.revision() == 4 * ROUNDS
            && closed.calls == calls
            && audit(alloc, &closed.pad, records).is_ok(),
        Err(_) => false,
    }
}

// Creates the pad as its owner.
fn begin<'a, R: Wait>(
    alloc: Global,
    row: &'a PadTable<'a, BlockSeq, R, Open>,
) -> Result<Shared<'a, BlockSeq, R, Open>, Refusal> {
    let mut seats = Vec::new(alloc);
    take_seats(row.rt, row.cells, &mut seats)?;
    let mut owner = Shared::new(row, seats, Session::new(alloc));
    ask_all(alloc, &mut owner, &BEGINNING)?;
    Ok(owner)
}

// Lets the four authors write, and returns all answers to them and the seats of all threads; an error if the text is
// not whole.
fn write_all<R: Threads + Wait + Sync>(
    alloc: Global,
    row: &PadTable<'_, BlockSeq, R, Open>,
    seats: &mut Vec<Seat>,
) -> Result<Vec<Recorded>, Refusal> {
    let mut owner = begin(alloc, row)?;
    let jobs = jobs(row.rt, alloc, row.cells)?;
    let written = thread::map_vec(row.rt, jobs, &|job: WriterTask| work(alloc, row, job))?;
    if !is_whole(alloc, &mut owner)? {
        return Err(NO_ANSWER);
    }
    let mut records = Vec::new(alloc);
    *seats = owner.seats();
    gather(written, &mut records, seats)?;
    Ok(records)
}

#[test]
fn four_writers(rt: HostRuntime) -> Result<(), Fail> {
    let alloc = rt.alloc();
    let accounts = accounts(alloc)?;
    let cells: Vec<SharedPad<BlockSeq>> = open_row(alloc, 1, DEFAULT_PRESENT, 1, 8)?;
    let names = Names::fill(&rt, alloc, cells.as_slice())?;
    let row = PadTable {
        rt: &rt,
        cells: cells.as_slice(),
        names: &names,
        replica: 1,
        accounts: &accounts,
        gate: &Open,
    };
    let mut seats = Vec::new(alloc);
    let records = write_all(alloc, &row, &mut seats)?;
    assert!(rt;
        records.len() == 2000,
        "wanted 2000 records, came {}",
        records.len()
    );
    assert!(rt;
        is_closed(alloc, cells, seats, records.as_slice()),
        "the pad does not close with the seats and the records"
    );
    Ok(())
}
