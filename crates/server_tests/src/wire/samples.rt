//! Replies, each by a word.
use comments::Shown;
use named_revisions::NamedRevision;
use pad_core::{Kind, Listed, LogEntry, PadReply, Person, Present, Pushed, Reply};
use pad_model::{Author, AuthorRun, Items, Name, OpName, Piece, Refusal, Seen, Text, Version};
use rights::{Grant, Grantee, Right};
use serde_json::Value;
use sessions::Word;
use std::alloc::Global;
use wire_json::read_op;

/// A reply that a test writes, by a word.
#[derive(Clone, Copy, Debug)]
pub enum Sample {
    Hello,
    Peer(u16, Version),
    Ended,
    Refused(Refusal),
    Elsewhere,
    Joined,
    /// After an old visit that made so many operations.
    Rejoined(u64),
    Done,
    Made,
    Changed,
    Revs,
    Pushed(Pushed, u64, u64),
    Text,
    Runs,
    Comments,
    Who,
    Pads,
    People,
    Changes,
    Entries,
    TimedEntries,
    Birth,
    Times,
    RevsAt,
    /// Of a pad that is closed, or open.
    Rights { closed: bool },
    Marks,
    Vector,
    Pulled,
}

pub fn reply_of(alloc: Global, sample: Sample) -> Result<Reply, Refusal> {
    match sample {
        Sample::Hello => hello(alloc),
        Sample::Peer(replica, version) => Ok(Reply::Peer { replica, version }),
        Sample::Ended => Ok(Reply::Ended),
        Sample::Pads => pads_listed(alloc),
        Sample::People => people_told(alloc),
        Sample::Refused(refusal) => Err(refusal),
        _ => Ok(Reply::Pad(pad_reply_of(alloc, sample)?)),
    }
}

fn hello(alloc: Global) -> Result<Reply, Refusal> {
    let author = author(alloc, "ann", 1)?;
    Ok(Reply::Hello { author })
}

fn pad_reply_of(alloc: Global, sample: Sample) -> Result<PadReply, Refusal> {
    match sample {
        Sample::Text => text_told(alloc),
        Sample::Runs => runs_told(alloc),
        Sample::Comments => comments_told(alloc),
        Sample::Who => who_told(alloc),
        Sample::Changes => changes_told(alloc),
        Sample::Entries => entries_told(alloc, [None, None]),
        Sample::TimedEntries => entries_told(alloc, [Some(0), Some(1_795_879_200_000)]),
        Sample::Birth => birth_told(alloc),
        Sample::Times => times_told(alloc),
        Sample::RevsAt => revs_told(alloc),
        Sample::Rights { closed } => rights_told(alloc, closed),
        Sample::Marks => marks_told(alloc),
        Sample::Vector => vector_told(alloc),
        Sample::Pulled => pulled_told(alloc),
        _ => Ok(numbers_told(sample)),
    }
}

/// The replies that hold only numbers.
fn numbers_told(sample: Sample) -> PadReply {
    let name = OpName {
        origin: 1,
        number: 2,
    };
    match sample {
        Sample::Joined => PadReply::Joined { now: 0, visit: 1 },
        Sample::Rejoined(made) => PadReply::Rejoined {
            now: 4,
            visit: 3,
            made,
            last: if made == 0 { None } else { Some(name) },
        },
        Sample::Done => PadReply::Done { now: u64::MAX },
        Sample::Made => PadReply::Made { now: 2, name },
        Sample::Changed => PadReply::Changed {
            now: 2,
            name,
            hidden: 3,
        },
        Sample::Revs => PadReply::Revs {
            now: 1,
            cells: 5,
            length: 4,
        },
        Sample::Pushed(state, released, dropped) => PadReply::Pushed {
            now: 2,
            state,
            released,
            dropped,
        },
        _ => PadReply::Elsewhere,
    }
}

fn author(alloc: Global, name: &str, origin: u16) -> Result<Author, Refusal> {
    let name = Name::from_str(alloc, name)?;
    Ok(Author { name, origin })
}

fn row_of<T: Drop>(alloc: Global, item: T) -> Result<Items<T>, Refusal> {
    let mut row = Items::new(alloc);
    row.push(item)?;
    Ok(row)
}

fn text_told(alloc: Global) -> Result<PadReply, Refusal> {
    let text = Text::from_str(alloc, "he\"\\/\n\u{1}\u{7f}\u{2028}😀")?;
    Ok(PadReply::Text {
        now: 3,
        rev: 1,
        text,
    })
}

fn run_of(alloc: Global, name: &str, origin: u16, len: u64) -> Result<AuthorRun, Refusal> {
    let author = author(alloc, name, origin)?;
    Ok(AuthorRun { author, len })
}

fn runs_told(alloc: Global) -> Result<PadReply, Refusal> {
    let mut runs = Items::new(alloc);
    for (name, origin, len) in [("bob", 65_535, 3), ("ann", 1, 2)] {
        runs.push(run_of(alloc, name, origin, len)?)?;
    }
    Ok(PadReply::Runs {
        now: 2,
        rev: 2,
        runs,
    })
}

fn comment(alloc: Global, text: Text) -> Result<Shown, Refusal> {
    let author = author(alloc, "bob", 65_535)?;
    let name = OpName {
        origin: 1,
        number: 3,
    };
    Ok(Shown {
        name,
        author,
        text,
        at: 0,
        len: 7,
        resolved: false,
    })
}

fn comments_told(alloc: Global) -> Result<PadReply, Refusal> {
    let comment = comment(alloc, Text::from_str(alloc, "c")?)?;
    Ok(PadReply::Comments {
        now: 5,
        rev: 4,
        comments: row_of(alloc, comment)?,
    })
}

fn who_told(alloc: Global) -> Result<PadReply, Refusal> {
    let present = Present {
        visit: 1,
        author: author(alloc, "ann", 1)?,
        caret: 2,
    };
    Ok(PadReply::Who {
        now: 1,
        who: row_of(alloc, present)?,
    })
}

fn entry(
    alloc: Global,
    name: &str,
    number: u64,
    kind: Kind,
    at: Option<u64>,
) -> Result<LogEntry, Refusal> {
    Ok(LogEntry {
        rev: number,
        name: OpName { origin: 1, number },
        author: author(alloc, name, 1)?,
        kind,
        at,
    })
}

fn entries_told(alloc: Global, times: [Option<u64>; 2]) -> Result<PadReply, Refusal> {
    let mut entries = Items::new(alloc);
    entries.push(entry(alloc, "ann", 1, Kind::Insert, times[0])?)?;
    entries.push(entry(alloc, "bob", 2, Kind::Edit, times[1])?)?;
    Ok(PadReply::Entries { now: 2, entries })
}

fn birth_told(alloc: Global) -> Result<PadReply, Refusal> {
    Ok(PadReply::Birth {
        now: 130,
        author: author(alloc, "bob", 65_535)?,
        rev: 37,
        at: 1_795_873_600_000,
    })
}

fn times_told(alloc: Global) -> Result<PadReply, Refusal> {
    let mut times = Items::new(alloc);
    for time in [0, 1_795_879_200_000] {
        times.push(time)?;
    }
    Ok(PadReply::Times { now: 2, times })
}

fn revs_told(alloc: Global) -> Result<PadReply, Refusal> {
    let revs = Items::of_one(alloc, 2)?;
    Ok(PadReply::RevsAt { now: 2, revs })
}

fn pads_listed(alloc: Global) -> Result<Reply, Refusal> {
    let mut pads = Items::new(alloc);
    for (name, right, now, closed) in [
        ("minutes", Right::Own, 7, false),
        ("p", Right::Read, 0, true),
    ] {
        let name = Name::from_str(alloc, name)?;
        pads.push(Listed {
            name,
            right,
            now,
            closed,
        })?;
    }
    Ok(Reply::Pads { pads })
}

fn people_told(alloc: Global) -> Result<Reply, Refusal> {
    let mut people = Items::new(alloc);
    for (author, name) in [("ann", "Ann \"A\" Example"), ("bob", "Ł😀")] {
        let author = Name::from_str(alloc, author)?;
        let name = Word::from_str(alloc, name)?;
        people.push(Person { author, name })?;
    }
    Ok(Reply::People { people })
}

/// Three characters stay, two go, and two of one author come.
fn changes_told(alloc: Global) -> Result<PadReply, Refusal> {
    let mut pieces = Items::new(alloc);
    pieces.push(Piece::Keep(3))?;
    pieces.push(Piece::Drop(2))?;
    pieces.push(Piece::Insert {
        author: author(alloc, "ann", 1)?,
        text: Text::from_str(alloc, "X\u{1F600}")?,
    })?;
    Ok(PadReply::Changes {
        now: 9,
        rev: 4,
        to: 7,
        pieces,
        notes: 2,
    })
}

fn grant(alloc: Global, name: &str, right: Right) -> Result<Grant, Refusal> {
    let grantee = Grantee::Author(Name::from_str(alloc, name)?);
    Ok(Grant { grantee, right })
}

fn rights_told(alloc: Global, closed: bool) -> Result<PadReply, Refusal> {
    let mut rights = Items::new(alloc);
    rights.push(grant(alloc, "ann", Right::Own)?)?;
    rights.push(Grant {
        grantee: Grantee::Everyone,
        right: Right::Read,
    })?;
    rights.push(grant(alloc, "bob", Right::Comment)?)?;
    Ok(PadReply::Rights {
        now: 2,
        closed,
        rights,
    })
}

fn named(alloc: Global, rev: u64, author: &str, text: &str) -> Result<NamedRevision, Refusal> {
    Ok(NamedRevision {
        rev,
        author: Name::from_str(alloc, author)?,
        at: 1_795_879_200_000 + rev,
        text: Text::from_str(alloc, text)?,
    })
}

fn marks_told(alloc: Global) -> Result<PadReply, Refusal> {
    let mut marks = Items::new(alloc);
    marks.push(named(alloc, 120, "ann", "Approved on 9 December")?)?;
    marks.push(named(alloc, 0, "bob", "\"\u{1F600}\n")?)?;
    Ok(PadReply::Marks { now: 130, marks })
}

fn vector_told(alloc: Global) -> Result<PadReply, Refusal> {
    let mut seen = Seen::new(alloc);
    seen.set(300, 1)?;
    seen.set(1, 2)?;
    Ok(PadReply::Vector { now: 2, seen })
}

fn pulled_told(alloc: Global) -> Result<PadReply, Refusal> {
    let Ok(value) = Value::from_str(
        alloc,
        r#"{"author":"ann","kind":"delete","name":[1,2],"seen":[],"spans":[[2,1,2]]}"#,
    ) else {
        return Err(Refusal::NotJson);
    };
    let ops = row_of(alloc, read_op(alloc, &value)?)?;
    Ok(PadReply::Pulled { now: 2, ops })
}
