//! Operations that the log keeps as bytes come back as they were.
use op_log::OpLog;
use pad_model::{Items, Name, Op, OpName, Part, Refusal, Run, Seen, Span, Stamp, Text};
use std::alloc::Global;
use std::process::Abort;
use std::test::Fail;

/// The greatest counter of a stamp.
const GREATEST: u64 = 281_474_976_710_656;

/// Adds an operation. Where it finds no memory, the log is as it was, and the operation can be added after that.
fn add(rt: &impl Abort, alloc: Global, log: &mut OpLog, op: &Op) -> Result<(), Fail> {
    let before = log.len();
    let last = log.name_at(before.saturating_sub(1));
    if let Err(refusal) = log.prepare(op) {
        assert!(rt;
            refusal == Refusal::Memory,
            "wanted Memory, came {refusal:?}"
        );
        assert!(rt;
            log.len() == before,
            "wanted {before} operations, came {}",
            log.len()
        );
        let came = log.name_at(before.saturating_sub(1));
        assert!(rt; came == last, "wanted {last:?}, came {came:?}");
        assert!(rt;
            log.get(alloc, before)?.is_none(),
            "an operation came that was not added"
        );
        log.prepare(op)?;
    }
    log.commit(op);
    Ok(())
}

/// Sees that the operation at a place is this one.
fn is_kept(rt: &impl Abort, alloc: Global, log: &OpLog, place: u64, want: &Op) -> Result<(), Fail> {
    let came = log.get(alloc, place)?;
    assert!(rt;
        came.as_ref() == Some(want),
        "wanted {want:?}, came {came:?}"
    );
    let name = log.name_at(place);
    assert!(rt;
        name == Some(want.name),
        "wanted {:?}, came {name:?}",
        want.name
    );
    Ok(())
}

fn insertion(alloc: Global, first: Stamp, after: Option<Stamp>, text: &str) -> Result<Part, Fail> {
    Ok(Part::Insert(Run {
        first,
        after,
        text: Text::from_str(alloc, text)?,
    }))
}

fn deletion(alloc: Global) -> Result<Part, Fail> {
    let mut spans = Items::new(alloc);
    spans.push(Span {
        first: Stamp::new(1, 1)?,
        len: 1,
    })?;
    spans.push(Span {
        first: Stamp::new(GREATEST, 65_535)?,
        len: u64::MAX,
    })?;
    Ok(Part::Delete(spans))
}

/// A part of each kind, with characters of one to four bytes and the greatest numbers that there can be.
fn parts(alloc: Global) -> Result<Items<Part>, Fail> {
    let low = Stamp::new(1, 1)?;
    let high = Stamp::new(GREATEST, 65_535)?;
    let mut parts = Items::new(alloc);
    parts.push(insertion(alloc, high, None, "a\u{df}\u{20ac}\u{10348}\u{10ffff}")?)?;
    parts.push(insertion(alloc, low, Some(high), "\u{0}\u{7f}\u{80}\u{d7ff}\u{e000}")?)?;
    parts.push(insertion(alloc, low, Some(low), "")?)?;
    parts.push(deletion(alloc)?)?;
    parts.push(Part::Delete(Items::new(alloc)))?;
    parts.push(Part::Comment {
        first: low,
        last: high,
        text: Text::from_str(alloc, "why?")?,
    })?;
    parts.push(Part::Resolve {
        comment: OpName {
            origin: 65_535,
            number: u64::MAX,
        },
    })?;
    Ok(parts)
}

fn seen(alloc: Global) -> Result<Seen, Fail> {
    let mut seen = Seen::new(alloc);
    seen.set(1, 127)?;
    seen.set(128, 128)?;
    seen.set(65_534, u64::MAX)?;
    Ok(seen)
}

#[test]
fn each_kind_of_part_comes_back(rt: HostRuntime) -> Result<(), Fail> {
    let alloc = rt.alloc();
    let mut log = OpLog::new(alloc);
    let op = Op {
        name: OpName {
            origin: 65_535,
            number: u64::MAX,
        },
        seen: seen(alloc)?,
        author: Name::from_str(alloc, "ann")?,
        parts: parts(alloc)?,
    };
    let empty = Op {
        name: OpName {
            origin: 0,
            number: 0,
        },
        seen: Seen::new(alloc),
        author: Name::from_str(alloc, "")?,
        parts: Items::new(alloc),
    };
    add(&rt, alloc, &mut log, &op)?;
    add(&rt, alloc, &mut log, &empty)?;
    add(&rt, alloc, &mut log, &op)?;
    is_kept(&rt, alloc, &log, 0, &op)?;
    is_kept(&rt, alloc, &log, 1, &empty)?;
    is_kept(&rt, alloc, &log, 2, &op)
}

const AUTHORS: [&str; 3] = ["ann", "bob", "an-author-of-thirty-two-characters"];

/// The operation at a place of a long log: a letter each, of three authors at two origins, and a resolution now and then.
fn letter(alloc: Global, place: u64) -> Result<Op, Fail> {
    let origin = (place % 2) as u16 * 299 + 1;
    let number = place / 2 + 1;
    let mut parts = Items::new(alloc);
    if place % 50 == 49 {
        parts.push(Part::Resolve {
            comment: OpName { origin: 1, number },
        })?;
    } else {
        parts.push(insertion(alloc, Stamp::new(number, origin)?, None, "x")?)?;
    }
    Ok(Op {
        name: OpName { origin, number },
        seen: Seen::new(alloc),
        author: Name::from_str(alloc, AUTHORS[(place % 3) as usize])?,
        parts,
    })
}

/// The number of operations: three pages and some.
const LONG: u64 = 200;

#[test]
fn a_long_log_comes_back(rt: HostRuntime) -> Result<(), Fail> {
    let alloc = rt.alloc();
    let mut log = OpLog::new(alloc);
    for place in 0..LONG {
        let op = letter(alloc, place)?;
        add(&rt, alloc, &mut log, &op)?;
    }
    for place in 0..LONG {
        let op = letter(alloc, place)?;
        is_kept(&rt, alloc, &log, place, &op)?;
    }
    let notes = log.count_notes(1, LONG);
    assert!(rt; notes == 4, "wanted 4 notes, came {notes}");
    let notes = log.count_notes(51, 100);
    assert!(rt;
        notes == 2,
        "wanted 2 notes of the 51st to the 150th, came {notes}"
    );
    let all = log.since(alloc, 60)?;
    assert!(rt;
        all.len() == 140,
        "wanted 140 operations, came {}",
        all.len()
    );
    assert!(rt;
        log.get(alloc, LONG)?.is_none(),
        "an operation came behind the last"
    );
    Ok(())
}

/// Asserts that a log reports whether the first version of the wire can represent the operation that is missing first.
#[test]
fn an_old_peer_can_be_given_the_first(rt: HostRuntime) -> Result<(), Fail> {
    let alloc = rt.alloc();
    let mut log = OpLog::new(alloc);
    for place in 0..4 {
        let op = letter(alloc, place)?;
        add(&rt, alloc, &mut log, &op)?;
    }
    let mut seen = Seen::new(alloc);
    let first = log.first_missing_in_v1(&seen);
    assert!(rt; first == Some(true), "wanted true, came {first:?}");
    seen.set(1, 2)?;
    let first = log.first_missing_in_v1(&seen);
    assert!(rt; first == Some(false), "wanted false, came {first:?}");
    seen.set(300, 2)?;
    let first = log.first_missing_in_v1(&seen);
    assert!(rt; first.is_none(), "wanted none, came {first:?}");
    Ok(())
}
