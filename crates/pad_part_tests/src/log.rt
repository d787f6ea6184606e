//! The log of a pad: stretches of it, places, and the operations that a peer lacks, as someone counts them.
use dice::Dice;
use op_log::OpLog;
use pad_model::{Items, Name, Op, OpName, Part, Run, Seen, Span, Stamp, Text};
use std::alloc::Global;
use std::process::Abort;
use std::test::Fail;

fn op(alloc: Global, origin: u16, number: u64) -> Result<Op, Fail> {
    Ok(Op {
        name: OpName { origin, number },
        seen: Seen::new(alloc),
        author: Name::from_str(alloc, "ann")?,
        parts: Items::new(alloc),
    })
}

fn add(log: &mut OpLog, op: Op) -> Result<(), Fail> {
    log.prepare(&op)?;
    log.commit(&op);
    Ok(())
}

fn log_of(alloc: Global, names: &[(u16, u64)]) -> Result<OpLog, Fail> {
    let mut log = OpLog::new(alloc);
    for (origin, number) in names {
        add(&mut log, op(alloc, *origin, *number)?)?;
    }
    Ok(log)
}

type LogNames = Vec<(u16, u64)>;

fn names_of(alloc: Global, ops: &[Op]) -> Result<LogNames, Fail> {
    let mut names = Vec::new(alloc);
    for op in ops {
        names.push((op.name.origin, op.name.number))?;
    }
    Ok(names)
}

const NAMES: [(u16, u64); 5] = [(1, 1), (2, 1), (1, 2), (2, 2), (1, 3)];

/// From where on, how many operations, and their names.
type Stretch = (u64, u64, &'static [(u16, u64)]);

const STRETCHES: &[Stretch] = &[
    (1, u64::MAX, &NAMES),
    (1, 2, &[(1, 1), (2, 1)]),
    (4, 2, &[(2, 2), (1, 3)]),
    (4, 3, &[(2, 2), (1, 3)]),
    (5, u64::MAX, &[(1, 3)]),
    (6, 1, &[]),
    (u64::MAX, u64::MAX, &[]),
    (2, 0, &[]),
];

#[test]
fn stretches_of_a_log_end_where_it_ends(rt: HostRuntime) -> Result<(), Fail> {
    let log = log_of(rt.alloc(), &NAMES)?;
    for (from, count, want) in STRETCHES {
        let came = log.entries(rt.alloc(), *from, *count)?;
        let came = names_of(rt.alloc(), came.as_slice())?;
        assert!(rt;
            came.as_slice() == *want,
            "{count} from {from} on: wanted {want:?}, came {came:?}"
        );
    }
    Ok(())
}

/// Sees that an operation is the one of this origin and number.
fn is_same(
    rt: &impl Abort,
    alloc: Global,
    came: Option<&Op>,
    origin: u16,
    number: u64,
) -> Result<(), Fail> {
    let want = op(alloc, origin, number)?;
    assert!(rt; came == Some(&want), "wanted {want:?}, came {came:?}");
    Ok(())
}

/// Asserts the count of each origin.
fn are_counts(rt: &impl Abort, log: &OpLog, counts: &[(u16, u64)]) {
    for (origin, want) in counts {
        let came = log.count(*origin);
        assert!(rt;
            came == *want,
            "of origin {origin}: wanted {want}, came {came}"
        );
    }
}

/// The origin and number of an operation, and its place, if it is there.
type NamePlace = (u16, u64, Option<u64>);

const PLACES: [NamePlace; 6] = [
    (1, 1, Some(0)),
    (2, 2, Some(3)),
    (1, 3, Some(4)),
    (2, 3, None),
    (3, 1, None),
    (1, 0, None),
];

/// Sees that each name is found at its place.
fn are_places(rt: &impl Abort, log: &OpLog, places: &[NamePlace]) {
    for (origin, number, want) in places {
        let came = log.find(OpName {
            origin: *origin,
            number: *number,
        });
        assert!(rt;
            came == *want,
            "{number} of {origin}: wanted {want:?}, came {came:?}"
        );
    }
}

const COUNTS: &[(u16, u64)] = &[(1, 3), (2, 2), (3, 0)];

#[test]
fn operations_by_place_origin_and_name(rt: HostRuntime) -> Result<(), Fail> {
    let log = log_of(rt.alloc(), &NAMES)?;
    let fourth = log.get(rt.alloc(), 3)?;
    is_same(&rt, rt.alloc(), fourth.as_ref(), 2, 2)?;
    assert!(rt; log.len() == 5, "wanted 5 operations, came {}", log.len());
    let sixth = log.get(rt.alloc(), 5)?;
    assert!(rt; sixth.is_none(), "wanted none at 5, came {sixth:?}");
    are_counts(&rt, &log, COUNTS);
    are_places(&rt, &log, &PLACES);
    Ok(())
}

/// The operations of an example: ann types `abcd`, of which she erases `bc`, and bob types an `X` after the `b`.
#[derive(Clone, Copy)]
enum Example {
    Typed,
    Erased,
    Answered,
}

fn typed(alloc: Global, after: Option<Stamp>, first: Stamp, text: &str) -> Result<Part, Fail> {
    Ok(Part::Insert(Run {
        first,
        after,
        text: Text::from_str(alloc, text)?,
    }))
}

fn erased(alloc: Global, first: Stamp, len: u64) -> Result<Part, Fail> {
    let mut spans = Items::new(alloc);
    spans.push(Span { first, len })?;
    Ok(Part::Delete(spans))
}

fn part_of(alloc: Global, example: Example) -> Result<Part, Fail> {
    let behind_b = Stamp::new(2, 1)?;
    match example {
        Example::Typed => typed(alloc, None, Stamp::new(1, 1)?, "abcd"),
        Example::Erased => erased(alloc, behind_b, 2),
        Example::Answered => typed(alloc, Some(behind_b), Stamp::new(5, 2)?, "X"),
    }
}

/// Its name, its author, and how many operations of ann's were seen.
fn head_of(example: Example) -> (OpName, &'static str, u64) {
    let (origin, number, author, seen) = match example {
        Example::Typed => (1, 1, "ann", 0),
        Example::Erased => (1, 2, "ann", 0),
        Example::Answered => (2, 1, "bob", 1),
    };
    (OpName { origin, number }, author, seen)
}

fn seen_of_ann(alloc: Global, count: u64) -> Result<Seen, Fail> {
    let mut seen = Seen::new(alloc);
    seen.set(1, count)?;
    Ok(seen)
}

fn op_of(alloc: Global, example: Example) -> Result<Op, Fail> {
    let (name, author, count) = head_of(example);
    let mut parts = Items::new(alloc);
    parts.push(part_of(alloc, example)?)?;
    Ok(Op {
        name,
        seen: seen_of_ann(alloc, count)?,
        author: Name::from_str(alloc, author)?,
        parts,
    })
}

fn log_of_examples(alloc: Global) -> Result<OpLog, Fail> {
    let mut log = OpLog::new(alloc);
    for example in [Example::Typed, Example::Erased, Example::Answered] {
        add(&mut log, op_of(alloc, example)?)?;
    }
    Ok(log)
}

/// The first four that are lacking where one of ann's was seen.
fn pull_of_examples(alloc: Global) -> Result<Items<Op>, Fail> {
    let log = log_of_examples(alloc)?;
    let seen = seen_of_ann(alloc, 1)?;
    Ok(log.missing(alloc, &seen, 4)?)
}

fn is_example(
    rt: &impl Abort,
    alloc: Global,
    came: Option<&Op>,
    example: Example,
) -> Result<(), Fail> {
    let want = op_of(alloc, example)?;
    assert!(rt; came == Some(&want), "wanted {want:?}, came {came:?}");
    Ok(())
}

/// Sees that these are the second and the third of the examples.
fn are_lacking(rt: &impl Abort, alloc: Global, pull: &Items<Op>) -> Result<(), Fail> {
    is_example(rt, alloc, pull.get(0), Example::Erased)?;
    is_example(rt, alloc, pull.get(1), Example::Answered)?;
    assert!(rt; pull.len() == 2, "wanted 2 operations, came {pull:?}");
    Ok(())
}

#[test]
fn a_peer_pulls_what_it_lacks(rt: HostRuntime) -> Result<(), Fail> {
    let pull = pull_of_examples(rt.alloc())?;
    are_lacking(&rt, rt.alloc(), &pull)
}

/// Up to twelve names of three origins; some come twice, and numbers may fall.
fn some_names(alloc: Global, dice: &mut Dice) -> Result<LogNames, Fail> {
    let mut names = Vec::new(alloc);
    for _ in 0..dice.roll(13) {
        let origin = match dice.roll(3) {
            0 => 7,
            1 => 2,
            _ => 300,
        };
        names.push((origin, dice.roll(6)))?;
    }
    Ok(names)
}

/// The numbers of operations seen of the origins 7, 2 and 300.
type Counts = (u64, u64, u64);

fn count_of(counts: Counts, origin: u16) -> u64 {
    match origin {
        7 => counts.0,
        2 => counts.1,
        _ => counts.2,
    }
}

fn seen_of(alloc: Global, counts: Counts) -> Result<Seen, Fail> {
    let mut seen = Seen::new(alloc);
    seen.set(7, counts.0)?;
    seen.set(2, counts.1)?;
    seen.set(300, counts.2)?;
    Ok(seen)
}

fn lacking(alloc: Global, names: &[(u16, u64)], counts: Counts) -> Result<LogNames, Fail> {
    let mut lacking = Vec::new(alloc);
    for (origin, number) in names {
        if *number > count_of(counts, *origin) {
            lacking.push((*origin, *number))?;
        }
    }
    Ok(lacking)
}

/// The first operations that are lacking, at most `max`.
fn pulled(alloc: Global, log: &OpLog, counts: Counts, max: u64) -> Result<LogNames, Fail> {
    let seen = seen_of(alloc, counts)?;
    let answer = log.missing(alloc, &seen, max)?;
    names_of(alloc, answer.as_slice())
}

fn first_of(names: &[(u16, u64)], max: u64) -> &[(u16, u64)] {
    &names[..names.len().min(max as usize)]
}

const LENGTHS: &[u64] = &[0, 1, 4, u64::MAX];

/// Asserts that a pull of each length is that of the plain filter.
fn pulls(
    rt: &impl Abort,
    alloc: Global,
    names: &[(u16, u64)],
    counts: Counts,
    lacking: &[(u16, u64)],
) -> Result<(), Fail> {
    let log = log_of(alloc, names)?;
    for max in LENGTHS {
        let came = pulled(alloc, &log, counts, *max)?;
        let want = first_of(lacking, *max);
        assert!(rt;
            came.as_slice() == want,
            "{max} of {names:?} behind {counts:?}: wanted {want:?}, came {came:?}"
        );
    }
    Ok(())
}

/// The numbers of logs in which some are lacking, some covered, some left over by a pull of four, and some numbers
/// fall.
#[derive(Clone, Copy, Debug)]
struct Cases([u64; 4]);

/// Returns true if a name comes directly after one of its origin with a greater number.
fn numbers_fall(names: &[(u16, u64)]) -> bool {
    let mut before = (0, 0);
    for name in names {
        if before.0 == name.0 && before.1 > name.1 {
            return true;
        }
        before = *name;
    }
    false
}

impl Cases {
    fn note(&mut self, names: &[(u16, u64)], lacking: &[(u16, u64)]) {
        self.count(0, !lacking.is_empty());
        self.count(1, lacking.len() < names.len());
        self.count(2, lacking.len() > 4);
        self.count(3, numbers_fall(names));
    }

    fn count(&mut self, place: usize, came: bool) {
        if came && let Some(count) = self.0.get_mut(place) {
            *count = count.saturating_add(1);
        }
    }
}

fn pull(
    rt: &impl Abort,
    alloc: Global,
    names: &[(u16, u64)],
    counts: Counts,
    cases: &mut Cases,
) -> Result<(), Fail> {
    let lacking = lacking(alloc, names, counts)?;
    cases.note(names, lacking.as_slice());
    pulls(rt, alloc, names, counts, lacking.as_slice())
}

/// Pulls from some log.
fn pull_some(
    rt: &impl Abort,
    alloc: Global,
    dice: &mut Dice,
    cases: &mut Cases,
) -> Result<(), Fail> {
    let names = some_names(alloc, dice)?;
    let counts = (dice.roll(7), dice.roll(7), dice.roll(7));
    pull(rt, alloc, names.as_slice(), counts, cases)
}

#[test]
fn a_pull_is_a_filter_of_the_log(rt: HostRuntime) -> Result<(), Fail> {
    let mut dice = Dice::new(1);
    let mut cases = Cases([0; 4]);
    for _ in 0..1_000u64 {
        pull_some(&rt, rt.alloc(), &mut dice, &mut cases)?;
    }
    for count in cases.0 {
        assert!(rt; count >= 100, "too few logs of some kind: {cases:?}");
    }
    Ok(())
}
