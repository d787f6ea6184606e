//! Operations on the plain sequence: the places of runs, and the effect of several parts together.
use crate::replica::PartSketch::{Erased, Typed};
use crate::replica::{Named, PartSketch, Replica};
use pad_model::{Refusal, Sequence, Stamp};
use std::alloc::Global;
use std::process::Abort;
use std::test::Fail;

pub const HELLO: PartSketch = Typed((1, 1), None, "hello");

pub const ABCD: PartSketch = Typed((1, 1), None, "abcd");

/// Operations of one part each, by replica 1 or 2.
pub type TakenOperations<'a> = &'a [(u16, PartSketch)];

fn take_all(alloc: Global, site: &mut Replica, taken: TakenOperations<'_>) -> Result<(), Refusal> {
    for (origin, part) in taken {
        site.take(alloc, *origin, &[*part])?;
    }
    Ok(())
}

/// Returns a site that took these operations.
pub fn site_of(alloc: Global, taken: TakenOperations<'_>) -> Result<Replica, Refusal> {
    let mut site = Replica::new(alloc)?;
    take_all(alloc, &mut site, taken)?;
    Ok(site)
}

/// Returns the text of a site that took these operations.
fn text_after(alloc: Global, taken: TakenOperations<'_>) -> Result<String, Refusal> {
    let site = site_of(alloc, taken)?;
    site.text(alloc, site.rev())
}

/// Asserts the text of a site that took these operations.
fn shows(
    rt: &impl Abort,
    alloc: Global,
    taken: TakenOperations<'_>,
    want: &str,
) -> Result<(), Refusal> {
    let came = text_after(alloc, taken)?;
    assert!(rt;
        came.as_str() == want,
        "{taken:?}: wanted {want}, came {came}"
    );
    Ok(())
}

pub fn named(stamp: Stamp) -> Named {
    (stamp.counter(), stamp.replica())
}

/// Asserts the counters and replicas of all characters, in their order.
fn has_stamps(rt: &impl Abort, site: &Replica, want: &[Named]) {
    let seq = site.sequence();
    for (want, place) in want.iter().zip(0..) {
        let came = match seq.cell_at(place) {
            Some(cell) => Some(named(cell.stamp)),
            None => None,
        };
        assert!(rt;
            came == Some(*want),
            "at {place}: wanted {want:?}, came {came:?}"
        );
    }
    has_count(rt, site, want.len());
}

/// Asserts the number of characters of a site, including erased ones.
pub fn has_count(rt: &impl Abort, site: &Replica, want: usize) {
    let came = site.sequence().cell_count();
    assert!(rt;
        came == want as u64,
        "wanted {want} characters, came {came}"
    );
}

fn has_stamps_after(
    rt: &impl Abort,
    alloc: Global,
    taken: TakenOperations<'_>,
    want: &[Named],
) -> Result<(), Refusal> {
    let site = site_of(alloc, taken)?;
    has_stamps(rt, &site, want);
    Ok(())
}

const A: (u16, PartSketch) = (1, Typed((1, 1), None, "a"));

const B: (u16, PartSketch) = (2, Typed((1, 2), None, "b"));

const LOCAL: (u16, PartSketch) = (1, Typed((7, 1), Some((2, 1)), "X"));

const REMOTE: (u16, PartSketch) = (2, Typed((6, 2), Some((2, 1)), "q"));

const SIBLINGS: &[(TakenOperations<'static>, &str)] = &[
    (&[A, B], "ba"),
    (&[B, A], "ba"),
    (&[(1, HELLO), LOCAL, REMOTE], "heXqllo"),
    (&[(1, HELLO), REMOTE, LOCAL], "heXqllo"),
];

#[test]
fn newer_siblings_come_first(rt: HostRuntime) -> Result<(), Fail> {
    for (taken, want) in SIBLINGS {
        shows(&rt, rt.alloc(), taken, want)?;
    }
    Ok(())
}

const BETWEEN: TakenOperations<'static> = &[(1, HELLO), (2, Typed((3, 2), Some((2, 1)), "QR"))];

const STAMPS_BETWEEN: &[Named] = &[(1, 1), (2, 1), (3, 2), (4, 2), (3, 1), (4, 1), (5, 1)];

#[test]
fn a_run_between_the_characters_of_another(rt: HostRuntime) -> Result<(), Fail> {
    shows(&rt, rt.alloc(), BETWEEN, "heQRllo")?;
    Ok(has_stamps_after(&rt, rt.alloc(), BETWEEN, STAMPS_BETWEEN)?)
}

/// The answer of a site of `hello` to an operation; and then its revision and its number of characters, including
/// erased ones.
#[derive(Clone, Copy, Debug)]
struct After {
    answer: Result<u64, Refusal>,
    rev: u64,
    cells: u64,
}

fn after_hello(alloc: Global, origin: u16, parts: &[PartSketch]) -> Result<After, Refusal> {
    let mut site = site_of(alloc, &[(1, HELLO)])?;
    let answer = site.take(alloc, origin, parts);
    let (rev, cells) = (site.rev(), site.sequence().cell_count());
    Ok(After { answer, rev, cells })
}

/// Returns the text of a site of `hello` at a revision after an operation, whatever the answer.
fn text_after_hello(
    alloc: Global,
    origin: u16,
    parts: &[PartSketch],
    rev: u64,
) -> Result<String, Refusal> {
    let mut site = site_of(alloc, &[(1, HELLO)])?;
    let _answer = site.take(alloc, origin, parts);
    site.text(alloc, rev)
}

/// Asserts the text of a site of `hello` at a revision after an operation.
fn shows_after_hello(
    rt: &impl Abort,
    alloc: Global,
    origin: u16,
    parts: &[PartSketch],
    rev: u64,
    want: &str,
) -> Result<(), Refusal> {
    let came = text_after_hello(alloc, origin, parts, rev)?;
    assert!(rt;
        came.as_str() == want,
        "revision {rev} after {parts:?}: wanted {want}, came {came}"
    );
    Ok(())
}

/// An operation that a site of `hello` refuses, and why.
type Misfit = (u16, &'static [PartSketch], &'static str);

const MISFITS: &[Misfit] = &[
    (
        2,
        &[Typed((7, 2), Some((6, 1)), "ab")],
        "the character in front is missing",
    ),
    (
        2,
        &[Typed((5, 2), Some((5, 1)), "ab")],
        "not newer than the character in front",
    ),
    (
        2,
        &[Typed((4, 2), Some((5, 1)), "ab")],
        "older than the character in front",
    ),
    (
        1,
        &[Typed((5, 1), Some((2, 1)), "ab")],
        "not newer than all of its replica",
    ),
    (
        1,
        &[Typed((4, 1), None, "ab")],
        "older than one of its replica",
    ),
    (
        2,
        &[Erased(&[((5, 1), 2)])],
        "a character to erase is missing",
    ),
    (
        2,
        &[Typed((6, 2), Some((5, 1)), "ey"), Erased(&[((9, 1), 1)])],
        "the second part does not fit",
    ),
    (
        2,
        &[
            Typed((6, 2), Some((5, 1)), "e"),
            Typed((7, 2), Some((6, 2)), "y"),
        ],
        "the second part fits what the first inserts",
    ),
];

fn is_refused(
    rt: &impl Abort,
    alloc: Global,
    origin: u16,
    parts: &[PartSketch],
    why: &str,
) -> Result<(), Refusal> {
    let came = after_hello(alloc, origin, parts)?;
    assert!(rt;
        came.answer == Err(Refusal::PeerFault) && came.cells == 5,
        "{why}: wanted PeerFault and 5 cells, came {came:?}"
    );
    Ok(())
}

#[test]
fn what_does_not_fit_is_refused(rt: HostRuntime) -> Result<(), Fail> {
    for (origin, parts, why) in MISFITS {
        is_refused(&rt, rt.alloc(), *origin, parts, why)?;
        shows_after_hello(&rt, rt.alloc(), *origin, parts, u64::MAX, "hello")?;
    }
    Ok(())
}

/// The parts of an operation, the number of characters that they hide, and the text of a site of `hello` afterwards.
type Several = (u16, &'static [PartSketch], u64, &'static str);

const SEVERAL: &[Several] = &[
    (
        1,
        &[Erased(&[((2, 1), 3)]), Typed((6, 1), Some((4, 1)), "ey")],
        3,
        "heyo",
    ),
    (
        1,
        &[
            Typed((6, 1), Some((5, 1)), "A"),
            Typed((7, 1), Some((5, 1)), "B"),
        ],
        0,
        "helloBA",
    ),
    (
        2,
        &[Typed((6, 2), Some((5, 1)), "ey"), Erased(&[((1, 1), 1)])],
        1,
        "elloey",
    ),
];

fn is_one_revision(
    rt: &impl Abort,
    alloc: Global,
    origin: u16,
    parts: &[PartSketch],
    hidden: u64,
) -> Result<(), Refusal> {
    let came = after_hello(alloc, origin, parts)?;
    assert!(rt;
        came.answer == Ok(hidden) && came.rev == 2,
        "{parts:?}: wanted {hidden} hidden in revision 2, came {came:?}"
    );
    Ok(())
}

#[test]
fn several_parts_are_one_revision(rt: HostRuntime) -> Result<(), Fail> {
    for (origin, parts, hidden, text) in SEVERAL {
        let origin = *origin;
        is_one_revision(&rt, rt.alloc(), origin, parts, *hidden)?;
        shows_after_hello(&rt, rt.alloc(), origin, parts, 2, text)?;
        shows_after_hello(&rt, rt.alloc(), origin, parts, 1, "hello")?;
    }
    Ok(())
}
