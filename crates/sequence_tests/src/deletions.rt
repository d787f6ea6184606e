//! Deletions on the plain sequence: the characters that each of them hides, beside insertions and at older revisions.
use crate::replica::PartSketch::{Erased, Typed};
use crate::replica::{PartSketch, Replica};
use crate::sequences::{ABCD, HELLO, TakenOperations, has_count, site_of};
use pad_model::{Refusal, Sequence};
use std::alloc::Global;
use std::process::Abort;
use std::test::Fail;

/// Asserts the number of characters that each operation hides.
fn hide(
    rt: &impl Abort,
    alloc: Global,
    site: &mut Replica,
    taken: TakenOperations<'_>,
    want: &[u64],
) -> Result<(), Refusal> {
    assert!(rt; taken.len() == want.len(), "{taken:?} and {want:?}");
    for ((origin, part), want) in taken.iter().zip(want) {
        let came = site.take(alloc, *origin, &[*part])?;
        assert!(rt;
            came == *want,
            "{part:?} of {origin}: wanted {want} hidden, came {came}"
        );
    }
    Ok(())
}

/// Asserts the same at a new site.
fn hide_so(
    rt: &impl Abort,
    alloc: Global,
    taken: TakenOperations<'_>,
    want: &[u64],
) -> Result<(), Refusal> {
    let mut site = Replica::new(alloc)?;
    hide(rt, alloc, &mut site, taken, want)
}

/// Returns the text at a revision of a site that took the first `count` of some operations.
fn text_at(
    alloc: Global,
    taken: TakenOperations<'_>,
    count: usize,
    rev: u64,
) -> Result<String, Refusal> {
    let site = site_of(alloc, &taken[..count.min(taken.len())])?;
    site.text(alloc, rev)
}

/// Asserts the text of that site.
fn shows_at(
    rt: &impl Abort,
    alloc: Global,
    taken: TakenOperations<'_>,
    count: usize,
    rev: u64,
    want: &str,
) -> Result<(), Refusal> {
    let came = text_at(alloc, taken, count, rev)?;
    assert!(rt;
        came.as_str() == want,
        "revision {rev} after {count} of {taken:?}: wanted {want}, came {came}"
    );
    Ok(())
}

fn length_at(alloc: Global, taken: TakenOperations<'_>, rev: u64) -> Result<u64, Refusal> {
    let site = site_of(alloc, taken)?;
    Ok(site.sequence().len_at(rev))
}

const ERASED: (u16, PartSketch) = (1, Erased(&[((2, 1), 2)]));

const TYPED: (u16, PartSketch) = (2, Typed((5, 2), Some((2, 1)), "X"));

const FIRST: (u16, PartSketch) = (2, Erased(&[((1, 1), 1)]));

/// Operations, the number of characters that each hides, and the text of the second revision.
type Concurrent = (TakenOperations<'static>, &'static [u64], &'static str);

const CONCURRENT: &[Concurrent] = &[
    (
        &[(1, ABCD), ERASED, TYPED, FIRST, FIRST],
        &[0, 2, 0, 1, 0],
        "ad",
    ),
    (
        &[(1, ABCD), TYPED, ERASED, FIRST, FIRST],
        &[0, 0, 2, 1, 0],
        "abXcd",
    ),
];

/// The text of other revisions after the first operations: the count of these, the revision, and the text.
const REVISIONS: &[(usize, u64, &str)] = &[
    (3, 0, ""),
    (3, 1, "abcd"),
    (3, 3, "aXd"),
    (4, 4, "Xd"),
    (5, 5, "Xd"),
    (5, 3, "aXd"),
];

fn shows_revisions(
    rt: &impl Abort,
    alloc: Global,
    taken: TakenOperations<'_>,
) -> Result<(), Refusal> {
    for (count, rev, text) in REVISIONS {
        shows_at(rt, alloc, taken, *count, *rev, text)?;
    }
    Ok(())
}

#[test]
fn delete_and_insert_concurrently(rt: HostRuntime) -> Result<(), Fail> {
    for (taken, hidden, between) in CONCURRENT {
        hide_so(&rt, rt.alloc(), taken, hidden)?;
        shows_at(&rt, rt.alloc(), taken, 3, 2, between)?;
        shows_revisions(&rt, rt.alloc(), taken)?;
        let length = length_at(rt.alloc(), taken, 4)?;
        assert!(rt;
            length == 2,
            "{between}: wanted 2 characters, came {length}"
        );
    }
    Ok(())
}

/// Asserts the revision at which each character was erased; None if it was not.
fn died_at(rt: &impl Abort, site: &Replica, want: &[Option<u64>]) {
    let seq = site.sequence();
    for (want, place) in want.iter().zip(0..) {
        let came = match seq.cell_at(place) {
            Some(cell) => Some(cell.died),
            None => None,
        };
        assert!(rt;
            came == Some(*want),
            "at {place}: wanted {want:?}, came {came:?}"
        );
    }
    has_count(rt, site, want.len());
}

fn died_after(
    rt: &impl Abort,
    alloc: Global,
    taken: TakenOperations<'_>,
    want: &[Option<u64>],
) -> Result<(), Refusal> {
    let site = site_of(alloc, taken)?;
    died_at(rt, &site, want);
    Ok(())
}

const ERASED_AGAIN: TakenOperations<'static> = &[
    (1, HELLO),
    (2, Erased(&[((2, 1), 2)])),
    (2, Erased(&[((1, 1), 4), ((4, 1), 1)])),
    (2, Erased(&[((1, 1), 4)])),
];

/// The text of the last revision after the first operations: the count of these, the revision, and the text.
const LEFT: &[(usize, u64, &str)] = &[(2, 2, "hlo"), (3, 3, "o"), (4, 4, "o")];

const DEATHS: &[Option<u64>] = &[Some(3), Some(2), Some(2), Some(3), None];

#[test]
fn a_deletion_may_name_what_is_dead(rt: HostRuntime) -> Result<(), Fail> {
    hide_so(&rt, rt.alloc(), ERASED_AGAIN, &[0, 2, 2, 0])?;
    for (count, rev, text) in LEFT {
        shows_at(&rt, rt.alloc(), ERASED_AGAIN, *count, *rev, text)?;
    }
    Ok(died_after(&rt, rt.alloc(), ERASED_AGAIN, DEATHS)?)
}
