//! Reports of the plain sequence on its characters: numbers, stamps, places, runs and spans.
use crate::replica::PartSketch::Typed;
use crate::replica::{Named, Replica, stamp_of};
use crate::sequences::{HELLO, named, site_of};
use pad_model::{AuthorRun, Refusal, Sequence, Span, Stamp};
use std::alloc::Global;
use std::process::Abort;
use std::test::Fail;

/// Returns `heXYllo`, of which replica 2 typed `XY`.
fn of_two(alloc: Global) -> Result<Replica, Refusal> {
    site_of(alloc, &[(1, HELLO), (2, Typed((6, 2), Some((2, 1)), "XY"))])
}

fn numbers_of(site: &Replica) -> [u64; 8] {
    let seq = site.sequence();
    [
        seq.clock(),
        seq.last_of(1),
        seq.last_of(2),
        seq.last_of(3),
        seq.cell_count(),
        seq.len_at(0),
        seq.len_at(1),
        seq.len_at(2),
    ]
}

/// `X`, the first `l`, and a stamp of no character.
type Three = (Stamp, Stamp, Stamp);

fn stamps_are_found(rt: &impl Abort, site: &Replica, (x, l, none): Three) {
    let seq = site.sequence();
    assert!(rt; seq.has(x) && !seq.has(none));
    assert!(rt; seq.stamp_at(2, 2) == Some(x));
    assert!(rt; seq.stamp_at(1, 2) == Some(l));
    assert!(rt; seq.stamp_at(1, 5).is_none());
}

fn characters_are_counted(rt: &impl Abort, site: &Replica, (x, l, none): Three) {
    let seq = site.sequence();
    assert!(rt; seq.before(l, 1) == Some(2) && seq.through(x, 1) == Some(2));
    assert!(rt; seq.before(l, 2) == Some(4) && seq.through(x, 2) == Some(3));
    assert!(rt; seq.before(none, 2).is_none() && seq.through(none, 2).is_none());
}

fn order_is_told(rt: &impl Abort, site: &Replica, (x, l, none): Three) {
    let seq = site.sequence();
    assert!(rt; seq.stands_before(x, l) == Some(true));
    assert!(rt; seq.stands_before(l, x) == Some(false));
    assert!(rt; seq.stands_before(x, none).is_none());
}

#[test]
fn readers(rt: HostRuntime) -> Result<(), Fail> {
    let three = (stamp_of((6, 2))?, stamp_of((3, 1))?, stamp_of((6, 1))?);
    let site = of_two(rt.alloc())?;
    let (came, want) = (numbers_of(&site), [7, 5, 7, 0, 7, 0, 5, 7]);
    assert!(rt; came == want, "wanted {want:?}, came {came:?}");
    stamps_are_found(&rt, &site, three);
    characters_are_counted(&rt, &site, three);
    order_is_told(&rt, &site, three);
    Ok(())
}

/// Returns true if author runs have these replicas and lengths.
fn are_runs(runs: &[AuthorRun], want: &[(u16, u64)]) -> bool {
    for (run, want) in runs.iter().zip(want) {
        if run.author.origin != want.0 || run.len != want.1 {
            return false;
        }
    }
    runs.len() == want.len()
}

/// Asserts the author runs of a site at a revision.
fn has_runs(
    rt: &impl Abort,
    alloc: Global,
    site: &Replica,
    rev: u64,
    want: &[(u16, u64)],
) -> Result<(), Refusal> {
    let came = site.sequence().authors_at(alloc, rev)?;
    assert!(rt;
        are_runs(came.as_slice(), want),
        "revision {rev}: wanted {want:?}, came {came:?}"
    );
    Ok(())
}

/// Returns true if spans have these first stamps and lengths.
fn are_spans(spans: &[Span], want: &[(Named, u64)]) -> bool {
    for (span, want) in spans.iter().zip(want) {
        if named(span.first) != want.0 || span.len != want.1 {
            return false;
        }
    }
    spans.len() == want.len()
}

/// Asserts the spans of some characters of a site.
fn has_spans(
    rt: &impl Abort,
    alloc: Global,
    site: &Replica,
    (rev, at, len, want): Spans,
) -> Result<(), Refusal> {
    let seq = site.sequence();
    let length = seq.len_at(rev);
    if at > length || len > length - at {
        return Err(Refusal::OutOfRange);
    }
    let came = seq.spans_at(alloc, rev, at, len)?;
    assert!(rt;
        are_spans(came.as_slice(), want),
        "{len} from {at} on in revision {rev}: wanted {want:?}, came {came:?}"
    );
    Ok(())
}

/// The runs of `heXYllo` at its revisions.
const RUNS: &[(u64, &[(u16, u64)])] = &[(2, &[(1, 2), (2, 2), (1, 3)]), (1, &[(1, 5)])];

/// A revision, a place, a length, and the spans of these characters of `heXYllo`.
type Spans = (u64, u64, u64, &'static [(Named, u64)]);

const SPANS: &[Spans] = &[
    (2, 0, 7, &[((1, 1), 2), ((6, 2), 2), ((3, 1), 3)]),
    (2, 3, 2, &[((7, 2), 1), ((3, 1), 1)]),
    (1, 1, 4, &[((2, 1), 4)]),
    (1, 5, 0, &[]),
];

#[test]
fn runs_and_spans_are_the_longest(rt: HostRuntime) -> Result<(), Fail> {
    let site = of_two(rt.alloc())?;
    for (rev, want) in RUNS {
        has_runs(&rt, rt.alloc(), &site, *rev, want)?;
    }
    for spans in SPANS {
        has_spans(&rt, rt.alloc(), &site, *spans)?;
    }
    Ok(())
}

#[test]
fn cells(rt: HostRuntime) -> Result<(), Fail> {
    let site = of_two(rt.alloc())?;
    assert!(rt; site.sequence().cell_at(7).is_none());
    let Some(cell) = site.sequence().cell_at(2) else {
        panic!(rt; "no cell");
    };
    assert!(rt; named(cell.stamp) == (6, 2), "{cell:?}");
    assert!(rt; cell.parent.map(named) == Some((2, 1)), "{cell:?}");
    assert!(rt;
        cell.character == 'X' && cell.author.origin == 2,
        "{cell:?}"
    );
    assert!(rt; cell.born == 2 && cell.died.is_none(), "{cell:?}");
    Ok(())
}
