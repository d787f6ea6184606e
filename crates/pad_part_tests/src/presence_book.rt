//! The visits present on a pad, compared with results worked out by hand.
use crate::presence_book::VisitCase::{Caret, Count, Holds, Instead, Join, Leave, Present};
use pad_model::{Name, Refusal, Stamp};
use presence::{DEFAULT_PRESENT, MAX_PRESENT, PresenceBook, Visit};
use rights::{Grantee, Right, RightsBook};
use std::alloc::Global;
use std::process::Abort;
use std::test::Fail;

/// The counter and the replica of a stamp.
type CaretStamp = (u64, u16);

/// A visit's number, its author, and its caret.
type Plain = (u64, &'static str, Option<CaretStamp>);

/// A call of a book and its result, or the state that the book shows.
#[derive(Clone, Copy, Debug)]
enum VisitCase {
    Join(&'static str, Result<u64, Refusal>),
    Instead(u64, &'static str, Result<u64, Refusal>),
    /// A visit from before a restart, and its author where that is known.
    Count(Option<&'static str>, Result<(), Refusal>),
    Caret(u64, Option<CaretStamp>, Result<(), Refusal>),
    Leave(u64, Result<(), Refusal>),
    Holds(u64, &'static str, bool),
    Present(&'static [Plain]),
}

fn put_caret(
    book: &mut PresenceBook,
    visit: u64,
    place: Option<CaretStamp>,
) -> Result<(), Refusal> {
    match place {
        None => book.caret(visit, None),
        Some((counter, replica)) => book.caret(visit, Some(Stamp::new(counter, replica)?)),
    }
}

fn is_caret(caret: Option<Stamp>, want: Option<CaretStamp>) -> bool {
    match (caret, want) {
        (Some(stamp), Some((counter, replica))) => {
            stamp.counter() == counter && stamp.replica() == replica
        }
        (None, None) => true,
        _ => false,
    }
}

fn is_visit(visit: &Visit, want: Plain) -> bool {
    visit.number == want.0 && visit.author.is(want.1) && is_caret(visit.caret, want.2)
}

fn are_visits(visits: &[Visit], want: &[Plain]) -> bool {
    for (visit, want) in visits.iter().zip(want) {
        if !is_visit(visit, *want) {
            return false;
        }
    }
    visits.len() == want.len()
}

fn are_present(
    rt: &impl Abort,
    alloc: Global,
    book: &PresenceBook,
    place: usize,
    want: &[Plain],
) -> Result<(), Refusal> {
    let visits = book.who(alloc)?;
    assert!(rt;
        are_visits(visits.as_slice(), want),
        "step {place}: wanted the visits {want:?}, came {visits:?}"
    );
    Ok(())
}

/// Makes a call, or asserts that the book shows the state of the step.
fn play(
    rt: &impl Abort,
    alloc: Global,
    book: &mut PresenceBook,
    place: usize,
    step: VisitCase,
) -> Result<(), Refusal> {
    match step {
        Join(author, want) => {
            let came = book.join(alloc, author);
            assert!(rt; came == want, "step {place}, {step:?}: came {came:?}");
        }
        Instead(old, author, want) => {
            let came = book.rejoin(alloc, old, author);
            assert!(rt; came == want, "step {place}, {step:?}: came {came:?}");
        }
        Count(author, want) => {
            let came = book.count(alloc, author);
            assert!(rt; came == want, "step {place}, {step:?}: came {came:?}");
        }
        Caret(visit, at, want) => {
            let came = put_caret(book, visit, at);
            assert!(rt; came == want, "step {place}, {step:?}: came {came:?}");
        }
        Leave(visit, want) => {
            let came = book.leave(visit);
            assert!(rt; came == want, "step {place}, {step:?}: came {came:?}");
        }
        Holds(visit, author, want) => {
            let came = book.holds(visit, author);
            assert!(rt; came == want, "step {place}, {step:?}: came {came}");
        }
        Present(want) => are_present(rt, alloc, book, place, want)?,
    }
    Ok(())
}

fn play_all(
    rt: &impl Abort,
    alloc: Global,
    book: &mut PresenceBook,
    steps: &[VisitCase],
) -> Result<(), Refusal> {
    for (place, step) in steps.iter().enumerate() {
        play(rt, alloc, book, place, *step)?;
    }
    Ok(())
}

const VISITS: &[VisitCase] = &[
    Join("ann", Ok(1)),
    Join("bob", Ok(2)),
    Join("ann", Ok(3)),
    Caret(3, Some((7, 2)), Ok(())),
    Caret(4, None, Err(Refusal::NotJoined)),
    Leave(2, Ok(())),
    Leave(2, Err(Refusal::NotJoined)),
    Join("bob", Ok(4)),
    Leave(1, Ok(())),
    Present(&[(3, "ann", Some((7, 2))), (4, "bob", None)]),
    Holds(3, "ann", true),
    Holds(3, "bob", false),
    Holds(2, "bob", false),
    Holds(0, "ann", false),
    Caret(3, None, Ok(())),
    Present(&[(3, "ann", None), (4, "bob", None)]),
];

/// Ann owns the pad, bob may own it, and eve and everyone may write.
fn rights_of_two_owners(alloc: Global) -> Result<RightsBook, Refusal> {
    let mut rights = RightsBook::new(alloc, Name::from_str(alloc, "ann")?);
    for (name, right) in [("bob", Right::Own), ("eve", Right::Write)] {
        let grantee = Grantee::Author(Name::from_str(alloc, name)?);
        rights.grant(&grantee, Some(right))?;
    }
    rights.grant(&Grantee::Everyone, Some(Right::Write))?;
    Ok(rights)
}

const BEFORE_CLOSING: &[VisitCase] = &[
    Join("ann", Ok(1)),
    Join("eve", Ok(2)),
    Join("bob", Ok(3)),
    Join("ann", Ok(4)),
    Join("joe", Ok(5)),
    Caret(3, Some((7, 2)), Ok(())),
];

const AFTER_CLOSING: &[VisitCase] = &[
    Present(&[(1, "ann", None), (3, "bob", Some((7, 2))), (4, "ann", None)]),
    Holds(2, "eve", false),
    Leave(5, Err(Refusal::NotJoined)),
    Join("eve", Ok(6)),
    Instead(2, "eve", Ok(7)),
];

#[test]
fn owners_alone_stay(rt: HostRuntime) -> Result<(), Fail> {
    let rights = rights_of_two_owners(rt.alloc())?;
    let mut book = PresenceBook::new(rt.alloc(), DEFAULT_PRESENT);
    play_all(&rt, rt.alloc(), &mut book, BEFORE_CLOSING)?;
    book.keep_owners(&rights);
    Ok(play_all(&rt, rt.alloc(), &mut book, AFTER_CLOSING)?)
}

#[test]
fn join_and_leave(rt: HostRuntime) -> Result<(), Fail> {
    let mut book = PresenceBook::new(rt.alloc(), DEFAULT_PRESENT);
    Ok(play_all(&rt, rt.alloc(), &mut book, VISITS)?)
}

/// Steps in a book where 64 visits are present.
const CROWDED: &[VisitCase] = &[
    Join("ann", Err(Refusal::Crowded)),
    Leave(64, Ok(())),
    Join("ann", Ok(65)),
];

/// Steps in a book where 1,024 visits are present.
const CROWDED_AT_MOST: &[VisitCase] = &[
    Join("ann", Err(Refusal::Crowded)),
    Leave(1, Ok(())),
    Join("ann", Ok(1_025)),
    Join("ann", Err(Refusal::Crowded)),
];

/// Joins this many visits of ann's, one after another, then plays the steps.
fn after_joins(
    rt: &impl Abort,
    alloc: Global,
    book: &mut PresenceBook,
    count: u64,
    steps: &[VisitCase],
) -> Result<(), Refusal> {
    for number in 1..=count {
        let came = book.join(alloc, "ann");
        assert!(rt; came == Ok(number), "join {number}: came {came:?}");
    }
    play_all(rt, alloc, book, steps)
}

#[test]
fn limit_presence(rt: HostRuntime) -> Result<(), Fail> {
    let mut book = PresenceBook::new(rt.alloc(), DEFAULT_PRESENT);
    Ok(after_joins(&rt, rt.alloc(), &mut book, 64, CROWDED)?)
}

#[test]
fn limit_presence_at_most(rt: HostRuntime) -> Result<(), Fail> {
    let mut book = PresenceBook::new(rt.alloc(), MAX_PRESENT);
    let steps = CROWDED_AT_MOST;
    Ok(after_joins(&rt, rt.alloc(), &mut book, 1_024, steps)?)
}

/// Steps in a book where two visits may be present.
const TWO: &[VisitCase] = &[
    Join("ann", Ok(1)),
    Join("bob", Ok(2)),
    Join("ann", Err(Refusal::Crowded)),
    Join("eve", Err(Refusal::Crowded)),
    Leave(1, Ok(())),
    Join("eve", Ok(3)),
    Join("ann", Err(Refusal::Crowded)),
    Present(&[(2, "bob", None), (3, "eve", None)]),
];

/// Visits that take the place of others, in a book where two may be present.
const REPLACED: &[VisitCase] = &[
    Count(Some("ann"), Ok(())),
    Count(None, Ok(())),
    Join("ann", Ok(3)),
    Join("bob", Ok(4)),
    Instead(0, "ann", Err(Refusal::NoVisit)),
    Instead(2, "ann", Err(Refusal::NoVisit)),
    Instead(4, "ann", Err(Refusal::NoVisit)),
    Instead(5, "ann", Err(Refusal::NoVisit)),
    Instead(u64::MAX, "ann", Err(Refusal::NoVisit)),
    Instead(1, "ann", Err(Refusal::Crowded)),
    Instead(3, "ann", Ok(5)),
    Present(&[(4, "bob", None), (5, "ann", None)]),
    Instead(3, "ann", Err(Refusal::Crowded)),
    Leave(4, Ok(())),
    Instead(4, "bob", Ok(6)),
    Leave(5, Ok(())),
    Instead(1, "ann", Ok(7)),
    Present(&[(6, "bob", None), (7, "ann", None)]),
];

#[test]
fn a_visit_takes_the_place_of_another(rt: HostRuntime) -> Result<(), Fail> {
    let mut book = PresenceBook::new(rt.alloc(), 2);
    Ok(play_all(&rt, rt.alloc(), &mut book, REPLACED)?)
}

#[test]
fn limit_presence_of_two(rt: HostRuntime) -> Result<(), Fail> {
    let mut book = PresenceBook::new(rt.alloc(), 2);
    Ok(play_all(&rt, rt.alloc(), &mut book, TWO)?)
}

#[test]
fn enter_whatever_the_limit(rt: HostRuntime) -> Result<(), Fail> {
    let mut book = PresenceBook::new(rt.alloc(), 0);
    let came = book.join(rt.alloc(), "ann");
    assert!(rt;
        came == Err(Refusal::Crowded),
        "wanted Crowded, came {came:?}"
    );
    let came = book.enter(rt.alloc(), "ann");
    assert!(rt; came == Ok(1), "wanted visit 1, came {came:?}");
    Ok(play_all(&rt, rt.alloc(), &mut book, &[Present(&[(1, "ann", None)])])?)
}

#[test]
fn limit_visits(rt: HostRuntime) {
    let mut book = PresenceBook::new(rt.alloc(), DEFAULT_PRESENT);
    for number in 1..1_000_001 {
        let came = book.join(rt.alloc(), "ann");
        assert!(rt; came == Ok(number), "join {number}: came {came:?}");
        let left = book.leave(number);
        assert!(rt; left == Ok(()), "leave {number}: came {left:?}");
    }
    let came = book.join(rt.alloc(), "ann");
    assert!(rt;
        came == Err(Refusal::VisitsSpent),
        "wanted VisitsSpent, came {came:?}"
    );
}
