//! The rights of authors on a pad, compared with results worked out by hand, and the number of names that a pad can
//! hold.
use crate::grants::GrantCase::{Counts, Grants, Hands, Lists, May};
use pad_model::{Name, Refusal};
use rights::Right::{Comment, Own, Read, Write};
use rights::{Grant, Grantee, MAX_GRANTS, Right, RightsBook};
use std::alloc::{AllocError, Global};
use std::process::Abort;
use std::test::Fail;

fn book_of_ann(alloc: Global) -> Result<RightsBook, AllocError> {
    Ok(RightsBook::new(alloc, Name::from_str(alloc, "ann")?))
}

/// A name and its right.
type Plain = (&'static str, Right);

/// A call of a book and its result.
#[derive(Clone, Copy, Debug)]
enum GrantCase {
    Grants(&'static str, Option<Right>, Result<(), Refusal>),
    Hands(&'static str, Result<(), Refusal>),
    May(&'static str, Right, bool),
    Lists(&'static [Plain]),
    Counts(u64),
}

fn grant(
    alloc: Global,
    book: &mut RightsBook,
    name: &str,
    right: Option<Right>,
) -> Result<(), Refusal> {
    book.grant(&grantee(alloc, name)?, right)
}

fn hand(alloc: Global, book: &mut RightsBook, name: &str) -> Result<(), Refusal> {
    let name = Name::from_str(alloc, name)?;
    book.hand(&name)
}

/// The author with this name, or everyone for `*`.
fn grantee(alloc: Global, name: &str) -> Result<Grantee, AllocError> {
    match name {
        "*" => Ok(Grantee::Everyone),
        name => Ok(Grantee::Author(Name::from_str(alloc, name)?)),
    }
}

fn is_grantee(grantee: &Grantee, want: &str) -> bool {
    match grantee {
        Grantee::Author(name) => name.is(want),
        Grantee::Everyone => want == "*",
    }
}

fn may(alloc: Global, book: &RightsBook, name: &str, right: Right) -> Result<bool, Refusal> {
    let name = Name::from_str(alloc, name)?;
    Ok(book.may(&name, right))
}

fn is_grant(grant: &Grant, want: Plain) -> bool {
    is_grantee(&grant.grantee, want.0) && grant.right == want.1
}

fn are_grants(rows: &[Grant], want: &[Plain]) -> bool {
    for (grant, want) in rows.iter().zip(want) {
        if !is_grant(grant, *want) {
            return false;
        }
    }
    rows.len() == want.len()
}

fn lists(
    rt: &impl Abort,
    alloc: Global,
    book: &RightsBook,
    place: usize,
    want: &[Plain],
) -> Result<(), Refusal> {
    let rows = book.list(alloc)?;
    assert!(rt;
        are_grants(rows.as_slice(), want),
        "step {place}: wanted the grants {want:?}, came {rows:?}"
    );
    Ok(())
}

fn count(alloc: Global, book: &RightsBook) -> Result<u64, Refusal> {
    let rows = book.list(alloc)?;
    Ok(rows.len() as u64)
}

/// Makes a call, and asserts its result.
fn play(
    rt: &impl Abort,
    alloc: Global,
    book: &mut RightsBook,
    place: usize,
    step: GrantCase,
) -> Result<(), Refusal> {
    match step {
        Grants(name, right, want) => {
            let came = grant(alloc, book, name, right);
            assert!(rt; came == want, "step {place}, {step:?}: came {came:?}");
        }
        Hands(name, want) => {
            let came = hand(alloc, book, name);
            assert!(rt; came == want, "step {place}, {step:?}: came {came:?}");
        }
        May(name, right, want) => {
            let came = may(alloc, book, name, right)?;
            assert!(rt; came == want, "step {place}, {step:?}: came {came}");
        }
        Lists(want) => lists(rt, alloc, book, place, want)?,
        Counts(want) => {
            let came = count(alloc, book)?;
            assert!(rt; came == want, "step {place}, {step:?}: came {came}");
        }
    }
    Ok(())
}

fn play_all(
    rt: &impl Abort,
    alloc: Global,
    book: &mut RightsBook,
    steps: &[GrantCase],
) -> Result<(), Refusal> {
    for (place, step) in steps.iter().enumerate() {
        play(rt, alloc, book, place, *step)?;
    }
    Ok(())
}

/// Bob is granted a right, and has the lesser rights too.
const EACH_RIGHT: &[[GrantCase; 5]] = &[
    [
        Grants("bob", Some(Read), Ok(())),
        May("bob", Read, true),
        May("bob", Comment, false),
        May("bob", Write, false),
        May("bob", Own, false),
    ],
    [
        Grants("bob", Some(Comment), Ok(())),
        May("bob", Read, true),
        May("bob", Comment, true),
        May("bob", Write, false),
        May("bob", Own, false),
    ],
    [
        Grants("bob", Some(Write), Ok(())),
        May("bob", Read, true),
        May("bob", Comment, true),
        May("bob", Write, true),
        May("bob", Own, false),
    ],
    [
        Grants("bob", Some(Own), Ok(())),
        May("bob", Read, true),
        May("bob", Comment, true),
        May("bob", Write, true),
        May("bob", Own, true),
    ],
];

/// Plays the steps in a book that only ann has rights in.
fn play_in_new(rt: &impl Abort, alloc: Global, steps: &[GrantCase]) -> Result<(), Refusal> {
    let mut book = book_of_ann(alloc)?;
    play_all(rt, alloc, &mut book, steps)
}

#[test]
fn each_right_includes_those_before_it(rt: HostRuntime) -> Result<(), Fail> {
    for steps in EACH_RIGHT {
        play_in_new(&rt, rt.alloc(), steps)?;
    }
    Ok(())
}

const SHARED: &[GrantCase] = &[
    May("ann", Own, true),
    May("bob", Read, false),
    Grants("ann", Some(Read), Err(Refusal::OwnerKept)),
    Grants("ann", None, Err(Refusal::OwnerKept)),
    Grants("bob", None, Ok(())),
    Grants("bob", Some(Read), Ok(())),
    Grants("cyd", Some(Write), Ok(())),
    Grants("bob", Some(Comment), Ok(())),
    Lists(&[("ann", Own), ("bob", Comment), ("cyd", Write)]),
    Grants("bob", None, Ok(())),
    May("bob", Read, false),
    Grants("bob", Some(Own), Ok(())),
    Lists(&[("ann", Own), ("cyd", Write), ("bob", Own)]),
];

const FOR_EVERYONE: &[GrantCase] = &[
    Grants("bob", Some(Comment), Ok(())),
    Grants("*", Some(Read), Ok(())),
    May("cyd", Read, true),
    May("cyd", Comment, false),
    May("bob", Comment, true),
    Grants("*", Some(Write), Ok(())),
    May("cyd", Write, true),
    May("bob", Write, true),
    May("bob", Own, false),
    May("no name", Read, false),
    Lists(&[("ann", Own), ("*", Write), ("bob", Comment)]),
    Grants("bob", None, Ok(())),
    May("bob", Write, true),
    Grants("*", None, Ok(())),
    May("bob", Read, false),
    May("ann", Own, true),
    Lists(&[("ann", Own)]),
];

#[test]
fn an_author_has_the_greater_of_its_right_and_that_of_everyone(
    rt: HostRuntime,
) -> Result<(), Fail> {
    Ok(play_in_new(&rt, rt.alloc(), FOR_EVERYONE)?)
}

/// Two guests who came by one link, and one who came by another.
const GUESTS: &[GrantCase] = &[
    Grants("guest-aaaaaaaaaaaaa", Some(Comment), Ok(())),
    May("guest-aaaaaaaaaaaaabbbbbbbbbbbbb", Comment, true),
    May("guest-aaaaaaaaaaaaabbbbbbbbbbbbb", Write, false),
    May("guest-aaaaaaaaaaaaaccccccccccccc", Read, true),
    May("guest-ddddddddddddddddddddddddd2", Read, false),
    May("guest-aaaaaaaaaaaaabbbbbbbbbbbb", Read, false),
    Grants("*", Some(Write), Ok(())),
    May("bob", Write, true),
    May("guest-aaaaaaaaaaaaabbbbbbbbbbbbb", Write, false),
    May("guest-ddddddddddddddddddddddddd2", Read, false),
    Grants("guest-aaaaaaaaaaaaabbbbbbbbbbbbb", Some(Write), Ok(())),
    May("guest-aaaaaaaaaaaaabbbbbbbbbbbbb", Write, true),
    May("guest-aaaaaaaaaaaaaccccccccccccc", Write, false),
    Grants("guest-aaaaaaaaaaaaa", None, Ok(())),
    May("guest-aaaaaaaaaaaaabbbbbbbbbbbbb", Write, true),
    May("guest-aaaaaaaaaaaaaccccccccccccc", Read, false),
];

#[test]
fn a_guest_has_the_greater_of_its_right_and_that_of_its_link(rt: HostRuntime) -> Result<(), Fail> {
    Ok(play_in_new(&rt, rt.alloc(), GUESTS)?)
}

const HANDED: &[GrantCase] = &[
    Grants("bob", Some(Read), Ok(())),
    Grants("cyd", Some(Own), Ok(())),
    Hands("ann", Ok(())),
    Lists(&[("ann", Own), ("bob", Read), ("cyd", Own)]),
    Hands("bob", Ok(())),
    Lists(&[("bob", Own), ("cyd", Own), ("ann", Write)]),
    May("ann", Write, true),
    May("ann", Own, false),
    Grants("bob", None, Err(Refusal::OwnerKept)),
    Grants("ann", None, Ok(())),
    Hands("dee", Ok(())),
    Lists(&[("dee", Own), ("cyd", Own), ("bob", Write)]),
];

#[test]
fn a_new_owner_owns_and_the_former_one_may_write(rt: HostRuntime) -> Result<(), Fail> {
    Ok(play_in_new(&rt, rt.alloc(), HANDED)?)
}

#[test]
fn the_creator_keeps_own_and_others_have_their_grants(rt: HostRuntime) -> Result<(), Fail> {
    Ok(play_in_new(&rt, rt.alloc(), SHARED)?)
}

/// Returns a distinct name for each number below 26 * 26: `aa`, `ab`, ..
fn numbered(alloc: Global, number: u64) -> Result<String, Fail> {
    let mut text = String::new(alloc);
    for digit in [number / 26, number % 26] {
        text.push(char::from(b'a' + (digit % 26) as u8))?;
    }
    Ok(text)
}

fn may_read(alloc: Global, book: &mut RightsBook, number: u64) -> Result<(), Fail> {
    let name = numbered(alloc, number)?;
    Ok(grant(alloc, book, name.as_str(), Some(Read))?)
}

/// Steps in a full book, where `ab` is the first of those who may read.
const FULL: &[GrantCase] = &[
    Grants("zoe", Some(Read), Err(Refusal::GrantsFull)),
    Hands("zoe", Err(Refusal::GrantsFull)),
    Hands("ab", Ok(())),
    Counts(MAX_GRANTS),
    Hands("ann", Ok(())),
    Grants("ab", Some(Read), Ok(())),
    Grants("zoe", None, Ok(())),
    Grants("*", Some(Read), Ok(())),
    May("zoe", Read, true),
    Grants("*", None, Ok(())),
    Grants("ab", Some(Own), Ok(())),
    Counts(MAX_GRANTS),
    Grants("ab", None, Ok(())),
    Grants("zoe", Some(Read), Ok(())),
];

/// Grants the right to read to as many names as fit beside the creator.
fn fill(alloc: Global, book: &mut RightsBook) -> Result<(), Fail> {
    for number in 1..MAX_GRANTS {
        may_read(alloc, book, number)?;
    }
    Ok(())
}

#[test]
fn with_the_creator_there_are_256_names(rt: HostRuntime) -> Result<(), Fail> {
    let mut book = book_of_ann(rt.alloc())?;
    fill(rt.alloc(), &mut book)?;
    Ok(play_all(&rt, rt.alloc(), &mut book, FULL)?)
}
