//! The authors of a text: runs that are cut and joined, compared with results worked out by hand, and memory that is
//! reserved.
use crate::author_runs::RunCase::{By, Len, Put, Runs, Take};
use authorship::RunList;
use pad_model::{Author, AuthorRun, Name, Refusal};
use std::alloc::{AllocError, Global};
use std::process::Abort;
use std::test::Fail;

pub fn author(alloc: Global, name: &str) -> Result<Author, AllocError> {
    Ok(Author {
        name: Name::from_str(alloc, name)?,
        origin: 1,
    })
}

pub fn is_author(author: &Author, name: &str) -> bool {
    author.origin == 1 && author.name.is(name)
}

/// Inserts characters if the place exists, and returns whether it did.
pub fn put(
    list: &mut RunList,
    alloc: Global,
    pos: u64,
    name: &str,
    n: u64,
) -> Result<bool, Refusal> {
    let len = list.len();
    if pos > len || n > u64::MAX - len {
        return Ok(false);
    }
    let author = author(alloc, name)?;
    list.insert(alloc, pos, &author, n)?;
    Ok(true)
}

/// Deletes characters if they exist, and returns whether they did.
pub fn take(list: &mut RunList, pos: u64, n: u64) -> bool {
    let len = list.len();
    if pos > len || n > len - pos {
        return false;
    }
    list.delete(pos, n);
    true
}

/// The author of the character at a place, if there is one.
pub fn author_at(list: &RunList, pos: u64) -> Option<&Author> {
    if pos < list.len() {
        Some(list.author_at(pos))
    } else {
        None
    }
}

/// Returns true if there is a character at a place, and it is this author's.
pub fn is_by(list: &RunList, pos: u64, name: &str) -> bool {
    match author_at(list, pos) {
        Some(author) => is_author(author, name),
        None => false,
    }
}

/// The name of a run's author, and its length.
type Plain = (&'static str, u64);

fn is_run(run: &AuthorRun, want: Plain) -> bool {
    is_author(&run.author, want.0) && run.len == want.1
}

fn are_same(runs: &[AuthorRun], want: &[Plain]) -> bool {
    for (run, want) in runs.iter().zip(want) {
        if !is_run(run, *want) {
            return false;
        }
    }
    runs.len() == want.len()
}

fn are_runs(
    rt: &impl Abort,
    alloc: Global,
    list: &RunList,
    place: usize,
    want: &[Plain],
) -> Result<(), Refusal> {
    let runs = list.runs(alloc)?;
    assert!(rt;
        are_same(runs.as_slice(), want),
        "step {place}: wanted the runs {want:?}, came {runs:?}"
    );
    Ok(())
}

/// A change to a list, or the state that the list shows.
#[derive(Clone, Copy, Debug)]
enum RunCase {
    Put(u64, &'static str, u64),
    Take(u64, u64),
    Runs(&'static [Plain]),
    By(u64, &'static str),
    Len(u64),
}

/// Makes a change, or asserts that the list shows the state of the step.
fn play(
    rt: &impl Abort,
    alloc: Global,
    list: &mut RunList,
    place: usize,
    step: RunCase,
) -> Result<(), Refusal> {
    match step {
        Put(pos, name, n) => {
            let came = put(list, alloc, pos, name, n)?;
            assert!(rt;
                came,
                "step {place}, {step:?}: no such place of {}",
                list.len()
            );
        }
        Take(pos, n) => {
            assert!(rt;
                take(list, pos, n),
                "step {place}, {step:?}: no such place of {}",
                list.len()
            );
        }
        Runs(want) => are_runs(rt, alloc, list, place, want)?,
        By(pos, name) => {
            let came = author_at(list, pos);
            assert!(rt;
                is_by(list, pos, name),
                "step {place}, {step:?}: came {came:?}"
            );
        }
        Len(want) => assert!(rt;
            list.len() == want,
            "step {place}, {step:?}: came {}",
            list.len()
        ),
    }
    Ok(())
}

fn play_all(
    rt: &impl Abort,
    alloc: Global,
    list: &mut RunList,
    steps: &[RunCase],
) -> Result<(), Refusal> {
    for (place, step) in steps.iter().enumerate() {
        play(rt, alloc, list, place, *step)?;
    }
    Ok(())
}

/// Five characters of ann's, with one of bob's after the second, and then without it.
const BOB_COMES_AND_GOES: &[RunCase] = &[
    Len(0),
    Put(0, "ann", 5),
    Put(2, "bob", 1),
    Runs(&[("ann", 2), ("bob", 1), ("ann", 3)]),
    By(2, "bob"),
    By(3, "ann"),
    Take(2, 1),
    Runs(&[("ann", 5)]),
    Len(5),
];

#[test]
fn a_run_is_cut_and_joined(rt: HostRuntime) -> Result<(), Fail> {
    let mut list = RunList::new(rt.alloc());
    Ok(play_all(&rt, rt.alloc(), &mut list, BOB_COMES_AND_GOES)?)
}

fn reserve(alloc: Global, list: &mut RunList, n: u64) -> Result<(), Refusal> {
    let ann = author(alloc, "ann")?;
    list.reserve(alloc, &ann, n)
}

#[test]
fn reserved_room_changes_no_author(rt: HostRuntime) -> Result<(), Fail> {
    let mut list = RunList::new(rt.alloc());
    reserve(rt.alloc(), &mut list, 1)?;
    Ok(play_all(&rt, rt.alloc(), &mut list, BOB_COMES_AND_GOES)?)
}

const NO_ROOM: &[u64] = &[1 << 62, 1 << 63, u64::MAX];

#[test]
fn room_that_no_vector_has_is_refused(rt: HostRuntime) {
    let mut list = RunList::new(rt.alloc());
    for n in NO_ROOM {
        let came = reserve(rt.alloc(), &mut list, *n);
        assert!(rt;
            came == Err(Refusal::Memory),
            "room for {n}: wanted Memory, came {came:?}"
        );
    }
}
