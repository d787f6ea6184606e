//! The limits of operations, and the equality of two operations.
use pad_model::{
    Items, MAX_COUNTER, Name, Op, OpName, Part, Refusal, Run, Seen, Span, Stamp, Text,
};
use std::alloc::Global;
use std::test::Fail;

/// A part by its numbers: the counter, replica and length of an insertion, the lengths of spans, the length of a
/// comment, or the number of a comment.
#[derive(Clone, Copy)]
enum Sketch {
    Insert(u64, u16, u64),
    Delete(&'static [u64]),
    Comment(u64),
    Resolve(u16, u64),
}

const RESOLUTION: [Sketch; 1] = [Sketch::Resolve(3, 1)];

fn text(alloc: Global, len: u64) -> Result<Text, Refusal> {
    let mut text = Text::new(alloc);
    for _ in 0..len {
        text.push('a')?;
    }
    Ok(text)
}

fn insertion(alloc: Global, first: Stamp, len: u64) -> Result<Part, Refusal> {
    let text = text(alloc, len)?;
    Ok(Part::Insert(Run {
        first,
        after: None,
        text,
    }))
}

fn deletion(alloc: Global, first: Stamp, lens: &[u64]) -> Result<Part, Refusal> {
    let mut spans = Items::new(alloc);
    for len in lens {
        spans.push(Span { first, len: *len })?;
    }
    Ok(Part::Delete(spans))
}

fn comment(alloc: Global, first: Stamp, len: u64) -> Result<Part, Refusal> {
    let text = text(alloc, len)?;
    Ok(Part::Comment {
        first,
        last: first,
        text,
    })
}

fn part(alloc: Global, sketch: Sketch) -> Result<Part, Refusal> {
    let first = Stamp::new(1, 3)?;
    match sketch {
        Sketch::Insert(counter, replica, len) => {
            insertion(alloc, Stamp::new(counter, replica)?, len)
        }
        Sketch::Delete(lens) => deletion(alloc, first, lens),
        Sketch::Comment(len) => comment(alloc, first, len),
        Sketch::Resolve(origin, number) => Ok(Part::Resolve {
            comment: OpName { origin, number },
        }),
    }
}

fn parts(alloc: Global, sketches: &[Sketch]) -> Result<Items<Part>, Refusal> {
    let mut parts = Items::new(alloc);
    for sketch in sketches {
        parts.push(part(alloc, *sketch)?)?;
    }
    Ok(parts)
}

/// An operation without its parts: its name, its author, and the origin that it has seen, with a count.
type Head<'a> = (OpName, &'a str, Option<(u16, u64)>);

const FIRST: OpName = OpName {
    origin: 2,
    number: 1,
};

const BY_ADA: Head<'static> = (FIRST, "ada", None);

const BY_BOB: Head<'static> = (FIRST, "bob", None);

fn seen(alloc: Global, counted: Option<(u16, u64)>) -> Result<Seen, Refusal> {
    let mut seen = Seen::new(alloc);
    if let Some((origin, count)) = counted {
        seen.set(origin, count)?;
    }
    Ok(seen)
}

fn op_of(alloc: Global, head: Head<'_>, sketches: &[Sketch]) -> Result<Op, Refusal> {
    let (name, author, counted) = head;
    Ok(Op {
        name,
        seen: seen(alloc, counted)?,
        author: Name::from_str(alloc, author)?,
        parts: parts(alloc, sketches)?,
    })
}

/// The result of checking an operation, and whether it only edits the text.
type Judged = (Result<(), Refusal>, bool);

fn judged(alloc: Global, head: Head<'_>, sketches: &[Sketch]) -> Result<Judged, Refusal> {
    let op = op_of(alloc, head, sketches)?;
    Ok((op.check(), op.is_edit()))
}

/// The case, the parts, and whether they are within their limits.
type Case = (&'static str, &'static [Sketch], bool);

const PARTS: &[Case] = &[
    ("10,000 characters", &[Sketch::Insert(1, 2, 10_000)], true),
    (
        "the last counter",
        &[Sketch::Insert(MAX_COUNTER, 2, 1)],
        true,
    ),
    ("no character", &[Sketch::Insert(1, 2, 0)], false),
    ("10,001 characters", &[Sketch::Insert(1, 2, 10_001)], false),
    ("another replica", &[Sketch::Insert(1, 3, 1)], false),
    (
        "no counter left",
        &[Sketch::Insert(MAX_COUNTER, 2, 2)],
        false,
    ),
    ("10,000 stamps", &[Sketch::Delete(&[1, 9_999])], true),
    ("no span", &[Sketch::Delete(&[])], false),
    ("an empty span", &[Sketch::Delete(&[0])], false),
    ("10,001 stamps", &[Sketch::Delete(&[1, 10_000])], false),
    (
        "two huge spans",
        &[Sketch::Delete(&[u64::MAX, u64::MAX])],
        false,
    ),
    ("a comment", &[Sketch::Comment(2_000)], true),
    ("an empty comment", &[Sketch::Comment(0)], false),
    ("a long comment", &[Sketch::Comment(2_001)], false),
    ("a resolution", &[Sketch::Resolve(3, 1)], true),
    ("no such comment", &[Sketch::Resolve(3, 0)], false),
    ("a comment of no replica", &[Sketch::Resolve(0, 1)], false),
    ("no part", &[], false),
    ("17 parts", &[Sketch::Delete(&[1]); 17], false),
    (
        "a comment beside an edit",
        &[Sketch::Delete(&[1]), Sketch::Comment(1)],
        false,
    ),
    (
        "counters that fall",
        &[Sketch::Insert(1, 2, 3), Sketch::Insert(3, 2, 1)],
        false,
    ),
    (
        "10,001 together",
        &[Sketch::Insert(1, 2, 1), Sketch::Delete(&[10_000])],
        false,
    ),
];

fn are_edits(sketches: &[Sketch]) -> bool {
    for sketch in sketches {
        match sketch {
            Sketch::Insert(..) | Sketch::Delete(_) => {}
            _ => return false,
        }
    }
    true
}

/// The result that the check of an operation with these parts should give.
fn wanted(sketches: &[Sketch], fits: bool) -> Judged {
    let answer = if fits { Ok(()) } else { Err(Refusal::BadOp) };
    (answer, are_edits(sketches))
}

#[test]
fn checks_the_parts(rt: HostRuntime) -> Result<(), Fail> {
    for (what, sketches, fits) in PARTS {
        let came = judged(rt.alloc(), BY_ADA, sketches)?;
        let want = wanted(sketches, *fits);
        assert!(rt; came == want, "{what}: wanted {want:?}, came {came:?}");
    }
    Ok(())
}

fn is_same_as_its_copy(op: &Op) -> Result<bool, Refusal> {
    Ok(op.is_same(&op.clone()?))
}

/// Returns true if an operation that resolves a comment is the same as its copy.
fn copies(alloc: Global, head: Head<'_>) -> Result<bool, Refusal> {
    is_same_as_its_copy(&op_of(alloc, head, &RESOLUTION)?)
}

fn is_same_as_with(alloc: Global, op: &Op, head: Head<'_>) -> Result<bool, Refusal> {
    Ok(op.is_same(&op_of(alloc, head, &RESOLUTION)?))
}

/// Returns true if operations with these two heads that resolve a comment are the same.
fn are_same(alloc: Global, one: Head<'_>, other: Head<'_>) -> Result<bool, Refusal> {
    is_same_as_with(alloc, &op_of(alloc, one, &RESOLUTION)?, other)
}

fn is_by(alloc: Global, head: Head<'_>, author: &str) -> Result<bool, Refusal> {
    Ok(op_of(alloc, head, &RESOLUTION)?.author.is(author))
}

#[test]
fn a_copy_is_the_same(rt: HostRuntime) -> Result<(), Fail> {
    assert!(rt; copies(rt.alloc(), BY_ADA)?, "a copy is another operation");
    assert!(rt;
        !are_same(rt.alloc(), BY_ADA, BY_BOB)?,
        "ada's and bob's are the same"
    );
    assert!(rt; is_by(rt.alloc(), BY_ADA, "ada")?, "ada's is not hers");
    assert!(rt; !is_by(rt.alloc(), BY_BOB, "ada")?, "bob's is ada's");
    Ok(())
}

/// The origin and number of an operation, its author, an origin and its count in the version vector, and whether they
/// are within their limits.
type HeadCase = (u16, u64, &'static str, u16, u64, bool);

const HEADS: &[HeadCase] = &[
    (2, 1, "ada", 3, 1, true),
    (2, 1, "abcdefghijklmnopqrstuvwxyz-01234", 3, 1, true),
    (0, 1, "ada", 3, 1, false),
    (2, 0, "ada", 3, 1, false),
    (2, 200_001, "ada", 3, 1, false),
    (2, 1, "", 3, 1, false),
    (2, 1, "abcdefghijklmnopqrstuvwxyz-012345", 3, 1, false),
    (2, 1, "Ada", 3, 1, false),
    (2, 1, "ada", 2, 1, false),
    (2, 1, "ada", 0, 1, false),
    (2, 1, "ada", 3, 200_001, false),
];

fn fits(alloc: Global, name: OpName, author: &str, seen: (u16, u64)) -> Result<bool, Refusal> {
    let (answer, _) = judged(alloc, (name, author, Some(seen)), &RESOLUTION)?;
    Ok(answer.is_ok())
}

#[test]
fn checks_the_head(rt: HostRuntime) -> Result<(), Fail> {
    for (origin, number, author, other, count, want) in HEADS {
        let (origin, number) = (*origin, *number);
        let name = OpName { origin, number };
        let came = fits(rt.alloc(), name, author, (*other, *count))?;
        assert!(rt;
            came == *want,
            "{author} {origin} {number} {other} {count}: wanted {want}, came {came}"
        );
    }
    Ok(())
}
