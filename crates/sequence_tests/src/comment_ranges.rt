//! Comments on the plain sequence keep their text.
ghost use Rattle.std.specs.Prelude.{◌≡◌, ℕ, List, true, IfOk};
ghost use Rattle.comments.specs.Comments.{AreHeld, born_by, has_both};
ghost use Rattle.pad_model.specs.Cell.{Cell};

use crate::replica::PartSketch::{Erased, Typed};
use crate::replica::{Named, Replica, stamp_of};
use comments::{CommentBook, NewComment, Shown};
use pad_model::{Author, Name, OpName, Refusal, Sequence, Stamp, Text};
use std::alloc::Global;
use std::process::Abort;
use std::test::Fail;

const COMMENT: OpName = OpName {
    origin: 1,
    number: 3,
};

const ANOTHER: OpName = OpName {
    origin: 1,
    number: 1,
};

/// A comment of revision 1 on the characters from one stamp to another, and the revision that resolves it, if any.
#[derive(Clone, Copy)]
struct Draft {
    first: Stamp,
    last: Stamp,
    resolved: Option<u64>,
}

fn on(first: Named, last: Named) -> Result<Draft, Refusal> {
    Ok(Draft {
        first: stamp_of(first)?,
        last: stamp_of(last)?,
        resolved: None,
    })
}

fn book_of(alloc: Global, draft: Draft) -> Result<CommentBook, Refusal>
    ensures { IfOk result (λ book. (cells : List Cell) (rev : ℕ)
        → has_both cells draft.first draft.last ≡ true → AreHeld cells (born_by rev book)) }
{
    let author = Author {
        name: Name::from_str(alloc, "ada")?,
        origin: 1,
    };
    let text = Text::from_str(alloc, "c")?;
    let mut book = CommentBook::new(alloc);
    let given = NewComment {
        name: COMMENT,
        first: draft.first,
        last: draft.last,
        author: &author,
        text: &text,
        rev: 1,
    };
    book.add(alloc, given)?;
    if let Some(rev) = draft.resolved {
        book.resolve(COMMENT, rev)?;
    }
    Ok(book)
}

/// The place, length and resolution of a comment, as a list of comments shows them.
type SeenComment = (u64, u64, bool);

fn are_seen(comments: &[Shown], want: &[SeenComment]) -> bool {
    for (row, want) in comments.iter().zip(want) {
        if row.at != want.0 || row.len != want.1 || row.resolved != want.2 {
            return false;
        }
    }
    comments.len() == want.len()
}

/// Asserts the comments of the list at a revision.
fn lists(
    rt: &impl Abort,
    alloc: Global,
    site: &Replica,
    draft: Draft,
    rev: u64,
    want: &[SeenComment],
) -> Result<(), Refusal> {
    let seq = site.sequence();
    if !seq.has(draft.first) || !seq.has(draft.last) {
        return Err(Refusal::PeerFault);
    }
    let book = book_of(alloc, draft)?;
    let comments = book.list_at(alloc, seq, rev)?;
    assert!(rt;
        are_seen(comments.as_slice(), want),
        "revision {rev}: wanted {want:?}, came {comments:?}"
    );
    Ok(())
}

/// Asserts the range of the comment, found by its name.
fn has_range(
    rt: &impl Abort,
    alloc: Global,
    site: &Replica,
    draft: Draft,
    (rev, want): (u64, Option<(u64, u64)>),
) -> Result<(), Refusal> {
    let book = book_of(alloc, draft)?;
    let came = match book.range(site.sequence(), COMMENT, rev) {
        Some(range) => Some((range.at, range.len)),
        None => None,
    };
    assert!(rt;
        came == want,
        "revision {rev}: wanted {want:?}, came {came:?}"
    );
    Ok(())
}

/// `hello` in the first revision, `heXYllo` in the second, and `XY` in the third.
fn keeping_xy(alloc: Global) -> Result<Replica, Refusal> {
    let mut site = Replica::new(alloc)?;
    site.take(alloc, 1, &[Typed((1, 1), None, "hello")])?;
    site.take(alloc, 1, &[Typed((6, 1), Some((2, 1)), "XY")])?;
    match site.take(alloc, 1, &[Erased(&[((1, 1), 5)])])? {
        5 => Ok(site),
        _ => Err(Refusal::PeerFault),
    }
}

/// Returns a comment on `hello` that the fourth revision resolves.
fn on_hello() -> Result<Draft, Refusal> {
    Ok(Draft {
        resolved: Some(4),
        ..on((1, 1), (5, 1))?
    })
}

/// The comment, as listed at each revision.
const LISTED: &[(u64, &[SeenComment])] = &[
    (0, &[]),
    (1, &[(0, 5, false)]),
    (2, &[(0, 7, false)]),
    (3, &[(0, 2, false)]),
    (4, &[(0, 2, true)]),
];

fn resolve_another(alloc: Global, draft: Draft) -> Result<Result<(), Refusal>, Refusal> {
    let mut book = book_of(alloc, draft)?;
    Ok(book.resolve(ANOTHER, 5))
}

#[test]
fn comment_keeps_its_words(rt: HostRuntime) -> Result<(), Fail> {
    let alloc = rt.alloc();
    let draft = on_hello()?;
    let came = resolve_another(alloc, draft)?;
    assert!(rt;
        came == Err(Refusal::NoComment),
        "wanted NoComment, came {came:?}"
    );
    let site = keeping_xy(alloc)?;
    for (rev, want) in LISTED {
        lists(&rt, alloc, &site, draft, *rev, want)?;
    }
    Ok(has_range(&rt, alloc, &site, draft, (2, Some((0, 7))))?)
}

/// `abc` in the first revision, without its `b` in the second.
fn without_b(alloc: Global) -> Result<Replica, Refusal> {
    let mut site = Replica::new(alloc)?;
    site.take(alloc, 1, &[Typed((1, 1), None, "abc")])?;
    site.take(alloc, 1, &[Erased(&[((2, 1), 1)])])?;
    Ok(site)
}

#[test]
fn comment_on_deleted_word(rt: HostRuntime) -> Result<(), Fail> {
    let alloc = rt.alloc();
    let draft = on((2, 1), (2, 1))?;
    let beyond = on((2, 1), (9, 1))?;
    let site = without_b(alloc)?;
    has_range(&rt, alloc, &site, draft, (1, Some((1, 1))))?;
    has_range(&rt, alloc, &site, draft, (2, Some((1, 0))))?;
    lists(&rt, alloc, &site, draft, 2, &[(1, 0, false)])?;
    Ok(has_range(&rt, alloc, &site, beyond, (2, None))?)
}
