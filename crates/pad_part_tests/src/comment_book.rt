//! Comments that are found by their names, and the number that a book can hold.
use comments::{CommentBook, NewComment};
use pad_model::{Author, Name, OpName, Refusal, Stamp, Text};
use std::alloc::Global;
use std::process::Abort;
use std::test::Fail;

fn named(origin: u16, number: u64) -> OpName {
    OpName { origin, number }
}

/// Adds a comment of ann's if its name is new, and returns whether it was.
fn add(book: &mut CommentBook, alloc: Global, name: OpName) -> Result<bool, Refusal> {
    if book.has(name) {
        return Ok(false);
    }
    let at = Stamp::new(1, 1)?;
    let author = Author {
        name: Name::from_str(alloc, "ann")?,
        origin: 1,
    };
    let text = Text::from_str(alloc, "why?")?;
    let given = NewComment {
        name,
        first: at,
        last: at,
        author: &author,
        text: &text,
        rev: 1,
    };
    book.add(alloc, given)?;
    Ok(true)
}

/// Asserts whether there is a comment, and whether it is resolved.
fn find(
    rt: &impl Abort,
    book: &mut CommentBook,
    name: OpName,
    is_there: bool,
    want: Result<(), Refusal>,
) {
    let has = book.has(name);
    assert!(rt;
        has == is_there,
        "has {name:?}: wanted {is_there}, came {has}"
    );
    let came = book.resolve(name, 5);
    assert!(rt;
        came == want,
        "resolve {name:?}: wanted {want:?}, came {came:?}"
    );
}

const ENTERED: &[(u16, u64)] = &[(2, 1), (1, 10), (1, 9), (3, 9)];

/// The name to look for, whether there is such a comment, and the result of resolving it.
const LOOKED_FOR: &[(u16, u64, bool, Result<(), Refusal>)] = &[
    (1, 9, true, Ok(())),
    (2, 1, true, Ok(())),
    (1, 1, false, Err(Refusal::NoComment)),
    (2, 9, false, Err(Refusal::NoComment)),
];

/// Adds four comments, and asserts that each is new.
fn add_four(rt: &impl Abort, book: &mut CommentBook, alloc: Global) -> Result<(), Refusal> {
    for (origin, number) in ENTERED {
        let is_new = add(book, alloc, named(*origin, *number))?;
        assert!(rt;
            is_new,
            "{number} of {origin}: wanted a new one, came one that is there"
        );
    }
    Ok(())
}

fn has_len(rt: &impl Abort, book: &CommentBook, want: u64) {
    let came = book.len();
    assert!(rt; came == want, "wanted {want} comments, came {came}");
}

#[test]
fn comments_are_found_by_origin_and_number(rt: HostRuntime) -> Result<(), Fail> {
    let mut book = CommentBook::new(rt.alloc());
    add_four(&rt, &mut book, rt.alloc())?;
    for (origin, number, is_there, want) in LOOKED_FOR {
        find(&rt, &mut book, named(*origin, *number), *is_there, *want);
    }
    assert!(rt;
        !add(&mut book, rt.alloc(), named(1, 10))?,
        "10 of 1 was entered twice"
    );
    has_len(&rt, &book, 4);
    Ok(())
}

#[test]
fn the_ten_thousandth_comment_is_the_last(rt: HostRuntime) {
    let mut book = CommentBook::new(rt.alloc());
    for number in 1..10_001u64 {
        let added = add(&mut book, rt.alloc(), named(1, number));
        assert!(rt;
            added == Ok(true),
            "comment {number}: wanted Ok(true), came {added:?}"
        );
    }
    has_len(&rt, &book, 10_000);
    let one_more = add(&mut book, rt.alloc(), named(2, 1));
    assert!(rt;
        one_more == Err(Refusal::CommentsFull),
        "wanted CommentsFull, came {one_more:?}"
    );
    has_len(&rt, &book, 10_000);
}
