//! Comments as a revision shows them.
ghost use Rattle.std.specs.Prelude.{◌≡◌, true, IfOk, MatchResult};
ghost use Rattle.comments.specs.Comments.{has_both, born_by, comments_at, AreHeld};
ghost use Rattle.comments.specs.Comments as comments_spec;

use crate::comment::Comment;
use pad_model::{Author, OpName, Sequence, Stamp, Text};
use std::alloc::{AllocError, Global};
use std::marker::Model;

/// A stretch of the visible text: where it begins, from 0, and how many characters it has.
#[derive(Clone, Copy, Debug, PartialEq, Eq)]
pub struct Range {
    pub at: u64,
    pub len: u64,
}

impl Model for Range {
    ghost use Rattle.pad_model.specs.Visible.{Range};

    ghost Value = { Range };

    ghost view = { λ r. record { at = r.at; len = r.len } };

    ghost inverse = { λ v. record { at = v.at; len = v.len } };
}

/// A comment as a revision shows it.
#[derive(Clone, Debug, PartialEq, Drop)]
pub struct Shown {
    pub name: OpName,
    pub author: Author,
    pub text: Text,
    pub at: u64,
    pub len: u64,
    pub resolved: bool,
}

/// The range from one character to another, if both are there, erased or not.
pub fn range_between<S: Sequence>(
    sequence: &S,
    first: Stamp,
    last: Stamp,
    rev: u64,
) -> Option<Range>
    ensures { result ≡ comments_spec.range_between rev (S.cells sequence.now) first last }
{
    let at = sequence.before(first, rev)?;
    let end = sequence.through(last, rev)?;
    Some(Range {
        at,
        len: end.saturating_sub(at),
    })
}

/// Returns true if a comment is resolved at a revision.
fn is_resolved(resolved: Option<u64>, rev: u64) -> bool
    ensures { result ≡ comments_spec.is_resolved rev resolved }
{
    match resolved {
        Some(from) => from <= rev,
        None => false,
    }
}

/// A comment as a revision shows it.
fn show<S: Sequence>(sequence: &S, comment: &Comment, rev: u64) -> Result<Shown, AllocError>
    requires { has_both (S.cells sequence.now) comment.now.first comment.now.last ≡ true }
    ensures { IfOk result (λ item. item ≡ comments_spec.shown rev (S.cells sequence.now) comment.now) }
{
    let range = range_between(sequence, comment.first, comment.last, rev).unwrap();
    Ok(Shown {
        name: comment.name,
        author: comment.author.clone()?,
        text: comment.text.clone()?,
        at: range.at,
        len: range.len,
        resolved: is_resolved(comment.resolved, rev),
    })
}

/// The comments of a revision.
pub fn list<S: Sequence>(
    alloc: Global,
    comments: &[Comment],
    sequence: &S,
    rev: u64,
) -> Result<Vec<Shown>, AllocError>
    requires { AreHeld (S.cells sequence.now) (born_by rev comments.now) }
    ensures { IfOk result (λ rows. rows.items
        ≡ comments_at rev (S.cells sequence.now) comments.now) }
{
    let mut rows = Vec::new(alloc);
    for comment in comments {
        if comment.born <= rev {
            rows.push(show(sequence, comment, rev)?)?;
        }
    }
    Ok(rows)
}
