ghost use Rattle.std.specs.Prelude.{◌↔◌, ◌≡◌, false, IsTrue, MatchResult};
ghost use Rattle.std.specs.List.{list_all};
ghost use Rattle.pad_model.specs.Checked.{is_edit, is_checked};
ghost use Rattle.pad_model.specs.Log.{precedes};

use crate::check::{are_edits, is_checked};
use crate::items::Items;
use crate::name::Name;
use crate::refusal::Refusal;
use crate::seen::Seen;
use crate::stamp::Stamp;
use crate::text::Text;
use std::alloc::AllocError;

/// The name of an operation: its replica, and its sequence number among that replica's operations on this pad, from 1.
#[derive(Clone, Copy, Debug, PartialEq, Eq)]
pub struct OpName {
    pub origin: u16,
    pub number: u64,
}

impl OpName {
    /// Returns true if it comes before another name: by origin, then by number.
    pub fn precedes(self, other: OpName) -> bool
        ensures { result ≡ precedes self other }
    {
        self.origin < other.origin || (self.origin == other.origin && self.number < other.number)
    }
}

/// The characters with the stamps `first`, and the `len - 1` that follow it on the same replica.
#[derive(Clone, Copy, Debug, PartialEq, Eq)]
pub struct Span {
    pub first: Stamp,
    pub len: u64,
}

/// A text that was inserted at once. The parent of its first character is `after` (None: the root), and the parent of
/// each other character is the one before it.
#[derive(Clone, Debug, PartialEq, Drop)]
pub struct Run {
    pub first: Stamp,
    pub after: Option<Stamp>,
    pub text: Text,
}

/// One thing that an operation does.
#[derive(Debug, PartialEq, Drop)]
pub enum Part {
    Insert(Run),
    Delete(Items<Span>),
    Comment {
        first: Stamp,
        last: Stamp,
        text: Text,
    },
    Resolve {
        comment: OpName,
    },
}

/// One change of a pad, in the form that its maker sends to every server.
#[derive(Debug, PartialEq, Drop)]
pub struct Op {
    pub name: OpName,
    pub seen: Seen,
    pub author: Name,
    pub parts: Items<Part>,
}

impl Clone for Part {
    ghost is_clone = { λ s t. t ≡ s };

    fn clone(&self) -> Result<Part, AllocError> {
        Ok(match self {
            Part::Insert(run) => Part::Insert(run.clone()?),
            Part::Delete(spans) => Part::Delete(spans.clone()?),
            Part::Comment { first, last, text } => Part::Comment {
                first: *first,
                last: *last,
                text: text.clone()?,
            },
            Part::Resolve { comment } => Part::Resolve { comment: *comment },
        })
    }
}

impl Clone for Op {
    ghost is_clone = { λ s t. t ≡ s };

    fn clone(&self) -> Result<Op, AllocError> {
        Ok(Op {
            name: self.name,
            seen: self.seen.clone()?,
            author: self.author.clone()?,
            parts: self.parts.clone()?,
        })
    }
}

impl Op {
    pub fn is_same(&self, other: &Op) -> bool
        ensures { IsTrue result ↔ (self.now ≡ other.now) }
    {
        self == other
    }

    /// Returns true if it only inserts and erases. Each operation of several parts does.
    pub fn is_edit(&self) -> bool
        ensures { result ≡ list_all is_edit self.now.parts }
    {
        are_edits(self.parts.as_slice())
    }

    /// Refuses an operation that breaks a limit, with `BadOp`.
    pub fn check(&self) -> Result<(), Refusal>
        ensures { MatchResult result (λ _. IsTrue (is_checked self.now))
            (λ e. (e ≡ Refusal.BadOp) × (is_checked self.now ≡ false)) }
    {
        if is_checked(self) {
            Ok(())
        } else {
            Err(Refusal::BadOp)
        }
    }
}
