//! The acts that a pad can be asked to do.
ghost use Rattle.std.specs.Prelude.{◌≡◌};

use pad_model::{Items, Name, Op, OpName, Seen, Text};
use rights::{Grantee, Right};
use std::alloc::AllocError;

/// One change of an edit, at a place of its revision.
#[derive(Debug, Drop)]
pub enum Change {
    /// Inserts a text.
    Insert { at: u64, text: Text },
    /// Erases `len` characters.
    Delete { at: u64, len: u64 },
}

/// An act of somebody on a pad. Places and lengths count the characters of the revision that is named.
#[derive(Debug, Drop)]
pub enum Act {
    /// Joins the pad with a new visit.
    Join,
    /// Joins the pad with a new visit instead of an old one of the author, which ends if it has not ended yet.
    Rejoin {
        old: u64,
    },
    /// Ends the visit.
    Leave,
    /// Inserts a text at a place of a revision.
    Insert {
        rev: u64,
        at: u64,
        text: Text,
    },
    /// Erases the `len` characters of a revision from a place on.
    Delete {
        rev: u64,
        at: u64,
        len: u64,
    },
    /// Makes several changes of a revision at once. Each refers to the unchanged revision.
    Edit {
        rev: u64,
        changes: Items<Change>,
    },
    /// Comments on the `len` characters of a revision from a place on.
    Comment {
        rev: u64,
        at: u64,
        len: u64,
        text: Text,
    },
    /// Resolves a comment.
    Resolve {
        comment: OpName,
    },
    /// Reads the text of a revision; None is the present one.
    Text {
        rev: Option<u64>,
    },
    /// Reads who wrote the text of a revision.
    Runs {
        rev: Option<u64>,
    },
    /// Reads the comments of a revision.
    Comments {
        rev: Option<u64>,
    },
    /// Reads the changes that lead from the text of one revision to that of a later one; None is the present one.
    /// `wait` is the number of seconds for which the answer may be held back while there is no later revision than
    /// `rev`.
    Changes {
        rev: u64,
        to: Option<u64>,
        wait: u64,
    },
    /// Reads the length of the pad.
    Revs,
    /// Reads what made up to `count` revisions from one on, and with `times` also when.
    Entries {
        from: u64,
        count: u64,
        times: bool,
    },
    /// Reads when up to `count` revisions were made: one, and others each `step` further on.
    Times {
        from: u64,
        step: u64,
        count: u64,
    },
    /// Reads for some moments, in milliseconds since 1970, the last revisions that are not later.
    RevsAt {
        moments: Items<u64>,
    },
    /// Reads who wrote the character that a revision shows at a place, in which revision, and when.
    Birth {
        rev: u64,
        at: u64,
    },
    /// Puts the visit's caret after the character before a place.
    Caret {
        rev: u64,
        at: u64,
    },
    /// Reads who is present.
    Who,
    /// Gives an author or everyone a right, or takes it away (None).
    Grant {
        grantee: Grantee,
        right: Option<Right>,
    },
    /// Hands the pad over to an author, who owns it from then on.
    Hand {
        author: Name,
    },
    /// Reads who has which right, and whether the pad is closed.
    Rights,
    /// Closes the pad, or opens it again.
    SetClosed {
        closed: bool,
    },
    /// Gives a revision a name.
    Mark {
        rev: u64,
        text: Text,
    },
    /// Reads which revisions have a name.
    Marks,
    /// Gives the guest who asks a display name.
    Introduce {
        display: Text,
    },
    /// Reads which guests have a display name.
    Guests,
    /// Reports to a peer how many operations of each origin were delivered.
    Vector,
    /// Takes an operation from a peer.
    Push {
        op: Op,
    },
    /// Gives a peer the first operations that it lacks: `max` of them or, with a batch, that many as far as they fit.
    Pull {
        seen: Seen,
        max: u64,
        batch: Option<u64>,
    },
}

impl Clone for Change {
    ghost is_clone = { λ s t. t ≡ s };

    fn clone(&self) -> Result<Change, AllocError> {
        Ok(match self {
            Change::Insert { at, text } => Change::Insert {
                at: *at,
                text: text.clone()?,
            },
            Change::Delete { at, len } => Change::Delete { at: *at, len: *len },
        })
    }
}

impl Clone for Act {
    ghost is_clone = { λ s t. t ≡ s };

    fn clone(&self) -> Result<Act, AllocError> {
        Ok(match self {
            Act::Join => Act::Join,
            Act::Rejoin { old } => Act::Rejoin { old: *old },
            Act::Leave => Act::Leave,
            Act::Insert { rev, at, text } => Act::Insert {
                rev: *rev,
                at: *at,
                text: text.clone()?,
            },
            Act::Delete { rev, at, len } => Act::Delete {
                rev: *rev,
                at: *at,
                len: *len,
            },
            Act::Edit { rev, changes } => Act::Edit {
                rev: *rev,
                changes: changes.clone()?,
            },
            Act::Comment { rev, at, len, text } => Act::Comment {
                rev: *rev,
                at: *at,
                len: *len,
                text: text.clone()?,
            },
            Act::Resolve { comment } => Act::Resolve { comment: *comment },
            Act::Text { rev } => Act::Text { rev: *rev },
            Act::Runs { rev } => Act::Runs { rev: *rev },
            Act::Comments { rev } => Act::Comments { rev: *rev },
            Act::Changes { rev, to, wait } => Act::Changes {
                rev: *rev,
                to: *to,
                wait: *wait,
            },
            Act::Revs => Act::Revs,
            Act::Entries { from, count, times } => Act::Entries {
                from: *from,
                count: *count,
                times: *times,
            },
            Act::Times { from, step, count } => Act::Times {
                from: *from,
                step: *step,
                count: *count,
            },
            Act::RevsAt { moments } => Act::RevsAt {
                moments: moments.clone()?,
            },
            Act::Birth { rev, at } => Act::Birth { rev: *rev, at: *at },
            Act::Caret { rev, at } => Act::Caret { rev: *rev, at: *at },
            Act::Who => Act::Who,
            Act::Grant { grantee, right } => Act::Grant {
                grantee: grantee.clone()?,
                right: *right,
            },
            Act::Hand { author } => Act::Hand {
                author: author.clone()?,
            },
            Act::Rights => Act::Rights,
            Act::SetClosed { closed } => Act::SetClosed { closed: *closed },
            Act::Mark { rev, text } => Act::Mark {
                rev: *rev,
                text: text.clone()?,
            },
            Act::Marks => Act::Marks,
            Act::Introduce { display } => Act::Introduce {
                display: display.clone()?,
            },
            Act::Guests => Act::Guests,
            Act::Vector => Act::Vector,
            Act::Push { op } => Act::Push { op: op.clone()? },
            Act::Pull { seen, max, batch } => Act::Pull {
                seen: seen.clone()?,
                max: *max,
                batch: *batch,
            },
        })
    }
}
