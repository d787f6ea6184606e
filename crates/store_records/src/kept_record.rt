//! One record of a pad.
use guests::Guest;
use named_revisions::NamedRevision;
use pad_model::{Name, Op};
use rights::{Grantee, Right};

/// A change to a pad that outlives a restart.
#[derive(Clone, Debug, PartialEq, Drop)]
pub enum Record {
    /// The pad was given a name and an owner, whose visit was the first. `visits` tells whether the records that follow say
    /// in which visit each operation was made: those of an earlier version do not.
    Named {
        name: Name,
        owner: Name,
        visits: bool,
    },
    /// An author or everyone was given a right, or lost it (None).
    Granted {
        grantee: Grantee,
        right: Option<Right>,
    },
    /// The pad was handed over to an author, who owns it from then on.
    Handed {
        author: Name,
    },
    /// The pad was closed, or opened again.
    Closed {
        closed: bool,
    },
    /// A revision was given a name.
    Marked {
        named: NamedRevision,
    },
    /// A guest was given a display name.
    Introduced {
        guest: Guest,
    },
    /// A visit number was given to an author. None: nobody knows to whom, since the file of an earlier version does not say.
    Visited {
        author: Option<Name>,
    },
    /// An operation was delivered, at this time in milliseconds since 1970. `visit` is the visit in which it was made here,
    /// or 0.
    Delivered {
        at: u64,
        visit: u64,
        op: Op,
    },
}
