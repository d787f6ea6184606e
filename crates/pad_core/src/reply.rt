//! The replies of a pad and of a server.
use comments::Shown;
use guests::Guest;
use named_revisions::NamedRevision;
use pad_model::{Author, AuthorRun, Items, Name, Op, OpName, Piece, Seen, Text, Version};
use rights::{Grant, Right};
use sessions::Word;

/// The effect of an operation, in a word.
#[derive(Clone, Copy, Debug, PartialEq, Eq)]
pub enum Kind {
    Insert,
    Delete,
    Comment,
    Resolve,
    /// Several insertions and deletions.
    Edit,
}

/// The operation that made a revision.
#[derive(Debug, PartialEq, Drop)]
pub struct LogEntry {
    pub rev: u64,
    pub name: OpName,
    pub author: Author,
    pub kind: Kind,
    /// In milliseconds since 1970, where it was asked for.
    pub at: Option<u64>,
}

/// Somebody who is present.
#[derive(Debug, PartialEq, Drop)]
pub struct Present {
    pub visit: u64,
    pub author: Author,
    /// The number of visible characters before the caret.
    pub caret: u64,
}

/// A pad in a list of pads.
#[derive(Debug, PartialEq, Drop)]
pub struct Listed {
    pub name: Name,
    /// The right that the reader of the list has on it.
    pub right: Right,
    /// Its present revision.
    pub now: u64,
    pub closed: bool,
}

/// An author with a display name.
#[derive(Debug, Drop)]
pub struct Person {
    pub author: Name,
    /// The display name.
    pub name: Word,
}

/// The outcome of a pushed operation.
#[derive(Clone, Copy, Debug, PartialEq, Eq)]
pub enum Pushed {
    /// It was delivered or held before.
    Repeat,
    /// It waits for others.
    Held,
    /// It was delivered.
    Delivered,
}

/// The answer of a pad. `now` is the present revision, after the act.
#[derive(Debug, Drop)]
pub enum PadReply {
    /// The pad has another name.
    Elsewhere,
    /// The visit has this number.
    Joined {
        now: u64,
        visit: u64,
    },
    /// The new visit has this number. The old one made so many operations, the last of which has this name.
    Rejoined {
        now: u64,
        visit: u64,
        made: u64,
        last: Option<OpName>,
    },
    /// It is done.
    Done {
        now: u64,
    },
    /// The operation has this name, and made the revision `now`.
    Made {
        now: u64,
        name: OpName,
    },
    /// The operation has this name, made the revision `now`, and hid this many visible characters.
    Changed {
        now: u64,
        name: OpName,
        hidden: u64,
    },
    /// The text of a revision.
    Text {
        now: u64,
        rev: u64,
        text: Text,
    },
    /// The authors of the text of a revision.
    Runs {
        now: u64,
        rev: u64,
        runs: Items<AuthorRun>,
    },
    /// The comments of a revision, by name.
    Comments {
        now: u64,
        rev: u64,
        comments: Items<Shown>,
    },
    /// The changes that lead from the text of one revision to that of another, and how many comments and resolutions
    /// made the revisions between.
    Changes {
        now: u64,
        rev: u64,
        to: u64,
        pieces: Items<Piece>,
        notes: u64,
    },
    /// The number of characters, erased ones included, and the number of visible ones.
    Revs {
        now: u64,
        cells: u64,
        length: u64,
    },
    /// The operations that made some revisions.
    Entries {
        now: u64,
        entries: Items<LogEntry>,
    },
    /// The times at which some revisions were made, in milliseconds since 1970.
    Times {
        now: u64,
        times: Items<u64>,
    },
    /// The last revisions that are not later than some moments.
    RevsAt {
        now: u64,
        revs: Items<u64>,
    },
    /// The author of a character, the revision that inserted it, and its time, in milliseconds since 1970.
    Birth {
        now: u64,
        author: Author,
        rev: u64,
        at: u64,
    },
    /// Those present, in order of joining.
    Who {
        now: u64,
        who: Items<Present>,
    },
    /// Whether the pad is closed, and the rights of each grantee: the owner first, then everyone, then by first grant.
    Rights {
        now: u64,
        closed: bool,
        rights: Items<Grant>,
    },
    /// The revisions with a name, in the order in which they were named.
    Marks {
        now: u64,
        marks: Items<NamedRevision>,
    },
    /// The guests with a display name, in the order in which they first had one.
    Guests {
        now: u64,
        guests: Items<Guest>,
    },
    /// The number of delivered operations of each origin.
    Vector {
        now: u64,
        seen: Seen,
    },
    /// The outcome of a pushed operation, and the numbers of held operations that were then delivered and dropped.
    Pushed {
        now: u64,
        state: Pushed,
        released: u64,
        dropped: u64,
    },
    /// The first operations that a peer lacks.
    Pulled {
        now: u64,
        ops: Items<Op>,
    },
}

/// The answer of a server to a session.
#[derive(Debug, Drop)]
pub enum Reply {
    /// The session is now this author's.
    Hello { author: Author },
    /// The session is a peer's now: the replica number of this server, and the version that the peer can read.
    Peer { replica: u16, version: Version },
    /// The answer of the pad. A pad that was created answers that its creator joined.
    Pad(PadReply),
    /// The pads that the author may read, in the order of their cells.
    Pads { pads: Items<Listed> },
    /// Those of the authors asked for who have a display name, in the order of the request.
    People { people: Items<Person> },
    /// The session has left its pads, and is unauthenticated again.
    Ended,
}
