use crate::name::Name;

/// The author of a character: a name, and the replica number of the server with that account.
#[derive(Clone, Debug, PartialEq, Drop)]
pub struct Author {
    pub name: Name,
    pub origin: u16,
}

/// A stretch of characters by one author.
#[derive(Clone, Debug, PartialEq, Drop)]
pub struct AuthorRun {
    pub author: Author,
    pub len: u64,
}

/// The version of the wire that a peer can read. Version 1 has smaller limits.
#[derive(Clone, Copy, Debug, PartialEq, Eq)]
pub enum Version {
    One,
    Two,
}

/// The author that a session belongs to.
#[derive(Clone, Debug, PartialEq, Drop)]
pub enum Who {
    Nobody,
    Author(Name),
    Peer { number: u16, version: Version },
}
