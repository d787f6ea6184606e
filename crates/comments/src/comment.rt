use pad_model::{Author, OpName, Stamp, Text};

/// A comment as the book keeps it: the revision that made it, and the first one that resolved it.
#[derive(Debug, Drop)]
pub struct Comment {
    pub name: OpName,
    pub first: Stamp,
    pub last: Stamp,
    pub author: Author,
    pub text: Text,
    pub born: u64,
    pub resolved: Option<u64>,
}

/// A comment to be added to a book: its name, the first and the last character that it covers, its author and text, and
/// the revision that makes it.
#[derive(Clone, Copy)]
pub struct NewComment<'a> {
    pub name: OpName,
    pub first: Stamp,
    pub last: Stamp,
    pub author: &'a Author,
    pub text: &'a Text,
    pub rev: u64,
}
