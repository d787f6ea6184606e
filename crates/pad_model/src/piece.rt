//! The difference between two revisions.
use crate::text::Text;
use crate::who::Author;

/// A stretch of the difference between two revisions, in the order of the text.
#[derive(Debug, PartialEq, Drop)]
pub enum Piece {
    /// This many characters of the first revision stay.
    Keep(u64),
    /// This many characters of the first revision are dropped.
    Drop(u64),
    /// Characters of one author are inserted.
    Insert { author: Author, text: Text },
}
