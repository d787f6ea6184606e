//! The difference between two revisions.
use crate::inspected_pad::InspectedPad;
use crate::pieces::{Marks, marked};
use crate::revision_choice::RevisionChoice;
use crate::trouble::Trouble;
use pad_model::Text;
use std::alloc::{AllocError, Global};

/// The escape character, which begins a terminal command.
const ESCAPE: u8 = 27;

/// The text of a revision, with the text that was deleted and inserted up to a later one; None if that is an earlier
/// one.
pub fn diff(
    alloc: Global,
    bytes: &[u8],
    rev: RevisionChoice,
    to: RevisionChoice,
    coloured: bool,
) -> Result<Option<String>, Trouble> {
    let marks = coloured_marks(alloc, coloured)?;
    match InspectedPad::read(alloc, bytes) {
        Ok(mut book) => diff_of(alloc, &mut book, rev, to, &marks),
        Err(trouble) => Err(trouble),
    }
}

// The same of a file's pad.
fn diff_of(
    alloc: Global,
    book: &mut InspectedPad,
    rev: RevisionChoice,
    to: RevisionChoice,
    marks: &Marks,
) -> Result<Option<String>, Trouble> {
    let rev = book.number_of(alloc, rev)?;
    let to = book.number_of(alloc, to)?;
    if to < rev {
        return Ok(None);
    }
    let shown = compared(alloc, book, rev, to, marks)?;
    match shown.to_string(alloc) {
        Ok(text) => Ok(Some(text)),
        Err(_) => Err(Trouble::Memory),
    }
}

// The marks, with or without colours.
fn coloured_marks(alloc: Global, coloured: bool) -> Result<Marks, AllocError> {
    let gone = colour(alloc, coloured, "31")?;
    let come = colour(alloc, coloured, "32")?;
    let end = colour(alloc, coloured, "")?;
    marks(alloc, gone.as_str(), come.as_str(), end.as_str())
}

// The command that sets a colour on a terminal, or nothing without colours.
fn colour(alloc: Global, coloured: bool, code: &str) -> Result<String, AllocError> {
    if !coloured {
        return Ok(String::new(alloc));
    }
    let escape = char::from(ESCAPE);
    format!(in alloc; "{escape}[{code}m")
}

// The marks, with a prefix for each pair and a suffix after its last mark.
fn marks(alloc: Global, gone: &str, come: &str, end: &str) -> Result<Marks, AllocError> {
    let before_gone = mark(alloc, gone, "[-")?;
    let behind_gone = mark(alloc, "-]", end)?;
    let before_come = mark(alloc, come, "{+")?;
    let behind_come = mark(alloc, "+}", end)?;
    Ok(Marks {
        before_gone,
        behind_gone,
        before_come,
        behind_come,
    })
}

// Joins two texts.
fn mark(alloc: Global, front: &str, back: &str) -> Result<Text, AllocError> {
    let both = format!(in alloc; "{front}{back}")?;
    Text::from_str(alloc, both.as_str())
}

// The older text with the text that was deleted and inserted, ended by a line feed.
fn compared(
    alloc: Global,
    book: &mut InspectedPad,
    rev: u64,
    to: u64,
    marks: &Marks,
) -> Result<Text, Trouble> {
    let pieces = book.changes(alloc, rev, to)?;
    let text = book.text(alloc, Some(rev))?;
    let mut shown = marked(alloc, marks, pieces.as_slice(), text.as_slice())?;
    end_line(&mut shown)?;
    Ok(shown)
}

// Adds a line feed to a text whose last line has none.
fn end_line(text: &mut Text) -> Result<(), AllocError> {
    if text.as_slice().last() != Some(&'\n') {
        text.push('\n')?;
    }
    Ok(())
}
