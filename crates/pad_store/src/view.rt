//! A revision with its authors and comments, as text or as Markdown.
use crate::inspected_pad::InspectedPad;
use crate::pieces::{quoted, split};
use crate::revision_choice::RevisionChoice;
use crate::trouble::Trouble;
use comments::Shown;
use guests::Guest;
use pad_model::{AuthorRun, Items, Text};
use std::alloc::{AllocError, Global};
use std::fmt::Write;

/// The parts that are shown besides the text of a revision, and their form.
#[derive(Clone, Copy)]
pub struct View {
    pub authors: bool,
    pub comments: bool,
    pub markdown: bool,
}

impl View {
    /// Returns true if only the text is shown.
    pub fn is_plain(self) -> bool {
        !self.authors && !self.comments && !self.markdown
    }
}

/// The revision that is asked for, as a view shows it.
pub fn viewed(
    alloc: Global,
    bytes: &[u8],
    asked: RevisionChoice,
    view: View,
) -> Result<String, Trouble> {
    match InspectedPad::read(alloc, bytes) {
        Ok(mut book) => view_at(alloc, &mut book, asked, view),
        Err(trouble) => Err(trouble),
    }
}

// The revision that is asked for, of a file's pad, as a view shows it.
fn view_at(
    alloc: Global,
    book: &mut InspectedPad,
    asked: RevisionChoice,
    view: View,
) -> Result<String, Trouble> {
    let at = book.number_of(alloc, asked)?;
    view_of(alloc, book, at, view)
}

// A revision of a file's pad as a view shows it.
fn view_of(alloc: Global, book: &mut InspectedPad, at: u64, view: View) -> Result<String, Trouble> {
    let text = book.text(alloc, Some(at))?;
    let mut out = String::new(alloc);
    if view.markdown {
        put_title(&mut out, book.name.as_str(), at)?;
    }
    if view.authors {
        put_authors(alloc, &mut out, book, at, &text, view.markdown)?;
    } else {
        put_text(alloc, &mut out, &text)?;
    }
    if view.comments {
        put_notes(alloc, &mut out, book, at, &text, view.markdown)?;
    }
    if view.authors || view.comments {
        let guests = book.guests(alloc)?;
        put_guests(alloc, &mut out, &guests, view.markdown)?;
    }
    Ok(out)
}

// Adds the pad's name and the revision, as Markdown.
fn put_title(out: &mut String, name: &str, at: u64) -> Result<(), Trouble> {
    match write!(out, "# {name}\n\nRevision {at}\n\n") {
        Ok(()) => Ok(()),
        Err(_) => Err(Trouble::Memory),
    }
}

// Adds the text of a revision with its authors.
fn put_authors(
    alloc: Global,
    out: &mut String,
    book: &mut InspectedPad,
    at: u64,
    text: &Text,
    markdown: bool,
) -> Result<(), Trouble> {
    let runs = book.runs(alloc, Some(at))?;
    Ok(put_runs(alloc, out, text, &runs, markdown)?)
}

// Adds the comments of a revision.
fn put_notes(
    alloc: Global,
    out: &mut String,
    book: &mut InspectedPad,
    at: u64,
    text: &Text,
    markdown: bool,
) -> Result<(), Trouble> {
    let comments = book.comments(alloc, Some(at))?;
    Ok(put_comments(alloc, out, text, &comments, markdown)?)
}

// Adds the text, ended by a line feed.
fn put_text(alloc: Global, out: &mut String, text: &Text) -> Result<(), AllocError> {
    out.push_str(text.to_string(alloc)?.as_str())?;
    if text.as_slice().last() != Some(&'\n') {
        out.push('\n')?;
    }
    Ok(())
}

// Adds the authors of the text: a line for each author run.
fn put_runs(
    alloc: Global,
    out: &mut String,
    text: &Text,
    runs: &Items<AuthorRun>,
    markdown: bool,
) -> Result<(), AllocError> {
    let mark = if markdown { "- " } else { "" };
    let mut rest = text.as_slice();
    for run in runs.as_slice() {
        let (own, behind) = split(rest, run.len);
        let words = quoted(alloc, own)?;
        let name = run.author.name.as_str();
        let origin = run.author.origin;
        out.push_str(format!(in alloc; "{mark}{name}@{origin} {words}\n")?.as_str())?;
        rest = behind;
    }
    Ok(())
}

// Adds the display names of guests, if any have one: an empty line, and then a line for each.
fn put_guests(
    alloc: Global,
    out: &mut String,
    guests: &Items<Guest>,
    markdown: bool,
) -> Result<(), AllocError> {
    if guests.is_empty() {
        return Ok(());
    }
    let mark = if markdown { "- " } else { "" };
    out.push_str(if markdown { "\n## Guests\n\n" } else { "\n" })?;
    for guest in guests.as_slice() {
        let name = guest.author.as_str();
        let display = quoted(alloc, guest.display.as_slice())?;
        out.push_str(format!(in alloc; "{mark}{name} {display}\n")?.as_str())?;
    }
    Ok(())
}

// Adds the comments: an empty line, and then a line for each.
fn put_comments(
    alloc: Global,
    out: &mut String,
    text: &Text,
    comments: &Items<Shown>,
    markdown: bool,
) -> Result<(), AllocError> {
    let mark = if markdown { "- " } else { "" };
    out.push_str(if markdown { "\n## Comments\n\n" } else { "\n" })?;
    for comment in comments.as_slice() {
        let (_, behind) = split(text.as_slice(), comment.at);
        let (own, _) = split(behind, comment.len);
        let on = quoted(alloc, own)?;
        let words = quoted(alloc, comment.text.as_slice())?;
        let name = comment.author.name.as_str();
        let author = comment.author.origin;
        let origin = comment.name.origin;
        let number = comment.name.number;
        let state = if comment.resolved { ", resolved" } else { "" };
        let line = format!(in alloc;
            "{mark}[{origin},{number}] {name}@{author} on {on}: {words}{state}\n"
        )?;
        out.push_str(line.as_str())?;
    }
    Ok(())
}
