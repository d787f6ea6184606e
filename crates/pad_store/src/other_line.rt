//! The lines of a file that make no revision.
use crate::chain::text_on;
use crate::file_names::{entry_on, value_of};
use crate::log::{seconds_of, time_of};
use crate::pieces::quoted;
use named_revisions::NamedRevision;
use pad_model::Refusal;
use rights::Grantee;
use serde_json::Value;
use std::alloc::{AllocError, Global};
use store_format::{StoreLine, read_entry};
use store_records::Record;

/// The output line for a line that makes no revision: `-`, the time, the author, and its kind. Without a time or an
/// author, `-` stands there.
pub fn other_line(alloc: Global, line: &[u8]) -> Result<String, AllocError> {
    let Some(text) = text_on(line) else {
        return unknown(alloc);
    };
    let Some(value) = value_of(alloc, text)? else {
        return unknown(alloc);
    };
    let time = time_of(alloc, number_at(&value, "at"))?;
    match read_entry(alloc, &value) {
        Ok(entry) => line_with(alloc, &value, time.as_str(), &entry),
        Err(Refusal::Memory) => Err(AllocError),
        Err(_) => unknown(alloc),
    }
}

/// The name that a line gives to a revision; None if it gives none.
pub fn name_on(alloc: Global, line: &[u8]) -> Result<Option<NamedRevision>, AllocError> {
    match entry_on(alloc, line)? {
        Some(StoreLine::Record(Record::Marked { named })) => Ok(Some(named)),
        _ => Ok(None),
    }
}

/// The output line for a name that a revision was given.
pub fn named_line(alloc: Global, named: &NamedRevision) -> Result<String, AllocError> {
    let time = time_of(alloc, seconds_of(named.at))?;
    let author = named.author.as_str();
    let rev = named.rev;
    let text = quoted(alloc, named.text.as_slice())?;
    format!(in alloc; "- {time} {author} mark {rev} {text}\n")
}

// The output line for a line whose meaning is known.
fn line_with(
    alloc: Global,
    value: &Value,
    time: &str,
    entry: &StoreLine,
) -> Result<String, AllocError> {
    match entry {
        StoreLine::Header(header) => format!(in alloc; "- {time} - server {}\n", header.replica),
        StoreLine::Record(Record::Named { owner, .. }) => {
            format!(in alloc; "- {time} {} create\n", owner.as_str())
        }
        StoreLine::Record(Record::Granted { grantee, .. }) => {
            let right = text_at(value, "right");
            format!(in alloc; "- {time} - right {} {right}\n", word_of(grantee))
        }
        StoreLine::Record(Record::Handed { author }) => {
            format!(in alloc; "- {time} - owner {}\n", author.as_str())
        }
        StoreLine::Record(Record::Closed { closed }) => {
            let done = if *closed { "closed" } else { "reopened" };
            format!(in alloc; "- {time} - {done}\n")
        }
        StoreLine::Record(Record::Marked { named }) => named_line(alloc, named),
        StoreLine::Record(Record::Introduced { guest }) => {
            let display = quoted(alloc, guest.display.as_slice())?;
            format!(in alloc; "- {time} {} guest {display}\n", guest.author.as_str())
        }
        StoreLine::Record(Record::Visited { author }) => {
            let author = match author {
                Some(author) => author.as_str(),
                None => "-",
            };
            format!(in alloc; "- {time} {author} visit\n")
        }
        StoreLine::Record(Record::Delivered { .. }) => unknown(alloc),
    }
}

// The name of an author, or `*` for everyone.
fn word_of(grantee: &Grantee) -> &str {
    match grantee {
        Grantee::Author(name) => name.as_str(),
        Grantee::Everyone => "*",
    }
}

// The output line for a line whose meaning is not known. A file whose pad can be read has none.
fn unknown(alloc: Global) -> Result<String, AllocError> {
    String::from_str(alloc, "- - - unknown\n")
}

// The number in a field of an object.
fn number_at(value: &Value, key: &str) -> Option<u64> {
    match value.get(key) {
        Some(number) => number.as_u64(),
        None => None,
    }
}

// The text in a field of an object; empty if it has none.
fn text_at<'a>(value: &'a Value, key: &str) -> &'a str {
    match value.get(key) {
        Some(text) => text.as_str().unwrap_or(""),
        None => "",
    }
}
