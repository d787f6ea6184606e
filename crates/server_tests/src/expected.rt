//! The replies that a page gives, at a revision whose operations it took.
use crate::plain_page::{PlainPage, Remark};
use std::alloc::{AllocError, Global};

/// The answer to `text`.
pub fn text_line(
    alloc: Global,
    page: &PlainPage,
    now: u64,
    rev: u64,
) -> Result<String, AllocError> {
    let mut line = format!(in alloc; r#"{{"now":{now},"ok":true,"rev":{rev},"text":""#)?;
    add_text(&mut line, page)?;
    Ok(line)
}

fn add_text(line: &mut String, page: &PlainPage) -> Result<(), AllocError> {
    for letter in &page.letters {
        if !letter.is_erased {
            line.push(letter.character)?;
        }
    }
    line.push_str("\"}\n")
}

/// The answer to `runs`. All letters of a server are ann's of that server.
pub fn runs_line(
    alloc: Global,
    page: &PlainPage,
    now: u64,
    rev: u64,
) -> Result<String, AllocError> {
    let mut line = format!(in alloc; r#"{{"now":{now},"ok":true,"rev":{rev},"runs":["#)?;
    add_runs(alloc, &mut line, page)?;
    Ok(line)
}

fn add_runs(alloc: Global, line: &mut String, page: &PlainPage) -> Result<(), AllocError> {
    let mut replica = 0;
    let mut len = 0_u64;
    for letter in &page.letters {
        if letter.is_erased {
            continue;
        }
        if letter.stamp.replica() != replica {
            end_run(alloc, line, replica, len)?;
            replica = letter.stamp.replica();
            len = 0;
        }
        len = len.saturating_add(1);
    }
    end_run(alloc, line, replica, len)?;
    line.push_str("]}\n")
}

fn end_run(alloc: Global, line: &mut String, replica: u16, len: u64) -> Result<(), AllocError> {
    if len == 0 {
        return Ok(());
    }
    if !line.ends_with('[') {
        line.push(',')?;
    }
    let run = format!(in alloc; r#"["ann@{replica}",{len}]"#)?;
    line.push_str(run.as_str())
}

/// The answer to `comments`.
pub fn comments_line(
    alloc: Global,
    page: &PlainPage,
    now: u64,
    rev: u64,
) -> Result<String, AllocError> {
    let mut line = String::from_str(alloc, r#"{"comments":["#)?;
    add_remarks(alloc, &mut line, page)?;
    add_end(alloc, &mut line, now, rev)?;
    Ok(line)
}

fn add_remarks(alloc: Global, line: &mut String, page: &PlainPage) -> Result<(), AllocError> {
    for remark in &page.remarks {
        if !line.ends_with('[') {
            line.push(',')?;
        }
        add_remark(alloc, line, page, remark)?;
    }
    Ok(())
}

fn add_remark(
    alloc: Global,
    line: &mut String,
    page: &PlainPage,
    remark: &Remark,
) -> Result<(), AllocError> {
    let text = remark_text(alloc, page, remark)?;
    line.push_str(text.as_str())
}

fn add_end(alloc: Global, line: &mut String, now: u64, rev: u64) -> Result<(), AllocError> {
    let end = format!(in alloc; "],\"now\":{now},\"ok\":true,\"rev\":{rev}}}\n")?;
    line.push_str(end.as_str())
}

/// A comment, with where it begins and how many visible letters it covers.
fn remark_text(alloc: Global, page: &PlainPage, remark: &Remark) -> Result<String, AllocError> {
    let (at, len) = covered(page, remark);
    let origin = remark.name.origin;
    let number = remark.name.number;
    let text = remark.text.as_str();
    let is_resolved = remark.is_resolved;
    format!(in alloc;
        r#"{{"at":{at},"author":"ann@{origin}","len":{len},"name":[{origin},{number}],"resolved":{is_resolved},"text":"{text}"}}"#
    )
}

fn covered(page: &PlainPage, remark: &Remark) -> (u64, u64) {
    let mut at = 0_u64;
    let mut len = 0_u64;
    let mut has_begun = false;
    let mut has_ended = false;
    for letter in &page.letters {
        has_begun = has_begun || letter.stamp == remark.first;
        if !letter.is_erased && !has_begun {
            at = at.saturating_add(1);
        }
        if !letter.is_erased && has_begun && !has_ended {
            len = len.saturating_add(1);
        }
        has_ended = has_ended || letter.stamp == remark.last;
    }
    (at, len)
}
