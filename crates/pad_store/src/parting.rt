//! The place at which two files of one pad part.
ghost use Rattle.std.specs.Prelude.{◌≡◌, IfOk, map};
ghost use Rattle.std.specs.List.{position};
ghost use Rattle.store_format.specs.Lines.{is_feed};
ghost use Rattle.store_format.specs.Lines as lines;
ghost use Rattle.pad_store.specs.Partings.{IsLastShared, Part};

use crate::chain::have_one_sum;
use std::alloc::{AllocError, Global};

/// The whole lines of a file, without their line feeds.
pub fn whole_lines<'a>(alloc: Global, bytes: &'a [u8]) -> Result<Vec<&'a [u8]>, AllocError>
    ensures { IfOk result (λ found. map (λ line. line.now) found.items ≡ lines.whole_lines bytes.now) }
{
    let mut lines = Vec::new(alloc);
    let mut rest = bytes;
    while let Some(end) = find_feed(rest) {
        let line = &rest[..end];
        rest = &rest[end + 1..];
        lines.push(line)?;
    }
    Ok(lines)
}

/// The lines of a file up to the last one whose sum is also that of the other file's line in the same place, and those
/// after it.
pub fn part<'s, 'a>(olds: &'s [&'a [u8]], news: &[&[u8]]) -> (&'s [&'a [u8]], &'s [&'a [u8]])
    ensures { Part (map (λ line. line.now) olds.now) (map (λ line. line.now) news.now)
        (map (λ line. line.now) result.0.now) (map (λ line. line.now) result.1.now) }
{
    olds.split_at(last_shared(olds, news))
}

// The number of lines up to the last one whose sum both files have in this place; 0 if there is none.
fn last_shared(olds: &[&[u8]], news: &[&[u8]]) -> usize
    ensures { IsLastShared (map (λ line. line.now) olds.now) (map (λ line. line.now) news.now)
        result }
{
    let mut shared: usize = 0;
    for place in 0..olds.len().min(news.len()) {
        if have_one_sum(olds[place], news[place]) {
            shared = place + 1;
        }
    }
    shared
}

// The index of the first line feed.
fn find_feed(bytes: &[u8]) -> Option<usize>
    ensures { result ≡ position is_feed bytes.now }
{
    bytes.iter().position(|byte| *byte == b'\n')
}
