//! Lists of authors and of stamps as the fewest runs and spans.
ghost use Rattle.std.specs.Prelude.{◌≡◌, ◌≤◌, length, map, IfOk};
ghost use Rattle.std.specs.List.{prefix_len};
ghost use Rattle.pad_model.specs.Character.{next};
ghost use Rattle.pad_model.specs.Stamp.{same_stamp};
ghost use Rattle.pad_model.specs.Visible.{same_author};
ghost use Rattle.pad_model.specs.Visible as visible;
ghost use Rattle.block_seq.specs.KeptParts.{following};

use pad_model::{Author, AuthorRun, Span, Stamp};
use std::alloc::{AllocError, Global};

/// Counts the authors at the front that equal this one.
fn count_same(authors: &[&Author], author: &Author) -> usize
    ensures value { result ≡ prefix_len (λ other. same_author author.now other.now) authors.now }
    ensures within { result ≤ length authors.now }
{
    authors.iter().take_while(|other| author == **other).count()
}

/// The author runs of a list of authors.
pub fn runs_of(alloc: Global, authors: &[&Author]) -> Result<Vec<AuthorRun>, AllocError>
    ensures { IfOk result (λ runs. runs.items
        ≡ visible.runs (map (λ author. author.now) authors.now)) }
{
    let mut runs = Vec::new(alloc);
    let mut place = 0;
    while place < authors.len() {
        let author = authors[place];
        let more = count_same(&authors[place + 1..], author);
        runs.push(AuthorRun {
            author: author.clone()?,
            len: more as u64 + 1,
        })?;
        place += more + 1;
    }
    Ok(runs)
}

/// Returns true if a stamp follows `last`.
fn follows(last: Stamp, stamp: Stamp) -> bool
    ensures { result ≡ same_stamp (next last) stamp }
{
    last.replica() == stamp.replica() && last.counter() + 1 == stamp.counter()
}

/// Counts the stamps at the front that follow a first one, each the one before it.
fn count_following(first: Stamp, stamps: &[Stamp]) -> usize
    ensures value { result ≡ following first stamps.now }
    ensures within { result ≤ length stamps.now }
{
    let mut last = first;
    let mut count = 0;
    for stamp in stamps {
        if !follows(last, *stamp) {
            return count;
        }
        last = *stamp;
        count += 1;
    }
    count
}

/// The spans of a list of stamps.
pub fn spans_of(alloc: Global, stamps: &[Stamp]) -> Result<Vec<Span>, AllocError>
    ensures { IfOk result (λ spans. spans.items ≡ visible.spans stamps.now) }
{
    let mut spans = Vec::new(alloc);
    let mut place = 0;
    while place < stamps.len() {
        let first = stamps[place];
        let more = count_following(first, &stamps[place + 1..]);
        spans.push(Span {
            first,
            len: more as u64 + 1,
        })?;
        place += more + 1;
    }
    Ok(spans)
}
