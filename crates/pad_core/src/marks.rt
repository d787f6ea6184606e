//! The names of revisions.
ghost use Rattle.std.specs.Prelude.{◌≡◌};
ghost use Rattle.pad_model.specs.Answers.{Answers, Tells};
ghost use Rattle.pad_core.specs.Marks as marks_spec;

use crate::reply::PadReply;
use named_revisions::NamedRevisions;
use pad_model::{Name, Refusal, Text};
use std::alloc::Global;

/// Gives a revision a name.
pub fn mark(
    marks: &mut NamedRevisions,
    now: u64,
    rev: u64,
    author: &Name,
    at: u64,
    text: &Text,
) -> Result<PadReply, Refusal>
    ensures { Answers marks.old (marks_spec.mark now (record {
      rev = rev;
      author = author.now;
      at = at;
      text = text.now;
    }) marks.old) result marks.new }
{
    name_revision(marks, now, rev, author, at, text)?;
    Ok(PadReply::Done { now })
}

/// Gives a revision a name, unless the pad has no such revision.
pub fn name_revision(
    marks: &mut NamedRevisions,
    now: u64,
    rev: u64,
    author: &Name,
    at: u64,
    text: &Text,
) -> Result<(), Refusal>
    ensures { Answers marks.old (marks_spec.named now (record {
      rev = rev;
      author = author.now;
      at = at;
      text = text.now;
    }) marks.old) result marks.new }
{
    if now < rev {
        return Err(Refusal::NoRevision);
    }
    marks.add(rev, author, at, text)
}

/// All revisions with a name.
pub fn read_marks(alloc: Global, marks: &NamedRevisions, now: u64) -> Result<PadReply, Refusal>
    ensures { Tells (marks_spec.read_marks now marks.now) result }
{
    let marks = marks.list(alloc)?;
    Ok(PadReply::Marks { now, marks })
}
