//! Comments and resolutions of authors.
ghost use Rattle.std.specs.Prelude.{◌≡◌, ◌≤◌, ◌+◌, ◌<◌, [], ◌∷◌, length, IsTrue, None, Some, MatchResult};
ghost use Rattle.pad_model.specs.Answers.{Answers};
ghost use Rattle.pad_model.specs.Checked.{is_checked, is_name};
ghost use Rattle.pad_model.specs.Visible.{stamp_at, visible};
ghost use Rattle.pad_core.specs.Counts.{characters_at, op_of};
ghost use Rattle.pad_core.specs.Delivered.{IsDelivered, delivery_refusal};
ghost use Rattle.pad_core.specs.Notes.{comment_parts, comment_refusal, noted, resolve_refusal};
ghost use Rattle.pad_core.specs.Notes as notes;

use crate::append::append;
use crate::edit::make_op;
use crate::ledger::Ledger;
use crate::reply::PadReply;
use crate::writer::{Passage, Writer};
use op_log::MadeList;
use pad_model::{
    Items, MAX_COMMENT, MAX_COMMENTS, MAX_OPERATIONS, OpName, Part, Refusal, Sequence, Stamp, Text,
};
use std::alloc::Global;

/// Comments on a passage.
pub fn comment<S: Sequence>(
    alloc: Global,
    ledger: &mut Ledger<S>,
    made: &mut MadeList,
    writer: Writer<'_>,
    passage: Passage,
    text: &Text,
) -> Result<PadReply, Refusal>
    requires replica { 1 ≤ writer.replica }
    requires author { IsTrue (is_name writer.author.now) }
    requires room { length ledger.old ≤ made.old.room }
    ensures answer { Answers ledger.old (notes.comment writer.entry.replica writer.entry.author.now passage.rev
        passage.at passage.len text.now ledger.old) result ledger.new }
    ensures made { made.new.made ≡ made.old.made }
    ensures grown { length ledger.old ≤ length ledger.new }
    ensures room { length ledger.new ≤ made.new.room }
{
    if let Some(refusal) = refuse_comment(ledger, passage, text) {
        return Err(refusal);
    }
    let part = make_comment(ledger, passage, text)?;
    note(alloc, ledger, made, writer, part)
}

/// Resolves a comment.
pub fn resolve<S: Sequence>(
    alloc: Global,
    ledger: &mut Ledger<S>,
    made: &mut MadeList,
    writer: Writer<'_>,
    comment: OpName,
) -> Result<PadReply, Refusal>
    requires replica { 1 ≤ writer.replica }
    requires author { IsTrue (is_name writer.author.now) }
    requires room { length ledger.old ≤ made.old.room }
    ensures answer { Answers ledger.old (notes.resolve writer.entry.replica writer.entry.author.now comment
        ledger.old) result ledger.new }
    ensures made { made.new.made ≡ made.old.made }
    ensures grown { length ledger.old ≤ length ledger.new }
    ensures room { length ledger.new ≤ made.new.room }
{
    if !ledger.has_comment(comment) {
        return Err(Refusal::NoComment);
    }
    if MAX_OPERATIONS <= ledger.len() {
        return Err(Refusal::LogFull);
    }
    note(alloc, ledger, made, writer, Part::Resolve { comment })
}

/// Makes the operation of one comment or resolution and delivers it.
fn note<S: Sequence>(
    alloc: Global,
    ledger: &mut Ledger<S>,
    made: &mut MadeList,
    writer: Writer<'_>,
    part: Part,
) -> Result<PadReply, Refusal>
    requires checked { IsTrue (is_checked
        (op_of writer.replica writer.author.now (part ∷ []) ledger.old)) }
    requires allowed { delivery_refusal
        (op_of writer.replica writer.author.now (part ∷ []) ledger.old) ledger.old ≡ None }
    requires room { length ledger.old ≤ made.old.room }
    ensures answer { Answers ledger.old (noted None writer.entry.replica writer.entry.author.now
        (part ∷ []) ledger.old) result ledger.new }
    ensures made { made.new.made ≡ made.old.made }
    ensures grown { length ledger.old ≤ length ledger.new }
    ensures room { length ledger.new ≤ made.new.room }
{
    let parts = Items::of_one(alloc, part)?;
    let op = make_op(ledger, writer, parts)?;
    let name = op.name;
    append(alloc, ledger, made, op)?;
    Ok(PadReply::Made {
        now: ledger.len(),
        name,
    })
}

/// Returns the reason a comment is refused, or None. The first refusal that applies is returned.
fn refuse_comment<S: Sequence>(ledger: &Ledger<S>, passage: Passage, text: &Text) -> Option<Refusal>
    ensures value { result ≡ comment_refusal passage.rev passage.at passage.len text.now
        ledger.now }
    ensures sound { IsDelivered ledger.now }
{
    let Passage { rev, at, len } = passage;
    if ledger.len() < rev {
        return Some(Refusal::NoRevision);
    }
    let shown = ledger.len_at(rev);
    if shown < at || shown - at < len {
        return Some(Refusal::OutOfRange);
    }
    if len == 0 || text.is_empty() {
        return Some(Refusal::Empty);
    }
    if MAX_COMMENT < text.len() as u64 {
        return Some(Refusal::TooMuch);
    }
    if MAX_OPERATIONS <= ledger.len() {
        return Some(Refusal::LogFull);
    }
    if MAX_COMMENTS <= ledger.comment_count() {
        return Some(Refusal::CommentsFull);
    }
    None
}

/// The part of a comment: it keeps the stamps of its first and its last character.
fn make_comment<S: Sequence>(
    ledger: &Ledger<S>,
    passage: Passage,
    text: &Text,
) -> Result<Part, Refusal>
    requires sound { IsDelivered ledger.now }
    requires allowed { comment_refusal passage.rev passage.at passage.len text.now ledger.now
        ≡ None }
    ensures { MatchResult result (λ part. comment_parts (characters_at passage.rev ledger.now)
        passage.at passage.len text.now ≡ part ∷ []) (λ e. e ≡ Refusal.Memory) }
{
    let Passage { rev, at, len } = passage;
    Ok(Part::Comment {
        first: shown_stamp(ledger, rev, at),
        last: shown_stamp(ledger, rev, at + len - 1),
        text: text.clone()?,
    })
}

/// The stamp of a character that a revision shows.
fn shown_stamp<S: Sequence>(ledger: &Ledger<S>, rev: u64, place: u64) -> Stamp
    requires { place < length (visible (characters_at rev ledger.now)) }
    ensures { stamp_at (characters_at rev ledger.now) place ≡ Some result }
{
    match ledger.stamp_at(rev, place) {
        Some(stamp) => stamp,
        None => unreachable!(),
    }
}
