//! Checks of an operation against the contents of a pad.
ghost use Rattle.std.specs.Prelude.{◌≡◌, ◌≤◌, IsTrue, length};
ghost use Rattle.std.specs.List.{list_all};
ghost use Rattle.pad_model.specs.Cell.{character_of};
ghost use Rattle.pad_model.specs.Checked.{is_checked};
ghost use Rattle.pad_model.specs.Log as log;
ghost use Rattle.pad_model.specs.Operation.{inserted_by};
ghost use Rattle.pad_model.specs.declared.limits.TheConstants.{MAX_TEXT};
ghost use Rattle.pad_core.specs.Judge.{fits, part_growth};
ghost use Rattle.pad_core.specs.Judge as judge;

use comments::CommentBook;
use pad_model::{Op, Part, Sequence, Stamp};

/// Returns true if each part fits the contents before the operation.
pub fn is_valid<S: Sequence>(sequence: &S, comments: &CommentBook, op: &Op) -> bool
    requires { IsTrue (is_checked op.now) }
    ensures { result ≡ fits (S.cells sequence.now) comments.now op.now.parts }
{
    if op.is_edit() {
        return sequence.fits(op.parts.as_slice(), op.name.origin);
    }
    are_notes(sequence, comments, op.parts.as_slice())
}

/// Returns true if each part is a comment or a resolution that fits.
fn are_notes<S: Sequence>(sequence: &S, comments: &CommentBook, parts: &[Part]) -> bool
    ensures { result ≡ list_all (judge.note_fits (S.cells sequence.now) comments.now) parts.now }
{
    parts.iter().all(|part| note_fits(sequence, comments, part))
}

/// Returns true if a comment or a resolution fits.
fn note_fits<S: Sequence>(sequence: &S, comments: &CommentBook, part: &Part) -> bool
    ensures { result ≡ judge.note_fits (S.cells sequence.now) comments.now part.now }
{
    match part {
        Part::Comment { first, last, .. } => stands_before(sequence, *first, *last),
        Part::Resolve { comment } => comments.has(*comment),
        Part::Insert(_) | Part::Delete(_) => false,
    }
}

fn stands_before<S: Sequence>(sequence: &S, first: Stamp, last: Stamp) -> bool
    ensures { result ≡ log.stands_before character_of (S.cells sequence.now) first last }
{
    sequence.stands_before(first, last).unwrap_or(false)
}

/// The number of characters that an operation inserts.
pub fn count_inserted(op: &Op) -> u64
    requires { IsTrue (is_checked op.now) }
    ensures value { result ≡ length (inserted_by op.now) }
    ensures few { result ≤ MAX_TEXT }
{
    op.parts
        .as_slice()
        .iter()
        .fold(0, |count, part| count.saturating_add(growth_of(part)))
}

fn growth_of(part: &Part) -> u64
    ensures { result ≡ part_growth part.now }
{
    match part {
        Part::Insert(run) => run.text.len() as u64,
        Part::Delete(_) | Part::Comment { .. } | Part::Resolve { .. } => 0,
    }
}

/// Returns true if an operation comments.
pub fn is_comment(op: &Op) -> bool
    ensures { result ≡ log.is_comment op.now }
{
    op.parts
        .as_slice()
        .iter()
        .any(|part| matches!(part, Part::Comment { .. }))
}
