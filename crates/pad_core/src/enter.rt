//! The changes that one more operation makes besides the log.
ghost use Rattle.std.specs.Prelude.{◌≡◌, ◌+◌, ◌≤◌, true, IsTrue, IfErr, OnOk, MatchResult, Some, None};
ghost use Rattle.pad_model.specs.Checked.{is_checked};
ghost use Rattle.pad_model.specs.History.{cells_of};
ghost use Rattle.pad_model.specs.Operation as operation;
ghost use Rattle.pad_model.specs.Seen.{count_in};
ghost use Rattle.pad_core.specs.Book.{book_of, entered, may_enter};
ghost use Rattle.pad_core.specs.Counts.{counted, vector_of};
ghost use Rattle.pad_core.specs.Delivered.{Enters, IsDelivered, IsLedger, delivery_refusal};

use comments::{CommentBook, NewComment};
use op_log::OpLog;
use pad_model::{Author, Op, Part, Refusal, Seen, Sequence};
use std::alloc::Global;

/// Counts and enters the next operation of a log, which is then ready there, or finds no memory and changes nothing
/// else. Returns the number of visible characters that the operation hides.
pub fn count_and_enter<S: Sequence>(
    alloc: Global,
    log: &mut OpLog,
    seen: &mut Seen,
    comments: &mut CommentBook,
    sequence: &mut S,
    op: &Op,
) -> Result<u64, Refusal>
    requires ledger { IsLedger log.old.operations seen.old comments.old (S.cells sequence.old) }
    requires checked { IsTrue (is_checked op.now) }
    requires next { op.now.name.number
        ≡ count_in (vector_of log.old.operations) op.now.name.origin + 1 }
    requires allowed { delivery_refusal op.now log.old.operations ≡ None }
    ensures log { log.new.operations ≡ log.old.operations }
    ensures ready { OnOk result (log.new.ready ≡ Some op.now) }
    ensures counted { OnOk result (seen.new ≡ counted seen.old op.now) }
    ensures uncounted { IfErr result (λ e. seen.new ≡ seen.old) }
    ensures entered { Enters log.old.operations op.now (S.cells sequence.old, comments.old) result
        (S.cells sequence.new, comments.new) }
{
    log.prepare(op)?;
    let mut more = seen.clone()?;
    more.advance(op.name.origin)?;
    let hidden = enter(alloc, sequence, comments, log, op)?;
    *seen = more;
    Ok(hidden)
}

/// Makes the changes of the next operation of a log, or finds no memory and makes none. Returns the number of visible
/// characters that it hides.
fn enter<S: Sequence>(
    alloc: Global,
    sequence: &mut S,
    comments: &mut CommentBook,
    log: &OpLog,
    op: &Op,
) -> Result<u64, Refusal>
    requires delivered { IsDelivered log.now.operations }
    requires kept { S.cells sequence.old ≡ cells_of log.now.operations }
    requires commented { comments.old ≡ book_of log.now.operations }
    requires checked { IsTrue (is_checked op.now) }
    requires next { op.now.name.number
        ≡ count_in (vector_of log.now.operations) op.now.name.origin + 1 }
    requires allowed { delivery_refusal op.now log.now.operations ≡ None }
    ensures { Enters log.now.operations op.now (S.cells sequence.old, comments.old) result
        (S.cells sequence.new, comments.new) }
{
    let author = author_of(op)?;
    let rev = log.len() + 1;
    if op.is_edit() {
        return sequence.apply(alloc, op.parts.as_slice(), &author, rev);
    }
    // An operation that is not an edit has one part.
    if let Some(part) = op.parts.get(0) {
        enter_note(alloc, comments, op, part, &author, rev)?;
    }
    Ok(0)
}

/// Enters a comment or a resolution into the book.
fn enter_note(
    alloc: Global,
    comments: &mut CommentBook,
    op: &Op,
    part: &Part,
    author: &Author,
    rev: u64,
) -> Result<(), Refusal>
    requires author { author.now ≡ operation.author_of op.now }
    requires fits { may_enter op.now.name comments.old part.now ≡ true }
    ensures ok { OnOk result (comments.new ≡ entered rev op.now comments.old part.now) }
    ensures err { IfErr result (λ e. (e ≡ Refusal.Memory) × (comments.new ≡ comments.old)) }
{
    match part {
        Part::Comment { first, last, text } => {
            let given = NewComment {
                name: op.name,
                first: *first,
                last: *last,
                author,
                text,
                rev,
            };
            comments.add(alloc, given)
        }
        Part::Resolve { comment } => comments.resolve(*comment, rev),
        Part::Insert(_) | Part::Delete(_) => Ok(()),
    }
}

fn author_of(op: &Op) -> Result<Author, Refusal>
    ensures { MatchResult result (λ author. author ≡ operation.author_of op.now) (λ e. e ≡ Refusal.Memory) }
{
    Ok(Author {
        name: op.author.clone()?,
        origin: op.name.origin,
    })
}
