//! A pad's reply as a line.
ghost use Rattle.std.specs.Prelude.{◌≡◌, [], ◌∷◌, codes, IfOk, string_bytes};
ghost use Rattle.serde_json.specs.View.{view};
ghost use Rattle.wire_json.specs.Forms.{number_data};
ghost use Rattle.wire_json.specs.Replies.{IsWritten, pad_answer, pad_data};

use crate::list::list_value;
use crate::number_lines::{
    changed_line, done_line, ended_line, joined_line, made_line, pushed_line, revs_line,
};
use crate::value_lines::value_line;
use crate::write_forms::{author_value, op_name_value, seen_value, text_value};
use comments::Shown;
use guests::Guest;
use named_revisions::NamedRevision;
use pad_core::{LogEntry, PadReply, Present};
use pad_model::{Author, AuthorRun, Op, OpName, Piece, Seen, Text};
use rights::Grant;
use serde_json::{Value, json};
use std::alloc::{AllocError, Global};

/// The line of a pad's reply. `Elsewhere` is never a server's reply; it is written without fields.
pub fn pad_line(alloc: Global, reply: &PadReply) -> Result<String, AllocError>
    ensures { IfOk result (λ line. IsWritten (pad_data reply.now) (string_bytes line)) }
{
    match reply {
        PadReply::Elsewhere => ended_line(alloc),
        PadReply::Joined { now, visit } => joined_line(alloc, *now, *visit),
        PadReply::Rejoined {
            now,
            visit,
            made,
            last,
        } => said_line(
            alloc,
            reply,
            rejoined_value(alloc, *now, *visit, *made, *last),
        ),
        PadReply::Done { now } => done_line(alloc, *now),
        PadReply::Made { now, name } => made_line(alloc, *now, name.origin, name.number),
        PadReply::Changed { now, name, hidden } => {
            changed_line(alloc, *now, name.origin, name.number, *hidden)
        }
        PadReply::Revs { now, cells, length } => revs_line(alloc, *now, *cells, *length),
        PadReply::Pushed {
            now,
            state,
            released,
            dropped,
        } => pushed_line(alloc, *now, *state, *released, *dropped),
        PadReply::Text { now, rev, text } => {
            said_line(alloc, reply, read_value(alloc, *now, *rev, text))
        }
        PadReply::Runs { now, rev, runs } => {
            said_line(alloc, reply, runs_value(alloc, *now, *rev, runs.as_slice()))
        }
        PadReply::Comments { now, rev, comments } => said_line(
            alloc,
            reply,
            comments_value(alloc, *now, *rev, comments.as_slice()),
        ),
        PadReply::Changes {
            now,
            rev,
            to,
            pieces,
            notes,
        } => said_line(
            alloc,
            reply,
            changes_value(alloc, *now, *rev, *to, pieces.as_slice(), *notes),
        ),
        PadReply::Entries { now, entries } => {
            said_line(alloc, reply, entries_value(alloc, *now, entries.as_slice()))
        }
        PadReply::Times { now, times } => {
            said_line(alloc, reply, times_value(alloc, *now, times.as_slice()))
        }
        PadReply::RevsAt { now, revs } => {
            said_line(alloc, reply, revs_value(alloc, *now, revs.as_slice()))
        }
        PadReply::Birth {
            now,
            author,
            rev,
            at,
        } => said_line(alloc, reply, birth_value(alloc, *now, author, *rev, *at)),
        PadReply::Who { now, who } => said_line(
            alloc,
            reply,
            who_value(alloc, *now, who.as_slice()),
        ),
        PadReply::Rights {
            now,
            closed,
            rights,
        } => {
            let value = rights_value(alloc, *now, *closed, rights.as_slice());
            said_line(alloc, reply, value)
        }
        PadReply::Marks { now, marks } => {
            said_line(alloc, reply, marks_value(alloc, *now, marks.as_slice()))
        }
        PadReply::Guests { now, guests } => {
            said_line(alloc, reply, guests_value(alloc, *now, guests.as_slice()))
        }
        PadReply::Vector { now, seen } => said_line(alloc, reply, vector_value(alloc, *now, seen)),
        PadReply::Pulled { now, ops } => {
            said_line(alloc, reply, pulled_value(alloc, *now, ops.as_slice()))
        }
    }
}

/// The line of a reply that is first made as a value.
fn said_line(
    alloc: Global,
    reply: &PadReply,
    value: Result<Value, AllocError>,
) -> Result<String, AllocError>
    requires { IfOk value (λ v. view v ≡ pad_data reply.now) }
    ensures { IfOk result (λ line. IsWritten (pad_data reply.now) (string_bytes line)) }
{
    value_line(alloc, value)
}

/// A reply with its revision and one more field.
fn answer_with(alloc: Global, now: u64, key: &str, value: Value) -> Result<Value, AllocError>
    ensures { IfOk result (λ v. view v ≡ pad_answer now ((key.now, view value) ∷ [])) }
{
    json!(in alloc; {"ok": true, "now": now, key: value})
}

/// The same for a reply about an earlier revision.
fn answer_at(
    alloc: Global,
    now: u64,
    rev: u64,
    key: &str,
    value: Value,
) -> Result<Value, AllocError>
    ensures { IfOk result (λ v. view v ≡ pad_answer now ((codes "rev", number_data rev) ∷ (key.now, view value) ∷ [])) }
{
    json!(in alloc; {"ok": true, "now": now, "rev": rev, key: value})
}

fn rejoined_value(
    alloc: Global,
    now: u64,
    visit: u64,
    made: u64,
    last: Option<OpName>,
) -> Result<Value, AllocError>
    ensures { IfOk result (λ v. view v ≡ pad_data (PadReply.Rejoined now visit made last)) }
{
    let last = match last {
        Some(name) => op_name_value(alloc, name)?,
        None => Value::Null,
    };
    json!(in alloc; {"last": last, "made": made, "now": now, "ok": true, "visit": visit})
}

fn read_value(alloc: Global, now: u64, rev: u64, text: &Text) -> Result<Value, AllocError>
    ensures { IfOk result (λ v. view v ≡ pad_data (PadReply.Text now rev text.now)) }
{
    answer_at(alloc, now, rev, "text", text_value(alloc, text)?)
}

fn runs_value(alloc: Global, now: u64, rev: u64, runs: &[AuthorRun]) -> Result<Value, AllocError>
    ensures { IfOk result (λ v. view v ≡ pad_data (PadReply.Runs now rev runs.now)) }
{
    answer_at(alloc, now, rev, "runs", list_value(alloc, runs)?)
}

fn comments_value(
    alloc: Global,
    now: u64,
    rev: u64,
    comments: &[Shown],
) -> Result<Value, AllocError>
    ensures { IfOk result (λ v. view v ≡ pad_data (PadReply.Comments now rev comments.now)) }
{
    answer_at(alloc, now, rev, "comments", list_value(alloc, comments)?)
}

fn changes_value(
    alloc: Global,
    now: u64,
    rev: u64,
    to: u64,
    pieces: &[Piece],
    notes: u64,
) -> Result<Value, AllocError>
    ensures { IfOk result (λ v. view v ≡ pad_data (PadReply.Changes now rev to pieces.now notes)) }
{
    let changes = list_value(alloc, pieces)?;
    json!(in alloc; {"changes": changes, "notes": notes, "now": now, "ok": true, "rev": rev, "to": to})
}

fn entries_value(alloc: Global, now: u64, entries: &[LogEntry]) -> Result<Value, AllocError>
    ensures { IfOk result (λ v. view v ≡ pad_data (PadReply.Entries now entries.now)) }
{
    answer_with(alloc, now, "entries", list_value(alloc, entries)?)
}

fn times_value(alloc: Global, now: u64, times: &[u64]) -> Result<Value, AllocError>
    ensures { IfOk result (λ v. view v ≡ pad_data (PadReply.Times now times.now)) }
{
    answer_with(alloc, now, "times", list_value(alloc, times)?)
}

fn revs_value(alloc: Global, now: u64, revs: &[u64]) -> Result<Value, AllocError>
    ensures { IfOk result (λ v. view v ≡ pad_data (PadReply.RevsAt now revs.now)) }
{
    answer_with(alloc, now, "revs", list_value(alloc, revs)?)
}

fn birth_value(
    alloc: Global,
    now: u64,
    author: &Author,
    rev: u64,
    at: u64,
) -> Result<Value, AllocError>
    ensures { IfOk result (λ v. view v ≡ pad_data (PadReply.Birth now author.now rev at)) }
{
    let author = author_value(alloc, author)?;
    json!(in alloc; {"at": at, "author": author, "now": now, "ok": true, "rev": rev})
}

fn who_value(alloc: Global, now: u64, who: &[Present]) -> Result<Value, AllocError>
    ensures { IfOk result (λ v. view v ≡ pad_data (PadReply.Who now who.now)) }
{
    answer_with(alloc, now, "who", list_value(alloc, who)?)
}

fn rights_value(
    alloc: Global,
    now: u64,
    closed: bool,
    rights: &[Grant],
) -> Result<Value, AllocError>
    ensures { IfOk result (λ v. view v ≡ pad_data (PadReply.Rights now closed rights.now)) }
{
    let rights = list_value(alloc, rights)?;
    if closed {
        json!(in alloc; {"closed": true, "now": now, "ok": true, "rights": rights})
    } else {
        json!(in alloc; {"now": now, "ok": true, "rights": rights})
    }
}

fn marks_value(alloc: Global, now: u64, marks: &[NamedRevision]) -> Result<Value, AllocError>
    ensures { IfOk result (λ v. view v ≡ pad_data (PadReply.Marks now marks.now)) }
{
    answer_with(alloc, now, "marks", list_value(alloc, marks)?)
}

fn guests_value(alloc: Global, now: u64, guests: &[Guest]) -> Result<Value, AllocError>
    ensures { IfOk result (λ v. view v ≡ pad_data (PadReply.Guests now guests.now)) }
{
    answer_with(alloc, now, "guests", list_value(alloc, guests)?)
}

fn vector_value(alloc: Global, now: u64, seen: &Seen) -> Result<Value, AllocError>
    ensures { IfOk result (λ v. view v ≡ pad_data (PadReply.Vector now seen.now)) }
{
    answer_with(alloc, now, "seen", seen_value(alloc, seen)?)
}

fn pulled_value(alloc: Global, now: u64, ops: &[Op]) -> Result<Value, AllocError>
    ensures { IfOk result (λ v. view v ≡ pad_data (PadReply.Pulled now ops.now)) }
{
    answer_with(alloc, now, "ops", list_value(alloc, ops)?)
}
