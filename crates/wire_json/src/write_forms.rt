//! Writes the small forms as JSON values: names, stamps, spans, vectors, runs.
ghost use Rattle.std.specs.Prelude.{◌≡◌, IfOk};
ghost use Rattle.serde_json.specs.View.{view};
ghost use Rattle.serde_json.specs.Data.{string};
ghost use Rattle.wire_json.specs.Forms.{number_data, op_name_data, stamp_data, parent_data, text_data, author_data, seen_data, counted_data, span_data};
ghost use Rattle.wire_json.specs.Words.{grantee_word};
ghost use Rattle.wire_json.specs.Replies.{run_data, piece_data, shown_data, entry_data, present_data, grant_data, guest_data, mark_data, listed_data, person_data};

use crate::list::{ToJson, list_value};
use crate::word::{kind_word, right_word};
use comments::Shown;
use guests::Guest;
use named_revisions::NamedRevision;
use pad_core::{Listed, LogEntry, Person, Present};
use pad_model::{Author, AuthorRun, Counted, Name, OpName, Piece, Seen, Span, Stamp, Text};
use rights::{Grant, Grantee};
use serde_json::{Map, Value, json, put};
use std::alloc::{AllocError, Global};

pub fn op_name_value(alloc: Global, name: OpName) -> Result<Value, AllocError>
    ensures { IfOk result (λ v. view v ≡ op_name_data name) }
{
    let origin = name.origin;
    let number = name.number;
    json!(in alloc; [origin, number])
}

pub fn stamp_value(alloc: Global, stamp: Stamp) -> Result<Value, AllocError>
    ensures { IfOk result (λ v. view v ≡ stamp_data stamp) }
{
    let counter = stamp.counter();
    let replica = stamp.replica();
    json!(in alloc; [counter, replica])
}

/// A stamp, or null for the start of the pad.
pub fn parent_value(alloc: Global, after: Option<Stamp>) -> Result<Value, AllocError>
    ensures { IfOk result (λ v. view v ≡ parent_data after) }
{
    match after {
        Some(stamp) => stamp_value(alloc, stamp),
        None => Ok(Value::Null),
    }
}

pub fn text_value(alloc: Global, text: &Text) -> Result<Value, AllocError>
    ensures { IfOk result (λ v. view v ≡ text_data text.now) }
{
    Ok(Value::String(text.to_string(alloc)?))
}

pub fn name_value(alloc: Global, name: &Name) -> Result<Value, AllocError>
    ensures { IfOk result (λ v. view v ≡ string name.now) }
{
    Value::try_from_str(alloc, name.as_str())
}

/// The name of an author, or `*` for everyone.
fn grantee_value(alloc: Global, grantee: &Grantee) -> Result<Value, AllocError>
    ensures { IfOk result (λ v. view v ≡ string (grantee_word grantee.now)) }
{
    match grantee {
        Grantee::Author(name) => name_value(alloc, name),
        Grantee::Everyone => Value::try_from_str(alloc, "*"),
    }
}

/// An author with the number of the server that has the account, such as `ann@1`.
pub fn author_value(alloc: Global, author: &Author) -> Result<Value, AllocError>
    ensures { IfOk result (λ v. view v ≡ author_data author.now) }
{
    let name = author.name.as_str();
    let origin = author.origin;
    Ok(Value::String(format!(in alloc; "{name}@{origin}")?))
}

pub fn seen_value(alloc: Global, seen: &Seen) -> Result<Value, AllocError>
    ensures { IfOk result (λ v. view v ≡ seen_data seen.now) }
{
    list_value(alloc, seen.pairs())
}

impl ToJson for u64 {
    ghost says = { number_data };

    fn to_json(&self, _alloc: Global) -> Result<Value, AllocError> {
        Ok(Value::from(*self))
    }
}

impl ToJson for Counted {
    ghost says = { counted_data };

    fn to_json(&self, alloc: Global) -> Result<Value, AllocError> {
        let origin = self.origin;
        let count = self.count;
        json!(in alloc; [origin, count])
    }
}

impl ToJson for Span {
    ghost says = { span_data };

    fn to_json(&self, alloc: Global) -> Result<Value, AllocError> {
        let counter = self.first.counter();
        let replica = self.first.replica();
        let len = self.len;
        json!(in alloc; [counter, replica, len])
    }
}

impl ToJson for AuthorRun {
    ghost says = { run_data };

    fn to_json(&self, alloc: Global) -> Result<Value, AllocError> {
        let author = author_value(alloc, &self.author)?;
        let len = self.len;
        json!(in alloc; [author, len])
    }
}

impl ToJson for Piece {
    ghost says = { piece_data };

    fn to_json(&self, alloc: Global) -> Result<Value, AllocError> {
        match self {
            Piece::Keep(len) => {
                let len = *len;
                json!(in alloc; ["keep", len])
            }
            Piece::Drop(len) => {
                let len = *len;
                json!(in alloc; ["drop", len])
            }
            Piece::Insert { author, text } => {
                json!(in alloc; ["insert", text_value(alloc, text)?, author_value(alloc, author)?])
            }
        }
    }
}

impl ToJson for Shown {
    ghost says = { shown_data };

    fn to_json(&self, alloc: Global) -> Result<Value, AllocError> {
        let mut fields = Map::new(alloc);
        put(&mut fields, alloc, "at", Value::from(self.at))?;
        put(
            &mut fields,
            alloc,
            "author",
            author_value(alloc, &self.author)?,
        )?;
        put(&mut fields, alloc, "len", Value::from(self.len))?;
        put(&mut fields, alloc, "name", op_name_value(alloc, self.name)?)?;
        put(&mut fields, alloc, "resolved", Value::Bool(self.resolved))?;
        put(&mut fields, alloc, "text", text_value(alloc, &self.text)?)?;
        Ok(Value::Object(fields))
    }
}

impl ToJson for LogEntry {
    ghost says = { entry_data };

    fn to_json(&self, alloc: Global) -> Result<Value, AllocError> {
        let author = author_value(alloc, &self.author)?;
        let kind = kind_word(self.kind);
        let name = op_name_value(alloc, self.name)?;
        let rev = self.rev;
        match self.at {
            Some(at) => {
                json!(in alloc; {"at": at, "author": author, "kind": kind, "name": name, "rev": rev})
            }
            None => json!(in alloc; {"author": author, "kind": kind, "name": name, "rev": rev}),
        }
    }
}

impl ToJson for Present {
    ghost says = { present_data };

    fn to_json(&self, alloc: Global) -> Result<Value, AllocError> {
        let author = author_value(alloc, &self.author)?;
        let caret = self.caret;
        let visit = self.visit;
        json!(in alloc; {"author": author, "caret": caret, "visit": visit})
    }
}

impl ToJson for Listed {
    ghost says = { listed_data };

    fn to_json(&self, alloc: Global) -> Result<Value, AllocError> {
        let name = name_value(alloc, &self.name)?;
        let right = right_word(self.right);
        let now = self.now;
        if self.closed {
            json!(in alloc; [name, right, now, "closed"])
        } else {
            json!(in alloc; [name, right, now])
        }
    }
}

impl ToJson for Grant {
    ghost says = { grant_data };

    fn to_json(&self, alloc: Global) -> Result<Value, AllocError> {
        let grantee = grantee_value(alloc, &self.grantee)?;
        let right = right_word(self.right);
        json!(in alloc; [grantee, right])
    }
}

impl ToJson for NamedRevision {
    ghost says = { mark_data };

    fn to_json(&self, alloc: Global) -> Result<Value, AllocError> {
        let at = self.at;
        let author = name_value(alloc, &self.author)?;
        let rev = self.rev;
        let text = text_value(alloc, &self.text)?;
        json!(in alloc; {"at": at, "author": author, "rev": rev, "text": text})
    }
}

impl ToJson for Guest {
    ghost says = { guest_data };

    fn to_json(&self, alloc: Global) -> Result<Value, AllocError> {
        let author = name_value(alloc, &self.author)?;
        let display = text_value(alloc, &self.display)?;
        json!(in alloc; {"author": author, "name": display})
    }
}

impl ToJson for Person {
    ghost says = { person_data };

    fn to_json(&self, alloc: Global) -> Result<Value, AllocError> {
        let author = name_value(alloc, &self.author)?;
        let name = self.name.as_str();
        json!(in alloc; {"author": author, "name": name})
    }
}
