//! From an operation to a JSON value.
ghost use Rattle.std.specs.Prelude.{◌≡◌, [], ◌∷◌, IfOk, OnOk, MatchResult};
ghost use Rattle.serde_json.specs.Data.{string};
ghost use Rattle.serde_json.specs.View.{view, members_view};
ghost use Rattle.pad_core.specs.Reads.{kind_of};
ghost use Rattle.wire_json.specs.Words.{kind_word};
ghost use Rattle.wire_json.specs.Forms.{with_fields};
ghost use Rattle.wire_json.specs.Operations.{part_fields, parts_fields, part_data, op_data};

use crate::list::{ToJson, list_value};
use crate::word::kind_word;
use crate::write_forms::{
    name_value, op_name_value, parent_value, seen_value, stamp_value, text_value,
};
use pad_core::Kind;
use pad_model::{Op, Part, Refusal, Run, Stamp, Text};
use serde_json::{Map, Value, put};
use std::alloc::{AllocError, Global};

/// An operation as a JSON value: in the form of its kind if it has one part, and otherwise as an edit of its parts.
pub fn op_value(alloc: Global, op: &Op) -> Result<Value, Refusal>
    ensures { MatchResult result (λ v. view v ≡ op_data op.now) (λ e. e ≡ Refusal.Memory) }
{
    Ok(op.to_json(alloc)?)
}

impl ToJson for Op {
    ghost says = { op_data };

    fn to_json(&self, alloc: Global) -> Result<Value, AllocError> {
        let mut fields = Map::new(alloc);
        put(
            &mut fields,
            alloc,
            "author",
            name_value(alloc, &self.author)?,
        )?;
        put(
            &mut fields,
            alloc,
            "kind",
            kind_value(alloc, kind_of(self.parts.as_slice()))?,
        )?;
        put(&mut fields, alloc, "name", op_name_value(alloc, self.name)?)?;
        put(&mut fields, alloc, "seen", seen_value(alloc, &self.seen)?)?;
        put_parts(alloc, &mut fields, self.parts.as_slice())?;
        Ok(Value::Object(fields))
    }
}

fn kind_value(alloc: Global, kind: Kind) -> Result<Value, AllocError>
    ensures { IfOk result (λ v. view v ≡ string (kind_word kind)) }
{
    Value::try_from_str(alloc, kind_word(kind))
}

fn kind_of(parts: &[Part]) -> Kind
    ensures { result ≡ kind_of parts.now }
{
    match parts {
        [part] => part_kind(part),
        _ => Kind::Edit,
    }
}

fn part_kind(part: &Part) -> Kind
    ensures { result ≡ kind_of (part.now ∷ []) }
{
    match part {
        Part::Insert(_) => Kind::Insert,
        Part::Delete(_) => Kind::Delete,
        Part::Comment { .. } => Kind::Comment,
        Part::Resolve { .. } => Kind::Resolve,
    }
}

/// Adds the fields of a single part, or the list of several parts.
fn put_parts(
    alloc: Global,
    fields: &mut Map<String, Value>,
    parts: &[Part],
) -> Result<(), AllocError>
    ensures { OnOk result (members_view fields.new.entries
        ≡ with_fields (parts_fields parts.now) (members_view fields.old.entries)) }
{
    match parts {
        [part] => put_part(alloc, fields, part),
        _ => put(fields, alloc, "parts", list_value(alloc, parts)?),
    }
}

impl ToJson for Part {
    ghost says = { part_data };

    /// A part of an edit.
    fn to_json(&self, alloc: Global) -> Result<Value, AllocError> {
        let mut fields = Map::new(alloc);
        put(
            &mut fields,
            alloc,
            "kind",
            kind_value(alloc, part_kind(self))?,
        )?;
        put_part(alloc, &mut fields, self)?;
        Ok(Value::Object(fields))
    }
}

/// Adds the fields of a part, except its kind.
fn put_part(alloc: Global, fields: &mut Map<String, Value>, part: &Part) -> Result<(), AllocError>
    ensures { OnOk result (members_view fields.new.entries
        ≡ with_fields (part_fields part.now) (members_view fields.old.entries)) }
{
    match part {
        Part::Insert(run) => put_insert(alloc, fields, run),
        Part::Delete(spans) => put(fields, alloc, "spans", list_value(alloc, spans.as_slice())?),
        Part::Comment { first, last, text } => put_comment(alloc, fields, *first, *last, text),
        Part::Resolve { comment } => put(fields, alloc, "comment", op_name_value(alloc, *comment)?),
    }
}

fn put_insert(alloc: Global, fields: &mut Map<String, Value>, run: &Run) -> Result<(), AllocError>
    ensures { OnOk result (members_view fields.new.entries
        ≡ with_fields (part_fields (Part.Insert run.now)) (members_view fields.old.entries)) }
{
    put(fields, alloc, "after", parent_value(alloc, run.after)?)?;
    put(fields, alloc, "first", stamp_value(alloc, run.first)?)?;
    put(fields, alloc, "text", text_value(alloc, &run.text)?)
}

fn put_comment(
    alloc: Global,
    fields: &mut Map<String, Value>,
    first: Stamp,
    last: Stamp,
    text: &Text,
) -> Result<(), AllocError>
    ensures { OnOk result (members_view fields.new.entries
        ≡ with_fields (part_fields (Part.Comment first last text.now))
        (members_view fields.old.entries)) }
{
    put(fields, alloc, "first", stamp_value(alloc, first)?)?;
    put(fields, alloc, "last", stamp_value(alloc, last)?)?;
    put(fields, alloc, "text", text_value(alloc, text)?)
}
