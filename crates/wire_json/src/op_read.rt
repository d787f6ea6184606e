//! From a JSON value to an operation.
ghost use Rattle.std.specs.Prelude.{◌≡◌, [], ◌∷◌, option_and_then, option_map, MatchResult, codes};
ghost use Rattle.serde_json.specs.View.{view};
ghost use Rattle.wire_json.specs.Reading.{IsForm, IsRead, list_in};
ghost use Rattle.wire_json.specs.Requests.{op_in, kind_in, part_of, parts_of, edit_part_in};

use crate::field::{str_field, text_field};
use crate::list::{FromJson, list_field};
use crate::read_forms::{op_name_field, seen_field, stamp_field, stamp_or_null_field};
use crate::word::kind_of_word;
use pad_core::Kind;
use pad_model::{Items, Name, Op, Part, Refusal, Run};
use serde_json::Value;
use std::alloc::Global;

/// Reads the operation of a value, or returns `NotRequest` or `Memory`. `Op::check` tells whether it is within its
/// limits.
pub fn read_op(alloc: Global, value: &Value) -> Result<Op, Refusal>
    ensures { IsRead (op_in (view value.now)) result }
{
    let name = op_name_field(value, "name")?;
    let author = str_field(value, "author")?;
    let kind = kind_field(value)?;
    let seen = seen_field(alloc, value, "seen")?;
    let parts = read_parts(alloc, kind, value)?;
    let author = Name::from_str(alloc, author)?;
    Ok(Op {
        name,
        seen,
        author,
        parts,
    })
}

impl FromJson for Op {
    ghost form = { op_in };

    fn from_json(alloc: Global, value: &Value) -> Result<Op, Refusal> {
        read_op(alloc, value)
    }
}

fn kind_field(value: &Value) -> Result<Kind, Refusal>
    ensures { IsForm (kind_in (view value.now)) result }
{
    match kind_of_word(str_field(value, "kind")?) {
        Some(kind) => Ok(kind),
        None => Err(Refusal::NotRequest),
    }
}

fn read_parts(alloc: Global, kind: Kind, value: &Value) -> Result<Items<Part>, Refusal>
    ensures { IsRead (parts_of kind (view value.now)) result }
{
    match kind {
        Kind::Edit => several(alloc, value),
        _ => only(alloc, read_part(alloc, kind, value)?),
    }
}

fn only(alloc: Global, part: Part) -> Result<Items<Part>, Refusal>
    ensures { MatchResult result (λ parts. parts ≡ part ∷ []) (λ e. e ≡ Refusal.Memory) }
{
    Ok(Items::of_one(alloc, part)?)
}

/// The parts of an edit. An operation of a single part has the form of its kind instead.
fn several(alloc: Global, value: &Value) -> Result<Items<Part>, Refusal>
    ensures { IsRead (parts_of Kind.Edit (view value.now)) result }
{
    let parts: Items<Part> = list_field(alloc, value, "parts")?;
    if parts.len() == 1 {
        return Err(Refusal::NotRequest);
    }
    Ok(parts)
}

impl FromJson for Part {
    ghost form = { edit_part_in };

    /// A part of an edit. `Op::check` tells whether it is an insertion or a deletion.
    fn from_json(alloc: Global, value: &Value) -> Result<Part, Refusal> {
        read_part(alloc, kind_field(value)?, value)
    }
}

fn read_part(alloc: Global, kind: Kind, value: &Value) -> Result<Part, Refusal>
    ensures { IsRead (part_of kind (view value.now)) result }
{
    match kind {
        Kind::Insert => read_insert(alloc, value),
        Kind::Delete => read_delete(alloc, value),
        Kind::Comment => read_comment(alloc, value),
        Kind::Resolve => read_resolve(value),
        Kind::Edit => Err(Refusal::NotRequest),
    }
}

fn read_insert(alloc: Global, value: &Value) -> Result<Part, Refusal>
    ensures { IsRead (part_of Kind.Insert (view value.now)) result }
{
    let first = stamp_field(value, "first")?;
    let after = stamp_or_null_field(value, "after")?;
    let text = text_field(alloc, value, "text")?;
    Ok(Part::Insert(Run { first, after, text }))
}

fn read_delete(alloc: Global, value: &Value) -> Result<Part, Refusal>
    ensures { IsRead (part_of Kind.Delete (view value.now)) result }
{
    Ok(Part::Delete(list_field(alloc, value, "spans")?))
}

fn read_comment(alloc: Global, value: &Value) -> Result<Part, Refusal>
    ensures { IsRead (part_of Kind.Comment (view value.now)) result }
{
    let first = stamp_field(value, "first")?;
    let last = stamp_field(value, "last")?;
    let text = text_field(alloc, value, "text")?;
    Ok(Part::Comment { first, last, text })
}

fn read_resolve(value: &Value) -> Result<Part, Refusal>
    ensures { IsForm (part_of Kind.Resolve (view value.now)) result }
{
    let comment = op_name_field(value, "comment")?;
    Ok(Part::Resolve { comment })
}
