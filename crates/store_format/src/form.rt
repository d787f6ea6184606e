//! Records as JSON values.
ghost use Rattle.std.specs.Prelude.{◌≡◌, codes, IfOk, OnOk};
ghost use Rattle.serde_json.specs.View.{members_view, view};
ghost use Rattle.wire_json.specs.Forms.{with_fields};
ghost use Rattle.wire_json.specs.Operations.{op_data};
ghost use Rattle.wire_json.specs.Reading.{IsRead};
ghost use Rattle.rights.specs.declared.grantee.Grantee.TheVariants.{Author, Everyone};
ghost use Rattle.store_records.specs.declared.kept_record.Record.TheVariants.{Closed, Delivered, Granted, Introduced, Marked, Named, Visited};
ghost use Rattle.store_format.specs.Forms.{record_data, record_fields, record_in, record_of};
ghost use Rattle.store_format.specs.Forms as forms;

use guests::Guest;
use named_revisions::NamedRevision;
use pad_model::{Name, Op, Refusal};
use rights::{Grantee, Right};
use serde_json::{Map, Value, put};
use std::alloc::{AllocError, Global};
use store_records::Record;
use wire_json::{
    granted_by, name_field, name_value, number_field, op_value, read_op, right_word, str_field,
    text_field, text_value,
};

/// A record as a JSON value. `now` is the time in seconds since 1970, and `together` tells whether it is written
/// together with an earlier line that is not yet synced. An operation has its own time, and so has a named revision.
pub fn record_value(
    alloc: Global,
    now: u64,
    together: bool,
    kept: &Record,
) -> Result<Value, AllocError>
    ensures { IfOk result (λ v. view v ≡ record_data now together kept.now) }
{
    let mut fields = Map::new(alloc);
    put(&mut fields, alloc, "at", Value::from(seconds_of(now, kept)))?;
    if together {
        put(&mut fields, alloc, "together", Value::Bool(true))?;
    }
    put_record(alloc, &mut fields, kept)?;
    Ok(Value::Object(fields))
}

/// The seconds since 1970 that a record has: those of its operation, of when a revision was named, or of when it is
/// written.
fn seconds_of(now: u64, kept: &Record) -> u64
    ensures { result ≡ forms.seconds_of now kept.now }
{
    match kept {
        Record::Delivered { at, .. } => *at / 1000,
        Record::Marked { named } => named.at / 1000,
        Record::Named { .. }
        | Record::Granted { .. }
        | Record::Handed { .. }
        | Record::Closed { .. }
        | Record::Introduced { .. }
        | Record::Visited { .. } => now,
    }
}

fn put_record(
    alloc: Global,
    fields: &mut Map<String, Value>,
    kept: &Record,
) -> Result<(), AllocError>
    ensures { OnOk result (members_view fields.new.entries
        ≡ with_fields (record_fields kept.now) (members_view fields.old.entries)) }
{
    match kept {
        Record::Named {
            name,
            owner,
            visits,
        } => put_named(alloc, fields, name, owner, *visits),
        Record::Granted { grantee, right } => match grantee {
            Grantee::Author(author) => put_granted(alloc, fields, author, *right),
            Grantee::Everyone => put_everyone(alloc, fields, *right),
        },
        Record::Handed { author } => {
            put(fields, alloc, "kind", Value::try_from_str(alloc, "handed")?)?;
            put(fields, alloc, "owner", name_value(alloc, author)?)
        }
        Record::Closed { closed } => put_closed(alloc, fields, *closed),
        Record::Marked { named } => put_marked(alloc, fields, named),
        Record::Introduced { guest } => put_introduced(alloc, fields, guest),
        Record::Visited { author } => put_visited(alloc, fields, author),
        Record::Delivered { at, visit, op } => put_delivered(alloc, fields, *at, *visit, op),
    }
}

fn put_named(
    alloc: Global,
    fields: &mut Map<String, Value>,
    name: &Name,
    owner: &Name,
    visits: bool,
) -> Result<(), AllocError>
    ensures { OnOk result (members_view fields.new.entries
        ≡ with_fields (record_fields (Named name.now owner.now visits)) (members_view fields.old.entries)) }
{
    put(fields, alloc, "kind", Value::try_from_str(alloc, "named")?)?;
    put(fields, alloc, "name", name_value(alloc, name)?)?;
    put(fields, alloc, "owner", name_value(alloc, owner)?)?;
    if visits {
        put(fields, alloc, "visits", Value::Bool(true))?;
    }
    Ok(())
}

fn put_granted(
    alloc: Global,
    fields: &mut Map<String, Value>,
    author: &Name,
    right: Option<Right>,
) -> Result<(), AllocError>
    ensures { OnOk result (members_view fields.new.entries
        ≡ with_fields (record_fields (Granted (Author author.now) right)) (members_view fields.old.entries)) }
{
    put(fields, alloc, "author", name_value(alloc, author)?)?;
    put(
        fields,
        alloc,
        "kind",
        Value::try_from_str(alloc, "granted")?,
    )?;
    put(
        fields,
        alloc,
        "right",
        Value::try_from_str(alloc, given_word(right))?,
    )
}

fn put_everyone(
    alloc: Global,
    fields: &mut Map<String, Value>,
    right: Option<Right>,
) -> Result<(), AllocError>
    ensures { OnOk result (members_view fields.new.entries
        ≡ with_fields (record_fields (Granted Everyone right)) (members_view fields.old.entries)) }
{
    put(
        fields,
        alloc,
        "kind",
        Value::try_from_str(alloc, "everyone")?,
    )?;
    put(
        fields,
        alloc,
        "right",
        Value::try_from_str(alloc, given_word(right))?,
    )
}

fn put_closed(
    alloc: Global,
    fields: &mut Map<String, Value>,
    closed: bool,
) -> Result<(), AllocError>
    ensures { OnOk result (members_view fields.new.entries
        ≡ with_fields (record_fields (Closed closed)) (members_view fields.old.entries)) }
{
    let kind = if closed { "closed" } else { "reopened" };
    put(fields, alloc, "kind", Value::try_from_str(alloc, kind)?)
}

fn put_marked(
    alloc: Global,
    fields: &mut Map<String, Value>,
    named: &NamedRevision,
) -> Result<(), AllocError>
    ensures { OnOk result (members_view fields.new.entries
        ≡ with_fields (record_fields (Marked named.now)) (members_view fields.old.entries)) }
{
    put(fields, alloc, "author", name_value(alloc, &named.author)?)?;
    put(fields, alloc, "kind", Value::try_from_str(alloc, "marked")?)?;
    put(fields, alloc, "ms", Value::from(named.at % 1000))?;
    put(fields, alloc, "rev", Value::from(named.rev))?;
    put(fields, alloc, "text", text_value(alloc, &named.text)?)
}

fn put_introduced(
    alloc: Global,
    fields: &mut Map<String, Value>,
    guest: &Guest,
) -> Result<(), AllocError>
    ensures { OnOk result (members_view fields.new.entries
        ≡ with_fields (record_fields (Introduced guest.now)) (members_view fields.old.entries)) }
{
    put(fields, alloc, "author", name_value(alloc, &guest.author)?)?;
    put(fields, alloc, "display", text_value(alloc, &guest.display)?)?;
    put(
        fields,
        alloc,
        "kind",
        Value::try_from_str(alloc, "introduced")?,
    )
}

fn put_visited(
    alloc: Global,
    fields: &mut Map<String, Value>,
    author: &Option<Name>,
) -> Result<(), AllocError>
    ensures { OnOk result (members_view fields.new.entries
        ≡ with_fields (record_fields (Visited author.now)) (members_view fields.old.entries)) }
{
    if let Some(author) = author {
        put(fields, alloc, "author", name_value(alloc, author)?)?;
    }
    put(
        fields,
        alloc,
        "kind",
        Value::try_from_str(alloc, "visited")?,
    )
}

fn put_delivered(
    alloc: Global,
    fields: &mut Map<String, Value>,
    at: u64,
    visit: u64,
    op: &Op,
) -> Result<(), AllocError>
    ensures { OnOk result (members_view fields.new.entries
        ≡ with_fields (record_fields (Delivered at visit op.now)) (members_view fields.old.entries)) }
{
    put(
        fields,
        alloc,
        "kind",
        Value::try_from_str(alloc, "delivered")?,
    )?;
    put(fields, alloc, "ms", Value::from(at % 1000))?;
    put(fields, alloc, "op", op_json(alloc, op)?)?;
    put(fields, alloc, "visit", Value::from(visit))
}

fn op_json(alloc: Global, op: &Op) -> Result<Value, AllocError>
    ensures { IfOk result (λ v. view v ≡ op_data op.now) }
{
    match op_value(alloc, op) {
        Ok(value) => Ok(value),
        Err(_) => Err(AllocError),
    }
}

fn given_word(right: Option<Right>) -> &'static str
    ensures { result.now ≡ forms.given_word right }
{
    match right {
        Some(right) => right_word(right),
        None => "none",
    }
}

/// Reads a value as a record; 102 if it is none.
pub fn read_record(alloc: Global, value: &Value) -> Result<Record, Refusal>
    ensures { IsRead (record_in (view value.now)) result }
{
    let kind = str_field(value, "kind")?;
    read_kind(alloc, kind, value)
}

fn read_kind(alloc: Global, kind: &str, value: &Value) -> Result<Record, Refusal>
    ensures { IsRead (record_of kind.now (view value.now)) result }
{
    match kind {
        "named" => read_named(alloc, value),
        "granted" => read_granted(alloc, value),
        "everyone" => read_everyone(value),
        "handed" => read_handed(alloc, value),
        "closed" => Ok(Record::Closed { closed: true }),
        "reopened" => Ok(Record::Closed { closed: false }),
        "marked" => read_marked(alloc, value),
        "introduced" => read_introduced(alloc, value),
        "visited" => read_visited(alloc, value),
        "delivered" => read_delivered(alloc, value),
        _ => Err(Refusal::NotRequest),
    }
}

fn read_named(alloc: Global, value: &Value) -> Result<Record, Refusal>
    ensures { IsRead (record_of (codes "named") (view value.now)) result }
{
    let name = name_field(alloc, value, "name")?;
    let owner = name_field(alloc, value, "owner")?;
    let visits = says_true(value, "visits");
    Ok(Record::Named {
        name,
        owner,
        visits,
    })
}

fn read_granted(alloc: Global, value: &Value) -> Result<Record, Refusal>
    ensures { IsRead (record_of (codes "granted") (view value.now)) result }
{
    let grantee = Grantee::Author(name_field(alloc, value, "author")?);
    match granted_by(str_field(value, "right")?) {
        Some(right) => Ok(Record::Granted { grantee, right }),
        None => Err(Refusal::NotRequest),
    }
}

fn read_everyone(value: &Value) -> Result<Record, Refusal>
    ensures { IsRead (record_of (codes "everyone") (view value.now)) result }
{
    let grantee = Grantee::Everyone;
    match granted_by(str_field(value, "right")?) {
        Some(right) => Ok(Record::Granted { grantee, right }),
        None => Err(Refusal::NotRequest),
    }
}

fn read_handed(alloc: Global, value: &Value) -> Result<Record, Refusal>
    ensures { IsRead (record_of (codes "handed") (view value.now)) result }
{
    let author = name_field(alloc, value, "owner")?;
    Ok(Record::Handed { author })
}

fn read_marked(alloc: Global, value: &Value) -> Result<Record, Refusal>
    ensures { IsRead (record_of (codes "marked") (view value.now)) result }
{
    let author = name_field(alloc, value, "author")?;
    let rev = number_field(value, "rev")?;
    let text = text_field(alloc, value, "text")?;
    let named = NamedRevision {
        rev,
        author,
        at: time_in(value),
        text,
    };
    Ok(Record::Marked { named })
}

fn read_introduced(alloc: Global, value: &Value) -> Result<Record, Refusal>
    ensures { IsRead (record_of (codes "introduced") (view value.now)) result }
{
    let author = name_field(alloc, value, "author")?;
    let display = text_field(alloc, value, "display")?;
    let guest = Guest { author, display };
    Ok(Record::Introduced { guest })
}

/// A visit of which an earlier version did not write the author has none.
fn read_visited(alloc: Global, value: &Value) -> Result<Record, Refusal>
    ensures { IsRead (record_of (codes "visited") (view value.now)) result }
{
    let author = match str_field(value, "author") {
        Ok(author) => Some(Name::from_str(alloc, author)?),
        Err(_) => None,
    };
    Ok(Record::Visited { author })
}

fn read_delivered(alloc: Global, value: &Value) -> Result<Record, Refusal>
    ensures { IsRead (record_of (codes "delivered") (view value.now)) result }
{
    let Some(op) = value.get("op") else {
        return Err(Refusal::NotRequest);
    };
    Ok(Record::Delivered {
        at: time_in(value),
        visit: number_or_none(value, "visit"),
        op: read_op(alloc, op)?,
    })
}

/// The time of a record in milliseconds since 1970. A file of an earlier version has its seconds alone.
fn time_in(value: &Value) -> u64
    ensures { result ≡ forms.time_in (view value.now) }
{
    number_or_none(value, "at")
        .saturating_mul(1000)
        .saturating_add(number_or_none(value, "ms"))
}

/// Returns true if a field is true.
fn says_true(value: &Value, key: &str) -> bool
    ensures { result ≡ forms.says_true key.now (view value.now) }
{
    match value.get(key) {
        Some(found) => found.as_bool().unwrap_or(false),
        None => false,
    }
}

/// A number field, or 0.
fn number_or_none(value: &Value, key: &str) -> u64
    ensures { result ≡ forms.number_or_none key.now (view value.now) }
{
    match number_field(value, key) {
        Ok(number) => number,
        Err(_) => 0,
    }
}
