//! Reads the small forms: a stamp, the name of an operation, a vector, a span, a version.
ghost use Rattle.std.specs.Prelude.{◌≡◌, ◌≤◌, Some, None, option_and_then, IfOk, MatchResult};
ghost use Rattle.serde_json.specs.Find.{as_array};
ghost use Rattle.serde_json.specs.View.{view, items_view};
ghost use Rattle.pad_model.specs.declared.limits.TheConstants.{MAX_REPLICA};
ghost use Rattle.wire_json.specs.Reading.{IsForm, IsRead, null_or, optional, number_in, positive_in, within_in, name_in, pair_in, triple_in, stamp_of, stamp_in, op_name_in, counted_in, span_in, seen_in, version_of};
ghost use Rattle.wire_json.specs.Reading as reading;

use crate::field::{field, number, optional_number_field};
use crate::list::FromJson;
use pad_model::{Counted, Name, OpName, Refusal, Seen, Span, Stamp, Version};
use serde_json::Value;
use std::alloc::Global;

/// The number of a replica or an origin.
pub fn replica(value: &Value) -> Result<u16, Refusal>
    ensures { IsForm (within_in MAX_REPLICA (view value.now)) result }
{
    match u16::try_from(number(value)?) {
        Ok(replica) if replica >= 1 => Ok(replica),
        _ => Err(Refusal::NotRequest),
    }
}

fn positive(value: &Value) -> Result<u64, Refusal>
    ensures low { IfOk result (λ n. 1 ≤ n) }
    ensures form { IsForm (positive_in (view value.now)) result }
{
    let number = number(value)?;
    if number >= 1 {
        Ok(number)
    } else {
        Err(Refusal::NotRequest)
    }
}

fn stamp_of(counter: &Value, of_replica: &Value) -> Result<Stamp, Refusal>
    ensures { IsForm (stamp_of (view counter.now) (view of_replica.now)) result }
{
    match Stamp::new(number(counter)?, replica(of_replica)?) {
        Ok(stamp) => Ok(stamp),
        Err(_) => Err(Refusal::NotRequest),
    }
}

/// The items of a list.
fn items(value: &Value) -> Result<&[Value], Refusal>
    ensures { MatchResult result (λ items. as_array (view value.now) ≡ Some (items_view items.now))
        (λ e. (e ≡ Refusal.NotRequest) × (as_array (view value.now) ≡ None)) }
{
    match value.as_array() {
        Some(items) => Ok(items.as_slice()),
        None => Err(Refusal::NotRequest),
    }
}

/// The items of a list of exactly two.
fn pair(value: &Value) -> Result<(&Value, &Value), Refusal>
    ensures { MatchResult result (λ found. pair_in (view value.now)
        ≡ Some (view found.0.now, view found.1.now))
        (λ e. (e ≡ Refusal.NotRequest) × (pair_in (view value.now) ≡ None)) }
{
    let items = items(value)?;
    if items.len() != 2 {
        return Err(Refusal::NotRequest);
    }
    Ok((&items[0], &items[1]))
}

/// The items of a list of exactly three.
fn triple(value: &Value) -> Result<(&Value, &Value, &Value), Refusal>
    ensures { MatchResult result (λ found. triple_in (view value.now)
        ≡ Some (view found.0.now, view found.1.now, view found.2.now))
        (λ e. (e ≡ Refusal.NotRequest) × (triple_in (view value.now) ≡ None)) }
{
    let items = items(value)?;
    if items.len() != 3 {
        return Err(Refusal::NotRequest);
    }
    Ok((&items[0], &items[1], &items[2]))
}

pub fn stamp(value: &Value) -> Result<Stamp, Refusal>
    ensures { IsForm (stamp_in (view value.now)) result }
{
    let (counter, replica) = pair(value)?;
    stamp_of(counter, replica)
}

pub fn stamp_field(value: &Value, key: &str) -> Result<Stamp, Refusal>
    ensures { IsForm (reading.field stamp_in key.now (view value.now)) result }
{
    stamp(field(value, key)?)
}

/// A stamp, or null for the start of the pad.
pub fn stamp_or_null_field(value: &Value, key: &str) -> Result<Option<Stamp>, Refusal>
    ensures { IsForm (reading.field (null_or stamp_in) key.now (view value.now)) result }
{
    let found = field(value, key)?;
    if found.is_null() {
        Ok(None)
    } else {
        Ok(Some(stamp(found)?))
    }
}

pub fn op_name(value: &Value) -> Result<OpName, Refusal>
    ensures { IsForm (op_name_in (view value.now)) result }
{
    let (origin, number) = pair(value)?;
    let origin = replica(origin)?;
    let number = positive(number)?;
    Ok(OpName { origin, number })
}

pub fn op_name_field(value: &Value, key: &str) -> Result<OpName, Refusal>
    ensures { IsForm (reading.field op_name_in key.now (view value.now)) result }
{
    op_name(field(value, key)?)
}

fn counted(value: &Value) -> Result<Counted, Refusal>
    ensures form { IsForm (counted_in (view value.now)) result }
    ensures low { IfOk result (λ pair. 1 ≤ pair.count) }
{
    let (origin, count) = pair(value)?;
    let origin = replica(origin)?;
    let count = positive(count)?;
    Ok(Counted { origin, count })
}

/// A version vector, whose origins must rise.
fn seen(alloc: Global, value: &Value) -> Result<Seen, Refusal>
    ensures { IsRead (seen_in (view value.now)) result }
{
    let mut seen = Seen::new(alloc);
    let mut last = 0;
    for pair in items(value)? {
        let pair = counted(pair)?;
        if pair.origin <= last {
            return Err(Refusal::NotRequest);
        }
        last = pair.origin;
        seen.set(pair.origin, pair.count)?;
    }
    Ok(seen)
}

pub fn seen_field(alloc: Global, value: &Value, key: &str) -> Result<Seen, Refusal>
    ensures { IsRead (reading.field seen_in key.now (view value.now)) result }
{
    seen(alloc, field(value, key)?)
}

impl FromJson for u64 {
    ghost form = { number_in };

    fn from_json(_alloc: Global, value: &Value) -> Result<u64, Refusal> {
        number(value)
    }
}

impl FromJson for Name {
    ghost form = { name_in };

    fn from_json(alloc: Global, value: &Value) -> Result<Name, Refusal> {
        let Some(text) = value.as_str() else {
            return Err(Refusal::NotRequest);
        };
        Ok(Name::from_str(alloc, text)?)
    }
}

impl FromJson for Span {
    ghost form = { span_in };

    fn from_json(_alloc: Global, value: &Value) -> Result<Span, Refusal> {
        let (counter, replica, len) = triple(value)?;
        let first = stamp_of(counter, replica)?;
        let len = number(len)?;
        Ok(Span { first, len })
    }
}

/// The version of a peer: version 1 if it names none.
pub fn version_field(value: &Value, key: &str) -> Result<Version, Refusal>
    ensures { IsForm (option_and_then version_of (optional number_in key.now (view value.now)))
        result }
{
    match optional_number_field(value, key)? {
        None | Some(1) => Ok(Version::One),
        Some(2) => Ok(Version::Two),
        Some(_) => Err(Refusal::NotRequest),
    }
}
