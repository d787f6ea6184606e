//! The fields of an object. If a field is missing or has another form, the line is not a request (`NotRequest`).
ghost use Rattle.std.specs.Prelude.{◌≡◌, Some, None, IfOk, MatchResult, false, option_map, unwrap_or};
ghost use Rattle.std.specs.Str.{chars};
ghost use Rattle.serde_json.specs.Find.{get, as_str};
ghost use Rattle.serde_json.specs.View.{view};
ghost use Rattle.wire_json.specs.Reading.{IsForm, IsRead, if_there, optional, number_in, truth_in, within_in, name_in, text_in};
ghost use Rattle.wire_json.specs.Reading as reading;

use pad_model::{Name, Refusal, Text};
use serde_json::Value;
use sessions::Word;
use std::alloc::{AllocError, Global};

pub fn field<'a>(value: &'a Value, key: &str) -> Result<&'a Value, Refusal>
    ensures { MatchResult result (λ found. get key.now (view value.now) ≡ Some (view found.now))
        (λ e. (e ≡ Refusal.NotRequest) × (get key.now (view value.now) ≡ None)) }
{
    match value.get(key) {
        Some(found) => Ok(found),
        None => Err(Refusal::NotRequest),
    }
}

/// A number below 2^64, without sign, fraction and exponent.
pub fn number(value: &Value) -> Result<u64, Refusal>
    ensures { IsForm (number_in (view value.now)) result }
{
    match value.as_u64() {
        Some(number) => Ok(number),
        None => Err(Refusal::NotRequest),
    }
}

pub fn number_field(value: &Value, key: &str) -> Result<u64, Refusal>
    ensures { IsForm (reading.field number_in key.now (view value.now)) result }
{
    number(field(value, key)?)
}

/// A number that may be absent or null.
pub fn optional_number_field(value: &Value, key: &str) -> Result<Option<u64>, Refusal>
    ensures { IsForm (optional number_in key.now (view value.now)) result }
{
    match value.get(key) {
        None => Ok(None),
        Some(found) if found.is_null() => Ok(None),
        Some(found) => Ok(Some(number(found)?)),
    }
}

/// Returns the truth value of a field; false if it is absent or null.
pub fn flag_field(value: &Value, key: &str) -> Result<bool, Refusal>
    ensures { IsForm (option_map (λ given. unwrap_or given false) (optional truth_in key.now (view value.now))) result }
{
    match value.get(key) {
        None => Ok(false),
        Some(found) if found.is_null() => Ok(false),
        Some(found) => truth(found),
    }
}

/// True or false.
fn truth(value: &Value) -> Result<bool, Refusal>
    ensures { IsForm (truth_in (view value.now)) result }
{
    match value.as_bool() {
        Some(truth) => Ok(truth),
        None => Err(Refusal::NotRequest),
    }
}

/// A number from 1 to `most`.
fn limited(value: &Value, most: u64) -> Result<u64, Refusal>
    ensures { IsForm (within_in most (view value.now)) result }
{
    let number = number(value)?;
    if 1 <= number && number <= most {
        Ok(number)
    } else {
        Err(Refusal::NotRequest)
    }
}

/// A number from 1 to `most` that may be absent, but not null.
pub fn optional_limited_field(value: &Value, key: &str, most: u64) -> Result<Option<u64>, Refusal>
    ensures { IsForm (if_there (within_in most) key.now (view value.now)) result }
{
    match value.get(key) {
        None => Ok(None),
        Some(found) => Ok(Some(limited(found, most)?)),
    }
}

pub fn str_field<'a>(value: &'a Value, key: &str) -> Result<&'a str, Refusal>
    ensures { MatchResult result (λ found. reading.field as_str key.now (view value.now)
        ≡ Some found.now) (λ e. (e ≡ Refusal.NotRequest)
        × (reading.field as_str key.now (view value.now) ≡ None)) }
{
    match field(value, key)?.as_str() {
        Some(text) => Ok(text),
        None => Err(Refusal::NotRequest),
    }
}

#[tactic(auto, using(std::proofs::lemmas::Str::chars_from_encodes))]
fn text_of(alloc: Global, text: &str) -> Result<Text, AllocError>
    ensures { IfOk result (λ t. t ≡ chars text.now) }
{
    Text::from_str(alloc, text)
}

#[tactic(auto, using(crate::proofs::Fields::text_of_string))]
pub fn text_field(alloc: Global, value: &Value, key: &str) -> Result<Text, Refusal>
    ensures { IsRead (reading.field text_in key.now (view value.now)) result }
{
    Ok(text_of(alloc, str_field(value, key)?)?)
}

pub fn name_field(alloc: Global, value: &Value, key: &str) -> Result<Name, Refusal>
    ensures { IsRead (reading.field name_in key.now (view value.now)) result }
{
    Ok(Name::from_str(alloc, str_field(value, key)?)?)
}

pub fn word_field(alloc: Global, value: &Value, key: &str) -> Result<Word, Refusal>
    ensures { IsRead (reading.field name_in key.now (view value.now)) result }
{
    Ok(Word::from_str(alloc, str_field(value, key)?)?)
}
