//! Reads a peer's answers from its lines.
//!
//! An answer has the form that a server of this project writes; other fields are ignored. A line that is not an answer
//! to the question, or not JSON, is `NotRequest`.
ghost use Rattle.std.specs.Prelude.{◌≡◌, ◌⊎◌, Some, None, MatchResult, option_and_then, codes};
ghost use Rattle.serde_json.specs.Find.{get, as_bool};
ghost use Rattle.serde_json.specs.View.{view};
ghost use Rattle.pad_model.specs.declared.limits.TheConstants.{MAX_REPLICA};
ghost use Rattle.wire_json.specs.Lines.{value_of};
ghost use Rattle.wire_json.specs.Peers.{told, granted_in, refused_in, answered_version, peer_answer, vector_answer, pull_answer, push_answer};
ghost use Rattle.wire_json.specs.Reading.{IsForm, IsRead, name_in};
ghost use Rattle.wire_json.specs.Reading as reading;
ghost use Rattle.wire_json.specs.Words.{state_of_word};

use crate::field::{field, number, number_field, str_field};
use crate::list::list_field;
use crate::read_forms::{replica, seen_field};
use crate::request::read_value;
use crate::word::state_of_word;
use pad_core::Pushed;
use pad_model::{Items, Op, Refusal, Seen, Version};
use serde_json::Value;
use std::alloc::Global;

/// A peer's answer: what was asked for, or a refusal.
#[derive(Debug, PartialEq, Drop)]
pub enum Told<T> {
    Said(T),
    Refused,
}

/// Reads the answer to `peer`: the version of the peer.
pub fn read_peer_answer(alloc: Global, line: &[u8]) -> Result<Told<Version>, Refusal>
    ensures { IsRead (told peer_answer line.now) result }
{
    let value = answer_value(alloc, line)?;
    if is_granted(&value)? {
        Ok(Told::Said(peer_version(&value)?))
    } else {
        Ok(Told::Refused)
    }
}

/// Reads the answer to `vector`: how many operations of each origin the peer's pad has.
pub fn read_vector_answer(alloc: Global, line: &[u8]) -> Result<Told<Seen>, Refusal>
    ensures { IsRead (told vector_answer line.now) result }
{
    let value = answer_value(alloc, line)?;
    if is_granted(&value)? {
        Ok(Told::Said(peer_vector(alloc, &value)?))
    } else {
        Ok(Told::Refused)
    }
}

/// Reads the answer to `pull`: operations. `Op::check` tells whether each is within its limits.
pub fn read_pull_answer(alloc: Global, line: &[u8]) -> Result<Told<Items<Op>>, Refusal>
    ensures { IsRead (told pull_answer line.now) result }
{
    let value = answer_value(alloc, line)?;
    if is_granted(&value)? {
        Ok(Told::Said(peer_ops(alloc, &value)?))
    } else {
        Ok(Told::Refused)
    }
}

/// Reads the answer to `push`: what became of the operation.
pub fn read_push_answer(alloc: Global, line: &[u8]) -> Result<Told<Pushed>, Refusal>
    ensures { IsRead (told push_answer line.now) result }
{
    let value = answer_value(alloc, line)?;
    if is_granted(&value)? {
        Ok(Told::Said(peer_state(&value)?))
    } else {
        Ok(Told::Refused)
    }
}

fn answer_value(alloc: Global, line: &[u8]) -> Result<Value, Refusal>
    ensures { MatchResult result (λ v. value_of line.now ≡ Some (view v))
        (λ e. (e ≡ Refusal.Memory) ⊎ ((e ≡ Refusal.NotRequest) × (value_of line.now ≡ None))) }
{
    match read_value(alloc, line) {
        Ok(value) => Ok(value),
        Err(Refusal::Memory) => Err(Refusal::Memory),
        Err(_) => Err(Refusal::NotRequest),
    }
}

/// Returns true if an answer grants the request, and false if it refuses it. Anything else is an error.
fn is_granted(value: &Value) -> Result<bool, Refusal>
    ensures { IsForm (granted_in (view value.now)) result }
{
    match field(value, "ok")?.as_bool() {
        Some(true) => Ok(true),
        Some(false) => refused(value),
        None => Err(Refusal::NotRequest),
    }
}

/// Checks that an answer is a refusal, which has a number and a name, and returns false.
fn refused(value: &Value) -> Result<bool, Refusal>
    ensures { IsForm (refused_in (view value.now)) result }
{
    let _code = number_field(value, "code")?;
    let _name = str_field(value, "error")?;
    Ok(false)
}

fn peer_version(value: &Value) -> Result<Version, Refusal>
    ensures { IsForm (peer_answer (view value.now)) result }
{
    let _replica = replica(field(value, "replica")?)?;
    answered_version(value)
}

fn answered_version(value: &Value) -> Result<Version, Refusal>
    ensures { IsForm (answered_version (get (codes "version") (view value.now))) result }
{
    match value.get("version") {
        None => Ok(Version::One),
        Some(version) if number(version)? == 2 => Ok(Version::Two),
        Some(_) => Err(Refusal::NotRequest),
    }
}

fn peer_vector(alloc: Global, value: &Value) -> Result<Seen, Refusal>
    ensures { IsRead (vector_answer (view value.now)) result }
{
    let _now = number_field(value, "now")?;
    seen_field(alloc, value, "seen")
}

fn peer_ops(alloc: Global, value: &Value) -> Result<Items<Op>, Refusal>
    ensures { IsRead (pull_answer (view value.now)) result }
{
    let _now = number_field(value, "now")?;
    list_field(alloc, value, "ops")
}

fn peer_state(value: &Value) -> Result<Pushed, Refusal>
    ensures { IsForm (push_answer (view value.now)) result }
{
    let _now = number_field(value, "now")?;
    let _dropped = number_field(value, "dropped")?;
    let _released = number_field(value, "released")?;
    state_field(value)
}

fn state_field(value: &Value) -> Result<Pushed, Refusal>
    ensures { IsForm (option_and_then state_of_word (reading.field name_in (codes "state") (view value.now))) result }
{
    match state_of_word(str_field(value, "state")?) {
        Some(state) => Ok(state),
        None => Err(Refusal::NotRequest),
    }
}
