//! From a line to a request.
ghost use Rattle.std.specs.Prelude.{◌≡◌, ◌⊎◌, Some, None, MatchResult};
ghost use Rattle.serde_json.specs.View.{view};
ghost use Rattle.wire_json.specs.Lines.{request, value_of};
ghost use Rattle.wire_json.specs.Reading.{IsForm, IsLine, IsRead};
ghost use Rattle.wire_json.specs.Words.{act_word_of};
ghost use Rattle.wire_json.specs.Requests.{request_in, guest_in, hello_in, peer_in, create_in, people_in, on_in};

use crate::act_words::{ActWord, act_word_of};
use crate::field::{name_field, number_field, str_field, word_field};
use crate::guest_forms::is_token;
use crate::list::list_field;
use crate::read_acts::read_act;
use crate::read_forms::version_field;
use guests::guest_name;
use pad_core::{MAX_PEOPLE_ASKED, Request};
use pad_model::{Items, Name, Refusal};
use serde_json::Value;
use sessions::Word;
use std::alloc::Global;

/// Reads the request of a line, or returns why it is none: `NotJson`, `NotRequest` or `Memory`.
pub fn read_request(alloc: Global, line: &[u8]) -> Result<Request, Refusal>
    ensures { IsLine (request line.now) result }
{
    let value = read_value(alloc, line)?;
    request_of(alloc, &value)
}

pub fn read_value(alloc: Global, line: &[u8]) -> Result<Value, Refusal>
    ensures { MatchResult result (λ v. value_of line.now ≡ Some (view v))
        (λ e. (e ≡ Refusal.Memory) ⊎ ((e ≡ Refusal.NotJson) × (value_of line.now ≡ None))) }
{
    match Value::from_slice(alloc, line) {
        Ok(value) => Ok(value),
        Err(error) if error.is_memory() => Err(Refusal::Memory),
        Err(_) => Err(Refusal::NotJson),
    }
}

fn request_of(alloc: Global, value: &Value) -> Result<Request, Refusal>
    ensures { IsRead (request_in (view value.now)) result }
{
    match str_field(value, "do")? {
        "hello" => read_hello(alloc, value),
        "guest" => read_guest(alloc, value),
        "peer" => read_peer(alloc, value),
        "create" => read_create(alloc, value),
        "pads" => Ok(Request::Pads),
        "people" => read_people(alloc, value),
        word => read_on(alloc, word, value),
    }
}

fn read_hello(alloc: Global, value: &Value) -> Result<Request, Refusal>
    ensures { IsRead (hello_in (view value.now)) result }
{
    let name = str_field(value, "name")?;
    let token = str_field(value, "token")?;
    Ok(Request::Hello {
        name: Name::from_str(alloc, name)?,
        token: Word::from_str(alloc, token)?,
    })
}

/// A guest logs in under the name that its token makes.
fn read_guest(alloc: Global, value: &Value) -> Result<Request, Refusal>
    ensures { IsRead (guest_in (view value.now)) result }
{
    let token = str_field(value, "token")?;
    if !is_token(token.as_bytes()) {
        return Err(Refusal::NotRequest);
    }
    Ok(Request::Hello {
        name: guest_name(alloc, token)?,
        token: Word::from_str(alloc, token)?,
    })
}

fn read_peer(alloc: Global, value: &Value) -> Result<Request, Refusal>
    ensures { IsRead (peer_in (view value.now)) result }
{
    let number = number_field(value, "number")?;
    let version = version_field(value, "version")?;
    let token = word_field(alloc, value, "token")?;
    Ok(Request::Peer {
        number,
        token,
        version,
    })
}

fn read_create(alloc: Global, value: &Value) -> Result<Request, Refusal>
    ensures { IsRead (create_in (view value.now)) result }
{
    let pad = name_field(alloc, value, "pad")?;
    Ok(Request::Create { pad })
}

fn read_people(alloc: Global, value: &Value) -> Result<Request, Refusal>
    ensures { IsRead (people_in (view value.now)) result }
{
    let names: Items<Name> = list_field(alloc, value, "authors")?;
    if names.is_empty() || names.len() as u64 > MAX_PEOPLE_ASKED {
        return Err(Refusal::NotRequest);
    }
    Ok(Request::People { names })
}

fn read_on(alloc: Global, word: &str, value: &Value) -> Result<Request, Refusal>
    ensures { IsRead (on_in word.now (view value.now)) result }
{
    let named = known_word(word)?;
    let pad = str_field(value, "pad")?;
    let act = read_act(alloc, named, value)?;
    let pad = Name::from_str(alloc, pad)?;
    Ok(Request::On { pad, act })
}

fn known_word(word: &str) -> Result<ActWord, Refusal>
    ensures { IsForm (act_word_of word.now) result }
{
    match act_word_of(word) {
        Some(known) => Ok(known),
        None => Err(Refusal::NotRequest),
    }
}
