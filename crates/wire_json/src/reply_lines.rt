//! From a reply to a line.
ghost use Rattle.std.specs.Prelude.{◌≡◌, IfOk, MatchResult, string_bytes};
ghost use Rattle.serde_json.specs.View.{view};
ghost use Rattle.wire_json.specs.Replies.{IsLineFor, IsWritten, line_of, outcome_data, reply_data, refusal_data};

use crate::list::list_value;
use crate::number_lines::ended_line;
use crate::pad_reply_lines::pad_line;
use crate::value_lines::value_line;
use crate::write_forms::author_value;
use pad_core::{Listed, Person, Reply};
use pad_model::{Author, Refusal, Version};
use serde_json::{Value, json};
use std::alloc::{AllocError, Global};

/// The line of a reply or a refusal, including its LF: compact JSON with keys in byte order.
pub fn reply_line(alloc: Global, reply: &Result<Reply, Refusal>) -> Result<String, Refusal>
    ensures line { MatchResult result (λ line. string_bytes line ≡ line_of reply.now)
        (λ e. e ≡ Refusal.Memory) }
    ensures reads { IfOk result (λ line. IsLineFor (outcome_data reply.now) (string_bytes line)) }
{
    Ok(outcome_line(alloc, reply)?)
}

fn outcome_line(alloc: Global, outcome: &Result<Reply, Refusal>) -> Result<String, AllocError>
    ensures { IfOk result (λ line. IsWritten (outcome_data outcome.now) (string_bytes line)) }
{
    match outcome {
        Ok(Reply::Hello { author }) => value_line(alloc, hello_value(alloc, author)),
        Ok(Reply::Peer { replica, version }) => {
            value_line(alloc, peer_value(alloc, *replica, *version))
        }
        Ok(Reply::Pad(reply)) => pad_line(alloc, reply),
        Ok(Reply::Pads { pads }) => pads_line(alloc, pads.as_slice()),
        Ok(Reply::People { people }) => people_line(alloc, people.as_slice()),
        Ok(Reply::Ended) => ended_line(alloc),
        Err(refusal) => value_line(alloc, refusal_value(alloc, *refusal)),
    }
}

fn refusal_value(alloc: Global, refusal: Refusal) -> Result<Value, AllocError>
    ensures { IfOk result (λ v. view v ≡ refusal_data refusal) }
{
    let code = refusal.code();
    let name = refusal.name();
    json!(in alloc; {"code": code, "error": name, "ok": false})
}

fn hello_value(alloc: Global, author: &Author) -> Result<Value, AllocError>
    ensures { IfOk result (λ v. view v ≡ reply_data (Reply.Hello author.now)) }
{
    let author = author_value(alloc, author)?;
    json!(in alloc; {"author": author, "ok": true})
}

fn pads_line(alloc: Global, pads: &[Listed]) -> Result<String, AllocError>
    ensures { IfOk result (λ line. IsWritten (reply_data (Reply.Pads pads.now))
        (string_bytes line)) }
{
    value_line(alloc, pads_value(alloc, pads))
}

fn pads_value(alloc: Global, pads: &[Listed]) -> Result<Value, AllocError>
    ensures { IfOk result (λ v. view v ≡ reply_data (Reply.Pads pads.now)) }
{
    json!(in alloc; {"ok": true, "pads": list_value(alloc, pads)?})
}

fn people_line(alloc: Global, people: &[Person]) -> Result<String, AllocError>
    ensures { IfOk result (λ line. IsWritten (reply_data (Reply.People people.now))
        (string_bytes line)) }
{
    value_line(alloc, people_value(alloc, people))
}

fn people_value(alloc: Global, people: &[Person]) -> Result<Value, AllocError>
    ensures { IfOk result (λ v. view v ≡ reply_data (Reply.People people.now)) }
{
    json!(in alloc; {"ok": true, "people": list_value(alloc, people)?})
}

/// The value of a reply to `peer`. It names the version only to peers of version 2.
fn peer_value(alloc: Global, replica: u16, version: Version) -> Result<Value, AllocError>
    ensures { IfOk result (λ v. view v ≡ reply_data (Reply.Peer replica version)) }
{
    match version {
        Version::One => json!(in alloc; {"ok": true, "replica": replica}),
        Version::Two => json!(in alloc; {"ok": true, "replica": replica, "version": 2}),
    }
}
