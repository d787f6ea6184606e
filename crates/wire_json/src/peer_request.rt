//! A server's requests to a peer, as lines: compact JSON with keys in byte order, and a line feed.
ghost use Rattle.std.specs.Prelude.{◌≡◌, IfOk, string_bytes};
ghost use Rattle.serde_json.specs.View.{view};
ghost use Rattle.wire_json.specs.Peers.{peer_request, pull_request, vector_request, push_request};
ghost use Rattle.wire_json.specs.Replies.{IsWritten};

use crate::list::ToJson;
use crate::value_lines::value_line;
use crate::write_forms::seen_value;
use pad_model::{Name, Op, Seen};
use serde_json::{Value, json};
use std::alloc::{AllocError, Global};

/// Logs in at a peer, with this server's number and the shared token, in version 2.
pub fn peer_line(alloc: Global, own: u16, token: &str) -> Result<String, AllocError>
    ensures { IfOk result (λ line. IsWritten (peer_request own token.now) (string_bytes line)) }
{
    value_line(alloc, peer_value(alloc, own, token))
}

/// Asks for the first operations of a pad that `seen` does not count: a batch of at most `batch` if it is given and the
/// peer knows batches, and otherwise at most `most`.
pub fn pull_line(
    alloc: Global,
    pad: &Name,
    seen: &Seen,
    most: u64,
    batch: Option<u64>,
) -> Result<String, AllocError>
    ensures { IfOk result (λ line. IsWritten (pull_request pad.now seen.now most batch)
        (string_bytes line)) }
{
    value_line(alloc, pull_value(alloc, pad, seen, most, batch))
}

/// Asks how many operations of each origin a pad has.
pub fn vector_line(alloc: Global, pad: &Name) -> Result<String, AllocError>
    ensures { IfOk result (λ line. IsWritten (vector_request pad.now) (string_bytes line)) }
{
    value_line(alloc, vector_value(alloc, pad))
}

/// Pushes an operation of a pad.
pub fn push_line(alloc: Global, pad: &Name, op: &Op) -> Result<String, AllocError>
    ensures { IfOk result (λ line. IsWritten (push_request pad.now op.now) (string_bytes line)) }
{
    value_line(alloc, push_value(alloc, pad, op))
}

fn peer_value(alloc: Global, own: u16, token: &str) -> Result<Value, AllocError>
    ensures { IfOk result (λ v. view v ≡ peer_request own token.now) }
{
    json!(in alloc; {"do": "peer", "number": own, "token": token, "version": 2})
}

fn pull_value(
    alloc: Global,
    pad: &Name,
    seen: &Seen,
    most: u64,
    batch: Option<u64>,
) -> Result<Value, AllocError>
    ensures { IfOk result (λ v. view v ≡ pull_request pad.now seen.now most batch) }
{
    let pad = pad.as_str();
    match batch {
        None => json!(in alloc; {
            "do": "pull",
            "max": most,
            "pad": pad,
            "seen": seen_value(alloc, seen)?
        }),
        Some(count) => json!(in alloc; {
            "batch": count,
            "do": "pull",
            "max": most,
            "pad": pad,
            "seen": seen_value(alloc, seen)?
        }),
    }
}

fn vector_value(alloc: Global, pad: &Name) -> Result<Value, AllocError>
    ensures { IfOk result (λ v. view v ≡ vector_request pad.now) }
{
    json!(in alloc; {"do": "vector", "pad": pad.as_str()})
}

fn push_value(alloc: Global, pad: &Name, op: &Op) -> Result<Value, AllocError>
    ensures { IfOk result (λ v. view v ≡ push_request pad.now op.now) }
{
    json!(in alloc; {"do": "push", "op": op.to_json(alloc)?, "pad": pad.as_str()})
}
