//! Hears the answers of a peer.
ghost use Rattle.std.specs.Prelude.{◌≡◌, IfOk, IfErr};
ghost use Rattle.wire_json.specs.Peers.{peer_answer, vector_answer, pull_answer, push_answer};
ghost use Rattle.relay.specs.Wire.{HearsAs, MissesAnswer};

use crate::peer_lines::LineExchange;
use pad_core::Pushed;
use pad_model::{Items, Op, Refusal, Seen, Version};
use std::alloc::Global;
use wire_json::{Told, read_peer_answer, read_pull_answer, read_push_answer, read_vector_answer};
use wire_lines::Fault;

/// Hears the answer to `peer`; None if the line is missing or has another form.
pub fn hear_version<L: LineExchange>(
    alloc: Global,
    link: &mut L,
) -> Result<Option<Told<Version>>, Fault>
    ensures heard { IfOk result (λ said. HearsAs peer_answer said (L.wire link.old)
        (L.wire link.new)) }
    ensures fault { IfErr result (λ fault. MissesAnswer fault (L.wire link.old) (L.wire link.new)) }
{
    if !link.hear()? {
        return Ok(None);
    }
    match read_peer_answer(alloc, link.line()) {
        Ok(told) => Ok(Some(told)),
        Err(Refusal::Memory) => Err(Fault::Memory),
        Err(_) => Ok(None),
    }
}

/// Hears the answer to `vector`; None if the line is missing or has another form.
pub fn hear_vector<L: LineExchange>(
    alloc: Global,
    link: &mut L,
) -> Result<Option<Told<Seen>>, Fault>
    ensures heard { IfOk result (λ said. HearsAs vector_answer said (L.wire link.old)
        (L.wire link.new)) }
    ensures fault { IfErr result (λ fault. MissesAnswer fault (L.wire link.old) (L.wire link.new)) }
{
    if !link.hear()? {
        return Ok(None);
    }
    match read_vector_answer(alloc, link.line()) {
        Ok(told) => Ok(Some(told)),
        Err(Refusal::Memory) => Err(Fault::Memory),
        Err(_) => Ok(None),
    }
}

/// Hears the answer to `pull`; None if the line is missing or has another form.
pub fn hear_ops<L: LineExchange>(
    alloc: Global,
    link: &mut L,
) -> Result<Option<Told<Items<Op>>>, Fault>
    ensures heard { IfOk result (λ said. HearsAs pull_answer said (L.wire link.old)
        (L.wire link.new)) }
    ensures fault { IfErr result (λ fault. MissesAnswer fault (L.wire link.old) (L.wire link.new)) }
{
    if !link.hear()? {
        return Ok(None);
    }
    match read_pull_answer(alloc, link.line()) {
        Ok(told) => Ok(Some(told)),
        Err(Refusal::Memory) => Err(Fault::Memory),
        Err(_) => Ok(None),
    }
}

/// Hears the answer to `push`; None if the line is missing or has another form.
pub fn hear_push<L: LineExchange>(
    alloc: Global,
    link: &mut L,
) -> Result<Option<Told<Pushed>>, Fault>
    ensures heard { IfOk result (λ said. HearsAs push_answer said (L.wire link.old)
        (L.wire link.new)) }
    ensures fault { IfErr result (λ fault. MissesAnswer fault (L.wire link.old) (L.wire link.new)) }
{
    if !link.hear()? {
        return Ok(None);
    }
    match read_push_answer(alloc, link.line()) {
        Ok(told) => Ok(Some(told)),
        Err(Refusal::Memory) => Err(Fault::Memory),
        Err(_) => Ok(None),
    }
}
