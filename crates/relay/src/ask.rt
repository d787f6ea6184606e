//! The requests of a round to its own server's pads.
ghost use Rattle.std.specs.Prelude.{◌≡◌, Some, IfOk, IfErr};
ghost use Rattle.pad_core.specs.declared.act.Act.TheVariants as act;
ghost use Rattle.pad_core.specs.declared.exchange.TheConstants.{MAX_BATCH};
ghost use Rattle.pad_core.specs.declared.request.Request.TheVariants as request;
ghost use Rattle.relay.specs.Kept.{AsksFor};
ghost use Rattle.relay.specs.Round as round;
ghost use Rattle.relay.specs.declared.limits.TheConstants.{MAX_OPS};
ghost use Rattle.wire_lines.specs.declared.fault.Fault.TheVariants.{Memory};

use crate::limits::MAX_OPS;
use conversation::{Pads, delivered_by};
use pad_core::{Act, MAX_BATCH, PadReply, Reply, Request};
use pad_model::{Items, Name, Op, Refusal, Seen};
use std::alloc::Global;
use wire_lines::Fault;

/// This server's vector of a pad; None if it refuses.
pub fn own_vector<P: Pads>(alloc: Global, pads: &mut P, pad: &Name) -> Result<Option<Seen>, Fault>
    ensures asks { AsksFor P.calls pad.now act.Vector round.own_vector result pads.old pads.new }
    ensures memory { IfErr result (λ fault. fault ≡ Memory) }
{
    vector_in(ask(alloc, pads, pad, Act::Vector)?)
}

/// The first operations of a pad that a vector lacks; None if this server refuses.
pub fn own_ops<P: Pads>(
    alloc: Global,
    pads: &mut P,
    pad: &Name,
    seen: Seen,
) -> Result<Option<Items<Op>>, Fault>
    ensures asks { AsksFor P.calls pad.now (act.Pull seen MAX_OPS (Some MAX_BATCH)) round.own_ops result
        pads.old pads.new }
    ensures memory { IfErr result (λ fault. fault ≡ Memory) }
{
    let act = Act::Pull {
        seen,
        max: MAX_OPS,
        batch: Some(MAX_BATCH),
    };
    ops_in(ask(alloc, pads, pad, act)?)
}

/// Delivers an operation here, and returns how many operations were delivered; None if this server refuses it.
pub fn deliver<P: Pads>(
    alloc: Global,
    pads: &mut P,
    pad: &Name,
    op: Op,
) -> Result<Option<u64>, Fault>
    ensures asks { AsksFor P.calls pad.now (act.Push op) round.own_count result pads.old pads.new }
    ensures memory { IfErr result (λ fault. fault ≡ Memory) }
{
    let answer = ask(alloc, pads, pad, Act::Push { op })?;
    count_in(&answer)
}

/// The name of a cell, if it has one and this server does not refuse to tell it.
pub fn name_in(answer: Result<Option<Name>, Refusal>) -> Result<Option<Name>, Fault>
    ensures name { result ≡ round.own_name answer }
    ensures memory { IfErr result (λ fault. fault ≡ Memory) }
{
    match answer {
        Ok(name) => Ok(name),
        Err(Refusal::Memory) => Err(Fault::Memory),
        Err(_) => Ok(None),
    }
}

// Asks a pad, by name. If there is no memory for the request, nothing is asked.
fn ask<P: Pads>(
    alloc: Global,
    pads: &mut P,
    pad: &Name,
    act: Act,
) -> Result<Result<Reply, Refusal>, Fault>
    ensures asked { IfOk result (λ answer. P.calls pads.old (request.On pad.now act) answer
        pads.new) }
    ensures memory { IfErr result (λ fault. (fault ≡ Memory) × (pads.new ≡ pads.old)) }
{
    let pad = pad.clone()?;
    Ok(pads.call(alloc, &Request::On { pad, act }))
}

fn vector_in(answer: Result<Reply, Refusal>) -> Result<Option<Seen>, Fault>
    ensures told { result ≡ round.own_vector answer }
    ensures memory { IfErr result (λ fault. fault ≡ Memory) }
{
    match answer {
        Ok(Reply::Pad(PadReply::Vector { seen, .. })) => Ok(Some(seen)),
        Ok(_) => Ok(None),
        Err(Refusal::Memory) => Err(Fault::Memory),
        Err(_) => Ok(None),
    }
}

fn ops_in(answer: Result<Reply, Refusal>) -> Result<Option<Items<Op>>, Fault>
    ensures told { result ≡ round.own_ops answer }
    ensures memory { IfErr result (λ fault. fault ≡ Memory) }
{
    match answer {
        Ok(Reply::Pad(PadReply::Pulled { ops, .. })) => Ok(Some(ops)),
        Ok(_) => Ok(None),
        Err(Refusal::Memory) => Err(Fault::Memory),
        Err(_) => Ok(None),
    }
}

fn count_in(answer: &Result<Reply, Refusal>) -> Result<Option<u64>, Fault>
    ensures told { result ≡ round.own_count answer.now }
    ensures memory { IfErr result (λ fault. fault ≡ Memory) }
{
    match answer {
        Ok(_) => Ok(Some(delivered_by(answer))),
        Err(Refusal::Memory) => Err(Fault::Memory),
        Err(_) => Ok(None),
    }
}
