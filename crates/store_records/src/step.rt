//! The records that a request at a cell leaves.
ghost use Rattle.std.specs.Prelude.{◌≡◌, [], ◌∷◌, IfOk, map};
ghost use Rattle.store_records.specs.Records.{act_records, claim_records, introduction_records, mark_records, visit_records};
ghost use Rattle.store_records.specs.Records as records_spec;
ghost use Rattle.store_records.specs.declared.kept_record.Record.TheVariants as variant;

use crate::kept_record::Record;
use guests::Guest;
use named_revisions::NamedRevision;
use pad_core::{Act, Reply, Request};
use pad_model::{Name, Op, Refusal, Text, Who};
use std::alloc::{AllocError, Global};

/// Returns the records of a request at a cell, given the time that operations had then, their visit, the answer, and the
/// operations that it delivered.
pub fn records_of(
    alloc: Global,
    who: &Who,
    request: &Request,
    at: u64,
    visit: u64,
    answer: &Result<Option<Reply>, Refusal>,
    more: &[Op],
) -> Result<Vec<Record>, AllocError>
    ensures { IfOk result (λ records. records.items
        ≡ records_spec.records_of who.now request.now at visit answer.now more.now) }
{
    match request {
        Request::Create { pad } => records_of_claim(alloc, who, pad, answer),
        Request::On { act, .. } => records_of_act(alloc, who, act, at, visit, answer, more),
        Request::Hello { .. } | Request::Peer { .. } | Request::Pads | Request::People { .. } => Ok(
            Vec::new(alloc),
        ),
    }
}

fn records_of_claim(
    alloc: Global,
    who: &Who,
    pad: &Name,
    answer: &Result<Option<Reply>, Refusal>,
) -> Result<Vec<Record>, AllocError>
    ensures { IfOk result (λ records. records.items ≡ claim_records who.now pad.now answer.now) }
{
    let mut records = Vec::new(alloc);
    if let (Who::Author(owner), Ok(Some(_))) = (who, answer) {
        records.push(Record::Named {
            name: pad.clone()?,
            owner: owner.clone()?,
            visits: true,
        })?;
    }
    Ok(records)
}

fn records_of_act(
    alloc: Global,
    who: &Who,
    act: &Act,
    at: u64,
    visit: u64,
    answer: &Result<Option<Reply>, Refusal>,
    more: &[Op],
) -> Result<Vec<Record>, AllocError>
    ensures { IfOk result (λ records. records.items ≡ act_records who.now act.now at visit answer.now more.now) }
{
    match (act, answer) {
        (Act::Join | Act::Rejoin { .. }, _) => records_of_visit(alloc, who, answer),
        (Act::Grant { grantee, right }, Ok(Some(_))) => one(
            alloc,
            Record::Granted {
                grantee: grantee.clone()?,
                right: *right,
            },
        ),
        (Act::Hand { author }, Ok(Some(_))) => one(
            alloc,
            Record::Handed {
                author: author.clone()?,
            },
        ),
        (Act::SetClosed { closed }, Ok(Some(_))) => one(alloc, Record::Closed { closed: *closed }),
        (Act::Mark { rev, text }, _) => records_of_mark(alloc, who, *rev, text, at, answer),
        (Act::Introduce { display }, _) => records_of_introduction(alloc, who, display, answer),
        _ => delivered(alloc, at, visit, more),
    }
}

fn records_of_visit(
    alloc: Global,
    who: &Who,
    answer: &Result<Option<Reply>, Refusal>,
) -> Result<Vec<Record>, AllocError>
    ensures { IfOk result (λ records. records.items ≡ visit_records who.now answer.now) }
{
    let (Who::Author(visitor), Ok(Some(_))) = (who, answer) else {
        return Ok(Vec::new(alloc));
    };
    let author = Some(visitor.clone()?);
    one(alloc, Record::Visited { author })
}

fn records_of_mark(
    alloc: Global,
    who: &Who,
    rev: u64,
    text: &Text,
    at: u64,
    answer: &Result<Option<Reply>, Refusal>,
) -> Result<Vec<Record>, AllocError>
    ensures { IfOk result (λ records. records.items
        ≡ mark_records who.now rev text.now at answer.now) }
{
    let (Who::Author(author), Ok(Some(_))) = (who, answer) else {
        return Ok(Vec::new(alloc));
    };
    let named = NamedRevision {
        rev,
        author: author.clone()?,
        at,
        text: text.clone()?,
    };
    one(alloc, Record::Marked { named })
}

fn records_of_introduction(
    alloc: Global,
    who: &Who,
    display: &Text,
    answer: &Result<Option<Reply>, Refusal>,
) -> Result<Vec<Record>, AllocError>
    ensures { IfOk result (λ records. records.items
        ≡ introduction_records who.now display.now answer.now) }
{
    let (Who::Author(guest), Ok(Some(_))) = (who, answer) else {
        return Ok(Vec::new(alloc));
    };
    let guest = Guest {
        author: guest.clone()?,
        display: display.clone()?,
    };
    one(alloc, Record::Introduced { guest })
}

fn one(alloc: Global, kept: Record) -> Result<Vec<Record>, AllocError>
    ensures { IfOk result (λ records. records.items ≡ kept ∷ []) }
{
    let mut records = Vec::new(alloc);
    records.push(kept)?;
    Ok(records)
}

fn delivered(alloc: Global, at: u64, visit: u64, more: &[Op]) -> Result<Vec<Record>, AllocError>
    ensures { IfOk result (λ records. records.items ≡ map (variant.Delivered at visit) more.now) }
{
    let mut records = Vec::new(alloc);
    for op in more {
        let op = op.clone()?;
        records.push(Record::Delivered { at, visit, op })?;
    }
    Ok(records)
}
