//! Makes the parts of an operation from an edit.
ghost use Rattle.std.specs.Prelude.{◌≡◌, ◌+◌, ◌≤◌, ◌∷◌, [], false, length, None, IfOk, MatchResult};
ghost use Rattle.pad_model.specs.Stamp.{IsInLimits};
ghost use Rattle.pad_model.specs.Visible.{visible};
ghost use Rattle.pad_model.specs.declared.limits.TheConstants.{MAX_COUNTER, MAX_REPLICA};
ghost use Rattle.pad_core.specs.Counts.{characters_at};
ghost use Rattle.pad_core.specs.declared.act.Change.TheVariants.{Insert};
ghost use Rattle.pad_core.specs.Edits.{before_place, edit_refusal, made_parts, part_from};
ghost use Rattle.pad_core.specs.Edits as edits;

use crate::act::Change;
use crate::edit::growth_of;
use crate::ledger::Ledger;
use pad_model::{Items, Part, Refusal, Run, Sequence, Stamp, Text};
use std::alloc::{AllocError, Global};

/// The parts of the changes: each refers to the revision, and each insertion is newer than the pad's characters and
/// than the insertion before it.
pub fn make_parts<S: Sequence>(
    alloc: Global,
    ledger: &Ledger<S>,
    replica: u16,
    rev: u64,
    changes: &[Change],
) -> Result<Items<Part>, Refusal>
    requires replica { 1 ≤ replica }
    requires allowed { edit_refusal rev changes.now ledger.now ≡ None }
    ensures { MatchResult result (λ parts. parts ≡ made_parts replica rev changes.now ledger.now)
        (λ e. e ≡ Refusal.Memory) }
{
    let mut counter = ledger.clock() + 1;
    let mut parts = Items::new(alloc);
    for change in changes {
        let part = make_part(alloc, ledger, replica, counter, rev, change)?;
        parts.push(part)?;
        counter += growth_of(change);
    }
    Ok(parts)
}

/// The one part of an insertion, which is newer than the pad's characters.
pub fn make_insertion<S: Sequence>(
    alloc: Global,
    ledger: &Ledger<S>,
    replica: u16,
    rev: u64,
    at: u64,
    text: &Text,
) -> Result<Items<Part>, Refusal>
    requires replica { 1 ≤ replica }
    requires allowed { edit_refusal rev (Insert at text.now ∷ []) ledger.now ≡ None }
    ensures { MatchResult result (λ parts. parts
        ≡ made_parts replica rev (Insert at text.now ∷ []) ledger.now) (λ e. e ≡ Refusal.Memory) }
{
    let run = make_run(ledger, replica, ledger.clock() + 1, rev, at, text)?;
    Ok(Items::of_one(alloc, Part::Insert(run))?)
}

fn make_part<S: Sequence>(
    alloc: Global,
    ledger: &Ledger<S>,
    replica: u16,
    counter: u64,
    rev: u64,
    change: &Change,
) -> Result<Part, Refusal>
    requires replica { 1 ≤ replica }
    requires counter { 1 ≤ counter }
    requires clock { counter + edits.growth_of change.now ≤ MAX_COUNTER + 1 }
    requires within { edits.is_outside (length (visible (characters_at rev ledger.now))) change.now
        ≡ false }
    requires filled { edits.is_blank change.now ≡ false }
    ensures { MatchResult result (λ part. part
        ≡ part_from counter replica (characters_at rev ledger.now) change.now)
        (λ e. e ≡ Refusal.Memory) }
{
    Ok(match change {
        Change::Insert { at, text } => {
            Part::Insert(make_run(ledger, replica, counter, rev, *at, text)?)
        }
        Change::Delete { at, len } => Part::Delete(ledger.spans_at(alloc, rev, *at, *len)?),
    })
}

/// A text at a place of a revision, counted up from a counter on.
fn make_run<S: Sequence>(
    ledger: &Ledger<S>,
    replica: u16,
    counter: u64,
    rev: u64,
    at: u64,
    text: &Text,
) -> Result<Run, AllocError>
    requires { IsInLimits counter replica }
    ensures { IfOk result (λ run. run ≡ record {
      first = record { counter = counter; replica = replica };
      after = before_place (characters_at rev ledger.now) at;
      text = text.now;
    }) }
{
    let text = text.clone()?;
    Ok(Run {
        first: first_stamp(counter, replica),
        after: stamp_before(ledger, rev, at),
        text,
    })
}

fn first_stamp(counter: u64, replica: u16) -> Stamp
    requires { IsInLimits counter replica }
    ensures { result ≡ record { counter = counter; replica = replica } }
{
    match Stamp::new(counter, replica) {
        Ok(stamp) => stamp,
        Err(_) => unreachable!(),
    }
}

/// The stamp of the character before a place of a revision; None is the start.
pub fn stamp_before<S: Sequence>(ledger: &Ledger<S>, rev: u64, at: u64) -> Option<Stamp>
    ensures { result ≡ before_place (characters_at rev ledger.now) at }
{
    match at {
        0 => None,
        _ => ledger.stamp_at(rev, at - 1),
    }
}
