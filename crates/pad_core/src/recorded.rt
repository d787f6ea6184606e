//! Compares the records of a pad with its log.
ghost use Rattle.std.specs.Prelude.{◌≡◌, ◌≤◌, ◌<◌, [], None, IfOk, IfErr, OnOk, length, take};
ghost use Rattle.std.specs.List.{list_any};
ghost use Rattle.pad_core.specs.Audit.{IsFault, IsRead, first_fault};
ghost use Rattle.pad_core.specs.Audit as audit_spec;
ghost use Rattle.std.specs.Prelude.{Some};

use crate::ledger::Ledger;
use crate::pad::Pad;
use pad_model::{OpName, Refusal, Sequence, Text};
use std::alloc::Global;

/// A fact about a pad that was reported to somebody.
#[derive(Clone, Debug, Drop, PartialEq)]
pub enum Recorded {
    /// The text of a revision was read.
    Read { rev: u64, text: Text },
    /// An edit with this name made a revision.
    Edit { name: OpName, rev: u64 },
}

/// The reason an audit ends before the last record.
#[derive(Clone, Copy, Debug, PartialEq, Eq)]
pub enum AuditError {
    /// The record at this place, from 0, is the first that does not agree with the log.
    Mismatch { index: usize },
    /// A text could not be compared.
    Memory,
}

/// Compares records with the log of a pad: each text that was read is that of its revision, and each edit made the
/// revision that it was answered with, and was answered once.
pub fn audit<S: Sequence>(
    alloc: Global,
    pad: &Pad<S>,
    records: &[Recorded],
) -> Result<(), AuditError>
    ensures all { OnOk result (first_fault pad.now.log [] records.now ≡ None) }
    ensures fault { IfErr result (λ e. IsFault pad.now.log records.now e) }
{
    audit_log(alloc, pad.ledger(), records)
}

fn audit_log<S: Sequence>(
    alloc: Global,
    ledger: &Ledger<S>,
    records: &[Recorded],
) -> Result<(), AuditError>
    ensures all { OnOk result (first_fault ledger.now [] records.now ≡ None) }
    ensures fault { IfErr result (λ e. IsFault ledger.now records.now e) }
{
    for (index, record) in records.iter().enumerate() {
        match agrees(alloc, ledger, &records[..index], record) {
            Ok(true) => {}
            Ok(false) => return Err(AuditError::Mismatch { index }),
            Err(_) => return Err(AuditError::Memory),
        }
    }
    Ok(())
}

/// Returns true if a record agrees, after those before it.
fn agrees<S: Sequence>(
    alloc: Global,
    ledger: &Ledger<S>,
    before: &[Recorded],
    entry: &Recorded,
) -> Result<bool, Refusal>
    ensures value { IfOk result (λ b. b ≡ audit_spec.agrees ledger.now before.now entry.now) }
    ensures memory { IfErr result (λ e. IsRead ledger.now (Some entry.now)) }
{
    match entry {
        Recorded::Read { rev, text } => {
            if ledger.len() < *rev {
                return Ok(false);
            }
            let shown = ledger.text_at(alloc, *rev)?;
            Ok(*text == shown)
        }
        Recorded::Edit { name, rev } => {
            Ok(stands_at(ledger, *name, *rev) && !is_recorded(before, *name))
        }
    }
}

/// Returns true if the operation of a name made a revision.
fn stands_at<S: Sequence>(ledger: &Ledger<S>, name: OpName, rev: u64) -> bool
    ensures { result ≡ audit_spec.stands_at name rev ledger.now }
{
    if rev == 0 {
        return false;
    }
    match ledger.name_at(rev - 1) {
        Some(other) => other == name,
        None => false,
    }
}

/// Returns true if an edit with a name is among the records.
fn is_recorded(before: &[Recorded], name: OpName) -> bool
    ensures { result ≡ list_any (audit_spec.is_edit_of name) before.now }
{
    before.iter().any(|record| is_edit_of(record, name))
}

fn is_edit_of(entry: &Recorded, name: OpName) -> bool
    ensures { result ≡ audit_spec.is_edit_of name entry.now }
{
    match entry {
        Recorded::Read { .. } => false,
        Recorded::Edit { name: other, .. } => *other == name,
    }
}
