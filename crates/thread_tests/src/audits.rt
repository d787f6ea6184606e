//! Records of reads and edits, compared with the log of a pad.
use crate::stage::typed;
use block_seq::BlockSeq;
use pad_core::{AuditError, Pad, Recorded, audit};
use pad_model::{OpName, Refusal, Text};
use std::alloc::Global;
use std::test::Fail;

// Represents an audit without a fault.
const NONE: usize = usize::MAX;

// Represents an audit that ran out of memory.
const NO_MEMORY: usize = usize::MAX - 1;

fn read(alloc: Global, rev: u64, text: &str) -> Result<Recorded, Refusal> {
    Ok(Recorded::Read {
        rev,
        text: Text::from_str(alloc, text)?,
    })
}

fn edit(rev: u64) -> Recorded {
    Recorded::Edit {
        name: OpName {
            origin: 1,
            number: 1,
        },
        rev,
    }
}

fn fault_of(alloc: Global, pad: &Pad<BlockSeq>, records: &[Recorded]) -> usize {
    match audit(alloc, pad, records) {
        Ok(()) => NONE,
        Err(AuditError::Mismatch { index }) => index,
        Err(AuditError::Memory) => NO_MEMORY,
    }
}

// Records of the empty text of revision 0, a text of revision 1, and the first edit at these revisions.
fn records(alloc: Global, text: &str, revs: &[u64]) -> Result<Vec<Recorded>, Refusal> {
    let mut records = Vec::new(alloc);
    records.push(read(alloc, 0, "")?)?;
    records.push(read(alloc, 1, text)?)?;
    for rev in revs {
        records.push(edit(*rev))?;
    }
    Ok(records)
}

// Returns the index of the first record that does not agree with the log of a pad into which ann has inserted `hello`.
fn first_fault(alloc: Global, text: &str, revs: &[u64]) -> Result<usize, Refusal> {
    let pad = typed(alloc)?;
    let records = records(alloc, text, revs)?;
    Ok(fault_of(alloc, &pad, records.as_slice()))
}

// The text that was read, the revisions of the edit, and the index of the first fault.
const AUDITS: &[(&str, &[u64], usize)] = &[
    ("hello", &[1], NONE),
    ("hellO", &[1], 1),
    ("hello", &[1, 1], 3),
    ("hello", &[2], 2),
];

#[test]
fn audit_of_records(rt: HostRuntime) -> Result<(), Fail> {
    let alloc = rt.alloc();
    for (text, revs, want) in AUDITS {
        let came = first_fault(alloc, text, revs)?;
        assert!(rt;
            came == *want,
            "{text} at 1, edited at {revs:?}: wanted {want}, came {came}"
        );
    }
    Ok(())
}
