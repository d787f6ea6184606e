//! Work on `OpLog`: a peer that catches up, four operations at a time.
use crate::SEED;
use dice::Dice;
use op_log::OpLog;
use pad_model::{Items, Name, Op, OpName, Part, Refusal, Run, Seen, Stamp, Text};
use std::alloc::Global;

// An operation that types one character.
fn typed(alloc: Global, name: OpName) -> Result<Op, Refusal> {
    let mut parts = Items::new(alloc);
    parts.push(Part::Insert(Run {
        first: Stamp::new(name.number, name.origin)?,
        after: None,
        text: Text::from_str(alloc, "x")?,
    }))?;
    Ok(Op {
        name,
        seen: Seen::new(alloc),
        author: Name::from_str(alloc, "ann")?,
        parts,
    })
}

// A log of that many operations of three origins, in no order.
fn grown(alloc: Global, size: u32) -> Result<OpLog, Refusal> {
    let mut dice = Dice::new(SEED);
    let mut log = OpLog::new(alloc);
    for _ in 0..size {
        let origin = dice.roll(3) as u16 + 1;
        let number = log.count(origin).wrapping_add(1);
        let op = typed(alloc, OpName { origin, number })?;
        log.prepare(&op)?;
        log.commit(&op);
    }
    Ok(log)
}

/// The count of the operations that were seen, and a check sum over them in their order.
#[derive(Drop)]
struct PullTally {
    operations: u64,
    check: u64,
}

impl PullTally {
    fn new() -> PullTally {
        PullTally {
            operations: 0,
            check: 0,
        }
    }

    fn note(&mut self, op: &Op) {
        let number = op
            .name
            .number
            .wrapping_mul(3)
            .wrapping_add(u64::from(op.name.origin));
        self.operations = self.operations.wrapping_add(1);
        self.check = self.check.wrapping_mul(31).wrapping_add(number);
    }

    fn counts(&self, alloc: Global) -> Result<String, Refusal> {
        Ok(format!(in alloc; "operations {}, check {}", self.operations, self.check)?)
    }
}

// Notes four more operations, and returns true if there were any.
fn pull_four(
    alloc: Global,
    log: &OpLog,
    seen: &mut Seen,
    tally: &mut PullTally,
) -> Result<bool, Refusal> {
    let ops = log.missing(alloc, seen, 4)?;
    for op in ops.as_slice() {
        tally.note(op);
        seen.set(op.name.origin, op.name.number)?;
    }
    Ok(!ops.is_empty())
}

/// Catches up with the whole log that many times, four operations at a time.
pub fn pull(alloc: Global, size: u32, times: u32) -> Result<String, Refusal> {
    let log = grown(alloc, size)?;
    let mut tally = PullTally::new();
    for _ in 0..times {
        let mut seen = Seen::new(alloc);
        for _ in 0..size {
            if !pull_four(alloc, &log, &mut seen, &mut tally)? {
                break;
            }
        }
    }
    tally.counts(alloc)
}
