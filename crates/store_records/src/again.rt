//! Rebuilds a pad from its records.
ghost use Rattle.std.specs.Prelude.{◌≡◌, ◌⊎◌, ◌≤◌, Ok, Err, MatchResult};
ghost use Rattle.pad_model.specs.Answers.{Answers};
ghost use Rattle.store_records.specs.Records.{rebuilt};
ghost use Rattle.store_records.specs.Records as records_spec;

use crate::kept_record::Record;
use pad_core::Pad;
use pad_model::{Refusal, Sequence};
use std::alloc::Global;

/// Applies a record to a pad. If the record is refused, the pad is unchanged.
pub fn replay<S: Sequence>(alloc: Global, pad: &mut Pad<S>, kept: Record) -> Result<(), Refusal>
    ensures { Answers pad.old (records_spec.replay kept pad.old) result pad.new }
{
    match kept {
        Record::Named {
            name,
            owner,
            visits,
        } => pad.restore_claim(alloc, &name, &owner, visits),
        Record::Granted { grantee, right } => pad.restore_grant(&grantee, right),
        Record::Handed { author } => pad.restore_hand(&author),
        Record::Closed { closed } => pad.restore_closed(closed),
        Record::Marked { named } => pad.restore_mark(&named),
        Record::Introduced { guest } => pad.restore_introduction(&guest),
        Record::Visited { author } => pad.restore_visit(alloc, author.as_ref()),
        Record::Delivered { at, visit, op } => pad.restore_operation(alloc, op, at, visit),
    }
}

/// Builds a pad from its records, on a server with this replica number, where at most `present` visits may be present
/// at once. Fails with the refusal of the first record that is refused, or out of memory.
pub fn rebuild<S: Sequence>(
    alloc: Global,
    replica: u16,
    present: u64,
    records: Vec<Record>,
) -> Result<Pad<S>, Refusal>
    requires { 1 ≤ replica }
    ensures { MatchResult result (λ pad. rebuilt replica present records.items ≡ Ok pad)
        (λ e. (e ≡ Refusal.Memory) ⊎ (rebuilt replica present records.items ≡ Err e)) }
{
    let mut pad = Pad::new(alloc, replica, present)?;
    for kept in records {
        replay(alloc, &mut pad, kept)?;
    }
    Ok(pad)
}
