//! An operation and the room for its time.
ghost use Rattle.std.specs.Prelude.{◌≡◌, ◌+◌, ◌++◌, ◌∷◌, [], ◌≤◌, length, IsTrue, Ok, None};
ghost use Rattle.pad_model.specs.Answers.{Answers};
ghost use Rattle.pad_model.specs.Checked.{is_checked};
ghost use Rattle.pad_model.specs.Operation.{characters_in, erased_by};
ghost use Rattle.pad_model.specs.Visible.{hidden_by};
ghost use Rattle.holdback.specs.Held.{is_ready};
ghost use Rattle.pad_core.specs.Counts.{vector_of};
ghost use Rattle.pad_core.specs.Delivered.{delivery_refusal};

use crate::ledger::Ledger;
use op_log::MadeList;
use pad_model::{Op, Refusal, Sequence};
use std::alloc::Global;

/// Delivers an operation as `Ledger::append` does, once there is room for its time.
pub fn append<S: Sequence>(
    alloc: Global,
    ledger: &mut Ledger<S>,
    made: &mut MadeList,
    op: Op,
) -> Result<u64, Refusal>
    requires checked { IsTrue (is_checked op) }
    requires ready { IsTrue (is_ready (vector_of ledger.old) op) }
    requires allowed { delivery_refusal op ledger.old ≡ None }
    requires room { length ledger.old ≤ made.old.room }
    ensures answer { Answers ledger.old (
      Ok (hidden_by (erased_by op) (characters_in ledger.old)),
      ledger.old ++ op ∷ [],
    ) result ledger.new }
    ensures made { made.new.made ≡ made.old.made }
    ensures grown { length ledger.old ≤ length ledger.new }
    ensures room { length ledger.new ≤ made.new.room }
{
    made.reserve(ledger.len() + 1)?;
    ledger.append(alloc, op)
}
