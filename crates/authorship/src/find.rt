//! Finds characters among runs.
ghost use Rattle.std.specs.Prelude.{◌≡◌, ◌≤◌};
ghost use Rattle.authorship.specs.StoredRuns.{characters};
ghost use Rattle.authorship.specs.Cut.{IsPlace, position};

use crate::stored_run::{RunPlace, StoredRun};
use weight_tree::WeightTree;

/// The place after this many characters.
pub fn place_of(runs: &WeightTree<StoredRun>, pos: u64) -> RunPlace
    requires { pos ≤ characters runs.now.items }
    ensures place { IsPlace runs.now.items result }
    ensures position { position runs.now.items result ≡ pos }
{
    match runs.find(pos) {
        Some(found) => RunPlace {
            index: found.rank,
            offset: found.offset,
        },
        None => RunPlace {
            index: runs.len(),
            offset: 0,
        },
    }
}
