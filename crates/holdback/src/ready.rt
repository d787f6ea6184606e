ghost use Rattle.std.specs.Prelude.{◌≡◌, option_copied};
ghost use Rattle.std.specs.List.{find};
ghost use Rattle.holdback.specs.Held.{reaches, is_ready};

use pad_model::{Counted, Op, Seen};

/// Returns true if an operation is the next of its origin, and every count in its own vector is reached.
pub fn is_ready(op: &Op, seen: &Seen) -> bool
    ensures { result ≡ is_ready seen.now op.now }
{
    let count = seen.count(op.name.origin);
    op.name.number.checked_sub(1) == Some(count) && reaches(seen, op.seen.pairs())
}

/// The first ready operation.
pub fn first_ready<'a>(held: &'a [Op], seen: &Seen) -> Option<&'a Op>
    ensures { option_copied result ≡ find (is_ready seen.now) held.now }
{
    held.iter().find(|op| is_ready(op, seen))
}

fn reaches(seen: &Seen, counts: &[Counted]) -> bool
    ensures { result ≡ reaches seen.now counts.now }
{
    counts
        .iter()
        .all(|pair| pair.count <= seen.count(pair.origin))
}
