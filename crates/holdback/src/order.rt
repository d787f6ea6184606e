ghost use Rattle.std.specs.Prelude.{◌≡◌, IfOk, IfErr};
ghost use Rattle.holdback.specs.Held.{IsRising};
ghost use Rattle.holdback.specs.Inside.{IsParted, IsAt, IsGapFor};

use pad_model::{Op, OpName};

/// The index of the operation with a name, or the index at which it would be inserted, as an error.
pub fn place_of(held: &[Op], name: OpName) -> Result<usize, usize>
    requires { IsRising held.now }
    ensures found { IfOk result (λ place. IsAt held.now name place) }
    ensures absent { IfErr result (λ place. IsGapFor held.now name place) }
{
    let place = place_for(held, name);
    match held.get(place) {
        Some(op) if op.name == name => Ok(place),
        _ => Err(place),
    }
}

// The first index whose operation does not come before a name.
fn place_for(held: &[Op], name: OpName) -> usize
    requires { IsRising held.now }
    ensures { IsParted held.now name result }
{
    held.partition_point(|op| op.name.precedes(name))
}
