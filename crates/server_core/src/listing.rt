//! A list of pads, collected cell by cell.
ghost use Rattle.std.specs.Prelude.{◌≡◌, ◌≢◌, ◌++◌, [], IfErr, OnOk};
ghost use Rattle.pad_model.specs.declared.refusal.Refusal.TheVariants as refusal;
ghost use Rattle.server_core.specs.Listing.{listed_at};

use pad_core::{Listed, Pad};
use pad_model::{Items, Refusal, Sequence, Who};
use std::alloc::Global;

/// Adds the pad of the cell with this index in the row, if `who` may read it.
pub fn list_cell<S: Sequence>(
    alloc: Global,
    cells: &[Pad<S>],
    place: u32,
    who: &Who,
    found: &mut Items<Listed>,
) -> Result<(), Refusal>
    ensures listed { OnOk result (found.new ≡ found.old ++ listed_at who.now place cells.now) }
    ensures memory { IfErr result (λ e. (e ≡ refusal.Memory)
        × (listed_at who.now place cells.now ≢ [])) }
{
    let index = place as usize;
    if index >= cells.len() {
        return Ok(());
    }
    if let Some(listed) = cells[index].listing(alloc, who)? {
        found.push(listed)?;
    }
    Ok(())
}
