//! Work on `IdentIndex`: finding characters in a text that was cut into many blocks.
ghost use Rattle.std.specs.Prelude.{◌<◌};

use crate::SEED;
use dice::Dice;
use ident_index::IdentIndex;
use pad_model::{Refusal, Stamp};
use std::alloc::Global;

const REPLICAS: u16 = 8;

// A stamp of one of the replicas, of which each has that many.
fn any_stamp(dice: &mut Dice, each: u32) -> Result<Stamp, Refusal>
    requires { 0 < each }
{
    let counter = dice.roll(u64::from(each)) + 1;
    let replica = dice.roll(u64::from(REPLICAS)) as u16 + 1;
    Stamp::new(counter, replica)
}

// One block for each replica, with that many stamps.
fn whole(alloc: Global, each: u32) -> Result<IdentIndex, Refusal>
    requires { 0 < each }
{
    let mut index = IdentIndex::new(alloc);
    for replica in 0..REPLICAS {
        index.add(Stamp::new(1, replica + 1)?, u64::from(each), 0)?;
    }
    Ok(index)
}

// Each replica's block is cut at random characters, and then some parts are taken away.
fn cut(alloc: Global, dice: &mut Dice, cuts: u32) -> Result<IdentIndex, Refusal>
    requires { 0 < cuts }
{
    let mut index = whole(alloc, cuts)?;
    for label in 0..cuts {
        if let Some(place) = index.locate(any_stamp(dice, cuts)?) {
            if place.offset > 0 {
                index.cut(place.first, place.offset, u64::from(label))?;
            }
        }
    }
    for _ in 0..cuts / 16 {
        if let Some(place) = index.locate(any_stamp(dice, cuts)?) {
            index.remove(place.first);
        }
    }
    Ok(index)
}

/// Finds that many random characters in an index of about that many blocks of eight characters on average.
pub fn locate(alloc: Global, cuts: u32, times: u32) -> Result<String, Refusal> {
    let mut dice = Dice::new(SEED);
    let mut found: u64 = 0;
    let mut check: u64 = 0;
    if cuts == 0 {
        return Ok(format!(in alloc; "blocks 0")?);
    }
    let index = cut(alloc, &mut dice, cuts)?;
    for _ in 0..times {
        if let Some(place) = index.locate(any_stamp(&mut dice, cuts)?) {
            found = found.wrapping_add(1);
            check = check
                .wrapping_mul(31)
                .wrapping_add(place.offset ^ place.label);
        }
    }
    Ok(format!(in alloc; "blocks {}, found {found}, check {check}", index.len())?)
}
