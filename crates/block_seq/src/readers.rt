//! The characters that the cells of the plain sequence show at a revision.
ghost use Rattle.std.specs.Prelude.{◌≡◌, ◌==◌, if◌then◌else◌, max, length, map, filter, fold, take, drop, IfOk, slice_get, option_map, Some, None};
ghost use Rattle.block_seq.specs.Plain.{AreKnown, author_at};
ghost use Rattle.block_seq.specs.Plain as plain;

use crate::place::PlainCell;
use pad_model::{Author, Stamp};
use std::alloc::{AllocError, Global};

/// Returns true if a cell is visible: it is born and has not died yet.
pub fn is_shown(cell: &PlainCell, rev: u64) -> bool
    ensures { result ≡ plain.is_shown rev cell.now }
{
    let dead = match cell.died {
        None => false,
        Some(died) => died <= rev,
    };
    cell.born <= rev && !dead
}

pub fn count_shown(cells: &[PlainCell], rev: u64) -> usize
    ensures { result ≡ length (filter (plain.is_shown rev) cells.now) }
{
    cells.iter().filter(|c| is_shown(c, rev)).count()
}

/// The visible cell at a place.
pub fn shown_cell(cells: &[PlainCell], rev: u64, place: u64) -> Option<PlainCell>
    ensures { result ≡ slice_get (filter (plain.is_shown rev) cells.now) place }
{
    let mut left = place;
    for cell in cells {
        if is_shown(cell, rev) {
            if left == 0 {
                return Some(*cell);
            }
            left -= 1;
        }
    }
    None
}

pub fn shown_text(alloc: Global, cells: &[PlainCell], rev: u64) -> Result<Vec<char>, AllocError>
    ensures { IfOk result (λ text. text.items
        ≡ map (λ c. c.character) (filter (plain.is_shown rev) cells.now)) }
{
    cells
        .iter()
        .filter(|c| is_shown(c, rev))
        .map(|c| c.character)
        .collect(alloc)
}

/// The stamps of some visible characters from a place on.
pub fn shown_stamps(
    alloc: Global,
    cells: &[PlainCell],
    rev: u64,
    at: u64,
    len: u64,
) -> Result<Vec<Stamp>, AllocError>
    ensures { IfOk result (λ stamps. stamps.items
        ≡ map (λ c. c.stamp) (take len (drop at (filter (plain.is_shown rev) cells.now)))) }
{
    cells
        .iter()
        .filter(|c| is_shown(c, rev))
        .skip(at as usize)
        .take(len as usize)
        .map(|c| c.stamp)
        .collect(alloc)
}

/// The author of each visible character.
pub fn shown_authors<'a>(
    alloc: Global,
    cells: &[PlainCell],
    authors: &'a [Author],
    rev: u64,
) -> Result<Vec<&'a Author>, AllocError>
    requires { AreKnown authors.now cells.now }
    ensures { IfOk result (λ shown_by. map (λ author. author.now) shown_by.items
        ≡ map (λ c. author_at authors.now c.author) (filter (plain.is_shown rev) cells.now)) }
{
    let mut shown = Vec::new(alloc);
    for cell in cells {
        if is_shown(cell, rev) {
            shown.push(&authors[cell.author])?;
        }
    }
    Ok(shown)
}

/// The greatest counter, or 0.
pub fn greatest_counter(cells: &[PlainCell]) -> u64
    ensures { result ≡ fold (λ most c. max most c.stamp.counter) 0 cells.now }
{
    cells.iter().fold(0, |most, c| most.max(c.stamp.counter()))
}

/// The greatest counter of a replica, or 0.
pub fn greatest_counter_of(cells: &[PlainCell], replica: u16) -> u64
    ensures { result ≡ fold (λ most c. if c.stamp.replica == replica then max most c.stamp.counter
        else most) 0 cells.now }
{
    cells.iter().fold(0, |most, c| {
        if c.stamp.replica() == replica {
            most.max(c.stamp.counter())
        } else {
            most
        }
    })
}
