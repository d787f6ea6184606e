//! Counting in the plain sequence.
ghost use Rattle.std.specs.Prelude.{◌≡◌, ℕ, ◌+◌, ◌≤◌, ◌<◌, length, map, filter, take, drop, IfOk};
ghost use Rattle.pad_model.specs.Log as log;
ghost use Rattle.pad_model.specs.Visible.{shown_before, shown_through};
ghost use Rattle.block_seq.specs.Plain.{kept_character};
ghost use Rattle.block_seq.specs.Plain as plain;

use crate::place::PlainCell;
use crate::readers::is_shown;
use pad_model::Stamp;

/// Counts the cells visible at a revision before a stamp; all of them if it is missing.
pub fn count_before(cells: &[PlainCell], rev: u64, stamp: Stamp) -> u64
    ensures { result ≡ shown_before kept_character (plain.is_shown rev) cells.now stamp }
{
    let mut count = 0;
    for cell in cells {
        if cell.stamp.is_same(stamp) {
            return count;
        }
        if is_shown(cell, rev) {
            count += 1;
        }
    }
    count
}

/// Counts the cells visible at a revision up to and including a stamp; all of them if it is missing.
pub fn count_through(cells: &[PlainCell], rev: u64, stamp: Stamp) -> u64
    ensures { result ≡ shown_through kept_character (plain.is_shown rev) cells.now stamp }
{
    let mut count = 0;
    for cell in cells {
        if is_shown(cell, rev) {
            count += 1;
        }
        if cell.stamp.is_same(stamp) {
            return count;
        }
    }
    count
}

/// Returns true if `first` is `last` or stands before it. Both are present.
pub fn stands_before(cells: &[PlainCell], first: Stamp, last: Stamp) -> bool
    ensures { result ≡ log.stands_before kept_character cells.now first last }
{
    let mut passed = false;
    for cell in cells {
        passed = passed || cell.stamp.is_same(first);
        if passed && cell.stamp.is_same(last) {
            return true;
        }
    }
    false
}
