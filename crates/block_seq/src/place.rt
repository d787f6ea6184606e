//! The cells of the plain sequence, as a slice: tests, and RGA's scan for the place of a run.
ghost use Rattle.std.specs.Prelude.{◌≡◌, ℕ, ◌+◌, ◌≤◌, ◌^◌, ◌<◌, Bool, ◌||◌, ◌&&◌, ◌==◌, not, nat_lt, List, [], ◌++◌, IsTrue, IfOk, OnOk, OnErr, length, take, drop, vec_len};
ghost use Rattle.std.specs.List.{list_all, position_or_len};
ghost use Rattle.pad_model.specs.Legal.{has_stamp, has_parent, counter_of};
ghost use Rattle.pad_model.specs.Log.{run_may_join};
ghost use Rattle.pad_model.specs.Stamp.{same_stamp};
ghost use Rattle.pad_model.proofs.Places.{passed, place_in, up_to};
ghost use Rattle.block_seq.specs.Plain.{kept_character};

use pad_model::Stamp;

/// A cell whose author is a place in the sequence's list of authors.
#[derive(Clone, Copy, Debug)]
pub struct PlainCell {
    pub stamp: Stamp,
    pub parent: Option<Stamp>,
    pub character: char,
    pub author: usize,
    pub born: u64,
    pub died: Option<u64>,
}

/// Returns true if a character is among the cells.
pub fn has(cells: &[PlainCell], stamp: Stamp) -> bool
    ensures { result ≡ has_stamp kept_character cells.now stamp }
{
    cells.iter().any(|c| c.stamp.is_same(stamp))
}

/// Returns true if the parent is present, or the root, and has a smaller counter.
fn hangs_below(cells: &[PlainCell], parent: Option<Stamp>, counter: u64) -> bool
    ensures { result ≡ (has_parent kept_character cells.now parent
        && nat_lt (counter_of parent) counter) }
{
    match parent {
        None => counter > 0,
        Some(stamp) => has(cells, stamp) && stamp.counter() < counter,
    }
}

/// Returns true if all characters of the stamp's replica have smaller counters.
fn is_above(cells: &[PlainCell], first: Stamp) -> bool
    ensures { result ≡ list_all (λ c. not (c.stamp.replica == first.replica)
        || nat_lt c.stamp.counter first.counter) cells.now }
{
    let counter = first.counter();
    let replica = first.replica();
    cells.iter().all(|c| c.stamp.replica() != replica || c.stamp.counter() < counter)
}

/// Returns true if a run's first character fits: its parent is present, and it is newer than its parent and its
/// replica's others.
pub fn may_join(cells: &[PlainCell], first: Stamp, parent: Option<Stamp>) -> bool
    ensures { result ≡ run_may_join kept_character cells.now first parent }
{
    hangs_below(cells, parent, first.counter()) && is_above(cells, first)
}

/// Counts the cells before a character; all of them if it is missing.
fn count_before(cells: &[PlainCell], stamp: Stamp) -> usize
    ensures { result ≡ position_or_len (λ c. same_stamp c.stamp stamp) cells.now }
{
    cells.iter().take_while(|c| !c.stamp.is_same(stamp)).count()
}

/// Counts the cells up to and including a character; all of them if it is missing.
fn count_up_to(cells: &[PlainCell], stamp: Stamp) -> usize
    ensures value { result ≡ up_to kept_character stamp cells.now }
    ensures within { result ≤ length cells.now }
{
    let before = count_before(cells, stamp);
    if before < cells.len() {
        before + 1
    } else {
        cells.len()
    }
}

/// Counts the newer cells at the front.
fn count_newer(cells: &[PlainCell], first: Stamp) -> usize
    ensures value { result ≡ passed kept_character first cells.now }
    ensures within { result ≤ length cells.now }
{
    cells.iter().take_while(|c| c.stamp.is_newer(first)).count()
}

/// Finds the place of a run (RGA): after its parent, past each newer character.
///
/// The scan stops before the first character that is older than the run's. The characters that it passes hang below
/// newer siblings of the run, so it ends where the parent's older children begin, or the parent's subtree ends.
pub fn place_of(cells: &[PlainCell], parent: Option<Stamp>, first: Stamp) -> usize
    ensures value { result ≡ place_in kept_character parent first cells.now }
    ensures within { result ≤ length cells.now }
{
    let start = match parent {
        None => 0,
        Some(stamp) => count_up_to(cells, stamp),
    };
    start + count_newer(&cells[start..], first)
}
