//! Putting characters into runs.
ghost use Rattle.std.specs.Prelude.{◌≡◌, ℕ, ◌+◌, ◌-◌, ◌^◌, ◌≤◌, ◌<◌, ◌∷◌, ◌++◌, length, take, drop, replicate, slice_set, false, IsTrue, IfSome, IfNone};
ghost use Rattle.std.specs.List.{insert};
ghost use Rattle.authorship.specs.StoredRuns.{characters, places, AreEmpty, IsProper};
ghost use Rattle.authorship.specs.Cut.{front, back, position, run_at, IsPlace, Touches, IsApart};

use crate::find::place_of;
use crate::stored_run::{RunPlace, StoredRun};
use weight_tree::{Node, WeightTree};

/// The run of an author that a place is in, or at either end of.
fn touching(runs: &WeightTree<StoredRun>, place: RunPlace, author: usize) -> Option<usize>
    requires { IsPlace runs.now.items place }
    ensures found { IfSome result (λ index. Touches runs.now.items place author index) }
    ensures none { IfNone result (IsApart runs.now.items place author) }
{
    let index = place.index;
    if index < runs.len() && runs.get(index).author == author {
        return Some(index);
    }
    if place.offset == 0 && index > 0 && runs.get(index - 1).author == author {
        return Some(index - 1);
    }
    None
}

/// Adds characters to the run at an index.
fn lengthen(runs: &mut WeightTree<StoredRun>, index: usize, len: u64)
    requires within { index < length runs.old.items }
    requires fits { characters runs.old.items + len < 2 ^ 64 }
    ensures items { let run = run_at runs.old.items index in runs.new.items
        ≡ slice_set runs.old.items index (record run { len = run.len + len }) }
{
    let run = *runs.get(index);
    runs.replace(
        index,
        StoredRun {
            len: run.len + len,
            ..run
        },
    );
}

/// Puts in a run, for which a node must be ready, so that it cannot fail.
fn put_run(
    runs: &mut WeightTree<StoredRun>,
    spare: &mut Vec<Node<StoredRun>>,
    index: usize,
    run: StoredRun,
)
    requires within { index ≤ length runs.old.items }
    requires fits { characters runs.old.items + run.len < 2 ^ 64 }
    requires few { length runs.old.items + 1 < 2 ^ 64 }
    requires room { 0 < length spare.old.items }
    requires empty { AreEmpty spare.old.items }
    ensures items { runs.new.items ≡ insert runs.old.items index run }
    ensures room { length spare.new.items + 1 ≡ length spare.old.items }
    ensures empty { AreEmpty spare.new.items }
{
    if let Some(node) = spare.pop() {
        runs.insert(index, node);
        runs.replace(index, run);
    }
}

/// Cuts a run in two, and puts another one between its parts.
fn put_inside(
    runs: &mut WeightTree<StoredRun>,
    spare: &mut Vec<Node<StoredRun>>,
    place: RunPlace,
    run: StoredRun,
)
    requires place { IsPlace runs.old.items place }
    requires cut { 0 < place.offset }
    requires fits { characters runs.old.items + run.len < 2 ^ 64 }
    requires few { length runs.old.items + 2 < 2 ^ 64 }
    requires room { 2 ≤ length spare.old.items }
    requires empty { AreEmpty spare.old.items }
    ensures items { runs.new.items ≡ front runs.old.items place ++ run ∷ back runs.old.items place }
    ensures room { length spare.new.items + 2 ≡ length spare.old.items }
    ensures empty { AreEmpty spare.new.items }
{
    let whole = *runs.get(place.index);
    let left = StoredRun {
        len: place.offset,
        ..whole
    };
    let right = StoredRun {
        len: whole.len - place.offset,
        ..whole
    };
    runs.replace(place.index, left);
    put_run(runs, spare, place.index + 1, right);
    put_run(runs, spare, place.index + 1, run);
}

/// Extends the run of the character before a place, if it is this author's; returns whether it is.
fn lengthen_before(runs: &mut WeightTree<StoredRun>, pos: u64, author: usize, len: u64) -> bool
    requires proper { IsProper runs.old.items }
    requires fits { characters runs.old.items + len < 2 ^ 64 }
    requires some { 0 < len }
    ensures places { IsTrue result → places runs.new.items
        ≡ take pos (places runs.old.items) ++ replicate len author
        ++ drop pos (places runs.old.items) }
    ensures proper { IsProper runs.new.items }
    ensures same { result ≡ false → runs.new.items ≡ runs.old.items }
{
    if pos == 0 {
        return false;
    }
    let Some(found) = runs.find(pos - 1) else {
        return false;
    };
    let run = *runs.get(found.rank);
    if run.author != author {
        return false;
    }
    runs.replace(
        found.rank,
        StoredRun {
            len: run.len + len,
            ..run
        },
    );
    true
}

/// Puts in characters of one author: in a run on either side, or as a run of their own.
fn put_beside(
    runs: &mut WeightTree<StoredRun>,
    spare: &mut Vec<Node<StoredRun>>,
    pos: u64,
    author: usize,
    len: u64,
)
    requires proper { IsProper runs.old.items }
    requires place { pos ≤ characters runs.old.items }
    requires some { 0 < len }
    requires fits { characters runs.old.items + len < 2 ^ 64 }
    requires room { 2 ≤ length spare.old.items }
    requires empty { AreEmpty spare.old.items }
    ensures places { places runs.new.items
        ≡ take pos (places runs.old.items) ++ replicate len author
        ++ drop pos (places runs.old.items) }
    ensures proper { IsProper runs.new.items }
    ensures room { length spare.old.items ≤ length spare.new.items + 2 }
    ensures empty { AreEmpty spare.new.items }
{
    let place = place_of(runs, pos);
    let run = StoredRun { author, len };
    if let Some(index) = touching(runs, place, author) {
        lengthen(runs, index, len);
    } else if place.offset == 0 {
        put_run(runs, spare, place.index, run);
    } else {
        put_inside(runs, spare, place, run);
    }
}

/// Puts in characters of one author. Two nodes must be ready. Most of the time, the characters extend a run.
pub fn put_in(
    runs: &mut WeightTree<StoredRun>,
    spare: &mut Vec<Node<StoredRun>>,
    pos: u64,
    author: usize,
    len: u64,
)
    requires proper { IsProper runs.old.items }
    requires place { pos ≤ characters runs.old.items }
    requires fits { characters runs.old.items + len < 2 ^ 64 }
    requires room { 2 ≤ length spare.old.items }
    requires empty { AreEmpty spare.old.items }
    ensures places { places runs.new.items
        ≡ take pos (places runs.old.items) ++ replicate len author
        ++ drop pos (places runs.old.items) }
    ensures proper { IsProper runs.new.items }
    ensures room { length spare.old.items ≤ length spare.new.items + 2 }
    ensures empty { AreEmpty spare.new.items }
{
    if len == 0 || lengthen_before(runs, pos, author, len) {
        return;
    }
    put_beside(runs, spare, pos, author, len);
}
