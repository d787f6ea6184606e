//! Taking characters out of runs.
ghost use Rattle.std.specs.Prelude.{◌≡◌, ◌^◌, ◌+◌, ◌-◌, ◌≤◌, ◌<◌, ◌++◌, length, take, drop, slice_set};
ghost use Rattle.authorship.specs.StoredRuns.{characters, places, IsProper};
ghost use Rattle.authorship.specs.Cut.{front, back, position, run_at, joined, IsPlace};

use crate::find::place_of;
use crate::stored_run::{RunPlace, StoredRun};
use weight_tree::WeightTree;

/// Shortens the run at an index, or leaves its length as it is.
fn shorten(runs: &mut WeightTree<StoredRun>, index: usize, len: u64)
    requires within { index < length runs.old.items }
    requires shorter { len ≤ (run_at runs.old.items index).len }
    requires fits { characters runs.old.items < 2 ^ 64 }
    ensures items { runs.new.items ≡ slice_set runs.old.items index
        (record (run_at runs.old.items index) { len = len }) }
{
    let run = *runs.get(index);
    runs.replace(index, StoredRun { len, ..run });
}

/// Takes characters out of the run at an index.
fn cut_out(runs: &mut WeightTree<StoredRun>, index: usize, len: u64)
    requires within { index < length runs.old.items }
    requires enough { len ≤ (run_at runs.old.items index).len }
    requires fits { characters runs.old.items < 2 ^ 64 }
    ensures items { let run = run_at runs.old.items index in runs.new.items
        ≡ slice_set runs.old.items index (record run { len = run.len - len }) }
{
    let run = *runs.get(index);
    runs.replace(
        index,
        StoredRun {
            len: run.len - len,
            ..run
        },
    );
}

/// Takes out the runs from one index to before another.
fn remove_runs(runs: &mut WeightTree<StoredRun>, from: usize, to: usize)
    requires order { from ≤ to }
    requires within { to ≤ length runs.old.items }
    ensures items { runs.new.items ≡ take from runs.old.items ++ drop to runs.old.items }
{
    let mut left = to;
    while from < left {
        left -= 1;
        runs.remove(left);
    }
}

/// Takes out what is between two places in two runs. The runs next to the gap may be of one author.
fn take_between(runs: &mut WeightTree<StoredRun>, first: RunPlace, last: RunPlace) -> usize
    requires first { IsPlace runs.old.items first }
    requires last { IsPlace runs.old.items last }
    requires order { first.index < last.index }
    requires fits { characters runs.old.items < 2 ^ 64 }
    ensures items { runs.new.items ≡ front runs.old.items first ++ back runs.old.items last }
    ensures seam { result ≡ length (front runs.old.items first) }
{
    if last.offset > 0 {
        cut_out(runs, last.index, last.offset);
    }
    let mut from = first.index;
    if first.offset > 0 {
        shorten(runs, from, first.offset);
        from += 1;
    }
    remove_runs(runs, from, last.index);
    from
}

/// Makes one run of the two next to a seam.
fn merge(runs: &mut WeightTree<StoredRun>, seam: usize)
    requires between { 0 < seam }
    requires within { seam < length runs.old.items }
    requires fits { characters runs.old.items < 2 ^ 64 }
    ensures items { runs.new.items ≡ joined runs.old.items (seam - 1) }
{
    let right = runs.remove(seam);
    let run = *runs.get(seam - 1);
    runs.replace(
        seam - 1,
        StoredRun {
            len: run.len + right.len,
            ..run
        },
    );
}

/// Makes one run of the two next to a seam if they are of one author.
fn join(runs: &mut WeightTree<StoredRun>, seam: usize)
    requires before { IsProper (take seam runs.old.items) }
    requires behind { IsProper (drop seam runs.old.items) }
    requires fits { characters runs.old.items < 2 ^ 64 }
    ensures places { places runs.new.items ≡ places runs.old.items }
    ensures proper { IsProper runs.new.items }
{
    if 0 < seam && seam < runs.len() && runs.get(seam - 1).author == runs.get(seam).author {
        merge(runs, seam);
    }
}

/// Takes characters out. It takes no memory.
pub fn take_out(runs: &mut WeightTree<StoredRun>, pos: u64, len: u64)
    requires proper { IsProper runs.old.items }
    requires stretch { pos + len ≤ characters runs.old.items }
    requires fits { characters runs.old.items < 2 ^ 64 }
    ensures places { places runs.new.items
        ≡ take pos (places runs.old.items) ++ drop (pos + len) (places runs.old.items) }
    ensures proper { IsProper runs.new.items }
{
    if len == 0 {
        return;
    }
    let first = place_of(runs, pos);
    let last = place_of(runs, pos + len);
    if first.index == last.index {
        cut_out(runs, first.index, len);
    } else {
        let seam = take_between(runs, first, last);
        join(runs, seam);
    }
}
