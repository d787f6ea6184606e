//! Putting runs among the cells of the plain sequence, in room that was made before.
ghost use Rattle.std.specs.Prelude.{◌≡◌, ◌+◌, ◌≤◌, ◌++◌, IsTrue, length, vec_len, vec_capacity};
ghost use Rattle.pad_model.specs.Checked.{is_run};
ghost use Rattle.pad_model.proofs.Places.{place_in, spliced};
ghost use Rattle.block_seq.specs.Plain.{kept_character, kept_run};

use crate::place::{PlainCell, place_of};
use pad_model::Run;

/// Adds the cells of a run at the end.
fn push_run(cells: &mut Vec<PlainCell>, run: &Run, author: usize, rev: u64)
    requires checked { IsTrue (is_run run.now.first.replica run.now) }
    requires room { vec_len cells.old + length run.now.text ≤ vec_capacity cells.old }
    ensures items { cells.new.items ≡ cells.old.items
        ++ kept_run run.now.first run.now.after run.now.text author rev }
    ensures len { vec_len cells.new ≡ vec_len cells.old + length run.now.text }
    ensures room { vec_capacity cells.new ≡ vec_capacity cells.old }
{
    let text = run.text.as_slice();
    let mut parent = run.after;
    for (place, character) in text.iter().enumerate() {
        let stamp = run.first.plus(place as u64);
        cells.push_reserved(PlainCell {
            stamp,
            parent,
            character: *character,
            author,
            born: rev,
            died: None,
        });
        parent = Some(stamp);
    }
}

/// Puts the cells of a run at their place.
pub fn put_run(cells: &mut Vec<PlainCell>, run: &Run, author: usize, rev: u64)
    requires checked { IsTrue (is_run run.now.first.replica run.now) }
    requires room { vec_len cells.old + length run.now.text ≤ vec_capacity cells.old }
    ensures items { cells.new.items ≡ spliced
        (place_in kept_character run.now.after run.now.first cells.old.items)
        (kept_run run.now.first run.now.after run.now.text author rev) cells.old.items }
    ensures len { vec_len cells.new ≡ vec_len cells.old + length run.now.text }
    ensures room { vec_capacity cells.new ≡ vec_capacity cells.old }
{
    let place = place_of(cells.as_slice(), run.after, run.first);
    push_run(cells, run, author, rev);
    cells[place..].rotate_right(run.text.len());
}
