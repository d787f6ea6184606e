//! The insertions and deletions of one operation, made at once in the plain sequence.
ghost use Rattle.std.specs.Prelude.{◌≡◌, ◌+◌, ◌≤◌, IsTrue, fold, map, sum_by, count_by, vec_len, vec_capacity};
ghost use Rattle.std.specs.List.{IsDistinct, list_all};
ghost use Rattle.pad_model.specs.Checked.{is_span, part_size};
ghost use Rattle.pad_model.specs.Legal.{same_item};
ghost use Rattle.pad_model.specs.Parts.{part_fits, part_spans, spans_in};
ghost use Rattle.pad_model.specs.declared.limits.TheConstants.{MAX_TEXT};
ghost use Rattle.block_seq.specs.Plain.{kept_character, is_hidden_by, erased_at};
ghost use Rattle.block_seq.specs.KeptParts.{inserted_size, is_part_run, are_part_spans, with_kept_part};

use crate::erase::{count_hidden, erase, has_spans};
use crate::place::{PlainCell, may_join};
use crate::put::put_run;
use pad_model::Part;

/// Returns true if an insertion or a deletion fits the cells.
fn fits(cells: &[PlainCell], part: &Part) -> bool
    requires checked { IsTrue (are_part_spans part.now) }
    requires distinct { IsDistinct (same_item kept_character) cells.now }
    ensures { result ≡ part_fits kept_character cells.now part.now }
{
    match part {
        Part::Insert(run) => may_join(cells, run.first, run.after),
        Part::Delete(spans) => has_spans(cells, spans.as_slice()),
        Part::Comment { .. } | Part::Resolve { .. } => false,
    }
}

/// Returns true if each part fits the present cells.
pub fn each_fits(cells: &[PlainCell], parts: &[Part]) -> bool
    requires checked { IsTrue (list_all are_part_spans parts.now) }
    requires distinct { IsDistinct (same_item kept_character) cells.now }
    ensures { result ≡ list_all (part_fits kept_character cells.now) parts.now }
{
    for part in parts {
        if !fits(cells, part) {
            return false;
        }
    }
    true
}

/// Counts the characters that the parts insert. The parts are within the limits of one operation.
pub fn count_inserted(parts: &[Part]) -> usize
    requires { sum_by part_size parts.now ≤ MAX_TEXT }
    ensures value { result ≡ sum_by inserted_size parts.now }
    ensures within { result ≤ MAX_TEXT }
{
    let mut count = 0;
    for part in parts {
        if let Part::Insert(run) = part {
            count += run.text.len();
        }
    }
    count
}

/// Marks the cells that a deletion newly hides, and answers how many they are.
fn erase_part(cells: &mut [PlainCell], part: &Part, rev: u64) -> usize
    ensures value { result ≡ count_by (is_hidden_by (part_spans part.now)) cells.old }
    ensures cells { cells.new ≡ map (erased_at rev (part_spans part.now)) cells.old }
{
    match part {
        Part::Delete(spans) => {
            let hidden = count_hidden(cells, spans.as_slice());
            erase(cells, spans.as_slice(), rev);
            hidden
        }
        _ => 0,
    }
}

/// Marks the cells that the deletions newly hide, and answers how many they are.
pub fn erase_parts(cells: &mut [PlainCell], parts: &[Part], rev: u64) -> usize
    ensures value { result ≡ count_by (is_hidden_by (spans_in parts.now)) cells.old }
    ensures cells { cells.new ≡ map (erased_at rev (spans_in parts.now)) cells.old }
{
    let mut hidden = 0;
    for part in parts {
        hidden += erase_part(cells, part, rev);
    }
    hidden
}

/// Puts the runs of the insertions at their places, one after the other.
pub fn put_runs(cells: &mut Vec<PlainCell>, parts: &[Part], author: usize, rev: u64)
    requires checked { IsTrue (list_all is_part_run parts.now) }
    requires room { vec_len cells.old + sum_by inserted_size parts.now ≤ vec_capacity cells.old }
    ensures { cells.new.items ≡ fold (with_kept_part author rev) cells.old.items parts.now }
{
    for part in parts {
        if let Part::Insert(run) = part {
            put_run(cells, run, author, rev);
        }
    }
}
