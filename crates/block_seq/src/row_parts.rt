//! The parts of one operation: whether they fit the sequence of blocks, their spans and their runs.
ghost use Rattle.std.specs.Prelude.{◌≡◌, ℕ, ◌≤◌, List, IsTrue, length, map, sum_by, IfOk, OnOk, ◌++◌};
ghost use Rattle.std.specs.List.{AllByRecursion, list_all};
ghost use Rattle.pad_model.specs.Cell.{character_of};
ghost use Rattle.pad_model.specs.Parts.{part_fits, part_runs, part_spans, runs_in, spans_in};
ghost use Rattle.pad_model.specs.declared.limits.TheConstants.{MAX_CHARACTERS};
ghost use Rattle.pad_model.specs.declared.who.Author as author;
ghost use Rattle.blocks.specs.Blocks.{IsKept};
ghost use Rattle.blocks.specs.Cells.{cells_of, IsWithin};
ghost use Rattle.block_seq.specs.KeptParts.{are_part_spans};

use crate::row_erase::has_spans;
use crate::run_place::run_fits;
use blocks::Block;
use ident_index::IdentIndex;
use pad_model::{Part, Run, Span};
use std::alloc::{AllocError, Global};
use weight_tree::WeightTree;

/// Returns true if an insertion or a deletion fits.
fn one_fits(tree: &WeightTree<Block>, index: &IdentIndex, part: &Part) -> bool
    requires kept { IsKept index.now tree.now.items }
    requires checked { IsTrue (are_part_spans part.now) }
    ensures { (authors : List author.Author) (text : List ℕ)
        → AllByRecursion (IsWithin (length authors) (length text)) tree.now.items
        → result ≡ part_fits character_of (cells_of authors text tree.now.items) part.now }
{
    match part {
        Part::Insert(run) => run_fits(tree, index, run.first, run.after),
        Part::Delete(spans) => has_spans(tree, index, spans.as_slice()),
        Part::Comment { .. } | Part::Resolve { .. } => false,
    }
}

/// Returns true if each part fits.
pub fn parts_fit(tree: &WeightTree<Block>, index: &IdentIndex, parts: &[Part]) -> bool
    requires kept { IsKept index.now tree.now.items }
    requires checked { IsTrue (list_all are_part_spans parts.now) }
    ensures { (authors : List author.Author) (text : List ℕ)
        → AllByRecursion (IsWithin (length authors) (length text)) tree.now.items
        → result ≡ list_all (part_fits character_of (cells_of authors text tree.now.items))
        parts.now }
{
    for part in parts {
        if !one_fits(tree, index, part) {
            return false;
        }
    }
    true
}

/// Adds the spans that a part erases.
fn add_spans(all: &mut Vec<Span>, part: &Part) -> Result<(), AllocError>
    ensures { OnOk result (all.new.items ≡ all.old.items ++ part_spans part.now) }
{
    match part {
        Part::Delete(spans) => all.extend_from_slice(spans.as_slice()),
        _ => Ok(()),
    }
}

/// The spans that the parts erase.
pub fn list_spans(alloc: Global, parts: &[Part]) -> Result<Vec<Span>, AllocError>
    ensures { IfOk result (λ spans. spans.items ≡ spans_in parts.now) }
{
    let mut all = Vec::new(alloc);
    for part in parts {
        add_spans(&mut all, part)?;
    }
    Ok(all)
}

/// Adds the run that a part inserts.
fn add_inserted<'a>(all: &mut Vec<&'a Run>, part: &'a Part) -> Result<(), AllocError>
    ensures { OnOk result (map (λ run. run.now) all.new.items
        ≡ map (λ run. run.now) all.old.items ++ part_runs part.now) }
{
    if let Part::Insert(run) = part {
        all.push(run)?;
    }
    Ok(())
}

/// The runs that the parts insert, in turn.
pub fn list_runs<'a>(alloc: Global, parts: &'a [Part]) -> Result<Vec<&'a Run>, AllocError>
    ensures { IfOk result (λ runs. map (λ run. run.now) runs.items ≡ runs_in parts.now) }
{
    let mut all = Vec::new(alloc);
    for part in parts {
        add_inserted(&mut all, part)?;
    }
    Ok(all)
}

/// Counts the characters of the runs.
pub fn count_text(runs: &[&Run]) -> usize
    requires { sum_by (λ run. length run.now.text) runs.now ≤ MAX_CHARACTERS }
    ensures { result ≡ sum_by (λ run. length run.now.text) runs.now }
{
    let mut count = 0;
    for run in runs {
        count += run.text.len();
    }
    count
}
