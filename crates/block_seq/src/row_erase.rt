//! Erasing characters of the sequence of blocks by spans of stamps.
ghost use Rattle.std.specs.Prelude.{◌≡◌, ℕ, ◌+◌, ◌*◌, ◌≤◌, ◌<◌, List, Some, slice_get, slice_set, IsTrue, OnOk, IfErr, length, map, sum_by};
ghost use Rattle.std.specs.List.{AllByRecursion, list_all};
ghost use Rattle.pad_model.specs.Cell.{character_of};
ghost use Rattle.pad_model.specs.Checked.{is_span};
ghost use Rattle.pad_model.specs.Legal.{has_stamp};
ghost use Rattle.pad_model.specs.Log as log;
ghost use Rattle.pad_model.specs.Operation.{span_stamps};
ghost use Rattle.pad_model.specs.declared.who.Author as author;
ghost use Rattle.blocks.specs.Blocks.{IsKept, KeepsEdges};
ghost use Rattle.blocks.specs.Cells.{cells_of, IsWithin, SameCells};
ghost use Rattle.block_seq.specs.Rows.{IsCutOut, is_killed, killed, hidden_len};

use blocks::{Block, cut_at, find_block};
use ident_index::IdentIndex;
use pad_model::{Refusal, Span, Stamp};
use std::alloc::Global;
use weight_tree::WeightTree;

/// Returns true if each character of a span is present. It takes one step for each block.
fn has_span(tree: &WeightTree<Block>, index: &IdentIndex, span: &Span) -> bool
    requires kept { IsKept index.now tree.now.items }
    requires checked { IsTrue (is_span span.now) }
    ensures { (authors : List author.Author) (text : List ℕ)
        → AllByRecursion (IsWithin (length authors) (length text)) tree.now.items
        → result ≡ list_all (λ s. has_stamp character_of (cells_of authors text tree.now.items) s)
        (span_stamps span.now) }
{
    let mut done = 0;
    while done < span.len {
        let Some(spot) = find_block(tree, index, span.first.plus(done)) else {
            return false;
        };
        done += tree.get(spot.rank).len - spot.offset;
    }
    true
}

/// Returns true if each character of the spans is present.
pub fn has_spans(tree: &WeightTree<Block>, index: &IdentIndex, spans: &[Span]) -> bool
    requires kept { IsKept index.now tree.now.items }
    requires checked { IsTrue (list_all is_span spans.now) }
    ensures { (authors : List author.Author) (text : List ℕ)
        → AllByRecursion (IsWithin (length authors) (length text)) tree.now.items
        → result ≡ log.has_spans character_of (cells_of authors text tree.now.items) spans.now }
{
    for span in spans {
        if !has_span(tree, index, span) {
            return false;
        }
    }
    true
}

/// Cuts before a span and after it.
fn cut_span(
    alloc: Global,
    tree: &mut WeightTree<Block>,
    index: &mut IdentIndex,
    span: &Span,
) -> Result<(), Refusal>
    requires kept { IsKept index.old tree.old.items }
    requires checked { IsTrue (is_span span.now) }
    ensures kept { IsKept index.new tree.new.items }
    ensures cells { SameCells tree.old.items tree.new.items }
    ensures edges { KeepsEdges index.old index.new }
    ensures cut { OnOk result (IsCutOut index.new span.now) }
    ensures memory { IfErr result (λ e. e ≡ Refusal.Memory) }
    ensures more { length tree.new.items ≤ length tree.old.items + 2 }
{
    cut_at(alloc, tree, index, span.first)?;
    match Stamp::new(span.first.counter() + span.len, span.first.replica()) {
        Ok(end) => cut_at(alloc, tree, index, end),
        Err(_) => Ok(()),
    }
}

/// Cuts before each span and after it.
pub fn cut_spans(
    alloc: Global,
    tree: &mut WeightTree<Block>,
    index: &mut IdentIndex,
    spans: &[Span],
) -> Result<(), Refusal>
    requires kept { IsKept index.old tree.old.items }
    requires checked { IsTrue (list_all is_span spans.now) }
    ensures kept { IsKept index.new tree.new.items }
    ensures cells { SameCells tree.old.items tree.new.items }
    ensures cut { OnOk result (AllByRecursion (IsCutOut index.new) spans.now) }
    ensures memory { IfErr result (λ e. e ≡ Refusal.Memory) }
    ensures more { length tree.new.items ≤ length tree.old.items + 2 * length spans.now }
{
    for span in spans {
        cut_span(alloc, tree, index, span)?;
    }
    Ok(())
}
