//! Runs put among blocks, one after the other: all of them, or none.
ghost use Rattle.std.specs.Prelude.{◌≡◌, ℕ, ◌+◌, ◌-◌, ◌≤◌, ◌<◌, ◌++◌, List, IsTrue, IfOk, IfErr, OnOk, OnErr, true, length, map, max, sum_by, take, vec_len, vec_capacity};
ghost use Rattle.std.specs.List.{AllByRecursion, list_all, remove};
ghost use Rattle.pad_model.specs.Cell.{character_of, with_run};
ghost use Rattle.pad_model.specs.Checked.{is_run, is_span};
ghost use Rattle.pad_model.specs.Log.{run_may_join};
ghost use Rattle.pad_model.specs.Log as log;
ghost use Rattle.pad_model.specs.Parts.{with_all};
ghost use Rattle.pad_model.specs.Stamp as stamp;
ghost use Rattle.pad_model.specs.declared.limits.TheConstants.{MAX_CHARACTERS};
ghost use Rattle.pad_model.specs.declared.op.Span as span;
ghost use Rattle.ident_index.specs.Index.{Covers};
ghost use Rattle.blocks.specs.Blocks.{IsEdge, IsKept, without_labels};
ghost use Rattle.blocks.specs.Cells.{author_at, cells_of};
ghost use Rattle.block_seq.specs.RowParts.{AreRanks, IsCutBehind, MayPut, without_ranks};
ghost use Rattle.block_seq.specs.RowAuthors.{Shows};
ghost use Rattle.block_seq.specs.Rows.{IsCutOut};
ghost use Rattle.block_seq.specs.RowSlides.{IsSlidRow, live_blocks};

use crate::row_slides::push_shown;
use crate::row_text::push_text;
use crate::run_place::find_place;
use blocks::{Block, put_block, take_block};
use ident_index::IdentIndex;
use pad_model::{Author, Refusal, Run};
use text_history::Slide;
use weight_tree::WeightTree;

/// The values that the runs of one operation have in common.
#[derive(Clone, Copy)]
pub struct Batch<'a> {
    pub authors: &'a [Author],
    /// The place of the runs' author among the authors.
    pub author: usize,
    pub rev: u64,
    /// The greatest counter so far.
    pub clock: u64,
}

/// Puts a run at its place, in room that was made before, and returns its rank. The blocks are cut after its parent.
fn put_run(
    tree: &mut WeightTree<Block>,
    index: &mut IdentIndex,
    text: &mut Vec<char>,
    slides: &mut Vec<Slide>,
    run: &Run,
    batch: &Batch,
) -> Result<usize, Refusal>
    requires row { IsSlidRow batch.now.rev batch.now.clock batch.now.authors.now text.old.items
        slides.old.items index.old tree.old.items }
    requires author { batch.now.author < length batch.now.authors.now }
    requires run { IsTrue (is_run (author_at batch.now.authors.now batch.now.author).origin
        run.now) }
    requires fits { IsTrue (run_may_join character_of
        (cells_of batch.now.authors.now text.old.items tree.old.items) run.now.first
        run.now.after) }
    requires cut { IsCutBehind index.old run.now.after }
    requires room { length (cells_of batch.now.authors.now text.old.items tree.old.items)
        + length run.now.text ≤ MAX_CHARACTERS }
    requires text { vec_len text.old + length run.now.text ≤ vec_capacity text.old }
    requires slides { vec_len slides.old < vec_capacity slides.old }
    ensures row { OnOk result (IsSlidRow batch.now.rev
        (max batch.now.clock (run.now.first.counter + (length run.now.text - 1)))
        batch.now.authors.now text.new.items slides.new.items index.new tree.new.items) }
    ensures cells { OnOk result (cells_of batch.now.authors.now text.new.items tree.new.items
        ≡ with_run batch.now.rev run.now (author_at batch.now.authors.now batch.now.author)
        (cells_of batch.now.authors.now text.old.items tree.old.items)) }
    ensures edges { OnOk result ((s : stamp.Stamp) → IsEdge index.old s
        → (Covers run.now.first (length run.now.text) s → run.now.first ≡ s) → IsEdge index.new s) }
    ensures within { IfOk result (λ rank. rank < length (without_labels tree.new.items)) }
    ensures block { IfOk result (λ rank. remove (without_labels tree.new.items) rank
        ≡ without_labels tree.old.items) }
    ensures text { OnOk result (text.new.items ≡ text.old.items ++ run.now.text) }
    ensures text_capacity { vec_capacity text.new ≡ vec_capacity text.old }
    ensures slide { OnOk result (take (length slides.old.items) slides.new.items
        ≡ slides.old.items) }
    ensures one_slide { OnOk result (vec_len slides.new ≡ vec_len slides.old + 1) }
    ensures slides_capacity { vec_capacity slides.new ≡ vec_capacity slides.old }
    ensures live { OnOk result (live_blocks tree.new.items ≤ live_blocks tree.old.items + 1) }
    ensures authors { OnOk result (Shows batch.now.author slides.old.items slides.new.items
        tree.old.items tree.new.items) }
    ensures kept { IsKept index.new tree.new.items }
    ensures same_blocks { OnErr result
        (without_labels tree.new.items ≡ without_labels tree.old.items) }
    ensures same_text { OnErr result (text.new.items ≡ text.old.items) }
    ensures same_slides { OnErr result (slides.new.items ≡ slides.old.items) }
    ensures memory { IfErr result (λ e. e ≡ Refusal.Memory) }
{
    let rank = find_place(tree, index, run.first, run.after);
    let at = tree.before(rank);
    let start = text.len();
    let block = Block {
        first: run.first,
        parent: run.after,
        author: batch.author,
        born: batch.rev,
        died: None,
        label: 0,
        start,
        len: run.text.len() as u64,
    };
    put_block(*text.allocator(), tree, index, rank, block)?;
    push_text(text, run.text.as_slice());
    push_shown(slides, batch.rev, at, run);
    Ok(rank)
}

/// Takes out the blocks at some ranks, the last rank first. It takes no memory.
fn take_blocks(tree: &mut WeightTree<Block>, index: &mut IdentIndex, ranks: &[usize])
    requires kept { IsKept index.old tree.old.items }
    requires ranks { AreRanks (without_labels tree.old.items) ranks.now }
    ensures kept { IsKept index.new tree.new.items }
    ensures taken { without_labels tree.new.items
        ≡ without_ranks (without_labels tree.old.items) ranks.now }
{
    let mut left = ranks.len();
    while 0 < left {
        left -= 1;
        take_block(tree, index, ranks[left]);
    }
}

/// Puts runs at their places, in room that was made before, and answers the greatest counter. Where memory is refused, it
/// takes out again those that were put.
pub fn put_runs(
    tree: &mut WeightTree<Block>,
    index: &mut IdentIndex,
    text: &mut Vec<char>,
    slides: &mut Vec<Slide>,
    runs: &[&Run],
    batch: &Batch,
) -> Result<u64, Refusal>
    requires row { IsSlidRow batch.now.rev batch.now.clock batch.now.authors.now text.old.items
        slides.old.items index.old tree.old.items }
    requires author { batch.now.author < length batch.now.authors.now }
    requires runs { MayPut batch.now.rev (author_at batch.now.authors.now batch.now.author)
        (cells_of batch.now.authors.now text.old.items tree.old.items) index.old
        (map (λ run. run.now) runs.now) }
    requires text { vec_len text.old + sum_by (λ run. length run.now.text) runs.now
        ≤ vec_capacity text.old }
    requires slides { vec_len slides.old + length runs.now ≤ vec_capacity slides.old }
    ensures row { IfOk result (λ clock. IsSlidRow batch.now.rev clock batch.now.authors.now
        text.new.items slides.new.items index.new tree.new.items) }
    ensures cells { OnOk result (cells_of batch.now.authors.now text.new.items tree.new.items
        ≡ with_all batch.now.rev (author_at batch.now.authors.now batch.now.author)
        (cells_of batch.now.authors.now text.old.items tree.old.items)
        (map (λ run. run.now) runs.now)) }
    ensures cut { (spans : List span.Span)
        → log.has_spans character_of (cells_of batch.now.authors.now text.old.items tree.old.items)
        spans ≡ true → list_all is_span spans ≡ true → AllByRecursion (IsCutOut index.old) spans
        → OnOk result (AllByRecursion (IsCutOut index.new) spans) }
    ensures slides { OnOk result (vec_len slides.new ≡ vec_len slides.old + length runs.now) }
    ensures capacity { vec_capacity slides.new ≡ vec_capacity slides.old }
    ensures live { OnOk result (live_blocks tree.new.items
        ≤ live_blocks tree.old.items + length runs.now) }
    ensures authors { OnOk result (Shows batch.now.author slides.old.items slides.new.items
        tree.old.items tree.new.items) }
    ensures more { length tree.new.items ≤ length tree.old.items + length runs.now }
    ensures kept { IsKept index.new tree.new.items }
    ensures same_blocks { OnErr result
        (without_labels tree.new.items ≡ without_labels tree.old.items) }
    ensures same_text { OnErr result (text.new.items ≡ text.old.items) }
    ensures same_slides { OnErr result (slides.new.items ≡ slides.old.items) }
    ensures memory { IfErr result (λ e. e ≡ Refusal.Memory) }
{
    let (start, known) = (text.len(), slides.len());
    let mut ranks = Vec::new(*text.allocator());
    ranks.reserve(runs.len())?;
    let mut clock = batch.clock;
    for run in runs {
        let next = Batch { clock, ..*batch };
        match put_run(tree, index, text, slides, run, &next) {
            Ok(rank) => ranks.push_reserved(rank),
            Err(refusal) => {
                take_blocks(tree, index, ranks.as_slice());
                text.truncate(start);
                slides.truncate(known);
                return Err(refusal);
            }
        }
        clock = clock.max(run.first.counter() + (run.text.len() as u64 - 1));
    }
    Ok(clock)
}
