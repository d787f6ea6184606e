//! Deaths of the blocks that spans name.
ghost use Rattle.std.specs.Prelude.{◌≡◌, ℕ, ◌+◌, ◌≤◌, ◌<◌, IsTrue, length, map, min, sum_by, vec_len, vec_capacity};
ghost use Rattle.std.specs.List.{AllByRecursion, list_all};
ghost use Rattle.pad_model.specs.Checked.{is_span};
ghost use Rattle.ident_index.specs.Index.{stamp_behind};
ghost use Rattle.blocks.specs.Blocks.{IsKept, IsEdge};
ghost use Rattle.block_seq.specs.RowAuthors.{Hides};
ghost use Rattle.block_seq.specs.RowSlides.{IsSlid, live_blocks, named_len};
ghost use Rattle.block_seq.specs.Rows.{IsCutOut, IsDated, killed, hidden_len, span_from};

use blocks::{Block, find_block, kill};
use ident_index::IdentIndex;
use pad_model::{Span, Stamp};
use text_history::Slide;
use weight_tree::WeightTree;

/// The number of stamps that a step along a span has passed, and the number of characters that died there.
#[derive(Clone, Copy, Debug)]
struct Passed {
    len: u64,
    hidden: u64,
}

/// Marks the death of the block that begins with a stamp, if it is alive, and keeps a slide of it in room that was made
/// before. It passes the stamps of that block, or this one stamp where no block holds it.
fn kill_from(
    tree: &mut WeightTree<Block>,
    index: &IdentIndex,
    slides: &mut Vec<Slide>,
    stamp: Stamp,
    rev: u64,
) -> Passed
    requires kept { IsKept index.now tree.old.items }
    requires begins { IsEdge index.now stamp }
    requires slid { IsSlid slides.old.items tree.old.items }
    requires dated { AllByRecursion (IsDated rev) tree.old.items }
    requires room { 0 < live_blocks tree.old.items → vec_len slides.old < vec_capacity slides.old }
    ensures kept { IsKept index.now tree.new.items }
    ensures slid { IsSlid slides.new.items tree.new.items }
    ensures authors { Hides slides.old.items slides.new.items tree.old.items tree.new.items }
    ensures dated { AllByRecursion (IsDated rev) tree.new.items }
    ensures spent { vec_len slides.new + live_blocks tree.new.items
        ≡ vec_len slides.old + live_blocks tree.old.items }
    ensures one { vec_len slides.new ≤ vec_len slides.old + 1 }
    ensures capacity { vec_capacity slides.new ≡ vec_capacity slides.old }
    ensures some { 0 < result.len }
    ensures items { tree.new.items ≡ map (killed rev (span_from stamp result.len)) tree.old.items }
    ensures hidden { result.hidden ≡ sum_by (hidden_len (span_from stamp result.len))
        tree.old.items }
    ensures ends { IsEdge index.now (stamp_behind stamp result.len) }
    ensures whole { (k : ℕ) → 0 < k → k < result.len → IsEdge index.now (stamp_behind stamp k) → ⊥ }
{
    let Some(spot) = find_block(tree, index, stamp) else {
        return Passed { len: 1, hidden: 0 };
    };
    let block = tree.get(spot.rank);
    let len = block.len;
    if block.died.is_some() {
        return Passed { len, hidden: 0 };
    }
    let at = tree.before(spot.rank);
    let slide = Slide::new(rev, at, block.first, len, false);
    slides.push_reserved(slide);
    kill(tree, index, spot.rank, rev);
    Passed { len, hidden: len }
}

/// Marks the death of each block of a span that is alive, and answers how many characters die.
fn kill_span(
    tree: &mut WeightTree<Block>,
    index: &IdentIndex,
    slides: &mut Vec<Slide>,
    span: &Span,
    rev: u64,
) -> u64
    requires kept { IsKept index.now tree.old.items }
    requires checked { IsTrue (is_span span.now) }
    requires cut { IsCutOut index.now span.now }
    requires slid { IsSlid slides.old.items tree.old.items }
    requires dated { AllByRecursion (IsDated rev) tree.old.items }
    requires room { vec_len slides.old + min (live_blocks tree.old.items) span.now.len
        ≤ vec_capacity slides.old }
    ensures kept { IsKept index.now tree.new.items }
    ensures slid { IsSlid slides.new.items tree.new.items }
    ensures authors { Hides slides.old.items slides.new.items tree.old.items tree.new.items }
    ensures dated { AllByRecursion (IsDated rev) tree.new.items }
    ensures spent { vec_len slides.new + live_blocks tree.new.items
        ≡ vec_len slides.old + live_blocks tree.old.items }
    ensures few { vec_len slides.new ≤ vec_len slides.old + span.now.len }
    ensures capacity { vec_capacity slides.new ≡ vec_capacity slides.old }
    ensures items { tree.new.items ≡ map (killed rev (span_from span.now.first span.now.len))
        tree.old.items }
    ensures hidden { result ≡ sum_by (hidden_len (span_from span.now.first span.now.len))
        tree.old.items }
{
    let mut hidden = 0;
    let mut done = 0;
    while done < span.len {
        let passed = kill_from(tree, index, slides, span.first.plus(done), rev);
        hidden += passed.hidden;
        done += passed.len;
    }
    hidden
}

/// Marks the death of each block that begins with a stamp of the spans and is alive, and answers how many characters die.
/// It looks at no other block. Each of them gets a slide, in room that was made before.
pub fn kill_named(
    tree: &mut WeightTree<Block>,
    index: &IdentIndex,
    slides: &mut Vec<Slide>,
    spans: &[Span],
    rev: u64,
) -> u64
    requires kept { IsKept index.now tree.old.items }
    requires checked { IsTrue (list_all is_span spans.now) }
    requires cut { AllByRecursion (IsCutOut index.now) spans.now }
    requires slid { IsSlid slides.old.items tree.old.items }
    requires dated { AllByRecursion (IsDated rev) tree.old.items }
    requires room { 0 < length spans.now
        → vec_len slides.old + min (live_blocks tree.old.items) (named_len spans.now)
        ≤ vec_capacity slides.old }
    ensures kept { IsKept index.now tree.new.items }
    ensures slid { IsSlid slides.new.items tree.new.items }
    ensures authors { Hides slides.old.items slides.new.items tree.old.items tree.new.items }
    ensures items { tree.new.items ≡ map (killed rev spans.now) tree.old.items }
    ensures hidden { result ≡ sum_by (hidden_len spans.now) tree.old.items }
{
    let mut hidden = 0;
    for span in spans {
        hidden += kill_span(tree, index, slides, span, rev);
    }
    hidden
}
