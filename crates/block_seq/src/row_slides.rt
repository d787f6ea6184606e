//! Slides of a row of blocks: how many may come, and the one of a run.
ghost use Rattle.std.specs.Prelude.{◌≡◌, ◌+◌, ◌≤◌, ◌<◌, ◌++◌, ◌∷◌, [], length, min, vec_len, vec_capacity};
ghost use Rattle.pad_model.specs.declared.limits.TheConstants.{MAX_CHARACTERS};
ghost use Rattle.block_seq.specs.RowSlides.{live_blocks, named_len, slide_of};

use blocks::Block;
use pad_model::{Run, Span};
use text_history::Slide;
use weight_tree::WeightTree;

/// Returns the number of stamps that the spans name together, at most `u64::MAX`.
fn total_len(spans: &[Span]) -> u64
    ensures { result ≡ min (named_len spans.now) u64.MAX }
{
    let mut total: u64 = 0;
    for span in spans {
        total = total.saturating_add(span.len);
    }
    total
}

/// Returns the most slides that a deletion by these spans adds: one for each stamp, and no more than there are blocks.
pub fn count_kills(tree: &WeightTree<Block>, spans: &[Span]) -> usize
    ensures enough { min (live_blocks tree.now.items) (named_len spans.now) ≤ result }
    ensures few { result ≤ length tree.now.items }
{
    tree.len().min(total_len(spans) as usize)
}

/// Keeps the slide of a run, in room that was made before. The run stands after `at` visible characters.
pub fn push_shown(slides: &mut Vec<Slide>, rev: u64, at: u64, run: &Run)
    requires room { vec_len slides.old < vec_capacity slides.old }
    requires small { at + length run.now.text ≤ MAX_CHARACTERS }
    ensures items { slides.new.items ≡ slides.old.items ++ slide_of rev at run.now ∷ [] }
    ensures len { vec_len slides.new ≡ vec_len slides.old + 1 }
    ensures capacity { vec_capacity slides.new ≡ vec_capacity slides.old }
{
    let slide = Slide::new(rev, at, run.first, run.text.len() as u64, true);
    slides.push_reserved(slide);
}
