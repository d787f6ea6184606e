//! The authors of the visible characters, which follow the slides.
ghost use Rattle.std.specs.Prelude.{◌≡◌, ℕ, ◌*◌, ◌≤◌, List, drop, length};
ghost use Rattle.block_seq.specs.RowAuthors.{Goes, MayHide, MayShow, with_shown, without_hidden};

use authorship::RunTree;
use text_history::Slide;

/// Puts in what the slides from a place on show, all of it by one author. It takes no memory.
pub fn follow_shown(runs: &mut RunTree, slides: &[Slide], from: usize, author: usize)
    requires within { from ≤ length slides.now }
    requires goes { (new : List ℕ) × Goes (with_shown author) MayShow runs.old.places
        (drop from slides.now) new }
    requires room { 2 * length (drop from slides.now) ≤ runs.old.room }
    ensures { (new : List ℕ) → Goes (with_shown author) MayShow runs.old.places
        (drop from slides.now) new → runs.new.places ≡ new }
{
    for place in from..slides.len() {
        let slide = slides[place];
        runs.insert(slide.at(), author, slide.len());
    }
}

/// Takes out what the slides from a place on hide. It takes no memory.
pub fn follow_hidden(runs: &mut RunTree, slides: &[Slide], from: usize)
    requires within { from ≤ length slides.now }
    requires goes { (new : List ℕ) × Goes without_hidden MayHide runs.old.places
        (drop from slides.now) new }
    ensures { (new : List ℕ) → Goes without_hidden MayHide runs.old.places
        (drop from slides.now) new → runs.new.places ≡ new }
{
    for place in from..slides.len() {
        let slide = slides[place];
        runs.delete(slide.at(), slide.len());
    }
}
