//! Carries places of an old revision to the present.
ghost use Rattle.std.specs.Prelude.{◌≡◌, ℕ, ◌<◌, List, length, nat_le};
ghost use Rattle.pad_model.specs.Stamp as stamp;
ghost use Rattle.text_history.specs.Slides.{IsCarried, IsSorted, LeadTo, Leads};
ghost use Rattle.text_history.specs.Slides as slides_spec;

use crate::slide::Slide;
use pad_model::Stamp;

/// The present state of a character that was visible in an old revision.
#[derive(Clone, Copy, Debug)]
pub enum Carried {
    /// It is visible, with this many characters before it.
    At(u64),
    /// It is hidden, and has this stamp.
    Hidden(Stamp),
}

/// Returns the slides after a revision, found by bisection.
pub fn since(slides: &[Slide], rev: u64) -> &[Slide]
    requires { IsSorted 0 slides.now }
    ensures { result.now ≡ slides_spec.since rev slides.now }
{
    let seen = slides.partition_point(
        |slide: &Slide| -> bool
            ensures { result ≡ nat_le slide.now.rev rev }
        { slide.rev() <= rev },
    );
    &slides[seen..]
}

/// Returns the number of visible characters before the slides, given that `many` are visible after them.
pub fn count_before(slides: &[Slide], many: u64) -> u64
    requires { LeadTo slides.now many }
    ensures { (old new : List stamp.Stamp) → Leads slides.now old new → length new ≡ many
        → result ≡ length old }
{
    let mut count = many;
    for i in (0..slides.len()).rev() {
        let slide = slides[i];
        let len = slide.len();
        if slide.shows() {
            count -= len;
        } else {
            count += len;
        }
    }
    count
}

/// Returns where the slides carried the visible character at `place`, counted from 0.
pub fn carry(slides: &[Slide], place: u64) -> Carried
    requires { (old new : List stamp.Stamp) × Leads slides.now old new × (place < length old) }
    ensures { (old new : List stamp.Stamp) → Leads slides.now old new
        → IsCarried result old place new }
{
    let mut at = place;
    for slide in slides {
        let (start, len) = (slide.at(), slide.len());
        if at < start {
            continue;
        }
        if slide.shows() {
            at += len;
        } else if at < start + len {
            return Carried::Hidden(slide.first().plus(at - start));
        } else {
            at -= len;
        }
    }
    Carried::At(at)
}
