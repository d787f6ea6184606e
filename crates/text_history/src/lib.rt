//! The changes to a text since a revision: where a character of an old revision is now, and how long the text was.
//!
//! A text keeps one slide for each run that it inserts and for each stretch that it hides, in the order in which these
//! happen. A reader of an old revision walks through the slides since then, not along the text.
#![tactic(auto)]

mod past;
mod slide;

pub use past::{Carried, carry, count_before, since};
pub use slide::Slide;
