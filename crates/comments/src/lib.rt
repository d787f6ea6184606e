//! The comments of a pad, each anchored to the stamps of its first and last character.
//!
//! It depends on `pad_model`, and asks a `Sequence` where those characters are. It keeps no text of the pad.
#![tactic(auto)]

mod book;
mod comment;
mod find;
mod show;

pub use book::CommentBook;
pub use comment::NewComment;
pub use show::{Range, Shown};
