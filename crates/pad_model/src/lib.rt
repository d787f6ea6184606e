//! The basic types of a pad: stamps, operations, version vectors, refusals, and the trait of a sequence of characters.
#![tactic(auto)]

mod check;
mod items;
pub mod laws;
mod limits;
mod name;
mod old_wire;
mod op;
mod piece;
mod refusal;
mod seen;
mod sequence;
mod stamp;
mod text;
pub mod vector_laws;
mod who;

pub use items::Items;
pub use limits::{
    MAX_CHARACTERS, MAX_COMMENT, MAX_COMMENTS, MAX_COUNTER, MAX_NAME, MAX_NUMBER, MAX_OPERATIONS,
    MAX_PARTS, MAX_REPLICA, MAX_TEXT, OLD_COUNTER, OLD_REPLICA,
};
pub use name::{Name, is_well_formed_name};
pub use old_wire::{op_in_v1, seen_in_v1};
pub use op::{Op, OpName, Part, Run, Span};
pub use piece::Piece;
pub use refusal::Refusal;
pub use seen::{Counted, Seen};
pub use sequence::{CellView, Sequence};
pub use stamp::Stamp;
pub use text::Text;
pub use who::{Author, AuthorRun, Version, Who};
