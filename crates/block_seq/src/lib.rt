//! Sequences of characters. `PlainSeq` is the plain one: a vector of cells, walked from its start. `BlockSeq` keeps
//! characters that were typed at once as one block, in a balanced tree with an index.
#![tactic(auto)]

mod authors;
mod erase;
mod measure;
mod parts;
mod pieces;
mod place;
mod plain;
mod put;
mod readers;
mod row_authors;
mod row_erase;
mod row_kills;
mod row_lists;
mod row_parts;
mod row_past;
mod row_pieces;
mod row_readers;
mod row_slides;
mod row_text;
mod row_view;
mod rows;
mod run_place;
mod run_put;
mod stretches;

pub use place::PlainCell;
pub use plain::PlainSeq;
pub use row_view::KeptRow;
pub use rows::BlockSeq;
