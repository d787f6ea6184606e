//! Authorship: the author of each visible character of a text, kept as runs in a balanced tree.
//!
//! `RunTree` knows authors by their places in its caller's table. `RunList` keeps a table of its own.
#![tactic(auto)]

mod delete;
mod find;
mod insert;
mod run_list;
mod run_tree;
mod stored_run;
mod table;

pub use run_list::RunList;
pub use run_tree::RunTree;
