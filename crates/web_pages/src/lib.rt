//! The files of the page, with the texts of web/.
//!
//! It depends on `web_wire`, which serves them.
#![tactic(auto)]

mod pages;

pub use pages::all_pages;
