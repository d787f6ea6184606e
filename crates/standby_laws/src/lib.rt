//! Laws of a main server and its standby, over one pad's file: whatever arrives, is repeated or is lost, and whenever either
//! of them crashes.
//!
//! It has no code: each law is the contract of a function that does nothing. It depends on the definitions of `pad_core`,
//! `store_records`, `store_format` and `file_copies`, and puts their laws together.
#![tactic(auto)]

pub mod laws;
