//! Requests and replies as lines of JSON, and operations as JSON values.
//!
//! It depends on the types of `pad_model`, `comments`, `rights`, `named_revisions` and `sessions`, on the requests and
//! replies of `pad_core`, and on `serde_json`. It sees the bytes of one line: the crates above decide where a line
//! begins and ends, and who answers it.
#![tactic(auto)]

mod act_words;
mod constant_lines;
mod field;
mod guest_forms;
pub mod laws;
mod list;
mod number_lines;
mod op_read;
mod op_write;
mod pad_reply_lines;
mod peer_answer;
mod peer_request;
mod read_acts;
mod read_forms;
mod reply_lines;
mod request;
mod value_lines;
mod word;
mod write_forms;

pub use constant_lines::{memory_line, too_long_line};
pub use field::{name_field, number_field, str_field, text_field};
pub use op_read::read_op;
pub use op_write::op_value;
pub use peer_answer::{
    Told, read_peer_answer, read_pull_answer, read_push_answer, read_vector_answer,
};
pub use peer_request::{peer_line, pull_line, push_line, vector_line};
pub use reply_lines::reply_line;
pub use request::read_request;
pub use word::{granted_by, right_word};
pub use write_forms::{name_value, text_value};
