//! The named revisions of a pad, such as revision 120 as "Approved on 9 December".
//!
//! It depends on `pad_model`. A name is never changed or taken away, only followed by another; whether a pad has the
//! revision, and who may name it, is decided above it.
#![tactic(auto)]

mod list;
mod named_revision;

pub use list::{MAX_NAMED_REVISIONS, MAX_REVISION_NAME, NamedRevisions};
pub use named_revision::NamedRevision;
