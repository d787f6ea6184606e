//! The pad machine: one pad, for any sequence of characters. An event goes in, a reply and the next state come out.
#![tactic(auto)]

mod act;
mod admit;
mod append;
mod batch;
mod closing;
mod demand;
mod edit;
mod enter;
mod event;
mod exchange;
mod grants;
mod guest_acts;
mod judge;
pub mod laws;
mod ledger;
mod make;
mod marks;
mod note;
mod owned;
mod pad;
mod push;
mod reads;
mod recorded;
mod reply;
mod request;
mod restart;
mod visits;
mod writer;

pub use act::{Act, Change};
pub use admit::session_refusal;
pub use event::{Claim, PadEvent};
pub use exchange::{MAX_BATCH, MAX_BATCH_BYTES, MAX_PULL};
pub use owned::Owned;
pub use pad::Pad;
pub use reads::{MAX_ENTRIES, MAX_WAIT};
pub use recorded::{AuditError, Recorded, audit};
pub use reply::{Kind, Listed, LogEntry, PadReply, Person, Present, Pushed, Reply};
pub use request::{MAX_PEOPLE_ASKED, Request};
