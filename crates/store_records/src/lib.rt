//! The records of a pad, from which it is rebuilt after a restart.
//!
//! A request at a cell leaves records. Replayed in order, they lead from the restarted pad before the request to the
//! restarted pad after it. The crates above decide how records are written.
#![tactic(auto)]

mod again;
mod kept_record;
pub mod laws;
mod leaves;
mod step;

pub use again::{rebuild, replay};
pub use kept_record::Record;
pub use leaves::leaves_records;
pub use step::records_of;
