//! The counts of a running server, and their report to operators: the text of `/metrics` and `/kept`, and the requests
//! and responses of the address that serves them.
//!
//! It depends only on std. Threads count in atomics; a report takes a snapshot of them first.
#![tactic(auto)]

mod client_counts;
mod counter;
mod family;
mod histogram;
mod kept;
mod metrics;
mod refusals;
mod request;
mod responses;
mod samples;

pub use client_counts::ClientCounts;
pub use counter::Counter;
pub use histogram::{Bucket, Histogram, TimeCounts};
pub use kept::{KeptStandby, kept_text};
pub use metrics::{Build, ClientNumbers, Numbers, StandbyNumbers, StoreNumbers, metrics_text};
pub use refusals::{CodeCount, RefusalCounts, code_of_reply};
pub use request::{StatusPage, StatusRequest, asked_by, first_line, has_whole_head};
pub use responses::{Status, response};
