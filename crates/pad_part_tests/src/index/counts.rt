//! The number of times that something occurred in a run.
use std::process::Abort;

/// Asserts that each count is at least `least`, and below `end`.
pub fn lie_within(rt: &impl Abort, what: &str, counts: &[u64], least: u64, end: u64) {
    for count in counts {
        assert!(rt;
            least <= *count && *count < end,
            "{what}: wanted each from {least} and below {end}, came {counts:?}"
        );
    }
}
