//! A number that several threads count in.
use std::sync::atomic::{AtomicU64, Ordering};

/// A number that several threads may change at the same time.
#[derive(Drop)]
pub struct Counter {
    number: AtomicU64,
}

impl Counter {
    /// It begins at zero.
    pub fn new() -> Counter {
        Counter {
            number: AtomicU64::new(0),
        }
    }

    /// Counts one more.
    pub fn add_one(&self) {
        self.add(1);
    }

    /// Adds `more`. It wraps after 2^64.
    pub fn add(&self, more: u64) {
        self.number.fetch_add(more, Ordering::SeqCst);
    }

    /// Subtracts `fewer`. It wraps below 0.
    pub fn take(&self, fewer: u64) {
        self.number.fetch_sub(fewer, Ordering::SeqCst);
    }

    /// Puts a number in the place of what was counted.
    pub fn set(&self, number: u64) {
        self.number.store(number, Ordering::SeqCst);
    }

    /// The number now.
    pub fn read(&self) -> u64 {
        self.number.load(Ordering::SeqCst)
    }
}
