//! Times in buckets.
ghost use Rattle.std.specs.Prelude.{◌≡◌};
ghost use Rattle.server_counts.specs.Times.{count_of, place_of};

use crate::counter::Counter;
use std::alloc::{AllocError, Global};

/// The upper bounds of the buckets in seconds. The last bucket has none.
const BOUNDS: [&'static str; 12] = [
    "0.0005", "0.001", "0.0025", "0.005", "0.01", "0.025", "0.05", "0.1", "0.25", "0.5", "1", "2.5",
];

/// The times of something that threads do, counted in buckets.
#[derive(Drop)]
pub struct Histogram {
    // One for each bound, and one for longer times.
    counts: Vec<Counter>,
    micros: Counter,
}

/// The number of times up to a bound.
#[derive(Clone, Copy)]
pub struct Bucket {
    /// The bound in seconds, as a text; `+Inf` where there is none.
    pub bound: &'static str,
    /// The number of times up to the bound.
    pub upto: u64,
}

/// The counts of a histogram when it was read.
#[derive(Drop)]
pub struct TimeCounts {
    /// With ascending bounds. Each bucket counts those before it too, so the last one counts all.
    pub buckets: Vec<Bucket>,
    /// The sum of the times in microseconds.
    pub micros: u64,
}

impl Histogram {
    /// Nothing is counted yet.
    pub fn new(alloc: Global) -> Result<Histogram, AllocError> {
        let mut counts = Vec::with_capacity(alloc, BOUNDS.len() + 1)?;
        for _ in 0..BOUNDS.len() + 1 {
            counts.push(Counter::new())?;
        }
        Ok(Histogram {
            counts,
            micros: Counter::new(),
        })
    }

    /// Counts one time, in microseconds.
    pub fn note(&self, micros: u64) {
        if let Some(count) = self.counts.get(place_of(micros)) {
            count.add_one();
        }
        self.micros.add(micros);
    }

    /// Reads the present counts. The buckets are read one after the other.
    pub fn read(&self, alloc: Global) -> Result<TimeCounts, AllocError> {
        let micros = self.micros.read();
        let mut buckets = Vec::with_capacity(alloc, self.counts.len())?;
        let mut upto = 0u64;
        for (place, count) in self.counts.iter().enumerate() {
            upto = upto.saturating_add(count.read());
            let bound = BOUNDS.get(place).copied().unwrap_or("+Inf");
            buckets.push(Bucket { bound, upto })?;
        }
        Ok(TimeCounts { buckets, micros })
    }
}

impl TimeCounts {
    /// Returns the number of times.
    pub fn count(&self) -> u64
        ensures { result ≡ count_of self.now.buckets.items }
    {
        match self.buckets.as_slice() {
            [.., last] => last.upto,
            [] => 0,
        }
    }
}

// The bucket of a time: the first one whose bound it does not exceed, or the last one.
fn place_of(micros: u64) -> usize
    ensures { result ≡ place_of micros }
{
    match micros {
        0..=500 => 0,
        501..=1_000 => 1,
        1_001..=2_500 => 2,
        2_501..=5_000 => 3,
        5_001..=10_000 => 4,
        10_001..=25_000 => 5,
        25_001..=50_000 => 6,
        50_001..=100_000 => 7,
        100_001..=250_000 => 8,
        250_001..=500_000 => 9,
        500_001..=1_000_000 => 10,
        1_000_001..=2_500_000 => 11,
        _ => 12,
    }
}
