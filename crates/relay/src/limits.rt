//! The limits of a round.

/// The most operations in a pull from a peer that does not know batches. Others send a batch (`MAX_BATCH`).
pub const MAX_OPS: u64 = 4;

/// The most turns in which operations of a pad are pulled. A turn that is followed by another delivered at least one
/// operation, and a pad has at most 200,000: an honest peer sends these in 50,000 turns, even four at a time.
pub const MAX_PULL_TURNS: u64 = 50_000;

/// The most turns in which operations of a pad are pushed: 782 batches of 256 make 200,000, and batches with long texts
/// hold fewer. So a lying peer gets at most 256,000 operations of a pad in a round, and what an honest one still lacks
/// is left to the next round.
pub const MAX_PUSH_TURNS: u64 = 1_000;
