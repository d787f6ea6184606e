//! The progress of the notes of all pads.

/// The notes that are counted, and the cells of the round that is under way.
#[derive(Drop)]
pub struct RoundState {
    pub noted: u64,
    /// The number of first notes that are on the disk.
    pub kept: u64,
    /// The number of first notes that are on the disk once the round ends.
    pub upto: u64,
    /// The cells noted since the round began.
    pub due: Vec<u32>,
    /// The cells of the round that nobody has taken.
    pub left: Vec<u32>,
    /// The number of cells of the round that are not reported.
    pub unreported: u64,
    pub is_round: bool,
    /// Nothing is settled any more.
    pub has_failed: bool,
}
