//! Runs of characters, each with the place of its author in a table.
use weight_tree::Weigh;

/// Characters of one author, the one at this place of the table.
#[derive(Clone, Copy, Debug)]
pub struct StoredRun {
    pub author: usize,
    pub len: u64,
}

impl Weigh for StoredRun {
    ghost weight_of = { λ run. run.len };

    fn weight(&self) -> u64 {
        self.len
    }
}

/// The author for whom room was reserved, and for how many insertions.
#[derive(Clone, Copy, Debug)]
pub struct KeptSpare {
    pub author: usize,
    pub left: u64,
}

/// A place between characters: after `offset` characters of the run at `index`.
///
/// `offset` is below the run's length, and 0 if no run has this index.
#[derive(Clone, Copy, Debug)]
pub struct RunPlace {
    pub index: usize,
    pub offset: u64,
}
