//! A set of cells that several threads may change.
ghost use Rattle.std.specs.Prelude.{◌≤◌, ◌*◌, length, IfOk};

use std::alloc::{AllocError, Global};
use std::sync::atomic::{AtomicU64, Ordering};

/// A set of cells of a row. Threads may change it at the same time: a cell that one adds while another takes all is
/// either taken or stays.
#[derive(Drop)]
pub struct CellSet {
    /// A bit for each cell, 64 to a word.
    words: Vec<AtomicU64>,
}

impl CellSet {
    /// An empty set, for a row of this many cells.
    pub fn new(alloc: Global, cells: usize) -> Result<CellSet, AllocError>
        ensures { IfOk result (λ set. cells ≤ 64 * length set.words.items) }
    {
        let mut words = Vec::new(alloc);
        for _ in 0..cells.div_ceil(64) {
            words.push(AtomicU64::new(0))?;
        }
        Ok(CellSet { words })
    }

    /// Adds a cell. A cell outside the row is ignored.
    pub fn insert(&self, cell: u32) {
        if let Some(word) = self.word_of(cell) {
            word.fetch_or(bit_of(cell), Ordering::SeqCst);
        }
    }

    /// Returns true if the set has a cell.
    pub fn has(&self, cell: u32) -> bool {
        match self.word_of(cell) {
            Some(word) => word.load(Ordering::SeqCst) & bit_of(cell) != 0,
            None => false,
        }
    }

    /// Removes all cells.
    pub fn clear(&self) {
        for word in &self.words {
            word.store(0, Ordering::SeqCst);
        }
    }

    /// The cells, in ascending order.
    pub fn list(&self, alloc: Global) -> Result<Vec<u32>, AllocError> {
        let mut cells = Vec::new(alloc);
        let mut cell = 0u32;
        for word in &self.words {
            let mut left = word.load(Ordering::SeqCst);
            for _ in 0..u64::BITS {
                if left & 1 == 1 {
                    cells.push(cell)?;
                }
                left >>= 1;
                cell = cell.saturating_add(1);
            }
        }
        Ok(cells)
    }

    /// Returns true if the set is empty.
    pub fn is_empty(&self) -> bool {
        self.words
            .iter()
            .all(|word| word.load(Ordering::SeqCst) == 0)
    }

    /// Moves the cells of another set of the same row into this one.
    pub fn take_from(&self, other: &CellSet) {
        for (word, from) in self.words.iter().zip(&other.words) {
            word.fetch_or(from.swap(0, Ordering::SeqCst), Ordering::SeqCst);
        }
    }

    /// Adds the cells of another set of the same row.
    pub fn add_all(&self, other: &CellSet) {
        for (word, from) in self.words.iter().zip(&other.words) {
            word.fetch_or(from.load(Ordering::SeqCst), Ordering::SeqCst);
        }
    }

    /// Removes the cells of another set of the same row from this one, and empties the other one.
    pub fn forget(&self, other: &CellSet) {
        for (word, from) in self.words.iter().zip(&other.words) {
            let gone = from.swap(0, Ordering::SeqCst);
            word.fetch_and(!gone, Ordering::SeqCst);
        }
    }

    // The word with a cell's bit.
    fn word_of(&self, cell: u32) -> Option<&AtomicU64> {
        self.words.get(cell as usize / 64)
    }
}

// The bit of a cell in its word.
fn bit_of(cell: u32) -> u64 {
    1 << (cell % 64)
}
