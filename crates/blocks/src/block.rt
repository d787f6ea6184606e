//! A stretch of characters that were typed at once.
ghost use Rattle.blocks.specs.Blocks.{weight_of};

use pad_model::Stamp;
use weight_tree::Weigh;

/// A bound that is above every label.
pub const LAST_LABEL: u64 = 18_446_744_073_709_551_615;

/// Characters with consecutive stamps, and with the same author, birth and death.
#[derive(Clone, Copy, Debug)]
pub struct Block {
    pub first: Stamp,
    /// The parent of the first character; the parent of each other one is the character before it.
    pub parent: Option<Stamp>,
    /// The index of the author in the sequence's list.
    pub author: usize,
    /// The revision that inserted it.
    pub born: u64,
    /// The first revision that erased it.
    pub died: Option<u64>,
    /// Labels rise from block to block.
    pub label: u64,
    /// The index at which its characters begin in the sequence's text.
    pub start: usize,
    pub len: u64,
}

impl Weigh for Block {
    ghost weight_of = { weight_of };

    fn weight(&self) -> u64 {
        match self.died {
            None => self.len,
            Some(_) => 0,
        }
    }
}
