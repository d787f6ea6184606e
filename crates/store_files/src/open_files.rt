//! Which pads of a store have their files open: those that were written last, at most so many.
ghost use Rattle.std.specs.Prelude.{◌≡◌, [], IfOk};
ghost use Rattle.std.specs.NonZero.{non_zero_usize_get};
ghost use Rattle.lru.specs.LruCache.{lru_cache};
ghost use Rattle.store_files.specs.OpenFiles.{IsNoted, IsTaken};

use lru::LruCache;
use std::alloc::{AllocError, Global};
use std::marker::Model;
use std::num::NonZeroUsize;

/// The cells of the pads whose files are open. What is appended to opens its file and notes it here, and closes the one that
/// this returns.
#[derive(Drop)]
pub struct OpenFiles {
    cells: LruCache<u32, ()>,
}

impl Model for OpenFiles {
    ghost use Rattle.store_files.specs.OpenFiles.{OpenCells};

    ghost Value = { OpenCells };

    ghost view = { λ files. files.cells };
}

impl OpenFiles {
    /// No file is open. At most `most` are to be.
    pub fn new(alloc: Global, most: NonZeroUsize) -> Result<OpenFiles, AllocError>
        ensures { IfOk result (λ files. files ≡ lru_cache [] (non_zero_usize_get most)) }
    {
        Ok(OpenFiles {
            cells: LruCache::sparse(alloc, most)?,
        })
    }

    /// Notes that the file of a cell is open and was written just now. Returns the cell whose file is to be closed for it: the one
    /// that was written longest ago, if more would be open than may be, or this one, if there is no memory to note it.
    pub fn note(&mut self, cell: u32) -> Option<u32>
        ensures { IsNoted self.old cell result self.new }
    {
        match self.cells.push(cell, ()) {
            Ok(Some((other, _))) if other != cell => Some(other),
            Ok(_) => None,
            Err(_) => Some(cell),
        }
    }

    /// Takes out the cell whose file was written longest ago, which is to be closed. None: no file is open.
    pub fn take_oldest(&mut self) -> Option<u32>
        ensures { IsTaken self.old result self.new }
    {
        match self.cells.pop_lru() {
            Some((cell, _)) => Some(cell),
            None => None,
        }
    }
}
