//! The notes of one pad that are not yet written.
ghost use Rattle.std.specs.Prelude.{◌≡◌, ◌≢◌, ◌∷◌, ◌++◌, [], IfErr, IfNone, IfOk, IfSome, OnErr};
ghost use Rattle.group_commit.specs.Notes.{IsUnqueued, WasQueued};

use std::alloc::Global;
use std::mem::replace;
use store_records::Record;
use thiserror::Error;

/// The records that one request leaves, with the time at which it was answered.
#[derive(Drop)]
pub struct Note {
    /// Seconds since 1970.
    pub at: u64,
    pub records: Vec<Record>,
}

/// The notes of a pad that are still to be written, in the order of its steps.
#[derive(Drop)]
pub struct PadQueue {
    cell: u32,
    notes: Vec<Note>,
}

/// A note that is in its pad's queue. It has to be counted by `Progress::count`: for a note that is not, nobody would wait.
pub struct QueuedNote {
    pub(crate) cell: u32,
}

/// All notes of a pad, taken out of its queue, for `append` to write.
#[derive(Drop)]
pub struct Notes {
    pub(crate) cell: u32,
    pub(crate) all: Vec<Note>,
}

/// The reason a note is not taken. Nothing is settled after it.
#[derive(Clone, Copy, Debug, Error)]
pub enum Unnoted {
    #[error("out of memory")]
    Memory,
    #[error("there is no cell {cell}")]
    NoCell { cell: u32 },
    #[error("there are 2^64 notes already")]
    TooMany,
}

impl PadQueue {
    /// The empty queue of the pad at a cell.
    pub fn new(alloc: Global, cell: u32) -> PadQueue
        ensures { (result.cell ≡ cell) × (result.notes.items ≡ []) }
    {
        PadQueue {
            cell,
            notes: Vec::new(alloc),
        }
    }

    /// Puts a note of the pad at this cell after those that are there. If that fails, the queue is unchanged.
    #[tactic(auto, using(crate::specs::Notes::is_queued))]
    pub fn push(&mut self, cell: u32, note: Note) -> Result<QueuedNote, Unnoted>
        ensures queued { IfOk result (λ noted. (self.new.notes.items ≡ self.old.notes.items ++ note ∷ [])
            × (noted.cell ≡ cell) × WasQueued cell note) }
        ensures cell { self.new.cell ≡ self.old.cell }
        ensures same { OnErr result (self.new.notes.items ≡ self.old.notes.items) }
        ensures why { IfErr result (IsUnqueued self.old.cell cell) }
    {
        if cell != self.cell {
            return Err(Unnoted::NoCell { cell });
        }
        match self.notes.push(note) {
            Ok(()) => Ok(QueuedNote { cell }),
            Err(_) => Err(Unnoted::Memory),
        }
    }

    /// Takes all notes of the pad at a cell, in their order. None: the queue is that of another cell.
    pub fn take(&mut self, alloc: Global, cell: u32) -> Option<Notes>
        ensures taken { IfSome result (λ notes. (notes.all.items ≡ self.old.notes.items) × (notes.cell ≡ cell)
            × (self.new.notes.items ≡ [])) }
        ensures cell { self.new.cell ≡ self.old.cell }
        ensures none { IfNone result ((cell ≢ self.old.cell) × (self.new.notes.items ≡ self.old.notes.items)) }
    {
        if cell != self.cell {
            return None;
        }
        Some(Notes {
            cell,
            all: replace(&mut self.notes, Vec::new(alloc)),
        })
    }
}

impl Notes {
    /// The cell of their pad.
    pub fn cell(&self) -> u32
        ensures { result ≡ self.now.cell }
    {
        self.cell
    }

    /// The first record, from which a pad that has no file yet gets its name.
    pub fn first(&self) -> Option<&Record> {
        self.all.first().and_then(|note| note.records.first())
    }
}
