//! Notes become lines of a file: one append and one sync for all that wait.
ghost use Rattle.std.specs.Prelude.{◌≡◌, ℕ, Option, List, IfOk, OnOk};
ghost use Rattle.store_format.specs.Writing.{Adds};
ghost use Rattle.group_commit.specs.Notes.{HasAppended, texts_of_notes};

use crate::queue::{Note, Notes};
use std::alloc::Global;
use std::io;
use std::io::Write;
use store_format::PadWriter;

/// A file to which bytes are appended, and which can be synced.
pub trait Device: Write {
    /// The bytes that a power cut leaves, where they are known.
    ghost synced: { Self → Option (List ℕ) };

    /// Returns once everything that was appended is on the disk.
    fn sync(&mut self) -> io::Result<()>
        ensures stays { Self.contents self.new ≡ Self.contents self.old }
        ensures synced { OnOk result (Self.synced self.new ≡ Self.contents self.new) };
}

/// The reason notes are not known to be on the disk. The file may hold a part of their lines, and is not to be written
/// any more.
#[derive(Debug)]
pub enum Uncommitted {
    Unwritten(io::Error),
    Unsynced(io::Error),
}

impl From<io::Error> for Uncommitted {
    fn from(cause: io::Error) -> Uncommitted {
        Uncommitted::Unwritten(cause)
    }
}

/// The notes of a cell are in its file, and the file is synced. Only `append` says so.
#[derive(Debug, Drop)]
pub struct Committed {
    pub(crate) cell: u32,
}

/// Appends the lines of notes to a pad's file, after those that its writer has still to write, and syncs it. The file
/// gets one piece of bytes. `together` is true if the first line is written together with one that is not yet synced.
pub fn append<D: Device>(
    alloc: Global,
    writer: &mut PadWriter,
    together: bool,
    notes: Notes,
    device: &mut D,
) -> Result<Committed, Uncommitted>
    ensures cell { IfOk result (λ done. done.cell ≡ notes.cell) }
    ensures lines { OnOk result (HasAppended together notes.all.items writer.old writer.new (D.contents device.old)
        (D.contents device.new)) }
    ensures synced { OnOk result (D.synced device.new ≡ D.contents device.new) }
{
    let Notes { cell, all } = notes;
    add_notes(alloc, writer, together, all.as_slice())?;
    writer.write(alloc, device)?;
    match device.sync() {
        Ok(()) => Ok(Committed { cell }),
        Err(cause) => Err(Uncommitted::Unsynced(cause)),
    }
}

// Adds the lines of notes to those that wait.
fn add_notes(
    alloc: Global,
    writer: &mut PadWriter,
    together: bool,
    notes: &[Note],
) -> io::Result<()>
    ensures { OnOk result (Adds (texts_of_notes together notes.now) writer.old writer.new) }
{
    let mut follows = together;
    for note in notes {
        writer.note(alloc, note.at, follows, note.records.as_slice())?;
        follows |= !note.records.is_empty();
    }
    Ok(())
}
