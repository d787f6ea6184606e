//! Files in memory to which threads append notes.
ghost use Rattle.std.specs.Prelude.{◌≡◌, IfOk, None};

use group_commit::{Commit, Committed, Device, Note, Notes, Uncommitted, append};
use pad_model::Name;
use std::alloc::{AllocError, Global};
use std::io;
use std::io::{ErrorKind, Write};
use std::sync::atomic::{AtomicBool, Ordering};
use std::sync::{Mutex, Wait};
use store_format::PadWriter;
use store_records::Record;

// The number of files.
pub(crate) const CELLS: u32 = 6;

// A file in memory, or one whose disk fails.
#[derive(Drop)]
pub(crate) struct MemoryFile {
    bytes: Vec<u8>,
    synced: usize,
    syncs: u64,
    fails: bool,
}

impl Write for MemoryFile {
    ghost contents = { λ _. None };

    fn write(&mut self, bytes: &[u8]) -> io::Result<usize> {
        self.bytes.write(bytes)
    }

    fn flush(&mut self) -> io::Result<()> {
        Ok(())
    }
}

impl Device for MemoryFile {
    ghost synced = { λ _. None };

    fn sync(&mut self) -> io::Result<()> {
        if self.fails {
            return Err(io::Error::from(ErrorKind::Other));
        }
        self.synced = self.bytes.len();
        self.syncs = self.syncs.saturating_add(1);
        Ok(())
    }
}

// The files of some cells. At most one thread writes to each at a time, which is looked at.
#[derive(Drop)]
pub(crate) struct MemoryFiles {
    alloc: Global,
    files: Vec<Mutex<(PadWriter, MemoryFile)>>,
    busy: Vec<AtomicBool>,
    pub(crate) was_shared: AtomicBool,
}

impl MemoryFiles {
    pub(crate) fn new(alloc: Global, fails: bool) -> Result<MemoryFiles, AllocError> {
        let mut files = Vec::new(alloc);
        let mut busy = Vec::new(alloc);
        for _cell in 0..CELLS {
            let file = MemoryFile {
                bytes: Vec::new(alloc),
                synced: 0,
                syncs: 0,
                fails,
            };
            files.push(Mutex::new((PadWriter::new(alloc, String::new(alloc)), file)))?;
            busy.push(AtomicBool::new(false))?;
        }
        Ok(MemoryFiles {
            alloc,
            files,
            busy,
            was_shared: AtomicBool::new(false),
        })
    }

    // The number of synced lines of a cell that name an author.
    pub(crate) fn synced_of<R: Wait>(
        &self,
        rt: &R,
        cell: u32,
        author: &str,
    ) -> Result<usize, AllocError> {
        let Some(file) = self.files.get(cell as usize) else {
            return Ok(0);
        };
        let sought = format!(in self.alloc; "\"owner\":\"{author}\"")?;
        let open = file.lock(rt);
        let (_, file) = &*open;
        let synced = &file.bytes[..file.synced.min(file.bytes.len())];
        let mut found = 0usize;
        for from in 0..synced.len() {
            if synced[from..].starts_with(sought.as_bytes()) {
                found = found.saturating_add(1);
            }
        }
        Ok(found)
    }

    // The number of syncs of all files.
    pub(crate) fn syncs<R: Wait>(&self, rt: &R) -> u64 {
        let mut sum = 0u64;
        for file in &self.files {
            sum = sum.saturating_add(file.lock(rt).1.syncs);
        }
        sum
    }
}

// The files, and a thread that appends to them.
#[derive(Drop)]
pub(crate) struct Thread<'r, 'f, R> {
    pub(crate) rt: &'r R,
    pub(crate) files: &'f MemoryFiles,
}

impl<R: Wait> Commit for Thread<'_, '_, R> {
    fn commit(&self, notes: Notes) -> io::Result<Committed>
        ensures { IfOk result (λ done. done.cell ≡ notes.cell) }
    {
        let cell = notes.cell() as usize;
        let (Some(file), Some(busy)) = (self.files.files.get(cell), self.files.busy.get(cell))
        else {
            return Err(io::Error::from(ErrorKind::NotFound));
        };
        if busy.swap(true, Ordering::SeqCst) {
            self.files.was_shared.store(true, Ordering::SeqCst);
        }
        let mut open = file.lock(self.rt);
        let (writer, device) = &mut *open;
        let done = append(self.files.alloc, writer, false, notes, device);
        busy.store(false, Ordering::SeqCst);
        match done {
            Ok(done) => Ok(done),
            Err(Uncommitted::Unwritten(cause) | Uncommitted::Unsynced(cause)) => Err(cause),
        }
    }
}

// A note that names a pad with this owner.
pub(crate) fn note_of(alloc: Global, author: &str) -> Result<Note, AllocError> {
    let mut records = Vec::new(alloc);
    records.push(Record::Named {
        name: Name::from_str(alloc, "p")?,
        owner: Name::from_str(alloc, author)?,
        visits: true,
    })?;
    Ok(Note { at: 0, records })
}
