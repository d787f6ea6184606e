//! Files in memory.
use cell_set::CellSet;
use file_copies::{HeardMark, stretch_sum};
use pad_model::Name;
use std::alloc::{AllocError, Global};
use std::io;
use std::sync::atomic::{AtomicBool, AtomicU64, Ordering};
use std::sync::{Mutex, Wait};
use std::time::{Clock, Duration};
use store_files::{SyncedFile, SyncedFiles};
use store_format::PadWriter;

/// The file of one pad.
#[derive(Drop)]
pub struct SourceFile {
    pad: Name,
    writer: PadWriter,
    text: Vec<u8>,
}

/// Files of pads in memory, each line of which is a note and is synced at once.
#[derive(Drop)]
pub struct SourceFiles {
    files: Mutex<Vec<SourceFile>>,
    // The length of each file after each note, one row of lengths after the other.
    lengths: Mutex<Vec<u64>>,
    cells: usize,
    grown: CellSet,
    notes: AtomicU64,
    /// The mark that was heard last.
    pub heard: AtomicU64,
    /// True if the copies were ever reported to have everything.
    pub had_all: AtomicBool,
}

impl SourceFiles {
    /// Empty files of pads with these names.
    pub fn new(alloc: Global, names: &[&str]) -> Result<SourceFiles, AllocError> {
        let mut files = Vec::new(alloc);
        for name in names {
            files.push(SourceFile {
                pad: Name::from_str(alloc, *name)?,
                writer: PadWriter::new(alloc, String::new(alloc)),
                text: Vec::new(alloc),
            })?;
        }
        Ok(SourceFiles {
            files: Mutex::new(files),
            lengths: Mutex::new(Vec::new(alloc)),
            cells: names.len(),
            grown: CellSet::new(alloc, names.len())?,
            notes: AtomicU64::new(0),
            heard: AtomicU64::new(0),
            had_all: AtomicBool::new(false),
        })
    }

    /// Appends this many lines to the file at a cell. Each is one note.
    pub fn append<R: Wait>(&self, rt: &R, alloc: Global, cell: u32, lines: u64) -> io::Result<()> {
        let mut files = self.files.lock(rt);
        for _ in 0..lines {
            if let Some(file) = files.get_mut(cell as usize) {
                let SourceFile { pad, writer, text } = file;
                writer.begin(alloc, pad, 1)?;
                writer.write(alloc, text)?;
            }
            let mut lengths = self.lengths.lock(rt);
            for file in files.iter() {
                lengths.push(file.text.len() as u64)?;
            }
            self.notes.fetch_add(1, Ordering::SeqCst);
        }
        self.grown.insert(cell);
        Ok(())
    }

    /// The bytes of the file at a cell.
    pub fn text<R: Wait>(&self, rt: &R, alloc: Global, cell: u32) -> Result<Vec<u8>, AllocError> {
        let mut text = Vec::new(alloc);
        if let Some(file) = self.files.lock(rt).get(cell as usize) {
            text.extend_from_slice(file.text.as_slice())?;
        }
        Ok(text)
    }

    /// The length of the file at a cell after the first notes, as many as the mark.
    pub fn length_at<R: Wait>(&self, rt: &R, mark: u64, cell: u32) -> u64 {
        let Some(row) = mark.checked_sub(1) else {
            return 0;
        };
        let place = (row as usize)
            .saturating_mul(self.cells)
            .saturating_add(cell as usize);
        self.lengths.lock(rt).get(place).copied().unwrap_or(0)
    }

    /// The number of notes.
    pub fn notes(&self) -> u64 {
        self.notes.load(Ordering::SeqCst)
    }
}

impl SyncedFiles for &SourceFiles {
    fn cells(&self) -> usize {
        self.cells
    }

    fn take_grown(&self, alloc: Global) -> Result<Vec<u32>, AllocError> {
        let taken = CellSet::new(alloc, self.cells)?;
        taken.take_from(&self.grown);
        taken.list(alloc)
    }

    fn follow<R: Wait + Clock>(&self, _rt: &R, _seen: u64, _most: Duration) -> Option<u64> {
        Some(self.notes())
    }

    fn file_at<R: Wait>(
        &self,
        rt: &R,
        _alloc: Global,
        cell: u32,
    ) -> io::Result<Option<SyncedFile>> {
        let files = self.files.lock(rt);
        match files.get(cell as usize) {
            Some(file) => Ok(Some(SyncedFile {
                pad: file.pad.clone()?,
                length: file.text.len() as u64,
            })),
            None => Ok(None),
        }
    }

    fn lines_from<R: Wait>(
        &self,
        rt: &R,
        alloc: Global,
        cell: u32,
        from: u64,
        most: u64,
    ) -> io::Result<Vec<u8>> {
        let text = self.text(rt, alloc, cell)?;
        let rest = text.as_slice().get(from as usize..).unwrap_or(&[]);
        let least = (most as usize).min(rest.len());
        let fits = rest[..least].iter().rposition(|byte| *byte == b'\n');
        let first = rest.iter().position(|byte| *byte == b'\n');
        let end = match fits.or(first) {
            Some(feed) => feed + 1,
            None => 0,
        };
        let mut lines = Vec::new(alloc);
        lines.extend_from_slice(&rest[..end])?;
        Ok(lines)
    }

    fn sum_before<R: Wait>(
        &self,
        rt: &R,
        alloc: Global,
        cell: u32,
        end: u64,
    ) -> io::Result<Option<String>> {
        let text = self.text(rt, alloc, cell)?;
        match text.as_slice().get(..end as usize) {
            Some(front) => Ok(stretch_sum(alloc, "", front)?),
            None => Ok(None),
        }
    }

    fn note_round(&self, _bytes: u64) {}

    fn hear<R: Wait>(&self, _rt: &R, heard: &HeardMark, is_all: bool) -> bool {
        self.heard.store(heard.mark(), Ordering::SeqCst);
        self.had_all.store(is_all, Ordering::SeqCst);
        false
    }
}
