//! The files of a store as whoever copies them sees them: as far as they are synced.
use crate::keeper::Keeper;
use crate::pad_end::PadEnd;
use crate::sums::sum_before;
use crate::synced_files::{SyncedFile, SyncedFiles};
use cell_set::CellSet;
use file_copies::HeardMark;
use pad_model::Name;
use std::alloc::{AllocError, Global};
use std::fs::File;
use std::io;
use std::io::ErrorKind;
use std::os::unix::fs::FileExt;
use std::sync::Wait;
use std::time::{Clock, Duration};

/// The files of a keeper, as far as they are synced.
#[derive(Clone, Copy)]
pub struct KeptFiles<'k> {
    keeper: &'k Keeper,
}

impl<'k> KeptFiles<'k> {
    /// The files of this keeper.
    pub fn new(keeper: &'k Keeper) -> KeptFiles<'k> {
        KeptFiles { keeper }
    }

    /// Another server has taken this one's place: with `Confirm::Strict` no reply is written any more.
    pub fn give_up<R: Wait>(&self, rt: &R) {
        self.keeper.copying.give_up(rt);
    }

    /// Returns true if the store has failed.
    pub fn has_failed(&self) -> bool {
        self.keeper.has_failed()
    }

    // Opens the file of a pad to read it, if it is closed.
    fn open_closed(&self, alloc: Global, end: &PadEnd) -> io::Result<Option<File>> {
        end.open_closed(alloc, &self.keeper.files, self.keeper.folder.as_str())
    }

    // Reads at most `most` synced bytes of a file, from this place on.
    fn bytes_from<R: Wait>(
        &self,
        rt: &R,
        alloc: Global,
        cell: u32,
        from: u64,
        most: u64,
    ) -> io::Result<Vec<u8>> {
        let mut bytes = Vec::new(alloc);
        let Some(pad) = self.keeper.pads.get(cell as usize) else {
            return Ok(bytes);
        };
        let end = pad.lock(rt);
        let left = end.synced.saturating_sub(from).min(most);
        let opened = self.open_closed(alloc, &end)?;
        let Some(file) = opened.as_ref().or(end.file.as_ref()) else {
            return Ok(bytes);
        };
        bytes.resize(usize::try_from(left).unwrap_or(0), 0)?;
        file.read_exact_at(bytes.as_mut_slice(), from)?;
        Ok(bytes)
    }
}

impl SyncedFiles for KeptFiles<'_> {
    fn cells(&self) -> usize {
        self.keeper.pads.len()
    }

    fn take_grown(&self, alloc: Global) -> Result<Vec<u32>, AllocError> {
        let taken = CellSet::new(alloc, self.cells())?;
        taken.take_from(self.keeper.copying.grown());
        taken.list(alloc)
    }

    fn follow<R: Wait + Clock>(&self, rt: &R, seen: u64, most: Duration) -> Option<u64> {
        self.keeper.commits.follow(rt, seen, most)
    }

    fn file_at<R: Wait>(&self, rt: &R, alloc: Global, cell: u32) -> io::Result<Option<SyncedFile>> {
        let Some(pad) = self.keeper.pads.get(cell as usize) else {
            return Ok(None);
        };
        let end = pad.lock(rt);
        match &end.name {
            Some(name) => Ok(Some(SyncedFile {
                pad: Name::from_str(alloc, name.as_str())?,
                length: end.synced,
            })),
            None => Ok(None),
        }
    }

    fn lines_from<R: Wait>(
        &self,
        rt: &R,
        alloc: Global,
        cell: u32,
        from: u64,
        most: u64,
    ) -> io::Result<Vec<u8>> {
        let mut size = most.max(1);
        for _ in 0..u64::BITS {
            let mut bytes = self.bytes_from(rt, alloc, cell, from, size)?;
            let is_all = (bytes.len() as u64) < size;
            if let Some(end) = bytes.iter().rposition(|byte| *byte == b'\n') {
                bytes.truncate(end + 1);
                return Ok(bytes);
            }
            if is_all {
                bytes.clear();
                return Ok(bytes);
            }
            size = size.saturating_mul(2);
        }
        Err(io::Error::from(ErrorKind::FileTooLarge))
    }

    fn sum_before<R: Wait>(
        &self,
        rt: &R,
        alloc: Global,
        cell: u32,
        place: u64,
    ) -> io::Result<Option<String>> {
        let Some(pad) = self.keeper.pads.get(cell as usize) else {
            return Ok(None);
        };
        let end = pad.lock(rt);
        let opened = self.open_closed(alloc, &end)?;
        match opened.as_ref().or(end.file.as_ref()) {
            Some(file) if place <= end.synced => sum_before(alloc, file, place),
            _ => Ok(None),
        }
    }

    fn note_round(&self, bytes: u64) {
        let progress = &self.keeper.copying.progress;
        progress.copied_bytes.set(bytes);
        progress.heard_at.set(self.keeper.seconds());
    }

    fn hear<R: Wait>(&self, rt: &R, heard: &HeardMark, is_all: bool) -> bool {
        if is_all {
            let now = self.keeper.seconds();
            self.keeper.copying.progress.whole_at.set(now);
        }
        self.keeper.copying.hear(rt, heard.mark(), is_all)
    }
}
