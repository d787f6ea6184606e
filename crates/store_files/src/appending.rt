//! Appends the notes of a pad to its file.
ghost use Rattle.std.specs.Prelude.{◌≡◌, IfOk};

use crate::keeper::Keeper;
use crate::pad_device::PadDevice;
use crate::pad_end::{PadEnd, open_end, path_of};
use group_commit::{Commit, Committed, Notes, Uncommitted, append};
use log::error;
use server_log::ServerLog;
use std::alloc::Global;
use std::fs::File;
use std::io;
use std::io::ErrorKind;
use std::sync::Wait;
use store_records::Record;

/// The files of a keeper, to which one thread appends.
#[derive(Drop)]
pub struct Files<'r, 'k, R> {
    rt: &'r R,
    keeper: &'k Keeper,
}

impl<'r, 'k, R: Wait> Files<'r, 'k, R> {
    /// The files of this keeper.
    pub fn new(rt: &'r R, keeper: &'k Keeper) -> Files<'r, 'k, R> {
        Files { rt, keeper }
    }

    // Appends the notes of a pad to its file.
    fn put(&self, notes: Notes) -> Result<Committed, Uncommitted>
        ensures { IfOk result (λ done. done.cell ≡ notes.cell) }
    {
        let alloc = self.keeper.files.alloc();
        let Some(pad) = self.keeper.pads.get(notes.cell() as usize) else {
            return Err(Uncommitted::Unwritten(io::Error::from(ErrorKind::NotFound)));
        };
        let mut end = pad.lock(self.rt);
        let begins = end.name.is_none();
        self.open(alloc, &mut end, &notes)?;
        let PadEnd {
            file,
            writer,
            synced,
            ..
        } = &mut *end;
        let Some(file) = file else {
            return Err(Uncommitted::Unwritten(io::Error::from(ErrorKind::NotFound)));
        };
        let done = append(alloc, writer, begins, notes, &mut self.device(file))?;
        if self.keeper.copying.is_copied() {
            let length = self.length_of(file)?;
            let more = length.saturating_sub(*synced);
            self.keeper.copying.progress.synced_bytes.add(more);
            *synced = length;
        }
        Ok(done)
    }

    // Opens the file of a pad if it is closed. The first note of a new pad makes it.
    fn open(&self, alloc: Global, end: &mut PadEnd, notes: &Notes) -> io::Result<()> {
        let file = match (&end.file, &end.name) {
            (Some(_), _) => return Ok(()),
            (None, Some(name)) => self.open_again(alloc, name.as_str())?,
            (None, None) => {
                let Some(Record::Named { name, .. }) = notes.first() else {
                    return Err(io::Error::from(ErrorKind::InvalidData));
                };
                let named = String::from_str(alloc, name.as_str())?;
                let file = self.keeper.begin(self.rt, alloc, name, &mut end.writer)?;
                end.name = Some(named);
                file
            }
        };
        end.file = Some(file);
        Ok(())
    }

    // Opens the file of a pad. Where that fails, the files of others are closed for it, one after the other: the system may
    // have no more. If there is no memory for its path, none is closed.
    fn open_again(&self, alloc: Global, pad: &str) -> io::Result<File> {
        let files = &self.keeper.files;
        let path = path_of(alloc, self.keeper.folder.as_str(), pad)?;
        for _ in &self.keeper.pads {
            match open_end(files, path.as_str()) {
                Err(_) if self.close_oldest() => {}
                done => return done,
            }
        }
        open_end(files, path.as_str())
    }

    // Notes that the file of a cell was appended to, and closes another one if more are open than may be. It is called under no lock
    // of a pad. All that was appended is synced, so that closing loses nothing.
    fn note_open(&self, cell: u32) {
        let closed = self.keeper.open.lock(self.rt).note(cell);
        if let Some(other) = closed {
            if let Some(end) = self.keeper.pads.get(other as usize) {
                end.lock(self.rt).file = None;
            }
        }
    }

    // Closes the file that was written longest ago, and returns true if there was one. It is called under the lock of another pad:
    // a file that is used just now stays open and is noted again. If another thread has taken its place meanwhile, the file that is
    // to be closed for it is tried next.
    fn close_oldest(&self) -> bool {
        let Some(oldest) = self.keeper.open.lock(self.rt).take_oldest() else {
            return false;
        };
        let mut candidate = oldest;
        for _ in &self.keeper.pads {
            if self.close_unused(candidate) {
                return true;
            }
            match self.keeper.open.lock(self.rt).note(candidate) {
                Some(other) if other != candidate => candidate = other,
                _ => return true,
            }
        }
        true
    }

    // Closes the file of a cell, unless it is used just now.
    fn close_unused(&self, cell: u32) -> bool {
        let Some(end) = self.keeper.pads.get(cell as usize) else {
            return true;
        };
        match end.try_lock() {
            Some(mut end) => {
                end.file = None;
                true
            }
            None => false,
        }
    }

    // The number of bytes of a file.
    fn length_of(&self, file: &File) -> io::Result<u64> {
        Ok(file.metadata()?.len())
    }

    // A pad's file, for `append`.
    fn device<'f>(&self, file: &'f mut File) -> PadDevice<'r, 'k, 'f, R> {
        PadDevice {
            rt: self.rt,
            files: &self.keeper.files,
            folder: self.keeper.folder.as_str(),
            reserve: &self.keeper.reserve,
            syncs: &self.keeper.syncs,
            file,
        }
    }
}

impl<R: Wait> Commit for Files<'_, '_, R> {
    fn commit(&self, notes: Notes) -> io::Result<Committed>
        ensures { IfOk result (λ done. done.cell ≡ notes.cell) }
    {
        let folder = self.keeper.folder.as_str();
        let cell = notes.cell();
        match self.put(notes) {
            Ok(done) => {
                self.note_open(cell);
                self.keeper.copying.note(cell);
                Ok(done)
            }
            Err(Uncommitted::Unwritten(cause)) => {
                error!(ServerLog(&self.keeper.files); "the store {folder} cannot be written: {cause}");
                Err(cause)
            }
            Err(Uncommitted::Unsynced(cause)) => {
                error!(ServerLog(&self.keeper.files); "the store {folder} cannot be synced: {cause}");
                Err(cause)
            }
        }
    }
}
