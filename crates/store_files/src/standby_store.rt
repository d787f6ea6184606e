//! The store of a standby: copies of another server's files.
ghost use Rattle.std.specs.Prelude.{◌≡◌, ◌≢◌, [], true, is_some, IfOk};

use crate::keeper::OpenFolder;
use crate::owner::Owner;
use crate::pieces::load_pieces;
use crate::reserve::is_full;
use crate::round_log::{Logged, RoundLog, put_back};
use crate::spares::PRIVATE;
use crate::store_error::StoreError;
use crate::stored::{lock_folder, names_of};
use block_seq::BlockSeq;
use file_copies::{FileStretch, NoStretch, PadCopy};
use pad_model::Name;
use std::alloc::{AllocError, AllocFailed, Global};
use std::fs::{File, OpenOptions};
use std::io;
use std::io::{ErrorKind, Write};
use std::os::unix::fs::OpenOptionsExt;
use std::rt::Runtime;
use store_format::Damage;

/// The copy of a pad's file.
#[derive(Drop)]
pub struct CopiedFile {
    pub pad: Name,
    pub copy: PadCopy,
    /// True if all its bytes are synced in the file itself, and not in the log alone.
    is_synced: bool,
}

/// A crash takes nothing of a round any more. Only `StandbyStore::keep` says so: the round is in the log, which is synced, or
/// it has nothing.
#[derive(Drop)]
pub struct KeptRound {
    // The log's proof, unless the round has nothing.
    logged: Option<Logged>,
}

/// The reason why a round is not kept.
#[derive(Drop)]
pub enum Unkept {
    /// A stretch does not continue the copy of its pad's file. Nothing was changed.
    NoStretch { pad: Name, why: NoStretch },
    /// The disk is full. Nothing was changed.
    Full,
    /// There is no memory. Nothing was changed.
    Memory,
    /// The system refused a file. The confirmed rounds are kept, and the next start completes the files.
    Failed(io::Error),
}

impl From<AllocError> for Unkept {
    fn from(_refused: AllocError) -> Unkept {
        Unkept::Memory
    }
}

impl<T: Drop> From<AllocFailed<T>> for Unkept {
    fn from(_refused: AllocFailed<T>) -> Unkept {
        Unkept::Memory
    }
}

/// The copies of all files, and the log of the rounds sent since they were last synced.
#[derive(Drop)]
pub struct StandbyStore {
    files: HostRuntime,
    folder: String,
    // By the names of their pads, in order.
    copies: Vec<CopiedFile>,
    log: RoundLog,
    held: OpenFolder,
}

impl StandbyStore {
    /// Opens the store of a standby, which is made if it is not there, and reads it. Where a crash left a round half written,
    /// it is completed from the log, or dropped if it was not confirmed.
    pub fn open<'f, R>(
        rt: &R,
        files: HostRuntime,
        folder: &'f str,
        owner: &Owner,
    ) -> Result<StandbyStore, StoreError<'f>>
    where
        R: Runtime<A = Global, File = File>,
    {
        let alloc = files.alloc();
        let kept_in = String::from_str(alloc, folder)?;
        let held = match lock_folder(rt, folder) {
            Ok(Some(held)) => held,
            Ok(None) => return Err(StoreError::InUse { folder }),
            Err(cause) => return Err(StoreError::Unopened { folder, cause }),
        };
        match put_back(&files, folder, &held.folder) {
            Ok(()) => {}
            Err(cause) => return Err(StoreError::Unopened { folder, cause }),
        }
        let names = match names_of(rt, folder) {
            Ok(names) => names,
            Err(cause) => return Err(StoreError::Unopened { folder, cause }),
        };
        let mut copies = Vec::new(alloc);
        for name in names {
            let copied = read_copy(&files, folder, name.as_str(), owner)?;
            if copies.push(copied).is_err() {
                return Err(StoreError::Memory);
            }
        }
        copies.sort_by(|one, other| one.pad.as_str().cmp(other.pad.as_str()))?;
        match RoundLog::open(&files, folder) {
            Ok(log) => Ok(StandbyStore {
                files,
                folder: kept_in,
                copies,
                log,
                held,
            }),
            Err(cause) => Err(StoreError::Unopened { folder, cause }),
        }
    }

    /// The copies, in the order of the names of their pads.
    pub fn copies(&self) -> &[CopiedFile] {
        self.copies.as_slice()
    }

    /// Keeps a round: once this returns, a crash takes nothing of it. It has at most one stretch of each pad.
    pub fn keep(&mut self, alloc: Global, round: &[FileStretch]) -> Result<KeptRound, Unkept>
        ensures { IfOk result (λ kept. round.now ≢ [] → is_some kept.logged ≡ true) }
    {
        if round.is_empty() {
            return Ok(KeptRound { logged: None });
        }
        let mut next = Vec::new(alloc);
        for stretch in round {
            let place = self.place_of(alloc, &stretch.pad)?;
            next.push(self.followed_by(alloc, place, stretch)?)?;
        }
        let logged = match self.log.append(alloc, round) {
            Ok(logged) => logged,
            Err(cause) if is_full(&cause) => return Err(Unkept::Full),
            Err(cause) if cause.kind() == ErrorKind::OutOfMemory => return Err(Unkept::Memory),
            Err(cause) => return Err(Unkept::Failed(cause)),
        };
        for (stretch, copy) in round.iter().zip(next) {
            self.append(alloc, stretch, copy).map_err(Unkept::Failed)?;
        }
        if self.log.is_long() {
            self.sync().map_err(Unkept::Failed)?;
        }
        Ok(KeptRound {
            logged: Some(logged),
        })
    }

    /// Syncs all files, and empties the log.
    pub fn sync(&mut self) -> io::Result<()> {
        for copied in self.copies.iter_mut() {
            if !copied.is_synced {
                let file = open_copy(&self.files, self.folder.as_str(), copied.pad.as_str())?;
                file.sync_all()?;
                copied.is_synced = true;
            }
        }
        self.held.folder.sync_all()?;
        self.log.clear()
    }

    // The place of the copy of a pad's file. A pad without one gets the empty copy.
    fn place_of(&mut self, alloc: Global, pad: &Name) -> Result<usize, Unkept> {
        match self.find(pad) {
            Ok(place) => Ok(place),
            Err(found) => {
                let place = found.min(self.copies.len());
                self.copies.insert(
                    place,
                    CopiedFile {
                        pad: pad.clone()?,
                        copy: PadCopy::new(0, String::new(alloc)),
                        is_synced: true,
                    },
                )?;
                Ok(place)
            }
        }
    }

    // The place of the copy of a pad's file, or else the place where it would be.
    fn find(&self, pad: &Name) -> Result<usize, usize> {
        self.copies
            .binary_search_by(|copied| copied.pad.as_str().cmp(pad.as_str()))
    }

    // The copy at a place, followed by a stretch.
    fn followed_by(
        &self,
        alloc: Global,
        place: usize,
        stretch: &FileStretch,
    ) -> Result<PadCopy, Unkept> {
        let Some(copied) = self.copies.get(place) else {
            let (from, length) = (stretch.from, 0);
            return Err(Unkept::NoStretch {
                pad: stretch.pad.clone()?,
                why: NoStretch::Elsewhere { from, length },
            });
        };
        match copied
            .copy
            .followed_by(alloc, stretch.from, stretch.lines.as_slice())
        {
            Ok(copy) => Ok(copy),
            Err(NoStretch::Memory) => Err(Unkept::Memory),
            Err(why) => Err(Unkept::NoStretch {
                pad: stretch.pad.clone()?,
                why,
            }),
        }
    }

    // Appends a stretch to the file of its pad, which then is this copy.
    fn append(&mut self, alloc: Global, stretch: &FileStretch, copy: PadCopy) -> io::Result<()> {
        let mut file = open_copy(&self.files, self.folder.as_str(), stretch.pad.as_str())?;
        file.write_all(stretch.lines.as_slice())?;
        if let Ok(place) = self.find(&stretch.pad) {
            if let Some(copied) = self.copies.get_mut(place) {
                copied.copy = copy;
                copied.is_synced = false;
            }
        }
        Ok(())
    }
}

// The copy in a file of the folder. The bytes that a crash left after its last whole line are cut off.
fn read_copy<'f>(
    files: &HostRuntime,
    folder: &'f str,
    name: &str,
    owner: &Owner,
) -> Result<CopiedFile, StoreError<'f>> {
    let pad = name.strip_suffix(".pad").unwrap_or(name);
    let copy = whole_lines_of(files, folder, name, pad, owner)?;
    match cut(files, folder, pad, copy.length()) {
        Ok(()) => Ok(CopiedFile {
            pad: Name::from_str(files.alloc(), pad)?,
            copy,
            is_synced: true,
        }),
        Err(cause) => Err(StoreError::Unopened { folder, cause }),
    }
}

// The copy that the whole lines of a file make.
fn whole_lines_of<'f>(
    files: &HostRuntime,
    folder: &'f str,
    name: &str,
    pad: &str,
    owner: &Owner,
) -> Result<PadCopy, StoreError<'f>> {
    let path = format!(in files.alloc(); "{folder}/{name}")?;
    let mut numbers = Vec::new(files.alloc());
    match load_pieces::<BlockSeq>(files, path.as_str(), pad, owner, &mut numbers) {
        Ok(Ok(loaded)) => Ok(PadCopy::new(loaded.whole, loaded.sum)),
        Ok(Err(damage)) => copy_without(files, folder, path.as_str(), damage),
        Err(cause) => Err(StoreError::Unopened { folder, cause }),
    }
}

// The empty copy, where a file has no whole line. Any other damage is printed, and is an error.
fn copy_without<'f>(
    files: &HostRuntime,
    folder: &'f str,
    path: &str,
    damage: Damage,
) -> Result<PadCopy, StoreError<'f>> {
    match damage {
        Damage::Empty => Ok(PadCopy::new(0, String::new(files.alloc()))),
        Damage::Memory => Err(StoreError::Memory),
        _ => {
            let _told = eprintln!(files; "pad_server: {path}: {damage}");
            Err(StoreError::Damaged { folder })
        }
    }
}

// Cuts a file off after this many bytes, and syncs it.
fn cut(files: &HostRuntime, folder: &str, pad: &str, length: u64) -> io::Result<()> {
    let file = open_copy(files, folder, pad)?;
    file.set_len(length)?;
    file.sync_all()
}

// Opens the file of a pad for appending. It is made if it is not there.
fn open_copy(files: &HostRuntime, folder: &str, pad: &str) -> io::Result<File> {
    let path = format!(in files.alloc(); "{folder}/{pad}.pad")?;
    let mut options = OpenOptions::new();
    options.append(true).create(true).mode(PRIVATE);
    options.open(files, path.as_str())
}
