//! The pads of a store at the start of the server.
use crate::copying::Copying;
use crate::keeper::{Keeper, KeeperParts, OpenFolder};
use crate::open_files::OpenFiles;
use crate::owner::Owner;
use crate::pad_end::PadEnd;
use crate::pad_file::PadFile;
use crate::reading::{Read, earlier_numbers, read_all};
use crate::reserve::Reserve;
use crate::round_log::put_back;
use crate::spares::PRIVATE;
use crate::store_error::StoreError;
use block_seq::BlockSeq;
use group_commit::{Commits, Confirm};
use log::warn;
use pad_core::Pad;
use server_counts::Histogram;
use server_log::ServerLog;
use shared_pads::{LockedPad, SharedPad};
use std::alloc::{AllocError, Global};
use std::fs::{DirBuilder, File, OpenOptions};
use std::num::NonZeroUsize;
use std::os::unix::fs::{DirBuilderExt, OpenOptionsExt};
use std::rt::Runtime;
use std::sync::{Mutex, Wait};
use std::thread::Threads;
use std::{fs, io};
use store_format::PadWriter;

/// The permissions of a store's folder that the server makes: for its user alone.
const PRIVATE_FOLDER: u32 = 0o700;

/// The row of a server, and the keeper of its files.
#[derive(Drop)]
pub struct Stored {
    /// The pads of the files, in the order of the files' names, and after them the free cells.
    pub cells: Vec<SharedPad<BlockSeq>>,
    /// The revision of the pad at each cell.
    pub revisions: Vec<u64>,
    /// The earlier numbers of the server: those of the servers that wrote files before, but its own.
    pub numbers: Vec<u16>,
    /// Notes the answers at these cells. It holds the folder's lock until it is dropped.
    pub keeper: Keeper,
}

/// The size that a row is to have.
#[derive(Clone, Copy)]
pub struct Size {
    /// The number of cells.
    pub cells: u32,
    /// The number of threads that have a seat at each pad.
    pub seats: u32,
    /// The number of pads whose files may be open at once.
    pub files: NonZeroUsize,
}

/// Loads the pads of a folder, each from its file, in the order of the files' names. The other cells are free. A server
/// calls it once, before it serves anyone. The folder is made if it is not there, and its lock is taken; each file is
/// cut off after its last whole line, and 16 MiB of the disk are taken as a reserve. `confirm` is the condition that
/// replies wait for if a standby has a copy of the store.
pub fn restore<'f, R>(
    rt: &R,
    files: HostRuntime,
    folder: &'f str,
    owner: &Owner,
    size: Size,
    confirm: Option<Confirm>,
) -> Result<Stored, StoreError<'f>>
where
    R: Runtime<A = Global, File = File> + Threads + Wait + Sync,
{
    let kept_in = String::from_str(rt.alloc(), folder)?;
    let (held, names) = open_folder(rt, &files, folder)?;
    let row = load_row(rt, &files, folder, names, owner, size)?;
    let ends = row.files.as_slice();
    let parts = keeper_parts(rt, &files, folder, ends, size.files, confirm)?;
    Ok(Stored {
        cells: row.cells,
        revisions: row.revisions,
        numbers: row.numbers,
        keeper: Keeper::new(files, kept_in, owner.replica(), row.files, parts, held),
    })
}

// The parts of the keeper of these files other than the files.
fn keeper_parts<'f, R>(
    rt: &R,
    files: &HostRuntime,
    folder: &'f str,
    ends: &[Mutex<PadEnd>],
    most_open: NonZeroUsize,
    confirm: Option<Confirm>,
) -> Result<KeeperParts, StoreError<'f>>
where
    R: Runtime<A = Global, File = File> + Wait,
{
    let cells = u32::try_from(ends.len()).unwrap_or(u32::MAX);
    let copying = Copying::new(rt.alloc(), ends.len(), confirm)?;
    for end in ends {
        copying.progress.synced_bytes.add(end.lock(rt).synced);
    }
    Ok(KeeperParts {
        open: OpenFiles::new(rt.alloc(), most_open)?,
        commits: Commits::new(rt.alloc(), cells)?,
        copying,
        reserve: open_reserve(rt, files, folder)?,
        syncs: Histogram::new(rt.alloc())?,
    })
}

// Takes the reserve of the disk, or logs that there is no room for it.
fn open_reserve<'f, R>(
    rt: &R,
    files: &HostRuntime,
    folder: &'f str,
) -> Result<Reserve, StoreError<'f>>
where
    R: Runtime<A = Global, File = File> + Wait,
{
    let path = format!(in rt.alloc(); "{folder}/reserve")?;
    let reserve = match Reserve::open(files, path.as_str()) {
        Ok(reserve) => reserve,
        Err(cause) => return Err(StoreError::Unopened { folder, cause }),
    };
    if !reserve.is_whole(rt) {
        warn!(ServerLog(rt); "the disk of the store {folder} is full: nothing is taken that has to be kept");
    }
    Ok(reserve)
}

// The folder and its lock, and the names of its files. If the folder is that of a standby, its files are completed first.
fn open_folder<'f, R>(
    rt: &R,
    files: &HostRuntime,
    folder: &'f str,
) -> Result<(OpenFolder, Vec<String>), StoreError<'f>>
where
    R: Runtime<A = Global, File = File>,
{
    let held = match lock_folder(rt, folder) {
        Ok(Some(held)) => held,
        Ok(None) => return Err(StoreError::InUse { folder }),
        Err(cause) => return Err(StoreError::Unopened { folder, cause }),
    };
    let names = match put_back(files, folder, &held.folder) {
        Ok(()) => names_of(rt, folder),
        Err(cause) => Err(cause),
    };
    match names {
        Ok(names) => Ok((held, names)),
        Err(cause) => Err(StoreError::Unopened { folder, cause }),
    }
}

// The pads of these files, and free cells after them.
fn load_row<'f, R>(
    rt: &R,
    files: &HostRuntime,
    folder: &'f str,
    names: Vec<String>,
    owner: &Owner,
    size: Size,
) -> Result<LoadingPads, StoreError<'f>>
where
    R: Runtime<A = Global, File = File> + Threads + Wait + Sync,
{
    let alloc = rt.alloc();
    let reads: Vec<Read<BlockSeq>> = read_all(rt, files, folder, names, owner)?;
    let mut row = LoadingPads {
        seats: size.seats,
        cells: Vec::new(alloc),
        revisions: Vec::new(alloc),
        files: Vec::new(alloc),
        numbers: earlier_numbers(alloc, reads.as_slice(), owner.replica())?,
    };
    for read in reads {
        row.take(alloc, folder, size.cells, read)?;
    }
    let taken = row.cells.len().min(size.cells as usize) as u32;
    for cell in taken..size.cells {
        row.add_free(alloc, owner, cell)?;
    }
    Ok(row)
}

// The pads so far, each with its file.
#[derive(Drop)]
struct LoadingPads {
    /// The number of threads that have a seat at each pad.
    seats: u32,
    cells: Vec<SharedPad<BlockSeq>>,
    revisions: Vec<u64>,
    files: Vec<Mutex<PadEnd>>,
    /// The numbers of the servers that wrote the files, but for this one.
    numbers: Vec<u16>,
}

impl LoadingPads {
    // Adds the pad of a file, if one was named in it and there is room for one more than these cells.
    fn take<'f>(
        &mut self,
        alloc: Global,
        folder: &'f str,
        cells: u32,
        read: Read<BlockSeq>,
    ) -> Result<(), StoreError<'f>> {
        let is_full = self.cells.len() >= cells as usize;
        match read.into_pad() {
            Ok(Some(loaded)) => {
                if is_full {
                    Err(StoreError::TooManyPads { folder })
                } else {
                    Ok(self.add(alloc, loaded)?)
                }
            }
            Ok(None) => Ok(()),
            Err(unloaded) => Err(unloaded.in_folder(folder)),
        }
    }

    // Adds a pad.
    fn add(&mut self, alloc: Global, loaded: PadFile<BlockSeq>) -> Result<(), AllocError> {
        let name = name_of(alloc, &loaded.pad)?;
        let PadFile {
            pad,
            writer,
            length,
        } = loaded;
        let has_file = self.add_file(PadEnd {
            file: None,
            writer,
            name,
            synced: length,
        });
        let has_pad = self.add_pad(alloc, pad);
        has_file.and(has_pad)
    }

    // Adds a cell without a pad.
    fn add_free(&mut self, alloc: Global, owner: &Owner, cell: u32) -> Result<(), AllocError> {
        let writer = PadWriter::new(alloc, String::new(alloc));
        self.add_file(PadEnd {
            file: None,
            writer,
            name: None,
            synced: 0,
        })?;
        let Ok(pad) = Pad::new(alloc, owner.replica(), owner.present()) else {
            return Err(AllocError);
        };
        self.add_pad(alloc, pad)
    }

    // Adds the file of the next cell. Where memory runs out, the start fails.
    fn add_file(&mut self, end: PadEnd) -> Result<(), AllocError> {
        self.files.push(Mutex::new(end))?;
        Ok(())
    }

    // Adds the pad of the next cell.
    fn add_pad(&mut self, alloc: Global, pad: Pad<BlockSeq>) -> Result<(), AllocError> {
        let cell = u32::try_from(self.cells.len()).unwrap_or(u32::MAX);
        let revision = pad.revision();
        let Ok(kept) = LockedPad::new(alloc, pad, self.seats) else {
            return Err(AllocError);
        };
        self.cells.push(SharedPad::new(kept, cell))?;
        self.revisions.push(revision)?;
        Ok(())
    }
}

// The name of a pad, if it has one.
fn name_of(alloc: Global, pad: &Pad<BlockSeq>) -> Result<Option<String>, AllocError> {
    match pad.name() {
        Some(name) => Ok(Some(String::from_str(alloc, name)?)),
        None => Ok(None),
    }
}

// Makes the folder if it is not there, and takes its lock. None: another process has it.
pub(crate) fn lock_folder<R: Runtime<A = Global, File = File>>(
    rt: &R,
    folder: &str,
) -> io::Result<Option<OpenFolder>> {
    let mut builder = DirBuilder::new();
    builder.recursive(true).mode(PRIVATE_FOLDER);
    builder.create(rt, folder)?;
    let path = format!(in rt.alloc(); "{folder}/lock")?;
    let mut options = OpenOptions::new();
    options.write(true).create(true).mode(PRIVATE);
    let lock = options.open(rt, path.as_str())?;
    let open = File::open(rt, folder)?;
    open.sync_all()?;
    match lock.try_lock() {
        Ok(()) => Ok(Some(OpenFolder { lock, folder: open })),
        Err(_) => Ok(None),
    }
}

// The names of the files of pads, in order.
pub(crate) fn names_of<R: Runtime<A = Global, File = File>>(
    rt: &R,
    folder: &str,
) -> io::Result<Vec<String>> {
    let alloc = rt.alloc();
    let mut names = Vec::new(alloc);
    for entry in fs::read_dir(rt, folder)? {
        let entry = entry?;
        if entry.file_name().ends_with(".pad") {
            names.push(String::from_str(alloc, entry.file_name())?)?;
        }
    }
    names.sort()?;
    Ok(names)
}
