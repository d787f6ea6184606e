//! A pad's file at the start of the server.
use crate::owner::Owner;
use crate::pieces::load_pieces;
use crate::store_error::StoreError;
use log::warn;
use pad_core::Pad;
use pad_model::Sequence;
use server_log::ServerLog;
use std::alloc::Global;
use std::fs::{File, OpenOptions};
use std::io::ErrorKind;
use std::{fs, io};
use store_format::{Damage, Loaded, PadWriter};

/// The number of files of one pad's name that may be moved aside.
const MOST_ASIDE: u32 = 1_000;

/// A pad that was loaded, with the writer of its file, which is closed.
#[derive(Drop)]
pub struct PadFile<S: Sequence> {
    pub pad: Pad<S>,
    pub writer: PadWriter,
    /// The number of bytes of the file, all of which are synced.
    pub length: u64,
}

/// The reason why a file of a store is refused.
#[derive(Clone, Copy)]
pub enum Unloaded {
    /// It could not be read, cut or moved.
    Untouched(io::Error),
    /// It is damaged, and its line was printed.
    Damaged,
    /// It belongs to a server with this number.
    OtherReplica(u64),
    /// Operations have the number that is to be new.
    UsedReplica(u16),
}

impl Unloaded {
    /// The reason why the server does not start.
    pub fn in_folder(self, folder: &str) -> StoreError<'_> {
        match self {
            Unloaded::Untouched(cause) => StoreError::Unopened { folder, cause },
            Unloaded::Damaged => StoreError::Damaged { folder },
            Unloaded::OtherReplica(replica) => StoreError::OtherReplica { folder, replica },
            Unloaded::UsedReplica(number) => StoreError::UsedReplica { folder, number },
        }
    }
}

impl From<io::Error> for Unloaded {
    fn from(cause: io::Error) -> Unloaded {
        Unloaded::Untouched(cause)
    }
}

/// Loads one pad. Its file is cut after the last line that was read; a file whose pad was never named is moved aside. The
/// numbers of the servers that wrote it are added to `numbers`, each once.
pub fn load_file<S: Sequence>(
    files: &HostRuntime,
    folder: &str,
    name: &str,
    owner: &Owner,
    numbers: &mut Vec<u16>,
) -> Result<Option<PadFile<S>>, Unloaded> {
    let path = path_of(files.alloc(), folder, name)?;
    let pad = name.strip_suffix(".pad").unwrap_or(name);
    match load_pieces(files, path.as_str(), pad, owner, numbers)? {
        Ok(loaded) => Ok(Some(open_own(files, path.as_str(), owner, loaded)?)),
        Err(damage) => {
            pass_over(files, path.as_str(), damage)?;
            Ok(None)
        }
    }
}

// A pad with its file, if the file is this server's, or may become so.
fn open_own<S: Sequence>(
    files: &HostRuntime,
    path: &str,
    owner: &Owner,
    loaded: Loaded<S>,
) -> Result<PadFile<S>, Unloaded> {
    match check_owner(owner, &loaded) {
        Ok(()) => Ok(open_loaded(files, path, owner.replica(), loaded)?),
        Err(unloaded) => Err(unloaded),
    }
}

// Moves a file aside whose pad was never named. Any other damage is printed, and is an error.
fn pass_over(files: &HostRuntime, path: &str, damage: Damage) -> Result<(), Unloaded> {
    if let Damage::Empty = damage {
        return Ok(move_aside(files, path)?);
    }
    let _told = eprintln!(files; "pad_server: {path}: {damage}");
    Err(Unloaded::Damaged)
}

fn path_of(alloc: Global, folder: &str, name: &str) -> io::Result<String> {
    Ok(format!(in alloc; "{folder}/{name}")?)
}

// Checks that a pad's file is this server's, or may become so: if the number is new, no operation has it.
fn check_owner<S: Sequence>(owner: &Owner, loaded: &Loaded<S>) -> Result<(), Unloaded> {
    let replica = loaded.header.replica;
    if replica == u64::from(owner.replica()) {
        return Ok(());
    }
    if !owner.is_new() {
        return Err(Unloaded::OtherReplica(replica));
    }
    let number = owner.replica();
    if loaded.pad.count(number) > 0 {
        return Err(Unloaded::UsedReplica(number));
    }
    Ok(())
}

// Moves aside a file whose pad was never named, to a name that no file has.
fn move_aside(files: &HostRuntime, path: &str) -> io::Result<()> {
    for number in 1..=MOST_ASIDE {
        let aside = format!(in files.alloc(); "{path}.unnamed-{number}")?;
        if !fs::exists(files, aside.as_str())? {
            warn!(ServerLog(files); "{path}: it holds no pad, and is moved to {aside}");
            return fs::rename(files, path, aside.as_str());
        }
    }
    Err(io::Error::from(ErrorKind::AlreadyExists))
}

// A pad with the end of its file, which is cut after the last line that was read.
fn open_loaded<S: Sequence>(
    files: &HostRuntime,
    path: &str,
    replica: u16,
    loaded: Loaded<S>,
) -> io::Result<PadFile<S>> {
    let cut = loaded.cut;
    if cut > 0 {
        warn!(ServerLog(files); "{path}: dropped the last {cut} bytes, which an interrupted write left; nothing that was synced is lost");
    }
    let FileEnd { writer, length } = end_of(files, path, replica, &loaded)?;
    Ok(PadFile {
        pad: loaded.pad,
        writer,
        length,
    })
}

// The end of a pad's file, where lines are appended.
#[derive(Drop)]
struct FileEnd {
    writer: PadWriter,
    length: u64,
}

// Cuts the file from which a pad was loaded. A server with a new number begins with a header.
fn end_of<S: Sequence>(
    files: &HostRuntime,
    path: &str,
    replica: u16,
    loaded: &Loaded<S>,
) -> io::Result<FileEnd> {
    let alloc = files.alloc();
    let mut file = open_file(files, path, loaded.whole)?;
    let mut writer = PadWriter::new(alloc, loaded.sum.to_string(alloc)?);
    if loaded.header.replica != u64::from(replica) {
        writer.begin(alloc, &loaded.header.pad, replica)?;
        writer.write(alloc, &mut file)?;
        file.sync_all()?;
    }
    let length = file.metadata()?.len();
    Ok(FileEnd { writer, length })
}

// Opens a file for appending after its whole lines.
fn open_file(files: &HostRuntime, path: &str, whole: u64) -> io::Result<File> {
    let mut options = OpenOptions::new();
    options.read(true).append(true);
    let file = options.open(files, path)?;
    file.set_len(whole)?;
    file.sync_all()?;
    Ok(file)
}
