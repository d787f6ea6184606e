//! The log of a standby: the stretches of files that it was sent since the files were last synced. One sync of the log
//! keeps a whole round, whatever number of pads it is of; the files themselves are written after it, and synced from
//! time to time.
ghost use Rattle.std.specs.Prelude.{◌≡◌, None, OnOk};
ghost use Rattle.std.specs.Io.KnownBytes.{Appends};
ghost use Rattle.file_copies.specs.Rounds.{round_bytes};

use crate::spares::PRIVATE;
use crate::sums::sum_before;
use file_copies::{FileStretch, NoStretch, PadCopy, StandbyRequest, round_text};
use group_commit::Device;
use log::info;
use pad_model::{Name, Refusal};
use server_log::ServerLog;
use std::alloc::Global;
use std::fs::{File, OpenOptions};
use std::io::{ErrorKind, Write};
use std::os::unix::fs::OpenOptionsExt;
use std::{fs, io};

/// The name of the log in the store's folder.
const ROUNDS: &str = "rounds";

/// The number of bytes of the log from which on the files are synced and the log is emptied.
const LONGEST: u64 = 16_777_216;

/// A round is in the log of a standby, and the log is synced. Only `log_round` says so.
#[derive(Drop)]
pub struct Logged {
    // The number of its bytes.
    bytes: u64,
}

/// Appends a round to a log, and syncs it.
pub fn log_round<D: Device>(alloc: Global, log: &mut D, round: &[FileStretch]) -> io::Result<Logged>
    ensures bytes { OnOk result (Appends (D.contents log.old) (D.contents log.new) (round_bytes round.now)) }
    ensures synced { OnOk result (D.synced log.new ≡ D.contents log.new) }
{
    let bytes = round_text(alloc, round)?;
    log.write_all(bytes.as_slice())?;
    log.sync()?;
    Ok(Logged {
        bytes: bytes.len() as u64,
    })
}

// The file of a log.
#[derive(Drop)]
struct LogFile {
    file: File,
}

impl Write for LogFile {
    ghost contents = { λ _. None };

    fn write(&mut self, bytes: &[u8]) -> io::Result<usize> {
        self.file.write(bytes)
    }

    fn flush(&mut self) -> io::Result<()> {
        self.file.flush()
    }
}

impl Device for LogFile {
    ghost synced = { λ _. None };

    fn sync(&mut self) -> io::Result<()> {
        self.file.sync_data()
    }
}

/// The log, open for appending.
#[derive(Drop)]
pub struct RoundLog {
    log: LogFile,
    length: u64,
}

impl RoundLog {
    /// The log of this folder, which `put_back` has emptied.
    pub fn open(files: &HostRuntime, folder: &str) -> io::Result<RoundLog> {
        let path = format!(in files.alloc(); "{folder}/{ROUNDS}")?;
        let mut options = OpenOptions::new();
        options.append(true).create(true).mode(PRIVATE);
        let file = options.open(files, path.as_str())?;
        file.set_len(0)?;
        file.sync_all()?;
        Ok(RoundLog {
            log: LogFile { file },
            length: 0,
        })
    }

    /// Appends a round, and syncs it. If that fails, the log is restored, as far as the system allows.
    pub fn append(&mut self, alloc: Global, round: &[FileStretch]) -> io::Result<Logged> {
        match log_round(alloc, &mut self.log, round) {
            Ok(logged) => {
                self.length = self.length.saturating_add(logged.bytes);
                Ok(logged)
            }
            Err(cause) => {
                self.log.file.set_len(self.length)?;
                Err(cause)
            }
        }
    }

    /// Returns true if the files should be synced and the log emptied.
    pub fn is_long(&self) -> bool {
        self.length >= LONGEST
    }

    /// Empties the log. Everything that it holds has to be in the files, and these synced.
    pub fn clear(&mut self) -> io::Result<()> {
        self.log.file.set_len(0)?;
        self.length = 0;
        self.log.file.sync_all()
    }
}

/// Puts the stretches of a log into the files of pads, syncs them, and removes the log: a crash may have left any part of
/// them unwritten. It is called before the files are read, by a standby and by a server that takes over its store.
pub fn put_back(files: &HostRuntime, folder: &str, open: &File) -> io::Result<()> {
    let alloc = files.alloc();
    let path = format!(in alloc; "{folder}/{ROUNDS}")?;
    if !fs::exists(files, path.as_str())? {
        return Ok(());
    }
    let log = fs::read(files, path.as_str())?;
    let mut put = PutBack {
        files,
        folder,
        begun: Vec::new(alloc),
    };
    let mut rest = log.as_slice();
    // A stretch has a line at least, so there are fewer of them than bytes.
    for _ in 0..log.len() {
        let Some((stretch, after)) = next_stretch(alloc, rest)? else {
            break;
        };
        // One that does not continue its file is of a round that was not confirmed, or its file was taken away. The others
        // are put back all the same.
        let _is_put = put.put(alloc, &stretch)?;
        rest = after;
    }
    put.sync()?;
    open.sync_all()?;
    let count = put.begun.len();
    if count > 0 {
        info!(ServerLog(files); "the store {folder}: the files of {count} pads were completed from the log of the standby");
    }
    fs::remove_file(files, path.as_str())?;
    open.sync_all()
}

// The first stretch of these bytes, and the bytes after it. None: a crash cut it off, or there is none.
fn next_stretch<'a>(alloc: Global, bytes: &'a [u8]) -> io::Result<Option<(FileStretch, &'a [u8])>> {
    let Some(end) = bytes.iter().position(|byte| *byte == b'\n') else {
        return Ok(None);
    };
    let (pad, from, count) = match StandbyRequest::read(alloc, &bytes[..end]) {
        Ok(StandbyRequest::Keep { pad, from, bytes }) => (pad, from, bytes),
        Ok(_) => return Ok(None),
        Err(Refusal::Memory) => return Err(io::Error::from(ErrorKind::OutOfMemory)),
        Err(_) => return Ok(None),
    };
    let behind = &bytes[end + 1..];
    if !pad.is_well_formed() || count > behind.len() as u64 {
        return Ok(None);
    }
    let count = count as usize;
    let mut lines = Vec::new(alloc);
    lines.extend_from_slice(&behind[..count])?;
    Ok(Some((FileStretch { pad, from, lines }, &behind[count..])))
}

// A file into which stretches are put back.
#[derive(Drop)]
struct BegunFile {
    pad: Name,
    copy: PadCopy,
    file: File,
}

// The files into which stretches are put back.
#[derive(Drop)]
struct PutBack<'a> {
    files: &'a HostRuntime,
    folder: &'a str,
    begun: Vec<BegunFile>,
}

impl PutBack<'_> {
    // Puts a stretch into its file, which is cut off before the first one. Returns false where it is not linked to what the
    // file has, and then changes nothing.
    fn put(&mut self, alloc: Global, stretch: &FileStretch) -> io::Result<bool> {
        let place = match self
            .begun
            .iter()
            .position(|begun| begun.pad.is(stretch.pad.as_str()))
        {
            Some(place) => place,
            None => {
                let Some(begun) = self.begin(alloc, stretch)? else {
                    return Ok(false);
                };
                self.begun.push(begun)?;
                self.begun.len() - 1
            }
        };
        let Some(begun) = self.begun.get_mut(place) else {
            return Ok(false);
        };
        match begun
            .copy
            .followed_by(alloc, stretch.from, stretch.lines.as_slice())
        {
            Ok(copy) => {
                begun.file.set_len(stretch.from)?;
                begun.file.write_all(stretch.lines.as_slice())?;
                begun.copy = copy;
                Ok(true)
            }
            Err(NoStretch::Memory) => Err(io::Error::from(ErrorKind::OutOfMemory)),
            Err(_) => Ok(false),
        }
    }

    // Opens the file of a stretch. None: the file is too short for the stretch.
    fn begin(&self, alloc: Global, stretch: &FileStretch) -> io::Result<Option<BegunFile>> {
        let (folder, pad) = (self.folder, stretch.pad.as_str());
        let path = format!(in alloc; "{folder}/{pad}.pad")?;
        let mut options = OpenOptions::new();
        options.read(true).append(true).create(true).mode(PRIVATE);
        let file = options.open(self.files, path.as_str())?;
        let Some(sum) = sum_before(alloc, &file, stretch.from)? else {
            return Ok(None);
        };
        Ok(Some(BegunFile {
            pad: stretch.pad.clone()?,
            copy: PadCopy::new(stretch.from, sum),
            file,
        }))
    }

    // Syncs the files.
    fn sync(&self) -> io::Result<()> {
        for begun in &self.begun {
            begun.file.sync_all()?;
        }
        Ok(())
    }
}
