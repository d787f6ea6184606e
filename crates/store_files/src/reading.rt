//! The files of a store at the start of the server.
ghost use Rattle.std.specs.Prelude.{◌<◌};

use crate::earlier::add_numbers;
use crate::owner::Owner;
use crate::pad_file::{PadFile, Unloaded, load_file};
use pad_model::Sequence;
use std::alloc::{AllocError, Global};
use std::sync::atomic::{AtomicU64, Ordering};
use std::thread;
use std::thread::Threads;
use std::time::{Clock, Instant};

/// The seconds after which a start prints its progress, and then again each second.
const SILENCE: u64 = 2;

/// A file that is to be read, or was.
#[derive(Drop)]
pub struct Read<S: Sequence> {
    name: String,
    /// None: it was not read yet.
    outcome: Option<Result<Option<PadFile<S>>, Unloaded>>,
    /// The numbers of the servers that wrote it.
    numbers: Vec<u16>,
}

impl<S: Sequence> Read<S> {
    /// The pad of the file; None if no pad was named in it.
    pub fn into_pad(self) -> Result<Option<PadFile<S>>, Unloaded> {
        self.outcome.unwrap_or(Ok(None))
    }
}

/// The progress of a start.
#[derive(Drop)]
struct ReadingTally {
    files: usize,
    began: Option<Instant>,
    read: AtomicU64,
    /// The second in which it was last printed.
    told: AtomicU64,
}

impl ReadingTally {
    // Counts one more file that was read. At most once a second, the count is printed.
    fn note<R: Clock + Eprint>(&self, rt: &R) {
        let read = self.read.fetch_add(1, Ordering::SeqCst).saturating_add(1);
        let Some(Ok(passed)) = self.began.map(|began| began.elapsed(rt)) else {
            return;
        };
        let (second, told) = (passed.as_secs(), self.told.load(Ordering::SeqCst));
        if second > told
            && self
                .told
                .compare_exchange(told, second, Ordering::SeqCst, Ordering::SeqCst)
                .is_ok()
        {
            let files = self.files;
            let _told = eprintln!(rt; "pad_server: {read} of {files} pads are read");
        }
    }
}

/// Reads the files of a folder, in as many threads as there are processors. A start that takes long prints its progress
/// each second.
pub fn read_all<R: Threads + Sync, S: Sequence + Send>(
    rt: &R,
    files: &HostRuntime,
    folder: &str,
    names: Vec<String>,
    owner: &Owner,
) -> Result<Vec<Read<S>>, AllocError> {
    let mut reads = Vec::new(files.alloc());
    for name in names {
        reads.push(Read {
            name,
            outcome: None,
            numbers: Vec::new(files.alloc()),
        })?;
    }
    let tally = ReadingTally {
        files: reads.len(),
        began: Instant::now(files).ok(),
        read: AtomicU64::new(0),
        told: AtomicU64::new(SILENCE - 1),
    };
    let tally = &tally;
    thread::for_each_mut(
        rt,
        reads.as_mut_slice(),
        reading_threads(rt),
        &|_place: usize, read: &mut Read<S>| {
            let name = read.name.as_str();
            read.outcome = Some(load_file(files, folder, name, owner, &mut read.numbers));
            tally.note(files);
        },
    );
    Ok(reads)
}

/// As many threads as there are processors, or one where that is not known.
fn reading_threads<R: Threads>(rt: &R) -> usize
    ensures { 0 < result }
{
    match thread::available_parallelism(rt) {
        Ok(count) => count.get().max(1),
        Err(_) => 1,
    }
}

/// The numbers of the servers that wrote these files, in ascending order, but for this one.
pub fn earlier_numbers<S: Sequence>(
    alloc: Global,
    reads: &[Read<S>],
    own: u16,
) -> Result<Vec<u16>, AllocError> {
    let mut numbers = Vec::new(alloc);
    for read in reads {
        add_numbers(&mut numbers, read.numbers.as_slice())?;
    }
    numbers.retain(|number| *number != own);
    numbers.sort()?;
    Ok(numbers)
}
