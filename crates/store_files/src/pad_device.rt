//! A pad's file as its writer sees it: when the disk is full, it gets the room of the reserve.
ghost use Rattle.std.specs.Prelude.{None};

use crate::reserve::{Reserve, is_full};
use group_commit::Device;
use log::warn;
use server_counts::Histogram;
use server_log::ServerLog;
use std::fs::File;
use std::io;
use std::io::Write;
use std::sync::Wait;
use std::time::{Duration, Instant};

/// A pad's file, and the reserve of its store.
#[derive(Drop)]
pub struct PadDevice<'r, 's, 'f, R> {
    pub rt: &'r R,
    /// Logs that the disk is full.
    pub files: &'s HostRuntime,
    pub folder: &'s str,
    pub reserve: &'s Reserve,
    /// Counts how long the syncs take.
    pub syncs: &'s Histogram,
    pub file: &'f mut File,
}

/// Spends the reserve of a store, whose disk is full.
pub fn make_room<R: Wait>(
    rt: &R,
    files: &HostRuntime,
    folder: &str,
    reserve: &Reserve,
) -> io::Result<()> {
    if reserve.spend(rt)? {
        warn!(ServerLog(files); "the disk of the store {folder} is full: edits, joins and grants are refused (901) until there is space");
    }
    Ok(())
}

impl<R: Wait> Write for PadDevice<'_, '_, '_, R> {
    ghost contents = { λ _. None };

    fn write(&mut self, bytes: &[u8]) -> io::Result<usize> {
        match self.file.write(bytes) {
            Err(cause) if is_full(&cause) => {
                make_room(self.rt, self.files, self.folder, self.reserve)?;
                self.file.write(bytes)
            }
            done => done,
        }
    }

    fn flush(&mut self) -> io::Result<()> {
        self.file.flush()
    }
}

impl<R: Wait> Device for PadDevice<'_, '_, '_, R> {
    ghost synced = { λ _. None };

    fn sync(&mut self) -> io::Result<()> {
        let began = Instant::now(self.files);
        let done = self.file.sync_data();
        if let (Ok(began), Ok(now)) = (began, Instant::now(self.files)) {
            self.syncs
                .note(micros(now.saturating_duration_since(began)));
        }
        done
    }
}

// The microseconds of a duration.
fn micros(time: Duration) -> u64 {
    time.as_secs()
        .saturating_mul(1_000_000)
        .saturating_add(u64::from(time.subsec_micros()))
}
