//! The bell that wakes a waiting thread, and the changes that the thread learns of.
use cell_set::CellSet;
use crossbeam_channel::{Receiver, Sender};
use std::alloc::{AllocError, Global};
use std::sync::Wait;
use std::sync::atomic::{AtomicBool, Ordering};
use std::time::{Clock, Duration};

/// Wakes a thread, and keeps the cells whose pads have changed since it last looked. Other threads ring the bell. If it
/// was already rung and the thread has not yet looked, that is enough: its next round serves both.
#[derive(Drop)]
pub struct Bell {
    moved: CellSet,
    is_last: AtomicBool,
    to: Sender<()>,
    from: Receiver<()>,
}

impl Bell {
    /// A bell for a server with this many cells, none of which has changed; 0 for a bell that only wakes.
    pub fn new(alloc: Global, cells: usize) -> Result<Bell, AllocError> {
        let (to, from) = crossbeam_channel::bounded(alloc, 1)?;
        Ok(Bell {
            moved: CellSet::new(alloc, cells)?,
            is_last: AtomicBool::new(false),
            to,
            from,
        })
    }

    // Notes that the pad of a cell has changed, or was created.
    pub(crate) fn note(&self, cell: u32) {
        self.moved.insert(cell);
    }

    // The cells that were noted. The thread removes them.
    pub(crate) fn moved(&self) -> &CellSet {
        &self.moved
    }

    // Wakes the thread.
    pub(crate) fn ring<R: Wait>(&self, rt: &R) {
        let _waits_already = self.to.try_send(rt, ());
    }

    /// Wakes the thread for the last time: it ends after the work that it does then.
    pub fn ring_last<R: Wait>(&self, rt: &R) {
        self.is_last.store(true, Ordering::SeqCst);
        self.ring(rt);
    }

    /// Returns true if the bell was rung for the last time.
    pub fn is_last(&self) -> bool {
        self.is_last.load(Ordering::SeqCst)
    }

    /// Waits until the bell is rung, or for this many seconds. Only the thread that it wakes may call this.
    pub fn wait<R: Wait + Clock>(&self, rt: &R, seconds: u64) {
        let _in_time = self.from.recv_timeout(rt, Duration::from_secs(seconds));
    }
}
