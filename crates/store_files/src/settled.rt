//! Lines that go out after the store is synced.
use crate::keeper::Keeper;
use crate::waiting::Waiting;
use std::io;
use std::io::Write;
use std::sync::Wait;
use std::time::Clock;

/// A writer that lets a line out only after everything noted before it is synced.
#[derive(Drop)]
pub struct Settled<'a, W, R> {
    rt: &'a R,
    waiting: Waiting<'a, W>,
}

impl<'a, W, R> Settled<'a, W, R> {
    /// A writer that waits for this keeper; None: it waits for nothing. Once a sync has failed, each write fails.
    pub fn new(rt: &'a R, inner: W, keeper: Option<&'a Keeper>) -> Settled<'a, W, R> {
        Settled {
            rt,
            waiting: Waiting::new(inner, keeper),
        }
    }
}

impl<W: Write, R: Wait + Clock> Write for Settled<'_, W, R> {
    ghost contents = { λ s. W.contents s.waiting.inner };

    fn write(&mut self, bytes: &[u8]) -> io::Result<usize> {
        let promised = match self.waiting.keeper() {
            Some(keeper) => Some(keeper.settle(self.rt)?),
            None => None,
        };
        self.waiting.write(promised, bytes)
    }

    fn flush(&mut self) -> io::Result<()> {
        self.waiting.flush()
    }
}
