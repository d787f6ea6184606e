//! A writer to which nothing is written before the store is synced.
ghost use Rattle.std.specs.Prelude.{◌≡◌, is_some};
ghost use Rattle.std.specs.Io.KnownBytes.{Keeps, WriteAppends};
ghost use Rattle.std.specs.Io.{WritesAtMost};

use crate::keeper::Keeper;
use crate::promised::Promised;
use std::io;
use std::io::Write;

/// A writer whose bytes wait for the sync of a store, if there is one.
#[derive(Drop)]
pub struct Waiting<'a, W> {
    keeper: Option<&'a Keeper>,
    inner: W,
}

impl<'a, W> Waiting<'a, W> {
    /// A writer that waits for this keeper; None: it waits for nothing.
    pub fn new(inner: W, keeper: Option<&'a Keeper>) -> Waiting<'a, W>
        ensures { (result.keeper ≡ keeper.entry) × (result.inner ≡ inner) }
    {
        Waiting { keeper, inner }
    }

    /// The keeper for which it waits.
    pub fn keeper(&self) -> Option<&'a Keeper>
        ensures { result ≡ self.now.keeper }
    {
        self.keeper
    }
}

impl<W: Write> Waiting<'_, W> {
    /// Writes some of these bytes. If it waits for a store, `promised` is that store's promise.
    pub fn write(&mut self, promised: Option<Promised>, bytes: &[u8]) -> io::Result<usize>
        requires { is_some promised ≡ is_some self.old.keeper }
        ensures bound { WritesAtMost result bytes.now }
        ensures bytes { WriteAppends (W.contents self.old.inner) (W.contents self.new.inner) result bytes.now }
    {
        let _kept = promised;
        self.inner.write(bytes)
    }

    /// Passes on the buffered bytes.
    pub fn flush(&mut self) -> io::Result<()>
        ensures { Keeps (W.contents self.old.inner) (W.contents self.new.inner) }
    {
        self.inner.flush()
    }
}
