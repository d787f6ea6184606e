//! A reader or a writer that remembers why it failed.
ghost use Rattle.std.specs.Prelude.{◌≡◌};

use std::io;
use std::io::{ErrorKind, Read, Write};

/// A reader or a writer of std, with the error of its last failed call. An interruption is not a failure.
#[derive(Drop)]
pub struct Watched<T> {
    inner: T,
    cause: Option<io::Error>,
}

impl<T> Watched<T> {
    /// Wraps a reader or a writer of std, with no failed calls.
    pub fn new(inner: T) -> Watched<T> {
        Watched { inner, cause: None }
    }

    /// The error of the last failed call. None if no call has failed, or a write took no bytes.
    pub fn cause(&self) -> Option<io::Error>
        ensures { result ≡ self.now.cause }
    {
        self.cause
    }

    // Remembers the error of a failed call.
    fn note<R>(&mut self, outcome: &io::Result<R>)
        ensures { self.new.inner ≡ self.old.inner }
    {
        if let Err(error) = outcome {
            if error.kind() != ErrorKind::Interrupted {
                self.cause = Some(*error);
            }
        }
    }
}

impl<R: Read> Read for Watched<R> {
    ghost remaining = { λ s. R.remaining s.inner };

    fn read(&mut self, buffer: &mut [u8]) -> io::Result<usize> {
        let result = self.inner.read(buffer);
        self.note(&result);
        result
    }
}

impl<W: Write> Write for Watched<W> {
    ghost contents = { λ s. W.contents s.inner };

    fn write(&mut self, bytes: &[u8]) -> io::Result<usize> {
        let result = self.inner.write(bytes);
        self.note(&result);
        result
    }

    fn flush(&mut self) -> io::Result<()> {
        let result = self.inner.flush();
        self.note(&result);
        result
    }
}
