//! Devices over std's readers and writers, by single calls.
ghost use Rattle.std.specs.Prelude.{◌≡◌};
ghost use Rattle.wire_lines.specs.Device.{one_more};

use crate::device::{ReadError, Sink, Source, WriteError};
use std::io::{ErrorKind, Read, Write};

/// A reader or a writer of std as a `Source` or a `Sink`. An interrupted write counts as failed.
#[derive(Drop)]
pub struct Std<T> {
    inner: T,
    failures: u64,
    reads: u64,
}

impl<T> Std<T> {
    ghost use Rattle.wire_lines.specs.Devices.{std_inner};

    /// Wraps a reader or a writer, with no failed calls.
    pub fn new(inner: T) -> Std<T>
        ensures inner { std_inner result ≡ inner }
        ensures counts { (result.failures ≡ 0) × (result.reads ≡ 0) }
    {
        Std {
            inner,
            failures: 0,
            reads: 0,
        }
    }

    /// Returns the wrapped reader or writer.
    pub fn into_inner(self) -> T
        ensures { result ≡ std_inner self }
    {
        let Std { inner, .. } = self;
        inner
    }
}

// One more, at most the greatest `u64`.
fn one_more(failures: u64) -> u64
    ensures { result ≡ one_more failures }
{
    failures.saturating_add(1)
}

impl<R: Read> Source for Std<R> {
    ghost remaining = { λ s. R.remaining s.inner };

    ghost failures = { λ s. s.failures };

    ghost reads = { λ s. s.reads };

    fn read(&mut self, buffer: &mut [u8]) -> Result<usize, ReadError> {
        self.reads = one_more(self.reads);
        match self.inner.read(buffer) {
            Ok(count) => Ok(count),
            Err(error) if error.kind() == ErrorKind::Interrupted => Err(ReadError::Interrupted),
            Err(_) => {
                self.failures = one_more(self.failures);
                Err(ReadError::Failed)
            }
        }
    }
}

impl<W: Write> Sink for Std<W> {
    ghost contents = { λ s. W.contents s.inner };

    ghost failures = { λ s. s.failures };

    fn write(&mut self, bytes: &[u8]) -> Result<usize, WriteError> {
        match self.inner.write(bytes) {
            Ok(0) if !bytes.is_empty() => {
                self.failures = one_more(self.failures);
                Ok(0)
            }
            Ok(count) => Ok(count),
            Err(_) => {
                self.failures = one_more(self.failures);
                Err(WriteError)
            }
        }
    }

    fn flush(&mut self) -> Result<(), WriteError> {
        match self.inner.flush() {
            Ok(()) => Ok(()),
            Err(_) => {
                self.failures = one_more(self.failures);
                Err(WriteError)
            }
        }
    }
}
