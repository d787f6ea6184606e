//! Readers and writers, which may transfer fewer bytes than asked, be interrupted, or fail.
ghost use Rattle.std.specs.Prelude.{◌≡◌, ℕ, ◌≤◌, Bool, true, List, Option, None, IfOk, IfSome, OnOk, length};
ghost use Rattle.std.specs.Io.KnownBytes.{Keeps, ReadConsumes, WriteAppends};
ghost use Rattle.wire_lines.specs.Device.{after_read, after_write, after_flush, one_more};

/// The reason why a read gave no bytes.
#[derive(Clone, Copy, Debug, PartialEq, Eq)]
pub enum ReadError {
    /// The read was interrupted and can be repeated.
    Interrupted,
    /// The reader failed.
    Failed,
}

/// A writer failed.
#[derive(Clone, Copy, Debug, PartialEq, Eq)]
pub struct WriteError;

/// Bytes that come in.
pub trait Source {
    /// The bytes that reads will give from now on, if they are known.
    ghost remaining: { Self → Option (List ℕ) };

    /// The number of failed calls, at most the greatest `u64`.
    ghost failures: { Self → ℕ };

    /// The number of calls, at most the greatest `u64`.
    ghost reads: { Self → ℕ };

    /// Reads once. It returns 0 only at the end, or if the buffer is empty.
    fn read(&mut self, buffer: &mut [u8]) -> Result<usize, ReadError>
        ensures bound { IfOk result (λ count. count ≤ length buffer.new) }
        ensures bytes { ReadConsumes (remaining self.old) (remaining self.new) result buffer.new }
        ensures failures { failures self.new ≡ after_read result (failures self.old) }
        ensures reads { reads self.new ≡ one_more (reads self.old) };
}

/// Bytes that go out.
pub trait Sink {
    /// The bytes that were written, if they are known.
    ghost contents: { Self → Option (List ℕ) };

    /// The number of calls that failed or took none of the bytes offered, at most the greatest `u64`.
    ghost failures: { Self → ℕ };

    /// True if everything that was written has been sent on; None where the writer does not say.
    ghost is_sent: { Self → Option Bool } = { λ _. None };

    /// Writes once, and returns how many of the bytes were taken.
    fn write(&mut self, bytes: &[u8]) -> Result<usize, WriteError>
        ensures bound { IfOk result (λ count. count ≤ length bytes.now) }
        ensures bytes { WriteAppends (contents self.old) (contents self.new) result bytes.now }
        ensures failures { failures self.new ≡ after_write result bytes.now (failures self.old) };

    /// Sends on what was written.
    fn flush(&mut self) -> Result<(), WriteError>
        ensures bytes { Keeps (contents self.old) (contents self.new) }
        ensures failures { failures self.new ≡ after_flush result (failures self.old) }
        ensures sent { OnOk result (IfSome (is_sent self.new) (λ sent. sent ≡ true)) };
}

impl<S: Source> Source for &mut S {
    ghost remaining = { λ s. S.remaining s.now };

    ghost failures = { λ s. S.failures s.now };

    ghost reads = { λ s. S.reads s.now };

    fn read(&mut self, buffer: &mut [u8]) -> Result<usize, ReadError> {
        Source::read(&mut **self, buffer)
    }
}
