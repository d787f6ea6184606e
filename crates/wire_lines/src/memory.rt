//! Devices over memory, for tests, which transfer bytes in pieces, are interrupted, or fail at a chosen call.
ghost use Rattle.std.specs.Prelude.{◌≡◌, ◌⊎◌, ◌+◌, ◌≤◌, ◌<◌, [], Some, true, false, IfOk, IsOk, IsErr, min, length, take, drop};
ghost use Rattle.std.specs.Io.KnownBytes.{ReadConsumes, WriteAppends};
ghost use Rattle.wire_lines.specs.Device.{after_read, after_write, one_more};

use crate::device::{ReadError, Sink, Source, WriteError};
use std::alloc::Global;

/// A reader over bytes in memory.
#[derive(Drop)]
pub struct Input<'a> {
    rest: &'a [u8],
    piece: usize,
    is_interrupted: bool,
    fails_at: u64,
    calls: u64,
    failures: u64,
    ghost some: { 0 < piece },
}

impl<'a> Input<'a> {
    ghost use Rattle.wire_lines.specs.Devices.{input_rest, input_settings};

    /// A reader that fills each buffer and does not fail.
    pub fn new(bytes: &'a [u8]) -> Input<'a>
        ensures bytes { input_rest result ≡ bytes.now }
        ensures settings { input_settings result
            ≡ record { piece = usize.MAX; is_interrupted = false; fails_at = 0 } }
        ensures counts { (result.calls ≡ 0) × (result.failures ≡ 0) }
    {
        Input {
            rest: bytes,
            piece: usize::MAX,
            is_interrupted: false,
            fails_at: 0,
            calls: 0,
            failures: 0,
        }
    }

    /// Gives at most `piece` bytes in each read.
    pub fn in_pieces(mut self, piece: usize) -> Input<'a>
        requires { 0 < piece }
        ensures bytes { input_rest result ≡ input_rest self.entry }
        ensures settings { input_settings result
            ≡ record (input_settings self.entry) { piece = piece } }
        ensures counts { (result.calls ≡ self.entry.calls)
            × (result.failures ≡ self.entry.failures) }
    {
        self.piece = piece;
        self
    }

    /// Interrupts each read once before it gives bytes.
    pub fn interrupted(mut self) -> Input<'a>
        ensures bytes { input_rest result ≡ input_rest self.entry }
        ensures settings { input_settings result
            ≡ record (input_settings self.entry) { is_interrupted = true } }
        ensures counts { (result.calls ≡ self.entry.calls)
            × (result.failures ≡ self.entry.failures) }
    {
        self.is_interrupted = true;
        self
    }

    /// Makes one read fail; reads are counted from 1.
    pub fn failing_at(mut self, call: u64) -> Input<'a>
        ensures bytes { input_rest result ≡ input_rest self.entry }
        ensures settings { input_settings result
            ≡ record (input_settings self.entry) { fails_at = call } }
        ensures counts { (result.calls ≡ self.entry.calls)
            × (result.failures ≡ self.entry.failures) }
    {
        self.fails_at = call;
        self
    }
}

impl Source for Input<'_> {
    ghost use Rattle.wire_lines.specs.Devices.{input_answer, input_rest, input_settings};

    ghost remaining = { λ i. Some i.rest.now };

    ghost failures = { λ i. i.failures };

    ghost reads = { λ i. i.calls };

    fn read(&mut self, buffer: &mut [u8]) -> Result<usize, ReadError>
        ensures bound { IfOk result (λ count. count ≤ length buffer.new) }
        ensures bytes { ReadConsumes (Some (input_rest self.old)) (Some (input_rest self.new))
            result buffer.new }
        ensures failures { self.new.failures ≡ after_read result self.old.failures }
        ensures reads { self.new.calls ≡ one_more self.old.calls }
        ensures answer { result ≡ input_answer self.old (length buffer.old) }
        ensures settings { input_settings self.new ≡ input_settings self.old }
    {
        self.calls = one_more(self.calls);
        if self.calls == self.fails_at {
            self.failures = one_more(self.failures);
            return Err(ReadError::Failed);
        }
        if self.is_interrupted && self.calls % 2 == 1 {
            return Err(ReadError::Interrupted);
        }
        let count = self.piece.min(self.rest.len()).min(buffer.len());
        copy_front(self.rest, buffer, count);
        self.rest = &self.rest[count..];
        Ok(count)
    }
}

// Copies the first `count` bytes over the front of the buffer.
fn copy_front(bytes: &[u8], buffer: &mut [u8], count: usize)
    requires bytes { count ≤ length bytes.now }
    requires room { count ≤ length buffer.old }
    ensures { take count buffer.new ≡ take count bytes.now }
{
    buffer[..count].copy_from_slice(&bytes[..count]);
}

// One more, at most the greatest `u64`.
fn one_more(calls: u64) -> u64
    ensures { result ≡ one_more calls }
{
    calls.saturating_add(1)
}

/// A writer into memory.
#[derive(Drop)]
pub struct Output {
    bytes: Vec<u8>,
    piece: usize,
    fails_at: u64,
    calls: u64,
    failures: u64,
}

impl Output {
    ghost use Rattle.wire_lines.specs.Devices.{output_bytes, output_settings};

    /// An empty writer, which takes all bytes of a call and fails only if memory runs out.
    pub fn new(alloc: Global) -> Output
        ensures bytes { output_bytes result ≡ [] }
        ensures settings { output_settings result
            ≡ record { piece = usize.MAX; is_interrupted = false; fails_at = 0 } }
        ensures counts { (result.calls ≡ 0) × (result.failures ≡ 0) }
    {
        Output {
            bytes: Vec::new(alloc),
            piece: usize::MAX,
            fails_at: 0,
            calls: 0,
            failures: 0,
        }
    }

    /// Takes at most `piece` bytes in each write, which may be 0.
    pub fn in_pieces(mut self, piece: usize) -> Output
        ensures bytes { output_bytes result ≡ output_bytes self }
        ensures settings { output_settings result
            ≡ record (output_settings self) { piece = piece } }
        ensures counts { (result.calls ≡ self.calls) × (result.failures ≡ self.failures) }
    {
        self.piece = piece;
        self
    }

    /// Makes one write fail; writes are counted from 1.
    pub fn failing_at(mut self, call: u64) -> Output
        ensures bytes { output_bytes result ≡ output_bytes self }
        ensures settings { output_settings result
            ≡ record (output_settings self) { fails_at = call } }
        ensures counts { (result.calls ≡ self.calls) × (result.failures ≡ self.failures) }
    {
        self.fails_at = call;
        self
    }

    /// The bytes that were written.
    pub fn bytes(&self) -> &[u8]
        ensures { result.now ≡ output_bytes self.now }
    {
        &self.bytes
    }
}

impl Sink for Output {
    ghost use Rattle.wire_lines.specs.Devices.{output_answer, output_bytes, output_settings};

    ghost contents = { λ o. Some o.bytes.items };

    ghost failures = { λ o. o.failures };

    ghost is_sent = { λ _. Some true };

    fn write(&mut self, bytes: &[u8]) -> Result<usize, WriteError>
        ensures bound { IfOk result (λ count. count ≤ length bytes.now) }
        ensures bytes { WriteAppends (Some (output_bytes self.old)) (Some (output_bytes self.new))
            result bytes.now }
        ensures failures { self.new.failures ≡ after_write result bytes.now self.old.failures }
        ensures answer { IsErr result ⊎ (result ≡ output_answer self.old (length bytes.now)) }
        ensures calls { self.new.calls ≡ one_more self.old.calls }
        ensures settings { output_settings self.new ≡ output_settings self.old }
    {
        self.calls = one_more(self.calls);
        let count = self.piece.min(bytes.len());
        if self.calls == self.fails_at || self.bytes.extend_from_slice(&bytes[..count]).is_err() {
            self.failures = one_more(self.failures);
            return Err(WriteError);
        }
        if count == 0 && !bytes.is_empty() {
            self.failures = one_more(self.failures);
        }
        Ok(count)
    }

    fn flush(&mut self) -> Result<(), WriteError>
        ensures done { IsOk result }
        ensures same { self.new ≡ self.old }
    {
        Ok(())
    }
}
