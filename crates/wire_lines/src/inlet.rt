//! Reads of a source, one at a time.
ghost use Rattle.std.specs.Prelude.{◌≡◌, ◌+◌, ◌≤◌, false, [], length, IfOk, IfErr, OnOk, OnErr};
ghost use Rattle.std.specs.Bool.{OnTrue};
ghost use Rattle.std.specs.Io.KnownBytes.{Keeps, IsAtEnd, prepend_known};
ghost use Rattle.wire_lines.specs.Causes.{AreCounted, HasCause};
ghost use Rattle.wire_lines.specs.declared.fault.Fault.TheVariants.{Memory};

use crate::device::{ReadError, Source};
use crate::fault::Fault;
use std::alloc::Global;
use std::marker::Model;

/// The most reads that one inlet makes: 2^32.
pub const MAX_READS: u64 = 4_294_967_296;

/// The most bytes that one read gives: 64 KiB.
pub const CHUNK: usize = 65_536;

/// The bytes of the last read of a source, and the number of reads.
#[derive(Drop)]
pub struct Inlet {
    chunk: Vec<u8>,
    count: usize,
    reads: u64,
    ended: bool,
}

impl Model for Inlet {
    ghost use Rattle.std.specs.Prelude.{take};
    ghost use Rattle.wire_lines.specs.Splitter.{Come};
    ghost use Rattle.wire_lines.specs.Inside.{IsInlet};

    ghost Value = { Come };

    ghost view = { λ i. record {
      bytes = take i.count i.chunk.items;
      reads = i.reads;
      ended = i.ended;
    } };

    ghost invariant = { λ i. IsInlet i.chunk.items i.count i.reads };
}

impl Inlet {
    /// An inlet that has read nothing.
    pub fn new(alloc: Global) -> Result<Inlet, Fault>
        ensures made { IfOk result (λ inlet. inlet
            ≡ record { bytes = []; reads = 0; ended = false }) }
        ensures err { IfErr result (λ fault. fault ≡ Memory) }
    {
        let mut chunk = Vec::new(alloc);
        chunk.resize(CHUNK, 0)?;
        Ok(Inlet {
            chunk,
            count: 0,
            reads: 0,
            ended: false,
        })
    }

    /// The bytes that the last read gave.
    pub fn bytes(&self) -> &[u8]
        ensures { result.now ≡ self.now.bytes }
    {
        let count = self.count;
        &self.chunk[..count]
    }

    /// Returns true if the source is at its end.
    pub fn has_ended(&self) -> bool
        ensures { result ≡ self.now.ended }
    {
        self.ended
    }

    /// Reads once. An interrupted read gives no bytes. After `MAX_READS` reads it returns `ReadFault` without reading.
    pub fn read<R: Source>(&mut self, source: &mut R) -> Result<(), Fault>
        requires going { self.old.ended ≡ false }
        ensures bytes { Keeps (R.remaining source.old)
            (prepend_known self.new.bytes (R.remaining source.new)) }
        ensures most { length self.new.bytes ≤ CHUNK }
        ensures end { OnTrue self.new.ended (IsAtEnd (R.remaining source.new)) }
        ensures err { OnErr result ((self.new.bytes ≡ []) × (self.new.ended ≡ false)) }
        ensures few { self.new.reads ≤ MAX_READS }
        ensures one { OnOk result (self.new.reads ≡ self.old.reads + 1) }
        ensures cause { HasCause result (R.failures source.old) (R.failures source.new)
            self.new.reads }
        ensures counted { AreCounted result (R.reads source.old) (R.reads source.new) self.old.reads
            self.new.reads }
    {
        self.count = 0;
        if self.reads >= MAX_READS {
            return Err(Fault::ReadFault);
        }
        self.reads += 1;
        match source.read(self.chunk.as_mut_slice()) {
            Ok(0) => {
                self.ended = true;
                Ok(())
            }
            Ok(count) => {
                self.count = count;
                Ok(())
            }
            Err(ReadError::Interrupted) => Ok(()),
            Err(ReadError::Failed) => Err(Fault::ReadFault),
        }
    }
}
