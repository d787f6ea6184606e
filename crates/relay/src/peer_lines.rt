//! A connection to a peer, line by line.
ghost use Rattle.std.specs.Prelude.{◌≡◌, if◌then◌else◌, List, None, Some, ℕ, OnOk, IfOk, IfErr, [], false};
ghost use Rattle.wire_lines.specs.Buffer.{ahead};
ghost use Rattle.wire_lines.specs.declared.fault.Fault.TheVariants.{Memory, WriteFault};
ghost use Rattle.relay.specs.Wire.{Wire, Hears, Misses, Writes, WritesPart};

use std::alloc::Global;
use wire_lines::{Fault, FoundLine, LineBuffer, Sink, Source, write_all};

/// Lines to a peer, and lines from it.
pub trait LineExchange {
    /// The traffic over the connection, and how it failed.
    ghost wire: { Self → Wire };

    /// The line that was heard last.
    ghost heard: { Self → List ℕ };

    /// Writes a line, which includes its line feed, and flushes.
    fn send(&mut self, line: &str) -> Result<(), Fault>
        ensures sent { OnOk result (Writes line.now (wire self.old) (wire self.new)) }
        ensures fault { IfErr result (λ fault. (fault ≡ WriteFault)
            × WritesPart line.now (wire self.old) (wire self.new)) };

    /// Waits for the next line, and returns whether there is one. There is none at the end, or if it is too long.
    fn hear(&mut self) -> Result<bool, Fault>
        ensures heard { IfOk result (λ is_line. Hears
            (if is_line then Some (heard self.new) else None) (wire self.old) (wire self.new)) }
        ensures fault { IfErr result (λ fault. Misses fault (wire self.old) (wire self.new)) };

    /// The line that was heard last, without its line end.
    fn line(&self) -> &[u8]
        ensures { result.now ≡ heard self.now };
}

/// A connection to a peer, by a reader and a writer.
#[derive(Drop)]
pub struct PeerLines<R, W> {
    reader: R,
    writer: W,
    buffer: LineBuffer,
}

impl<R: Source, W: Sink> PeerLines<R, W> {
    /// Creates a link, without reading or writing. If memory runs out, the reader and the writer are dropped.
    pub fn new(alloc: Global, reader: R, writer: W) -> Result<PeerLines<R, W>, Fault>
    where
        R: Drop,
        W: Drop,
        ensures ok { IfOk result (λ link. (link.reader ≡ reader) × (link.writer ≡ writer)
            × (link.buffer ≡ record {
              waiting = [];
              line = [];
              reads = 0;
              ended = false;
              fault = None;
            })) }
        ensures err { IfErr result (λ fault. fault ≡ Memory) }
    {
        let buffer = LineBuffer::new(alloc)?;
        Ok(PeerLines {
            reader,
            writer,
            buffer,
        })
    }

    /// Returns the reader and the writer. Bytes that were read but not heard are lost.
    pub fn into_parts(self) -> (R, W)
        ensures { result ≡ (self.reader, self.writer) }
    {
        let PeerLines { reader, writer, .. } = self;
        (reader, writer)
    }
}

impl<R: Source, W: Sink> LineExchange for PeerLines<R, W> {
    ghost wire = { λ l. record {
      unread = ahead l.buffer (R.remaining l.reader);
      written = W.contents l.writer;
      stopped = l.buffer.fault;
      read_failures = R.failures l.reader;
      write_failures = W.failures l.writer;
      reads = R.reads l.reader;
      spent = l.buffer.reads;
    } };

    ghost heard = { λ l. l.buffer.line };

    fn send(&mut self, line: &str) -> Result<(), Fault> {
        write_all(&mut self.writer, line.as_bytes())
    }

    fn hear(&mut self) -> Result<bool, Fault> {
        match self.buffer.find_line(&mut self.reader)? {
            FoundLine::Text => Ok(true),
            FoundLine::TooLong | FoundLine::End => Ok(false),
        }
    }

    fn line(&self) -> &[u8] {
        self.buffer.line()
    }
}
