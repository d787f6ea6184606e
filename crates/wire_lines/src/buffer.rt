//! The lines of a source that is passed with each call.
ghost use Rattle.std.specs.Prelude.{◌≡◌, ◌<◌, [], length, false, None, Ok, Err, IfOk, IfErr, IfSome, IfNone, OnErr};
ghost use Rattle.std.specs.Result.{result_err};
ghost use Rattle.std.specs.Io.KnownBytes.{Keeps};
ghost use Rattle.wire_lines.specs.Lines.{line_end};
ghost use Rattle.wire_lines.specs.Buffer.{ahead, budget, Finds};
ghost use Rattle.wire_lines.specs.Causes.{AreCounted, HasCause};
ghost use Rattle.wire_lines.specs.declared.fault.Fault.TheVariants.{Memory};

use crate::device::Source;
use crate::fault::Fault;
use crate::inlet::Inlet;
use crate::splitter::LineSplitter;
use std::alloc::Global;
use std::marker::Model;

/// The result of looking for a line at the front of the bytes.
#[derive(Clone, Copy, Debug, PartialEq, Eq)]
pub enum FoundLine {
    /// A line.
    Text,
    /// A line that is too long.
    TooLong,
    /// No more bytes.
    End,
}

/// Finds lines in what it reads from a source. After a fault it stays at that fault.
#[derive(Drop)]
pub struct LineBuffer {
    inlet: Inlet,
    splitter: LineSplitter,
    fault: Option<Fault>,
}

impl Model for LineBuffer {
    ghost use Rattle.wire_lines.specs.Buffer.{Reading};

    ghost Value = { Reading };

    ghost view = { λ b. record {
      waiting = b.splitter.waiting;
      line = b.splitter.line;
      reads = b.inlet.reads;
      ended = b.inlet.ended;
      fault = b.fault;
    } };
}

impl LineBuffer {
    /// A buffer that has read nothing.
    pub fn new(alloc: Global) -> Result<LineBuffer, Fault>
        ensures made { IfOk result (λ buffer. buffer
            ≡ record { waiting = []; line = []; reads = 0; ended = false; fault = None }) }
        ensures err { IfErr result (λ fault. fault ≡ Memory) }
    {
        Ok(LineBuffer {
            inlet: Inlet::new(alloc)?,
            splitter: LineSplitter::new(alloc),
            fault: None,
        })
    }

    /// The line that was found last, without its line end.
    pub fn line(&self) -> &[u8]
        ensures { result.now ≡ self.now.line }
    {
        self.splitter.line()
    }

    /// Finds the next line, reading as often as necessary. After a fault, every call returns that fault.
    pub fn find_line<R: Source>(&mut self, source: &mut R) -> Result<FoundLine, Fault>
        // The bytes to come are those that wait and those that the source still gives. The result describes their
        // front.
        ensures found { IfOk result (λ found. Finds found (ahead self.old (R.remaining source.old))
            self.new.line (ahead self.new (R.remaining source.new))) }
        ensures kept { OnErr result (Keeps (ahead self.old (R.remaining source.old))
            (ahead self.new (R.remaining source.new))) }

        // Before a fault, each line whose line feed was read has been found.
        ensures served { OnErr result (IfNone self.old.fault
            (line_end self.new.waiting ≡ length self.new.waiting)) }
        ensures going { OnErr result (IfNone self.old.fault (self.new.ended ≡ false)) }
        ensures again { IfSome self.old.fault
            (λ fault. (result ≡ Err fault) × (self.new ≡ self.old) × (source.new ≡ source.old)) }
        ensures fault { self.new.fault ≡ result_err result }

        // Each line uses up some of a budget of bytes and reads.
        ensures budget { result ≡ Ok FoundLine.Text → budget self.new < budget self.old }
        ensures cause { IfNone self.old.fault
            (HasCause result (R.failures source.old) (R.failures source.new) self.new.reads) }
        ensures counted { IfNone self.old.fault
            (AreCounted result (R.reads source.old) (R.reads source.new) self.old.reads
            self.new.reads) }
    {
        if let Some(fault) = self.fault {
            return Err(fault);
        }
        let answer = self.search(source);
        if let Err(fault) = answer {
            self.fault = Some(fault);
        }
        answer
    }

    // Reads until the waiting bytes show what the first line is.
    fn search<R: Source>(&mut self, source: &mut R) -> Result<FoundLine, Fault>
        ensures found { IfOk result (λ found. Finds found (ahead self.old (R.remaining source.old))
            self.new.line (ahead self.new (R.remaining source.new))) }
        ensures kept { OnErr result (Keeps (ahead self.old (R.remaining source.old))
            (ahead self.new (R.remaining source.new))) }
        ensures served { OnErr result (line_end self.new.waiting ≡ length self.new.waiting) }
        ensures going { OnErr result (self.new.ended ≡ false) }
        ensures budget { result ≡ Ok FoundLine.Text → budget self.new < budget self.old }
        ensures fault { self.new.fault ≡ self.old.fault }
        ensures cause { HasCause result (R.failures source.old) (R.failures source.new)
            self.new.reads }
        ensures counted { AreCounted result (R.reads source.old) (R.reads source.new) self.old.reads
            self.new.reads }
    {
        loop {
            if let Some(found) = self.splitter.next_line() {
                return Ok(found);
            }
            if self.inlet.has_ended() {
                return Ok(if self.splitter.last_line() {
                    FoundLine::Text
                } else {
                    FoundLine::End
                });
            }
            self.splitter.receive_from(&mut self.inlet, source)?;
        }
    }
}
