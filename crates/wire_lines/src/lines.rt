//! A reader, line by line.
ghost use Rattle.std.specs.Prelude.{◌≡◌, None, IfOk, IfErr};
ghost use Rattle.std.specs.Result.{result_err};
ghost use Rattle.std.specs.Borrow.{sem};
ghost use Rattle.std.specs.Io.BufRead.{Rests};
ghost use Rattle.wire_lines.specs.Reader.{lines_ahead, failures_of, fault_of, reads_of, source_of, GivesLine, IsAnswered, IsCaused};
ghost use Rattle.wire_lines.specs.contracts.lines.Lines.{the_row};
ghost use Rattle.wire_lines.specs.declared.fault.Fault.TheVariants.{Memory};

use crate::buffer::{FoundLine, LineBuffer};
use crate::device::Source;
use crate::fault::Fault;
use std::alloc::Global;

/// The result of reading a line.
#[derive(Clone, Copy, Debug, PartialEq, Eq)]
pub enum Line<'a> {
    /// A line, without its line end.
    Text(&'a [u8]),
    /// A line of more than `MAX_LINE` bytes. Every later call returns this again.
    TooLong,
    /// No more lines.
    End,
}

/// The lines of a reader, which may be borrowed.
#[derive(Drop)]
pub struct Lines<R> {
    source: R,
    buffer: LineBuffer,
}

impl<R: Source> Lines<R> {
    /// Creates the lines of a reader, without reading. If memory runs out, the reader is dropped.
    pub fn new(alloc: Global, source: R) -> Result<Lines<R>, Fault>
    where
        R: Drop,
        ensures source { IfOk result (λ lines. source_of lines ≡ source) }
        ensures bytes { IfOk result (λ lines. lines_ahead R.remaining lines ≡ R.remaining source) }
        ensures fault { IfOk result (λ lines. fault_of lines ≡ None) }
        ensures err { IfErr result (λ fault. fault ≡ Memory) }
    {
        let buffer = LineBuffer::new(alloc)?;
        Ok(Lines { source, buffer })
    }

    /// The next line. After a line that is too long, or a fault, every call returns the same.
    pub fn next(&mut self) -> Result<Line<'_>, Fault>
        ensures line { GivesLine (lines_ahead R.remaining self.old) result }
        ensures* after_borrow { sem 𝓛 (Rests (the_row R.row) self.entry (λ new.
            IsAnswered result (lines_ahead R.remaining self.old) (lines_ahead R.remaining new)
            × (fault_of new ≡ result_err result)
            × IsCaused (fault_of self.old) result (failures_of R.failures self.old)
            (failures_of R.failures new) (reads_of new))) }
    {
        match self.buffer.find_line(&mut self.source)? {
            FoundLine::Text => Ok(Line::Text(self.buffer.line())),
            FoundLine::TooLong => Ok(Line::TooLong),
            FoundLine::End => Ok(Line::End),
        }
    }
}
