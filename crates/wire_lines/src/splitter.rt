//! Bytes that arrive in pieces, and the lines in them. Nothing is read here: the caller passes the bytes, or an inlet.
ghost use Rattle.std.specs.Prelude.{◌≡◌, ◌+◌, ◌≤◌, ◌<◌, true, false, ◌≢◌, nat_lt, [], ◌++◌, length, drop, IfErr, IfNone, IfOk, IfSome, OnOk, OnErr, IsOk, Some};
ghost use Rattle.std.specs.Bool.{OnTrue};
ghost use Rattle.std.specs.Io.KnownBytes.{Keeps, IsAtEnd, prepend_known};
ghost use Rattle.wire_lines.specs.Lines.{behind_line, line_end};
ghost use Rattle.wire_lines.specs.Buffer.{Shows, ShowsBefore, IsPart};
ghost use Rattle.wire_lines.specs.Inside.{IsSearched};
ghost use Rattle.wire_lines.specs.Splitter.{has_line};
ghost use Rattle.wire_lines.specs.Causes.{AreCounted, HasCause, most_reads};
ghost use Rattle.wire_lines.specs.declared.fault.Fault.TheVariants.{Memory};

use crate::buffer::FoundLine;
use crate::byte_buffer::ByteBuffer;
use crate::device::Source;
use crate::fault::Fault;
use crate::feed::{MAX_LINE, end_from, end_without_return};
use crate::inlet::{CHUNK, Inlet};
use std::alloc::Global;
use std::marker::Model;

/// The bytes that arrived and were not yet used, and the line that was found last.
#[derive(Drop)]
pub struct LineSplitter {
    bytes: ByteBuffer,
    // The end of the first line that waits: its line feed, or the end of the bytes. So no byte is searched twice.
    end: usize,
    // The length of the line that was found last: it is the front of the bytes that were taken last.
    line_len: usize,
}

impl Model for LineSplitter {
    ghost use Rattle.std.specs.Prelude.{take};
    ghost use Rattle.wire_lines.specs.Splitter.{Split};
    ghost use Rattle.wire_lines.specs.Inside.{IsSplit};

    ghost Value = { Split };

    ghost view = { λ s. record {
      waiting = s.bytes.waiting;
      line = take s.line_len s.bytes.taken;
    } };

    ghost invariant = { λ s. IsSplit s.bytes.waiting s.bytes.taken s.end s.line_len };
}

impl LineSplitter {
    /// A splitter without bytes. It allocates no memory.
    pub fn new(alloc: Global) -> LineSplitter
        ensures { result ≡ record { waiting = []; line = [] } }
    {
        LineSplitter {
            bytes: ByteBuffer::new(alloc),
            end: 0,
            line_len: 0,
        }
    }

    /// The line that was found last, without its line end. It is empty after `receive`, `receive_from` and `release`.
    pub fn line(&self) -> &[u8]
        ensures { result.now ≡ self.now.line }
    {
        &self.bytes.taken()[..self.line_len]
    }

    /// The number of waiting bytes.
    pub fn len(&self) -> usize
        ensures { result ≡ length self.now.waiting }
    {
        self.bytes.len()
    }

    /// Returns true if no bytes wait.
    pub fn is_empty(&self) -> bool
        ensures empty { result ≡ true → self.now.waiting ≡ [] }
        ensures some { result ≡ false → 0 < length self.now.waiting }
    {
        self.bytes.is_empty()
    }

    /// The first line, without its line end, if its line feed has arrived and it is not too long. The line stays.
    pub fn first_line(&self) -> Option<&[u8]>
        ensures some { IfSome result (λ line. ShowsBefore FoundLine.Text self.now.waiting line.now
            (behind_line self.now.waiting)) }
        ensures none { IfNone result (has_line self.now.waiting ≡ false) }
    {
        let end = self.end;
        let has_feed = end < self.bytes.len();
        let fits = end <= MAX_LINE;
        if has_feed && fits {
            let to = end_without_return(self.bytes.waiting(), end);
            return Some(&self.bytes.waiting()[..to]);
        }
        None
    }

    /// Returns true if any byte follows the line feed of the first line.
    pub fn has_second(&self) -> bool
        ensures { result ≡ nat_lt 0 (length (behind_line self.now.waiting)) }
    {
        self.bytes.len() - self.end > 1
    }

    /// Appends bytes to those that wait; if memory runs out, none of them.
    pub fn receive(&mut self, bytes: &[u8]) -> Result<(), Fault>
        ensures bytes { OnOk result (self.new.waiting ≡ self.old.waiting ++ bytes.now) }
        ensures err { OnErr result (self.new.waiting ≡ self.old.waiting) }
        ensures fault { IfErr result (λ fault. fault ≡ Memory) }
        ensures line { self.new.line ≡ [] }
    {
        self.line_len = 0;
        self.bytes.reserve(bytes.len())?;
        self.end = append(&mut self.bytes, self.end, bytes)?;
        Ok(())
    }

    /// Reads once, and appends the bytes to those that wait. If memory runs out, nothing is read.
    pub fn receive_from<R: Source>(
        &mut self,
        inlet: &mut Inlet,
        source: &mut R,
    ) -> Result<(), Fault>
        requires going { inlet.old.ended ≡ false }
        ensures bytes { Keeps (prepend_known self.old.waiting (R.remaining source.old))
            (prepend_known self.new.waiting (R.remaining source.new)) }
        ensures most { length self.new.waiting ≤ length self.old.waiting + CHUNK }
        ensures end { OnTrue inlet.new.ended (IsAtEnd (R.remaining source.new)) }
        ensures err { OnErr result ((self.new.waiting ≡ self.old.waiting)
            × (inlet.new.ended ≡ false)) }
        ensures line { self.new.line ≡ [] }
        ensures few { OnOk result (inlet.new.reads ≤ most_reads) }
        ensures one { OnOk result (inlet.new.reads ≡ inlet.old.reads + 1) }
        ensures cause { HasCause result (R.failures source.old) (R.failures source.new)
            inlet.new.reads }
        ensures counted { AreCounted result (R.reads source.old) (R.reads source.new)
            inlet.old.reads inlet.new.reads }
    {
        self.line_len = 0;
        self.bytes.reserve(CHUNK)?;
        inlet.read(source)?;
        self.end = append(&mut self.bytes, self.end, inlet.bytes())?;
        Ok(())
    }

    /// Takes the first line, if its line feed has arrived. A line that is too long stays.
    pub fn next_line(&mut self) -> Option<FoundLine>
        ensures found { IfSome result (λ found. ShowsBefore found self.old.waiting self.new.line
            self.new.waiting) }
        ensures none { IfNone result (IsPart self.new.waiting) }
        ensures not_end { result ≢ Some FoundLine.End }
        ensures shorter { result ≡ Some FoundLine.Text
            → length self.new.waiting < length self.old.waiting }
        ensures stays { IfNone result (self.new.waiting ≡ self.old.waiting) }
    {
        let end = self.end;
        let is_long = end > MAX_LINE;
        if is_long {
            return Some(FoundLine::TooLong);
        }
        let is_part = end == self.bytes.len();
        if is_part {
            return None;
        }
        self.line_len = end_without_return(self.bytes.waiting(), end);
        self.bytes.take(end + 1);
        self.end = end_from(self.bytes.waiting(), 0);
        Some(FoundLine::Text)
    }

    /// Takes all waiting bytes as the last line. Returns false if there are none.
    pub fn last_line(&mut self) -> bool
        requires { IsPart self.old.waiting }
        ensures text { result ≡ true → Shows FoundLine.Text self.old.waiting self.new.line
            self.new.waiting }
        ensures none { result ≡ false → self.old.waiting ≡ [] }
        ensures rest { self.new.waiting ≡ [] }
    {
        let len = self.bytes.len();
        if len == 0 {
            return false;
        }
        self.line_len = len;
        self.bytes.take(len);
        self.end = 0;
        true
    }

    /// Frees the capacity that waiting bytes do not need, except 1 KiB. It moves the bytes, so call it while none
    /// arrive.
    pub fn release(&mut self)
        ensures { self.new ≡ record { waiting = self.old.waiting; line = [] } }
    {
        self.bytes.release();
        self.line_len = 0;
    }
}

// Appends bytes, and returns the new end of a line that was searched up to `end`. All that waits was searched, unless a line
// feed ended the search before: so no byte is searched twice.
fn append(held: &mut ByteBuffer, end: usize, bytes: &[u8]) -> Result<usize, Fault>
    requires within { end ≤ length held.old.waiting }
    requires searched { IsSearched held.old.waiting end }
    ensures bytes { OnOk result (held.new.waiting ≡ held.old.waiting ++ bytes.now) }
    ensures end { IfOk result (λ new. (new ≡ end + line_end (drop end held.new.waiting))
        × (new ≤ length held.new.waiting)) }
    ensures err { OnErr result (held.new.waiting ≡ held.old.waiting) }
    ensures taken { held.new.taken ≡ held.old.taken }
    ensures room { length bytes.now ≤ held.old.room → IsOk result }
    ensures fault { IfErr result (λ fault. fault ≡ Memory) }
{
    held.append(bytes)?;
    Ok(end_from(held.waiting(), end))
}
