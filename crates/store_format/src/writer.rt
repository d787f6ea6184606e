//! The writer of a pad's file: lines in the order of the steps, each linked to the one before it.
ghost use Rattle.std.specs.Prelude.{◌≡◌, [], ◌∷◌, true, false, OnErr, OnOk, string_bytes};
ghost use Rattle.std.specs.Io.KnownBytes.{Appends};
ghost use Rattle.store_format.specs.Writing.{Adds, IsWritten, header_line, texts_of};

use crate::header::header_text;
use crate::line::link;
use crate::reader::record_text;
use pad_model::Name;
use std::alloc::{AllocError, Global};
use std::io;
use std::io::{ErrorKind, Write};
use store_records::Record;

/// Appends lines to a pad's file. Lines wait here until `write` appends all of them at once.
///
/// Once lines found no memory, or a write failed, nothing more is written: what would follow is read as damage.
#[derive(Drop)]
pub struct PadWriter {
    // The sum of the last line.
    sum: String,
    // The lines that are to be written.
    waiting: String,
    has_failed: bool,
}

impl PadWriter {
    /// The writer of a file whose last line has this sum. An empty file has the empty one.
    pub fn new(alloc: Global, sum: String) -> PadWriter
        ensures sum { string_bytes result.sum ≡ string_bytes sum }
        ensures waiting { string_bytes result.waiting ≡ [] }
        ensures failed { result.has_failed ≡ false }
    {
        PadWriter {
            sum,
            waiting: String::new(alloc),
            has_failed: false,
        }
    }

    /// Adds the first line of the file of a pad, or the line from which on the server with this number writes.
    pub fn begin(&mut self, alloc: Global, pad: &Name, replica: u16) -> Result<(), AllocError>
        ensures added { OnOk result (Adds (header_line pad.now replica ∷ []) self.old self.new) }
        ensures kept { OnOk result (self.new.has_failed ≡ self.old.has_failed) }
        ensures failed { OnErr result (Adds [] self.old self.new × (self.new.has_failed ≡ true)) }
    {
        let added = self.add_header(alloc, pad, replica);
        self.has_failed |= added.is_err();
        added
    }

    fn add_header(&mut self, alloc: Global, pad: &Name, replica: u16) -> Result<(), AllocError>
        ensures added { OnOk result (Adds (header_line pad.now replica ∷ []) self.old self.new) }
        ensures same { OnErr result (Adds [] self.old self.new) }
        ensures failed { self.new.has_failed ≡ self.old.has_failed }
    {
        let text = header_text(alloc, pad, replica)?;
        let linked = link(alloc, self.sum.as_str(), text.as_str())?;
        self.waiting.push_str(linked.line.as_str())?;
        self.sum = linked.sum;
        Ok(())
    }

    /// Adds a line for each record that a request leaves. `at` is the time in seconds since 1970, and `together` tells
    /// whether lines before them are not yet synced.
    pub fn note(
        &mut self,
        alloc: Global,
        at: u64,
        together: bool,
        records: &[Record],
    ) -> Result<(), AllocError>
        ensures added { OnOk result (Adds (texts_of at together records.now) self.old self.new) }
        ensures kept { OnOk result (self.new.has_failed ≡ self.old.has_failed) }
        ensures failed { OnErr result (Adds [] self.old self.new × (self.new.has_failed ≡ true)) }
    {
        let added = self.add_records(alloc, at, together, records);
        self.has_failed |= added.is_err();
        added
    }

    fn add_records(
        &mut self,
        alloc: Global,
        at: u64,
        together: bool,
        records: &[Record],
    ) -> Result<(), AllocError>
        ensures added { OnOk result (Adds (texts_of at together records.now) self.old self.new) }
        ensures same { OnErr result (Adds [] self.old self.new) }
        ensures failed { self.new.has_failed ≡ self.old.has_failed }
    {
        let mut lines = String::new(alloc);
        let mut sum = self.sum.to_string(alloc)?;
        let mut follows = together;
        for kept in records {
            let text = record_text(alloc, at, follows, kept)?;
            let linked = link(alloc, sum.as_str(), text.as_str())?;
            lines.push_str(linked.line.as_str())?;
            sum = linked.sum;
            follows = true;
        }
        self.waiting.push_str(lines.as_str())?;
        self.sum = sum;
        Ok(())
    }

    /// Appends the lines that wait, in one piece. A fault of the file is that of the writer from then on; it is `Other`
    /// if there was one before, and then the file is left unchanged.
    pub fn write<W: Write>(&mut self, alloc: Global, file: &mut W) -> io::Result<()>
        ensures written { OnOk result (IsWritten self.old self.new
            × Appends (W.contents file.old) (W.contents file.new) (string_bytes self.old.waiting)) }
        ensures failed { OnErr result (self.new.has_failed ≡ true) }
        ensures untouched { self.old.has_failed ≡ true → file.new ≡ file.old }
    {
        if self.has_failed {
            return Err(io::Error::from(ErrorKind::Other));
        }
        match file.write_all(self.waiting.as_bytes()) {
            Ok(()) => {
                self.waiting = String::new(alloc);
                Ok(())
            }
            Err(cause) => {
                self.has_failed = true;
                Err(cause)
            }
        }
    }
}
