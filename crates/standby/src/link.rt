//! The connection of a main server to its standby.
use crate::copies::{Copies, CopiesAnswer, CopyPlace};
use file_copies::{StandbyAnswer, StandbyRequest, put_stretch};
use pad_model::{Name, Refusal};
use std::alloc::Global;
use wire_lines::{Fault, FoundLine, LineBuffer, Sink, Source, write_all};

/// A connection to a standby, over a reader and a writer, after the greeting.
#[derive(Drop)]
pub struct StandbyLink<R, W> {
    reader: R,
    writer: W,
    buffer: LineBuffer,
    // The round that is being put together: it goes out in one write.
    round: Vec<u8>,
}

impl<R: Source, W: Sink> StandbyLink<R, W> {
    /// A link over which nothing was sent but the greeting.
    pub fn new(alloc: Global, reader: R, writer: W) -> Result<StandbyLink<R, W>, Fault>
    where
        R: Drop,
        W: Drop,
    {
        Ok(StandbyLink {
            reader,
            writer,
            buffer: LineBuffer::new(alloc)?,
            round: Vec::new(alloc),
        })
    }

    /// Returns the reader and the writer.
    pub fn into_parts(self) -> (R, W) {
        let StandbyLink { reader, writer, .. } = self;
        (reader, writer)
    }

    // Waits for the next answer.
    fn answer(&mut self, alloc: Global) -> Result<StandbyAnswer, Fault> {
        match self.buffer.find_line(&mut self.reader)? {
            FoundLine::Text => {}
            FoundLine::TooLong | FoundLine::End => return Err(Fault::PeerReply),
        }
        match StandbyAnswer::read(alloc, self.buffer.line()) {
            Ok(answer) => Ok(answer),
            Err(Refusal::Memory) => Err(Fault::Memory),
            Err(_) => Err(Fault::PeerReply),
        }
    }
}

impl<R: Source, W: Sink> Copies for StandbyLink<R, W> {
    ghost round = { λ l. l.round.items };

    ghost written = { λ l. W.contents l.writer };

    fn begin(&mut self, alloc: Global) -> Result<Option<Vec<CopyPlace>>, Fault> {
        let line = StandbyRequest::Copies.line(alloc)?;
        write_all(&mut self.writer, line.as_bytes())?;
        let mut places = Vec::new(alloc);
        for _ in 0..u64::MAX {
            match self.answer(alloc)? {
                StandbyAnswer::Copy { pad, bytes, sum } => places.push(CopyPlace {
                    pad,
                    bytes,
                    sum,
                })?,
                StandbyAnswer::Told => return Ok(Some(places)),
                StandbyAnswer::Refused { .. } => return Ok(None),
                StandbyAnswer::Kept { .. } => return Err(Fault::PeerReply),
            }
        }
        Err(Fault::PeerReply)
    }

    fn put(&mut self, alloc: Global, pad: &Name, from: u64, lines: &[u8]) -> Result<(), Fault> {
        Ok(put_stretch(alloc, &mut self.round, pad, from, lines)?)
    }

    fn flush(&mut self, alloc: Global, mark: u64) -> Result<(), Fault> {
        let line = StandbyRequest::Sync { mark }.line(alloc)?;
        self.round.extend_from_slice(line.as_bytes())?;
        write_all(&mut self.writer, self.round.as_slice())?;
        self.round.clear();
        Ok(())
    }

    fn hear(&mut self, alloc: Global) -> Result<CopiesAnswer, Fault> {
        let answer = self.answer(alloc)?;
        match (answer.heard(), answer) {
            (Some(heard), _) => Ok(CopiesAnswer::Kept(heard)),
            (None, StandbyAnswer::Refused { code }) => Ok(CopiesAnswer::Refused { code }),
            (None, _) => Err(Fault::PeerReply),
        }
    }
}
