//! Copies in memory.
ghost use Rattle.std.specs.Prelude.{Some};

use file_copies::{FileStretch, NoStretch, PadCopy, StandbyAnswer, StandbyRequest, put_stretch};
use pad_model::Name;
use sessions::Word;
use standby::{Copies, CopiesAnswer, CopyPlace};
use std::alloc::Global;
use wire_lines::Fault;

/// The number of the refusal of a copy with another past.
const OTHER_PAST: u64 = 340;

/// The call of a round that breaks the connection.
#[derive(Clone, Copy, Debug, PartialEq, Eq)]
pub enum Cut {
    Never,
    /// The first stretch is not taken.
    Put,
    /// The round does not arrive.
    Flush,
    /// The round arrives and is kept, and its answer is lost.
    Answer,
}

/// The copy of one file.
#[derive(Drop)]
pub struct MemoryCopy {
    pub pad: Name,
    pub text: Vec<u8>,
    copy: PadCopy,
}

/// Copies of files in memory: a list, as a standby has it on its disk.
#[derive(Drop)]
pub struct MemoryCopies {
    pub copies: Vec<MemoryCopy>,
    pub cut: Cut,
    round: Vec<u8>,
    stretches: Vec<FileStretch>,
    written: Vec<u8>,
    answer: Option<StandbyAnswer>,
}

impl MemoryCopies {
    /// No file is copied yet.
    pub fn new(alloc: Global) -> MemoryCopies {
        MemoryCopies {
            copies: Vec::new(alloc),
            cut: Cut::Never,
            round: Vec::new(alloc),
            stretches: Vec::new(alloc),
            written: Vec::new(alloc),
            answer: None,
        }
    }

    /// Breaks the connection: the copies stay, and the round is dropped.
    pub fn reconnect(&mut self) {
        self.round.clear();
        self.stretches.clear();
        self.answer = None;
    }

    /// The copy of a pad's file, if there is one.
    pub fn text_of(&self, pad: &str) -> Option<&[u8]> {
        let found = self.copies.iter().find(|copy| copy.pad.is(pad));
        found.map(|copy| copy.text.as_slice())
    }

    // Takes all stretches of the round, or none.
    fn take_round(&mut self, alloc: Global, mark: u64) -> Result<StandbyAnswer, Fault> {
        for place in 0..self.stretches.len() {
            let Some(stretch) = self.stretches.get(place) else {
                break;
            };
            match self.follow(alloc, stretch) {
                Ok(_) => {}
                Err(NoStretch::Memory) => return Err(Fault::Memory),
                Err(_) => return Ok(StandbyAnswer::Refused { code: OTHER_PAST }),
            }
        }
        for stretch in &self.stretches {
            let Ok(copy) = self.follow(alloc, stretch) else {
                return Err(Fault::Memory);
            };
            keep(alloc, &mut self.copies, stretch, copy)?;
        }
        self.stretches.clear();
        Ok(StandbyAnswer::Kept { mark })
    }

    // The copy of a stretch's file after the stretch.
    fn follow(&self, alloc: Global, stretch: &FileStretch) -> Result<PadCopy, NoStretch> {
        let pad = stretch.pad.as_str();
        let lines = stretch.lines.as_slice();
        match self.copies.iter().find(|copy| copy.pad.is(pad)) {
            Some(found) => found.copy.followed_by(alloc, stretch.from, lines),
            None => PadCopy::new(0, String::new(alloc)).followed_by(alloc, stretch.from, lines),
        }
    }
}

// Appends a stretch to its file's copy, which then is this one.
fn keep(
    alloc: Global,
    copies: &mut Vec<MemoryCopy>,
    stretch: &FileStretch,
    copy: PadCopy,
) -> Result<(), Fault> {
    let pad = stretch.pad.as_str();
    for found in copies.iter_mut() {
        if found.pad.is(pad) {
            found.text.extend_from_slice(stretch.lines.as_slice())?;
            found.copy = copy;
            return Ok(());
        }
    }
    let mut text = Vec::new(alloc);
    text.extend_from_slice(stretch.lines.as_slice())?;
    copies.push(MemoryCopy {
        pad: stretch.pad.clone()?,
        text,
        copy,
    })?;
    Ok(())
}

impl Copies for MemoryCopies {
    ghost round = { λ copies. copies.round.items };

    ghost written = { λ copies. Some copies.written.items };

    fn begin(&mut self, alloc: Global) -> Result<Option<Vec<CopyPlace>>, Fault> {
        let mut places = Vec::new(alloc);
        for copy in &self.copies {
            let Ok(sum) = Word::from_str(alloc, copy.copy.sum()) else {
                return Err(Fault::Memory);
            };
            places.push(CopyPlace {
                pad: copy.pad.clone()?,
                bytes: copy.copy.length(),
                sum,
            })?;
        }
        Ok(Some(places))
    }

    fn put(&mut self, alloc: Global, pad: &Name, from: u64, lines: &[u8]) -> Result<(), Fault> {
        if self.cut == Cut::Put {
            return Err(Fault::WriteFault);
        }
        let mut kept = Vec::new(alloc);
        kept.extend_from_slice(lines)?;
        self.stretches.push(FileStretch {
            pad: pad.clone()?,
            from,
            lines: kept,
        })?;
        Ok(put_stretch(alloc, &mut self.round, pad, from, lines)?)
    }

    fn flush(&mut self, alloc: Global, mark: u64) -> Result<(), Fault> {
        if self.cut == Cut::Flush {
            return Err(Fault::WriteFault);
        }
        let line = StandbyRequest::Sync { mark }.line(alloc)?;
        self.round.extend_from_slice(line.as_bytes())?;
        self.written.clear();
        self.written.extend_from_slice(self.round.as_slice())?;
        self.round.clear();
        self.answer = Some(self.take_round(alloc, mark)?);
        Ok(())
    }

    fn hear(&mut self, _alloc: Global) -> Result<CopiesAnswer, Fault> {
        if self.cut == Cut::Answer {
            return Err(Fault::ReadFault);
        }
        match self.answer.take() {
            Some(StandbyAnswer::Refused { code }) => Ok(CopiesAnswer::Refused { code }),
            Some(answer) => match answer.heard() {
                Some(heard) => Ok(CopiesAnswer::Kept(heard)),
                None => Err(Fault::PeerReply),
            },
            None => Err(Fault::PeerReply),
        }
    }
}
