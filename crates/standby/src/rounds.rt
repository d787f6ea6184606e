//! The rounds of a main server: what is synced here goes to the copies, and what they have is confirmed.
ghost use Rattle.std.specs.Prelude.{◌≡◌, OnOk, set};
ghost use Rattle.standby.specs.Rounds.{Puts};

use crate::copies::{Copies, CopiesAnswer, CopyPlace};
use pad_model::Name;
use std::alloc::{AllocError, Global};
use std::io;
use std::sync::Wait;
use std::time::{Clock, Duration};
use store_files::SyncedFiles;
use wire_lines::Fault;

/// About how many bytes a round has at most.
const ROUND: u64 = 1_048_576;

/// The seconds after which a round is made although nothing has grown: so each side finds out whether the other answers.
const BEAT: u64 = 1;

/// The reason why no further round is made over a connection.
#[derive(Debug, Drop)]
pub enum Broken {
    /// The connection broke, or the other side did not answer as a standby does.
    Off(Fault),
    /// The system refused the connection, or to read a file of the store.
    Unread(io::Error),
    /// The copy of this pad is not the beginning of the file here: one of the two has a past that the other lacks.
    OtherPast(Name),
    /// The copies are refused with this number.
    Refused { code: u64 },
    /// There are no copies: a server runs there.
    Taken,
    /// The store has failed.
    StoreFailed,
    /// The server ends.
    Over,
}

impl From<Fault> for Broken {
    fn from(fault: Fault) -> Broken {
        Broken::Off(fault)
    }
}

impl From<io::Error> for Broken {
    fn from(cause: io::Error) -> Broken {
        Broken::Unread(cause)
    }
}

impl From<AllocError> for Broken {
    fn from(_refused: AllocError) -> Broken {
        Broken::Off(Fault::Memory)
    }
}

/// The places that the copies of all files have reached, over one connection.
#[derive(Drop)]
pub struct Rounds<F> {
    files: F,
    // The number of bytes of the file at each cell that are in its copy.
    copied: Vec<u64>,
    // True for each cell whose file may have more.
    is_due: Vec<bool>,
    // The number of notes that the copies have.
    confirmed: u64,
    is_first: bool,
}

impl<F: SyncedFiles> Rounds<F> {
    /// Compares the copies with the files here, whose beginnings they have to be.
    pub fn begin<C: Copies, R: Wait>(
        rt: &R,
        alloc: Global,
        files: F,
        copies: &mut C,
    ) -> Result<Rounds<F>, Broken>
    where
        F: Drop,
    {
        let Some(mut places) = copies.begin(alloc)? else {
            return Err(Broken::Taken);
        };
        places.sort_by(|one, other| one.pad.as_str().cmp(other.pad.as_str()))?;
        let cells = files.cells();
        let mut rounds = Rounds {
            files,
            copied: Vec::new(alloc),
            is_due: Vec::new(alloc),
            confirmed: 0,
            is_first: true,
        };
        rounds.copied.resize(cells, 0)?;
        rounds.is_due.resize(cells, true)?;
        let mut found = 0usize;
        for cell in 0..cells {
            if rounds.compare(rt, alloc, cell, places.as_slice())? {
                found = found.saturating_add(1);
            }
        }
        if found < places.len() {
            return Err(rounds.stranger(rt, alloc, places)?);
        }
        Ok(rounds)
    }

    // Finds the copy of the file at a cell, and returns whether there is one. `places` are in the order of their names.
    fn compare<R: Wait>(
        &mut self,
        rt: &R,
        alloc: Global,
        cell: usize,
        places: &[CopyPlace],
    ) -> Result<bool, Broken> {
        let number = number_of(cell);
        let Some(file) = self.files.file_at(rt, alloc, number)? else {
            return Ok(false);
        };
        let found = places.binary_search_by(|place| place.pad.as_str().cmp(file.pad.as_str()));
        let Some(place) = found.ok().and_then(|index| places.get(index)) else {
            return Ok(false);
        };
        let is_front = place.bytes <= file.length
            && match self.files.sum_before(rt, alloc, number, place.bytes)? {
                Some(sum) => place.sum.is(sum.as_str()),
                None => false,
            };
        if !is_front {
            return Err(Broken::OtherPast(file.pad));
        }
        if let Some(copied) = self.copied.get_mut(cell) {
            *copied = place.bytes;
        }
        Ok(true)
    }

    // The first copy of a pad that this server does not have.
    fn stranger<R: Wait>(
        &self,
        rt: &R,
        alloc: Global,
        places: Vec<CopyPlace>,
    ) -> Result<Broken, Broken> {
        for place in places {
            let mut is_here = false;
            for cell in 0..self.files.cells() {
                if let Some(file) = self.files.file_at(rt, alloc, number_of(cell))? {
                    is_here |= file.pad.is(place.pad.as_str());
                }
            }
            if !is_here {
                return Ok(Broken::OtherPast(place.pad));
            }
        }
        Ok(Broken::Off(Fault::PeerReply))
    }

    /// Makes one round, for which it waits up to a second where nothing has grown. Returns whether the server went on alone
    /// until now.
    pub fn make<C: Copies, R: Wait + Clock>(
        &mut self,
        rt: &R,
        alloc: Global,
        copies: &mut C,
    ) -> Result<bool, Broken> {
        let most = if self.is_first {
            Duration::from_secs(0)
        } else {
            Duration::from_secs(BEAT)
        };
        // Everything that is kept now is in the files that have grown until now.
        let Some(kept) = self.files.follow(rt, self.confirmed, most) else {
            return Err(Broken::StoreFailed);
        };
        self.note_grown(alloc)?;
        let is_all = self.put_all(rt, alloc, copies)?;
        let mark = if is_all { kept } else { self.confirmed };
        copies.flush(alloc, mark)?;
        let heard = match copies.hear(alloc)? {
            CopiesAnswer::Kept(heard) => heard,
            CopiesAnswer::Refused { code } => return Err(Broken::Refused { code }),
        };
        if heard.mark() != mark {
            return Err(Broken::Off(Fault::PeerReply));
        }
        self.files.note_round(self.copied_bytes());
        self.is_first &= !is_all;
        if !is_all {
            return Ok(false);
        }
        self.confirmed = mark;
        Ok(self.files.hear(rt, &heard, true))
    }

    /// Returns true if the copies once had everything that was stored here.
    pub fn has_caught_up(&self) -> bool {
        !self.is_first
    }

    // Notes which files have grown.
    fn note_grown(&mut self, alloc: Global) -> Result<(), AllocError> {
        let grown = self.files.take_grown(alloc)?;
        for cell in grown {
            if let Some(due) = self.is_due.get_mut(cell as usize) {
                *due = true;
            }
        }
        Ok(())
    }

    // Puts what the copies lack into the round, until it is full, and returns whether it has everything.
    fn put_all<C: Copies, R: Wait>(
        &mut self,
        rt: &R,
        alloc: Global,
        copies: &mut C,
    ) -> Result<bool, Broken> {
        let mut left = ROUND;
        for cell in 0..self.is_due.len() {
            if self.is_due.get(cell).copied() != Some(true) {
                continue;
            }
            if left == 0 {
                return Ok(false);
            }
            left = left.saturating_sub(self.put(rt, alloc, copies, cell, left)?);
        }
        Ok(!self.is_due.iter().any(|due| *due))
    }

    // Puts what the copy of a file lacks into the round, about as much as there is room for, and returns how many bytes.
    #[tactic(auto, using(crate::proofs::Puts::is_put))]
    fn put<C: Copies, R: Wait>(
        &mut self,
        rt: &R,
        alloc: Global,
        copies: &mut C,
        cell: usize,
        room: u64,
    ) -> Result<u64, Broken>
        ensures { OnOk result (Puts cell self.old.copied.items self.new.copied.items (C.round copies.old)
            (C.round copies.new)) }
    {
        if cell >= self.copied.len() {
            return Ok(0);
        }
        let from = self.copied[cell];
        let number = number_of(cell);
        let Some(file) = self.files.file_at(rt, alloc, number)? else {
            self.set_due(cell, false);
            return Ok(0);
        };
        let lines = self.files.lines_from(rt, alloc, number, from, room)?;
        let count = lines.len() as u64;
        let Some(upto) = from.checked_add(count) else {
            return Err(Broken::Off(Fault::PeerReply));
        };
        self.set_due(cell, upto < file.length);
        if lines.is_empty() {
            return Ok(0);
        }
        copies.put(alloc, &file.pad, from, lines.as_slice())?;
        self.set_copied(cell, upto);
        Ok(count)
    }

    // Returns the number of bytes that all copies have.
    fn copied_bytes(&self) -> u64 {
        let mut bytes = 0u64;
        for copied in &self.copied {
            bytes = bytes.saturating_add(*copied);
        }
        bytes
    }

    // Sets the number of bytes of the file at a cell that are in its copy.
    fn set_copied(&mut self, cell: usize, copied: u64)
        ensures { self.new.copied.items ≡ set self.old.copied.items cell copied }
    {
        if cell < self.copied.len() {
            self.copied[cell] = copied;
        }
    }

    // Sets whether the copy of the file at a cell may lack something.
    fn set_due(&mut self, cell: usize, due: bool)
        ensures { self.new.copied.items ≡ self.old.copied.items }
    {
        if cell < self.is_due.len() {
            self.is_due[cell] = due;
        }
    }
}

// The number of a cell.
fn number_of(cell: usize) -> u32 {
    u32::try_from(cell).unwrap_or(u32::MAX)
}
