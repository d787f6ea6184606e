//! The answers of a standby to its main server, and to whoever promotes it.
ghost use Rattle.std.specs.Prelude.{◌≡◌};
ghost use Rattle.standby.specs.Entrance.{is_taken, kept_out};
ghost use Rattle.standby.specs.Refusals.{code_of, name_of};

use file_copies::{
    FileStretch, NoStretch, StandbyRequest, copy_line, kept_line, refused_line, told_line,
};
use log::warn;
use pad_core::{Reply, Request};
use pad_model::{Name, Refusal};
use server_log::ServerLog;
use sessions::Accounts;
use std::alloc::{AllocError, AllocFailed, Global};
use std::io;
use std::io::{BufRead, BufReader, ErrorKind, Read, Write};
use std::time::Clock;
use store_files::{KeptRound, StandbyStore, Unkept};
use wire_json::{read_request, reply_line};

/// The most bytes of a line to a standby, beside those of files.
const LONGEST_LINE: u64 = 4_096;

/// The most reads in which the greeting has to come, and the first request after it: each is written in one piece.
const FIRST_READS: u32 = 5;

/// The most bytes of files that a round may have.
const LARGEST_ROUND: u64 = 268_435_456;

/// The reason why a standby refuses a request, beside the refusals that pads have.
#[derive(Clone, Copy)]
pub enum StandbyRefusal {
    /// 340: the stretch does not follow the copy of its file.
    OtherPast,
    /// 341: this server is a standby, and answers its main server alone.
    IsStandby,
    /// Another refusal, with its own number: such as 102, 201, 303, 323, 900 or 901.
    Pads(Refusal),
}

impl StandbyRefusal {
    /// The number that answers give.
    pub fn code(self) -> u16
        ensures { result ≡ code_of self }
    {
        match self {
            StandbyRefusal::OtherPast => 340,
            StandbyRefusal::IsStandby => 341,
            StandbyRefusal::Pads(refusal) => refusal.code(),
        }
    }

    /// The name that answers give.
    pub fn name(self) -> &'static str
        ensures { result.now ≡ name_of self }
    {
        match self {
            StandbyRefusal::OtherPast => "OtherPast",
            StandbyRefusal::IsStandby => "IsStandby",
            StandbyRefusal::Pads(refusal) => refusal.name(),
        }
    }
}

/// The reason why a conversation with a main server is over.
#[derive(Drop)]
pub enum Left {
    /// Whoever has connected did not greet in time.
    Silent,
    /// The connection ended, broke or was silent for too long.
    Gone(Option<io::Error>),
    /// The request is refused, and this was answered.
    Refused(StandbyRefusal),
    /// There is no memory.
    Memory,
    /// The store has failed: what was confirmed is kept, and nothing more is.
    StoreFailed(io::Error),
}

impl From<io::Error> for Left {
    fn from(cause: io::Error) -> Left {
        match cause.kind() {
            ErrorKind::OutOfMemory => Left::Memory,
            _ => Left::Gone(Some(cause)),
        }
    }
}

impl From<AllocError> for Left {
    fn from(_refused: AllocError) -> Left {
        Left::Memory
    }
}

impl<T: Drop> From<AllocFailed<T>> for Left {
    fn from(_refused: AllocFailed<T>) -> Left {
        Left::Memory
    }
}

/// The server that may send copies to this standby, and the standby's number.
#[derive(Clone, Copy)]
pub struct StandbyDoor<'a> {
    pub accounts: &'a Accounts,
    /// The number of the main server.
    pub main: u16,
    /// The number of the standby.
    pub own: u16,
}

// Returns the reason to keep out somebody with this number, if there is one: nobody is let in but the main server, with
// its token.
fn kept_out(main: u16, number: u64, has_token: bool) -> Option<StandbyRefusal>
    ensures { result ≡ kept_out main number has_token }
{
    if number != u64::from(main) {
        return Some(StandbyRefusal::IsStandby);
    }
    if !has_token {
        return Some(StandbyRefusal::Pads(Refusal::BadToken));
    }
    None
}

// Returns true if a request of a main server is carried out. None is, once the standby is promoted.
fn is_taken(request: &StandbyRequest, is_promoted: bool) -> bool
    ensures { result ≡ is_taken is_promoted request.now }
{
    match request {
        StandbyRequest::Promote => false,
        _ => !is_promoted,
    }
}

/// A conversation with whoever has connected.
#[derive(Drop)]
pub struct StandbyConversation<S, W> {
    reader: BufReader<S>,
    writer: W,
    // The first request, until it is answered.
    first: Option<StandbyRequest>,
    // The stretches of the round so far.
    round: Vec<FileStretch>,
    // The number of bytes that they have.
    bytes: u64,
}

impl<S: Read, W: Write> StandbyConversation<S, W> {
    /// A conversation of which nothing was read.
    pub fn new(alloc: Global, reader: S, writer: W) -> io::Result<StandbyConversation<S, W>>
    where
        S: Drop,
        W: Drop,
    {
        Ok(StandbyConversation {
            reader: BufReader::with_capacity(alloc, 65_536, reader)?,
            writer,
            first: None,
            round: Vec::new(alloc),
            bytes: 0,
        })
    }

    /// Reads the greeting, and answers it. Only the main server is let in, with its token.
    pub fn greet(&mut self, alloc: Global, door: StandbyDoor<'_>) -> Result<(), Left> {
        let Some(line) = self.first_line(alloc)? else {
            return Err(Left::Silent);
        };
        match read_request(alloc, line.as_slice()) {
            Ok(
                Request::Peer {
                    number,
                    token,
                    version,
                },
            ) => {
                let has_token = door.accounts.peer(number, token.as_str());
                if let Some(refusal) = kept_out(door.main, number, has_token) {
                    return self.refuse(alloc, refusal);
                }
                let reply = Reply::Peer {
                    replica: door.own,
                    version,
                };
                match reply_line(alloc, &Ok(reply)) {
                    Ok(line) => Ok(self.writer.write_all(line.as_bytes())?),
                    Err(_) => Err(Left::Memory),
                }
            }
            Ok(_) => self.refuse(alloc, StandbyRefusal::IsStandby),
            Err(Refusal::Memory) => Err(Left::Memory),
            Err(refusal) => self.refuse(alloc, StandbyRefusal::Pads(refusal)),
        }
    }

    /// Reads the first request after the greeting, and returns whether it is `promote`. Any other is left to `answer`.
    pub fn asks_for_promotion(&mut self, alloc: Global) -> Result<bool, Left> {
        let Some(line) = self.first_line(alloc)? else {
            return Err(Left::Gone(None));
        };
        match self.request_in(alloc, line.as_slice())? {
            StandbyRequest::Promote => Ok(true),
            request => {
                self.first = Some(request);
                Ok(false)
            }
        }
    }

    // Says that the standby is promoted.
    pub(crate) fn say(&mut self, line: &str) -> io::Result<()> {
        self.writer.write_all(line.as_bytes())
    }

    /// Answers a request of the main server. Once the standby is promoted, each is refused.
    pub fn answer<R: Clock + Eprint>(
        &mut self,
        rt: &R,
        alloc: Global,
        store: &mut StandbyStore,
        request: StandbyRequest,
        is_promoted: bool,
    ) -> Result<(), Left> {
        if !is_taken(&request, is_promoted) {
            return self.refuse(alloc, StandbyRefusal::Pads(Refusal::NotRequest));
        }
        match request {
            StandbyRequest::Copies => self.tell(alloc, store),
            StandbyRequest::Keep { pad, from, bytes } => self.take(alloc, pad, from, bytes),
            StandbyRequest::Sync { mark } => self.keep(rt, alloc, store, mark),
            StandbyRequest::Promote => Ok(()),
        }
    }

    /// The main server's next request: the first one, if it is not answered yet. It is to be answered before the next one is
    /// read.
    pub fn next_request(&mut self, alloc: Global) -> Result<StandbyRequest, Left> {
        if let Some(request) = self.first.take() {
            return Ok(request);
        }
        let line = self.line(alloc)?;
        self.request_in(alloc, line.as_slice())
    }

    // The request of a line. What is none is refused.
    fn request_in(&mut self, alloc: Global, line: &[u8]) -> Result<StandbyRequest, Left> {
        match StandbyRequest::read(alloc, line) {
            Ok(request) => Ok(request),
            Err(Refusal::Memory) => Err(Left::Memory),
            Err(refusal) => Err(self.refused(alloc, StandbyRefusal::Pads(refusal))?),
        }
    }

    // Tells how far each copy is.
    fn tell(&mut self, alloc: Global, store: &StandbyStore) -> Result<(), Left> {
        let mut lines = String::new(alloc);
        for copied in store.copies() {
            let length = copied.copy.length();
            if length > 0 {
                let line = copy_line(alloc, &copied.pad, length, copied.copy.sum())?;
                lines.push_str(line.as_str())?;
            }
        }
        let line = told_line(alloc)?;
        lines.push_str(line.as_str())?;
        Ok(self.writer.write_all(lines.as_bytes())?)
    }

    // Reads the bytes of a stretch.
    fn take(&mut self, alloc: Global, pad: Name, from: u64, count: u64) -> Result<(), Left> {
        if !pad.is_well_formed() {
            return self.refuse(alloc, StandbyRefusal::Pads(Refusal::BadName));
        }
        self.bytes = self.bytes.saturating_add(count);
        if self.bytes > LARGEST_ROUND {
            return self.refuse(alloc, StandbyRefusal::Pads(Refusal::TooMuch));
        }
        let mut lines = Vec::new(alloc);
        let read = self.reader.by_ref().take(count).read_to_end(&mut lines)?;
        if (read as u64) < count {
            return Err(Left::Gone(None));
        }
        self.round.push(FileStretch { pad, from, lines })?;
        Ok(())
    }

    // Keeps the round, and answers with its mark.
    fn keep<R: Clock + Eprint>(
        &mut self,
        rt: &R,
        alloc: Global,
        store: &mut StandbyStore,
        mark: u64,
    ) -> Result<(), Left> {
        let kept = store.keep(alloc, self.round.as_slice());
        self.round.clear();
        self.bytes = 0;
        match kept {
            Ok(kept) => self.confirm(alloc, &kept, mark),
            Err(Unkept::NoStretch { pad, why }) => {
                let pad = pad.as_str();
                warn!(ServerLog(rt); "the copy of the pad {pad}: {why}; nothing was changed");
                self.refuse(alloc, StandbyRefusal::OtherPast)
            }
            Err(Unkept::Full) => {
                warn!(ServerLog(rt); "the disk is full: the copies are behind from now on");
                self.refuse(alloc, StandbyRefusal::Pads(Refusal::StoreFull))
            }
            Err(Unkept::Memory) => self.refuse(alloc, StandbyRefusal::Pads(Refusal::Memory)),
            Err(Unkept::Failed(cause)) => Err(Left::StoreFailed(cause)),
        }
    }

    // Answers with the mark of a round that is kept.
    fn confirm(&mut self, alloc: Global, kept: &KeptRound, mark: u64) -> Result<(), Left> {
        let _kept = kept;
        let line = kept_line(alloc, mark)?;
        Ok(self.writer.write_all(line.as_bytes())?)
    }

    // Answers that a request is refused. The conversation is over.
    fn refuse(&mut self, alloc: Global, refusal: StandbyRefusal) -> Result<(), Left> {
        Err(self.refused(alloc, refusal)?)
    }

    // Answers that a request is refused, and returns that the conversation is over.
    fn refused(&mut self, alloc: Global, refusal: StandbyRefusal) -> Result<Left, Left> {
        let line = refused_line(alloc, refusal.code(), refusal.name())?;
        self.writer.write_all(line.as_bytes())?;
        Ok(Left::Refused(refusal))
    }

    // The first line, without its line feed. None: it did not come in a few reads.
    fn first_line(&mut self, alloc: Global) -> Result<Option<Vec<u8>>, Left> {
        let mut line = Vec::new(alloc);
        for _ in 0..FIRST_READS {
            let Ok(bytes) = self.reader.fill_buf() else {
                return Ok(None);
            };
            let count = bytes.len();
            if let Some(end) = bytes.iter().position(|byte| *byte == b'\n') {
                line.extend_from_slice(&bytes[..end])?;
                self.reader.consume(end + 1);
                return Ok(Some(line));
            }
            line.extend_from_slice(bytes)?;
            self.reader.consume(count);
        }
        Ok(None)
    }

    // The next line, without its line feed.
    fn line(&mut self, alloc: Global) -> Result<Vec<u8>, Left> {
        let mut line = Vec::new(alloc);
        self.reader
            .by_ref()
            .take(LONGEST_LINE)
            .read_until(b'\n', &mut line)?;
        match line.pop() {
            Some(b'\n') => Ok(line),
            Some(_) if line.len() as u64 >= LONGEST_LINE - 1 => {
                Err(Left::Gone(Some(io::Error::from(ErrorKind::InvalidData))))
            }
            _ => Err(Left::Gone(None)),
        }
    }
}
