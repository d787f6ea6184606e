//! A peer that this server exchanges operations with, and the outcome of its rounds.
use crate::connection::{BrokenRound, PeerConnection};
use crate::stop::Guard;
use cell_set::CellSet;
use conversation::Pads;
use log::warn;
use pad_model::{MAX_NUMBER, Seen};
use relay::{Exchanged, KnownVectors, Relayed};
use server_log::ServerLog;
use sessions::Peer;
use std::alloc::{AllocError, Global};
use std::io;
use std::io::ErrorKind;
use std::net::{Net, SocketAddr, TcpListener, TcpStream, ToSocketAddrs};
use std::sync::Wait;
use std::time::{Clock, Duration, Instant};
use wire_lines::{Fault, cause_of};

/// The time for which this server waits for a peer, in seconds: to connect, for each reply, and for each line to be
/// accepted.
pub const PATIENCE: u64 = 30;

/// The time that one attempt to connect takes, in seconds. No further one is made once the server has stopped.
const TURN: u64 = 3;

/// The pause after a failed round, in seconds. After each further one it is twice as long.
const FIRST_PAUSE: u64 = 1;

/// The longest pause, in seconds.
const LONGEST_PAUSE: u64 = 60;

/// The outcome of a round with a peer.
#[derive(Clone, Copy, PartialEq, Eq)]
pub enum Brought {
    /// It brought no operation that this server lacked.
    Nothing,
    /// It brought operations, which other peers may lack.
    Operations,
    /// It broke off, and may have brought some before.
    Unknown,
}

/// A peer, the connection to it, and the outcome of its last round.
#[derive(Drop)]
pub struct PeerLink<'a, R> {
    peer: &'a Peer,
    /// The index of the peer.
    place: usize,
    guard: Guard<'a>,
    connection: Option<PeerConnection<'a, R>>,
    /// What the peer is known to have of the pad of each cell, since the last round over all cells.
    known: KnownVectors,
    /// The cells that have changed since they were last visited.
    moved: CellSet,
    /// The pause before the next round, in seconds; 0 if the last round succeeded.
    pause: u64,
    failed_at: Option<Instant>,
    told: Option<(Option<Fault>, Option<ErrorKind>)>,
}

impl<'a, R> PeerLink<'a, R>
where
    R: Net<Listener = TcpListener, Stream = TcpStream> + Clock + Wait + Eprint,
{
    /// A peer with which no round was made yet, by its index, on a server with this many cells.
    pub fn new(
        alloc: Global,
        peer: &'a Peer,
        place: usize,
        guard: Guard<'a>,
        cells: usize,
    ) -> Result<PeerLink<'a, R>, AllocError> {
        Ok(PeerLink {
            peer,
            place,
            guard,
            connection: None,
            known: KnownVectors::new(alloc),
            moved: CellSet::new(alloc, cells)?,
            pause: 0,
            failed_at: None,
            told: None,
        })
    }

    /// Returns true if the last round failed.
    pub fn has_failed(&self) -> bool {
        self.pause > 0
    }

    /// Notes that these cells have changed.
    pub fn note(&self, moved: &CellSet) {
        self.moved.add_all(moved);
    }

    /// Returns true if a round is due: after a failed one, once its pause is over; otherwise if there is no connection,
    /// a pad has changed, or all cells are to be visited again.
    pub fn is_due(&self, clock: &R) -> bool {
        if let Some(at) = self.failed_at {
            return match at.elapsed(clock) {
                Ok(passed) => passed.as_secs() >= self.pause,
                Err(_) => true,
            };
        }
        match &self.connection {
            Some(connection) => !self.moved.is_empty() || connection.needs_whole(clock),
            None => true,
        }
    }

    /// Makes a round. If an older connection breaks, the peer may have closed it, and a new one is tried at once. A
    /// failure is logged with its cause, and not again until the cause changes or a round succeeds.
    pub fn exchange<P: Pads>(
        &mut self,
        rt: &'a R,
        alloc: Global,
        pads: &mut P,
        own: u16,
    ) -> Brought {
        let has_stood = self.connection.is_some();
        let mut made = self.make_round(rt, alloc, pads, own);
        if has_stood && made.is_err() && !self.guard.has_stopped() {
            made = self.make_round(rt, alloc, pads, own);
        }
        match made {
            Ok(relayed) => {
                self.pause = 0;
                self.failed_at = None;
                self.told = None;
                if relayed.pulled > 0 {
                    Brought::Operations
                } else {
                    Brought::Nothing
                }
            }
            Err(broken) => {
                self.note_failure(rt, broken);
                match broken {
                    BrokenRound::Apart(_) if !has_stood => Brought::Nothing,
                    _ => Brought::Unknown,
                }
            }
        }
    }

    // Makes a round over the cells that have changed, or over all, over the existing connection or a new one.
    fn make_round<P: Pads>(
        &mut self,
        rt: &'a R,
        alloc: Global,
        pads: &mut P,
        own: u16,
    ) -> Result<Relayed, BrokenRound> {
        let connection = match self.connection.take() {
            Some(connection) => connection,
            None => self.connect(rt, alloc, own)?,
        };
        let is_whole = connection.needs_whole(rt);
        let visited = self.visit(alloc, pads, connection, is_whole);
        pads.end(alloc);
        match visited {
            Ok((mut connection, relayed)) => {
                if is_whole {
                    connection.note_whole(rt);
                }
                self.moved.clear();
                self.connection = Some(connection);
                Ok(relayed)
            }
            Err(broken) => {
                self.guard.leave(rt, self.place);
                Err(broken)
            }
        }
    }

    // Visits cells as the peer's session: all of them, or those that have changed.
    fn visit<P: Pads>(
        &mut self,
        alloc: Global,
        pads: &mut P,
        connection: PeerConnection<'a, R>,
        is_whole: bool,
    ) -> Result<(PeerConnection<'a, R>, Relayed), BrokenRound> {
        let Ok((cells, known)) = self.what_to_visit(alloc, pads.cells(), is_whole) else {
            return Err(BrokenRound::Off {
                fault: Fault::Memory,
                cause: None,
            });
        };
        let _session = pads.relay(alloc, self.peer.number);
        let (connection, exchanged) = connection.visit(alloc, pads, cells.as_slice(), known)?;
        let relayed = exchanged.relayed;
        self.note_known(cells.as_slice(), exchanged, is_whole);
        Ok((connection, relayed))
    }

    // The cells that a round visits, in ascending order, and what the peer is known to have of the pad of each. In a round
    // over all cells the peer is asked, since it may have what it does not push.
    fn what_to_visit(
        &mut self,
        alloc: Global,
        count: u32,
        is_whole: bool,
    ) -> Result<(Vec<u32>, KnownVectors), AllocError> {
        if is_whole {
            let mut cells = Vec::new(alloc);
            for cell in 0..count {
                cells.push(cell)?;
            }
            return Ok((cells, KnownVectors::of_pads(alloc, count as usize)?));
        }
        let cells = self.moved.list(alloc)?;
        let mut known = KnownVectors::new(alloc);
        for cell in &cells {
            known.push(self.known.take(*cell as usize))?;
        }
        Ok((cells, known))
    }

    // Notes what the peer has after a round over these cells. After one over all cells, nothing else is known.
    fn note_known(&mut self, cells: &[u32], mut exchanged: Exchanged, is_whole: bool) {
        let origin = self.peer.number;
        for (place, cell) in cells.iter().enumerate() {
            let known = with_all_of(exchanged.known.take(place), origin);
            if is_whole {
                exchanged.known.set(place, known);
            } else {
                self.known.set(*cell as usize, known);
            }
        }
        if is_whole {
            self.known = exchanged.known;
        }
    }

    // Connects to the peer, and greets it.
    fn connect(
        &self,
        rt: &'a R,
        alloc: Global,
        own: u16,
    ) -> Result<PeerConnection<'a, R>, BrokenRound> {
        let address = self.peer.address.as_str();
        let stream = connect_to(rt, address, self.guard).map_err(BrokenRound::Apart)?;
        self.guard.enter(rt, self.place, &stream);
        let opened = PeerConnection::open(rt, alloc, stream, self.guard.keeper, own, self.peer);
        if opened.is_err() {
            self.guard.leave(rt, self.place);
        }
        opened
    }

    // Sets the pause before the next round, and logs a new cause.
    fn note_failure(&mut self, rt: &R, broken: BrokenRound) {
        self.pause = match self.pause {
            0 => FIRST_PAUSE,
            pause => pause.saturating_mul(2).min(LONGEST_PAUSE),
        };
        self.failed_at = Instant::now(rt).ok();
        let kind = broken.kind();
        if self.told == Some(kind) {
            return;
        }
        self.told = Some(kind);
        let number = self.peer.number;
        match broken {
            BrokenRound::Apart(error) =>
                warn!(ServerLog(rt); "peer {number}: no connection: {error}"),
            BrokenRound::Off { fault, cause } => match cause_of(fault, cause, cause) {
                Some(cause) => warn!(ServerLog(rt); "peer {number}: {fault}: {cause}"),
                None => warn!(ServerLog(rt); "peer {number}: {fault}"),
            },
        }
    }
}

// A vector of a peer that has all operations of this origin, which is its own: what others tell of them, it has made
// itself. None, if there is no memory for it.
fn with_all_of(known: Option<Seen>, origin: u16) -> Option<Seen> {
    let mut seen = known?;
    match seen.set(origin, MAX_NUMBER) {
        Ok(()) => Some(seen),
        Err(_) => None,
    }
}

// Connects to the first address that answers, with time limits for reading and writing.
fn connect_to<R>(rt: &R, address: &str, guard: Guard<'_>) -> io::Result<TcpStream>
where
    R: Net<Listener = TcpListener, Stream = TcpStream> + Wait,
{
    let patience = Duration::from_secs(PATIENCE);
    let mut last = io::Error::from(ErrorKind::NotFound);
    for address in address.to_socket_addrs(rt)? {
        match connect_in_turns(rt, &address, guard) {
            Ok(stream) => {
                stream.set_nodelay(true)?;
                stream.set_read_timeout(Some(patience))?;
                stream.set_write_timeout(Some(patience))?;
                return Ok(stream);
            }
            Err(error) => last = error,
        }
    }
    Err(last)
}

// Connects to an address, in attempts of a few seconds each.
fn connect_in_turns<R>(rt: &R, address: &SocketAddr, guard: Guard<'_>) -> io::Result<TcpStream>
where
    R: Net<Listener = TcpListener, Stream = TcpStream> + Wait,
{
    for _turn in 0..PATIENCE / TURN {
        if guard.has_stopped() {
            return Err(io::Error::from(ErrorKind::ConnectionAborted));
        }
        match TcpStream::connect_timeout(rt, address, Duration::from_secs(TURN)) {
            Err(cause) if matches!(cause.kind(), ErrorKind::TimedOut) => {}
            done => return done,
        }
    }
    Err(io::Error::from(ErrorKind::TimedOut))
}
