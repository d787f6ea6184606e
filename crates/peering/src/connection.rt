//! A connection to a peer.

use conversation::Pads;
use pad_model::Version;
use relay::{Exchanged, KnownVectors, PeerLines, greet, visit_listed};
use sessions::Peer;
use std::alloc::Global;
use std::io;
use std::io::ErrorKind;
use std::net::TcpStream;
use std::sync::Wait;
use std::time::{Clock, Instant};
use store_files::{Keeper, Settled};
use wire_lines::{Fault, Std, Watched};

/// Seconds after which a round visits all cells again, and not only those that have changed.
const WHOLE: u64 = 60;

/// The reason why a round failed.
#[derive(Clone, Copy)]
pub enum BrokenRound {
    /// There was no connection.
    Apart(io::Error),
    /// The connection broke, or the peer did not answer as a server does.
    Off {
        fault: Fault,
        cause: Option<io::Error>,
    },
}

impl BrokenRound {
    /// The kind of failure. A failure is logged again only when this changes.
    pub fn kind(self) -> (Option<Fault>, Option<ErrorKind>) {
        match self {
            BrokenRound::Apart(error) => (None, Some(error.kind())),
            BrokenRound::Off { fault, cause } => (Some(fault), cause.map(|error| error.kind())),
        }
    }
}

type PeerReader = Std<Watched<TcpStream>>;

type PeerWriter<'a, R> = Std<Watched<Settled<'a, TcpStream, R>>>;

/// A connection to a peer that was greeted. It stays open between rounds.
#[derive(Drop)]
pub struct PeerConnection<'a, R> {
    link: PeerLines<PeerReader, PeerWriter<'a, R>>,
    version: Version,
    /// The time of the last round over all cells.
    whole_at: Option<Instant>,
}

impl<'a, R: Wait + Clock> PeerConnection<'a, R> {
    /// Greets a peer over a new connection. Each line to the peer waits until the keeper has synced what it reveals.
    pub fn open(
        rt: &'a R,
        alloc: Global,
        stream: TcpStream,
        keeper: Option<&'a Keeper>,
        own: u16,
        peer: &Peer,
    ) -> Result<PeerConnection<'a, R>, BrokenRound> {
        let second = stream.try_clone().map_err(BrokenRound::Apart)?;
        let reader = Std::new(Watched::new(stream));
        let writer = Std::new(Watched::new(Settled::new(rt, second, keeper)));
        let mut link = match PeerLines::new(alloc, reader, writer) {
            Ok(link) => link,
            Err(fault) => return Err(BrokenRound::Off { fault, cause: None }),
        };
        match greet(alloc, &mut link, own, peer.token.as_str()) {
            Ok(version) => Ok(PeerConnection {
                link,
                version,
                whole_at: None,
            }),
            Err(fault) => Err(why(link, fault)),
        }
    }

    /// Returns true if the next round has to visit all cells: it is the first, or the last such round was long ago.
    pub fn needs_whole(&self, clock: &R) -> bool {
        match self.whole_at {
            Some(at) => match at.elapsed(clock) {
                Ok(passed) => passed.as_secs() >= WHOLE,
                Err(_) => true,
            },
            None => true,
        }
    }

    /// Notes that a round over all cells was made.
    pub fn note_whole(&mut self, clock: &R) {
        self.whole_at = Instant::now(clock).ok();
    }

    /// Makes a round over these cells, with what the peer is known to have of the pad of each. On a fault the connection
    /// is lost.
    pub fn visit<P: Pads>(
        mut self,
        alloc: Global,
        pads: &mut P,
        cells: &[u32],
        known: KnownVectors,
    ) -> Result<(PeerConnection<'a, R>, Exchanged), BrokenRound> {
        let version = self.version;
        match visit_listed(alloc, pads, &mut self.link, version, cells, known) {
            Ok(exchanged) => Ok((self, exchanged)),
            Err(fault) => Err(why(self.link, fault)),
        }
    }
}

// Returns the reason why a connection broke, with the system's error.
fn why<R: Wait + Clock>(
    link: PeerLines<PeerReader, PeerWriter<'_, R>>,
    fault: Fault,
) -> BrokenRound {
    let (reader, writer) = link.into_parts();
    let cause = match fault {
        Fault::WriteFault => writer.into_inner().cause(),
        _ => reader.into_inner().cause(),
    };
    BrokenRound::Off { fault, cause }
}
