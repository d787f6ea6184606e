//! The threads that exchange the operations of the pads with the peers of the accounts file.
ghost use Rattle.std.specs.Prelude.{◌≡◌, IfOk, length, min};
ghost use Rattle.peering.specs.declared.exchange.TheConstants.{MAX_THREADS};

use crate::bell::Bell;
use crate::peer_link::{Brought, PATIENCE, PeerLink};
use crate::stop::Guard;
use cell_set::CellSet;
use conversation::{PadTable, Pads, Shared};
use pad_model::Sequence;
use sessions::{Peer, Session};
use shared_pads::{Gate, Seat};
use std::alloc::{AllocError, Global};
use std::net::{Net, TcpListener, TcpStream};
use std::sync::Wait;
use std::sync::atomic::{AtomicU64, Ordering};
use std::time::{Clock, Instant};

/// The most threads that exchange with peers. If there are more peers, threads have several of them.
pub const MAX_THREADS: usize = 16;

/// Seconds between two checks whether a round is due, if no pad changes: `LOOK` after a failed round, and `LONG_LOOK`
/// otherwise.
const LOOK: u64 = 1;

const LONG_LOOK: u64 = 60;

/// The state shared by the threads that exchange with peers: the bell of each, and the number of those that have ended.
/// The gate of the pads calls `note` and `ring`; the thread that started the others calls `finish`.
#[derive(Drop)]
pub struct Exchange {
    bells: Vec<Bell>,
    ended: AtomicU64,
    /// Rung by each thread that ends.
    end: Bell,
}

impl Exchange {
    /// Creates the state for a server with this many peers and cells: a thread for each peer, up to 16.
    pub fn new(alloc: Global, peers: usize, cells: usize) -> Result<Exchange, AllocError>
        ensures { IfOk result (λ exchange. length exchange.bells.items ≡ min peers MAX_THREADS) }
    {
        let mut bells = Vec::new(alloc);
        for _place in 0..peers.min(MAX_THREADS) {
            bells.push(Bell::new(alloc, cells)?)?;
        }
        Ok(Exchange {
            bells,
            ended: AtomicU64::new(0),
            end: Bell::new(alloc, 0)?,
        })
    }

    /// The number of threads.
    pub fn threads(&self) -> usize
        ensures { result ≡ length self.now.bells.items }
    {
        self.bells.len()
    }

    /// Notes that the pad of a cell has changed, or was created. It is called under the pad's lock, and wakes no
    /// thread.
    pub fn note(&self, cell: u32) {
        for bell in &self.bells {
            bell.note(cell);
        }
    }

    /// Wakes all threads, which then visit the noted cells.
    pub fn ring<R: Wait>(&self, rt: &R) {
        for bell in &self.bells {
            bell.ring(rt);
        }
    }

    /// Makes all threads end after their last rounds, and waits up to 30 seconds until this many have ended. Then
    /// exchanges that are still under way are broken off.
    pub fn finish<R: Wait + Clock>(&self, rt: &R, threads: u64, guard: Guard<'_>) {
        for bell in &self.bells {
            bell.ring_last(rt);
        }
        let began = Instant::now(rt).ok();
        for _second in 0..PATIENCE {
            if guard.has_stopped()
                || self.ended.load(Ordering::SeqCst) >= threads
                || is_past(rt, began)
            {
                break;
            }
            self.end.wait(rt, LOOK);
        }
        guard.end(rt);
    }

    // Notes that a thread has ended.
    fn leave<R: Wait>(&self, rt: &R) {
        self.ended.fetch_add(1, Ordering::SeqCst);
        self.end.ring(rt);
    }
}

// Returns true if `began` is longer ago than a server waits for a peer.
fn is_past<C: Clock>(clock: &C, began: Option<Instant>) -> bool {
    match began.map(|began| began.elapsed(clock)) {
        Some(Ok(passed)) => passed.as_secs() >= PATIENCE,
        _ => false,
    }
}

/// The peers with which a server exchanges no operations.
#[derive(Clone, Copy)]
pub struct Skipped {
    /// The number of the server itself, which may have a line in the accounts file.
    pub own: u16,
    /// That of its standby, which has a copy of the store.
    pub standby: Option<u16>,
}

impl Skipped {
    // Returns true if the peer with this number is one of them.
    fn has(self, number: u16) -> bool {
        number == self.own || self.standby == Some(number)
    }
}

/// The peers of one thread, and its seats at the pads.
#[derive(Drop)]
pub struct Group<'a, R> {
    /// The index of the thread.
    place: usize,
    links: Vec<PeerLink<'a, R>>,
    /// The cells that have changed since the last turn.
    moved: CellSet,
    seats: Vec<Seat>,
}

impl<'a, R> Group<'a, R>
where
    R: Net<Listener = TcpListener, Stream = TcpStream> + Clock + Wait + Eprint,
{
    /// The group of the thread with an index, and its seats, one at each cell. Every 16th peer, from that index on, is
    /// in it, except those that are skipped.
    pub fn new(
        alloc: Global,
        place: usize,
        peers: &'a [Peer],
        skipped: Skipped,
        guard: Guard<'a>,
        seats: Vec<Seat>,
    ) -> Result<Group<'a, R>, AllocError> {
        let mut links = Vec::new(alloc);
        for (number, peer) in peers.iter().enumerate() {
            if number % MAX_THREADS == place && !skipped.has(peer.number) {
                links.push(PeerLink::new(alloc, peer, number, guard, seats.len())?)?;
            }
        }
        let moved = CellSet::new(alloc, seats.len())?;
        Ok(Group {
            place,
            links,
            moved,
            seats,
        })
    }
}

/// Makes rounds with the peers of a group until its bell rings for the last ones: over all cells at the start, after
/// each reconnection and once a minute, and otherwise over those that have changed. If a peer sent operations, or its
/// round broke off and may have brought some, all bells are rung, since other peers may lack them. Among the last
/// rounds, only operations that are known to have arrived cause a further one, so a peer that breaks off each time
/// cannot keep the server from ending. After exchanges were broken off, no further round begins.
pub fn exchange_all<'a, S: Sequence, R, G: Gate>(
    row: &PadTable<'a, S, R, G>,
    exchange: &Exchange,
    group: Group<'a, R>,
    guard: Guard<'a>,
)
where
    R: AllocGlobal + Net<Listener = TcpListener, Stream = TcpStream> + Clock + Wait + Eprint,
{
    let rt = row.rt;
    let Group {
        place,
        mut links,
        moved,
        seats,
    } = group;
    if let Some(bell) = exchange.bells.get(place) {
        let mut pads = Shared::new(row, seats, Session::new(rt.alloc()));
        let mut has_come = true;
        let mut is_last = false;
        for _ in rt.forever() {
            if is_last && !has_come {
                break;
            }
            if !has_come {
                bell.wait(rt, look_of(&links));
            }
            if guard.has_stopped() {
                break;
            }
            is_last = is_last || bell.is_last();
            moved.take_from(bell.moved());
            has_come = match rounds(rt, &mut links, &moved, &mut pads, row.replica, is_last) {
                Brought::Nothing => false,
                Brought::Operations => true,
                Brought::Unknown => !is_last,
            };
            moved.clear();
            if has_come {
                exchange.ring(rt);
            }
        }
    }
    exchange.leave(rt);
}

// Returns the time to wait, in seconds.
fn look_of<R>(links: &Vec<PeerLink<'_, R>>) -> u64
where
    R: Net<Listener = TcpListener, Stream = TcpStream> + Clock + Wait + Eprint,
{
    if links.iter().any(PeerLink::has_failed) {
        LOOK
    } else {
        LONG_LOOK
    }
}

// Makes one round with each peer that is due; among the last rounds, with each peer.
fn rounds<'a, P: Pads, R>(
    rt: &'a R,
    links: &mut Vec<PeerLink<'a, R>>,
    moved: &CellSet,
    pads: &mut P,
    own: u16,
    is_last: bool,
) -> Brought
where
    R: AllocGlobal + Net<Listener = TcpListener, Stream = TcpStream> + Clock + Wait + Eprint,
{
    let mut all = Brought::Nothing;
    for link in links.iter_mut() {
        link.note(moved);
        if !is_last && !link.is_due(rt) {
            continue;
        }
        match link.exchange(rt, rt.alloc(), pads, own) {
            Brought::Nothing => {}
            Brought::Operations => all = Brought::Operations,
            Brought::Unknown if all == Brought::Nothing => all = Brought::Unknown,
            Brought::Unknown => {}
        }
    }
    all
}
