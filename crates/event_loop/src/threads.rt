//! The threads of a server, before they start.
use crate::accept::Acceptor;
use crate::clients::WAKING;
use crate::hub::{Door, Hub};
use crate::lobby::Lobby;
use crate::work::Worker;
use mio::Waker;
use server_counts::ClientCounts;
use shared_pads::Seat;
use std::io;
use std::net::{Net, TcpListener};
use std::sync::atomic::AtomicU64;
use std::time::{Clock, Instant};

/// The state that the threads of a server share, and the parts that each of them owns.
#[derive(Drop)]
pub struct SetUp {
    pub hub: Hub,
    pub acceptor: Acceptor,
    pub workers: Vec<Worker>,
}

/// Sets up a worker for each member's seats, the last of which serves only long lines, and the acceptor, for clients
/// that speak lines and perhaps for browsers. `op_log` has the revision of the pad at each cell.
pub fn set_up<R: AllocGlobal + Net + Clock>(
    rt: &R,
    lines: TcpListener,
    web: Option<TcpListener>,
    crew: Vec<Vec<Seat>>,
    revisions: &[u64],
) -> io::Result<SetUp> {
    let alloc = rt.alloc();
    let mut doors = Vec::new(alloc);
    let mut workers = Vec::new(alloc);
    for seats in crew {
        let (door, worker) = make_worker(rt, workers.len(), seats, revisions.len())?;
        doors.push(door)?;
        workers.push(worker)?;
    }
    let (acceptor, waker) = Acceptor::new(rt, alloc, lines, web)?;
    Ok(SetUp {
        hub: make_hub(rt, doors, waker, revisions)?,
        acceptor,
        workers,
    })
}

// The worker at a place of the hub, with its seats, and how to reach it.
fn make_worker<R: AllocGlobal + Net>(
    rt: &R,
    place: usize,
    seats: Vec<Seat>,
    cells: usize,
) -> io::Result<(Door, Worker)> {
    let alloc = rt.alloc();
    let (to, arrivals) = crossbeam_channel::unbounded(alloc)?;
    let worker = Worker::new(rt, alloc, place, arrivals, seats)?;
    let waker = Waker::new(worker.poll.registry(), WAKING)?;
    Ok((Door::new(alloc, to, waker, cells)?, worker))
}

// Makes the state that the threads share, with these doors.
fn make_hub<R: AllocGlobal + Clock>(
    rt: &R,
    doors: Vec<Door>,
    acceptor: Waker,
    revisions: &[u64],
) -> io::Result<Hub> {
    let alloc = rt.alloc();
    let mut counts = Vec::new(alloc);
    for revision in revisions {
        counts.push(AtomicU64::new(*revision))?;
    }
    let lobby = Lobby::new(alloc)?;
    let watched = ClientCounts::new(alloc)?;
    let began = Instant::now(rt).ok();
    Ok(Hub::new(doors, acceptor, began, counts, lobby, watched))
}
