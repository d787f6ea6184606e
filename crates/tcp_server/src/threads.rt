//! The number of a server's threads, and their seats at the pads.
ghost use Rattle.std.specs.Prelude.{◌≤◌};
ghost use Rattle.tcp_server.specs.declared.threads.TheConstants.{MAX_WORKERS};

use crate::listeners::Listeners;
use crate::opened::Opened;
use crate::room::warn_of_room;
use crate::serving_error::ServingError;
use crate::settings::Settings;
use conversation::{take_all_seats, take_seats};
use event_loop::{SetUp, set_up};
use pad_model::Refusal;
use peering::{Group, Guard, MAX_THREADS, Skipped};
use std::net::{Net, TcpListener, TcpStream};
use std::sync::Wait;
use std::thread;
use std::thread::Threads;
use std::time::Clock;

/// The most workers. Each has a seat at each pad, and so has each of up to 16 threads that exchange with other servers.
pub const MAX_WORKERS: u32 = 63;

/// The number of workers if none is asked for and the system does not report the number of processors.
const DEFAULT_WORKERS: u32 = 16;

/// The threads that serve connections, with a seat for each at each pad. It warns if they can't serve as many clients as may
/// be connected.
pub fn make_threads<R>(
    rt: &R,
    opened: &Opened,
    asked: Settings<'_>,
    listeners: Listeners,
) -> Result<SetUp, ServingError<'static>>
where
    R: AllocGlobal
        + Net<Listener = TcpListener, Stream = TcpStream>
        + Clock
        + Threads
        + Wait
        + Eprint,
{
    let mut crew = Vec::new(rt.alloc());
    let threads = threads_for(rt, asked);
    take_all_seats(rt, rt.alloc(), opened.cells.as_slice(), threads, &mut crew)?;
    warn_of_room(rt, asked, opened.room);
    let Listeners { lines, web, .. } = listeners;
    match set_up(rt, lines, web, crew, opened.revisions.as_slice()) {
        Ok(made) => Ok(made),
        Err(cause) => Err(ServingError::NotSetUp(cause)),
    }
}

/// The threads of a server that exchange with its peers, with a seat for each at each pad. The standby is no peer of this
/// kind: it has the store's lines.
pub fn make_groups<'a, R>(
    rt: &R,
    opened: &'a Opened,
    asked: Settings<'_>,
    guard: Guard<'a>,
) -> Result<Vec<Group<'a, R>>, Refusal>
where
    R: AllocGlobal + Net<Listener = TcpListener, Stream = TcpStream> + Clock + Wait + Eprint,
{
    let alloc = rt.alloc();
    let peers = opened.accounts.peers();
    let mut groups = Vec::new(alloc);
    for place in 0..opened.exchange.threads() {
        let mut seats = Vec::new(alloc);
        take_seats(rt, opened.cells.as_slice(), &mut seats)?;
        groups.push(Group::new(alloc, place, peers, others_than(asked), guard, seats)?)?;
    }
    Ok(groups)
}

// The numbers of the peers with which no operations are exchanged: the server's own, and that of its standby.
fn others_than(asked: Settings<'_>) -> Skipped {
    Skipped {
        own: asked.replica,
        standby: asked.standby.map(|standby| standby.number),
    }
}

/// The number of threads with a seat at each pad, on a server with this many peers: those that serve connections, and
/// those that exchange with peers.
pub fn seats_for<R: Threads>(rt: &R, asked: Settings<'_>, peers: usize) -> u32 {
    threads_for(rt, asked).saturating_add(peers.min(MAX_THREADS) as u32)
}

/// The number of threads that serve connections: as many as the command line asks for, or as there are processors, and
/// one for long lines.
pub fn threads_for<R: Threads>(rt: &R, asked: Settings<'_>) -> u32
    ensures { (2 ≤ result) × (result ≤ MAX_WORKERS) }
{
    let workers = match asked.workers {
        Some(workers) => workers,
        None => processors(rt),
    };
    workers.clamp(1, MAX_WORKERS - 1) + 1
}

/// The number of processors, as far as the system reports it.
pub fn processors<R: Threads>(rt: &R) -> u32 {
    match thread::available_parallelism(rt) {
        Ok(count) => u32::try_from(count.get()).unwrap_or(MAX_WORKERS),
        Err(_) => DEFAULT_WORKERS,
    }
}
