//! A worker, which serves each of its clients whenever its socket is ready, until the server ends.
ghost use Rattle.std.specs.Prelude.{◌≡◌};
ghost use Rattle.std.specs.Arc.{arc_value};

use crate::arrivals::Arrival;
use crate::clients::Clients;
use crate::hub::Hub;
use crate::limits::Limits;
use crate::settle::Settle;
use crate::ticker::Ticker;
use crate::turn::take_turn;
use conversation::{Gate, PadTable, Shared};
use crossbeam_channel::Receiver;
use log::error;
use mio::{Events, Poll};
use pad_model::Sequence;
use server_log::ServerLog;
use sessions::{Accounts, Session};
use shared_pads::Seat;
use std::alloc::Global;
use std::net::Net;
use std::sync::{Arc, Wait};
use std::thread::Threads;
use std::time::Clock;
use std::{io, mem, thread};
use web_wire::Site;

/// The most events that one poll takes.
const EVENTS: usize = 512;

/// The state that all workers of a server share: what they serve, and their limits.
#[derive(Drop)]
pub struct Service<'a, S: Sequence, R: Wait, G: Gate, T: Settle> {
    pub row: &'a PadTable<'a, S, R, G>,
    pub hub: &'a Hub,
    pub limits: Limits,
    pub settle: &'a T,
    /// The files that browsers are served.
    pub site: Site<'a>,
}

/// The state that a worker owns.
#[derive(Drop)]
pub struct Worker {
    pub(crate) place: usize,
    pub(crate) poll: Poll,
    pub(crate) events: Events,
    pub(crate) arrivals: Receiver<Arrival>,
    seats: Vec<Seat>,
}

impl Worker {
    /// Creates the worker at a place of the hub.
    pub(crate) fn new<R: Net>(
        rt: &R,
        alloc: Global,
        place: usize,
        arrivals: Receiver<Arrival>,
        seats: Vec<Seat>,
    ) -> io::Result<Worker> {
        Ok(Worker {
            place,
            poll: Poll::new(rt)?,
            events: Events::with_capacity(alloc, EVENTS)?,
            arrivals,
            seats,
        })
    }
}

/// Serves all clients, each worker in a thread of its own, until the server ends: no more connections are accepted and
/// all clients have ended, or `Hub::stop` was called.
///
/// If the system cannot create a thread, fewer workers serve.
pub fn serve_all<S, R, G, T>(service: &Service<'_, S, R, G, T>, workers: &mut [Worker])
where
    S: Sequence + Send,
    R: AllocGlobal + Clock + Threads + Wait + Sync + Eprint,
    G: Gate + Sync,
    T: Settle + Sync,
{
    let threads = workers.len().max(1);
    thread::for_each_mut(
        service.row.rt,
        workers,
        threads,
        &|_, worker: &mut Worker| work(service, worker),
    );
}

// The work of one worker.
fn work<S, R, G, T>(service: &Service<'_, S, R, G, T>, worker: &mut Worker)
where
    S: Sequence,
    R: AllocGlobal + Clock + Wait + Eprint,
    G: Gate,
    T: Settle,
{
    let rt = service.row.rt;
    let Ok(mut clients) = Clients::new(rt.alloc()) else {
        error!(ServerLog(rt); "a worker did not begin: out of memory");
        service.hub.stop();
        return;
    };
    service.hub.open(worker.place);
    let mut accounts: Option<Arc<Accounts, Global>> = None;
    for _ in rt.forever() {
        let known = match &accounts {
            Some(shared) => known_by(shared),
            None => service.row.accounts,
        };
        accounts = serve_with(service, known, worker, &mut clients);
        if accounts.is_none() {
            return;
        }
    }
}

// The accounts that the workers share.
fn known_by(shared: &Arc<Accounts, Global>) -> &Accounts
    ensures { result.now ≡ arc_value shared.now }
{
    shared
}

// Serves clients with these accounts until they are replaced, and returns the new ones, or until the server ends.
fn serve_with<S, R, G, T>(
    service: &Service<'_, S, R, G, T>,
    accounts: &Accounts,
    worker: &mut Worker,
    clients: &mut Clients,
) -> Option<Arc<Accounts, Global>>
where
    S: Sequence,
    R: AllocGlobal + Clock + Wait + Eprint,
    G: Gate,
    T: Settle,
{
    let row = PadTable {
        rt: service.row.rt,
        cells: service.row.cells,
        names: service.row.names,
        replica: service.row.replica,
        accounts,
        gate: service.row.gate,
    };
    let service = Service {
        row: &row,
        hub: service.hub,
        limits: service.limits,
        settle: service.settle,
        site: service.site,
    };
    let alloc = row.rt.alloc();
    let own = mem::replace(&mut worker.seats, Vec::new(alloc));
    let mut pads = Shared::new(&row, own, Session::new(alloc));
    let news = match take_turns(&service, worker, clients, &mut pads) {
        Ok(news) => news,
        Err(cause) => {
            error!(ServerLog(row.rt); "a worker ended: {cause}");
            service.hub.stop();
            None
        }
    };
    if news.is_none() {
        end_all(clients, &mut pads);
    }
    worker.seats = pads.seats();
    news
}

// Serves in turns until other accounts arrive, which it returns, or until the server ends.
fn take_turns<S, R, G, T>(
    service: &Service<'_, S, R, G, T>,
    worker: &mut Worker,
    clients: &mut Clients,
    pads: &mut Shared<'_, S, R, G>,
) -> io::Result<Option<Arc<Accounts, Global>>>
where
    S: Sequence,
    R: AllocGlobal + Clock + Wait + Eprint,
    G: Gate,
    T: Settle,
{
    let rt = service.row.rt;
    let mut ticker = Ticker::new(service.hub.began());
    let mut checked = 0;
    for _ in rt.forever() {
        if service.hub.is_over() {
            return Ok(None);
        }
        if service.settle.has_failed() {
            service.hub.stop();
            return Ok(None);
        }
        take_turn(service, worker, clients, pads, &mut ticker, &mut checked)?;
        if clients.accounts.is_some() {
            return Ok(clients.accounts.take());
        }
    }
    Ok(None)
}

// Ends the sessions of all remaining clients.
fn end_all<S: Sequence, R: Wait, G: Gate>(clients: &mut Clients, pads: &mut Shared<'_, S, R, G>) {
    for key in 0..clients.all.capacity() {
        if let Some(mut client) = clients.all.try_remove(key) {
            client.party.say_goodbye();
            client.end(pads);
        }
    }
}
