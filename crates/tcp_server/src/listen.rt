//! The server of many connections over TCP.
ghost use Rattle.std.specs.Prelude.{◌≡◌, ◌≤◌, [], None, IfOk};
ghost use Rattle.server_core.specs.declared.limits.TheConstants.{MAX_CELLS};

use crate::listeners::{Listeners, listen_at};
use crate::numbers_page::with_numbers;
use crate::opened::{Opened, open_pads};
use crate::other_threads::{Ends, start_exchange, start_help, start_sending, start_status};
use crate::pad_gate::PadGate;
use crate::room::FileShares;
use crate::sender::sender_of;
use crate::serving_error::ServingError;
use crate::settings::{Settings, StandbyPeer};
use crate::settling::Settling;
use crate::status_board::StatusBoard;
use crate::status_thread::{StatusThread, open_door};
use crate::threads::{make_groups, make_threads};
use crate::users::{proxies_of, users_of};
use crate::watch::{Watch, watch_accounts};
use block_seq::BlockSeq;
use conversation::PadTable;
use event_loop::{Acceptor, Hub, Limits, Service, SetUp, Worker, accept_all, serve_all};
use peering::{Group, Guard};
use server_counts::Build;
use std::alloc::{AllocError, Global};
use std::fs::File;
use std::net::{Net, TcpListener, TcpStream};
use std::rt::Runtime;
use std::sync::Wait;
use std::thread;
use std::thread::Threads;
use std::time::Clock;
use web_wire::{Page, Site, UserHeader};

/// Serves connections at an address, and browsers at another one if the settings say so, until as many connections have
/// ended as the settings say. Each address is printed with its real port. The path is that of the accounts file. With a
/// store, the pads come from it, each reply waits until everything that it reveals is synced, and the server stops if
/// the store fails.
pub fn serve_clients<'a, R>(
    rt: &R,
    files: HostRuntime,
    asked: Settings<'a>,
    address: &'a str,
    path: &'a str,
    pages: &[Page],
    build: Build<'a>,
) -> Result<(), ServingError<'a>>
where
    R: Runtime<A = Global, File = File>
        + Net<Listener = TcpListener, Stream = TcpStream>
        + Threads
        + Wait
        + Sync
        + Eprint,
    requires { (1 ≤ asked.replica) × (asked.cells ≤ MAX_CELLS) }
{
    let (watching, reading) = (files.clone()?, files.clone()?);
    let (opened, bytes) = open_pads(rt, files, asked, path)?;
    let watch = Watch::new(watching, path, bytes, asked.any_user, asked.guests);
    let board = StatusBoard::new(reading, build, opened.keeper.as_ref());
    match serve_opened(rt, &opened, asked, address, pages, watch, &board) {
        Ok(has_stopped) => outcome(&opened, asked, has_stopped),
        Err(error) => Err(error),
    }
}

/// What a server that has ended says of its standby, its store and its workers.
fn outcome<'a>(
    opened: &Opened,
    asked: Settings<'a>,
    has_stopped: bool,
) -> Result<(), ServingError<'a>> {
    match asked.standby {
        Some(StandbyPeer { number, .. }) if opened.has_lost_standby() => {
            return Err(ServingError::StandbyLost { number });
        }
        _ => {}
    }
    match asked.store {
        Some(folder) if opened.has_failed() => Err(ServingError::StoreFailed { folder }),
        _ if has_stopped => Err(ServingError::WorkerFailed),
        _ => Ok(()),
    }
}

/// Serves connections with the opened pads, and returns true if the workers have stopped.
fn serve_opened<'a, R>(
    rt: &R,
    opened: &Opened,
    asked: Settings<'a>,
    address: &'a str,
    pages: &[Page],
    watch: Watch<'_>,
    board: &StatusBoard<'_>,
) -> Result<bool, ServingError<'a>>
where
    R: Runtime<A = Global, File = File>
        + Net<Listener = TcpListener, Stream = TcpStream>
        + Threads
        + Wait
        + Sync
        + Eprint,
{
    let named = opened.named_pads(rt)?;
    let parts = site_parts(rt.alloc(), asked, pages, opened)?;
    let listeners = listen_at(rt, asked, address)?;
    let site = Site {
        pages: parts.pages.as_slice(),
        origins: parts.origins.as_slice(),
        users: users_in(&parts),
    };
    serve_site(rt, opened, asked, site, listeners, watch, board, named)
}

/// The same for a site, at these listeners and with this number of named pads.
fn serve_site<R>(
    rt: &R,
    opened: &Opened,
    asked: Settings<'_>,
    site: Site<'_>,
    mut listeners: Listeners,
    watch: Watch<'_>,
    board: &StatusBoard<'_>,
    named: u64,
) -> Result<bool, ServingError<'static>>
where
    R: Runtime<A = Global, File = File>
        + Net<Listener = TcpListener, Stream = TcpStream>
        + Threads
        + Wait
        + Sync
        + Eprint,
{
    let (door, status_end) = open_door(rt, listeners.status.take())?;
    let made = make_threads(rt, opened, asked, listeners)?;
    made.hub.counts().pads.set(named);
    let status = StatusThread {
        board,
        door,
        end: status_end.as_ref(),
    };
    serve_made(rt, opened, asked, site, made, watch, status)
}

/// The same with the threads that were made.
fn serve_made<R>(
    rt: &R,
    opened: &Opened,
    asked: Settings<'_>,
    site: Site<'_>,
    made: SetUp,
    watch: Watch<'_>,
    status: StatusThread<'_, '_>,
) -> Result<bool, ServingError<'static>>
where
    R: Runtime<A = Global, File = File>
        + Net<Listener = TcpListener, Stream = TcpStream>
        + Threads
        + Wait
        + Sync
        + Eprint,
{
    let SetUp {
        hub,
        acceptor,
        workers,
    } = made;
    match serve_row(
        rt, opened, &hub, asked, site, acceptor, workers, watch, status,
    ) {
        Ok(()) => Ok(hub.has_stopped()),
        Err(error) => Err(error),
    }
}

/// The parts of a site that are lent to the workers.
#[derive(Drop)]
struct SiteParts {
    pages: Vec<Page>,
    origins: Vec<String>,
    user_header: Option<String>,
    proxies: Vec<u128>,
}

/// The parts of the site of a server: its pages with that of its numbers, and the values from the settings.
fn site_parts(
    alloc: Global,
    asked: Settings<'_>,
    pages: &[Page],
    opened: &Opened,
) -> Result<SiteParts, AllocError> {
    let user_header = match asked.user_header {
        Some(name) => Some(String::from_str(alloc, name)?),
        None => None,
    };
    Ok(SiteParts {
        pages: with_numbers(alloc, pages, opened.numbers.as_slice())?,
        origins: origins_of(alloc, asked)?,
        user_header,
        proxies: proxies_of(alloc, asked)?,
    })
}

/// The field in which the proxies of these parts name users, if the settings give one.
fn users_in<'a>(parts: &'a SiteParts) -> Option<UserHeader<'a>> {
    let name = parts.user_header.as_ref()?;
    Some(users_of(name.as_str(), parts.proxies.as_slice()))
}

/// Serves connections with the pads of a row.
fn serve_row<'s, 'e, R>(
    rt: &'s R,
    opened: &'s Opened,
    hub: &'s Hub,
    asked: Settings<'_>,
    site: Site<'s>,
    acceptor: Acceptor,
    workers: Vec<Worker>,
    watch: Watch<'s>,
    status: StatusThread<'s, 'e>,
) -> Result<(), ServingError<'static>>
where
    R: Runtime<A = Global, File = File>
        + Net<Listener = TcpListener, Stream = TcpStream>
        + Threads
        + Wait
        + Sync
        + Eprint,
{
    let (cells, keeper) = (opened.cells.as_slice(), opened.keeper.as_ref());
    let guard = Guard {
        keeper,
        stop: &opened.stop,
    };
    let groups = make_groups(rt, opened, asked, guard)?;
    let gate = PadGate::new(rt, &opened.exchange, keeper, hub);
    let row = PadTable {
        rt,
        cells,
        names: &opened.names,
        replica: asked.replica,
        accounts: &opened.accounts,
        gate: &gate,
    };
    let settle = Settling::new(rt, keeper, hub);
    let service = Service {
        row: &row,
        hub,
        limits: limits_of(asked, opened.room),
        settle: &settle,
        site,
    };
    let sender = sender_of(opened, asked);
    let ends = Ends {
        exchange: &opened.exchange,
        guard,
        bell: &opened.end,
        sender: sender.as_ref(),
        status: status.end,
    };
    let others = Others {
        groups,
        watch,
        status,
        ends,
    };
    serve(&service, acceptor, workers, others)
}

/// The limits of the settings, as far as there is room for them.
fn limits_of(asked: Settings<'_>, room: FileShares) -> Limits {
    Limits {
        connections: asked.connections,
        clients: room.clients,
        page_requests: room.page_requests,
        per_address: asked.clients_per_address,
        idle: asked.idle,
        logs_access: asked.logs_access,
    }
}

/// The origins of the settings, which are separated by commas; without the option, none.
fn origins_of(alloc: Global, asked: Settings<'_>) -> Result<Vec<String>, AllocError>
    ensures { asked.entry.web_origins ≡ None → IfOk result (λ origins. origins.items ≡ []) }
{
    let mut origins = Vec::new(alloc);
    if let Some(all) = asked.web_origins {
        for origin in all.split(',') {
            origins.push(String::from_str(alloc, origin.trim())?)?;
        }
    }
    Ok(origins)
}

/// The threads that serve no connection, before they start, and the means to end them.
#[derive(Drop)]
struct Others<'a, 'b, 'e, R> {
    groups: Vec<Group<'a, R>>,
    watch: Watch<'a>,
    status: StatusThread<'a, 'e>,
    ends: Ends<'b, 'e>,
}

/// Accepts connections in one thread, and serves them in the workers' threads. Others exchange with the peers, and once more after
/// the last connection.
fn serve<R>(
    service: &Service<'_, BlockSeq, R, PadGate<'_, R>, Settling<'_, R>>,
    acceptor: Acceptor,
    mut workers: Vec<Worker>,
    others: Others<'_, '_, '_, R>,
) -> Result<(), ServingError<'static>>
where
    R: AllocGlobal
        + Net<Listener = TcpListener, Stream = TcpStream>
        + Clock
        + Threads
        + Wait
        + Sync
        + Eprint,
{
    let (row, hub, limits) = (service.row, service.hub, service.limits);
    let rt = row.rt;
    let Others {
        groups,
        watch,
        status,
        ends,
    } = others;
    let (board, bell) = (status.board, ends.bell);
    thread::scope(thread::scope_env(), rt, |scope| {
        let has_help = start_help(scope, rt, hub, ends.guard);
        let mut is_whole = start_status(scope, rt, hub, status) && has_help;
        // With a standby that is never to lack anything, nobody is served before it has everything, peers neither.
        if let Some(sender) = ends.sender {
            board.set_waiting(sender.is_strict());
            if !start_sending(scope, rt, hub, sender) {
                is_whole = false;
            } else if !sender.wait(rt) {
                hub.stop();
            }
            board.set_waiting(false);
        }
        let (threads, are_all) = start_exchange(scope, row, ends.exchange, groups, ends.guard, hub);
        let watching = scope.spawn(move || watch_accounts(rt, hub, watch, bell));
        let accepting = scope.spawn(move || accept_all(rt, acceptor, hub, limits));
        if !is_whole || !are_all || watching.is_err() || accepting.is_err() {
            hub.stop();
            ends.end_at_once(rt);
            return Err(ServingError::NoThread);
        }
        serve_all(service, workers.as_mut_slice());
        board.set_ending();
        ends.end(rt, hub, threads);
        Ok(())
    })
}
