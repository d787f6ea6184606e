//! The server of a standby: it keeps copies of another server's files, and answers that server alone, until it is promoted.
ghost use Rattle.std.specs.Prelude.{◌≤◌};

use crate::entrance::StandbyEntrance;
use crate::listeners::listen_alone;
use crate::serving_error::ServingError;
use accounts_file::read_accounts;
use log::{error, info, warn};
use server_log::ServerLog;
use sessions::Accounts;
use standby::{CopyingSeat, Left, SocketConversation, StandbyConversation, StandbyDoor};
use std::alloc::Global;
use std::fs::File;
use std::net::{Net, TcpListener, TcpStream};
use std::rt::Runtime;
use std::sync::Wait;
use std::thread::Threads;
use std::time::{Clock, Duration};
use std::{io, thread};
use store_files::{Owner, StandbyStore};

/// The seconds that a read of the greeting takes at most. There are five of them.
const GREETING: u64 = 1;

/// The seconds that a read of the first request after it takes at most. There are five of them, too.
const FIRST_REQUEST: u64 = 5;

/// The seconds of silence after which a main server counts as gone. It sends something each second.
const SILENCE: u64 = 10;

/// The settings of a standby.
#[derive(Clone, Copy)]
pub struct StandbySettings<'a> {
    /// The replica number of this server, at least 1.
    pub replica: u16,
    /// The number of the main server, which is a peer of the accounts file.
    pub main: u16,
    /// The most visits that may be present on a pad at once, by which the files are read.
    pub present: u64,
    /// The directory where the copies are kept.
    pub store: &'a str,
}

/// Keeps copies of the files of the main server, which connects at an address, until the standby is promoted: then it returns,
/// and has closed the store and the address. It answers nobody else.
pub fn serve_copies<'a, R>(
    rt: &R,
    files: HostRuntime,
    asked: StandbySettings<'a>,
    address: &'a str,
    path: &'a str,
) -> Result<(), ServingError<'a>>
where
    R: Runtime<A = Global, File = File>
        + Net<Listener = TcpListener, Stream = TcpStream>
        + Threads
        + Wait
        + Sync
        + Eprint,
    requires { 1 ≤ asked.replica }
{
    let number = asked.main;
    let accounts = accounts_with(rt, path, number)?;
    let door = StandbyDoor {
        accounts: &accounts,
        main: number,
        own: asked.replica,
    };
    keep_copies(rt, files, asked, address, door)
}

// The accounts of a file, which have to have this peer.
fn accounts_with<'a, R>(rt: &R, path: &'a str, number: u16) -> Result<Accounts, ServingError<'a>>
where
    R: Runtime<A = Global, File = File> + Eprint,
{
    let (accounts, _bytes) = read_accounts(rt, path)?;
    if accounts.peers().iter().any(|peer| peer.number == number) {
        Ok(accounts)
    } else {
        Err(ServingError::NoPeer { number })
    }
}

// Opens the store and the address, and keeps copies until the standby is promoted.
fn keep_copies<'a, R>(
    rt: &R,
    files: HostRuntime,
    asked: StandbySettings<'a>,
    address: &'a str,
    door: StandbyDoor<'_>,
) -> Result<(), ServingError<'a>>
where
    R: Runtime<A = Global, File = File>
        + Net<Listener = TcpListener, Stream = TcpStream>
        + Threads
        + Wait
        + Sync
        + Eprint,
    requires { 1 ≤ asked.replica }
{
    let owner = Owner::new(asked.replica, false, asked.present);
    let mut store = StandbyStore::open(rt, files, asked.store, &owner)?;
    let listener = listen_alone(rt, address)?;
    match copy_until_promoted(rt, &mut store, door, listener) {
        Ok(end) => end_with(rt, asked.store, end),
        Err(error) => Err(error),
    }
}

// Logs why no more copies are taken. It is an error unless the standby is promoted.
fn end_with<'a, R>(rt: &R, folder: &'a str, end: CopyingEnd) -> Result<(), ServingError<'a>>
where
    R: Clock + Eprint,
{
    match end {
        CopyingEnd::Promoted => {
            info!(ServerLog(rt); "this standby is promoted: it takes no more copies, and serves the pads itself");
            Ok(())
        }
        CopyingEnd::StoreFailed(cause) => {
            error!(ServerLog(rt); "the store {folder} cannot be written: {cause}");
            Err(ServingError::StoreFailed { folder })
        }
        CopyingEnd::Closed => Err(ServingError::WorkerFailed),
    }
}

// The reason why no more copies are taken.
#[derive(Drop)]
enum CopyingEnd {
    Promoted,
    StoreFailed(io::Error),
    // The system refuses to wait for connections.
    Closed,
}

// Lets in whoever connects in one thread, and takes copies in the other.
fn copy_until_promoted<R>(
    rt: &R,
    store: &mut StandbyStore,
    door: StandbyDoor<'_>,
    listener: TcpListener,
) -> Result<CopyingEnd, ServingError<'static>>
where
    R: Runtime<A = Global, File = File>
        + Net<Listener = TcpListener, Stream = TcpStream>
        + Threads
        + Wait
        + Sync
        + Eprint,
{
    let (entrance, waker) = match StandbyEntrance::new(rt, rt.alloc(), listener) {
        Ok(made) => made,
        Err(cause) => return Err(ServingError::NotSetUp(cause)),
    };
    let made = CopyingSeat::new();
    let seat = &made;
    thread::scope(thread::scope_env(), rt, |scope| {
        if scope
            .spawn(move || let_all_in(rt, entrance, seat, door))
            .is_err()
        {
            return Err(ServingError::NoThread);
        }
        let failed = take_copies(rt, store, seat, door.main);
        seat.end(rt, failed.is_some());
        let _woken = waker.wake();
        Ok(match failed {
            Some(cause) => CopyingEnd::StoreFailed(cause),
            None if seat.is_promoted(rt) => CopyingEnd::Promoted,
            None => CopyingEnd::Closed,
        })
    })
}

// Lets in whoever connects, until the standby is promoted or its store has failed.
fn let_all_in<R>(rt: &R, mut entrance: StandbyEntrance, seat: &CopyingSeat, door: StandbyDoor<'_>)
where
    R: AllocGlobal + Clock + Wait + Eprint,
{
    for _ in rt.forever() {
        let Some(stream) = entrance.accept(rt, seat) else {
            break;
        };
        match let_in(rt, seat, door, stream) {
            Ok(true) => break,
            Ok(false) => {}
            Err(left) => tell(rt, door.main, left),
        }
    }
    seat.close(rt);
}

// Greets whoever has connected. A main server is offered the seat. Returns whether the standby was promoted instead.
fn let_in<R>(
    rt: &R,
    seat: &CopyingSeat,
    door: StandbyDoor<'_>,
    stream: TcpStream,
) -> Result<bool, Left>
where
    R: AllocGlobal + Wait,
{
    let alloc = rt.alloc();
    set_up(&stream)?;
    let timed = stream.try_clone()?;
    let mut visitor = conversation_over(alloc, stream)?;
    if asks_for_promotion(alloc, door, &timed, &mut visitor)? {
        return seat.promote(rt, alloc, &mut visitor);
    }
    seat.offer(rt, visitor, timed);
    Ok(false)
}

// Sets how long the greeting may take.
fn set_up(stream: &TcpStream) -> io::Result<()> {
    stream.set_nonblocking(false)?;
    stream.set_nodelay(true)?;
    stream.set_read_timeout(Some(Duration::from_secs(GREETING)))?;
    stream.set_write_timeout(Some(Duration::from_secs(SILENCE)))
}

// A conversation over a connection.
fn conversation_over(alloc: Global, stream: TcpStream) -> Result<SocketConversation, Left> {
    let writer = stream.try_clone()?;
    Ok(StandbyConversation::new(alloc, stream, writer)?)
}

// Greets a visitor. Returns whether its first request is that this standby is promoted; for others, the time is set after which
// silence ends the connection.
fn asks_for_promotion(
    alloc: Global,
    door: StandbyDoor<'_>,
    timed: &TcpStream,
    visitor: &mut SocketConversation,
) -> Result<bool, Left> {
    visitor.greet(alloc, door)?;
    timed.set_read_timeout(Some(Duration::from_secs(FIRST_REQUEST)))?;
    let asks = visitor.asks_for_promotion(alloc)?;
    if !asks {
        timed.set_read_timeout(Some(Duration::from_secs(SILENCE)))?;
    }
    Ok(asks)
}

// Takes copies over one connection after the other, until nobody is let in any more. Returns why the store has failed, if it has.
fn take_copies<R>(
    rt: &R,
    store: &mut StandbyStore,
    seat: &CopyingSeat,
    number: u16,
) -> Option<io::Error>
where
    R: AllocGlobal + Clock + Wait + Eprint,
{
    for _ in rt.forever() {
        let visitor = seat.next(rt)?;
        info!(ServerLog(rt); "the main server {number} is connected");
        match converse(rt, store, seat, visitor) {
            Left::StoreFailed(cause) => return Some(cause),
            left => tell(rt, number, left),
        }
    }
    None
}

// Answers a main server, until the conversation is over.
fn converse<R>(
    rt: &R,
    store: &mut StandbyStore,
    seat: &CopyingSeat,
    visitor: SocketConversation,
) -> Left
where
    R: AllocGlobal + Clock + Wait + Eprint,
{
    match try_converse(rt, store, seat, visitor) {
        Ok(()) => Left::Gone(None),
        Err(left) => left,
    }
}

fn try_converse<R>(
    rt: &R,
    store: &mut StandbyStore,
    seat: &CopyingSeat,
    mut visitor: SocketConversation,
) -> Result<(), Left>
where
    R: AllocGlobal + Clock + Wait + Eprint,
{
    let alloc = rt.alloc();
    for _ in rt.forever() {
        let request = visitor.next_request(alloc)?;
        visitor.answer(rt, alloc, store, request, seat.is_promoted(rt))?;
    }
    Ok(())
}

// Logs why a conversation is over.
fn tell<R: Clock + Eprint>(rt: &R, number: u16, left: Left) {
    match left {
        Left::Silent => info!(ServerLog(rt); "a connection ended without a greeting"),
        Left::Gone(None) => info!(ServerLog(rt); "the main server {number} is gone"),
        Left::Gone(Some(cause)) =>
            info!(ServerLog(rt); "the main server {number} is gone: {cause}"),
        Left::Refused(refusal) => {
            let (code, name) = (refusal.code(), refusal.name());
            warn!(ServerLog(rt); "a connection was refused: {code} {name}");
        }
        Left::Memory => warn!(ServerLog(rt); "a connection was ended: 900 Memory"),
        Left::StoreFailed(_) => {}
    }
}
