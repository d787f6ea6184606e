//! One turn of a worker.
use crate::access::{log_access, log_taken};
use crate::arrivals::Arrival;
use crate::client::Client;
use crate::clients::Clients;
use crate::delay::LogIn;
use crate::hub::Connected;
use crate::leaving::{end, move_away, turn_away};
use crate::limits::CHECK;
use crate::lobby::{Noted, PATIENT};
use crate::serve::ClientStep;
use crate::settle::{Reach, Settle};
use crate::ticker::Ticker;
use crate::times::Late;
use crate::work::{Service, Worker};
use conversation::{Gate, Shared};
use crossbeam_channel::TryRecvError;
use log::warn;
use pad_model::Sequence;
use server_log::ServerLog;
use sessions::Stranger;
use std::io;
use std::sync::Wait;
use std::time::{Clock, Duration};

/// The most arrivals that are taken in one turn.
const ARRIVALS: u32 = 4_096;

/// Waits until something is ready. Then it serves each client that can be read, settles once for all replies, and
/// writes them.
pub fn take_turn<S, R, G, T>(
    service: &Service<'_, S, R, G, T>,
    worker: &mut Worker,
    clients: &mut Clients,
    pads: &mut Shared<'_, S, R, G>,
    ticker: &mut Ticker,
    checked: &mut u64,
) -> io::Result<()>
where
    S: Sequence,
    R: AllocGlobal + Clock + Wait + Eprint,
    G: Gate,
    T: Settle,
{
    let rt = service.row.rt;
    let timeout = timeout_of(rt, clients, ticker);
    worker.poll.poll(&mut worker.events, timeout)?;
    if clients.note(&worker.events)? {
        receive(service, worker, clients, pads);
        if service.hub.take_moved(worker.place) {
            clients.release(service.hub, worker.place, ticker.look(rt))?;
        }
    }
    if ticker.is_due(worker.events.is_empty()) {
        let now = ticker.look(rt);
        if clients.deadline.is_some_and(|deadline| deadline <= now) {
            clients.release(service.hub, worker.place, now)?;
        }
        if now.saturating_sub(*checked) >= CHECK {
            *checked = now;
            check_times(service, clients, pads, now)?;
        }
    }
    serve(service, worker.place, clients, pads, ticker)?;
    let Ok(reach) = clients.settle(service.settle, service.hub, worker.place) else {
        service.hub.stop();
        return Ok(());
    };
    write(service, worker, clients, pads, &reach)
}

// Returns the time to wait for events. None: without limit, since there are no clients with time limits.
fn timeout_of<C: Clock>(rt: &C, clients: &Clients, ticker: &mut Ticker) -> Option<Duration> {
    if !clients.queue.is_empty() || !clients.owed.is_empty() {
        return Some(Duration::from_millis(0));
    }
    let most = match clients.deadline {
        Some(deadline) => deadline.saturating_sub(ticker.look(rt)).min(CHECK),
        None if clients.all.is_empty() => return None,
        None => CHECK,
    };
    Some(Duration::from_millis(most))
}

// Receives the messages to the worker.
fn receive<S, R, G, T>(
    service: &Service<'_, S, R, G, T>,
    worker: &mut Worker,
    clients: &mut Clients,
    pads: &mut Shared<'_, S, R, G>,
)
where
    S: Sequence,
    R: AllocGlobal + Wait + Clock + Eprint,
    G: Gate,
    T: Settle,
{
    let rt = service.row.rt;
    for _ in 0..ARRIVALS {
        let client = match worker.arrivals.try_recv(rt) {
            Ok(
                Arrival::Accepted {
                    number,
                    stream,
                    entrance,
                    source,
                },
            ) => {
                let protocol = entrance.protocol(rt.alloc());
                Client::new(rt.alloc(), number, worker.place, stream, protocol, source)
            }
            Ok(Arrival::Moved(client)) => client,
            Ok(Arrival::Accounts(accounts)) => {
                clients.accounts = Some(accounts);
                continue;
            }
            Err(TryRecvError::Empty | TryRecvError::Disconnected) => return,
        };
        if let Err(not_served) = clients.insert(worker.poll.registry(), client) {
            turn_away(service, pads, not_served);
        }
    }
}

// Serves each queued client once.
fn serve<S, R, G, T>(
    service: &Service<'_, S, R, G, T>,
    place: usize,
    clients: &mut Clients,
    pads: &mut Shared<'_, S, R, G>,
    ticker: &mut Ticker,
) -> io::Result<()>
where
    S: Sequence,
    R: AllocGlobal + Clock + Wait + Eprint,
    G: Gate,
    T: Settle,
{
    let rt = service.row.rt;
    for index in 0..clients.queue.len() {
        let Some(key) = clients.queue.get(index).copied() else {
            break;
        };
        let Some(client) = clients.all.get_mut(key) else {
            continue;
        };
        let (was_nobody, visits) = (client.is_nobody(), client.visits());
        let was_request = client.connected() == Connected::PageRequest;
        let until = match client.serve(service, place, pads, &mut clients.buffers) {
            ClientStep::Goes | ClientStep::Rests | ClientStep::Moves => None,
            ClientStep::Fails(claim) => note_failure(service, client, claim, ticker.look(rt)),
            ClientStep::Knocks => client.knock(rt, service.hub.lobby(), ticker.look(rt)),
            ClientStep::Waits(wanted) => Some(client.wait(ticker.look(rt), wanted)),
        };
        service.hub.counts().note_visits(visits, client.visits());
        if was_request {
            note_stranger(service, client, ticker);
        }
        if service.limits.logs_access && was_nobody {
            log_access(rt, client, was_request);
        }
        clients.owes = clients.owes || client.owes();
        clients.owed.push(key)?;
        if let Some(until) = until {
            clients.delay(key, until)?;
        }
    }
    clients.queue.clear();
    Ok(())
}

// Logs a user of the proxy who was refused because the name is somebody else's.
fn note_stranger<S, R, G, T>(
    service: &Service<'_, S, R, G, T>,
    client: &mut Client,
    ticker: &mut Ticker,
)
where
    S: Sequence,
    R: AllocGlobal + Clock + Wait + Eprint,
    G: Gate,
    T: Settle,
{
    let rt = service.row.rt;
    if let Some(Stranger::Taken(name)) = client.party.take_stranger() {
        if service.hub.may_report(ticker.look(rt)) {
            log_taken(rt, client, &name);
        }
    }
}

// Notes a wrong token, and logs it once there were some. Returns the time until which its reply is held back, if it is: a
// log-in that has waited before it was answered does not wait again.
fn note_failure<S, R, G, T>(
    service: &Service<'_, S, R, G, T>,
    client: &mut Client,
    claim: Option<LogIn>,
    now: u64,
) -> Option<u64>
where
    S: Sequence,
    R: AllocGlobal + Clock + Wait + Eprint,
    G: Gate,
    T: Settle,
{
    let (rt, hub) = (service.row.rt, service.hub);
    let name = match &claim {
        Some(LogIn::Author(name)) => name.clone().ok(),
        _ => None,
    };
    let noted = hub.lobby().note_wrong(rt, client.address(), name, now);
    if noted.of_address.max(noted.for_name) >= PATIENT && hub.may_report(now) {
        log_failure(rt, client, claim, noted);
    }
    if noted.of_address > PATIENT {
        return None;
    }
    client.pause(now, noted.for_name)
}

// Logs a client that sent a wrong token, who it claimed to be, and how many there were.
fn log_failure<R: Clock + Eprint>(rt: &R, client: &mut Client, claim: Option<LogIn>, noted: Noted) {
    let number = client.number();
    let Noted {
        of_address,
        for_name,
        total,
    } = noted;
    let Some(claim) = claim else {
        warn!(ServerLog(rt); "connection {number}: a wrong token; {total} since the start");
        return;
    };
    match client.party.peer_address() {
        Ok(address) =>
            warn!(ServerLog(rt); "connection {number} from {address}: a wrong token for {claim}; {of_address} from this address and {for_name} for this name lately, {total} since the start"),
        Err(_) =>
            warn!(ServerLog(rt); "connection {number}: a wrong token for {claim}; {for_name} for this name lately, {total} since the start"),
    }
}

// Writes the replies that are settled, and ends the clients that have nothing left to do.
fn write<S, R, G, T>(
    service: &Service<'_, S, R, G, T>,
    worker: &Worker,
    clients: &mut Clients,
    pads: &mut Shared<'_, S, R, G>,
    reach: &Option<Reach<T::Settled>>,
) -> io::Result<()>
where
    S: Sequence,
    R: AllocGlobal + Wait + Clock + Eprint,
    G: Gate,
    T: Settle,
{
    for index in 0..clients.owed.len() {
        let Some(key) = clients.owed.get(index).copied() else {
            break;
        };
        clients.write::<T>(key, reach)?;
        let Some(client) = clients.all.get_mut(key) else {
            continue;
        };
        if client.is_gone() {
            end(service, clients, pads, key);
        } else if client.moves() {
            move_away(service, worker, clients, pads, key);
        } else if client.queue_again() {
            clients.later.push(key)?;
        }
    }
    clients.turn_over();
    Ok(())
}

// Ends the clients that have exceeded a time limit.
fn check_times<S, R, G, T>(
    service: &Service<'_, S, R, G, T>,
    clients: &mut Clients,
    pads: &mut Shared<'_, S, R, G>,
    now: u64,
) -> io::Result<()>
where
    S: Sequence,
    R: AllocGlobal + Wait + Clock + Eprint,
    G: Gate,
    T: Settle,
{
    let idle = service
        .limits
        .idle
        .map(|seconds| u64::from(seconds).saturating_mul(1_000));
    for key in 0..clients.all.capacity() {
        let Some(client) = clients.all.get_mut(key) else {
            continue;
        };
        if client.end_stall() {
            clients.queue.push(key)?;
        }
        let Some(late) = client.check(now, idle) else {
            continue;
        };
        let number = client.number();
        let why = match late {
            Late::Silent => "it was silent for too long",
            Late::Unread => "it did not read its replies",
            Late::Nobody => "it did not log in",
        };
        if client.connected() == Connected::Client {
            warn!(ServerLog(service.row.rt); "connection {number} ended: {why}");
        }
        client.party.say_goodbye();
        end(service, clients, pads, key);
    }
    Ok(())
}
