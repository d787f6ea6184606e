//! Accepts connections and hands them to the workers.
use crate::arrivals::{Arrival, ClientAddress, Entrance};
use crate::clients::WAKING;
use crate::hub::Hub;
use crate::limits::Limits;
use crate::rarely::Rarely;
use crate::ticker::Ticker;
use log::warn;
use mio::net::{TcpListener, TcpStream};
use mio::{Events, Interest, Poll, Token, Waker};
use server_log::ServerLog;
use std::alloc::{AllocError, Global};
use std::io::{ErrorKind, Write};
use std::net::Net;
use std::sync::Wait;
use std::time::{Clock, Duration};
use std::{io, net};

/// The line for a client that is one too many.
pub const FULL: &[u8] = b"{\"code\":902,\"error\":\"Full\",\"ok\":false}\n";

/// The response for a browser that is one too many, or for which there is no memory.
pub const FULL_PAGE: &[u8] =
    b"HTTP/1.1 503 Service Unavailable\r\nX-Content-Type-Options: nosniff\r\nContent-Type: text/plain; charset=utf-8\r\nRetry-After: 30\r\nConnection: close\r\n\r\nThe server is full. Please try again later.\n";

/// The pause after the system refused a connection, in milliseconds. It would mostly refuse the next one too.
const PAUSE: u64 = 50;

/// Milliseconds between two log messages about refused clients, or about connections that the system refused.
const EVERY: u64 = 60_000;

/// The most events that one poll takes.
const EVENTS: usize = 8;

/// Connections accepted between two checks whether the server has stopped.
const AT_ONCE: u32 = 256;

/// Accepts connections.
#[derive(Drop)]
pub struct Acceptor {
    poll: Poll,
    events: Events,
    lines: TcpListener,
    web: Option<TcpListener>,
}

impl Acceptor {
    /// Creates an acceptor, with a listener for clients that speak lines and perhaps one for browsers, and the waker
    /// that wakes it.
    pub(crate) fn new<R: Net>(
        rt: &R,
        alloc: Global,
        lines: net::TcpListener,
        web: Option<net::TcpListener>,
    ) -> io::Result<(Acceptor, Waker)> {
        let poll = Poll::new(rt)?;
        let waker = Waker::new(poll.registry(), WAKING)?;
        let lines = listen_at(&poll, lines, Token(0))?;
        let web = match web {
            Some(web) => Some(listen_at(&poll, web, Token(1))?),
            None => None,
        };
        let acceptor = Acceptor {
            poll,
            events: Events::with_capacity(alloc, EVENTS)?,
            lines,
            web,
        };
        Ok((acceptor, waker))
    }
}

// Registers a listener.
fn listen_at(poll: &Poll, listener: net::TcpListener, token: Token) -> io::Result<TcpListener> {
    listener.set_nonblocking(true)?;
    let mut listener = TcpListener::from_std(listener);
    poll.registry()
        .register(&mut listener, token, Interest::READABLE)?;
    Ok(listener)
}

/// The outcome of a round of accepting.
#[derive(Clone, Copy, PartialEq, Eq)]
enum Round {
    /// No more connections wait.
    Done,
    /// More connections may wait.
    More,
    /// The system refused a connection.
    Refused,
    /// The limit of accepted connections was reached.
    Last,
}

impl Round {
    /// The joint outcome of this round and one at another listener.
    fn and(self, other: Round) -> Round {
        match (self, other) {
            (Round::Last, _) | (_, Round::Last) => Round::Last,
            (Round::Refused, _) | (_, Round::Refused) => Round::Refused,
            (Round::More, _) | (_, Round::More) => Round::More,
            (Round::Done, Round::Done) => Round::Done,
        }
    }
}

/// The counts and the log state of accepting.
#[derive(Drop)]
struct AcceptCount {
    accepted: u64,
    ticker: Ticker,
    full: Rarely,
    refused: Rarely,
}

/// Accepts connections and hands each to the worker with the fewest clients, until the limit of accepted connections is
/// reached or the server has stopped. A client that is one too many is told so, and counts as accepted. A connection
/// that the system refuses does not count.
pub fn accept_all<R: Clock + Wait + Eprint>(
    rt: &R,
    mut acceptor: Acceptor,
    hub: &Hub,
    limits: Limits,
) {
    let mut count = AcceptCount {
        accepted: 0,
        ticker: Ticker::new(hub.began()),
        full: Rarely::new(EVERY),
        refused: Rarely::new(EVERY),
    };
    let mut round = Round::Done;
    for _ in rt.forever() {
        let timeout = match round {
            Round::Done => None,
            Round::More => Some(Duration::from_millis(0)),
            Round::Refused => Some(Duration::from_millis(PAUSE)),
            Round::Last => break,
        };
        if let Err(cause) = acceptor.poll.poll(&mut acceptor.events, timeout) {
            warn!(ServerLog(rt); "no more connections are accepted: {cause}");
            break;
        }
        if hub.has_stopped() {
            break;
        }
        round = accept_some(
            rt,
            &acceptor.lines,
            Entrance::Lines,
            hub,
            limits,
            &mut count,
        );
        if let (Some(web), true) = (&acceptor.web, round != Round::Last) {
            let other = accept_some(rt, web, Entrance::Web, hub, limits, &mut count);
            round = round.and(other);
        }
    }
    hub.close();
}

// Accepts the waiting connections.
fn accept_some<R: Clock + Wait + Eprint>(
    rt: &R,
    listener: &TcpListener,
    entrance: Entrance,
    hub: &Hub,
    limits: Limits,
    count: &mut AcceptCount,
) -> Round {
    for _ in 0..AT_ONCE {
        match listener.accept() {
            Ok((stream, from)) => {
                count.accepted = count.accepted.saturating_add(1);
                let source = ClientAddress::new(from.ip());
                take(rt, stream, source, entrance, hub, limits, count);
            }
            Err(error) => match error.kind() {
                ErrorKind::WouldBlock => return Round::Done,
                ErrorKind::Interrupted | ErrorKind::ConnectionAborted => {}
                _ => {
                    if count.refused.is_due(count.ticker.look(rt)) {
                        warn!(ServerLog(rt); "cannot accept connections: {error}");
                    }
                    return Round::Refused;
                }
            },
        }
        let accepted = count.accepted;
        if limits
            .connections
            .is_some_and(|most| accepted >= u64::from(most))
        {
            return Round::Last;
        }
    }
    Round::More
}

// Hands a connection to a worker, unless the server is full.
fn take<R: Clock + Wait + Eprint>(
    rt: &R,
    mut stream: TcpStream,
    source: ClientAddress,
    entrance: Entrance,
    hub: &Hub,
    limits: Limits,
    count: &mut AcceptCount,
) {
    let number = count.accepted;
    let Ok(full) = what_is_full(rt, source.key, entrance, hub, limits) else {
        warn!(ServerLog(rt); "connection {number} is not served: out of memory");
        return;
    };
    if let Some(full) = full {
        if count.full.is_due(count.ticker.look(rt)) {
            let Full { most, of } = full;
            warn!(ServerLog(rt); "connection {number} is refused: {most} {of}");
        }
        let refusal = match entrance {
            Entrance::Lines => FULL,
            Entrance::Web => FULL_PAGE,
        };
        let _told = stream.write(refusal);
        return;
    }
    if let Err(cause) = stream.set_nodelay(true) {
        warn!(ServerLog(rt); "connection {number}: cannot set its socket options: {cause}");
    }
    let (home, connected) = (hub.least_busy(), entrance.connected());
    hub.enter(home, connected);
    if entrance == Entrance::Lines {
        hub.lobby().enter();
    }
    let arrival = Arrival::Accepted {
        number,
        stream,
        entrance,
        source,
    };
    if hub.send(rt, home, arrival).is_some() {
        warn!(ServerLog(rt); "connection {number} is not served: out of memory");
        if entrance == Entrance::Lines {
            hub.lobby().leave();
        }
        if limits.per_address.is_some() {
            hub.lobby().disconnect(rt, source.key);
        }
        hub.leave(home, connected);
    }
}

/// The limit that leaves no room for a connection.
#[derive(Clone, Copy)]
struct Full {
    most: u32,
    of: &'static str,
}

// Returns the limit that leaves no room for a connection, if there is one. If there is room, the connection is counted
// for its address.
fn what_is_full<R: Wait>(
    rt: &R,
    address: u128,
    entrance: Entrance,
    hub: &Hub,
    limits: Limits,
) -> Result<Option<Full>, AllocError> {
    let (has_room, most) = match entrance {
        Entrance::Lines => (hub.has_room(limits.clients), limits.clients),
        Entrance::Web => {
            let most = limits.page_requests;
            (hub.has_room_for_page_request(most), most)
        }
    };
    if !has_room {
        let of = "clients are connected";
        return Ok(Some(Full { most, of }));
    }
    let most = limits.newcomers();
    if entrance == Entrance::Lines && !hub.lobby().has_room(most) {
        let of = "clients are connected that have not logged in";
        return Ok(Some(Full { most, of }));
    }
    match limits.per_address {
        Some(most) if !hub.lobby().connect(rt, address, most)? => {
            let of = "connections of its address are there";
            Ok(Some(Full { most, of }))
        }
        _ => Ok(None),
    }
}
