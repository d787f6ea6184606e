//! The entrance of a standby: it accepts connections until another thread says that no more copies are taken.
use log::warn;
use mio::net::TcpListener;
use mio::{Events, Interest, Poll, Token, Waker};
use server_log::ServerLog;
use standby::CopyingSeat;
use std::alloc::Global;
use std::io::ErrorKind;
use std::net::{Net, TcpStream};
use std::sync::Wait;
use std::time::{Clock, Duration};
use std::{io, net};

/// The tokens of the listener and of the waker.
const LISTENER: Token = Token(0);

const WAKING: Token = Token(1);

/// The most events that one poll takes.
const EVENTS: usize = 2;

/// The pause after the system refused a connection, in seconds.
const PAUSE: u64 = 1;

/// The listener of a standby.
#[derive(Drop)]
pub struct StandbyEntrance {
    poll: Poll,
    events: Events,
    listener: TcpListener,
}

impl StandbyEntrance {
    /// An entrance with a listener that is bound, and the waker that wakes the thread waiting for a connection.
    pub fn new<R: Net>(
        rt: &R,
        alloc: Global,
        bound: net::TcpListener,
    ) -> io::Result<(StandbyEntrance, Waker)> {
        let poll = Poll::new(rt)?;
        let waker = Waker::new(poll.registry(), WAKING)?;
        bound.set_nonblocking(true)?;
        let mut listener = TcpListener::from_std(bound);
        poll.registry()
            .register(&mut listener, LISTENER, Interest::READABLE)?;
        let entrance = StandbyEntrance {
            poll,
            events: Events::with_capacity(alloc, EVENTS)?,
            listener,
        };
        Ok((entrance, waker))
    }

    /// Waits for the next connection. None: no more copies are taken, or the system refuses to wait.
    pub fn accept<R: Clock + Wait + Eprint>(
        &mut self,
        rt: &R,
        seat: &CopyingSeat,
    ) -> Option<TcpStream> {
        for _ in rt.forever() {
            if seat.has_ended(rt) {
                return None;
            }
            let pause = match self.listener.accept() {
                Ok((stream, _from)) => return Some(TcpStream::from(stream)),
                Err(cause) => match cause.kind() {
                    ErrorKind::Interrupted | ErrorKind::ConnectionAborted => continue,
                    ErrorKind::WouldBlock => None,
                    _ => {
                        warn!(ServerLog(rt); "cannot accept connections: {cause}");
                        Some(Duration::from_secs(PAUSE))
                    }
                },
            };
            if let Err(cause) = self.poll.poll(&mut self.events, pause) {
                warn!(ServerLog(rt); "no more connections are accepted: {cause}");
                return None;
            }
        }
        None
    }
}
