//! The address where operators ask for the status of a server.
use crate::status_answer::answer_to;
use crate::status_board::StatusBoard;
use event_loop::Hub;
use log::warn;
use mio::net::{TcpListener, TcpStream};
use mio::{Events, Interest, Poll, Token, Waker};
use server_counts::has_whole_head;
use server_log::ServerLog;
use std::alloc::Global;
use std::io::{ErrorKind, Read, Write};
use std::net::Net;
use std::sync::Wait;
use std::sync::atomic::{AtomicBool, Ordering};
use std::time::{Clock, Duration, Instant};
use std::{io, net};

/// The most bytes of a request's head.
const LONGEST_HEAD: usize = 4_096;

/// The number of bytes that one read takes.
const CHUNK: usize = 1_024;

/// The milliseconds in which a request has to be whole, and in which a response has to be taken.
const PATIENCE: u64 = 1_000;

/// The pause after the system refused a connection, in milliseconds.
const PAUSE: u64 = 50;

const WAKING: Token = Token(0);

const LISTENER: Token = Token(1);

const VISITOR: Token = Token(2);

/// The state of the thread that answers for the status.
#[derive(Drop)]
pub struct StatusDoor {
    poll: Poll,
    events: Events,
    listener: TcpListener,
}

/// The means to end that thread.
#[derive(Drop)]
pub struct StatusEnd {
    waker: Waker,
    is_over: AtomicBool,
}

impl StatusEnd {
    /// The thread ends now, also while somebody is connected.
    pub fn end(&self) {
        self.is_over.store(true, Ordering::SeqCst);
        let _woken = self.waker.wake();
    }

    fn is_over(&self) -> bool {
        self.is_over.load(Ordering::SeqCst)
    }
}

/// Sets up the thread that answers at this listener.
pub fn set_up_status<R: Net>(
    rt: &R,
    alloc: Global,
    listener: net::TcpListener,
) -> io::Result<(StatusDoor, StatusEnd)> {
    let poll = Poll::new(rt)?;
    let waker = Waker::new(poll.registry(), WAKING)?;
    listener.set_nonblocking(true)?;
    let mut listener = TcpListener::from_std(listener);
    poll.registry()
        .register(&mut listener, LISTENER, Interest::READABLE)?;
    let door = StatusDoor {
        poll,
        events: Events::with_capacity(alloc, 4)?,
        listener,
    };
    let end = StatusEnd {
        waker,
        is_over: AtomicBool::new(false),
    };
    Ok((door, end))
}

/// Answers whoever asks for the status, one connection after the other, until it is ended.
pub fn answer_status<R: AllocGlobal + Clock + Wait + Eprint>(
    rt: &R,
    mut door: StatusDoor,
    end: &StatusEnd,
    hub: &Hub,
    board: &StatusBoard<'_>,
) {
    // True if it was logged that the system refuses connections, since it last gave one.
    let mut is_refused = false;
    for _ in rt.forever() {
        if end.is_over() {
            return;
        }
        match door.listener.accept() {
            Ok((stream, _from)) => {
                is_refused = false;
                // Whoever is too slow or breaks off gets no answer, and nothing is logged.
                let _served = door.serve(rt, end, hub, board, stream);
            }
            Err(cause) => match cause.kind() {
                ErrorKind::WouldBlock => door.wait(None),
                ErrorKind::Interrupted | ErrorKind::ConnectionAborted => {}
                _ => {
                    if !is_refused {
                        warn!(ServerLog(rt); "cannot accept connections at the address of the status: {cause}");
                    }
                    is_refused = true;
                    door.wait(Some(PAUSE));
                }
            },
        }
    }
}

impl StatusDoor {
    // Waits until something has happened, for at most `most` milliseconds. A failure is found by the next call that
    // needs it.
    fn wait(&mut self, most: Option<u64>) {
        let _failed = self
            .poll
            .poll(&mut self.events, most.map(Duration::from_millis));
    }

    // Reads one request, and answers it.
    fn serve<R: AllocGlobal + Clock + Wait>(
        &mut self,
        rt: &R,
        end: &StatusEnd,
        hub: &Hub,
        board: &StatusBoard<'_>,
        mut stream: TcpStream,
    ) -> io::Result<()> {
        let interest = Interest::READABLE | Interest::WRITABLE;
        self.poll
            .registry()
            .register(&mut stream, VISITOR, interest)?;
        let head = self.read_head(rt, end, &mut stream)?;
        let response = answer_to(rt, hub, board, head.as_slice())?;
        self.write_all(rt, end, &mut stream, response.as_bytes())
    }

    // The head of a request, or as much of it as came before the end or the limit.
    fn read_head<R: AllocGlobal + Clock>(
        &mut self,
        rt: &R,
        end: &StatusEnd,
        stream: &mut TcpStream,
    ) -> io::Result<Vec<u8>> {
        let mut head = Vec::new(rt.alloc());
        let mut chunk = [0u8; CHUNK];
        let began = Instant::now(rt)?;
        for _ in 0..u64::MAX {
            match stream.read(&mut chunk) {
                Ok(0) => return Ok(head),
                Ok(count) => {
                    head.extend_from_slice(chunk.get(..count).unwrap_or(&[]))?;
                    if has_whole_head(head.as_slice()) || head.len() > LONGEST_HEAD {
                        return Ok(head);
                    }
                }
                Err(cause) if cause.kind() == ErrorKind::WouldBlock => {
                    self.wait(Some(left_of(rt, end, began)?));
                }
                Err(cause) if cause.kind() == ErrorKind::Interrupted => {}
                Err(cause) => return Err(cause),
            }
        }
        Ok(head)
    }

    // Writes a response.
    fn write_all<R: Clock>(
        &mut self,
        rt: &R,
        end: &StatusEnd,
        stream: &mut TcpStream,
        bytes: &[u8],
    ) -> io::Result<()> {
        let mut rest = bytes;
        let began = Instant::now(rt)?;
        for _ in 0..u64::MAX {
            if rest.is_empty() {
                break;
            }
            match stream.write(rest) {
                Ok(0) => return Err(io::Error::from(ErrorKind::WriteZero)),
                Ok(count) => rest = rest.get(count..).unwrap_or(&[]),
                Err(cause) if cause.kind() == ErrorKind::WouldBlock => {
                    self.wait(Some(left_of(rt, end, began)?));
                }
                Err(cause) if cause.kind() == ErrorKind::Interrupted => {}
                Err(cause) => return Err(cause),
            }
        }
        Ok(())
    }
}

// The milliseconds of `PATIENCE` that are left since then. It fails if none is left, or if the server ends.
fn left_of<C: Clock>(clock: &C, end: &StatusEnd, began: Instant) -> io::Result<u64> {
    let passed = Instant::now(clock)?.saturating_duration_since(began);
    let passed = passed
        .as_secs()
        .saturating_mul(1_000)
        .saturating_add(u64::from(passed.subsec_millis()));
    if passed >= PATIENCE || end.is_over() {
        return Err(io::Error::from(ErrorKind::TimedOut));
    }
    Ok(PATIENCE.saturating_sub(passed))
}
