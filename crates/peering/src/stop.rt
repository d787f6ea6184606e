//! Breaks off exchanges with peers.
ghost use Rattle.std.specs.Prelude.{◌≡◌, IfOk, length};

use log::warn;
use server_log::ServerLog;
use std::alloc::{AllocError, Global};
use std::net::{Shutdown, TcpStream};
use std::sync::atomic::{AtomicBool, Ordering};
use std::sync::{Mutex, Wait};
use std::time::Clock;
use store_files::Keeper;

/// The sockets to the peers, through which exchanges are broken off, and whether they were. All threads of a server
/// share one.
#[derive(Drop)]
pub struct Stop {
    sockets: Vec<Mutex<Option<TcpStream>>>,
    is_over: AtomicBool,
}

impl Stop {
    /// Creates the state for a server with this many peers and no exchange under way.
    pub fn new(alloc: Global, peers: usize) -> Result<Stop, AllocError>
        ensures { IfOk result (λ stop. length stop.sockets.items ≡ peers) }
    {
        let mut sockets = Vec::new(alloc);
        for _peer in 0..peers {
            sockets.push(Mutex::new(None))?;
        }
        Ok(Stop {
            sockets,
            is_over: AtomicBool::new(false),
        })
    }
}

/// The state that an exchange with a peer depends on: the store, which has to be synced before a line is written to the
/// peer, and whether exchanges were broken off.
#[derive(Clone, Copy)]
pub struct Guard<'a> {
    /// The keeper of the store; None if there is no store.
    pub keeper: Option<&'a Keeper>,
    /// Created for as many peers as the accounts have.
    pub stop: &'a Stop,
}

impl Guard<'_> {
    // Registers a connection to a peer. It is broken off at once if exchanges are over or the socket gets no second
    // handle.
    pub(crate) fn enter<R: Wait + Clock + Eprint>(&self, rt: &R, peer: usize, stream: &TcpStream) {
        match stream.try_clone() {
            Ok(second) => {
                if let Some(socket) = self.stop.sockets.get(peer) {
                    *socket.lock(rt) = Some(second);
                }
            }
            Err(cause) => {
                warn!(ServerLog(rt); "no exchange with a peer: {cause}");
                let _ended_already = stream.shutdown(Shutdown::Both);
            }
        }
        if self.has_stopped() {
            let _ended_already = stream.shutdown(Shutdown::Both);
        }
    }

    // Removes the connection to a peer that has ended.
    pub(crate) fn leave<R: Wait>(&self, rt: &R, peer: usize) {
        if let Some(socket) = self.stop.sockets.get(peer) {
            *socket.lock(rt) = None;
        }
    }

    /// Returns true if the store has failed, so that nothing more may be reported to anybody.
    pub fn has_failed(&self) -> bool {
        self.keeper.is_some_and(|keeper| keeper.has_failed())
    }

    /// Breaks off all exchanges that are under way. No further ones begin.
    pub fn end<R: Wait>(&self, rt: &R) {
        self.stop.is_over.store(true, Ordering::SeqCst);
        for socket in &self.stop.sockets {
            if let Some(stream) = &*socket.lock(rt) {
                let _ended_already = stream.shutdown(Shutdown::Both);
            }
        }
    }

    // Returns true if the store has failed, or exchanges were broken off.
    pub(crate) fn has_stopped(&self) -> bool {
        self.has_failed() || self.stop.is_over.load(Ordering::SeqCst)
    }
}
