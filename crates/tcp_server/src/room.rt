//! How the files that the process may have open are shared out among clients, HTTP requests and pads.
ghost use Rattle.std.specs.Prelude.{◌≡◌, ◌≤◌, max};
ghost use Rattle.tcp_server.specs.Room as room;
ghost use Rattle.tcp_server.specs.Room.{files_of, shared_out};

use crate::other_threads::SYNCERS;
use crate::settings::Settings;
use crate::threads::threads_for;
use libc::types::rlimit;
use libc::{RLIMIT_NOFILE, getrlimit};
use log::warn;
use server_log::ServerLog;
use std::thread::Threads;
use std::time::Clock;

/// The most HTTP requests that are read or answered at once, where there is room for so many.
pub const PAGE_REQUESTS: u32 = 512;

/// The files that a server has open besides: the standard streams, the listeners, the store's lock, folder and reserve, the acceptor's
/// poll and waker, and what is opened to be read.
const OTHERS: u64 = 24;

/// The files of the address of the status: its listener, its poll and waker, and a connection.
const STATUS: u64 = 4;

/// The files of a thread that serves connections: its poll and waker, one that is promised to a creation, and one that is opened before
/// another one is closed for it.
const THREAD: u64 = 4;

/// The files of a peer: the socket to it, three times, to read, to write and to break the exchange off, and one that is opened before
/// another one is closed for it.
const PEER: u64 = 4;

/// How many of each may be open at once.
#[derive(Clone, Copy)]
pub struct FileShares {
    pub clients: u32,
    /// HTTP requests that are read or answered.
    pub page_requests: u32,
    /// Pads whose files are open.
    pub pads: u32,
}

impl FileShares {
    /// Shares out a number of files: to pads at most a quarter, to HTTP requests at most an eighth, and the rest to clients. None gets
    /// more than it asks for, and each that asks for some gets one, even of none.
    pub fn within(files: u64, asked: FileShares) -> FileShares
        ensures shared { result ≡ shared_out files asked }
        ensures files { files_of result ≤ max files 3 }
    {
        let pads = share(files / 4, asked.pads);
        let page_requests = share(files / 8, asked.page_requests);
        let left = files
            .saturating_sub(u64::from(pads))
            .saturating_sub(u64::from(page_requests));
        FileShares {
            clients: share(left, asked.clients),
            page_requests,
            pads,
        }
    }
}

// A share of a number of files: all that are asked for, or as many as there are, and one of none.
fn share(files: u64, asked: u32) -> u32
    ensures { result ≡ room.share files asked }
{
    u32::try_from(files).unwrap_or(u32::MAX).max(1).min(asked)
}

/// The room of a server with so many peers, by the limit of the system.
pub fn room_of<R: Threads>(rt: &R, asked: Settings<'_>, peers: usize) -> FileShares {
    let wanted = wanted_room(asked);
    match most_files() {
        Some(limit) => FileShares::within(limit.saturating_sub(taken(rt, asked, peers)), wanted),
        None => wanted,
    }
}

// The room that the settings ask for.
fn wanted_room(asked: Settings<'_>) -> FileShares {
    FileShares {
        clients: asked.clients,
        page_requests: if asked.web.is_some() {
            PAGE_REQUESTS
        } else {
            0
        },
        pads: if asked.store.is_some() {
            asked.cells
        } else {
            0
        },
    }
}

// The files of a server with so many peers, besides those that are shared out.
fn taken<R: Threads>(rt: &R, asked: Settings<'_>, peers: usize) -> u64 {
    let status = if asked.status.is_some() { STATUS } else { 0 };
    u64::from(threads_for(rt, asked))
        .saturating_mul(THREAD)
        .saturating_add((peers as u64).saturating_mul(PEER))
        .saturating_add(u64::from(SYNCERS))
        .saturating_add(status)
        .saturating_add(OTHERS)
}

/// Warns if fewer clients may be connected than the settings say.
pub fn warn_of_room<R: Clock + Eprint>(rt: &R, asked: Settings<'_>, room: FileShares) {
    let (clients, allowed) = (asked.clients, room.clients);
    if let (true, Some(limit)) = (allowed < clients, most_files()) {
        warn!(ServerLog(rt); "the open-file limit ({limit}) has room for {allowed} of {clients} clients; raise it with ulimit -n");
    }
}

// The number of files that the process may have open, if the system reports it.
fn most_files() -> Option<u64> {
    let mut limit = rlimit {
        rlim_cur: 0,
        rlim_max: 0,
    };
    if getrlimit(RLIMIT_NOFILE, &mut limit) == 0 {
        Some(limit.rlim_cur)
    } else {
        None
    }
}
