//! The threads of a server that serve no connection: how each is started, and how all are ended.
use crate::pad_gate::PadGate;
use crate::sender::Sender;
use crate::settling::{WaitingWorkers, tell_workers};
use crate::status::{StatusEnd, answer_status};
use crate::status_thread::{StatusThread, end_status};
use block_seq::BlockSeq;
use conversation::PadTable;
use event_loop::Hub;
use peering::{Bell, Exchange, Group, Guard, exchange_all};
use std::alloc::Global;
use std::net::{Net, TcpListener, TcpStream};
use std::sync::Wait;
use std::thread::{Scope, Threads};
use std::time::Clock;

/// Threads that sync files while the workers serve. They wait for the disk, so there are more of them than processors.
pub const SYNCERS: u32 = 12;

/// Starts the threads that sync files, if there is a store. Returns true if at least one runs then: with fewer, syncs of
/// many files take longer, and without one no worker would hear of the end of a sync.
pub fn start_help<'s, E, R>(scope: &Scope<'s, E>, rt: &'s R, hub: &'s Hub, guard: Guard<'s>) -> bool
where
    R: Wait + Threads + Sync,
{
    let Some(keeper) = guard.keeper else {
        return true;
    };
    let mut runs = false;
    for _ in 0..SYNCERS {
        runs |= scope
            .spawn(move || keeper.help(rt, &WaitingWorkers { hub }))
            .is_ok();
    }
    runs
}

/// Starts the thread that answers for the status, if it has an address. Returns whether it runs then.
pub fn start_status<'s, E, R>(
    scope: &Scope<'s, E>,
    rt: &'s R,
    hub: &'s Hub,
    status: StatusThread<'s, 's>,
) -> bool
where
    R: AllocGlobal
        + Net<Listener = TcpListener, Stream = TcpStream>
        + Clock
        + Wait
        + Threads
        + Sync
        + Eprint,
{
    let StatusThread { board, door, end } = status;
    match (door, end) {
        (Some(door), Some(end)) => scope
            .spawn(move || answer_status(rt, door, end, hub, board))
            .is_ok(),
        _ => true,
    }
}

/// Starts the threads that send to the standby and tell the workers how much it has. Returns true if they run.
pub fn start_sending<'s, E, R>(
    scope: &Scope<'s, E>,
    rt: &'s R,
    hub: &'s Hub,
    sender: &'s Sender<'s>,
) -> bool
where
    R: AllocGlobal
        + Net<Listener = TcpListener, Stream = TcpStream>
        + Clock
        + Wait
        + Threads
        + Sync
        + Eprint,
{
    let keeper = sender.keeper;
    scope.spawn(move || sender.send(rt, hub)).is_ok()
        && scope.spawn(move || tell_workers(rt, keeper, hub)).is_ok()
}

/// Starts the threads that exchange with peers. Returns how many run, and whether these are all.
pub fn start_exchange<'s, E, R>(
    scope: &Scope<'s, E>,
    row: &'s PadTable<'s, BlockSeq, R, PadGate<'s, R>>,
    exchange: &'s Exchange,
    groups: Vec<Group<'s, R>>,
    guard: Guard<'s>,
    hub: &'s Hub,
) -> (u64, bool)
where
    R: AllocGlobal
        + Net<Listener = TcpListener, Stream = TcpStream>
        + Clock
        + Wait
        + Threads
        + Sync
        + Eprint,
{
    let mut threads = 0u64;
    let mut are_all = true;
    for group in groups {
        match scope.spawn(move || exchange_or_stop(row, exchange, group, guard, hub)) {
            Ok(_) => threads = threads.saturating_add(1),
            Err(_) => are_all = false,
        }
    }
    (threads, are_all)
}

// Exchanges with peers until the server ends. If the store fails meanwhile, the whole server is stopped.
fn exchange_or_stop<'a, R>(
    row: &PadTable<'a, BlockSeq, R, PadGate<'_, R>>,
    exchange: &Exchange,
    group: Group<'a, R>,
    guard: Guard<'a>,
    hub: &Hub,
)
where
    R: AllocGlobal + Net<Listener = TcpListener, Stream = TcpStream> + Clock + Wait + Eprint,
{
    exchange_all(row, exchange, group, guard);
    if guard.has_failed() {
        hub.stop();
    }
}

/// The means to end these threads.
#[derive(Clone, Copy)]
pub struct Ends<'a, 'e> {
    pub exchange: &'a Exchange,
    pub guard: Guard<'a>,
    /// Rung when the server ends.
    pub bell: &'a Bell,
    pub sender: Option<&'a Sender<'a>>,
    pub status: Option<&'e StatusEnd>,
}

impl Ends<'_, '_> {
    /// Ends all of them at once: the server does not serve.
    pub fn end_at_once<R: Wait + Clock>(&self, rt: &R) {
        self.bell.ring_last(rt);
        self.guard.end(rt);
        self.exchange.ring(rt);
        if let Some(sender) = self.sender {
            sender.end.break_off(rt);
        }
        self.end_help(rt);
    }

    /// Ends all of them after the last connection. `threads` of them exchange with peers, and do so once more, and the
    /// standby gets one more round, unless the workers have stopped.
    pub fn end<R: Wait + Clock>(&self, rt: &R, hub: &Hub, threads: u64) {
        self.bell.ring_last(rt);
        if hub.has_stopped() {
            self.guard.end(rt);
        }
        // What clients did that no longer read their replies is kept too.
        if let Some(keeper) = self.guard.keeper {
            let _synced = keeper.sync(rt);
        }
        self.exchange.finish(rt, threads, self.guard);
        match self.sender {
            Some(sender) if hub.has_stopped() => sender.end.break_off(rt),
            Some(sender) => sender.end.end(rt),
            None => {}
        }
        self.end_help(rt);
    }

    // Ends those that help to sync files, and the one that answers for the status.
    fn end_help<R: Wait>(&self, rt: &R) {
        if let Some(keeper) = self.guard.keeper {
            keeper.end_help(rt);
        }
        end_status(self.status);
    }
}
