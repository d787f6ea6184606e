//! A pool of threads that serve connections. Each has its own seats at the pads, and serves one connection at a time.
ghost use Rattle.thread_tests.specs.Pool.{AllWork, ServesConnection, ServesInTurn, Works};

use conversation::{PadTable, Pads, Served, Shared, serve_connection};
use crossbeam_channel::Receiver;
use pad_model::Sequence;
use sessions::Session;
use shared_pads::{Gate, Seat};
use std::alloc::Global;
use std::sync::Wait;
use std::thread::Threads;
use std::{mem, thread};
use wire_lines::{Fault, Sink, Source};

/// A source of requests and a sink for their replies. A fault ends only this connection.
pub trait Connection {
    /// Answers the lines until they end, then ends the session, as `serve_client` does with a reader and a writer.
    fn serve<P: Pads, G: Gate>(
        self,
        alloc: Global,
        pads: &mut P,
        number: u64,
        gate: &G,
    ) -> Result<Served, Fault>
        ensures { ServesConnection P.calls P.ends pads.old pads.new };
}

/// Answers the lines of a reader as `serve_connection` does. The contract covers only the pads, not the bytes.
pub fn serve_client<P: Pads, R: Source, W: Sink, G: Gate>(
    alloc: Global,
    pads: &mut P,
    reader: &mut R,
    writer: &mut W,
    number: u64,
    gate: &G,
) -> Result<Served, Fault>
    ensures { ServesConnection P.calls P.ends pads.old pads.new }
{
    serve_connection(alloc, pads, reader, writer, number, gate)
}

/// Serves the connections of a channel with one thread for each element of `crew`, which holds that thread's seats.
/// Each thread serves whole connections, one after another, until the channel is closed and empty. Afterwards the seats
/// are back in `crew`.
///
/// If the system cannot create a thread, fewer threads serve.
pub fn pool<
    S: Sequence + Send,
    R: Threads + Wait + Sync,
    G: Gate + Sync,
    C: Connection + Send + Drop,
>(
    alloc: Global,
    row: &PadTable<'_, S, R, G>,
    connections: &Receiver<(u64, C)>,
    crew: &mut [Vec<Seat>],
)
    // Each thread ends with its own seats, after some connections that it served.
    ensures { AllWork row.now crew.old crew.new }
{
    let threads = crew.len().max(1);
    thread::for_each_mut(
        row.rt,
        crew,
        threads,
        &|_, seats: &mut Vec<Seat>|
            ensures { Works row.entry.now seats.entry.now.items seats.exit.now.items }
        { work(alloc, row, connections, seats) },
    );
}

/// Serves connections on one thread of the pool, with these seats.
fn work<S: Sequence, R: Wait, G: Gate, C: Connection + Drop>(
    alloc: Global,
    row: &PadTable<'_, S, R, G>,
    connections: &Receiver<(u64, C)>,
    seats: &mut Vec<Seat>,
)
    ensures { Works row.now seats.old.items seats.new.items }
{
    let own = mem::replace(seats, Vec::new(alloc));
    let mut shared = Shared::new(row, own, Session::new(alloc));
    serve_all(row.rt, alloc, &mut shared, connections, row.gate);
    *seats = shared.seats();
}

/// Serves the connections of a channel on the calling thread, one whole connection after another, until the channel is
/// closed and empty. A fault ends only its own connection.
pub fn serve_all<P: Pads, R: Wait, G: Gate, C: Connection + Drop>(
    rt: &R,
    alloc: Global,
    pads: &mut P,
    connections: &Receiver<(u64, C)>,
    gate: &G,
)
    ensures { ServesInTurn P.calls P.ends pads.old pads.new }
{
    for _ in rt.forever() {
        let Ok((number, connection)) = connections.recv(rt) else {
            break;
        };
        let _served = connection.serve(alloc, pads, number, gate);
        gate.done(number);
    }
}
