//! Two servers whose authors write at once while they exchange over loopback.
use crate::authors::write_all;
use crate::loopback::{LoopbackRow, add_readings, add_vector, ask_all, connect, row_of, seats_of};
use crate::sides::{AuthorAnswers, NO_ANSWER, PeerTask, Side, is_closed};
use block_seq::BlockSeq;
use conversation::{Names, Pads, Shared, open_row, serve_connection};
use pad_model::Refusal;
use presence::DEFAULT_PRESENT;
use relay::{PeerLines, relay_round};
use sessions::{Accounts, Session};
use shared_pads::{Seat, SharedPad};
use std::alloc::Global;
use std::net::{Net, TcpListener, TcpStream};
use std::sync::Wait;
use std::test::Fail;
use std::thread;
use std::thread::Threads;
use wire_lines::{Fault, Std};

// The number of phases, in each of which the authors write during a round of the servers.
const PHASES: u64 = 10;

const ACCOUNTS: &[u8] =
    b"author ann t\nauthor a1 t\nauthor a2 t\nauthor a3 t\nauthor a4 t\npeer 1 secret h:1\npeer 2 secret h:2\n";

// The owner's requests on each server before the others start.
const BEGINNING: [&str; 6] = [
    r#"{"do":"hello","name":"ann","token":"t"}"#,
    r#"{"do":"create","pad":"p"}"#,
    r#"{"do":"grant","pad":"p","author":"a1","right":"write"}"#,
    r#"{"do":"grant","pad":"p","author":"a2","right":"write"}"#,
    r#"{"do":"grant","pad":"p","author":"a3","right":"write"}"#,
    r#"{"do":"grant","pad":"p","author":"a4","right":"write"}"#,
];

// Makes a round with the peer that listens at this port.
fn exchange<R: Wait + Net<Stream = TcpStream, Listener = TcpListener>>(
    alloc: Global,
    row: &LoopbackRow<'_, R>,
    peer: u16,
    port: u16,
    seats: Vec<Seat>,
) -> PeerTask {
    let mut pads = Shared::new(row, seats, Session::new(alloc));
    let count = exchange_by(alloc, row, &mut pads, peer, port);
    PeerTask {
        count,
        seats: pads.seats(),
    }
}

fn exchange_by<P: Pads, R: Wait + Net<Stream = TcpStream, Listener = TcpListener>>(
    alloc: Global,
    row: &LoopbackRow<'_, R>,
    pads: &mut P,
    peer: u16,
    port: u16,
) -> Result<u64, Fault> {
    let Ok(stream) = connect(row.rt, port) else {
        return Err(Fault::ReadFault);
    };
    let mut link = PeerLines::new(alloc, Std::new(&stream), Std::new(&stream))?;
    let _session = pads.relay(alloc, peer);
    let relayed = relay_round(alloc, pads, &mut link, row.replica, "secret")?;
    Ok(relayed.pulled)
}

// Serves the first connection that arrives.
fn serve<R: Wait>(
    alloc: Global,
    row: &LoopbackRow<'_, R>,
    listener: TcpListener,
    seats: Vec<Seat>,
) -> PeerTask {
    let mut pads = Shared::new(row, seats, Session::new(alloc));
    let count = serve_by(alloc, &mut pads, listener);
    PeerTask {
        count,
        seats: pads.seats(),
    }
}

fn serve_by<P: Pads>(alloc: Global, pads: &mut P, listener: TcpListener) -> Result<u64, Fault> {
    let Ok((stream, _address)) = listener.accept() else {
        return Err(Fault::ReadFault);
    };
    let mut reader = Std::new(&stream);
    let mut writer = Std::new(&stream);
    let served = serve_connection(alloc, pads, &mut reader, &mut writer, 1, &shared_pads::Open)?;
    Ok(served.delivered)
}

// Makes a round of the first row's server with that of the second row; None if it cannot begin.
fn round<R: Threads + Wait + Sync + Net<Stream = TcpStream, Listener = TcpListener>>(
    alloc: Global,
    from: &LoopbackRow<'_, R>,
    to: &LoopbackRow<'_, R>,
) -> Option<(PeerTask, PeerTask)> {
    let listener = TcpListener::bind(from.rt, "127.0.0.1:0").ok()?;
    let port = listener.local_addr().ok()?.port();
    let ours = seats_of(from.rt, alloc, from.cells).ok()?;
    let theirs = seats_of(to.rt, alloc, to.cells).ok()?;
    Some(thread::join(
        from.rt,
        || exchange(alloc, from, to.replica, port, ours),
        || serve(alloc, to, listener, theirs),
    ))
}

// Makes a round, and keeps the results of both sides.
fn round_kept<R: Threads + Wait + Sync + Net<Stream = TcpStream, Listener = TcpListener>>(
    alloc: Global,
    from: &LoopbackRow<'_, R>,
    to: &LoopbackRow<'_, R>,
    ours: &mut Side,
    theirs: &mut Side,
) -> Result<(), Refusal> {
    let Some((pulled, pushed)) = round(alloc, from, to) else {
        return Err(NO_ANSWER);
    };
    ours.add_taken(pulled)?;
    theirs.add_taken(pushed)
}

type AllWritten = Result<Vec<AuthorAnswers>, Refusal>;

// Lets the authors of both servers write at once.
fn write_both<R: Threads + Wait + Sync>(
    alloc: Global,
    first: &LoopbackRow<'_, R>,
    second: &LoopbackRow<'_, R>,
) -> (AllWritten, AllWritten) {
    thread::join(
        first.rt,
        || write_all(alloc, first),
        || write_all(alloc, second),
    )
}

// Lets the authors of both servers write during a round of the first server.
fn write_beside_round<R: Threads + Wait + Sync + Net<Stream = TcpStream, Listener = TcpListener>>(
    alloc: Global,
    first: &LoopbackRow<'_, R>,
    second: &LoopbackRow<'_, R>,
    ours: &mut Side,
    theirs: &mut Side,
) -> Result<(), Refusal> {
    let (written, rounds) = thread::join(
        first.rt,
        || write_both(alloc, first, second),
        || round(alloc, first, second),
    );
    ours.add_written(written.0?)?;
    theirs.add_written(written.1?)?;
    let Some((pulled, pushed)) = rounds else {
        return Err(NO_ANSWER);
    };
    ours.add_taken(pulled)?;
    theirs.add_taken(pushed)
}

// Creates the pad as the owner, and lets the others write.
fn begin<R: Wait>(alloc: Global, row: &LoopbackRow<'_, R>, side: &mut Side) -> Result<(), Refusal> {
    let seats = seats_of(row.rt, alloc, row.cells)?;
    let mut owner = Shared::new(row, seats, Session::new(alloc));
    ask_all(alloc, &mut owner, &BEGINNING)?;
    owner.end(alloc);
    side.keep(owner.seats())
}

// Returns the reply lines with the text, author runs, comments and version vector.
fn shown<R: Wait>(
    alloc: Global,
    row: &LoopbackRow<'_, R>,
    peer: u16,
    side: &mut Side,
) -> Result<String, Refusal> {
    let seats = seats_of(row.rt, alloc, row.cells)?;
    let mut pads = Shared::new(row, seats, Session::new(alloc));
    let mut lines = String::new(alloc);
    add_readings(alloc, &mut pads, &mut lines)?;
    pads.end(alloc);
    add_vector(alloc, &mut pads, peer, &mut lines)?;
    side.keep(pads.seats())?;
    Ok(lines)
}

// Plays all phases, then one round of each server.
fn write_and_exchange<R: Threads + Wait + Sync + Net<Stream = TcpStream, Listener = TcpListener>>(
    alloc: Global,
    first: &LoopbackRow<'_, R>,
    second: &LoopbackRow<'_, R>,
    ours: &mut Side,
    theirs: &mut Side,
) -> Result<(), Refusal> {
    begin(alloc, first, ours)?;
    begin(alloc, second, theirs)?;
    for _ in 0..PHASES {
        write_beside_round(alloc, first, second, ours, theirs)?;
    }
    round_kept(alloc, first, second, ours, theirs)?;
    round_kept(alloc, second, first, theirs, ours)
}

// Lets both servers write and exchange, and returns whether they then show the same.
fn end_alike<R: Threads + Wait + Sync + Net<Stream = TcpStream, Listener = TcpListener>>(
    alloc: Global,
    first: &LoopbackRow<'_, R>,
    second: &LoopbackRow<'_, R>,
    ours: &mut Side,
    theirs: &mut Side,
) -> Result<bool, Refusal> {
    write_and_exchange(alloc, first, second, ours, theirs)?;
    let here = shown(alloc, first, 2, ours)?;
    let there = shown(alloc, second, 1, theirs)?;
    Ok(here.as_str() == there.as_str())
}

// The result of a run: true if both servers show the same; and for each server, the number of its edits that were
// answered, the number of operations it took from the other, and true if it closes with its seats and records.
#[derive(Clone, Copy, Debug)]
struct StressResult {
    alike: Result<bool, Refusal>,
    edits: [u64; 2],
    taken: [u64; 2],
    closed: [bool; 2],
}

// Plays the test on two rows of pads.
fn play<R: Threads + Wait + Sync + Net<Stream = TcpStream, Listener = TcpListener>>(
    rt: &R,
    alloc: Global,
    accounts: &Accounts,
    names: &[Names; 2],
    first_cells: Vec<SharedPad<BlockSeq>>,
    second_cells: Vec<SharedPad<BlockSeq>>,
) -> StressResult {
    let first = row_of(rt, first_cells.as_slice(), &names[0], 1, accounts);
    let second = row_of(rt, second_cells.as_slice(), &names[1], 2, accounts);
    let mut ours = Side::new(alloc);
    let mut theirs = Side::new(alloc);
    let alike = end_alike(alloc, &first, &second, &mut ours, &mut theirs);
    StressResult {
        alike,
        edits: [ours.edits, theirs.edits],
        taken: [ours.taken, theirs.taken],
        closed: [
            is_closed(alloc, first_cells, ours),
            is_closed(alloc, second_cells, theirs),
        ],
    }
}

#[test]
fn two_servers_under_stress(rt: HostRuntime) -> Result<(), Fail> {
    let alloc = rt.alloc();
    let accounts = Accounts::read(alloc, ACCOUNTS)?;
    let first_cells = open_row(alloc, 1, DEFAULT_PRESENT, 1, 64)?;
    let second_cells = open_row(alloc, 2, DEFAULT_PRESENT, 1, 64)?;
    let names = [
        Names::fill(&rt, alloc, first_cells.as_slice())?,
        Names::fill(&rt, alloc, second_cells.as_slice())?,
    ];
    let came = play(&rt, alloc, &accounts, &names, first_cells, second_cells);
    assert!(rt; came.alike == Ok(true), "{came:?}");
    assert!(rt;
        came.edits == [400, 400] && came.taken == [400, 400],
        "{came:?}"
    );
    assert!(rt; came.closed == [true, true], "{came:?}");
    Ok(())
}
