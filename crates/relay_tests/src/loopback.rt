//! Two servers in one process that show the same after one round over loopback.
use block_seq::BlockSeq;
use conversation::{Names, PadTable, Pads, Served, Shared, open_row, serve_connection, take_seats};
use pad_core::Reply;
use pad_model::Refusal;
use presence::DEFAULT_PRESENT;
use relay::{PeerLines, Relayed, relay_round};
use sessions::{Accounts, Session};
use shared_pads::{Open, Seat, SharedPad};
use std::alloc::Global;
use std::net::{Net, TcpListener, TcpStream};
use std::sync::Wait;
use std::test::Fail;
use std::time::Duration;
use std::{io, thread};
use wire_json::{read_request, reply_line};
use wire_lines::{Fault, Std};

// The number of seconds that a server waits for the other's next bytes. After that the test fails.
const PATIENCE: u64 = 30;

const HELLO: &str = r#"{"do":"hello","name":"ann","token":"t"}"#;

const CREATE: &str = r#"{"do":"create","pad":"p"}"#;

const FIRST: [&str; 4] = [
    HELLO,
    CREATE,
    r#"{"at":0,"do":"insert","pad":"p","rev":0,"text":"one"}"#,
    r#"{"at":0,"do":"comment","len":3,"pad":"p","rev":1,"text":"why?"}"#,
];

const SECOND: [&str; 3] = [
    HELLO,
    CREATE,
    r#"{"at":0,"do":"insert","pad":"p","rev":0,"text":"two"}"#,
];

const READINGS: [&str; 3] = [
    r#"{"do":"text","pad":"p"}"#,
    r#"{"do":"runs","pad":"p"}"#,
    r#"{"do":"comments","pad":"p"}"#,
];

// The text that both show after the round. Of two runs at one place with equal counters, the one of the greater replica
// comes first.
const SHOWN: &str = concat!(
    r#"{"now":3,"ok":true,"rev":3,"text":"twoone"}"#,
    "\n",
    r#"{"now":3,"ok":true,"rev":3,"runs":[["ann@2",3],["ann@1",3]]}"#,
    "\n",
    r#"{"comments":[{"at":3,"author":"ann@1","len":3,"name":[1,2],"resolved":false,"text":"why?"}],"now":3,"ok":true,"rev":3}"#,
    "\n",
    r#"{"now":3,"ok":true,"seen":[[1,2],[2,1]]}"#,
    "\n",
);

pub type LoopbackRow<'a, R> = PadTable<'a, BlockSeq, R, Open>;

pub fn ask<P: Pads>(alloc: Global, pads: &mut P, line: &str) -> Result<Reply, Refusal> {
    match read_request(alloc, line.as_bytes()) {
        Ok(request) => pads.call(alloc, &request),
        Err(refusal) => Err(refusal),
    }
}

// Makes these requests, and fails with the first refusal.
pub fn ask_all<P: Pads>(alloc: Global, pads: &mut P, lines: &[&str]) -> Result<(), Refusal> {
    for line in lines {
        let _answered = ask(alloc, pads, line)?;
    }
    Ok(())
}

// The same in a session of its own.
fn prepare<R: Wait>(
    alloc: Global,
    row: &LoopbackRow<'_, R>,
    lines: &[&str],
) -> Result<(), Refusal> {
    let seats = seats_of(row.rt, alloc, row.cells)?;
    let mut pads = Shared::new(row, seats, Session::new(alloc));
    let asked = ask_all(alloc, &mut pads, lines);
    pads.end(alloc);
    asked
}

// Appends the reply line to a request.
fn add_reply<P: Pads>(
    alloc: Global,
    pads: &mut P,
    line: &str,
    lines: &mut String,
) -> Result<(), Refusal> {
    let answer = ask(alloc, pads, line);
    let reply = reply_line(alloc, &answer)?;
    lines.push_str(&reply)?;
    Ok(())
}

// Appends the reply lines to an author who reads.
pub fn add_readings<P: Pads>(
    alloc: Global,
    pads: &mut P,
    lines: &mut String,
) -> Result<(), Refusal> {
    ask_all(alloc, pads, &[HELLO, r#"{"do":"join","pad":"p"}"#])?;
    for reading in READINGS {
        add_reply(alloc, pads, reading, lines)?;
    }
    Ok(())
}

// Appends the reply line to a peer who asks for the version vector.
pub fn add_vector<P: Pads>(
    alloc: Global,
    pads: &mut P,
    peer: u16,
    lines: &mut String,
) -> Result<(), Refusal> {
    let _session = pads.relay(alloc, peer)?;
    add_reply(alloc, pads, r#"{"do":"vector","pad":"p"}"#, lines)
}

// Returns the reply lines to an author who reads, and to a peer who asks for the version vector.
fn shown<R: Wait>(alloc: Global, row: &LoopbackRow<'_, R>, peer: u16) -> Result<String, Refusal> {
    let seats = seats_of(row.rt, alloc, row.cells)?;
    let mut pads = Shared::new(row, seats, Session::new(alloc));
    let mut lines = String::new(alloc);
    add_readings(alloc, &mut pads, &mut lines)?;
    pads.end(alloc);
    add_vector(alloc, &mut pads, peer, &mut lines)?;
    Ok(lines)
}

pub fn seats_of<R: Wait>(
    rt: &R,
    alloc: Global,
    cells: &[SharedPad<BlockSeq>],
) -> Result<Vec<Seat>, Refusal> {
    let mut seats = Vec::new(alloc);
    take_seats(rt, cells, &mut seats)?;
    Ok(seats)
}

pub fn connect<R: Net<Stream = TcpStream>>(rt: &R, port: u16) -> io::Result<TcpStream> {
    let stream = TcpStream::connect(rt, ("127.0.0.1", port))?;
    stream.set_read_timeout(Some(Duration::from_secs(PATIENCE)))?;
    Ok(stream)
}

// Makes a round of server 1 with the server that listens at this port.
fn exchange<R: Wait + Net<Stream = TcpStream>>(
    alloc: Global,
    row: &LoopbackRow<'_, R>,
    port: u16,
    seats: Vec<Seat>,
) -> Result<Relayed, Fault> {
    let Ok(stream) = connect(row.rt, port) else {
        return Err(Fault::ReadFault);
    };
    let mut pads = Shared::new(row, seats, Session::new(alloc));
    let mut link = PeerLines::new(alloc, Std::new(&stream), Std::new(&stream))?;
    let _session = pads.relay(alloc, 2);
    relay_round(alloc, &mut pads, &mut link, 1, "secret")
}

// Serves the first connection that arrives.
fn serve<R: Wait>(
    alloc: Global,
    row: &LoopbackRow<'_, R>,
    listener: TcpListener,
    seats: Vec<Seat>,
) -> Result<Served, Fault> {
    let Ok((stream, _address)) = listener.accept() else {
        return Err(Fault::ReadFault);
    };
    let mut pads = Shared::new(row, seats, Session::new(alloc));
    let mut reader = Std::new(&stream);
    let mut writer = Std::new(&stream);
    serve_connection(alloc, &mut pads, &mut reader, &mut writer, 1, &Open)
}

pub fn row_of<'a, R: Wait>(
    rt: &'a R,
    cells: &'a [SharedPad<BlockSeq>],
    names: &'a Names,
    replica: u16,
    accounts: &'a Accounts,
) -> LoopbackRow<'a, R> {
    PadTable {
        rt,
        cells,
        names,
        replica,
        accounts,
        gate: &Open,
    }
}

#[test]
fn one_round_over_loopback(rt: HostRuntime) -> Result<(), Fail> {
    let alloc = rt.alloc();
    let accounts = Accounts::read(
        alloc,
        b"author ann t\npeer 1 secret h:1\npeer 2 secret h:2\n",
    )?;
    let first_cells: Vec<SharedPad<BlockSeq>> = open_row(alloc, 1, DEFAULT_PRESENT, 1, 8)?;
    let second_cells: Vec<SharedPad<BlockSeq>> = open_row(alloc, 2, DEFAULT_PRESENT, 1, 8)?;
    let first_names = Names::fill(&rt, alloc, first_cells.as_slice())?;
    let second_names = Names::fill(&rt, alloc, second_cells.as_slice())?;
    let first = row_of(&rt, first_cells.as_slice(), &first_names, 1, &accounts);
    let second = row_of(&rt, second_cells.as_slice(), &second_names, 2, &accounts);
    prepare(alloc, &first, &FIRST)?;
    prepare(alloc, &second, &SECOND)?;
    let listener = TcpListener::bind(&rt, "127.0.0.1:0")?;
    let port = listener.local_addr()?.port();
    let ours = seats_of(&rt, alloc, first_cells.as_slice())?;
    let theirs = seats_of(&rt, alloc, second_cells.as_slice())?;
    let (relayed, served) = thread::join(
        &rt,
        || exchange(alloc, &first, port, ours),
        || serve(alloc, &second, listener, theirs),
    );
    let wanted = Relayed {
        pads: 1,
        pulled: 1,
        pushed: 2,
        refused: 0,
        unsaid: 0,
    };
    assert_eq!(rt; relayed?, wanted);
    assert_eq!(rt; served?.delivered, 2);
    assert_eq!(rt; shown(alloc, &first, 2)?.as_str(), SHOWN);
    assert_eq!(rt; shown(alloc, &second, 1)?.as_str(), SHOWN);
    Ok(())
}
