//! Gates that hold a thread until another has made progress: neither a pad's lock nor a connection blocks the others.
ghost use Rattle.std.specs.Prelude.{⊤, false};

use crate::pool::{Connection, pool, serve_client};
use crate::stage::{accounts, ask_all};
use block_seq::BlockSeq;
use conversation::{Names, PadTable, Pads, Served, Shared, open_row, take_all_seats};
use pad_model::{Refusal, Sequence};
use presence::DEFAULT_PRESENT;
use sessions::Session;
use shared_pads::{Answered, Gate, LockedPad, Seat, SharedPad};
use std::alloc::Global;
use std::sync::Wait;
use std::sync::atomic::{AtomicBool, Ordering};
use std::test::Fail;
use std::thread;
use std::time::{Clock, Duration};
use wire_lines::{Fault, Input, Output};

// The number of turns after which a waiting thread gives up. Each is a look and a sleep of a millisecond.
const TURNS: u32 = 30_000;

// An event that one thread waits for and another causes.
#[derive(Drop)]
struct Signal {
    has_come: AtomicBool,
    was_missed: AtomicBool,
}

impl Signal {
    fn new() -> Signal {
        Signal {
            has_come: AtomicBool::new(false),
            was_missed: AtomicBool::new(false),
        }
    }

    fn come(&self) {
        self.has_come.store(true, Ordering::SeqCst);
    }

    fn has_come(&self) -> bool {
        self.has_come.load(Ordering::SeqCst)
    }

    // Waits for the event, or gives up.
    fn wait<R: Clock>(&self, rt: &R) {
        for _ in 0..TURNS {
            if self.has_come() {
                return;
            }
            thread::sleep(rt, Duration::from_millis(1));
        }
        self.was_missed.store(true, Ordering::SeqCst);
    }

    // Returns true if the event came and nobody gave up.
    fn was_met(&self) -> bool {
        self.has_come() && !self.was_missed.load(Ordering::SeqCst)
    }
}

// Holds a call at the first cell, under its lock, until a call at the second cell was answered.
#[derive(Drop)]
struct FirstCellHeld<'a, R: Clock> {
    rt: &'a R,
    first_made: Signal,
    both_made: Signal,
    entered: Signal,
    answered: Signal,
}

impl<R: Clock> Gate for FirstCellHeld<'_, R> {
    ghost reads = { λ _. false };

    ghost told = { λ _ _ _ _. ⊤ };

    ghost announced = { λ _ _ _. ⊤ };

    fn answered<S: Sequence>(&self, _alloc: Global, _answered: Answered<'_>, _pad: &LockedPad<S>) {}

    fn reads_operations(&self) -> bool {
        false
    }

    fn inside(&self, cell: u32) {
        if cell == 0 && self.both_made.has_come() {
            self.entered.come();
            self.answered.wait(self.rt);
        }
    }

    fn before_reply(&self, _connection: u64, _delivered: bool) {}

    fn done(&self, _connection: u64) {}
}

const FIRST: [&str; 2] = [
    r#"{"do":"hello","name":"a1","token":"t"}"#,
    r#"{"do":"create","pad":"one"}"#,
];

const SECOND: [&str; 2] = [
    r#"{"do":"hello","name":"a2","token":"t"}"#,
    r#"{"do":"create","pad":"two"}"#,
];

type HeldRow<'a, R> = PadTable<'a, BlockSeq, R, FirstCellHeld<'a, R>>;

// Creates the first pad, and reads it once the second exists.
fn read_first<R: Wait + Clock>(
    alloc: Global,
    row: &HeldRow<'_, R>,
    seats: Vec<Seat>,
) -> Result<(), Refusal> {
    let mut pads = Shared::new(row, seats, Session::new(alloc));
    ask_all(alloc, &mut pads, &FIRST)?;
    row.gate.first_made.come();
    row.gate.both_made.wait(row.rt);
    ask_all(alloc, &mut pads, &[r#"{"do":"text","pad":"one"}"#])
}

// Creates the second pad, and reads it while the other thread holds the first one's lock.
fn read_second<R: Wait + Clock>(
    alloc: Global,
    row: &HeldRow<'_, R>,
    seats: Vec<Seat>,
) -> Result<(), Refusal> {
    let mut pads = Shared::new(row, seats, Session::new(alloc));
    row.gate.first_made.wait(row.rt);
    ask_all(alloc, &mut pads, &SECOND)?;
    row.gate.both_made.come();
    row.gate.entered.wait(row.rt);
    ask_all(alloc, &mut pads, &[r#"{"do":"text","pad":"two"}"#])?;
    row.gate.answered.come();
    Ok(())
}

#[test]
fn cells_do_not_block_each_other(rt: HostRuntime) -> Result<(), Fail> {
    let alloc = rt.alloc();
    let accounts = accounts(alloc)?;
    let cells: Vec<SharedPad<BlockSeq>> = open_row(alloc, 1, DEFAULT_PRESENT, 2, 2)?;
    let names = Names::fill(&rt, alloc, cells.as_slice())?;
    let gate = FirstCellHeld {
        rt: &rt,
        first_made: Signal::new(),
        both_made: Signal::new(),
        entered: Signal::new(),
        answered: Signal::new(),
    };
    let row = PadTable {
        rt: &rt,
        cells: cells.as_slice(),
        names: &names,
        replica: 1,
        accounts: &accounts,
        gate: &gate,
    };
    let mut crew = Vec::new(alloc);
    take_all_seats(&rt, alloc, cells.as_slice(), 2, &mut crew)?;
    let (Some(theirs), Some(ours)) = (crew.pop(), crew.pop()) else {
        panic!(rt; "seats for two threads are not there");
    };
    let (first, second) = thread::join(
        &rt,
        || read_first(alloc, &row, theirs),
        || read_second(alloc, &row, ours),
    );
    first?;
    second?;
    assert!(rt;
        gate.first_made.was_met(),
        "the first pad was not made in time"
    );
    assert!(rt;
        gate.both_made.was_met(),
        "the second pad was not made in time"
    );
    assert!(rt;
        gate.entered.was_met(),
        "the first pad's lock was not taken in time"
    );
    assert!(rt;
        gate.answered.was_met(),
        "the second pad did not answer in time"
    );
    Ok(())
}

// Holds the first connection before its reply until the second one is done.
#[derive(Drop)]
struct FirstConnectionHeld<'a, R: Clock> {
    rt: &'a R,
    second_done: Signal,
    first_done: Signal,
}

impl<R: Clock> Gate for FirstConnectionHeld<'_, R> {
    ghost reads = { λ _. false };

    ghost told = { λ _ _ _ _. ⊤ };

    ghost announced = { λ _ _ _. ⊤ };

    fn answered<S: Sequence>(&self, _alloc: Global, _answered: Answered<'_>, _pad: &LockedPad<S>) {}

    fn reads_operations(&self) -> bool {
        false
    }

    fn inside(&self, _cell: u32) {}

    fn before_reply(&self, connection: u64, _delivered: bool) {
        if connection == 1 {
            self.second_done.wait(self.rt);
        }
    }

    fn done(&self, connection: u64) {
        match connection {
            1 => self.first_done.come(),
            2 => self.second_done.come(),
            _ => {}
        }
    }
}

// A connection that says hello.
#[derive(Drop)]
struct Greeter;

impl Connection for Greeter {
    fn serve<P: Pads, G: Gate>(
        self,
        alloc: Global,
        pads: &mut P,
        number: u64,
        gate: &G,
    ) -> Result<Served, Fault> {
        let line = concat!(r#"{"do":"hello","name":"a1","token":"t"}"#, "\n");
        let mut reader = Input::new(line.as_bytes());
        let mut writer = Output::new(alloc);
        serve_client(alloc, pads, &mut reader, &mut writer, number, gate)
    }
}

// Returns true if the seats of two threads close their pad.
fn is_closed(
    alloc: Global,
    cells: Vec<SharedPad<BlockSeq>>,
    crew: Vec<Vec<Seat>>,
) -> Result<bool, Refusal> {
    let mut cells = cells;
    let mut seats = Vec::new(alloc);
    for own in crew {
        for seat in own {
            seats.push(seat)?;
        }
    }
    let all = seats.len() == 2;
    match cells.pop() {
        Some(pad) => Ok(all && pad.close(seats).is_ok()),
        None => Ok(false),
    }
}

#[test]
fn connections_do_not_block_each_other(rt: HostRuntime) -> Result<(), Fail> {
    let alloc = rt.alloc();
    let accounts = accounts(alloc)?;
    let cells: Vec<SharedPad<BlockSeq>> = open_row(alloc, 1, DEFAULT_PRESENT, 1, 2)?;
    let names = Names::fill(&rt, alloc, cells.as_slice())?;
    let gate = FirstConnectionHeld {
        rt: &rt,
        second_done: Signal::new(),
        first_done: Signal::new(),
    };
    let row = PadTable {
        rt: &rt,
        cells: cells.as_slice(),
        names: &names,
        replica: 1,
        accounts: &accounts,
        gate: &gate,
    };
    let mut crew = Vec::new(alloc);
    take_all_seats(&rt, alloc, cells.as_slice(), 2, &mut crew)?;
    let (to, from) = crossbeam_channel::bounded(alloc, 2)?;
    assert!(rt; to.send(&rt, (1, Greeter)).is_ok() && to.send(&rt, (2, Greeter)).is_ok());
    drop(to);
    pool(alloc, &row, &from, crew.as_mut_slice());
    assert!(rt;
        gate.second_done.was_met(),
        "the second connection did not end in time"
    );
    assert!(rt;
        gate.first_done.has_come(),
        "the first connection did not end"
    );
    assert!(rt;
        is_closed(alloc, cells, crew)?,
        "the pad does not close with two seats"
    );
    Ok(())
}
