//! The results of a server under stress, and whether its pad closes with them.
use block_seq::BlockSeq;
use pad_core::{Recorded, audit};
use pad_model::Refusal;
use shared_pads::{Seat, SharedPad};
use std::alloc::Global;
use wire_lines::Fault;

// Represents an answer of another kind than was asked for. No pad gives this refusal.
pub const NO_ANSWER: Refusal = Refusal::Busy;

// The answers to an author, unless something was refused, and its seats.
#[derive(Drop)]
pub struct AuthorAnswers {
    pub records: Result<Vec<Recorded>, Refusal>,
    pub seats: Vec<Seat>,
}

// The number of operations that one side of a round took from the other, and its seats.
#[derive(Drop)]
pub struct PeerTask {
    pub count: Result<u64, Fault>,
    pub seats: Vec<Seat>,
}

// The results of a server: the records and number of its own edits, the number of operations from the other server, and
// all seats.
#[derive(Drop)]
pub struct Side {
    pub records: Vec<Recorded>,
    pub edits: u64,
    pub taken: u64,
    pub seats: Vec<Seat>,
}

impl Side {
    pub fn new(alloc: Global) -> Side {
        Side {
            records: Vec::new(alloc),
            edits: 0,
            taken: 0,
            seats: Vec::new(alloc),
        }
    }

    pub fn keep(&mut self, seats: Vec<Seat>) -> Result<(), Refusal> {
        for seat in seats {
            self.seats.push(seat)?;
        }
        Ok(())
    }

    pub fn add_written(&mut self, all: Vec<AuthorAnswers>) -> Result<(), Refusal> {
        for written in all {
            let AuthorAnswers { records, seats } = written;
            for record in records? {
                if let Recorded::Edit { .. } = record {
                    self.edits = self.edits.saturating_add(1);
                }
                self.records.push(record)?;
            }
            self.keep(seats)?;
        }
        Ok(())
    }

    pub fn add_taken(&mut self, taken: PeerTask) -> Result<(), Refusal> {
        let PeerTask { count, seats } = taken;
        let Ok(count) = count else {
            return Err(NO_ANSWER);
        };
        self.taken = self.taken.saturating_add(count);
        self.keep(seats)
    }
}

fn calls_of(seats: &[Seat]) -> u64 {
    let mut calls = 0u64;
    for seat in seats {
        calls = calls.saturating_add(seat.tally().calls);
    }
    calls
}

// Returns true if the seats close their pad with the answers and the exchanged operations, as an audit of its log
// finds.
pub fn is_closed(alloc: Global, cells: Vec<SharedPad<BlockSeq>>, side: Side) -> bool {
    let mut cells = cells;
    let Side {
        records,
        edits,
        taken,
        seats,
    } = side;
    let calls = calls_of(seats.as_slice());
    let Some(pad) = cells.pop() else {
        return false;
    };
    match pad.close(seats) {
        Ok(closed) => closed.pad.revision() == edits.saturating_add(taken)
            && closed.calls == calls
            && audit(alloc, &closed.pad, records.as_slice()).is_ok(),
        Err(_) => false,
    }
}
