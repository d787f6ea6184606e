//! Requests that find their pads by the names of the row, without a scan.
ghost use Rattle.std.specs.Prelude.{⊤, false};

use crate::stage::{accounts, ask, ask_all};
use block_seq::BlockSeq;
use conversation::{Names, PadTable, Pads, Shared, open_row, take_seats};
use pad_core::Reply;
use pad_model::{Refusal, Sequence};
use presence::DEFAULT_PRESENT;
use sessions::{Accounts, Session};
use shared_pads::{Answered, Gate, LockedPad, Seat, SharedPad};
use std::alloc::Global;
use std::process::Abort;
use std::sync::Wait;
use std::sync::atomic::{AtomicU64, Ordering};
use std::test::Fail;
use wire_json::read_request;

/// A request of a1 to log in.
pub const FIRST: &str = r#"{"do":"hello","name":"a1","token":"t"}"#;

/// Counts the steps at cells.
#[derive(Drop)]
pub struct Steps {
    made: AtomicU64,
}

impl Steps {
    fn new() -> Steps {
        Steps {
            made: AtomicU64::new(0),
        }
    }

    // Returns the number of steps since the last call.
    fn take(&self) -> u64 {
        self.made.swap(0, Ordering::SeqCst)
    }
}

impl Gate for Steps {
    ghost reads = { λ _. false };

    ghost told = { λ _ _ _ _. ⊤ };

    ghost announced = { λ _ _ _. ⊤ };

    fn answered<S: Sequence>(&self, _alloc: Global, _answered: Answered<'_>, _pad: &LockedPad<S>) {}

    fn reads_operations(&self) -> bool {
        false
    }

    fn inside(&self, _cell: u32) {
        self.made.fetch_add(1, Ordering::SeqCst);
    }

    fn before_reply(&self, _connection: u64, _delivered: bool) {}

    fn done(&self, _connection: u64) {}
}

/// The pads of a test.
#[derive(Drop)]
pub struct TestPads {
    accounts: Accounts,
    cells: Vec<SharedPad<BlockSeq>>,
    pub gate: Steps,
}

/// The row of these pads.
pub type StageRow<'a, R> = PadTable<'a, BlockSeq, R, Steps>;

impl TestPads {
    /// Creates this many cells, each with room for this many seats.
    pub fn new(alloc: Global, cells: u32, seats: u32) -> Result<TestPads, Refusal> {
        Ok(TestPads {
            accounts: accounts(alloc)?,
            cells: open_row(alloc, 1, DEFAULT_PRESENT, cells, seats)?,
            gate: Steps::new(),
        })
    }

    /// The current names of its pads.
    pub fn names<R: Wait>(&self, rt: &R, alloc: Global) -> Result<Names, Refusal> {
        Names::fill(rt, alloc, self.cells.as_slice())
    }

    /// Its row, in which pads are found by these names.
    pub fn row<'a, R: Wait>(&'a self, rt: &'a R, names: &'a Names) -> StageRow<'a, R> {
        PadTable {
            rt,
            cells: self.cells.as_slice(),
            names,
            replica: 1,
            accounts: &self.accounts,
            gate: &self.gate,
        }
    }
}

/// Creates a thread with seats of its own, in a session of an author.
pub fn thread_of<'a, R: Wait>(
    alloc: Global,
    row: &'a StageRow<'a, R>,
    hello: &str,
) -> Result<Shared<'a, BlockSeq, R, Steps>, Refusal> {
    let mut seats = Vec::new(alloc);
    take_seats(row.rt, row.cells, &mut seats)?;
    let mut pads = Shared::new(row, seats, Session::new(alloc));
    ask_all(alloc, &mut pads, &[hello])?;
    Ok(pads)
}

/// Returns the answer to a request on the pad with a number.
pub fn asked<P: Pads>(
    alloc: Global,
    pads: &mut P,
    request: &str,
    number: u32,
) -> Result<Reply, Refusal> {
    let line = format!(in alloc; r#"{{"do":"{request}","pad":"n{number}"}}"#)?;
    ask(alloc, pads, line.as_str())
}

/// Returns true if an answer is this refusal.
pub fn is_refused(answer: Result<Reply, Refusal>, wanted: Refusal) -> bool {
    match answer {
        Ok(_) => false,
        Err(refusal) => refusal == wanted,
    }
}

// Returns true if there is a pad with this number, found in one step.
fn is_found<P: Pads>(alloc: Global, pads: &mut P, gate: &Steps, number: u32) -> bool {
    gate.take();
    let answer = asked(alloc, pads, "join", number);
    let steps = gate.take();
    answer.is_ok() && steps == 1 && asked(alloc, pads, "leave", number).is_ok()
}

/// Returns true if there is no pad with this number, found out without a step.
pub fn is_missing<P: Pads>(alloc: Global, pads: &mut P, gate: &Steps, number: u32) -> bool {
    gate.take();
    let answer = asked(alloc, pads, "join", number);
    is_refused(answer, Refusal::NoPad) && gate.take() == 0
}

#[test]
fn a_name_is_found_without_a_walk(rt: HostRuntime) -> Result<(), Fail> {
    let alloc = rt.alloc();
    let stage = TestPads::new(alloc, 9, 2)?;
    let names = stage.names(&rt, alloc)?;
    let row = stage.row(&rt, &names);
    let mut maker = thread_of(alloc, &row, FIRST)?;
    let mut reader = thread_of(alloc, &row, FIRST)?;
    for number in 0..8 {
        assert!(rt;
            is_missing(alloc, &mut reader, &stage.gate, number),
            "n{number} is there before it is created"
        );
        stage.gate.take();
        assert!(rt;
            asked(alloc, &mut maker, "create", number).is_ok(),
            "n{number} is not created"
        );
        assert!(rt; stage.gate.take() == 1, "n{number} is created by a walk");
        assert!(rt;
            is_found(alloc, &mut reader, &stage.gate, number),
            "n{number} is not found in one step"
        );
    }
    for number in 0..8 {
        let answer = asked(alloc, &mut reader, "create", number);
        assert!(rt;
            is_refused(answer, Refusal::PadExists),
            "n{number} is created twice"
        );
        assert!(rt;
            is_found(alloc, &mut reader, &stage.gate, number),
            "n{number} is gone"
        );
    }
    assert!(rt;
        is_missing(alloc, &mut reader, &stage.gate, 8),
        "n8 is there"
    );
    Ok(())
}

const MANY: u32 = 4096;

// Asserts that all pads are found, each in one step, and no other is.
fn all_are_found<R: Wait + Abort>(
    rt: &R,
    alloc: Global,
    stage: &TestPads,
    names: &Names,
) -> Result<(), Refusal> {
    let row = stage.row(rt, names);
    let mut reader = thread_of(alloc, &row, FIRST)?;
    for number in 0..MANY {
        assert!(rt;
            is_found(alloc, &mut reader, &stage.gate, number),
            "n{number} is not found in one step"
        );
    }
    assert!(rt;
        is_missing(alloc, &mut reader, &stage.gate, MANY),
        "a name too many is found"
    );
    Ok(())
}

#[test]
fn each_of_4096_pads_is_found(rt: HostRuntime) -> Result<(), Fail> {
    let alloc = rt.alloc();
    let stage = TestPads::new(alloc, MANY, 3)?;
    let names = stage.names(&rt, alloc)?;
    let row = stage.row(&rt, &names);
    let mut maker = thread_of(alloc, &row, FIRST)?;
    for number in 0..MANY {
        stage.gate.take();
        assert!(rt;
            asked(alloc, &mut maker, "create", number).is_ok(),
            "n{number} is not created"
        );
        assert!(rt; stage.gate.take() == 1, "n{number} is created by a walk");
        assert!(rt;
            asked(alloc, &mut maker, "leave", number).is_ok(),
            "n{number} is not left"
        );
    }
    let answer = asked(alloc, &mut maker, "create", MANY);
    assert!(rt;
        is_refused(answer, Refusal::NoSlot),
        "a pad too many is created"
    );
    all_are_found(&rt, alloc, &stage, &names)?;
    // The names of the existing pads, as after a start from a store.
    let again = stage.names(&rt, alloc)?;
    all_are_found(&rt, alloc, &stage, &again)?;
    Ok(())
}

// Returns a row's answer to a line of a session.
fn row_asked<R: Wait>(
    alloc: Global,
    row: &StageRow<'_, R>,
    seats: &mut Vec<Seat>,
    session: &mut Session,
    line: &str,
) -> Result<Reply, Refusal> {
    let request = read_request(alloc, line.as_bytes())?;
    row.ask(alloc, seats, session, &request)
}

#[test]
fn a_session_that_has_joined_needs_no_names(rt: HostRuntime) -> Result<(), Fail> {
    let alloc = rt.alloc();
    let stage = TestPads::new(alloc, 4, 3)?;
    let names = stage.names(&rt, alloc)?;
    let row = stage.row(&rt, &names);
    let mut maker = thread_of(alloc, &row, FIRST)?;
    for number in 0..4 {
        assert!(rt;
            asked(alloc, &mut maker, "create", number).is_ok(),
            "n{number} is not created"
        );
    }
    // No name is ever learned here.
    let none = Names::fill(&rt, alloc, &stage.cells[..0])?;
    let blind = stage.row(&rt, &none);
    let mut stranger = thread_of(alloc, &blind, FIRST)?;
    assert!(rt;
        is_missing(alloc, &mut stranger, &stage.gate, 3),
        "a name is known"
    );
    let mut seats = Vec::new(alloc);
    take_seats(&rt, stage.cells.as_slice(), &mut seats)?;
    let mut session = Session::new(alloc);
    for line in [FIRST, r#"{"do":"join","pad":"n3"}"#] {
        assert!(rt;
            row_asked(alloc, &row, &mut seats, &mut session, line).is_ok(),
            "{line}"
        );
    }
    stage.gate.take();
    let text = r#"{"do":"text","pad":"n3"}"#;
    let answer = row_asked(alloc, &blind, &mut seats, &mut session, text);
    assert!(rt;
        answer.is_ok() && stage.gate.take() == 1,
        "the room is not used"
    );
    Ok(())
}
