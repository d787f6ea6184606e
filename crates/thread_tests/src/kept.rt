//! A gate that can keep nothing, as when the disk of a store is full.
ghost use Rattle.std.specs.Prelude.{⊤, false};

use crate::stage::{accounts, ask, ask_all, tells};
use block_seq::BlockSeq;
use conversation::{Names, PadTable, Pads, Shared, open_row, take_seats};
use pad_core::Request;
use pad_model::{Refusal, Sequence};
use presence::DEFAULT_PRESENT;
use sessions::Session;
use shared_pads::{Answered, Gate, LockedPad, SharedPad};
use std::alloc::Global;
use std::process::Abort;
use std::sync::atomic::{AtomicBool, Ordering};
use std::test::Fail;

// A disk that keeps the answers, or nothing.
#[derive(Drop)]
struct Disk {
    has_room: AtomicBool,
}

impl Gate for Disk {
    ghost reads = { λ _. false };

    ghost told = { λ _ _ _ _. ⊤ };

    ghost announced = { λ _ _ _. ⊤ };

    fn answered<S: Sequence>(&self, _alloc: Global, _answered: Answered<'_>, _pad: &LockedPad<S>) {}

    fn reads_operations(&self) -> bool {
        false
    }

    #[tactic(auto, using(shared_pads::specs::Gates::let_pass))]
    fn keeps(&self, _alloc: Global, _request: &Request) -> Result<(), Refusal> {
        if self.has_room.load(Ordering::SeqCst) {
            Ok(())
        } else {
            Err(Refusal::StoreFull)
        }
    }

    fn inside(&self, _cell: u32) {}

    fn before_reply(&self, _connection: u64, _delivered: bool) {}

    fn done(&self, _connection: u64) {}
}

const BEFORE: [&str; 3] = [
    r#"{"do":"hello","name":"a1","token":"t"}"#,
    r#"{"do":"create","pad":"p"}"#,
    r#"{"do":"insert","pad":"p","rev":0,"at":0,"text":"hello"}"#,
];

const REFUSED: [&str; 8] = [
    r#"{"do":"create","pad":"q"}"#,
    r#"{"do":"join","pad":"p"}"#,
    r#"{"do":"grant","pad":"p","author":"a2","right":"read"}"#,
    r#"{"do":"insert","pad":"p","rev":1,"at":0,"text":"x"}"#,
    r#"{"do":"delete","pad":"p","rev":1,"at":0,"len":1}"#,
    r#"{"do":"edit","pad":"p","rev":1,"parts":[{"at":0,"text":"x"}]}"#,
    r#"{"do":"comment","pad":"p","rev":1,"at":0,"len":1,"text":"x"}"#,
    r#"{"do":"resolve","pad":"p","comment":[1,1]}"#,
];

const ANSWERED: [&str; 7] = [
    r#"{"do":"runs","pad":"p"}"#,
    r#"{"do":"comments","pad":"p"}"#,
    r#"{"do":"revs","pad":"p"}"#,
    r#"{"do":"entries","pad":"p","from":1,"count":1}"#,
    r#"{"do":"caret","pad":"p","rev":1,"at":1}"#,
    r#"{"do":"who","pad":"p"}"#,
    r#"{"do":"rights","pad":"p"}"#,
];

// Asserts that each of these lines is refused with 901.
fn are_refused<P: Pads>(rt: &impl Abort, alloc: Global, pads: &mut P, lines: &[&str]) {
    for line in lines {
        let came = ask(alloc, pads, line);
        assert!(rt;
            matches!(&came, Err(Refusal::StoreFull)),
            "{line}: wanted StoreFull, came {came:?}"
        );
    }
}

#[test]
fn what_cannot_be_kept_is_refused(rt: HostRuntime) -> Result<(), Fail> {
    let alloc = rt.alloc();
    let accounts = accounts(alloc)?;
    let cells: Vec<SharedPad<BlockSeq>> = open_row(alloc, 1, DEFAULT_PRESENT, 2, 1)?;
    let names = Names::fill(&rt, alloc, cells.as_slice())?;
    let gate = Disk {
        has_room: AtomicBool::new(true),
    };
    let row = PadTable {
        rt: &rt,
        cells: cells.as_slice(),
        names: &names,
        replica: 1,
        accounts: &accounts,
        gate: &gate,
    };
    let mut seats = Vec::new(alloc);
    take_seats(&rt, cells.as_slice(), &mut seats)?;
    let mut pads = Shared::new(&row, seats, Session::new(alloc));
    ask_all(alloc, &mut pads, &BEFORE)?;
    gate.has_room.store(false, Ordering::SeqCst);
    are_refused(&rt, alloc, &mut pads, &REFUSED);
    ask_all(alloc, &mut pads, &ANSWERED)?;
    let text = r#"{"do":"text","pad":"p"}"#;
    let shown = concat!(r#"{"now":1,"ok":true,"rev":1,"text":"hello"}"#, "\n");
    tells(&rt, alloc, &mut pads, text, shown)?;
    gate.has_room.store(true, Ordering::SeqCst);
    let insert = r#"{"do":"insert","pad":"p","rev":1,"at":5,"text":"!"}"#;
    let made = concat!(r#"{"name":[1,2],"now":2,"ok":true}"#, "\n");
    Ok(tells(&rt, alloc, &mut pads, insert, made)?)
}
