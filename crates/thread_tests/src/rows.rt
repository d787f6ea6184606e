//! A row of two pads. Each cell has a pad of its own, and all have the numbers of their server.
use crate::stage::{accounts, ask_all, tells};
use block_seq::BlockSeq;
use conversation::{Names, PadTable, Pads, Shared, open_row, take_seats};
use pad_model::Refusal;
use presence::DEFAULT_PRESENT;
use sessions::Session;
use shared_pads::{Open, SharedPad};
use std::alloc::Global;
use std::process::Abort;
use std::test::Fail;

// A number that needs more than one byte.
const REPLICA: u16 = 300;

const HELLO: &str = r#"{"do":"hello","name":"a1","token":"t"}"#;

const BEGINNING: [&str; 3] = [
    HELLO,
    r#"{"do":"create","pad":"one"}"#,
    r#"{"do":"create","pad":"two"}"#,
];

// Returns true if a cell has this name, or no name.
fn is_named<P: Pads>(
    alloc: Global,
    pads: &mut P,
    cell: u32,
    name: Option<&str>,
) -> Result<bool, Refusal> {
    Ok(match (pads.name_of(alloc, cell)?, name) {
        (Some(found), Some(name)) => found.is(name),
        (None, None) => true,
        _ => false,
    })
}

// Asserts that the first cells have these names, and the next cell has none.
fn have_names<P: Pads>(
    rt: &impl Abort,
    alloc: Global,
    pads: &mut P,
    names: [Option<&str>; 2],
) -> Result<(), Refusal> {
    let came = (
        is_named(alloc, pads, 0, names[0])?,
        is_named(alloc, pads, 1, names[1])?,
        is_named(alloc, pads, 2, None)?,
    );
    assert!(rt;
        came == (true, true, true),
        "wanted {names:?} and no third name, came {came:?}"
    );
    Ok(())
}

#[test]
fn each_cell_has_a_pad_of_its_own(rt: HostRuntime) -> Result<(), Fail> {
    let alloc = rt.alloc();
    let accounts = accounts(alloc)?;
    let cells: Vec<SharedPad<BlockSeq>> = open_row(alloc, REPLICA, DEFAULT_PRESENT, 2, 1)?;
    let names = Names::fill(&rt, alloc, cells.as_slice())?;
    let row = PadTable {
        rt: &rt,
        cells: cells.as_slice(),
        names: &names,
        replica: REPLICA,
        accounts: &accounts,
        gate: &Open,
    };
    let mut seats = Vec::new(alloc);
    take_seats(&rt, cells.as_slice(), &mut seats)?;
    let mut pads = Shared::new(&row, seats, Session::new(alloc));
    have_names(&rt, alloc, &mut pads, [None, None])?;
    ask_all(alloc, &mut pads, &BEGINNING)?;
    have_names(&rt, alloc, &mut pads, [Some("one"), Some("two")])?;
    let insert = r#"{"do":"insert","pad":"two","rev":0,"at":0,"text":"x"}"#;
    let made = concat!(r#"{"name":[300,1],"now":1,"ok":true}"#, "\n");
    Ok(tells(&rt, alloc, &mut pads, insert, made)?)
}

const JOIN: &str = r#"{"do":"join","pad":"two"}"#;

const CROWDED: &str = concat!(r#"{"code":313,"error":"Crowded","ok":false}"#, "\n");

// Two sessions, on pads where one visit may be present: the creator's, until it leaves.
#[test]
fn each_pad_has_room_for_as_many_as_the_row_was_told(rt: HostRuntime) -> Result<(), Fail> {
    let alloc = rt.alloc();
    let accounts = accounts(alloc)?;
    let cells: Vec<SharedPad<BlockSeq>> = open_row(alloc, REPLICA, 1, 2, 2)?;
    let names = Names::fill(&rt, alloc, cells.as_slice())?;
    let row = PadTable {
        rt: &rt,
        cells: cells.as_slice(),
        names: &names,
        replica: REPLICA,
        accounts: &accounts,
        gate: &Open,
    };
    let mut seats = Vec::new(alloc);
    take_seats(&rt, cells.as_slice(), &mut seats)?;
    let mut creator = Shared::new(&row, seats, Session::new(alloc));
    let mut seats = Vec::new(alloc);
    take_seats(&rt, cells.as_slice(), &mut seats)?;
    let mut guest = Shared::new(&row, seats, Session::new(alloc));
    ask_all(alloc, &mut creator, &BEGINNING)?;
    ask_all(alloc, &mut guest, &[HELLO])?;
    tells(&rt, alloc, &mut guest, JOIN, CROWDED)?;
    let leave = r#"{"do":"leave","pad":"two"}"#;
    let left = concat!(r#"{"now":0,"ok":true}"#, "\n");
    tells(&rt, alloc, &mut creator, leave, left)?;
    let joined = concat!(r#"{"now":0,"ok":true,"visit":2}"#, "\n");
    tells(&rt, alloc, &mut guest, JOIN, joined)?;
    Ok(tells(&rt, alloc, &mut creator, JOIN, CROWDED)?)
}
