//! A server whose steps are words: `move`, `end`, `look 0`, `relay 2`, or a request as a line of JSON. In a run, the
//! lines of an accounts file are new accounts.
use block_seq::BlockSeq;
use pad_model::Refusal;
use presence::DEFAULT_PRESENT;
use server_core::{Event, MAX_CELLS, Moved, Server, Step};
use sessions::Accounts;
use std::alloc::Global;
use std::process::Abort;
use std::test::Fail;
use wire_json::{read_request, reply_line};

/// A step of an actor, and its result.
pub type Turn<'a> = (u32, &'a str, &'a str);

/// Creates a server of replica 1 with accounts for ann, bob and peer 2, and opens three actors.
pub fn open(alloc: Global, cells: u32) -> Result<Server<BlockSeq>, Fail> {
    open_with_room(alloc, DEFAULT_PRESENT, cells)
}

/// The same, with a limit of visits that may be present on a pad at once.
pub fn open_with_room(alloc: Global, present: u64, cells: u32) -> Result<Server<BlockSeq>, Fail> {
    let accounts = Accounts::read(
        alloc,
        b"author ann t1\nauthor bob t2\npeer 2 p2 127.0.0.1:7402\n",
    )?;
    let mut server = Server::new(alloc, 1, present, cells.min(MAX_CELLS), accounts)?;
    open_more(alloc, &mut server, 3)?;
    Ok(server)
}

/// Opens this many more actors.
pub fn open_more(alloc: Global, server: &mut Server<BlockSeq>, count: u32) -> Result<(), Refusal> {
    for _ in 0..count {
        let _actor = server.open(alloc)?;
    }
    Ok(())
}

/// Asserts that each step has this result.
pub fn are_told(
    rt: &impl Abort,
    alloc: Global,
    server: &mut Server<BlockSeq>,
    turns: &[Turn<'_>],
) -> Result<(), Fail> {
    for (place, turn) in turns.iter().enumerate() {
        let (actor, words, want) = *turn;
        let came = answer(alloc, server, actor, words)?;
        is_told(rt, place, words, want, came.as_str());
    }
    Ok(())
}

fn is_told(rt: &impl Abort, place: usize, words: &str, want: &str, came: &str) {
    assert!(rt;
        came == want,
        "turn {place}, {words}: wanted {want}, came {came}"
    );
}

/// Asserts that a run of the steps has exactly these results.
pub fn runs_so(
    rt: &impl Abort,
    alloc: Global,
    server: &mut Server<BlockSeq>,
    turns: &[Turn<'_>],
) -> Result<(), Fail> {
    let mut events = Vec::new(alloc);
    for turn in turns {
        events.push(event_of(alloc, turn.0, turn.1)?)?;
    }
    let answers = server.run(alloc, events)?;
    let count = answers.len();
    assert!(rt;
        count == turns.len(),
        "wanted {} answers, came {count}",
        turns.len()
    );
    for (place, (answer, turn)) in answers.into_iter().zip(turns).enumerate() {
        let came = show(alloc, answer)?;
        is_told(rt, place, turn.1, turn.2, came.as_str());
    }
    Ok(())
}

fn answer(
    alloc: Global,
    server: &mut Server<BlockSeq>,
    actor: u32,
    words: &str,
) -> Result<String, Fail> {
    let step = step_of(alloc, words)?;
    let moved = server.step(alloc, actor, &step);
    Ok(show(alloc, moved)?)
}

fn event_of(alloc: Global, actor: u32, words: &str) -> Result<Event, Fail> {
    if words.starts_with("author ") {
        return Ok(Event::Accounts(Accounts::read(alloc, words.as_bytes())?));
    }
    Ok(Event::Step(actor, step_of(alloc, words)?))
}

fn step_of(alloc: Global, words: &str) -> Result<Step, Refusal> {
    Ok(match words {
        "move" => Step::Move,
        "end" => Step::End,
        "look 0" => Step::Look(0),
        "look 1" => Step::Look(1),
        "relay 2" => Step::Relay(2),
        line => Step::Ask(read_request(alloc, line.as_bytes())?),
    })
}

fn show(alloc: Global, moved: Moved) -> Result<String, Refusal> {
    let reply = match moved {
        Moved::Scanning => return Ok(String::from_str(alloc, "scanning")?),
        Moved::Idle => return Ok(String::from_str(alloc, "idle")?),
        Moved::Named(None) => return Ok(String::from_str(alloc, "no name")?),
        Moved::Named(Some(name)) => return Ok(String::from_str(alloc, name.as_str())?),
        Moved::Done(reply) => Ok(reply),
        Moved::Refused(refusal) => Err(refusal),
    };
    let line = reply_line(alloc, &reply)?;
    Ok(String::from_str(alloc, line.as_str().trim_end())?)
}
