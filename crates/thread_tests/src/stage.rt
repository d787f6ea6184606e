//! Accounts, pads and requests that the tests share.
use block_seq::BlockSeq;
use conversation::Pads;
use pad_core::{Act, Claim, Pad, PadEvent, Reply};
use pad_model::{Name, Refusal, Text, Who};
use presence::DEFAULT_PRESENT;
use sessions::Accounts;
use std::alloc::Global;
use std::process::Abort;
use wire_json::{read_request, reply_line};

/// The authors a1 to a5.
pub fn accounts(alloc: Global) -> Result<Accounts, Refusal> {
    let lines = b"author a1 t\nauthor a2 t\nauthor a3 t\nauthor a4 t\nauthor a5 t\n";
    match Accounts::read(alloc, lines) {
        Ok(accounts) => Ok(accounts),
        Err(_) => Err(Refusal::Memory),
    }
}

/// Returns the answer to a line.
pub fn ask<P: Pads>(alloc: Global, pads: &mut P, line: &str) -> Result<Reply, Refusal> {
    match read_request(alloc, line.as_bytes()) {
        Ok(request) => pads.call(alloc, &request),
        Err(refusal) => Err(refusal),
    }
}

/// Makes these requests, and fails with the first refusal.
pub fn ask_all<P: Pads>(alloc: Global, pads: &mut P, lines: &[&str]) -> Result<(), Refusal> {
    for line in lines {
        let _answered = ask(alloc, pads, line)?;
    }
    Ok(())
}

/// Asserts that a line has exactly this reply.
pub fn tells<P: Pads>(
    rt: &impl Abort,
    alloc: Global,
    pads: &mut P,
    line: &str,
    want: &str,
) -> Result<(), Refusal> {
    let answer = ask(alloc, pads, line);
    let came = reply_line(alloc, &answer)?;
    assert!(rt; came.as_str() == want, "{line}: wanted {want}, came {came}");
    Ok(())
}

// Creates ann's pad `p`, on the server with number 1.
fn claimed(alloc: Global) -> Result<Pad<BlockSeq>, Refusal> {
    let mut pad = Pad::new(alloc, 1, DEFAULT_PRESENT)?;
    match pad.claim(alloc, "p", "ann")? {
        Claim::Created { .. } => Ok(pad),
        Claim::Exists | Claim::Other => Err(Refusal::PadExists),
    }
}

fn hello(alloc: Global) -> Result<Act, Refusal> {
    Ok(Act::Insert {
        rev: 0,
        at: 0,
        text: Text::from_str(alloc, "hello")?,
    })
}

/// Creates ann's pad `p`, after she has inserted `hello`.
pub fn typed(alloc: Global) -> Result<Pad<BlockSeq>, Refusal> {
    let mut pad = claimed(alloc)?;
    let who = Who::Author(Name::from_str(alloc, "ann")?);
    let act = hello(alloc)?;
    let event = PadEvent {
        pad: "p",
        who: &who,
        visit: Some(1),
        act: &act,
    };
    match pad.step(alloc, &event) {
        Ok(_) => Ok(pad),
        Err(refusal) => Err(refusal),
    }
}
