//! A list of events on one pad, made as one run.
use block_seq::BlockSeq;
use pad_core::{Act, Claim, Pad, PadEvent, PadReply};
use pad_model::{Name, Refusal, Text, Who};
use presence::DEFAULT_PRESENT;
use std::alloc::Global;
use std::test::Fail;

// The pad `p` of ann, on the server with number 1.
fn claimed(alloc: Global) -> Result<Pad<BlockSeq>, Refusal> {
    let mut pad = Pad::new(alloc, 1, DEFAULT_PRESENT)?;
    match pad.claim(alloc, "p", "ann")? {
        Claim::Created { .. } => Ok(pad),
        Claim::Exists | Claim::Other => Err(Refusal::PadExists),
    }
}

fn hello(alloc: Global) -> Result<Act, Refusal> {
    Ok(Act::Insert {
        rev: 0,
        at: 0,
        text: Text::from_str(alloc, "hello")?,
    })
}

fn is_made(reply: &Result<PadReply, Refusal>) -> bool {
    match reply {
        Ok(PadReply::Made { now, name }) => *now == 1 && name.origin == 1 && name.number == 1,
        _ => false,
    }
}

fn has_length(reply: &Result<PadReply, Refusal>, want: usize) -> bool {
    match reply {
        Ok(PadReply::Text { now, rev, text }) => *now == 1 && *rev == 1 && text.len() == want,
        _ => false,
    }
}

fn is_elsewhere(reply: &Result<PadReply, Refusal>) -> bool {
    matches!(reply, Ok(PadReply::Elsewhere))
}

fn is_denied(reply: &Result<PadReply, Refusal>) -> bool {
    matches!(reply, Err(Refusal::NotJoined))
}

#[test]
fn a_run_answers_each_event(rt: HostRuntime) -> Result<(), Fail> {
    let alloc = rt.alloc();
    let mut pad = claimed(alloc)?;
    let who = Who::Author(Name::from_str(alloc, "ann")?);
    let (typed, read) = (hello(alloc)?, Act::Text { rev: None });
    let event = |pad, visit, act| PadEvent {
        pad,
        who: &who,
        visit,
        act,
    };
    let events = [
        event("p", Some(1), &typed),
        event("p", Some(1), &read),
        event("q", Some(1), &read),
        event("p", None, &read),
    ];
    let replies = pad.run(alloc, &events)?;
    assert!(rt; replies.len() == 4, "wanted 4 replies, came {replies:?}");
    assert!(rt;
        is_made(&replies[0]),
        "wanted 1 of 1, came {:?}",
        replies[0]
    );
    assert!(rt;
        has_length(&replies[1], 5),
        "wanted 5 characters, came {:?}",
        replies[1]
    );
    assert!(rt;
        is_elsewhere(&replies[2]),
        "wanted Elsewhere, came {:?}",
        replies[2]
    );
    assert!(rt;
        is_denied(&replies[3]),
        "wanted NotJoined, came {:?}",
        replies[3]
    );
    Ok(())
}
