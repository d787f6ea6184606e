//! The pads that a session has joined, compared with results worked out by hand.
use pad_model::{Name, Refusal, Version, Who};
use sessions::{Room, Session};
use std::alloc::Global;
use std::process::Abort;
use std::test::Fail;

const PEER: Who = Who::Peer {
    number: 2,
    version: Version::Two,
};

fn be_ann(alloc: Global, session: &mut Session) -> Result<(), Refusal> {
    session.set(Who::Author(Name::from_str(alloc, "ann")?));
    Ok(())
}

fn is_ann(who: &Who) -> bool {
    match who {
        Who::Author(name) => name.is("ann"),
        _ => false,
    }
}

fn enter(
    alloc: Global,
    session: &mut Session,
    pad: &str,
    cell: u32,
    visit: u64,
) -> Result<(), Refusal> {
    let pad = Name::from_str(alloc, pad)?;
    session.reserve()?;
    session.enter(Room { pad, cell, visit });
    Ok(())
}

/// Returns true if this is the room of a pad, with its cell and the visit, or if there is none and none is wanted.
fn is_room(room: Option<&Room>, want: Option<(&str, u32, u64)>) -> bool {
    match (room, want) {
        (Some(room), Some((pad, cell, visit))) => {
            room.pad.is(pad) && room.cell == cell && room.visit == visit
        }
        (None, None) => true,
        _ => false,
    }
}

fn takes_first(rt: &impl Abort, session: &mut Session, want: Option<(&str, u32, u64)>) {
    let came = session.take_first();
    assert!(rt;
        is_room(came.as_ref(), want),
        "first room: wanted {want:?}, came {came:?}"
    );
}

/// Asserts the room of a pad.
fn has_room(rt: &impl Abort, session: &Session, pad: &str, want: Option<(&str, u32, u64)>) {
    let came = session.room(pad);
    assert!(rt;
        is_room(came, want),
        "room of {pad}: wanted {want:?}, came {came:?}"
    );
}

/// A pad, its cell and the visit.
type Entry = (&'static str, u32, u64);

const ENTERED: &[Entry] = &[("p", 0, 3), ("q", 5, 1), ("r", 2, 9)];

/// The rooms that are taken from the front after `q` was left.
const TAKEN: &[Option<Entry>] = &[Some(("p", 0, 3)), Some(("r", 2, 9)), None];

fn enter_all(alloc: Global, session: &mut Session) -> Result<(), Refusal> {
    for (pad, cell, visit) in ENTERED {
        enter(alloc, session, pad, *cell, *visit)?;
    }
    Ok(())
}

/// Asserts that the rooms that were entered are there, and that one that was left is not.
fn are_entered_and_left(rt: &impl Abort, session: &mut Session) {
    has_room(rt, session, "q", Some(("q", 5, 1)));
    has_room(rt, session, "s", None);
    session.leave("q");
    session.leave("s");
    has_room(rt, session, "q", None);
}

#[test]
fn rooms_of_a_session(rt: HostRuntime) -> Result<(), Fail> {
    let mut session = Session::new(rt.alloc());
    assert!(rt;
        session.who() == &Who::Nobody,
        "wanted Nobody, came {:?}",
        session.who()
    );
    session.set(PEER);
    be_ann(rt.alloc(), &mut session)?;
    assert!(rt;
        is_ann(session.who()),
        "wanted ann, came {:?}",
        session.who()
    );
    enter_all(rt.alloc(), &mut session)?;
    are_entered_and_left(&rt, &mut session);
    for want in TAKEN {
        takes_first(&rt, &mut session, *want);
    }
    Ok(())
}
