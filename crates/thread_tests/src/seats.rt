//! A pad under its lock, and its seats.
use crate::stage::typed;
use block_seq::BlockSeq;
use pad_core::{Act, PadReply, Present, Reply, Request};
use pad_model::{Items, Name, Refusal, Who};
use sessions::Session;
use shared_pads::{LockedPad, Open, Seat, SeatTally, SharedPad};
use std::alloc::Global;
use std::mem::size_of;
use std::sync::Wait;
use std::test::Fail;

fn ann(alloc: Global) -> Result<Session, Refusal> {
    let mut session = Session::new(alloc);
    let name = Name::from_str(alloc, "ann")?;
    if !name.is_well_formed() {
        return Err(Refusal::BadName);
    }
    session.set(Who::Author(name));
    Ok(session)
}

fn ask<R: Wait>(
    rt: &R,
    alloc: Global,
    shared: &SharedPad<BlockSeq>,
    seat: &mut Seat,
    session: &mut Session,
    act: Act,
) -> Result<Option<Reply>, Refusal> {
    if !shared.owns(seat) {
        return Err(Refusal::SeatsOut);
    }
    let pad = Name::from_str(alloc, "p")?;
    let request = Request::On { pad, act };
    shared.call(rt, alloc, seat, session, &request, &Open)
}

// Shares a pad in the first cell, with room for this many seats.
fn shared_pad(alloc: Global, seats: u32) -> Result<SharedPad<BlockSeq>, Refusal> {
    match LockedPad::new(alloc, typed(alloc)?, seats) {
        Ok(kept) => Ok(SharedPad::new(kept, 0)),
        Err(_) => Err(Refusal::Memory),
    }
}

// Joins, and returns the visit; 0 if the join is refused.
fn join<R: Wait>(
    rt: &R,
    alloc: Global,
    shared: &SharedPad<BlockSeq>,
    seat: &mut Seat,
    session: &mut Session,
) -> Result<u64, Refusal> {
    match ask(rt, alloc, shared, seat, session, Act::Join)? {
        Some(Reply::Pad(PadReply::Joined { visit, .. })) => Ok(visit),
        _ => Ok(0),
    }
}

fn are_visits(who: &Items<Present>, visits: [u64; 2]) -> bool {
    match who.as_slice() {
        [first, second] => first.visit == visits[0] && second.visit == visits[1],
        _ => false,
    }
}

// Returns true if these visits are present, and no others.
fn has_visits<R: Wait>(
    rt: &R,
    alloc: Global,
    shared: &SharedPad<BlockSeq>,
    seat: &mut Seat,
    session: &mut Session,
    visits: [u64; 2],
) -> Result<bool, Refusal> {
    match ask(rt, alloc, shared, seat, session, Act::Who)? {
        Some(Reply::Pad(PadReply::Who { who, .. })) => Ok(are_visits(&who, visits)),
        _ => Ok(false),
    }
}

// Leaves the pad that was joined first, as the end of a session does.
fn leave<R: Wait>(
    rt: &R,
    shared: &SharedPad<BlockSeq>,
    seat: &mut Seat,
    session: &mut Session,
) -> bool {
    match session.take_first() {
        Some(room) if shared.owns(seat) => {
            shared.depart(rt, seat, session.who(), &room, &Open);
            true
        }
        _ => false,
    }
}

// Returns true if the pad has this name.
fn is_named<R: Wait>(rt: &R, alloc: Global, shared: &SharedPad<BlockSeq>, name: &str) -> bool {
    match shared.name(rt, alloc) {
        Ok(Some(found)) => found.is(name),
        _ => false,
    }
}

// Closes a pad with one seat, and returns its calls; None if it does not close.
fn closed_calls(
    alloc: Global,
    shared: SharedPad<BlockSeq>,
    seat: Seat,
) -> Result<Option<u64>, Refusal> {
    let mut seats = Vec::new(alloc);
    seats.push(seat)?;
    Ok(shared.close(seats).ok().map(|closed| closed.calls))
}

// Tries to close a pad without its seat, and returns the pad; None if it closes.
fn without_seat(alloc: Global, shared: SharedPad<BlockSeq>) -> Option<SharedPad<BlockSeq>> {
    match shared.close(Vec::new(alloc)) {
        Ok(_) => None,
        Err((shared, _)) => Some(shared),
    }
}

// The outcome of a join, a departure and a join: the visit of the first join, whether there was a departure, the visit
// of the second join, and whether exactly the visits 1 and 3 are present at the end.
type Comes = (u64, bool, u64, bool);

// Joins, departs, and joins again.
fn comes_again<R: Wait>(
    rt: &R,
    alloc: Global,
    shared: &SharedPad<BlockSeq>,
    seat: &mut Seat,
) -> Result<Comes, Refusal> {
    let mut session = ann(alloc)?;
    let second = join(rt, alloc, shared, seat, &mut session)?;
    let left = leave(rt, shared, seat, &mut session);
    let third = join(rt, alloc, shared, seat, &mut session)?;
    let present = has_visits(rt, alloc, shared, seat, &mut session, [1, 3])?;
    Ok((second, left, third, present))
}

#[test]
fn one_seat(rt: HostRuntime) -> Result<(), Fail> {
    let alloc = rt.alloc();
    let shared = shared_pad(alloc, 1)?;
    let mut seat = shared.seat(&rt)?;
    assert!(rt;
        is_named(&rt, alloc, &shared, "p"),
        "the pad is not named p"
    );
    let came = comes_again(&rt, alloc, &shared, &mut seat)?;
    assert!(rt;
        came == (2, true, 3, true),
        "wanted (2, true, 3, true), came {came:?}"
    );
    let Some(shared) = without_seat(alloc, shared) else {
        panic!(rt; "it is closed without its seat");
    };
    let came = closed_calls(alloc, shared, seat)?;
    assert!(rt; came == Some(4), "wanted 4 calls, came {came:?}");
    Ok(())
}

// Returns the number of seats that a pad makes before it refuses one with 317.
fn count_seats<R: Wait>(rt: &R, shared: &SharedPad<BlockSeq>) -> u64 {
    for count in 0..100 {
        match shared.seat(rt) {
            Ok(_) => {}
            Err(Refusal::SeatsGone) => return count,
            Err(_) => return 0,
        }
    }
    100
}

#[test]
fn limit_seats(rt: HostRuntime) -> Result<(), Fail> {
    let alloc = rt.alloc();
    for (room, wanted) in [
        (0, 0),
        (1, 1),
        (8, 8),
        (95, 95),
        (96, 96),
        (97, 96),
        (u32::MAX, 96),
    ] {
        let shared = shared_pad(alloc, room)?;
        let came = count_seats(&rt, &shared);
        assert!(rt;
            came == wanted,
            "wanted {wanted} seats with room for {room}, came {came}"
        );
    }
    Ok(())
}

#[test]
fn a_cell_with_8_seats_takes_1496_bytes(rt: HostRuntime) -> Result<(), Fail> {
    let cell = size_of::<SharedPad<BlockSeq>>();
    let seat = size_of::<SeatTally>();
    assert!(rt;
        cell <= 1_112,
        "wanted 1,112 bytes for a cell without seats, came {cell}"
    );
    assert!(rt; seat <= 48, "wanted 48 bytes for a seat, came {seat}");
    Ok(())
}
