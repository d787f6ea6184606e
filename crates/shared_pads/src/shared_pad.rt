//! A pad that many threads share, behind its lock.
ghost use Rattle.std.specs.Prelude.{◌≡◌, ◌⊎◌, ◌↔◌, IsTrue, IfOk, IfErr, IfSome, MatchResult, None};
ghost use Rattle.pad_model.specs.Checked.{is_name};
ghost use Rattle.server_core.specs.Rooms.{IsAsked};
ghost use Rattle.shared_pads.specs.LockedPad.{Called, Departs, HasClosed, IsListing, IsNamed, seat_after};
ghost use Rattle.shared_pads.specs.Seats.{uncounted};

use crate::gate::{Answered, Gate};
use crate::locked_pad::LockedPad;
use crate::seat::Seat;
use pad_core::{Listed, Pad, Reply, Request};
use pad_model::{Items, Name, Refusal, Sequence, Who};
use sessions::{Room, Session};
use std::alloc::Global;
use std::sync::{Mutex, MutexGuard, Wait};
use std::thread::yield_now;

/// The number of times a thread tries a lock and yields before it sleeps until the lock is free. A step takes a few
/// microseconds, less than putting a thread to sleep and waking it.
const LOOKS: u32 = 64;

/// A pad behind its lock, in a cell of a row.
///
/// Whenever the lock is free the pad is in a state of the machine after its own log, and its revision is that of `new`
/// with the operations of all seats.
#[derive(Drop)]
pub struct SharedPad<S: Sequence> {
    kept: Mutex<LockedPad<S>>,
    cell: u32,
}

impl<S: Sequence> SharedPad<S> {
    /// Puts a pad behind a lock. `LockedPad::new` makes room for the tallies of its seats.
    pub fn new(kept: LockedPad<S>, cell: u32) -> SharedPad<S>
        ensures { result.cell ≡ cell }
    {
        SharedPad {
            kept: Mutex::new(kept),
            cell,
        }
    }

    /// The place in the row.
    pub fn cell(&self) -> u32
        ensures { result ≡ self.now.cell }
    {
        self.cell
    }

    /// Returns true if a seat is for this cell.
    pub fn owns(&self, seat: &Seat) -> bool
        ensures { IsTrue result ↔ (seat.now.cell ≡ self.now.cell) }
    {
        seat.cell() == self.cell
    }

    /// Makes one more seat. It is refused with 317 if as many were made as there is room for. It takes no memory.
    pub fn seat<R: Wait>(&self, rt: &R) -> Result<Seat, Refusal>
        ensures seat { IfOk result (λ seat. (seat.cell ≡ self.now.cell)
            × (seat.tally ≡ uncounted)) }
        ensures refusal { IfErr result (λ e. e ≡ Refusal.SeatsGone) }
    {
        self.kept.lock(rt).seat(self.cell)
    }

    // The lock, for a step.
    fn lock<R: Wait>(&self, rt: &R) -> MutexGuard<'_, LockedPad<S>> {
        for _look in 0..LOOKS {
            if let Some(kept) = self.kept.try_lock() {
                return kept;
            }
            yield_now();
        }
        self.kept.lock(rt)
    }

    /// A request at this cell. None: the pad there has another name. 318: the seat is not the one that the pad knows.
    pub fn call<R: Wait, G: Gate>(
        &self,
        rt: &R,
        alloc: Global,
        seat: &mut Seat,
        session: &mut Session,
        request: &Request,
        gate: &G,
    ) -> Result<Option<Reply>, Refusal>
        requires owned { seat.old.cell ≡ self.now.cell }
        requires asked { IsAsked request.now }
        ensures who { session.new.who ≡ session.old.who }
        ensures called { Called seat.old session.old.who request.now session.old.rooms result
            seat.new session.new.rooms }
        ensures told { G.told gate.now self.now.cell request.now result }
    {
        let now = gate.clock();
        let mut kept = self.lock(rt);
        kept.tick(now);
        let at = kept.time_now();
        let before = kept.revision();
        let (answer, call) = kept.call(alloc, seat, session, request);
        let more = if gate.reads_operations() {
            kept.since(alloc, before)
        } else {
            Ok(Items::new(alloc))
        };
        let answered = Answered {
            call,
            cell: self.cell,
            who: session.who(),
            request,
            answer: &answer,
            from: before,
            made: kept.revision().saturating_sub(before),
            at,
            visit: kept.last_visit(),
            more: &more,
        };
        gate.answered(alloc, answered, &*kept);
        gate.inside(self.cell);
        answer
    }

    /// Ends a visit if it is present and the session's; otherwise it does nothing. It takes no memory.
    pub fn depart<R: Wait, G: Gate>(
        &self,
        rt: &R,
        seat: &mut Seat,
        who: &Who,
        room: &Room,
        gate: &G,
    )
        requires { seat.old.cell ≡ self.now.cell }
        ensures seat { (seat.new ≡ seat.old) ⊎ (seat.new ≡ seat_after 0 None seat.old) }
        ensures departs { Departs seat.old who.now room.now seat.new }
    {
        let mut kept = self.kept.lock(rt);
        kept.depart(seat, who, room);
        gate.inside(self.cell);
    }

    /// The name of the pad, if it has one.
    pub fn name<R: Wait>(&self, rt: &R, alloc: Global) -> Result<Option<Name>, Refusal>
        ensures formed { IfOk result (λ name. IfSome name (λ text. IsTrue (is_name text))) }
        ensures named { IfOk result (λ name. IfSome name (IsNamed self.now.cell)) }
        ensures refusal { IfErr result (λ e. e ≡ Refusal.Memory) }
    {
        self.kept.lock(rt).name(alloc)
    }

    /// The pad as somebody sees it in a list of pads, if it is listed for them. It needs no seat and calls no gate.
    pub fn listing<R: Wait>(
        &self,
        rt: &R,
        alloc: Global,
        who: &Who,
    ) -> Result<Option<Listed>, Refusal>
        ensures { MatchResult result (IsListing who.now) (λ e. e ≡ Refusal.Memory) }
    {
        self.kept.lock(rt).listing(alloc, who)
    }

    /// Ends the sharing, if these are the seats that were made, each once, with their tallies; otherwise everything is
    /// handed back (318). A seat of another cell is not one of them.
    pub fn close(self, seats: Vec<Seat>) -> Result<Closed<S>, (SharedPad<S>, Vec<Seat>)>
        ensures closed { IfOk result (λ closed. HasClosed closed.pad self.cell seats.items
            closed.operations closed.calls) }
        ensures back { IfErr result (λ back. (back.0.cell ≡ self.cell) × (back.1 ≡ seats)) }
    {
        let SharedPad { kept, cell } = self;
        let kept = kept.into_inner();
        match kept.sum(cell, seats.as_slice()) {
            Some(sums) => Ok(Closed {
                pad: kept.into_pad(),
                operations: sums.operations,
                calls: sums.calls,
            }),
            None => Err((
                SharedPad {
                    kept: Mutex::new(kept),
                    cell,
                },
                seats,
            )),
        }
    }
}

/// A pad that is no longer shared, and what all its seats have done.
#[derive(Drop)]
pub struct Closed<S: Sequence> {
    pub pad: Pad<S>,
    pub operations: u64,
    pub calls: u64,
}
