//! The state that the lock of a shared pad protects.
ghost use Rattle.std.specs.Prelude.{◌≡◌, ◌⊎◌, ◌↔◌, ◌≤◌, ◌-◌, drop, length, IsTrue, is_some, IsSome, IfOk, IfErr, IfSome, MatchResult, OnOk, OnErr, Err, None};
ghost use Rattle.std.specs.List.{AllByRecursion};
ghost use Rattle.server_core.specs.Rooms.{IsAsked};
ghost use Rattle.pad_core.specs.Listing.{listing};
ghost use Rattle.pad_core.specs.Machine.{name_of};
ghost use Rattle.pad_model.specs.Checked.{is_name};
ghost use Rattle.shared_pads.specs.LockedPad.{AreAll, Called, CanBe, Counts, Departs, IsClosed, IsKnown, IsListing, IsOf, kept_after, left, next_seat, one_more, seat_after, ticked, unseated};
ghost use Rattle.op_log.specs.Made.{last_visit};
ghost use Rattle.pad_core.specs.Times.{time_now};
ghost use Rattle.shared_pads.specs.Seats.{Stands, Tells};

use crate::seat::{MAX_SEATS, Seat, SeatTally, edit_of};
use crate::sums::{Sums, are_apart, sums_of};
use pad_core::{Listed, Pad, Reply, Request};
use pad_model::{Items, Name, Op, Refusal, Sequence, Who};
use server_core::request_at;
use sessions::{Room, Session};
use std::alloc::Global;
use std::marker::Model;

/// A call of a pad that its gate was not told of yet. Each call makes one, and `Gate::answered` takes it, so no gate is
/// told of a call twice.
#[derive(Debug, Drop)]
pub struct Untold {
    _call: (),
}

/// A pad, the revision that it had when it came under its lock, and the tally of each seat. It has room for all seats
/// that it may make.
#[derive(Drop)]
pub struct LockedPad<S: Sequence> {
    pad: Pad<S>,
    base: u64,
    tallies: Vec<SeatTally>,
    calls: u64,
    /// The most seats that it makes.
    seats: u32,
}

impl<S: Sequence> Model for LockedPad<S> {
    ghost use Rattle.std.specs.Prelude.{vec_capacity};
    ghost use Rattle.shared_pads.specs.LockedPad.{LockedPad, IsKept};

    ghost Value = { LockedPad };

    ghost view = { λ k. record {
      pad = k.pad;
      base = k.base;
      tallies = k.tallies.items;
      calls = k.calls;
      seats = k.seats;
    } };

    ghost invariant = { λ k. IsKept k.pad.log k.base k.tallies.items k.calls k.seats
        (vec_capacity k.tallies) };
}

impl<S: Sequence> LockedPad<S> {
    /// A pad without seats, with room for this many, at most 96. If there is no memory for their tallies, it is handed
    /// back.
    pub fn new(alloc: Global, pad: Pad<S>, seats: u32) -> Result<LockedPad<S>, Pad<S>>
        ensures { MatchResult result (λ kept. kept ≡ unseated seats pad) (λ back. back ≡ pad) }
    {
        let seats = seats.min(MAX_SEATS);
        match Vec::with_capacity(alloc, seats as usize) {
            Ok(tallies) => {
                let base = pad.revision();
                Ok(LockedPad {
                    pad,
                    base,
                    tallies,
                    calls: 0,
                    seats,
                })
            }
            Err(_) => Err(pad),
        }
    }

    /// Makes a seat with a number of its own, at this cell. It takes no memory.
    pub fn seat(&mut self, cell: u32) -> Result<Seat, Refusal>
        ensures gone { (result ≡ Err Refusal.SeatsGone) ↔
            (self.old.seats ≤ length self.old.tallies) }
        ensures refusal { IfErr result (λ e. e ≡ Refusal.SeatsGone) }
        ensures refused { OnErr result (self.new ≡ self.old) }
        ensures seat { IfOk result (λ seat. seat ≡ next_seat cell self.old) }
        ensures kept { OnOk result (self.new ≡ one_more self.old) }
    {
        let number = self.tallies.len();
        if number >= self.seats as usize {
            return Err(Refusal::SeatsGone);
        }
        self.tallies.push_reserved(SeatTally::new());
        Ok(Seat {
            cell,
            number: number as u32,
            base: self.base,
            tally: SeatTally::new(),
        })
    }

    /// Makes a session that ends leave: ends a visit if it is present and the session's. It takes no memory.
    pub fn depart(&mut self, seat: &mut Seat, who: &Who, room: &Room)
        ensures departs { Departs seat.old who.now room.now seat.new }
        ensures seat { (seat.new ≡ seat.old) ⊎ (seat.new ≡ seat_after 0 None seat.old) }
        ensures known { IsKnown self.old seat.old
            → (seat.new ≡ seat_after 0 None seat.old)
            × (self.new ≡ kept_after (left who.now room.now self.old.pad) 0 None seat.old
            self.old) }
        ensures unknown { ¬ IsKnown self.old seat.old
            → (seat.new ≡ seat.old) × (self.new ≡ self.old) }
    {
        if !self.knows(seat) {
            return;
        }
        // The contract of `revision` says what a pad is, before and after.
        let _before = self.pad.revision();
        self.pad.depart(room.pad.as_str(), who, room.visit);
        let _after = self.pad.revision();
        let tally = seat.tally.with_departure();
        self.tallies[seat.number as usize] = tally;
        self.calls += 1;
        seat.tally = tally;
    }

    /// The name of the pad, if it has one.
    pub fn name(&self, alloc: Global) -> Result<Option<Name>, Refusal>
        ensures name { IfOk result (λ name. name ≡ name_of self.now.pad.owned) }
        ensures can { CanBe self.now.pad }
        ensures formed { IfOk result (λ name. IfSome name (λ text. IsTrue (is_name text))) }
        ensures refusal { IfErr result (λ e. e ≡ Refusal.Memory) }
    {
        // The contract of `revision` says what a pad is.
        let _revision = self.pad.revision();
        match self.pad.name() {
            None => Ok(None),
            Some(name) => Ok(Some(Name::from_str(alloc, name)?)),
        }
    }

    /// The pad as somebody sees it in a list of pads, if it is listed for them.
    pub fn listing(&self, alloc: Global, who: &Who) -> Result<Option<Listed>, Refusal>
        ensures exact { MatchResult result (λ told. told ≡ listing who.now self.now.pad)
            (λ e. (e ≡ Refusal.Memory) × IsTrue (is_some (listing who.now self.now.pad))) }
        ensures some { IfOk result (IsListing who.now) }
    {
        let _revision = self.pad.revision();
        self.pad.listing(alloc, who)
    }

    /// Returns the sums of all seats, if these are the seats that were made, at this cell.
    pub fn sum(&self, cell: u32, seats: &[Seat]) -> Option<Sums>
        ensures sums { IfSome result (λ sums. IsClosed cell self.now seats.now sums) }
        ensures standing { IfSome result (λ _. AllByRecursion
            (λ seat. Stands self.now.pad.log seat.tally.last) seats.now) }
        ensures all { IsSome result ↔ AreAll cell self.now seats.now }
    {
        let revision = self.pad.revision();
        let calls = self.calls;
        let sums = sums_of(seats)?;
        let made = self.base.checked_add(sums.operations)?;
        if revision != made || calls != sums.calls {
            return None;
        }
        if seats.len() != self.tallies.len() || !are_apart(seats) || !self.has_all(cell, seats) {
            return None;
        }
        Some(sums)
    }

    /// Returns true if each seat is exactly the one that is known here, and of this cell.
    fn has_all(&self, cell: u32, seats: &[Seat]) -> bool
        ensures { IsTrue result ↔ AllByRecursion (IsOf cell self.now) seats.now }
    {
        match seats.split_first() {
            None => true,
            Some((first, rest)) => self.has(cell, first) && self.has_all(cell, rest),
        }
    }

    fn has(&self, cell: u32, seat: &Seat) -> bool
        ensures { IsTrue result ↔ IsOf cell self.now seat.now }
    {
        if seat.cell != cell || seat.base != self.base {
            return false;
        }
        match self.tallies.get(seat.number as usize) {
            Some(tally) => tally.is_same(seat.tally),
            None => false,
        }
    }

    /// The pad.
    pub fn into_pad(self) -> Pad<S>
        ensures { result ≡ self.pad }
    {
        let LockedPad { pad, .. } = self;
        pad
    }

    /// Tells the pad the time of day, in milliseconds since 1970.
    pub fn tick(&mut self, clock: u64)
        ensures { self.new ≡ ticked clock self.old }
    {
        self.pad.tick(clock);
    }

    /// The time that an operation gets if it is delivered now.
    pub fn time_now(&self) -> u64
        ensures { result ≡ time_now self.now.pad.clock self.now.pad.made.times }
    {
        self.pad.time_now()
    }

    /// The visit in which the last operation was made, or 0.
    pub fn last_visit(&self) -> u64
        ensures { result ≡ last_visit self.now.pad.made }
    {
        self.pad.last_visit()
    }

    /// The revision that the last operation made.
    pub fn revision(&self) -> u64
        ensures { result ≡ length self.now.pad.log }
    {
        self.pad.revision()
    }

    /// The operations that made the revisions after this one.
    pub fn since(&self, alloc: Global, revision: u64) -> Result<Items<Op>, Refusal>
        ensures { MatchResult result (λ row. row ≡ drop revision self.now.pad.log)
            (λ e. e ≡ Refusal.Memory) }
    {
        self.pad.since(alloc, revision)
    }

    /// Returns true if a seat is the one that is known here, and one more call can be counted.
    fn knows(&self, seat: &Seat) -> bool
        ensures { IsTrue result ↔ IsKnown self.now seat.now }
    {
        if self.calls == u64::MAX || seat.base != self.base {
            return false;
        }
        match self.tallies.get(seat.number as usize) {
            Some(tally) => tally.is_same(seat.tally),
            None => false,
        }
    }

    /// A call of a seat: what a step of the server machine does at this cell, in a state that fits the seat.
    pub fn call(
        &mut self,
        alloc: Global,
        seat: &mut Seat,
        session: &mut Session,
        request: &Request,
    ) -> (Result<Option<Reply>, Refusal>, Untold)
        requires { IsAsked request.now }
        ensures who { session.new.who ≡ session.old.who }
        ensures called { Called seat.old session.old.who request.now session.old.rooms result.0
            seat.new session.new.rooms }
        ensures known { IsKnown self.old seat.old
            → Counts self.old seat.old session.old.who request.now session.old.rooms result.0 seat.new
            session.new.rooms self.new }
        ensures unknown { ¬ IsKnown self.old seat.old
            → (result.0 ≡ Err Refusal.SeatsOut) × (seat.new ≡ seat.old)
            × (session.new.rooms ≡ session.old.rooms) × (self.new ≡ self.old) }
        ensures made { (length self.old.pad.log ≤ length self.new.pad.log)
            × Tells request.now result.0 (length self.new.pad.log - length self.old.pad.log) }
    {
        let untold = Untold { _call: () };
        if !self.knows(seat) {
            return (Err(Refusal::SeatsOut), untold);
        }
        let answer = self.visit(alloc, seat, session, request);
        (answer, untold)
    }

    /// A call of a seat that is known here.
    fn visit(
        &mut self,
        alloc: Global,
        seat: &mut Seat,
        session: &mut Session,
        request: &Request,
    ) -> Result<Option<Reply>, Refusal>
        requires asked { IsAsked request.now }
        requires known { IsKnown self.old seat.old }
        ensures who { session.new.who ≡ session.old.who }
        ensures counts { Counts self.old seat.old session.old.who request.now session.old.rooms
            result seat.new session.new.rooms self.new }
        ensures called { Called seat.old session.old.who request.now session.old.rooms result
            seat.new session.new.rooms }
    {
        let before = self.pad.revision();
        let answer = request_at(alloc, &mut self.pad, seat.cell, session, request);
        let more = self.pad.revision() - before;
        let tally = seat.tally.with_call(more, edit_of(request, &answer));
        self.tallies[seat.number as usize] = tally;
        self.calls += 1;
        seat.tally = tally;
        answer
    }
}
