//! A session: who it belongs to, and the pads that it has joined.
ghost use Rattle.std.specs.Prelude.{◌≡◌, ◌≢◌, ◌↔◌, IsTrue, ◌+◌, ◌≤◌, [], ◌∷◌, ◌++◌, not, drop, filter, length, slice_get, option_copied, IfErr, IsOk, OnOk};
ghost use Rattle.std.specs.List.{find};
ghost use Rattle.pad_model.specs.declared.refusal.Refusal.{Refusal};
ghost use Rattle.pad_model.specs.declared.who.Who.{Who};
ghost use Rattle.sessions.specs.Session.{IsNamed, is_of};

use pad_model::{Name, Refusal, Who};
use std::alloc::Global;
use std::marker::Model;

/// A pad that a session has joined: its cell, and the number of the visit.
#[derive(Debug, PartialEq, Drop)]
pub struct Room {
    pub pad: Name,
    pub cell: u32,
    pub visit: u64,
}

/// A session: who it belongs to, and its rooms in order of joining.
#[derive(Drop)]
pub struct Session {
    who: Who,
    rooms: Vec<Room>,
}

impl Model for Session {
    ghost use Rattle.sessions.specs.Session.{Session};

    ghost Value = { Session };

    ghost use Rattle.sessions.specs.Inside.{session_of, IsSoundSession};

    ghost view = { session_of };

    ghost invariant = { IsSoundSession };
}

impl Session {
    /// An unauthenticated session that has joined no pad. It allocates no memory.
    pub fn new(alloc: Global) -> Session
        ensures { result ≡ record { who = Who.Nobody; rooms = []; spare = 0 } }
    {
        Session {
            who: Who::Nobody,
            rooms: Vec::new(alloc),
        }
    }

    pub fn who(&self) -> &Who
        ensures value { result.now ≡ self.now.who }
        ensures named { IsNamed self.now.who }
    {
        &self.who
    }

    /// Sets who the session belongs to. Its rooms stay.
    pub fn set(&mut self, who: Who)
        requires { IsNamed who }
        ensures { self.new ≡ record self.old { who = who } }
    {
        self.who = who;
    }

    /// The room of a pad.
    pub fn room(&self, pad: &str) -> Option<&Room>
        ensures { option_copied result ≡ find (is_of pad.now) self.now.rooms }
    {
        self.rooms.iter().find(|room| room.pad.is(pad))
    }

    /// The number of rooms that the session is in.
    pub fn room_count(&self) -> usize
        ensures { result ≡ length self.now.rooms }
    {
        self.rooms.len()
    }

    /// Returns true if the session is in a room.
    pub fn has_rooms(&self) -> bool
        ensures { IsTrue result ↔ (self.now.rooms ≢ []) }
    {
        !self.rooms.is_empty()
    }

    /// Allocates memory for one more room.
    pub fn reserve(&mut self) -> Result<(), Refusal>
        ensures same { (self.new.who ≡ self.old.who) × (self.new.rooms ≡ self.old.rooms) }
        ensures ok { OnOk result (1 ≤ self.new.spare) }
        ensures memory { IfErr result (λ e. (e ≡ Refusal.Memory) × (self.new ≡ self.old)) }
        ensures room { 1 ≤ self.old.spare → IsOk result }
    {
        self.rooms.reserve(1)?;
        Ok(())
    }

    /// Adds a room after the others, in memory that `reserve` allocated.
    pub fn enter(&mut self, room: Room)
        requires { 1 ≤ self.old.spare }
        ensures who { self.new.who ≡ self.old.who }
        ensures rooms { self.new.rooms ≡ self.old.rooms ++ room ∷ [] }
        ensures spare { self.new.spare + 1 ≡ self.old.spare }
    {
        self.rooms.push_reserved(room);
    }

    /// Removes the room of a pad.
    pub fn leave(&mut self, pad: &str)
        ensures who { self.new.who ≡ self.old.who }
        ensures rooms { self.new.rooms ≡ filter (λ room. not (is_of pad.now room)) self.old.rooms }
        ensures spare { self.old.spare ≤ self.new.spare }
    {
        self.rooms.retain(|room| !room.pad.is(pad));
    }

    /// Removes the room that was joined first.
    pub fn take_first(&mut self) -> Option<Room>
        ensures who { self.new.who ≡ self.old.who }
        ensures first { result ≡ slice_get self.old.rooms 0 }
        ensures rooms { self.new.rooms ≡ drop 1 self.old.rooms }
        ensures spare { self.old.spare ≤ self.new.spare }
    {
        if self.rooms.is_empty() {
            return None;
        }
        Some(self.rooms.remove(0))
    }
}
