//! A row of shared pads, and how sessions call it.
ghost use Rattle.std.specs.Prelude.{◌≡◌, ◌≤◌, [], length, IsTrue, IfOk, IfErr, IfSome};
ghost use Rattle.std.specs.List.{range_with_len};
ghost use Rattle.pad_model.specs.Checked.{is_name};
ghost use Rattle.server_core.specs.Rooms.{IsAsked};
ghost use Rattle.conversation.specs.ThreadSession.{LeavesRoom, LeavesRooms};
ghost use Rattle.conversation.specs.PadTable.{Finds, ListsRow, RowAsked, Scans, Seeks, VisitsAt, room_cell};
ghost use Rattle.conversation.specs.Seating.{cells_in};

use crate::names::Names;
use pad_core::{Pad, Reply, Request};
use pad_model::{Name, Refusal, Sequence, Who};
use server_core::{act_refusal, create_refusal, hello, pads_refusal, past_row, peer, people};
use sessions::{Accounts, Room, Session};
use shared_pads::{Gate, LockedPad, Seat, SharedPad};
use std::alloc::Global;
use std::sync::Wait;
use store_records::leaves_records;

/// Creates one unnamed pad for each of `cells` cells, which is the most pads that the server can have: 1 to 131,072. At
/// most `present` visits may be present on a pad at once, and a pad has room for `seats` seats.
pub fn open_row<S: Sequence>(
    alloc: Global,
    replica: u16,
    present: u64,
    cells: u32,
    seats: u32,
) -> Result<Vec<SharedPad<S>>, Refusal>
    requires replica { 1 ≤ replica }
    ensures cells { IfOk result (λ row. cells_in row.items ≡ range_with_len 0 cells) }
    ensures memory { IfErr result (λ e. e ≡ Refusal.Memory) }
{
    let mut row = Vec::new(alloc);
    for cell in 0..cells {
        let Ok(kept) = LockedPad::new(alloc, Pad::new(alloc, replica, present)?, seats) else {
            return Err(Refusal::Memory);
        };
        row.push(SharedPad::new(kept, cell))?;
    }
    Ok(row)
}

// The cell of a pad, if the session has joined it.
fn cell_of(session: &Session, pad: &Name) -> Option<u32>
    ensures { result ≡ room_cell pad.now session.now.rooms }
{
    match session.room(pad.as_str()) {
        Some(room) => Some(room.cell),
        None => None,
    }
}

/// The pads that the threads of a server share, and its accounts.
#[derive(Drop)]
pub struct PadTable<'a, S: Sequence, R: Wait, G: Gate> {
    /// The runtime, for locks.
    pub rt: &'a R,
    /// At most 131,072 pads, each in the cell of its index.
    pub cells: &'a [SharedPad<S>],
    /// The names of these pads, by which a request finds its cell.
    pub names: &'a Names,
    /// The server's replica number.
    pub replica: u16,
    pub accounts: &'a Accounts,
    /// The callbacks at steps and replies.
    pub gate: &'a G,
}

impl<'a, S: Sequence, R: Wait, G: Gate> PadTable<'a, S, R, G> {
    /// Answers a request of a session, using the seats of its thread.
    pub fn ask(
        &self,
        alloc: Global,
        seats: &mut Vec<Seat>,
        session: &mut Session,
        request: &Request,
    ) -> Result<Reply, Refusal>
        ensures { RowAsked self.now.replica self.now.accounts.now (cells_in self.now.cells.now)
            session.old.who (record { rooms = session.old.rooms; seats = seats.old.items })
            request.now result session.new.who
            (record { rooms = session.new.rooms; seats = seats.new.items }) }
    {
        match request {
            Request::Hello { name, token } => {
                hello(alloc, self.replica, self.accounts, name, token, session)
            }
            Request::Peer {
                number,
                token,
                version,
            } => peer(
                self.replica,
                self.accounts,
                *number,
                token,
                *version,
                session,
            ),
            Request::Create { pad } => match create_refusal(session.who(), pad) {
                Some(refusal) => Err(refusal),
                None => self.search(alloc, seats, session, pad, request),
            },
            Request::Pads => match pads_refusal(session.who()) {
                Some(refusal) => Err(refusal),
                None => self.list(alloc, session.who()),
            },
            Request::People { names } => people(alloc, self.accounts, names, session.who()),
            Request::On { pad, act } => match act_refusal(session.who(), pad, act) {
                Some(refusal) => Err(refusal),
                None => self.search(alloc, seats, session, pad, request),
            },
        }
    }

    /// Lists the pads that `who` may read, in the order of their cells.
    fn list(&self, alloc: Global, who: &Who) -> Result<Reply, Refusal>
        ensures { ListsRow (length self.now.cells.now) who.now result }
    {
        let mut pads = pad_model::Items::new(alloc);
        for cell in self.cells {
            if let Some(listed) = cell.listing(self.rt, alloc, who)? {
                pads.push(listed)?;
            }
        }
        Ok(Reply::Pads { pads })
    }

    /// Scans from the cell of the session's room, or else from the cell that the names give. A request that may leave
    /// records is refused first if they cannot be kept.
    fn search(
        &self,
        alloc: Global,
        seats: &mut Vec<Seat>,
        session: &mut Session,
        pad: &Name,
        request: &Request,
    ) -> Result<Reply, Refusal>
        requires { IsAsked request.now }
        ensures who { session.new.who ≡ session.old.who }
        ensures seeks { Seeks (cells_in self.now.cells.now) pad.now session.old.who request.now
            (record { rooms = session.old.rooms; seats = seats.old.items }) result
            (record { rooms = session.new.rooms; seats = seats.new.items }) }
    {
        if leaves_records(request) {
            self.gate.keeps(alloc, request)?;
        }
        match cell_of(session, pad) {
            Some(cell) => self.scan(alloc, seats, session, cell as usize, request),
            None => self.find(alloc, seats, session, pad, request),
        }
    }

    /// Scans from the cell that the names give, for a session that has not joined the pad.
    fn find(
        &self,
        alloc: Global,
        seats: &mut Vec<Seat>,
        session: &mut Session,
        pad: &Name,
        request: &Request,
    ) -> Result<Reply, Refusal>
        requires { IsAsked request.now }
        ensures who { session.new.who ≡ session.old.who }
        ensures finds { Finds (cells_in self.now.cells.now) pad.now session.old.who request.now
            (record { rooms = session.old.rooms; seats = seats.old.items }) result
            (record { rooms = session.new.rooms; seats = seats.new.items }) }
    {
        let Some(start) = self.names.start(self.rt, pad, request) else {
            return Err(past_row(request));
        };
        let answer = self.scan(alloc, seats, session, start, request);
        if let Request::Create { .. } = request {
            if start >= self.cells.len() {
                self.gate.passed(request);
            }
            let made = cell_of(session, pad);
            self.names.conclude(self.rt, alloc, self.cells, made);
        }
        answer
    }

    /// Tries a request at one cell after another, from `start`, until a cell answers it.
    fn scan(
        &self,
        alloc: Global,
        seats: &mut Vec<Seat>,
        session: &mut Session,
        start: usize,
        request: &Request,
    ) -> Result<Reply, Refusal>
        requires { IsAsked request.now }
        ensures who { session.new.who ≡ session.old.who }
        ensures scans { Scans (cells_in self.now.cells.now) start session.old.who request.now
            (record { rooms = session.old.rooms; seats = seats.old.items }) result
            (record { rooms = session.new.rooms; seats = seats.new.items }) }
    {
        for place in start..self.cells.len() {
            if let Some(reply) = self.visit(alloc, seats, session, place, request)? {
                return Ok(reply);
            }
        }
        Err(past_row(request))
    }

    /// Makes one call at a cell, by the thread's seat there.
    fn visit(
        &self,
        alloc: Global,
        seats: &mut Vec<Seat>,
        session: &mut Session,
        place: usize,
        request: &Request,
    ) -> Result<Option<Reply>, Refusal>
        requires { IsAsked request.now }
        ensures who { session.new.who ≡ session.old.who }
        ensures visits { VisitsAt (cells_in self.now.cells.now) session.old.who request.now place
            (record { rooms = session.old.rooms; seats = seats.old.items }) result
            (record { rooms = session.new.rooms; seats = seats.new.items }) }
    {
        if place >= self.cells.len() || place >= seats.len() {
            return Err(Refusal::SeatsOut);
        }
        let cell = &self.cells[place];
        if !cell.owns(&seats[place]) {
            return Err(Refusal::SeatsOut);
        }
        cell.call(
            self.rt,
            alloc,
            &mut seats[place],
            session,
            request,
            self.gate,
        )
    }

    /// Leaves all pads of a session, in the order in which it joined them.
    pub fn leave_all(&self, seats: &mut Vec<Seat>, session: &mut Session)
        ensures who { session.new.who ≡ session.old.who }
        ensures rooms { session.new.rooms ≡ [] }
        ensures left { LeavesRooms (cells_in self.now.cells.now) session.old.who session.old.rooms
            seats.old.items seats.new.items }
    {
        while let Some(room) = session.take_first() {
            self.leave(seats, session, &room);
        }
    }

    /// Leaves one pad of a session.
    fn leave(&self, seats: &mut Vec<Seat>, session: &Session, room: &Room)
        ensures { LeavesRoom (cells_in self.now.cells.now) session.now.who room.now seats.old.items
            seats.new.items }
    {
        let place = room.cell as usize;
        if place >= self.cells.len() || place >= seats.len() {
            return;
        }
        let cell = &self.cells[place];
        if cell.owns(&seats[place]) {
            cell.depart(self.rt, &mut seats[place], session.who(), room, self.gate);
        }
    }

    /// The name of the pad in a cell, if it has one.
    pub fn name_of(&self, alloc: Global, cell: u32) -> Result<Option<Name>, Refusal>
        ensures formed { IfOk result (λ name. IfSome name (λ text. IsTrue (is_name text))) }
        ensures refusal { IfErr result (λ e. e ≡ Refusal.Memory) }
    {
        let place = cell as usize;
        if place >= self.cells.len() {
            return Ok(None);
        }
        self.cells[place].name(self.rt, alloc)
    }
}
