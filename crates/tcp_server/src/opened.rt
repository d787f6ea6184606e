//! The pads, the store and the accounts that a server opens before it serves anyone.
ghost use Rattle.std.specs.Prelude.{◌≤◌};
ghost use Rattle.server_core.specs.declared.limits.TheConstants.{MAX_CELLS};

use crate::room::{FileShares, room_of};
use crate::serving_error::ServingError;
use crate::settings::{Settings, StandbyPeer};
use crate::threads::seats_for;
use accounts_file::{read_accounts, warn_of_tokens};
use block_seq::BlockSeq;
use conversation::{Names, open_row};
use pad_model::Refusal;
use peering::{Bell, Exchange, Stop};
use sessions::{Accounts, Peer};
use shared_pads::SharedPad;
use std::alloc::Global;
use std::fs::File;
use std::num::NonZeroUsize;
use std::rt::Runtime;
use std::sync::Wait;
use std::thread::Threads;
use store_files::{Keeper, Owner, Size, Stored, restore};

/// The pads of a server, their revisions, their keeper and the accounts that may use them.
#[derive(Drop)]
pub struct Opened {
    pub cells: Vec<SharedPad<BlockSeq>>,
    pub names: Names,
    pub revisions: Vec<u64>,
    /// The numbers that the server had before, by the files of its store.
    pub numbers: Vec<u16>,
    pub keeper: Option<Keeper>,
    pub accounts: Accounts,
    /// How many files may be open, of which kinds.
    pub room: FileShares,
    /// The state that the threads that exchange with peers share, and the means to stop them.
    pub exchange: Exchange,
    pub stop: Stop,
    /// Rung when the server ends.
    pub end: Bell,
}

impl Opened {
    /// The standby's line in the accounts file.
    pub fn peer(&self, number: u16) -> Option<&Peer> {
        self.accounts
            .peers()
            .iter()
            .find(|peer| peer.number == number)
    }

    /// Returns the number of pads.
    pub fn named_pads<R: AllocGlobal + Wait>(&self, rt: &R) -> Result<u64, Refusal> {
        let mut pads = 0u64;
        for cell in &self.cells {
            if cell.name(rt, rt.alloc())?.is_some() {
                pads = pads.saturating_add(1);
            }
        }
        Ok(pads)
    }

    /// Returns true if the server ends because the standby did not answer.
    pub fn has_lost_standby(&self) -> bool {
        match &self.keeper {
            Some(keeper) => keeper.has_lost_standby(),
            None => false,
        }
    }

    /// Returns true if there is a store and it has failed.
    pub fn has_failed(&self) -> bool {
        match &self.keeper {
            Some(keeper) => keeper.has_failed(),
            None => false,
        }
    }
}

/// The pads of the command line's store, or empty ones without it, and the accounts of a file, with the file's bytes.
pub fn open_pads<'a, R>(
    rt: &R,
    files: HostRuntime,
    asked: Settings<'a>,
    path: &'a str,
) -> Result<(Opened, Vec<u8>), ServingError<'a>>
where
    R: Runtime<A = Global, File = File> + Threads + Wait + Eprint + Sync,
    requires { (1 ≤ asked.replica) × (asked.cells ≤ MAX_CELLS) }
{
    let (accounts, bytes) = accounts_of(rt, asked, path)?;
    match open_with(rt, files, asked, accounts) {
        Ok(opened) => Ok((opened, bytes)),
        Err(error) => Err(error),
    }
}

// The accounts of a file, with its bytes. The standby of the settings has to have a line in it.
fn accounts_of<'a, R>(
    rt: &R,
    asked: Settings<'a>,
    path: &'a str,
) -> Result<(Accounts, Vec<u8>), ServingError<'a>>
where
    R: Runtime<A = Global, File = File> + Eprint,
{
    let (accounts, bytes) = read_accounts(rt, path)?;
    let accounts = accounts
        .with_any_user(asked.any_user)
        .with_guests(asked.guests);
    warn_of_tokens(rt, path, bytes.as_slice());
    match unknown_standby(asked, &accounts) {
        Some(number) => Err(ServingError::NoPeer { number }),
        None => Ok((accounts, bytes)),
    }
}

// The number of the settings' standby, if the accounts have no such peer.
fn unknown_standby(asked: Settings<'_>, accounts: &Accounts) -> Option<u16> {
    let StandbyPeer { number, .. } = asked.standby?;
    if accounts.peers().iter().any(|peer| peer.number == number) {
        None
    } else {
        Some(number)
    }
}

// The pads of the settings' store, or empty ones without it, for these accounts.
fn open_with<'a, R>(
    rt: &R,
    files: HostRuntime,
    asked: Settings<'a>,
    accounts: Accounts,
) -> Result<Opened, ServingError<'a>>
where
    R: Runtime<A = Global, File = File> + Threads + Wait + Eprint + Sync,
    requires { (1 ≤ asked.replica) × (asked.cells ≤ MAX_CELLS) }
{
    let peers = accounts.peers().len();
    let (seats, room) = (seats_for(rt, asked, peers), room_of(rt, asked, peers));
    let row = match asked.store {
        Some(folder) => stored_row(rt, files, asked, folder, seats, room),
        None => free_row(rt.alloc(), asked, seats),
    };
    match row {
        Ok(row) => Ok(open_row_of(rt, row, accounts, room)?),
        Err(error) => Err(error),
    }
}

// The pads of a server, with the keeper of their files.
#[derive(Drop)]
struct OpenedRow {
    cells: Vec<SharedPad<BlockSeq>>,
    revisions: Vec<u64>,
    numbers: Vec<u16>,
    keeper: Option<Keeper>,
}

// The pads of a store, with this number of seats at each, and room for so many open files.
fn stored_row<'a, R>(
    rt: &R,
    files: HostRuntime,
    asked: Settings<'a>,
    folder: &'a str,
    seats: u32,
    room: FileShares,
) -> Result<OpenedRow, ServingError<'a>>
where
    R: Runtime<A = Global, File = File> + Threads + Wait + Eprint + Sync,
    requires { 1 ≤ asked.replica }
{
    let owner = Owner::new(asked.replica, asked.new_replica, asked.present);
    let confirm = asked.standby.map(|standby| standby.confirm);
    let size = Size {
        cells: asked.cells,
        seats,
        files: NonZeroUsize::new(room.pads as usize).unwrap_or(NonZeroUsize::MIN),
    };
    let Stored {
        cells,
        revisions,
        numbers,
        keeper,
    } = restore(rt, files, folder, &owner, size, confirm)?;
    Ok(OpenedRow {
        cells,
        revisions,
        numbers,
        keeper: Some(keeper),
    })
}

// Pads without names, with this number of seats at each.
fn free_row(
    alloc: Global,
    asked: Settings<'_>,
    seats: u32,
) -> Result<OpenedRow, ServingError<'static>>
    requires { (1 ≤ asked.replica) × (asked.cells ≤ MAX_CELLS) }
{
    let mut revisions = Vec::new(alloc);
    revisions.resize(asked.cells as usize, 0)?;
    let cells = open_row(alloc, asked.replica, asked.present, asked.cells, seats)?;
    Ok(OpenedRow {
        cells,
        revisions,
        numbers: Vec::new(alloc),
        keeper: None,
    })
}

// Makes the `Opened` of a server with these pads.
fn open_row_of<R: AllocGlobal + Wait>(
    rt: &R,
    row: OpenedRow,
    accounts: Accounts,
    room: FileShares,
) -> Result<Opened, Refusal> {
    match shared_parts(rt, row.cells.as_slice(), accounts.peers().len()) {
        Ok(shared) => Ok(Opened {
            cells: row.cells,
            names: shared.names,
            revisions: row.revisions,
            numbers: row.numbers,
            keeper: row.keeper,
            accounts,
            room,
            exchange: shared.exchange,
            stop: shared.stop,
            end: shared.end,
        }),
        Err(refusal) => Err(refusal),
    }
}

// The state that the threads of a server share besides its pads.
#[derive(Drop)]
struct SharedParts {
    names: Names,
    exchange: Exchange,
    stop: Stop,
    end: Bell,
}

// The state that the threads of a server with these pads and this number of peers share besides the pads.
fn shared_parts<R: AllocGlobal + Wait>(
    rt: &R,
    cells: &[SharedPad<BlockSeq>],
    peers: usize,
) -> Result<SharedParts, Refusal> {
    let alloc = rt.alloc();
    Ok(SharedParts {
        names: Names::fill(rt, alloc, cells)?,
        exchange: Exchange::new(alloc, peers, cells.len())?,
        stop: Stop::new(alloc, peers)?,
        end: Bell::new(alloc, 0)?,
    })
}
