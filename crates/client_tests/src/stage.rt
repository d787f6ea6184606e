//! The pads of a test, and a client that is served as long as there is something to do.
use crate::memory_socket::{MemorySocket, Unstored};
use block_seq::BlockSeq;
use conversation::{LineOutcome, Names, PadTable, Shared, open_row, take_seats};
use event_loop::{Authors, Party, Transfer};
use pad_model::Refusal;
use presence::DEFAULT_PRESENT;
use sessions::{Accounts, Session};
use shared_pads::{Open, Seat, SharedPad};
use std::alloc::{AllocError, Global};
use std::sync::Wait;
use std::test::Fail;
use web_wire::{Machines, Next, NextMessage, Page, Site, UserHeader, kept_page};

const PAGES: &[Page] = &[Page {
    path: "/",
    kind: "text/html; charset=utf-8",
    cache: "no-cache",
    tag: "\"one\"",
    text: "<!doctype html><title>Pads</title>\n",
}];

/// More turns than any test takes.
const TURNS: u32 = 100_000;

/// The pads of a test.
#[derive(Drop)]
pub struct PartyPads {
    accounts: Accounts,
    cells: Vec<SharedPad<BlockSeq>>,
    names: Names,
}

impl PartyPads {
    /// One pad, which is to be created, and the authors a1 and a2.
    pub fn new<R: Wait>(rt: &R, alloc: Global) -> Result<PartyPads, Refusal> {
        let cells = open_row(alloc, 1, DEFAULT_PRESENT, 2, 2)?;
        let names = Names::fill(rt, alloc, cells.as_slice())?;
        let Ok(accounts) = Accounts::read(
            alloc,
            b"author a1 t\nauthor a2 t\nperson a1 one@a.example One\n",
        ) else {
            return Err(Refusal::Memory);
        };
        Ok(PartyPads {
            accounts,
            cells,
            names,
        })
    }

    /// The same, where any user of a proxy is an author.
    pub fn with_any_user<R: Wait>(rt: &R, alloc: Global) -> Result<PartyPads, Refusal> {
        let PartyPads {
            accounts,
            cells,
            names,
        } = PartyPads::new(rt, alloc)?;
        Ok(PartyPads {
            accounts: accounts.with_any_user(true),
            cells,
            names,
        })
    }

    /// The authors.
    pub fn authors(&self) -> Authors<'_> {
        Authors {
            accounts: &self.accounts,
            replica: 1,
        }
    }

    /// The pads as one table.
    pub fn table<'a, R: Wait>(&'a self, rt: &'a R) -> PadTable<'a, BlockSeq, R, Open> {
        PadTable {
            rt,
            cells: self.cells.as_slice(),
            names: &self.names,
            replica: 1,
            accounts: &self.accounts,
            gate: &Open,
        }
    }
}

/// The pads as one thread uses them, with seats of its own.
pub fn seated<'a, R: Wait>(
    alloc: Global,
    table: &'a PadTable<'a, BlockSeq, R, Open>,
) -> Result<Shared<'a, BlockSeq, R, Open>, Refusal> {
    let mut seats: Vec<Seat> = Vec::new(alloc);
    take_seats(table.rt, table.cells, &mut seats)?;
    Ok(Shared::new(table, seats, Session::new(alloc)))
}

/// A handshake with the key of RFC 6455's example.
pub fn browser_bytes(alloc: Global) -> Result<Vec<u8>, AllocError> {
    request_bytes(alloc, "/socket", "")
}

/// A request for a target with the fields of that handshake, and with more fields.
pub fn request_bytes(alloc: Global, target: &str, fields: &str) -> Result<Vec<u8>, AllocError> {
    let mut bytes = Vec::new(alloc);
    bytes.extend_from_slice(b"GET ")?;
    bytes.extend_from_slice(target.as_bytes())?;
    bytes.extend_from_slice(
        b" HTTP/1.1\r\nHost: pads.example\r\nUpgrade: websocket\r\nConnection: Upgrade\r\nSec-WebSocket-Key: dGhlIHNhbXBsZSBub25jZQ==\r\nSec-WebSocket-Version: 13\r\n",
    )?;
    bytes.extend_from_slice(fields.as_bytes())?;
    bytes.extend_from_slice(b"\r\n")?;
    Ok(bytes)
}

/// Appends a short frame as a browser sends it, with a mask.
pub fn put_frame(first: u8, payload: &[u8], bytes: &mut Vec<u8>) -> Result<(), AllocError> {
    let key = [0x37u8, 0xFA, 0x21, 0x3D];
    bytes.push(first)?;
    bytes.push(payload.len() as u8 | 0x80)?;
    bytes.extend_from_slice(&key)?;
    let mut at = 0usize;
    for byte in payload {
        bytes.push(*byte ^ key[at % 4])?;
        at = at.wrapping_add(1);
    }
    Ok(())
}

/// Serves a client that speaks lines until all that it sent is answered and written. It is read `piece` bytes at a time.
pub fn serve_lines<R: Wait>(
    alloc: Global,
    party: &mut Party<MemorySocket<'_>>,
    pads: &mut Shared<'_, BlockSeq, R, Open>,
    piece: usize,
) -> Result<(), Fail> {
    let mut chunk = chunk(alloc, piece)?;
    for _turn in 0..TURNS {
        let answered = party.answer(alloc, pads, 1)?;
        write(party)?;
        if answered != LineOutcome::Waits {
            continue;
        }
        if has_ended(party, chunk.as_mut_slice()) {
            let _told = party.answer_last(alloc, pads, 1)?;
            return write(party);
        }
    }
    Ok(())
}

/// The number of the address of a proxy, which names the user of a request in the field `X-User`.
pub const PROXY: u128 = 1;

/// Serves a browser at this address until all that it sent is answered and written. It is read `piece` bytes at a time.
pub fn serve_browser<R: Wait>(
    alloc: Global,
    party: &mut Party<MemorySocket<'_>>,
    pads: &mut Shared<'_, BlockSeq, R, Open>,
    authors: Authors<'_>,
    from: u128,
    piece: usize,
) -> Result<(), Fail> {
    let mut chunk = chunk(alloc, piece)?;
    let mut line = Vec::new(alloc);
    let site = Site {
        pages: PAGES,
        origins: &[],
        users: Some(UserHeader {
            name: "X-User",
            proxies: &[PROXY],
        }),
    };
    let kept = kept_page(Machines::Zero);
    for _turn in 0..TURNS {
        if party.answer_request(alloc, site, &kept, true, from, authors)? == Next::Socket {
            party.open(alloc);
        }
        let heard = party.hear(&mut line)?;
        let _answered = party.answer(alloc, pads, 1)?;
        write(party)?;
        if heard == NextMessage::Read && has_ended(party, chunk.as_mut_slice()) {
            return Ok(());
        }
    }
    Ok(())
}

// A buffer of this many bytes.
fn chunk(alloc: Global, piece: usize) -> Result<Vec<u8>, AllocError> {
    let mut chunk = Vec::new(alloc);
    chunk.resize(piece, 0u8)?;
    Ok(chunk)
}

// Reads once, and returns whether no more bytes come.
fn has_ended(party: &mut Party<MemorySocket<'_>>, chunk: &mut [u8]) -> bool {
    match party.read(chunk) {
        Ok(read) => read == Transfer::Over,
        Err(_) => true,
    }
}

/// Writes everything that is owed.
pub fn write(party: &mut Party<MemorySocket<'_>>) -> Result<(), Fail> {
    for _turn in 0..TURNS {
        let _said = party.say(0)?;
        match party.write::<Unstored>(0, &Unstored) {
            Ok(Transfer::Passed) => {}
            _ => return Ok(()),
        }
    }
    Ok(())
}
