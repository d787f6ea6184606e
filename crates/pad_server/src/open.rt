//! The server of one session.
ghost use Rattle.std.specs.Prelude.{◌≤◌};
ghost use Rattle.server_core.specs.declared.limits.TheConstants.{MAX_CELLS};

use crate::args::ServerArguments;
use crate::failure::ServerFailure;
use accounts_file::{AccountsFileError, read_accounts};
use block_seq::BlockSeq;
use conversation::{Alone, Pads};
use pad_core::Request;
use pad_model::{Name, Refusal};
use server_core::Server;
use sessions::{Accounts, Word};
use std::alloc::Global;
use std::rt::Files;
use std::time::Clock;

/// The author of a server without accounts, and its token.
const SOLO: &str = "solo";

/// Opens the server that the command line asks for. Its actor is the author `solo` if there is no accounts file, and
/// otherwise unauthenticated.
pub fn open<'a, R>(rt: &R, asked: ServerArguments<'a>) -> Result<Alone<BlockSeq>, ServerFailure<'a>>
where
    R: AllocGlobal + Files + Clock + Eprint,
    requires { (1 ≤ asked.replica) × (asked.cells ≤ MAX_CELLS) }
{
    let alloc = rt.alloc();
    let accounts = match asked.accounts {
        Some(path) => read_accounts(rt, path)?.0,
        None => solo_accounts(alloc)?,
    };
    let mut pads = open_server(alloc, asked.replica, asked.present, asked.cells, accounts)?;
    if asked.accounts.is_none() {
        greet(alloc, &mut pads)?;
    }
    Ok(pads)
}

/// The accounts of a server without an accounts file.
fn solo_accounts(alloc: Global) -> Result<Accounts, AccountsFileError<'static>> {
    Accounts::read(alloc, b"author solo solo\n").map_err(|error| AccountsFileError::of(SOLO, error))
}

/// Opens a server with one unauthenticated actor.
fn open_server(
    alloc: Global,
    replica: u16,
    present: u64,
    cells: u32,
    accounts: Accounts,
) -> Result<Alone<BlockSeq>, Refusal>
    requires { (1 ≤ replica) × (cells ≤ MAX_CELLS) }
{
    let mut server = Server::new(alloc, replica, present, cells, accounts)?;
    let actor = server.open(alloc)?;
    Ok(Alone::new(server, actor))
}

fn hello(alloc: Global) -> Result<Request, Refusal> {
    Ok(Request::Hello {
        name: Name::from_str(alloc, SOLO)?,
        token: Word::from_str(alloc, SOLO)?,
    })
}

/// Logs in the author `solo`.
fn greet(alloc: Global, pads: &mut Alone<BlockSeq>) -> Result<(), Refusal> {
    let hello = hello(alloc)?;
    let _welcome = pads.call(alloc, &hello)?;
    Ok(())
}
