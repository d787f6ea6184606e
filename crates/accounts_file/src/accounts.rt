//! Reads the accounts file.
ghost use Rattle.std.specs.Prelude.{◌≡◌, IfOk, Ok};
ghost use Rattle.sessions.specs.Accounts.{accounts_of};

use crate::accounts_error::AccountsFileError;
use log::warn;
use server_log::ServerLog;
use sessions::Accounts;
use std::fs;
use std::rt::Files;
use std::time::Clock;

/// Reads the accounts of a file. It returns the file's bytes too, so that the caller can see later whether the file has
/// changed. Warns of each peer whose port is not a number.
pub fn read_accounts<'a, R: AllocGlobal + Files + Clock + Eprint>(
    rt: &R,
    path: &'a str,
) -> Result<(Accounts, Vec<u8>), AccountsFileError<'a>>
    ensures { IfOk result (λ read. accounts_of read.1.items ≡ Ok read.0) }
{
    let bytes = match fs::read(rt, path) {
        Ok(bytes) => bytes,
        Err(cause) => return Err(AccountsFileError::Unread { path, cause }),
    };
    let accounts = match Accounts::read(rt.alloc(), bytes.as_slice()) {
        Ok(accounts) => accounts,
        Err(error) => return Err(AccountsFileError::of(path, error)),
    };
    warn_of_ports(rt, path, &accounts);
    Ok((accounts, bytes))
}

/// Warns of each peer whose port is not a number: no round with it can succeed.
pub fn warn_of_ports<R: Clock + Eprint>(rt: &R, path: &str, accounts: &Accounts) {
    for peer in accounts.peers() {
        let (number, address) = (peer.number, peer.address.as_str());
        if !has_port(address) {
            warn!(ServerLog(rt); "the accounts file {path}: peer {number}: the port of {address} is not a number from 0 to 65535");
        }
    }
}

/// Returns true if a port number, 0 to 65535, comes after the last colon of an address.
pub fn has_port(address: &str) -> bool {
    match address.rsplit_once(':') {
        Some((_host, port)) => port.parse::<u16>().is_ok(),
        None => false,
    }
}
