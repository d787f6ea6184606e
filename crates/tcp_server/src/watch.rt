//! The accounts file of a server that runs. It is read again when it has changed.
ghost use Rattle.std.specs.Prelude.{◌≡◌, Ok, IfOk};
ghost use Rattle.std.specs.Arc.{arc_value};
ghost use Rattle.sessions.specs.Accounts.{Accounts, accounts_of};

use accounts_file::{reason_of, warn_of_ports, warn_of_tokens};
use event_loop::Hub;
use log::{info, warn};
use peering::Bell;
use server_log::ServerLog;
use sessions::{Accounts, AccountsError};
use std::alloc::Global;
use std::sync::{Arc, Wait};
use std::time::Clock;
use std::{fs, io};

/// The seconds between two checks of the file.
const LOOK: u64 = 5;

/// An accounts file, and its contents when it was last checked.
#[derive(Drop)]
pub struct Watch<'a> {
    /// Reads the file.
    files: HostRuntime,
    path: &'a str,
    bytes: Vec<u8>,
    /// True if any user of a proxy is an author.
    any_user: bool,
    /// True if guests may log in.
    guests: bool,
    /// True if it could not be read at the last check.
    is_unread: bool,
}

impl<'a> Watch<'a> {
    /// The state of a file that was read and had these bytes.
    pub fn new(
        files: HostRuntime,
        path: &'a str,
        bytes: Vec<u8>,
        any_user: bool,
        guests: bool,
    ) -> Watch<'a> {
        Watch {
            files,
            path,
            bytes,
            any_user,
            guests,
            is_unread: false,
        }
    }

    // Checks the file. If it has changed and is valid, the workers get its accounts.
    fn look<R>(&mut self, rt: &R, hub: &Hub)
    where
        R: AllocGlobal + Clock + Wait + Eprint,
    {
        let path = self.path;
        let bytes = match fs::read(&self.files, path) {
            Ok(bytes) => bytes,
            Err(cause) => return self.note_unread(rt, cause),
        };
        self.is_unread = false;
        if bytes.as_slice() == self.bytes.as_slice() {
            return;
        }
        match accounts_in(rt.alloc(), bytes.as_slice(), self.any_user, self.guests) {
            Ok(accounts) => {
                warn_of_ports(rt, path, &accounts);
                warn_of_tokens(rt, path, bytes.as_slice());
                hub.replace_accounts(rt, &accounts);
                info!(ServerLog(rt); "the accounts file {path} has changed and was read again");
            }
            Err(AccountsError::BadLine { line, mistake }) => {
                let reason = reason_of(mistake);
                warn!(ServerLog(rt); "the accounts file {path} has changed, and the accounts stay as they were: line {line}: {reason}");
            }
            // It is tried again.
            Err(AccountsError::Memory) => return,
        }
        self.bytes = bytes;
    }

    // Logs that the file cannot be read, once until it can.
    fn note_unread<R: Clock + Eprint>(&mut self, rt: &R, cause: io::Error) {
        if !self.is_unread {
            let path = self.path;
            warn!(ServerLog(rt); "the accounts file {path} cannot be read, and the accounts stay as they are: {cause}");
        }
        self.is_unread = true;
    }
}

/// Checks an accounts file every five seconds, until the bell rings. An invalid file changes nothing, and is logged
/// once.
pub fn watch_accounts<R>(rt: &R, hub: &Hub, mut watch: Watch<'_>, end: &Bell)
where
    R: AllocGlobal + Clock + Wait + Eprint,
{
    for _ in rt.forever() {
        end.wait(rt, LOOK);
        if end.is_last() {
            return;
        }
        watch.look(rt, hub);
    }
}

// The accounts in a file's bytes, for all workers to share.
fn accounts_in(
    alloc: Global,
    bytes: &[u8],
    any_user: bool,
    guests: bool,
) -> Result<Arc<Accounts, Global>, AccountsError>
    ensures { IfOk result (λ shared. (read : Accounts) × (accounts_of bytes.now ≡ Ok read)
        × (arc_value shared ≡ record read { any_user = any_user; guests = guests })) }
{
    let read = Accounts::read(alloc, bytes)?;
    let accounts = read.with_any_user(any_user).with_guests(guests);
    match Arc::new(alloc, accounts) {
        Ok(shared) => Ok(shared),
        Err(_) => Err(AccountsError::Memory),
    }
}
