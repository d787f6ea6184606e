//! A server with its sessions.
ghost use Rattle.std.specs.Prelude.{◌≤◌};
ghost use Rattle.server_core.specs.declared.limits.TheConstants.{MAX_CELLS};

use crate::fault::StoryFault;
use command_line::replica_or;
use pad_core::Reply;
use pad_model::{Refusal, Sequence};
use server_core::{Moved, Server, Step};
use sessions::Accounts;
use std::alloc::Global;
use wire_json::{read_request, reply_line};

/// A server whose pads keep their characters in a sequence of this kind, and the names of its sessions in order of
/// first use: the index of a name is its actor's number.
#[derive(Drop)]
pub struct StoryServer<S: Sequence> {
    /// The replica number of a server whose title does not name one.
    replica: u16,
    /// The number of visits that may be present on a pad at once.
    present: u64,
    cells: u32,
    accounts: Vec<u8>,
    server: Server<S>,
    names: Vec<Vec<u8>>,
    ghost numbered: { 1 ≤ replica },
    ghost in_row: { cells ≤ MAX_CELLS },
}

fn make_server<S: Sequence>(
    alloc: Global,
    replica: u16,
    present: u64,
    cells: u32,
    accounts: &[u8],
) -> Result<Server<S>, StoryFault>
    requires numbered { 1 ≤ replica }
    requires row { cells ≤ MAX_CELLS }
{
    let accounts = Accounts::read(alloc, accounts)?;
    Ok(Server::new(alloc, replica, present, cells, accounts)?)
}

fn step_of(alloc: Global, line: &[u8]) -> Result<Step, Refusal> {
    Ok(Step::Ask(read_request(alloc, line)?))
}

impl<S: Sequence> StoryServer<S> {
    /// Creates a first server. Each later one has as many cells and the same accounts.
    pub fn new(
        alloc: Global,
        replica: u16,
        present: u64,
        cells: u32,
        accounts: Vec<u8>,
    ) -> Result<StoryServer<S>, StoryFault>
        requires numbered { 1 ≤ replica }
        requires row { cells ≤ MAX_CELLS }
    {
        let server = make_server(alloc, replica, present, cells, accounts.as_slice())?;
        Ok(StoryServer {
            replica,
            present,
            cells,
            accounts,
            server,
            names: Vec::new(alloc),
        })
    }

    /// Begins again with a new server with this replica number.
    pub fn renew(&mut self, alloc: Global, replica: Option<u16>) -> Result<(), StoryFault> {
        let replica = replica_or(replica, self.replica);
        self.server = make_server(
            alloc,
            replica,
            self.present,
            self.cells,
            self.accounts.as_slice(),
        )?;
        self.names = Vec::new(alloc);
        Ok(())
    }

    /// Makes a request, and returns its reply line, including the LF.
    pub fn ask(&mut self, alloc: Global, name: &[u8], line: &[u8]) -> Result<String, StoryFault> {
        let reply = self.reply_to(alloc, name, line)?;
        Ok(reply_line(alloc, &reply)?)
    }

    /// The reply to a request, or its refusal.
    fn reply_to(
        &mut self,
        alloc: Global,
        name: &[u8],
        line: &[u8],
    ) -> Result<Result<Reply, Refusal>, StoryFault> {
        match step_of(alloc, line) {
            Ok(step) => self.answer(alloc, name, &step),
            Err(refusal) => Ok(Err(refusal)),
        }
    }

    /// Ends a session, which is unauthenticated from then on.
    pub fn end(&mut self, alloc: Global, name: &[u8]) -> Result<(), StoryFault> {
        let _ended = self.answer(alloc, name, &Step::End)?;
        Ok(())
    }

    fn answer(
        &mut self,
        alloc: Global,
        name: &[u8],
        step: &Step,
    ) -> Result<Result<Reply, Refusal>, StoryFault> {
        let actor = self.actor(alloc, name)?;
        self.finish(alloc, actor, step)
    }

    /// The actor of a session, which is opened at its first use.
    fn actor(&mut self, alloc: Global, name: &[u8]) -> Result<u32, StoryFault> {
        for (known, number) in self.names.iter().zip(0..) {
            if known.as_slice() == name {
                return Ok(number);
            }
        }
        self.names.push(Vec::from_slice(alloc, name)?)?;
        Ok(self.server.open(alloc)?)
    }

    /// Makes a step, and continues the work that it began until that is done.
    fn finish(
        &mut self,
        alloc: Global,
        actor: u32,
        step: &Step,
    ) -> Result<Result<Reply, Refusal>, StoryFault> {
        let mut moved = self.server.step(alloc, actor, step);
        for _ in 0..u64::MAX {
            match moved {
                Moved::Scanning => moved = self.server.step(alloc, actor, &Step::Move),
                Moved::Done(reply) => return Ok(Ok(reply)),
                Moved::Refused(refusal) => return Ok(Err(refusal)),
                Moved::Idle | Moved::Named(_) => return Err(StoryFault::NoAnswer),
            }
        }
        Err(StoryFault::NoAnswer)
    }
}
