//! A server owned by a single thread, and one of its actors.
ghost use Rattle.std.specs.Prelude.{◌≡◌, length, IsTrue, IfOk, IfSome};
ghost use Rattle.pad_model.specs.Checked.{is_name};
ghost use Rattle.server_core.specs.Steps.{told};
ghost use Rattle.conversation.specs.Calls.{IsAtRest, IsAnswer, IsNamed, Asks, Relays, Ends, Looks, named};

use crate::pads::Pads;
use crate::settle::{ask, look, make};
use pad_core::{Reply, Request};
use pad_model::{Name, Refusal, Sequence};
use server_core::{Moved, Server, Step};
use std::alloc::Global;
use std::marker::Model;

/// A server and one of its actors. Between two calls the actor has nothing under way.
#[derive(Drop)]
pub struct Alone<S: Sequence> {
    server: Server<S>,
    actor: u32,
}

impl<S: Sequence> Model for Alone<S> {
    ghost use Rattle.conversation.specs.Calls.{Alone, IsAtRest};

    ghost Value = { Alone };

    ghost view = { λ a. record { server = a.server; actor = a.actor } };

    ghost invariant = { λ a. IsAtRest a.server a.actor };
}

impl<S: Sequence> Alone<S> {
    /// Takes a server and the number of an opened actor that has nothing under way.
    pub fn new(server: Server<S>, actor: u32) -> Alone<S>
        requires { IsAtRest server actor }
        ensures { result ≡ record { server = server; actor = actor } }
    {
        Alone { server, actor }
    }
}

// Returns the answer that a step ended with.
fn answer_of(moved: Moved) -> Result<Reply, Refusal>
    requires { IsAnswer moved }
    ensures { told result ≡ moved }
{
    match moved {
        Moved::Done(reply) => Ok(reply),
        Moved::Refused(refusal) => Err(refusal),
        Moved::Scanning | Moved::Idle | Moved::Named(_) => unreachable!(),
    }
}

// Returns the name that a look ended with.
fn name_in(moved: Moved) -> Result<Option<Name>, Refusal>
    requires { IsNamed moved }
    ensures { named result ≡ moved }
{
    match moved {
        Moved::Named(name) => Ok(name),
        Moved::Refused(refusal) => Err(refusal),
        Moved::Scanning | Moved::Idle | Moved::Done(_) => unreachable!(),
    }
}

impl<S: Sequence> Pads for Alone<S> {
    ghost calls = { λ old request answer new. Asks old request answer new };

    ghost relays = { λ old number answer new. Relays old number answer new };

    ghost ends = { λ old new. Ends old new };

    ghost names = { λ old cell answer new. Looks old cell answer new
        × IfOk answer (λ name. IfSome name (λ text. IsTrue (is_name text))) };

    ghost width = { λ a. length a.server.cells };

    fn call(&mut self, alloc: Global, request: &Request) -> Result<Reply, Refusal> {
        answer_of(ask(alloc, &mut self.server, self.actor, request))
    }

    fn relay(&mut self, alloc: Global, number: u16) -> Result<Reply, Refusal> {
        answer_of(make(alloc, &mut self.server, self.actor, &Step::Relay(number)))
    }

    fn end(&mut self, alloc: Global) {
        let _ended = make(alloc, &mut self.server, self.actor, &Step::End);
    }

    fn name_of(&mut self, alloc: Global, cell: u32) -> Result<Option<Name>, Refusal> {
        name_in(look(alloc, &mut self.server, self.actor, cell))
    }

    fn cells(&self) -> u32 {
        self.server.cells()
    }
}
