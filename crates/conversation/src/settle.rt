//! An actor's step, and the moves that follow it until nothing is under way.
ghost use Rattle.std.specs.Prelude.{◌≡◌};
ghost use Rattle.server_core.specs.Served.{IsFormed, Served};
ghost use Rattle.server_core.specs.declared.step.Step.TheVariants.{Ask, Look};
ghost use Rattle.conversation.specs.Calls.{IsAtRest, IsUnderWay, IsCall, IsAnswer, IsNamed, Made, Finishes};

use pad_core::Request;
use pad_model::Sequence;
use server_core::{Moved, Server, Step};
use std::alloc::Global;

/// Makes a request of an actor, then moves the actor until the request is answered.
pub fn ask<S: Sequence>(
    alloc: Global,
    server: &mut Server<S>,
    actor: u32,
    request: &Request,
) -> Moved
    requires { IsAtRest server.old actor }
    ensures made { Made server.old actor (Ask request.now) result server.new }
    ensures answer { IsAnswer result }
    ensures rest { IsAtRest server.new actor }
{
    match server.ask(alloc, actor, request) {
        Moved::Scanning => finish(alloc, server, actor),
        told => told,
    }
}

/// Makes a step, then moves the actor until it has nothing under way.
pub fn make<S: Sequence>(alloc: Global, server: &mut Server<S>, actor: u32, step: &Step) -> Moved
    requires rest { IsAtRest server.old actor }
    requires call { IsCall step.now }
    ensures made { Made server.old actor step.now result server.new }
    ensures answer { IsAnswer result }
    ensures rest { IsAtRest server.new actor }
{
    match server.step(alloc, actor, step) {
        Moved::Scanning => finish(alloc, server, actor),
        told => told,
    }
}

/// Moves the actor until it has nothing under way.
fn finish<S: Sequence>(alloc: Global, server: &mut Server<S>, actor: u32) -> Moved
    requires { IsUnderWay server.old actor }
    ensures finishes { Finishes actor server.old result server.new }
    ensures rest { IsAtRest server.new actor }
{
    loop {
        match server.step(alloc, actor, &Step::Move) {
            Moved::Scanning => {}
            told => return told,
        }
    }
}

/// Looks up the name of a cell.
pub fn look<S: Sequence>(alloc: Global, server: &mut Server<S>, actor: u32, cell: u32) -> Moved
    requires { IsAtRest server.old actor }
    ensures looks { Served server.old actor (Look cell) result server.new }
    ensures named { IsNamed result }
    ensures formed { IsFormed result }
    ensures rest { IsAtRest server.new actor }
{
    server.step(alloc, actor, &Step::Look(cell))
}
