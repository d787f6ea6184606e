//! Plays several sessions against one server in one thread: a tool for people and tests.
//!
//! Its input is a story: lines of sessions that each begin with the session's name and a tab. Its output has the reply
//! to each request after the same name, and repeats titles, notes and empty lines.
#![tactic(auto)]

ghost use Rattle.std.specs.Prelude.{◌≤◌};
ghost use Rattle.server_core.specs.declared.limits.TheConstants.{MAX_CELLS};

mod args;
mod fault;
mod line;
mod play;
mod story_server;

use args::{ReplayArguments, parse};
use block_seq::{BlockSeq, PlainSeq};
use command_line::report;
use fault::StoryFault;
use pad_model::Sequence;
use play::play;
use std::fs;
use std::io::{BufReader, BufWriter};
use std::process::ExitCode;
use story_server::StoryServer;

fn main(rt: HostRuntime) -> anyhow::Result<ExitCode> {
    let alloc = rt.alloc();
    let words: Vec<String> = std::env::args(&rt)?.collect(alloc)?;
    let asked = match parse(alloc, words.as_slice()) {
        Ok(asked) => asked,
        Err(error) => return Ok(report(&rt, "pad_replay", &error)),
    };
    let accounts = match fs::read(&rt, asked.accounts) {
        Ok(accounts) => accounts,
        Err(cause) => {
            let path = asked.accounts;
            let _told = eprintln!(rt;
                "pad_replay: the accounts file {path} cannot be read: {cause}"
            );
            return Ok(ExitCode::FAILURE);
        }
    };
    let played = if asked.plain {
        play_all::<PlainSeq>(&rt, asked, accounts)
    } else {
        play_all::<BlockSeq>(&rt, asked, accounts)
    };
    match played {
        Ok(()) => Ok(ExitCode::SUCCESS),
        Err(fault) => {
            // If standard error is closed, the status still reports it.
            let _told = eprintln!(rt; "pad_replay: {fault}");
            Ok(fault.status())
        }
    }
}

/// Plays the story on standard input, with pads that keep their characters in a sequence of this kind.
fn play_all<S: Sequence>(
    rt: &HostRuntime,
    asked: ReplayArguments<'_>,
    accounts: Vec<u8>,
) -> Result<(), StoryFault>
    requires { (1 ≤ asked.replica) × (asked.cells ≤ MAX_CELLS) }
{
    let alloc = rt.alloc();
    let mut server: StoryServer<S> = StoryServer::new(
        alloc,
        asked.replica,
        asked.present,
        asked.cells,
        accounts,
    )?;
    let mut input = BufReader::new(alloc, rt.reader())?;
    let mut output = BufWriter::new(alloc, std::io::writer(rt))?;
    play(alloc, &mut server, &mut input, &mut output)
}
