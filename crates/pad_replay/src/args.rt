//! The command line.
ghost use Rattle.std.specs.Prelude.{◌≡◌, ◌≤◌, IfOk, map, string_bytes, codes, false};
ghost use Rattle.clap.specs.Faults.{fault_of};
ghost use Rattle.clap.specs.Words.{FailsBy, app_of, rule_of};
ghost use Rattle.command_line.specs.Options.{flag_rule};
ghost use Rattle.server_core.specs.declared.limits.TheConstants.{MAX_CELLS};
ghost use Rattle.pad_replay.specs.CommandLine.{AsksFor, line, mandatory};

use clap::{Arg, ArgAction, Command, Error};
use command_line::{
    VERSION, accounts_option, cells_of, cells_option, present_of, present_option, replica_of,
    replica_option,
};
use std::alloc::{AllocError, Global};

/// The arguments of the command line.
#[derive(Clone, Copy)]
pub struct ReplayArguments<'a> {
    /// The replica number of a server whose title does not name one, at least 1.
    pub replica: u16,
    /// The number of pads that a server has room for, 1 to 131,072.
    pub cells: u32,
    /// The number of visits that may be present on a pad at once, 1 to 1,024.
    pub present: u64,
    /// The path of the accounts file.
    pub accounts: &'a str,
    /// True if pads keep their characters in the plain sequence, which is slow, instead of blocks. The replies are the
    /// same.
    pub plain: bool,
}

// Makes an option required.
fn mandatory<'a>(option: Arg<'a>) -> Arg<'a>
    ensures rule { rule_of result ≡ mandatory (rule_of option.entry) }
    ensures local { result.global ≡ option.entry.global }
{
    option.required(true)
}

// `--plain`.
fn plain_flag<'a>(alloc: Global) -> Arg<'a>
    ensures { (rule_of result ≡ flag_rule (codes "plain")) × (result.global ≡ false) }
{
    Arg::new(alloc, "plain")
        .long("plain")
        .action(ArgAction::SetTrue)
        .help("Keeps characters in the plain sequence, to compare the replies with")
}

fn command<'a>(alloc: Global) -> Result<Command<'a>, AllocError>
    ensures { IfOk result (λ command. app_of command ≡ line) }
{
    let replica_help = "The replica number of a server whose title names none, 1 to 65535";
    let cells_help = "How many pads a server has room for, 1 to 131,072 [default: 64]";
    let present_help = "How many visits may be present on a pad at once, 1 to 1,024 [default: 64]";
    Command::new(alloc, "pad_replay")
        .about("Plays sessions against a pad server, from lines NAME<TAB>REQUEST")
        .version(VERSION)
        .arg(replica_option(alloc, replica_help))?
        .arg(mandatory(cells_option(alloc, cells_help)))?
        .arg(present_option(alloc, present_help))?
        .arg(mandatory(accounts_option(alloc, "The accounts file")))?
        .arg(plain_flag(alloc))
}

/// Parses the words of the command line: returns their arguments, or the error in them.
pub fn parse<'a>(alloc: Global, words: &'a [String]) -> Result<ReplayArguments<'a>, Error>
    ensures asked { IfOk result (AsksFor (map string_bytes words.now)) }
    ensures refused { FailsBy (fault_of line (map string_bytes words.now)) result }
    ensures limits { IfOk result (λ asked. (1 ≤ asked.replica) × (asked.cells ≤ MAX_CELLS)) }
{
    let matches = match command(alloc)?.try_get_matches_from(words) {
        Ok(matches) => matches,
        Err(error) => return Err(error),
    };
    Ok(ReplayArguments {
        replica: replica_of(&matches),
        cells: cells_of(&matches),
        present: present_of(&matches),
        accounts: matches.get_str("accounts").unwrap_or(""),
        plain: matches.get_flag("plain"),
    })
}
