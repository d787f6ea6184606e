//! The command line.
ghost use Rattle.std.specs.Prelude.{◌≡◌, IfOk, codes, map, string_bytes};
ghost use Rattle.clap.specs.Faults.{fault_of};
ghost use Rattle.clap.specs.Words.{FailsBy, app_of, new_app};
ghost use Rattle.command_line.specs.Options.{versioned};
ghost use Rattle.pad_accounts.specs.CommandLine.{AsksFor, line, line_with_arguments};

use crate::options::{flag, names_of, names_word, option, word};
use clap::{Command, Error};
use command_line::VERSION;
use std::alloc::{AllocError, Global};

/// The arguments that the words of the command line give.
#[derive(Drop)]
pub struct AccountsArguments<'a> {
    /// The path of the accounts file.
    pub file: Option<&'a str>,
    /// The command.
    pub command: Option<&'a str>,
    /// The names of authors.
    pub names: Vec<&'a str>,
    /// The path of a list of names.
    pub from: Option<&'a str>,
    /// The origin of the page.
    pub at: Option<&'a str>,
    /// The pad that a link opens.
    pub pad: Option<&'a str>,
    /// True if the hash of a token is stored in its place.
    pub hash: bool,
}

const USAGE: &str = "pad_accounts <FILE> add <NAME>.. [--hash] [--at <URL>] [--pad <PAD>]
       pad_accounts <FILE> add --from <LIST> [--hash] [--at <URL>] [--pad <PAD>]
       pad_accounts <FILE> remove <NAME>
       pad_accounts <FILE> list
       pad_accounts <FILE> link <NAME> [--at <URL>] [--pad <PAD>]
       pad_accounts <FILE> person <NAME> <ID> <DISPLAY NAME>..";

// The program's name and its help.
fn start<'a>(alloc: Global) -> Command<'a>
    ensures { app_of result ≡ versioned (new_app (codes "pad_accounts")) }
{
    Command::new(alloc, "pad_accounts")
        .about(
            "Adds authors to the accounts file of a pad server, removes them, prints their log-in links, and says who they are",
        )
        .version(VERSION)
        .override_usage(USAGE)
}

// Adds the positional arguments: the file, the command, and the names.
fn with_positional_arguments<'a>(alloc: Global) -> Result<Command<'a>, AllocError>
    ensures { IfOk result (λ command. app_of command ≡ line_with_arguments) }
{
    let file_help = "The accounts file; add makes it if it is not there";
    let command_help = "add, remove, list, link or person";
    start(alloc)
        .arg(word(alloc, "file", "FILE", file_help))?
        .arg(word(alloc, "command", "COMMAND", command_help))?
        .arg(names_word(
            alloc,
            "With add, remove and link: the names of authors; with person: a name, an ID or -, and a display name",
        ))
}

fn command<'a>(alloc: Global) -> Result<Command<'a>, AllocError>
    ensures { IfOk result (λ command. app_of command ≡ line) }
{
    let from_help = "With add: a text file with a name on each line; - is standard input";
    let at_help = "With add and link: where the page is [default: http://127.0.0.1:8080]";
    let pad_help = "With add and link: the pad that the link opens";
    let hash_help =
        "With add: the file gets the hash of each token, and only the link has the token";
    with_positional_arguments(alloc)?
        .arg(option(alloc, "from", "LIST", from_help))?
        .arg(option(alloc, "at", "URL", at_help))?
        .arg(option(alloc, "pad", "PAD", pad_help))?
        .arg(flag(alloc, "hash", hash_help))
}

/// Parses the words of the command line: returns their arguments, or the error in them.
pub fn parse<'a>(alloc: Global, words: &'a [String]) -> Result<AccountsArguments<'a>, Error>
    ensures asked { IfOk result (AsksFor (map string_bytes words.now)) }
    ensures refused { FailsBy (fault_of line (map string_bytes words.now)) result }
{
    let matches = match command(alloc)?.try_get_matches_from(words) {
        Ok(matches) => matches,
        Err(error) => return Err(error),
    };
    let names = names_of(alloc, &matches)?;
    Ok(AccountsArguments {
        file: matches.get_str("file"),
        command: matches.get_str("command"),
        names,
        from: matches.get_str("from"),
        at: matches.get_str("at"),
        pad: matches.get_str("pad"),
        hash: matches.get_flag("hash"),
    })
}
