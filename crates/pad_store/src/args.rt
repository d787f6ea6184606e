//! The command line.
ghost use Rattle.std.specs.Prelude.{◌≡◌, IfOk, codes, map, string_bytes};
ghost use Rattle.clap.specs.Faults.{fault_of};
ghost use Rattle.clap.specs.Words.{FailsBy, app_of, new_app};
ghost use Rattle.command_line.specs.Options.{versioned};
ghost use Rattle.pad_store.specs.CommandLine.{AsksFor, line, line_with_arguments, line_with_revisions, line_with_values};

use crate::options::{flag, other_word, revision_of, revision_option, text_option, word};
use clap::{Command, Error};
use command_line::VERSION;
use std::alloc::{AllocError, Global};

/// The arguments that the words of the command line give.
#[derive(Clone, Copy)]
pub struct StoreArguments<'a> {
    /// The command.
    pub command: Option<&'a str>,
    /// The file or the folder.
    pub path: Option<&'a str>,
    /// The newer store of `beyond`, or the word for the older revision of `diff`.
    pub other: Option<&'a str>,
    /// The word for the newer revision of `diff`.
    pub last: Option<&'a str>,
    /// The number of the older revision of `diff`, if its word is a number.
    pub first: Option<u32>,
    /// The number of the newer revision of `diff`, if its word is a number.
    pub second: Option<u32>,
    /// The revision to show, or the last one to export.
    pub rev: Option<u32>,
    /// The first revision of `log`.
    pub from: Option<u32>,
    /// The moment whose revision is shown, or is the last one to export.
    pub at: Option<&'a str>,
    /// The author whose operations are listed.
    pub by: Option<&'a str>,
    /// The moment of the first operation that is listed.
    pub since: Option<&'a str>,
    /// The moment of the last operation that is listed.
    pub until: Option<&'a str>,
    /// The sum to look for.
    pub sum: Option<&'a str>,
    pub authors: bool,
    pub comments: bool,
    pub markdown: bool,
}

const USAGE: &str = "pad_store check <DIR|FILE>
       pad_store show <FILE> [--rev <N>|--at <MOMENT>] [--authors] [--comments] [--markdown]
       pad_store log <FILE> [--from <N>] [--by <AUTHOR>] [--since <MOMENT>] [--until <MOMENT>]
       pad_store diff <FILE> <REV|MOMENT> <REV|MOMENT>
       pad_store export <FILE> [--rev <N>|--at <MOMENT>] [--sum <SUM>]
       pad_store beyond <OLD> <NEW>";

const MOMENTS: &str = "A moment is a date from 1970 on, and a time of day if there is one:
  2026-12-09                 its midnight in UTC
  '2026-12-09 20:00'         in UTC, also with seconds as 20:00:30 or 20:00:30.5
  2026-12-09T20:00:00+01:00  where clocks are an hour ahead of UTC; Z in place of the offset is UTC
It leads to the last revision that was made not later. Digits alone are the number of a revision.";

// The program's name and its help.
fn start<'a>(alloc: Global) -> Command<'a>
    ensures { app_of result ≡ versioned (new_app (codes "pad_store")) }
{
    Command::new(alloc, "pad_store")
        .about("Reads the files in which a pad server keeps pads, and changes nothing")
        .version(VERSION)
        .override_usage(USAGE)
        .after_help(MOMENTS)
}

// Adds the positional arguments: the command, the path, and two revisions or another path.
fn with_positional_arguments<'a>(alloc: Global) -> Result<Command<'a>, AllocError>
    ensures { IfOk result (λ command. app_of command ≡ line_with_arguments) }
{
    let command_help = "check, show, log, diff, export or beyond";
    let path_help = "A file NAME.pad, or with check and beyond a folder of such files";
    let other_help =
        "With diff: the older revision, or its moment; with beyond: the newer store or file";
    let last_help = "With diff: the newer revision, or its moment";
    start(alloc)
        .arg(word(alloc, "command", "COMMAND", command_help))?
        .arg(word(alloc, "path", "PATH", path_help))?
        .arg(other_word(alloc, "first", "OTHER", other_help))?
        .arg(other_word(alloc, "second", "REV", last_help))
}

// Adds the options that name a revision.
fn with_revision_options<'a>(alloc: Global) -> Result<Command<'a>, AllocError>
    ensures { IfOk result (λ command. app_of command ≡ line_with_revisions) }
{
    let rev_help =
        "The revision that is shown, or the last one that is exported [default: the present one]";
    let at_help = "The moment whose revision is shown, or is the last one that is exported";
    with_positional_arguments(alloc)?
        .arg(revision_option(alloc, "rev", rev_help))?
        .arg(text_option(alloc, "at", "MOMENT", at_help))?
        .arg(revision_option(alloc, "from", "The first revision of the log [default: 1]"))
}

// Adds the options that choose operations of the log, and the sum.
fn with_value_options<'a>(alloc: Global) -> Result<Command<'a>, AllocError>
    ensures { IfOk result (λ command. app_of command ≡ line_with_values) }
{
    let by_help = "With log: only the operations of this author";
    let since_help = "With log: only operations that were made not before this moment";
    let until_help = "With log: only operations that were made not later than this moment";
    let sum_help = "With export: prints nothing but says whether a line of the file has this sum";
    with_revision_options(alloc)?
        .arg(text_option(alloc, "by", "AUTHOR", by_help))?
        .arg(text_option(alloc, "since", "MOMENT", since_help))?
        .arg(text_option(alloc, "until", "MOMENT", until_help))?
        .arg(text_option(alloc, "sum", "SUM", sum_help))
}

fn command<'a>(alloc: Global) -> Result<Command<'a>, AllocError>
    ensures { IfOk result (λ command. app_of command ≡ line) }
{
    with_value_options(alloc)?
        .arg(flag(alloc, "authors", "Shows who wrote what"))?
        .arg(flag(alloc, "comments", "Shows the comments"))?
        .arg(flag(alloc, "markdown", "Shows the revision as Markdown"))
}

/// Parses the words of the command line: returns their arguments, or the error in them.
pub fn parse<'a>(alloc: Global, words: &'a [String]) -> Result<StoreArguments<'a>, Error>
    ensures asked { IfOk result (AsksFor (map string_bytes words.now)) }
    ensures refused { FailsBy (fault_of line (map string_bytes words.now)) result }
{
    let matches = match command(alloc)?.try_get_matches_from(words) {
        Ok(matches) => matches,
        Err(error) => return Err(error),
    };
    Ok(StoreArguments {
        command: matches.get_str("command"),
        path: matches.get_str("path"),
        other: matches.get_str("first"),
        last: matches.get_str("second"),
        first: revision_of(&matches, "first"),
        second: revision_of(&matches, "second"),
        rev: revision_of(&matches, "rev"),
        from: revision_of(&matches, "from"),
        at: matches.get_str("at"),
        by: matches.get_str("by"),
        since: matches.get_str("since"),
        until: matches.get_str("until"),
        sum: matches.get_str("sum"),
        authors: matches.get_flag("authors"),
        comments: matches.get_flag("comments"),
        markdown: matches.get_flag("markdown"),
    })
}
