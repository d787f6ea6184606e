//! The options of the command line.
ghost use Rattle.std.specs.Prelude.{◌≡◌, ℕ, false, unwrap_or};
ghost use Rattle.clap.specs.Words.{rule_of};
ghost use Rattle.command_line.specs.Options.{Holds, flag_rule, option_rule};
ghost use Rattle.pad_store.specs.CommandLine.{needed_word};
ghost use Rattle.pad_store.specs.CommandLine as command_line;

use clap::{Arg, ArgAction, ArgMatches, value_parser};
use std::alloc::Global;

/// A positional argument that is required.
pub fn word<'a>(alloc: Global, name: &'a str, shown: &'a str, help: &'a str) -> Arg<'a>
    ensures { (rule_of result ≡ needed_word name.now) × (result.global ≡ false) }
{
    Arg::new(alloc, name)
        .value_name(shown)
        .required(true)
        .help(help)
}

/// A revision, a moment or a path as a positional argument.
pub fn other_word<'a>(alloc: Global, name: &'a str, shown: &'a str, help: &'a str) -> Arg<'a>
    ensures { (rule_of result ≡ command_line.other_word name.now) × (result.global ≡ false) }
{
    Arg::new(alloc, name).value_name(shown).help(help)
}

/// An option that takes a revision.
pub fn revision_option<'a>(alloc: Global, name: &'a str, help: &'a str) -> Arg<'a>
    ensures { (rule_of result ≡ command_line.revision_option name.now) × (result.global ≡ false) }
{
    Arg::new(alloc, name)
        .long(name)
        .value_name("N")
        .value_parser(value_parser!(u32).range(0..))
        .help(help)
}

/// An option that takes a text.
pub fn text_option<'a>(alloc: Global, name: &'a str, shown: &'a str, help: &'a str) -> Arg<'a>
    ensures { (rule_of result ≡ option_rule name.now) × (result.global ≡ false) }
{
    Arg::new(alloc, name)
        .long(name)
        .value_name(shown)
        .help(help)
}

/// An option that takes no value.
pub fn flag<'a>(alloc: Global, name: &'a str, help: &'a str) -> Arg<'a>
    ensures { (rule_of result ≡ flag_rule name.now) × (result.global ≡ false) }
{
    Arg::new(alloc, name)
        .long(name)
        .action(ArgAction::SetTrue)
        .help(help)
}

/// The revision under a name, if there is one.
pub fn revision_of(matches: &ArgMatches<'_>, name: &str) -> Option<u32>
    ensures { (other : ℕ) → Holds name.now 0 4294967295 other matches.now (unwrap_or result other) }
{
    matches.get_one::<u32>(name)
}
