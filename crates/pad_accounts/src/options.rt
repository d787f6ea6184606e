//! The options of the command line.
ghost use Rattle.std.specs.Prelude.{◌≡◌, IfOk, false, map, option_map, unwrap_or, [], codes};
ghost use Rattle.clap.specs.Words.{found_of, matched_of, raw_values, rule_of};
ghost use Rattle.command_line.specs.Options.{flag_rule, option_rule};
ghost use Rattle.pad_accounts.specs.CommandLine.{names_rule, needed_word};

use clap::{Arg, ArgAction, ArgMatches};
use std::alloc::{AllocError, Global};

/// A positional argument that is required.
pub fn word<'a>(alloc: Global, name: &'a str, shown: &'a str, help: &'a str) -> Arg<'a>
    ensures { (rule_of result ≡ needed_word name.now) × (result.global ≡ false) }
{
    Arg::new(alloc, name)
        .value_name(shown)
        .required(true)
        .help(help)
}

/// The names, as the last positional argument.
pub fn names_word<'a>(alloc: Global, help: &'a str) -> Arg<'a>
    ensures { (rule_of result ≡ names_rule) × (result.global ≡ false) }
{
    Arg::new(alloc, "name")
        .value_name("NAME")
        .action(ArgAction::Append)
        .help(help)
}

/// An option that takes a value.
pub fn option<'a>(alloc: Global, name: &'a str, shown: &'a str, help: &'a str) -> Arg<'a>
    ensures { (rule_of result ≡ option_rule name.now) × (result.global ≡ false) }
{
    Arg::new(alloc, name)
        .long(name)
        .value_name(shown)
        .help(help)
}

/// An option that takes no value.
pub fn flag<'a>(alloc: Global, name: &'a str, help: &'a str) -> Arg<'a>
    ensures { (rule_of result ≡ flag_rule name.now) × (result.global ≡ false) }
{
    Arg::new(alloc, name)
        .long(name)
        .action(ArgAction::SetTrue)
        .help(help)
}

/// The values of the names.
pub fn names_of<'a>(alloc: Global, matches: &ArgMatches<'a>) -> Result<Vec<&'a str>, AllocError>
    ensures { IfOk result (λ names. map (λ name. name.now) names.items
        ≡ unwrap_or (option_map raw_values (matched_of (found_of matches.now) (codes "name"))) []) }
{
    let mut names = Vec::new(alloc);
    if let Some(values) = matches.get_strs("name") {
        names.extend_from_slice(values)?;
    }
    Ok(names)
}
