//! The options that more than one program has.
ghost use Rattle.std.specs.Prelude.{◌≡◌, Some, false};
ghost use Rattle.clap.specs.Words.{rule_of};
ghost use Rattle.command_line.specs.Options.{accounts_rule, cells_rule, present_rule, replica_rule};

use clap::{Arg, value_parser};
use presence::MAX_PRESENT;
use server_core::MAX_CELLS;
use std::alloc::Global;

/// `--replica N`, which is required.
pub fn replica_option<'a>(alloc: Global, help: &'a str) -> Arg<'a>
    ensures rule { rule_of result ≡ replica_rule }
    ensures rest { (result.global ≡ false) × (result.help ≡ Some help.entry) }
{
    Arg::new(alloc, "replica")
        .long("replica")
        .value_name("N")
        .required(true)
        .value_parser(value_parser!(u16).range(1..))
        .help(help)
}

/// `--cells N`.
pub fn cells_option<'a>(alloc: Global, help: &'a str) -> Arg<'a>
    ensures rule { rule_of result ≡ cells_rule }
    ensures rest { (result.global ≡ false) × (result.help ≡ Some help.entry) }
{
    Arg::new(alloc, "cells")
        .long("cells")
        .value_name("N")
        .value_parser(value_parser!(u32).range(1..=i64::from(MAX_CELLS)))
        .help(help)
}

/// `--present N`.
pub fn present_option<'a>(alloc: Global, help: &'a str) -> Arg<'a>
    ensures rule { rule_of result ≡ present_rule }
    ensures rest { (result.global ≡ false) × (result.help ≡ Some help.entry) }
{
    Arg::new(alloc, "present")
        .long("present")
        .value_name("N")
        .value_parser(value_parser!(u32).range(1..=MAX_PRESENT as i64))
        .help(help)
}

/// `--accounts PATH`.
pub fn accounts_option<'a>(alloc: Global, help: &'a str) -> Arg<'a>
    ensures rule { rule_of result ≡ accounts_rule }
    ensures rest { (result.global ≡ false) × (result.help ≡ Some help.entry) }
{
    Arg::new(alloc, "accounts")
        .long("accounts")
        .value_name("PATH")
        .help(help)
}
