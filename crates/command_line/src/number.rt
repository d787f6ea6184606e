//! The numbers that the options give.
ghost use Rattle.std.specs.Prelude.{◌≡◌, ◌≤◌, codes};
ghost use Rattle.server_core.specs.declared.limits.TheConstants.{DEFAULT_CELLS, MAX_CELLS};
ghost use Rattle.presence.specs.declared.presence.TheConstants.{DEFAULT_PRESENT, MAX_PRESENT};
ghost use Rattle.command_line.specs.Options.{Holds, named_or};

use clap::ArgMatches;
use presence::{DEFAULT_PRESENT, MAX_PRESENT};
use server_core::{DEFAULT_CELLS, MAX_CELLS};

/// `named`, or `other` if it is None or 0.
pub fn replica_or(named: Option<u16>, other: u16) -> u16
    ensures value { result ≡ named_or named other }
    ensures least { 1 ≤ other → 1 ≤ result }
{
    match named {
        Some(replica) if replica >= 1 => replica,
        _ => other,
    }
}

/// The number of `--replica`, or 1 without one.
pub fn replica_of(matches: &ArgMatches<'_>) -> u16
    ensures value { Holds (codes "replica") 1 65535 1 matches.now result }
    ensures least { 1 ≤ result }
{
    replica_or(matches.get_one::<u16>("replica"), 1)
}

/// The number of `--cells`, or `DEFAULT_CELLS` without one.
pub fn cells_of(matches: &ArgMatches<'_>) -> u32
    ensures value { Holds (codes "cells") 0 MAX_CELLS DEFAULT_CELLS matches.now result }
    ensures most { result ≤ MAX_CELLS }
{
    match matches.get_one::<u32>("cells") {
        Some(cells) if cells <= MAX_CELLS => cells,
        _ => DEFAULT_CELLS,
    }
}

/// The number of `--present`, or `DEFAULT_PRESENT` without one.
pub fn present_of(matches: &ArgMatches<'_>) -> u64
    ensures value { Holds (codes "present") 0 MAX_PRESENT DEFAULT_PRESENT matches.now result }
    ensures most { result ≤ MAX_PRESENT }
{
    match matches.get_one::<u32>("present") {
        Some(present) if u64::from(present) <= MAX_PRESENT => u64::from(present),
        _ => DEFAULT_PRESENT,
    }
}
