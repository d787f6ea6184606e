//! The options that only this program has.
ghost use Rattle.std.specs.Prelude.{◌≡◌, ◌≤◌, ℕ, codes, false, unwrap_or};
ghost use Rattle.clap.specs.Words.{rule_of};
ghost use Rattle.command_line.specs.Options.{Holds};
ghost use Rattle.pad_server.specs.CommandLine.{any_user_rule, clients_per_address_rule, clients_rule, confirm_rule, connections_rule, guests_rule, idle_rule, listen_rule, log_access_rule, new_replica_rule, standby_of_rule, standby_rule, status_rule, stdin_rule, store_rule, trusted_proxies_rule, unproved_rule, user_header_rule, web_origins_rule, web_rule, workers_rule};

use clap::{Arg, ArgAction, ArgMatches, value_parser};
use std::alloc::Global;
use tcp_server::MAX_WORKERS;

/// The most clients that may be connected at once, without `--clients`.
pub const DEFAULT_CLIENTS: u32 = 10_000;

/// `--stdin`.
pub fn stdin_flag<'a>(alloc: Global) -> Arg<'a>
    ensures { (rule_of result ≡ stdin_rule) × (result.global ≡ false) }
{
    Arg::new(alloc, "stdin")
        .long("stdin")
        .action(ArgAction::SetTrue)
        .help("Serves standard input and output")
}

/// `--listen ADDR`.
pub fn listen_option<'a>(alloc: Global) -> Arg<'a>
    ensures { (rule_of result ≡ listen_rule) × (result.global ≡ false) }
{
    Arg::new(alloc, "listen")
        .long("listen")
        .value_name("ADDR")
        .help(
            "Serves connections over TCP at HOST:PORT, such as 127.0.0.1:7878; port 0 is any free port",
        )
}

/// `--workers N`.
pub fn workers_option<'a>(alloc: Global) -> Arg<'a>
    ensures { (rule_of result ≡ workers_rule) × (result.global ≡ false) }
{
    Arg::new(alloc, "workers")
        .long("workers")
        .value_name("N")
        .value_parser(value_parser!(u32).range(1..=i64::from(MAX_WORKERS)))
        .help("How many threads serve connections, 1 to 63 [default: one for each processor]")
}

/// `--connections N`.
pub fn connections_option<'a>(alloc: Global) -> Arg<'a>
    ensures { (rule_of result ≡ connections_rule) × (result.global ≡ false) }
{
    Arg::new(alloc, "connections")
        .long("connections")
        .value_name("N")
        .value_parser(value_parser!(u32).range(1..))
        .help("Ends the server after its Nth connection [default: never]")
}

/// `--clients N`.
pub fn clients_option<'a>(alloc: Global) -> Arg<'a>
    ensures { (rule_of result ≡ clients_rule) × (result.global ≡ false) }
{
    Arg::new(alloc, "clients")
        .long("clients")
        .value_name("N")
        .value_parser(value_parser!(u32).range(1..))
        .help("How many clients may be connected at once [default: 10000]")
}

/// `--clients-per-address N`.
pub fn clients_per_address_option<'a>(alloc: Global) -> Arg<'a>
    ensures { (rule_of result ≡ clients_per_address_rule) × (result.global ≡ false) }
{
    Arg::new(alloc, "clients-per-address")
        .long("clients-per-address")
        .value_name("N")
        .value_parser(value_parser!(u32).range(1..))
        .help("How many connections one address may have at once [default: no limit]")
}

/// `--idle SECONDS`.
pub fn idle_option<'a>(alloc: Global) -> Arg<'a>
    ensures { (rule_of result ≡ idle_rule) × (result.global ≡ false) }
{
    Arg::new(alloc, "idle")
        .long("idle")
        .value_name("SECONDS")
        .value_parser(value_parser!(u32).range(1..))
        .help("Closes a connection that is silent for SECONDS [default: never]")
}

/// `--store DIR`.
pub fn store_option<'a>(alloc: Global) -> Arg<'a>
    ensures { (rule_of result ≡ store_rule) × (result.global ≡ false) }
{
    Arg::new(alloc, "store")
        .long("store")
        .value_name("DIR")
        .help("Keeps the pads in this directory [default: they are lost when the server ends]")
}

/// `--new-replica`.
pub fn new_replica_flag<'a>(alloc: Global) -> Arg<'a>
    ensures { (rule_of result ≡ new_replica_rule) × (result.global ≡ false) }
{
    Arg::new(alloc, "new-replica")
        .long("new-replica")
        .action(ArgAction::SetTrue)
        .help("Continues a store under a replica number that no server has used")
}

/// `--standby N`.
pub fn standby_option<'a>(alloc: Global) -> Arg<'a>
    ensures { (rule_of result ≡ standby_rule) × (result.global ≡ false) }
{
    Arg::new(alloc, "standby")
        .long("standby")
        .value_name("N")
        .value_parser(value_parser!(u16).range(1..))
        .help("Sends the store to peer N of the accounts file, which runs with --standby-of")
}

/// `--standby-of N`.
pub fn standby_of_option<'a>(alloc: Global) -> Arg<'a>
    ensures { (rule_of result ≡ standby_of_rule) × (result.global ≡ false) }
{
    Arg::new(alloc, "standby-of")
        .long("standby-of")
        .value_name("N")
        .value_parser(value_parser!(u16).range(1..))
        .help("Keeps a copy of the store of peer N, and serves nobody else until it is promoted")
}

/// `--confirm WHEN`.
pub fn confirm_option<'a>(alloc: Global) -> Arg<'a>
    ensures { (rule_of result ≡ confirm_rule) × (result.global ≡ false) }
{
    Arg::new(alloc, "confirm")
        .long("confirm")
        .value_name("WHEN")
        .help(
            "How long replies wait until the standby has what they reveal: SECONDS, after which the server goes on alone, or strict [default: they do not wait]",
        )
}

/// `--unproved`.
pub fn unproved_flag<'a>(alloc: Global) -> Arg<'a>
    ensures { (rule_of result ≡ unproved_rule) × (result.global ≡ false) }
{
    Arg::new(alloc, "unproved")
        .long("unproved")
        .action(ArgAction::SetTrue)
        .help("Lets the page say that this program was built without proofs")
}

/// `--web ADDR`.
pub fn web_option<'a>(alloc: Global) -> Arg<'a>
    ensures { (rule_of result ≡ web_rule) × (result.global ≡ false) }
{
    Arg::new(alloc, "web").long("web").value_name("ADDR").help(
        "Serves the page for browsers at HOST:PORT, such as 127.0.0.1:8080; port 0 is any free port",
    )
}

/// `--web-origin ORIGINS`.
pub fn web_origins_option<'a>(alloc: Global) -> Arg<'a>
    ensures { (rule_of result ≡ web_origins_rule) × (result.global ≡ false) }
{
    Arg::new(alloc, "web-origin")
        .long("web-origin")
        .value_name("ORIGINS")
        .help(
            "Also accepts pages from these origins, separated by commas, such as https://pads.example",
        )
}

/// `--user-header NAME`.
pub fn user_header_option<'a>(alloc: Global) -> Arg<'a>
    ensures { (rule_of result ≡ user_header_rule) × (result.global ≡ false) }
{
    Arg::new(alloc, "user-header")
        .long("user-header")
        .value_name("NAME")
        .help(
            "Logs in whom a proxy names in this header of its requests, by the person lines of the accounts file",
        )
}

/// `--trusted-proxy ADDRS`.
pub fn trusted_proxies_option<'a>(alloc: Global) -> Arg<'a>
    ensures { (rule_of result ≡ trusted_proxies_rule) × (result.global ≡ false) }
{
    Arg::new(alloc, "trusted-proxy")
        .long("trusted-proxy")
        .value_name("ADDRS")
        .help(
            "Takes that header from these addresses alone, up to 16, separated by commas [default: 127.0.0.1]",
        )
}

/// `--any-user`.
pub fn any_user_flag<'a>(alloc: Global) -> Arg<'a>
    ensures { (rule_of result ≡ any_user_rule) × (result.global ≡ false) }
{
    Arg::new(alloc, "any-user")
        .long("any-user")
        .action(ArgAction::SetTrue)
        .help(
            "Makes whoever the proxy names an author, also without a line in the accounts file, under a name that is made from the user's",
        )
}

/// `--guests`.
pub fn guests_flag<'a>(alloc: Global) -> Arg<'a>
    ensures { (rule_of result ≡ guests_rule) × (result.global ≡ false) }
{
    Arg::new(alloc, "guests")
        .long("guests")
        .action(ArgAction::SetTrue)
        .help(
            "Lets those who have a pad's link work on it as guests, without a line in the accounts file",
        )
}

/// `--log-access`.
pub fn log_access_flag<'a>(alloc: Global) -> Arg<'a>
    ensures { (rule_of result ≡ log_access_rule) × (result.global ≡ false) }
{
    Arg::new(alloc, "log-access")
        .long("log-access")
        .action(ArgAction::SetTrue)
        .help("Logs who has logged in, and from where")
}

/// `--status ADDR`.
pub fn status_option<'a>(alloc: Global) -> Arg<'a>
    ensures { (rule_of result ≡ status_rule) × (result.global ≡ false) }
{
    Arg::new(alloc, "status")
        .long("status")
        .value_name("ADDR")
        .help(
            "Answers /healthz, /kept and /metrics at HOST:PORT, such as 127.0.0.1:9100; port 0 is any free port",
        )
}

/// The number of `--workers`, if there is one.
pub fn workers_of(matches: &ArgMatches<'_>) -> Option<u32>
    ensures { (other : ℕ) → Holds (codes "workers") 0 4294967295 other matches.now (unwrap_or result other) }
{
    matches.get_one::<u32>("workers")
}

/// The number of `--standby`, if there is one.
pub fn standby_number_of(matches: &ArgMatches<'_>) -> Option<u16>
    ensures { (other : ℕ) → Holds (codes "standby") 0 65535 other matches.now (unwrap_or result other) }
{
    matches.get_one::<u16>("standby")
}

/// The number of `--standby-of`, if there is one.
pub fn main_number_of(matches: &ArgMatches<'_>) -> Option<u16>
    ensures { (other : ℕ) → Holds (codes "standby-of") 0 65535 other matches.now (unwrap_or result other) }
{
    matches.get_one::<u16>("standby-of")
}

/// The number of `--clients`, or 10,000 without one.
pub fn clients_of(matches: &ArgMatches<'_>) -> u32
    ensures { Holds (codes "clients") 0 4294967295 DEFAULT_CLIENTS matches.now result }
{
    match matches.get_one::<u32>("clients") {
        Some(clients) => clients,
        None => DEFAULT_CLIENTS,
    }
}

/// The number of `--clients-per-address`, if there is one.
pub fn clients_per_address_of(matches: &ArgMatches<'_>) -> Option<u32>
    ensures { (other : ℕ) → Holds (codes "clients-per-address") 0 4294967295 other matches.now (unwrap_or result other) }
{
    matches.get_one::<u32>("clients-per-address")
}

/// The number of `--connections`, if there is one.
pub fn connections_of(matches: &ArgMatches<'_>) -> Option<u32>
    ensures { (other : ℕ) → Holds (codes "connections") 0 4294967295 other matches.now (unwrap_or result other) }
{
    matches.get_one::<u32>("connections")
}

/// The number of `--idle`, if there is one.
pub fn idle_of(matches: &ArgMatches<'_>) -> Option<u32>
    ensures { (other : ℕ) → Holds (codes "idle") 0 4294967295 other matches.now (unwrap_or result other) }
{
    matches.get_one::<u32>("idle")
}
