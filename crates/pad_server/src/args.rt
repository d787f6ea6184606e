//! The command line.
ghost use Rattle.std.specs.Prelude.{◌≡◌, ◌≤◌, IfOk, map, string_bytes, false};
ghost use Rattle.clap.specs.Faults.{fault_of};
ghost use Rattle.clap.specs.Words.{FailsBy, app_of};
ghost use Rattle.server_core.specs.declared.limits.TheConstants.{MAX_CELLS};
ghost use Rattle.pad_server.specs.CommandLine.{AsksFor, line_with_service, line, line_with_page, line_with_sizes, line_with_clients_and_store, line_with_standby, line_with_watching};

use crate::options::{
    any_user_flag, clients_of, clients_option, clients_per_address_of, clients_per_address_option,
    confirm_option, connections_of, connections_option, guests_flag, idle_of, idle_option,
    listen_option, log_access_flag, main_number_of, new_replica_flag, standby_number_of,
    standby_of_option, standby_option, status_option, stdin_flag, store_option,
    trusted_proxies_option, unproved_flag, user_header_option, web_option, web_origins_option,
    workers_of, workers_option,
};
use clap::{Command, Error};
use command_line::{
    VERSION, accounts_option, cells_of, cells_option, present_of, present_option, replica_of,
    replica_option,
};
use std::alloc::{AllocError, Global};

/// The arguments that the words of the command line give.
#[derive(Clone, Copy)]
pub struct ServerArguments<'a> {
    /// The replica number of this server, at least 1.
    pub replica: u16,
    /// The number of pads that the server has room for, 1 to 131,072.
    pub cells: u32,
    /// The limit of visits that may be present on a pad at once, 1 to 1,024.
    pub present: u64,
    /// The path of the accounts file.
    pub accounts: Option<&'a str>,
    /// True if standard input and output are served.
    pub stdin: bool,
    /// The address at which to serve connections.
    pub listen: Option<&'a str>,
    /// The number of threads that serve connections, 1 to 63. None: one for each processor.
    pub workers: Option<u32>,
    /// The number of connections after which the server ends. None: no limit.
    pub connections: Option<u32>,
    /// The most clients that may be connected at once, at least 1.
    pub clients: u32,
    /// The most connections that one address may have at once. None: no limit.
    pub clients_per_address: Option<u32>,
    /// The seconds of silence after which a connection is closed. None: never.
    pub idle: Option<u32>,
    /// The directory in which pads are stored. None: they are lost when the server ends.
    pub store: Option<&'a str>,
    /// True if no server has used the replica number before. Then the store may be that of another number.
    pub new_replica: bool,
    /// The number of the peer that has a copy of the store. None: no peer has one.
    pub standby: Option<u16>,
    /// The number of the peer of whose store this server keeps a copy until it is promoted. None: it serves pads.
    pub standby_of: Option<u16>,
    /// The condition that replies wait for: a number of seconds, or `strict`. None: they do not wait for the standby.
    pub confirm: Option<&'a str>,
    /// True if the page says that this program was built without proofs.
    pub unproved: bool,
    /// True if each log-in is logged.
    pub log_access: bool,
    /// The address at which to serve the page for browsers.
    pub web: Option<&'a str>,
    /// The origins whose pages may connect besides the server's own, separated by commas.
    pub web_origins: Option<&'a str>,
    /// The field by which a proxy names the user of a request. None: no proxy does.
    pub user_header: Option<&'a str>,
    /// The addresses of the proxies from which that field is taken, separated by commas. None: 127.0.0.1 alone.
    pub trusted_proxies: Option<&'a str>,
    /// True if any user whom a proxy names is an author, even one who has no line in the accounts file.
    pub any_user: bool,
    /// True if guests may log in, who have no line in the accounts file.
    pub guests: bool,
    /// The address at which operators ask for the status.
    pub status: Option<&'a str>,
}

const USAGE: &str =
    "pad_server --stdin --replica <N> [--accounts <PATH>] [--cells <N>] [--present <N>]
       pad_server --listen <ADDR> --replica <N> --accounts <PATH> [OPTIONS]";

const ACCOUNTS_HELP: &str =
    "The file of authors and peers that may log in; --listen needs it [with --stdin, default: the author solo]";

// Declares the options `--stdin`, `--listen`, `--replica` and `--accounts`.
fn with_service_options<'a>(alloc: Global) -> Result<Command<'a>, AllocError>
    ensures { IfOk result (λ command. app_of command ≡ line_with_service) }
{
    let replica_help = "The replica number of this server, 1 to 65535, different on each server";
    Command::new(alloc, "pad_server")
        .about("Serves shared pads")
        .version(VERSION)
        .override_usage(USAGE)
        .arg(stdin_flag(alloc))?
        .arg(listen_option(alloc))?
        .arg(replica_option(alloc, replica_help))?
        .arg(accounts_option(alloc, ACCOUNTS_HELP))
}

// Adds the options `--cells`, `--present`, `--workers` and `--connections`.
fn with_size_options<'a>(alloc: Global) -> Result<Command<'a>, AllocError>
    ensures { IfOk result (λ command. app_of command ≡ line_with_sizes) }
{
    let cells_help = "How many pads the server has room for, 1 to 131,072 [default: 64]";
    let present_help = "How many visits may be present on a pad at once, 1 to 1,024 [default: 64]";
    with_service_options(alloc)?
        .arg(cells_option(alloc, cells_help))?
        .arg(present_option(alloc, present_help))?
        .arg(workers_option(alloc))?
        .arg(connections_option(alloc))
}

// Adds the options `--clients`, `--idle`, `--store` and `--new-replica`.
fn with_client_and_store_options<'a>(alloc: Global) -> Result<Command<'a>, AllocError>
    ensures { IfOk result (λ command. app_of command ≡ line_with_clients_and_store) }
{
    with_size_options(alloc)?
        .arg(clients_option(alloc))?
        .arg(idle_option(alloc))?
        .arg(store_option(alloc))?
        .arg(new_replica_flag(alloc))
}

// Adds the options `--web`, `--web-origin`, `--clients-per-address` and `--unproved`.
fn with_page_options<'a>(alloc: Global) -> Result<Command<'a>, AllocError>
    ensures { IfOk result (λ command. app_of command ≡ line_with_page) }
{
    with_client_and_store_options(alloc)?
        .arg(web_option(alloc))?
        .arg(web_origins_option(alloc))?
        .arg(clients_per_address_option(alloc))?
        .arg(unproved_flag(alloc))
}

// Adds the options `--standby`, `--standby-of` and `--confirm`.
fn with_standby_options<'a>(alloc: Global) -> Result<Command<'a>, AllocError>
    ensures { IfOk result (λ command. app_of command ≡ line_with_standby) }
{
    with_page_options(alloc)?
        .arg(standby_option(alloc))?
        .arg(standby_of_option(alloc))?
        .arg(confirm_option(alloc))
}

// Adds the options `--status` and `--log-access`.
fn with_watching_options<'a>(alloc: Global) -> Result<Command<'a>, AllocError>
    ensures { IfOk result (λ command. app_of command ≡ line_with_watching) }
{
    with_standby_options(alloc)?
        .arg(status_option(alloc))?
        .arg(log_access_flag(alloc))
}

// Adds the options `--user-header`, `--trusted-proxy`, `--any-user` and `--guests`.
fn command<'a>(alloc: Global) -> Result<Command<'a>, AllocError>
    ensures { IfOk result (λ command. app_of command ≡ line) }
{
    with_watching_options(alloc)?
        .arg(user_header_option(alloc))?
        .arg(trusted_proxies_option(alloc))?
        .arg(any_user_flag(alloc))?
        .arg(guests_flag(alloc))
}

/// Parses the words of the command line: returns their arguments, or the error in them.
pub fn parse<'a>(alloc: Global, words: &'a [String]) -> Result<ServerArguments<'a>, Error>
    ensures asked { IfOk result (AsksFor (map string_bytes words.now)) }
    ensures refused { FailsBy (fault_of line (map string_bytes words.now)) result }
    ensures limits { IfOk result (λ asked. (1 ≤ asked.replica) × (asked.cells ≤ MAX_CELLS)) }
{
    let matches = match command(alloc)?.try_get_matches_from(words) {
        Ok(matches) => matches,
        Err(error) => return Err(error),
    };
    Ok(ServerArguments {
        replica: replica_of(&matches),
        cells: cells_of(&matches),
        present: present_of(&matches),
        accounts: matches.get_str("accounts"),
        stdin: matches.get_flag("stdin"),
        listen: matches.get_str("listen"),
        workers: workers_of(&matches),
        connections: connections_of(&matches),
        clients: clients_of(&matches),
        clients_per_address: clients_per_address_of(&matches),
        idle: idle_of(&matches),
        store: matches.get_str("store"),
        new_replica: matches.get_flag("new-replica"),
        standby: standby_number_of(&matches),
        standby_of: main_number_of(&matches),
        confirm: matches.get_str("confirm"),
        log_access: matches.get_flag("log-access"),
        unproved: matches.get_flag("unproved"),
        web: matches.get_str("web"),
        web_origins: matches.get_str("web-origin"),
        user_header: matches.get_str("user-header"),
        trusted_proxies: matches.get_str("trusted-proxy"),
        any_user: matches.get_flag("any-user"),
        guests: matches.get_flag("guests"),
        status: matches.get_str("status"),
    })
}
