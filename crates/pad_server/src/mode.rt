//! The source of the requests that the server serves.
ghost use Rattle.std.specs.Prelude.{◌≡◌};
ghost use Rattle.pad_server.specs.Modes.{mode_of, names_itself, serving};

use crate::args::ServerArguments;
use thiserror::Error;

/// The source of the requests.
#[derive(Clone, Copy)]
pub enum ServerMode<'a> {
    /// Standard input.
    Stdin,
    /// Connections over TCP.
    Listen {
        /// The address, such as `127.0.0.1:7878`.
        address: &'a str,
        /// The path of the accounts file.
        accounts: &'a str,
    },
    /// The main server, whose store is copied until the standby is promoted. Then it serves pads like any server.
    Standby {
        /// The address at which the main server connects, and clients after the promotion, such as `10.0.0.2:7878`.
        address: &'a str,
        /// The path of the accounts file.
        accounts: &'a str,
        /// The directory in which the copies are kept.
        store: &'a str,
        /// The number of the main server.
        main: u16,
    },
}

/// An error in a command line that clap accepts.
#[derive(Clone, Copy, Debug, Error)]
pub enum Misuse {
    #[error("either --stdin or --listen <ADDR> is needed, and not both")]
    NotOne,
    #[error("--listen <ADDR> needs --accounts <PATH>")]
    NoAccounts,
    #[error("--store <DIR> needs --listen <ADDR>")]
    NoStore,
    #[error("--idle <SECONDS> needs --listen <ADDR>")]
    NoIdle,
    #[error("--new-replica needs --listen <ADDR>")]
    NoNewReplica,
    #[error("--web <ADDR> needs --listen <ADDR>")]
    NoWeb,
    #[error("--web-origin <ORIGINS> needs --web <ADDR>")]
    NoWebOrigins,
    #[error("--user-header <NAME> needs --web <ADDR>")]
    NoUserHeader,
    #[error("--trusted-proxy <ADDRS> needs --user-header <NAME>")]
    NoTrustedProxies,
    #[error("--any-user needs --user-header <NAME>")]
    NoAnyUser,
    #[error("--guests needs --listen <ADDR>")]
    NoGuests,
    #[error("--clients-per-address <N> needs --listen <ADDR>")]
    NoClientsPerAddress,
    #[error("--standby <N> and --standby-of <N> need --listen <ADDR>")]
    NoStandby,
    #[error("--standby <N> and --standby-of <N> need --store <DIR>")]
    NoCopies,
    #[error("--confirm <WHEN> needs --standby <N>")]
    NoConfirm,
    #[error("--standby <N> and --standby-of <N> name another server than --replica <N>")]
    OwnStandby,
    #[error("--standby-of <N> goes with neither --standby nor --new-replica: a standby serves no pads before it is promoted")]
    ServingStandby,
    #[error("--status <ADDR> needs --listen <ADDR>")]
    NoStatus,
}

impl<'a> ServerArguments<'a> {
    /// Returns the source of the requests. Exactly one of `--stdin` and `--listen` has to be given: the first without
    /// `--store`, `--idle`, `--new-replica`, `--web`, `--guests`, `--clients-per-address`, a standby and `--status`, the
    /// second with `--accounts`. `--web-origin` and `--user-header` are for `--web`, `--trusted-proxy` and `--any-user` for
    /// `--user-header`, and `--confirm` for `--standby`.
    pub fn mode(self) -> Result<ServerMode<'a>, Misuse>
        ensures { result ≡ mode_of self.entry }
    {
        match (self.stdin, self.listen) {
            (true, None) if self.store.is_some() => Err(Misuse::NoStore),
            (true, None) if self.idle.is_some() => Err(Misuse::NoIdle),
            (true, None) if self.new_replica => Err(Misuse::NoNewReplica),
            (true, None) if self.web.is_some() => Err(Misuse::NoWeb),
            (true, None) if self.web_origins.is_some() => Err(Misuse::NoWebOrigins),
            (true, None) if self.user_header.is_some() => Err(Misuse::NoUserHeader),
            (true, None) if self.trusted_proxies.is_some() => Err(Misuse::NoTrustedProxies),
            (true, None) if self.any_user => Err(Misuse::NoAnyUser),
            (true, None) if self.guests => Err(Misuse::NoGuests),
            (true, None) if self.clients_per_address.is_some() => Err(Misuse::NoClientsPerAddress),
            (true, None) if self.standby.is_some() || self.standby_of.is_some() => {
                Err(Misuse::NoStandby)
            }
            (true, None) if self.confirm.is_some() => Err(Misuse::NoConfirm),
            (true, None) if self.status.is_some() => Err(Misuse::NoStatus),
            (true, None) => Ok(ServerMode::Stdin),
            (true, Some(_)) | (false, None) => Err(Misuse::NotOne),
            (false, Some(address)) => match self.accounts {
                Some(_) if self.web.is_none() && self.web_origins.is_some() => {
                    Err(Misuse::NoWebOrigins)
                }
                Some(_) if self.web.is_none() && self.user_header.is_some() => {
                    Err(Misuse::NoUserHeader)
                }
                Some(_) if self.user_header.is_none() && self.trusted_proxies.is_some() => {
                    Err(Misuse::NoTrustedProxies)
                }
                Some(_) if self.user_header.is_none() && self.any_user => Err(Misuse::NoAnyUser),
                Some(_) if self.standby.is_none() && self.confirm.is_some() => {
                    Err(Misuse::NoConfirm)
                }
                Some(accounts) => self.serving(address, accounts),
                None => Err(Misuse::NoAccounts),
            },
        }
    }

    // The mode at an address: pads are served, or copies kept.
    fn serving(self, address: &'a str, accounts: &'a str) -> Result<ServerMode<'a>, Misuse>
        ensures { result ≡ serving address.entry accounts.entry self.entry }
    {
        if self.names_itself() {
            return Err(Misuse::OwnStandby);
        }
        match (self.standby_of, self.store) {
            (None, None) if self.standby.is_some() => Err(Misuse::NoCopies),
            (None, _) => Ok(ServerMode::Listen { address, accounts }),
            (Some(_), None) => Err(Misuse::NoCopies),
            (Some(_), Some(_)) if self.standby.is_some() || self.new_replica => {
                Err(Misuse::ServingStandby)
            }
            (Some(main), Some(store)) => Ok(ServerMode::Standby {
                address,
                accounts,
                store,
                main,
            }),
        }
    }

    // Returns true if the standby or the main server would be this server itself.
    fn names_itself(self) -> bool
        ensures { result ≡ names_itself self.entry }
    {
        self.standby == Some(self.replica) || self.standby_of == Some(self.replica)
    }
}
