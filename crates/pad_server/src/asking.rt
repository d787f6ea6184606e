//! The settings of a server over TCP, from the command line.
ghost use Rattle.std.specs.Prelude.{◌≡◌};
ghost use Rattle.pad_server.specs.Asking.{promoted_settings_of, settings_of};

use crate::args::ServerArguments;
use group_commit::Confirm;
use tcp_server::{Settings, StandbyPeer};

impl<'a> ServerArguments<'a> {
    /// The settings of a server over TCP, whose replies wait for the standby so.
    pub fn settings(self, confirm: Confirm) -> Settings<'a>
        ensures { result ≡ settings_of confirm self.entry }
    {
        let standby = match self.standby {
            Some(number) => Some(StandbyPeer { number, confirm }),
            None => None,
        };
        Settings {
            replica: self.replica,
            cells: self.cells,
            present: self.present,
            workers: self.workers,
            connections: self.connections,
            clients: self.clients,
            clients_per_address: self.clients_per_address,
            idle: self.idle,
            store: self.store,
            standby,
            new_replica: self.new_replica,
            web: self.web,
            web_origins: self.web_origins,
            user_header: self.user_header,
            trusted_proxies: self.trusted_proxies,
            any_user: self.any_user,
            guests: self.guests,
            status: self.status,
            logs_access: self.log_access,
        }
    }

    /// The settings of a standby that was promoted: the number is new in its store.
    pub fn promoted_settings(self, confirm: Confirm) -> Settings<'a>
        ensures { result ≡ promoted_settings_of confirm self.entry }
    {
        Settings {
            new_replica: true,
            ..self.settings(confirm)
        }
    }
}
