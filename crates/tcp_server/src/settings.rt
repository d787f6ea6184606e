//! The settings of a server over TCP.
use group_commit::Confirm;

/// The peer that has a copy of the store.
#[derive(Clone, Copy)]
pub struct StandbyPeer {
    /// Its number in the accounts file.
    pub number: u16,
    /// The condition that replies wait for.
    pub confirm: Confirm,
}

/// The settings of a server over TCP.
#[derive(Clone, Copy)]
pub struct Settings<'a> {
    /// The replica number of this server, at least 1.
    pub replica: u16,
    /// The number of pads for which the server has room, at most 131,072.
    pub cells: u32,
    /// The most visits that may be present on a pad at once.
    pub present: u64,
    /// The number of threads that serve connections, 1 to 63. None: one for each processor.
    pub workers: Option<u32>,
    /// The number of connections after which the server ends. None: it does not.
    pub connections: Option<u32>,
    /// The most clients that may be connected at once, at least 1.
    pub clients: u32,
    /// The most connections that one address may have at once. None: no limit.
    pub clients_per_address: Option<u32>,
    /// The seconds of silence after which a connection is closed. None: never.
    pub idle: Option<u32>,
    /// True if each log-in is logged.
    pub logs_access: bool,
    /// The directory in which pads are kept. None: they are lost when the server ends.
    pub store: Option<&'a str>,
    /// The number of the peer that has a copy of the store, and the condition that replies wait for. None: no peer has
    /// one.
    pub standby: Option<StandbyPeer>,
    /// True if no server has used the replica number before, so that the store may be one of another number.
    pub new_replica: bool,
    /// The address where the page for browsers is served.
    pub web: Option<&'a str>,
    /// The origins whose pages may connect besides the server's own, separated by commas.
    pub web_origins: Option<&'a str>,
    /// The field by which a proxy names the user of a request for the page or its socket. None: it names none.
    pub user_header: Option<&'a str>,
    /// The addresses of the proxies from which that field is taken, separated by commas. None: 127.0.0.1 alone.
    pub trusted_proxies: Option<&'a str>,
    /// True if any user whom a proxy names is an author, even one who has no line in the accounts file.
    pub any_user: bool,
    /// True if guests may log in, who have no line in the accounts file.
    pub guests: bool,
    /// The address where operators ask for the status.
    pub status: Option<&'a str>,
}
