//! The limits of a server: how many clients it serves, for how long each may be silent, and what is logged of them.

/// The limits that the command line sets.
#[derive(Clone, Copy)]
pub struct Limits {
    /// The number of connections after which no more are accepted. None: no limit.
    pub connections: Option<u32>,
    /// The most clients that may be connected at once.
    pub clients: u32,
    /// The most HTTP requests that are read or answered at once. They do not count as clients.
    pub page_requests: u32,
    /// The most connections that one address may have at once. None: no limit.
    pub per_address: Option<u32>,
    /// The most seconds from one line of a client to the next. None: no limit.
    pub idle: Option<u32>,
    /// True if each log-in is logged.
    pub logs_access: bool,
}

impl Limits {
    /// The most clients that may be connected without having logged in: a quarter of all, or 16 if that is more.
    pub fn newcomers(&self) -> u32 {
        (self.clients / 4).max(FEWEST_NEWCOMERS)
    }
}

/// The number of clients that may be connected without having logged in, however few may be connected in all.
const FEWEST_NEWCOMERS: u32 = 16;

/// The bytes that are read of an unfinished line before the client has logged in.
pub const UNFINISHED: usize = 4_096;

/// The most clients that have not logged in and are read beyond that.
pub const MOST_LONG: u64 = 16;

/// The most lines of a client that are answered, and the most reads of its socket, before others have their turn.
pub const LINES: u32 = 32;

/// No further line of a client is answered while this many bytes of its replies wait to be written.
pub const MOST_OWED: usize = 65_536;

/// A line of more bytes is long: the worker for long lines reads and parses it.
pub const LONG_LINE: usize = 65_536;

/// The most bytes of one read.
pub const CHUNK: usize = 65_536;

/// The time for which a client may leave its replies unread, in milliseconds.
pub const PATIENCE: u64 = 30_000;

/// The time that a client has to log in, in milliseconds.
pub const LOG_IN: u64 = 60_000;

/// The time that a browser has to send its request, in milliseconds.
pub const REQUEST: u64 = 10_000;

/// The time between two checks of the clients' time limits, in milliseconds.
pub const CHECK: u64 = 1_000;
