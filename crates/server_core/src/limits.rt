//! The limits of a server.

/// The most cells of a server.
pub const MAX_CELLS: u32 = 131_072;

/// The default number of cells of a server.
pub const DEFAULT_CELLS: u32 = 64;

/// The most actors that a server opens, over its lifetime.
pub const MAX_ACTORS: u32 = 1_024;
