//! The limits of pads and operations. Definitions and code cite these names.

/// The greatest counter of a stamp: 2^48.
pub const MAX_COUNTER: u64 = 281_474_976_710_656;

/// The greatest replica number.
pub const MAX_REPLICA: u16 = 65_535;

/// The greatest counter that version 1 of the wire can express: 2^40.
pub const OLD_COUNTER: u64 = 1_099_511_627_776;

/// The greatest replica number that version 1 of the wire can express.
pub const OLD_REPLICA: u16 = 255;

/// Most characters of a pad's or an author's name.
pub const MAX_NAME: u64 = 32;

/// Most characters that one operation inserts or erases, over all its parts.
pub const MAX_TEXT: u64 = 10_000;

/// Most characters of a comment's text.
pub const MAX_COMMENT: u64 = 2_000;

/// Most parts of one operation.
pub const MAX_PARTS: u64 = 16;

/// The greatest number of an operation, and the greatest count of a version vector.
pub const MAX_NUMBER: u64 = 200_000;

/// Most characters of one pad, erased ones included.
pub const MAX_CHARACTERS: u64 = 4_000_000;

/// Most operations of one pad.
pub const MAX_OPERATIONS: u64 = 200_000;

/// Most comments of one pad.
pub const MAX_COMMENTS: u64 = 10_000;
