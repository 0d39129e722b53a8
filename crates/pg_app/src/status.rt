//! The statuses that the program ends with.

/// Every obligation follows.
pub const ACCEPTED: u8 = 0;

/// The text that was asked for was printed.
pub const PRINTED: u8 = 0;

/// Each obligation has a valid tree.
pub const VERIFIED: u8 = 0;

/// Every line was replayed, and nothing is violated.
pub const HELD: u8 = 0;

/// An obligation does not follow.
pub const REJECTED: u8 = 1;

/// Every line was replayed, and an assertion or the crash formula is violated.
pub const VIOLATED: u8 = 1;

/// The budget was spent on an obligation.
pub const SPENT: u8 = 2;

/// The first file stands for no well-formed outline.
pub const REFUSED: u8 = 3;

/// The second file is no derivation or no schedule.
pub const NO_DOCUMENT: u8 = 4;

/// A tree is not valid, is missing, or has no obligation; or the machine refuses a line of a schedule.
pub const NOT_TAKEN: u8 = 5;

/// The fetch of a file failed.
pub const NOT_FETCHED: u8 = 6;

/// A put failed.
pub const NOT_WRITTEN: u8 = 7;

/// The words are not a command.
pub const NO_COMMAND: u8 = 8;

/// Memory ran out.
pub const NO_MEMORY: u8 = 9;

/// A file is longer than its limit.
pub const TOO_LONG: u8 = 10;
