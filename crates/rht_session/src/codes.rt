//! The codes that C gets of answers. `include/rht.h` has the same, with what each says.

/// The call is in progress.
pub const NOT_YET: u32 = 0;

pub const BOUND: u32 = 1;

pub const EXISTS: u32 = 2;

pub const FOUND: u32 = 3;

pub const MISSING: u32 = 4;

pub const LISTED: u32 = 5;

pub const RELEASED: u32 = 6;

pub const ABSENT: u32 = 7;

pub const REBOUND: u32 = 8;

pub const TOO_BIG: u32 = 9;

pub const AGAIN: u32 = 10;

pub const BUSY: u32 = 11;

pub const NO_TABLE: u32 = 12;

pub const NO_NODE: u32 = 13;

pub const PENDING: u32 = 14;

pub const ELSEWHERE: u32 = 15;

pub const WALKED: u32 = 16;

pub const MOVED: u32 = 17;

pub const IDLE: u32 = 18;

pub const CLEAR: u32 = 19;

pub const COUNTED: u32 = 20;

/// A table was opened.
pub const OPENED: u32 = 32;
/// A handle was closed, or some of a table's handles were.
pub const CLOSED: u32 = 33;
/// All handles of a table were closed, and the table with them.
pub const ENDED: u32 = 34;
/// A config was filled.
pub const READY: u32 = 35;

/// Refusals of calls on a handle.
pub const NOT_OPEN: u32 = 64;

pub const IN_CALL: u32 = 65;

pub const NO_CALL: u32 = 66;

pub const NO_STEPS: u32 = 67;
/// These three are kept for calls to come, and none answers them yet.
pub const HELD: u32 = 68;

pub const NOT_HELD: u32 = 69;

pub const TIDY_FIRST: u32 = 70;

pub const WAITING: u32 = 71;

/// Refusals of an opening.
pub const BAD_CONFIG: u32 = 80;

pub const BAD_COUNT: u32 = 81;

pub const STILL_OPEN: u32 = 82;

pub const NO_MEMORY: u32 = 83;

/// Refusals of a closing of handles of several tables, and of a config for which no seed can be had.
pub const TWO_TABLES: u32 = 84;

pub const NO_SEED: u32 = 85;
