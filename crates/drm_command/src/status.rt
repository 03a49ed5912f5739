//! The statuses that the program ends with, as `specs/Status` has them.

/// The command was done, and its text was written whole.
pub const DONE: u8 = 0;

/// The words are no command.
pub const NO_COMMAND: u8 = 1;

/// The loaded bytes are no robot.
pub const NO_ROBOT: u8 = 2;

/// The loaded bytes are no map file.
pub const NO_MAP: u8 = 3;

/// The log is not in the grammar.
pub const NO_LOG: u8 = 4;

/// The source failed.
pub const SOURCE_FAILED: u8 = 5;

/// The sink failed.
pub const SINK_FAILED: u8 = 6;

/// The shelf failed at a name, or lacks it.
pub const SHELF_FAILED: u8 = 7;

/// There was no memory.
pub const NO_MEMORY: u8 = 8;

/// A limit on length was passed.
pub const TOO_LONG: u8 = 9;

/// The check of a map finds a sweep at fault.
pub const REFUTED: u8 = 10;
