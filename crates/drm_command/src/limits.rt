//! The limits on what the program reads, in bytes, as `specs/Limits` has them.

/// The greatest length of a robot.
pub const ROBOT_LIMIT: u64 = 1_048_576;

/// The greatest length of a map file.
pub const MAP_LIMIT: u64 = 268_435_456;

/// The greatest length of a log.
pub const LOG_LIMIT: u64 = 16_777_216;

/// The greatest number of lines of a log, as `drm_script` has it.
pub const LINE_LIMIT: u64 = 200_000;
