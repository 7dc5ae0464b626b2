//! Limits of numbers, and what holds without a line, where no other crate says it.

/// The most sends of a lease, and the most requests of a library: all that their numbers can say.
pub const MOST_COUNT: u32 = u32::MAX;

/// For how many milliseconds a library may be silent, without a line.
pub const USUAL_TIMEOUT: u64 = 5_000;

/// For how many milliseconds a session that was handed on is reserved, without a line.
pub const USUAL_HOLD: u64 = 1_000;
