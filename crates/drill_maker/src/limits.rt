//! The numbers of every drill.

/// The most rounds. The least is 1.
pub const MOST_ROUNDS: u32 = 500;

/// How many counterparties there are, each with a session and a connection.
pub const COUNTERPARTIES: u32 = 8;

/// How many libraries there are.
pub const LIBRARIES: u8 = 4;

/// The moment of the whole drill, 2026-01-05 09:30:00.000, in milliseconds since 1970-01-01 UTC.
pub const MOMENT: u64 = 1_767_605_400_000;

/// After how many milliseconds a library has fallen silent, and for how many an heir is waited for, where
/// a script doesn't say it.
pub const TIMEOUT: u64 = 5_000;

pub const HOLD: u64 = 1_000;
