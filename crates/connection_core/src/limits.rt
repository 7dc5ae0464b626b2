//! How much is read and written of a connection at once, how much may wait, and how long a Logon may be
//! wanting.

/// The most bytes that are read of a connection at once: a connection whose pieces were all handed out
/// has room for them.
pub const MOST_READ: usize = 4_096;

/// The most bytes that are written on a connection in a turn.
pub const MOST_WRITTEN: usize = 1_048_576;

/// The most items that may wait on a connection.
pub const MOST_WAITING: u64 = 1_048_576;

/// How long an accepted connection may be without a Logon, in milliseconds.
pub const LOGON_WAIT: u64 = 10_000;
