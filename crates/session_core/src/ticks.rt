//! What the clock comes to, and how long an answer is waited for.

/// How long a session that dialled waits for the answer to its Logon, in milliseconds.
pub const ANSWER_WAIT: u64 = 10_000;

/// What the clock asks of a session at a moment.
#[derive(Clone, Copy, Debug, PartialEq, Eq)]
pub(crate) enum Tick {
    Quiet,
    /// A Heartbeat is due.
    Beat,
    /// A TestRequest is due.
    Test,
    /// The Logon or the TestRequest that waits has got no answer in time.
    Expire,
}
