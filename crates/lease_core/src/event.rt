//! What can happen to a session, before it has its place in the journal.

/// What can happen to a session, before it has its place and its numbers in the journal.
#[derive(Clone, Copy, Debug, PartialEq, Eq)]
pub enum Event {
    /// An application message is accepted.
    Arrives,
    /// The engine sends a session message.
    AdminSent,
    /// A connection is bound.
    Binds { c: u32 },
    /// A ResendRequest is answered.
    Plans { begin: u64, last: u64, at: u64 },
    /// The bound connection ends.
    Leaves { c: u32 },
    /// The Logon that bound the session begins both sides' numbers again.
    Resets,
    /// A library asks for the session.
    Requests { library: u8, nr: u32, from: u64 },
    /// The owner sends a message.
    Sends,
    /// The owner gives the session back, for an heir to take unless that is 0.
    Releases { heir: u8 },
    /// The engine takes the session back.
    TimesOut,
    /// The session begins to wait for the heir.
    Holds { until: u64 },
    /// The session waits for the heir no longer.
    Lapses,
}
