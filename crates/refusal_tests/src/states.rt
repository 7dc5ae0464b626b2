//! What is told of a session and of its connection before and behind an event.

/// What a session and its connection have. To tell it takes no memory.
#[derive(Clone, Copy, PartialEq, Eq)]
pub struct State {
    /// How many entries the journal has, and how many messages the inbound log.
    pub entries: usize,
    pub inbound: u64,
    /// The present series of the outbound log, and how many messages it has.
    pub series: u32,
    pub outbound: u64,
    /// The number that is expected next.
    pub expected: u32,
    /// How many items wait on the connection, and how many bytes of their texts are made.
    pub waiting: u64,
    pub text: usize,
    /// How many bytes came that belong to no piece handed out yet.
    pub held: usize,
}

/// Nothing was heard of the session yet.
pub const NEW: State = State {
    entries: 0,
    inbound: 0,
    series: 1,
    outbound: 0,
    expected: 1,
    waiting: 0,
    text: 0,
    held: 0,
};

/// The session was bound by a Logon with the number 1, and answered it.
pub const ON: State = State {
    entries: 2,
    outbound: 1,
    expected: 2,
    waiting: 1,
    ..NEW
};

/// Behind that it sent one message more.
pub const SENT: State = State {
    entries: 3,
    outbound: 2,
    waiting: 2,
    ..ON
};
