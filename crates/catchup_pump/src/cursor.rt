//! Where a pump stands, and how far it came.

/// Where a pump stands in the inbound log of session `s`, for the library with that lease: `at` is
/// the position of the message that goes to it next, and the log's length where none is left.
#[derive(Clone, Copy, Debug, PartialEq, Eq)]
pub struct Cursor {
    pub s: u16,
    pub lease: u32,
    pub at: u64,
}

/// Why a pump stopped: it came to the log's end, or the ring had no room by the counts that it
/// loaded last.
#[derive(Clone, Copy, Debug, PartialEq, Eq)]
pub enum Stop {
    LogEnd,
    RingFull { pushed: u64, taken: u64 },
}

/// How many messages were pushed, and why no more.
#[derive(Clone, Copy, Debug, PartialEq, Eq)]
pub struct Pumped {
    pub pushed: u64,
    pub stop: Stop,
}
