//! What a library asks, and what it is told.

use crate::Why;
use gate_io::Bytes;

/// The answer to a request for a session.
#[derive(Clone, Copy, Debug, PartialEq, Eq)]
pub enum Reply {
    /// The library gets the session by this lease. The inbound log has the length `start` as it is
    /// granted.
    Granted { lease: u32, start: u64 },
    Refused(Why),
}

/// What a library asks of the engine.
#[derive(Clone, Copy, Debug, PartialEq, Eq)]
pub enum Command {
    /// Session `s`, with its log from `from` on replayed. The library numbers its requests by `nr`.
    Request { nr: u32, s: u16, from: u64 },
    /// Nothing any more. `finished` says whether all of its work was done.
    Done { finished: bool },
}

/// What the engine tells a library.
#[derive(Debug, Drop)]
pub enum Notice {
    /// The request `nr` was granted by that lease, with the log from `from` on replayed. The
    /// inbound log had the length `start` then.
    Granted {
        nr: u32,
        s: u16,
        lease: u32,
        from: u64,
        start: u64,
    },
    Refused {
        nr: u32,
        s: u16,
        why: Why,
    },
    /// The message at this position of the session's inbound log, for the library with that lease.
    Message {
        s: u16,
        lease: u32,
        pos: u64,
        bytes: Bytes,
    },
}
