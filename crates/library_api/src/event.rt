//! What a poll answers.
use gate_io::Bytes;
use lease_core::{Why, Word};

/// What a poll found.
#[derive(Debug, Drop)]
pub enum Event {
    /// No message is kept, and the ring of notices was empty.
    Nothing,
    /// The next message stands at a position that isn't published yet. It is kept for the next
    /// poll.
    NotYet {
        s: u16,
        pos: u64,
        published: u64,
    },
    /// The request `nr` got the session, whose messages come from position `from` on. The inbound
    /// log had the length `start` as it was granted.
    Granted {
        nr: u32,
        s: u16,
        lease: u32,
        from: u64,
        start: u64,
    },
    /// The request `nr` was refused.
    Refused {
        nr: u32,
        s: u16,
        why: Why,
    },
    /// The message at this position of the session's inbound log.
    Message {
        s: u16,
        lease: u32,
        pos: u64,
        bytes: Bytes,
    },
    /// A message of a lease that the library doesn't hold. It is dropped.
    Stale {
        s: u16,
        lease: u32,
        pos: u64,
    },
    /// The word that was seen doesn't show the lease of a message or of a grant as active and this
    /// library's. A message is dropped, a grant closes its request all the same, and the library
    /// holds no lease of the session then.
    LeaseLost {
        s: u16,
        lease: u32,
        seen: Word,
    },
}
