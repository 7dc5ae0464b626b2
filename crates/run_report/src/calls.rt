//! The calls of a library.
use gate_io::Bytes;
use lease_words::Sent;
use library_api::{AskError, Event, HandRefusal, ReleaseRefusal, Released, SendRefusal};

/// A call of a library, with its answer.
#[derive(Debug, Drop)]
pub enum Call {
    Request {
        s: u16,
        from: u64,
        answer: Result<u32, AskError>,
    },
    Poll {
        event: Event,
    },
    Send {
        s: u16,
        body: Bytes,
        answer: Result<Sent, SendRefusal>,
    },
    Release {
        s: u16,
        answer: Result<Released, ReleaseRefusal>,
    },
    /// A release to an heir.
    Hand {
        s: u16,
        heir: u8,
        answer: Result<Released, HandRefusal>,
    },
    Beat,
}
