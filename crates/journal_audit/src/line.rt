//! What a line of a report says.

use gate_io::Bytes;
use lease_core::{Entry, Holding, Why};

/// What the head of a session says of its journal: who owns the session, the last lease, and how long
/// the two logs are.
#[derive(Clone, Copy, Debug)]
pub(crate) struct Header {
    pub owner: u8,
    pub lease: u32,
    pub inbound: u64,
    pub outbound: u64,
}

/// How a request was answered.
#[derive(Clone, Copy, Debug)]
pub(crate) enum Outcome {
    Granted { lease: u32, from: u64, start: u64 },
    Refused(Why),
}

/// How a request for a session was answered.
#[derive(Clone, Copy, Debug)]
pub(crate) struct Reply {
    pub s: u16,
    pub outcome: Outcome,
}

/// A line of a report.
#[derive(Debug, Drop)]
pub(crate) enum Line {
    Head,
    Session {
        s: u16,
        header: Header,
    },
    Entry(Entry),
    Holding(Holding),
    In {
        pos: u64,
        body: Bytes,
    },
    Series {
        series: u32,
    },
    Out {
        number: u64,
        body: Bytes,
    },
    Stray {
        library: u8,
        nr: u32,
        s: u16,
    },
    /// A connection, with its session if it was bound to one, and how many bytes were written to it.
    Connection {
        c: u32,
        s: Option<u16>,
        written: u64,
    },
    Wrote {
        bytes: Bytes,
    },
    Library {
        library: u8,
        reads: u64,
    },
    Call(Call),
    End,
}

/// A call of a library with its answer, as far as the rules speak of it.
#[derive(Debug, Drop)]
pub(crate) enum Call {
    /// The request got this number.
    Asked {
        nr: u32,
    },
    /// A poll gave the answer to a request.
    Replied {
        nr: u32,
        reply: Reply,
    },
    /// A poll gave a message.
    Read {
        s: u16,
        lease: u32,
        pos: u64,
        body: Bytes,
    },
    Sent {
        s: u16,
        lease: u32,
        ordinal: u32,
        body: Bytes,
    },
    /// A release, to an heir unless that is 0.
    GaveBack {
        s: u16,
        lease: u32,
        count: u32,
        heir: u8,
    },
    /// Any other call and answer.
    Other,
}
