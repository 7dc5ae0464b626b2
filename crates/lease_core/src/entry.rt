//! The entries of a session's journal, and the holdings between them.

/// One event of a session, as it stands in the session's journal. A position counts the inbound
/// messages from 0. A number counts what was sent in the present series from 1, and is the
/// MsgSeqNum.
#[derive(Clone, Copy, Debug, PartialEq, Eq)]
pub enum Entry {
    /// An application message was accepted at this position of the inbound log.
    Arrive {
        pos: u64,
    },
    /// A session message was sent under this number.
    Admin {
        number: u64,
    },
    /// The session was bound to a connection.
    Bind {
        c: u32,
    },
    /// A ResendRequest was answered: its BeginSeqNo (7), its EndSeqNo (16), and the moment.
    Plan {
        begin: u64,
        last: u64,
        at: u64,
    },
    /// The bound connection ended.
    Leave {
        c: u32,
    },
    /// Both sides' numbers begin again at 1, in this series.
    Reset {
        series: u32,
    },
    /// A library got the session, with the log from `from` on replayed to it. The inbound log had
    /// the length `start` then.
    Granted {
        library: u8,
        nr: u32,
        lease: u32,
        from: u64,
        start: u64,
    },
    /// A library's request was refused.
    Refused {
        library: u8,
        nr: u32,
        why: Why,
    },
    /// A library sent a message, the lease's `ordinal`-th, from 1.
    Send {
        lease: u32,
        library: u8,
        ordinal: u32,
        number: u64,
    },
    /// A library gave the session back after so many sends, for an heir to take unless that is 0.
    Release {
        lease: u32,
        library: u8,
        count: u32,
        heir: u8,
    },
    /// The engine took the session back from a library after so many sends.
    Timeout {
        lease: u32,
        library: u8,
        count: u32,
    },
    /// The session waits for the heir of the release before it, until this moment.
    Hold {
        lease: u32,
        until: u64,
    },
    /// The heir didn't come.
    Lapse {
        lease: u32,
    },
}

/// Why a request for a session was refused.
#[derive(Clone, Copy, Debug, PartialEq, Eq)]
pub enum Why {
    /// No such session is configured. It stands in no journal.
    UnknownSession { s: u16 },
    /// A library owns the session by that lease.
    OtherOwner { owner: u8, lease: u32 },
    /// The session waits for another library, until that moment.
    Reserved { for_library: u8, until: u64 },
    /// The last lease of the session is the limit.
    LeasesSpent { lease: u32 },
    /// The replay was asked for from a position past the log's length.
    MissingMessages { asked: u64, logged: u64 },
}

/// A span of the inbound log in which the session had one owner, from `start` on and up to below
/// `end`. Library and lease 0 are the engine. A library's replay begins at `from`; the engine's
/// `from` is its start.
#[derive(Clone, Copy, Debug, PartialEq, Eq)]
pub struct Holding {
    pub library: u8,
    pub lease: u32,
    pub from: u64,
    pub start: u64,
    pub end: u64,
    pub sends: u32,
}
