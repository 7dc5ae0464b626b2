//! A lease, as a journal tells of it, and as the lease word shows it.

/// How a lease ended, if it did.
#[derive(Clone, Copy, Debug, PartialEq, Eq)]
pub enum Ending {
    /// The library has the session.
    Running,
    /// The library gave the session back, for an heir to take unless that is 0.
    GivenBack { heir: u8 },
    /// The engine took the session back.
    TakenBack,
}

/// What a journal says of one lease.
#[derive(Clone, Copy, Debug, PartialEq, Eq)]
pub struct Lease {
    pub library: u8,
    pub from: u64,
    pub start: u64,
    pub sends: u32,
    pub ending: Ending,
}

impl Lease {
    /// What stands for the last lease where none was given: the engine has the session.
    pub const NONE: Lease = Lease {
        library: 0,
        from: 0,
        start: 0,
        sends: 0,
        ending: Ending::Running,
    };
}

/// What the lease word can show of one lease.
#[derive(Clone, Copy, Debug, PartialEq, Eq)]
pub struct Line {
    pub library: u8,
    pub sends: u32,
    pub ending: Ending,
}

/// What was done by a lease, as a journal and its lines both tell it.
#[derive(Clone, Copy, Debug, PartialEq, Eq)]
pub enum Deed {
    /// The library made the lease's `ordinal`-th send, from 1.
    Sent {
        lease: u32,
        library: u8,
        ordinal: u32,
    },
    /// The library gave the session back after so many sends, for an heir to take unless that is 0.
    GaveBack {
        lease: u32,
        library: u8,
        count: u32,
        heir: u8,
    },
    /// The engine took the session back after so many sends.
    TookBack {
        lease: u32,
        library: u8,
        count: u32,
    },
}
