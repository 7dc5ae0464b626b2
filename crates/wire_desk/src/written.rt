//! How a connection's writing of a turn came to its end.

/// Why a connection was written to no further in a turn.
#[derive(Clone, Copy, Debug, PartialEq, Eq)]
pub enum Stop {
    /// All text that waited was taken.
    AllTaken,
    /// The most bytes of a turn were written.
    MostWritten,
    /// The wire takes nothing now.
    Blocked,
    /// The write failed.
    Failed,
}

/// What was written to a connection in a turn.
#[derive(Clone, Copy, Debug, PartialEq, Eq)]
pub struct Written {
    pub bytes: usize,
    pub stop: Stop,
}

/// What came of one write.
#[derive(Clone, Copy, Debug, PartialEq, Eq)]
pub(crate) enum Wrote {
    Bytes(usize),
    Stopped(Stop),
}
