//! Why a call is refused, and what a release that is carried out answers. The causes of each refusal stand in
//! the order in which they are tried.
use lease_core::Word;

/// Why a request isn't made.
#[derive(Clone, Copy, Debug, PartialEq, Eq)]
pub enum AskError {
    /// The request `nr` is unanswered.
    Outstanding { nr: u32 },
    /// As many requests were made as can be.
    AsksSpent { count: u32 },
    /// The ring of commands had no room.
    RingFull { pushed: u64, taken: u64 },
}

/// Why a message isn't sent.
#[derive(Clone, Copy, Debug, PartialEq, Eq)]
pub enum SendRefusal {
    /// The library holds no lease of the session.
    NotHeld,
    /// The body has more than `LONGEST_APPLICATION_BODY` bytes.
    TooLong { length: usize },
    /// The body isn't one that an application may send, by the field or fault at this place.
    BadBody { at: usize },
    /// By the taken count that was loaded, as many messages as the lane is deep were sent and not
    /// yet taken.
    LaneFull { committed: u64, taken: u64 },
    /// The lease made as many sends as it can.
    SendsSpent { count: u32 },
    /// The lease has ended, by the word that was seen.
    Lost { seen: Word },
}

/// Why a session isn't given back.
#[derive(Clone, Copy, Debug, PartialEq, Eq)]
pub enum ReleaseRefusal {
    /// The library holds no lease of the session.
    NotHeld,
    /// The lease has ended, by the word that was seen.
    Lost { seen: Word },
}

/// Why a session isn't handed on.
#[derive(Clone, Copy, Debug, PartialEq, Eq)]
pub enum HandRefusal {
    /// The library holds no lease of the session.
    NotHeld,
    /// There is no such library, or it is this one.
    BadHeir { heir: u8 },
    /// The lease has ended, by the word that was seen.
    Lost { seen: Word },
}

/// A session was given back: by which lease, and how many sends it made.
#[derive(Clone, Copy, Debug, PartialEq, Eq)]
pub struct Released {
    pub lease: u32,
    pub count: u32,
}
