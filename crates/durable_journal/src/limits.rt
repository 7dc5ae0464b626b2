//! The limits of a journal's file and of what a record holds.

/// The most bytes of a journal's file.
pub const LONGEST_JOURNAL: u64 = 1_073_741_824;

/// The greatest number that a session can expect next.
pub const LAST_EXPECTED: u32 = 1_000_000_000;

/// The most bytes of a text that a session message of a record has, a TestReqID (112) or that of a Logout
/// (58): a session sends none that is longer.
pub const LONGEST_TEXT: usize = 256;
