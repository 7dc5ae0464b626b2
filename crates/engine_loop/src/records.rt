//! What a turn did, and what its first half found.

use gate_io::{Accepted, Rows, WireGot};
use library_desk::LibTurn;

/// What a turn found, and how many bytes it wrote.
#[derive(Debug, Drop)]
pub struct Turn {
    /// The turn's moment, in milliseconds since 1970-01-01.
    pub moment: u64,
    /// The accept's answer; Nothing where none was due.
    pub accepted: Accepted,
    /// For each connection that stood, by its number, what its read gave.
    pub reads: Rows<(u32, WireGot)>,
    /// For each library, in the order of their numbers, what became of its command.
    pub libs: Rows<LibTurn>,
    /// How many bytes the turn's writes took, on all connections.
    pub written: u64,
}

/// What the first half of a turn found.
#[derive(Debug, Drop)]
pub struct Taken {
    /// The turn's moment, in milliseconds since 1970-01-01.
    pub moment: u64,
    /// The accept's answer; Nothing where none was due.
    pub accepted: Accepted,
    /// For each connection that stood, by its number, what its read gave.
    pub reads: Rows<(u32, WireGot)>,
    /// For each library, in the order of their numbers, what became of its command.
    pub libs: Rows<LibTurn>,
}
