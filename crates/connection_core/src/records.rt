//! What a connection leaves behind when it is over.

use gate_io::Bytes;
use session_core::Cause;

/// What a connection leaves.
#[derive(Debug, Drop)]
pub struct ConnRecord {
    /// The session to which it was bound, by its number from 0.
    pub session: Option<u16>,
    /// All bytes that were read.
    pub taken: Bytes,
    /// How many of them were garbled, in the pieces that were handed out.
    pub garbled: u64,
    /// All bytes that the connection took.
    pub written: Bytes,
    /// Why it ended; None where it still stood.
    pub cause: Option<Cause>,
}
