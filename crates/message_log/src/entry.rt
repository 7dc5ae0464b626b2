//! One numbered message, as the outbound log keeps it.

use gate_io::Bytes;

/// A message that was numbered.
#[derive(Debug, Drop)]
pub struct OutEntry {
    /// Its moment, in milliseconds since 1970-01-01 UTC.
    pub at: u64,
    /// Whether it is a session entry, of which a gap fill takes the place when it is asked for again.
    /// A Reject (35=3) isn't one.
    pub admin: bool,
    /// Its type field, and what follows the header.
    pub body: Bytes,
}
