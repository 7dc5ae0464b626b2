//! What waits to be written, a session's CompIDs, and the limits of what stands before a body.

use gate_io::Bytes;

/// The most bytes of a header beside the type field and the values of the CompIDs: their tags, the
/// number, and the three fields of what is sent again.
pub const LONGEST_HEADER: usize = 88;

/// The most bytes of a gap fill beside its header: its type field, and the fields behind the times.
pub const LONGEST_GAP_FILL: usize = 35;

/// A message that is to be written on a connection. It names its series, since the numbers may have
/// been reset before it is written.
#[derive(Clone, Copy, Debug, PartialEq, Eq)]
pub enum WireItem {
    /// The entry with this number, for the first time.
    New {
        series: u32,
        number: u64,
    },
    /// The entry with this number, sent again at this moment.
    Again {
        series: u32,
        number: u64,
        at: u64,
    },
    /// In place of the numbers from this one on, with the next number behind them.
    GapFill {
        series: u32,
        number: u64,
        to: u64,
        at: u64,
    },
}

/// The CompIDs of a session.
#[derive(Debug, Drop)]
pub struct Names2 {
    /// Ours, the SenderCompID of what is written.
    pub us: Bytes,
    /// The counterparty's.
    pub them: Bytes,
}
