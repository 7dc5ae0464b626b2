//! The two names of a session, ours and the counterparty's.

use gate_io::Bytes;

/// The two names of a session: the gateway's, which is SenderCompID (49) of what it sends, and the
/// counterparty's.
#[derive(Debug, Drop)]
pub struct Names {
    pub us: Bytes,
    pub them: Bytes,
}
