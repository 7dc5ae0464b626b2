//! The names of the sessions that accept, by which a first message is routed.

use session_core::Names;

/// The names of the sessions that accept connections, in order, and which session each belongs to.
#[derive(Debug, Drop)]
pub struct Routes {
    pub names: Vec<Names>,
    pub sessions: Vec<u16>,
}
