//! What the engine has of its libraries.

use crate::ends::EngineEnds;
use catchup_pump::Cursor;
use lease_desk::LeaseDesk;
use library_clock::Watch;

/// A request for a session that isn't configured, which stands in no session's journal.
#[derive(Clone, Copy, Debug, PartialEq, Eq)]
pub struct Stray {
    pub library: u8,
    pub nr: u32,
    pub s: u16,
}

/// The sessions with their leases, and what the engine keeps of its libraries: their last beats, the
/// ends of their rings, for each session where the pump of its last lease stands, and the requests for
/// sessions that aren't there, in order.
#[derive(Drop)]
pub struct LibraryDesk {
    pub desk: LeaseDesk,
    pub watch: Watch,
    pub ends: Vec<EngineEnds>,
    pub cursors: Vec<Cursor>,
    pub strays: Vec<Stray>,
}
