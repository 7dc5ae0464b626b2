//! What a library knows of a session, and the message that it keeps.
use gate_io::Bytes;

/// The lease of a session that a library was granted, or 0, and the position of the message that
/// it reads next.
#[derive(Clone, Copy, Drop)]
pub struct Reading {
    pub lease: u32,
    pub next: u64,
}

impl Reading {
    /// Of a session that isn't held.
    pub const NONE: Reading = Reading { lease: 0, next: 0 };
}

/// A message as it came out of the ring.
#[derive(Drop)]
pub struct Message {
    pub s: u16,
    pub lease: u32,
    pub pos: u64,
    pub bytes: Bytes,
}
