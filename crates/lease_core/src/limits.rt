//! The most libraries and leases.

/// The most libraries. They are numbered from 1, and 0 is the engine.
pub const MOST_LIBRARIES: u8 = 16;

/// The most leases of a session that the lease word can number.
pub const MOST_LEASES: u32 = 16_777_215;
