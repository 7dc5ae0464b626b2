//! What an engine is configured with, and its limits.

use gate_io::{Label, Rows};
use session_core::Names;

/// The most milliseconds without a beat behind which a library has fallen silent. The least is 1.
pub const MOST_TIMEOUT: u64 = 3_600_000;

/// The most milliseconds for which an heir is waited for. The least is 1.
pub const MOST_HOLD: u64 = 3_600_000;

/// The most milliseconds that a session waits before it dials again. The least is 1.
pub const MOST_WAIT: u64 = 3_600_000;

/// To where a session dials.
#[derive(Debug, Drop)]
pub struct DialTo {
    /// An IP address or host name with a port.
    pub address: Label,
    /// The HeartBtInt (108) that its Logon asks for, in seconds, from 1 to session_core's
    /// `LONGEST_HEARTBEAT`.
    pub heart: u32,
    /// How many milliseconds it waits behind a dial that failed or a connection that ended, from 1 to
    /// `MOST_WAIT`.
    pub wait: u64,
}

/// What an engine is configured with.
#[derive(Debug, Drop)]
pub struct Config {
    /// The names of the sessions, at most session_core's `MOST_SESSIONS`, no two the same pair, and each
    /// name of 1 to fix_fields' `LONGEST_NAME` bytes. A session's number is its place here, from 0.
    pub names: Rows<Names>,
    /// The libraries are numbered from 1 to this, at most lease_core's `MOST_LIBRARIES`.
    pub libraries: u8,
    /// How many connections are accepted at most. This is at most gate_io's `MOST_CONNECTIONS`.
    pub connections: u32,
    /// For how many sends of a library a session's lane has room, from 1 to lease_words' `LANE_SLOTS`.
    pub lane: u8,
    /// How often a session can be granted, from 1 to lease_core's `MOST_LEASES`.
    pub leases: u32,
    /// How many sends a lease can make, at least 1.
    pub sends: u32,
    /// How many requests a library may make, at least 1.
    pub asks: u32,
    /// After how many milliseconds without a beat a library has fallen silent, from 1 to `MOST_TIMEOUT`.
    pub timeout: u64,
    /// For how many milliseconds an heir is waited for, from 1 to `MOST_HOLD`.
    pub hold: u64,
    /// For each session to where it dials, and None for one that accepts.
    pub dialled: Rows<Option<DialTo>>,
    /// How many dials succeed at most. This is at most gate_io's `MOST_DIALLED`.
    pub dials: u32,
}
