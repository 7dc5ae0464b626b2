//! A script as it was read: its configuration, and what is to happen, with the numbers of their lines.

use engine_config::Config;
use gate_io::{Bytes, Rows};

/// What a line other than those of the configuration says.
#[derive(Debug, Drop)]
pub enum Step {
    /// The clock's moment, in milliseconds since 1970-01-01 UTC.
    At { moment: u64 },
    /// The next connection waits to be accepted.
    Connect,
    /// One more dial succeeds: its connection, the next from gate_io's `FIRST_DIALLED` on, is made.
    Take,
    /// These bytes can be read from connection `c`, unless its input was ended or it is closed.
    Bytes { c: u32, bytes: Bytes },
    /// The same of the frame of this body.
    Frame { c: u32, body: Bytes },
    /// The input of `c` ends behind its bytes.
    Finish { c: u32 },
    /// The next read of `c` fails.
    FailRead { c: u32 },
    /// `c` takes so many more bytes, and then the next write fails.
    FailWrite { c: u32, after: u64 },
    /// `c` takes so many more bytes, and then writes answer that they would block.
    Block { c: u32, after: u64 },
    /// Ends the block of `c`.
    Unblock { c: u32 },
    /// One turn of the engine.
    Turn,
    /// A call of a library, by its number from 1.
    Lib { library: u8, act: LibStep },
}

/// What a library does. `s` is the number of a session.
#[derive(Debug, Drop)]
pub enum LibStep {
    Request { s: u16, from: u64 },
    Poll,
    Send { s: u16, body: Bytes },
    Release { s: u16 },
    Beat,
    /// Hands the session on to the library `heir`.
    Hand { s: u16, heir: u8 },
    /// Polls until no request is open.
    Answer,
    /// Polls until so many messages came, or the loss of a lease.
    Read { count: u64 },
}

/// What a script says.
#[derive(Debug, Drop)]
pub struct Script {
    pub config: Config,
    pub steps: Rows<Step>,
    /// For each session the number of its line, from 1.
    pub session_lines: Rows<u32>,
    /// For each step the number of its line, from 1.
    pub step_lines: Rows<u32>,
}
