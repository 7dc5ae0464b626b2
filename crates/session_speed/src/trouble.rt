//! Why an order isn't answered. It is small, so that what is timed doesn't wait for an error's place.

use gate_io::NoMemory;
use std::alloc::{AllocError, AllocFailed};
use std::error::Error;
use std::fmt;

/// Why an order isn't answered.
#[derive(Clone, Copy, Debug)]
pub enum Trouble {
    /// There is no memory.
    OutOfMemory,
    /// More bytes come than the connection has room for.
    NoRoom,
    /// Some bytes are no frame.
    Garbled,
    /// The session isn't bound to the connection, or can't be.
    NotBound,
    /// The library doesn't get the session.
    NotGranted,
    /// The report can't be shown.
    NotShown,
    /// The connection ended.
    Ended,
}

impl fmt::Display for Trouble {
    fn fmt<W: fmt::Write>(&self, f: &mut fmt::Formatter<W>) -> fmt::Result {
        let text = match self {
            Trouble::OutOfMemory => "out of memory",
            Trouble::NoRoom => "the connection has no room for the bytes",
            Trouble::Garbled => "some bytes are garbled",
            Trouble::NotBound => "the session isn't bound",
            Trouble::NotGranted => "the session was not granted",
            Trouble::NotShown => "the report can't be shown",
            Trouble::Ended => "the connection ended",
        };
        write!(f, "{text}")
    }
}

impl Error for Trouble {}

impl From<NoMemory> for Trouble {
    fn from(_why: NoMemory) -> Trouble {
        Trouble::OutOfMemory
    }
}

impl From<AllocError> for Trouble {
    fn from(_why: AllocError) -> Trouble {
        Trouble::OutOfMemory
    }
}

impl<T: Drop> From<AllocFailed<T>> for Trouble {
    fn from(_why: AllocFailed<T>) -> Trouble {
        Trouble::OutOfMemory
    }
}
