//! The one error of a call that may want memory and nothing else.

ghost use Rattle.gate_io.specs.declared.no_memory.NoMemory.TheVariants.{OutOfMemory};
ghost use Rattle.std.specs.Prelude.{◌≡◌, Some, codes};

use std::alloc::{AllocError, AllocFailed};
use std::error::Error;
use std::fmt;

/// The error of a call that fails only where it finds no memory.
#[derive(Clone, Copy, Debug, PartialEq, Eq)]
pub enum NoMemory {
    OutOfMemory,
}

impl fmt::Display for NoMemory {
    ghost output = { λ _. Some (codes "out of memory") };

    fn fmt<W: fmt::Write>(&self, f: &mut fmt::Formatter<W>) -> fmt::Result {
        write!(f, "out of memory")
    }
}

impl Error for NoMemory {}

impl From<AllocError> for NoMemory {
    ghost from_gives = { λ _ e. e ≡ OutOfMemory };

    fn from(_e: AllocError) -> NoMemory {
        NoMemory::OutOfMemory
    }
}

impl<T: Drop> From<AllocFailed<T>> for NoMemory {
    ghost from_gives = { λ _ e. e ≡ OutOfMemory };

    fn from(_e: AllocFailed<T>) -> NoMemory {
        NoMemory::OutOfMemory
    }
}
