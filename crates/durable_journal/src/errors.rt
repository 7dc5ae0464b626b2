//! Why a record isn't appended, and why a file isn't read back.

ghost use Rattle.std.specs.Prelude.{◌≡◌};
ghost use Rattle.durable_journal.specs.declared.errors.AppendError.TheVariants as append;
ghost use Rattle.durable_journal.specs.declared.errors.RecoverError.TheVariants as recover;

use crate::disk::DiskFault;
use gate_io::NoMemory;
use std::alloc::AllocError;
use std::error::Error;
use std::fmt;

/// Why a record wasn't taken into the waiting batch.
#[derive(Clone, Copy, Debug, PartialEq, Eq)]
pub enum AppendError {
    /// The file with it would have `length` bytes, more than `LONGEST_JOURNAL`.
    Full { length: u64 },
    OutOfMemory,
}

/// Why a file wasn't recovered.
#[derive(Clone, Copy, Debug, PartialEq, Eq)]
pub enum RecoverError {
    /// A call of the disk failed.
    DiskFault,
    /// The file has `length` bytes, more than `LONGEST_JOURNAL`.
    TooLong { length: u64 },
    /// An open gate stands at `at`, and no whole batch of records behind it that go on from those
    /// before.
    BadJournal { at: u64 },
    OutOfMemory,
}

impl fmt::Display for AppendError {
    fn fmt<W: fmt::Write>(&self, f: &mut fmt::Formatter<W>) -> fmt::Result {
        match self {
            AppendError::Full { length } => write!(f, "a journal of {length} bytes is too long"),
            AppendError::OutOfMemory => write!(f, "out of memory"),
        }
    }
}

impl Error for AppendError {}

impl fmt::Display for RecoverError {
    fn fmt<W: fmt::Write>(&self, f: &mut fmt::Formatter<W>) -> fmt::Result {
        match self {
            RecoverError::DiskFault => write!(f, "the disk failed"),
            RecoverError::TooLong { length } => {
                write!(f, "a journal of {length} bytes is too long")
            }
            RecoverError::BadJournal { at } => write!(f, "the journal is damaged at {at}"),
            RecoverError::OutOfMemory => write!(f, "out of memory"),
        }
    }
}

impl Error for RecoverError {}

impl From<AllocError> for AppendError {
    ghost from_gives = { λ _ e. e ≡ append.OutOfMemory };

    fn from(_e: AllocError) -> AppendError {
        AppendError::OutOfMemory
    }
}

impl From<AllocError> for RecoverError {
    ghost from_gives = { λ _ e. e ≡ recover.OutOfMemory };

    fn from(_e: AllocError) -> RecoverError {
        RecoverError::OutOfMemory
    }
}

impl From<NoMemory> for RecoverError {
    ghost from_gives = { λ _ e. e ≡ recover.OutOfMemory };

    fn from(_e: NoMemory) -> RecoverError {
        RecoverError::OutOfMemory
    }
}

impl From<DiskFault> for RecoverError {
    ghost from_gives = { λ _ e. e ≡ recover.DiskFault };

    fn from(_e: DiskFault) -> RecoverError {
        RecoverError::DiskFault
    }
}
