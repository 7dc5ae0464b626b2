//! Why a body's fields can't be read.

ghost use Rattle.std.specs.Prelude.{◌≡◌, Some};
ghost use Rattle.fix_fields.specs.declared.error.FieldError.TheVariants.{OutOfMemory};
ghost use Rattle.fix_fields.specs.Printed.{error_text};

use std::alloc::{AllocError, AllocFailed};
use std::error::Error;
use std::fmt;

/// Why a body has no list of fields. `at` is the place of the byte at which the field in question
/// begins, from 0.
#[derive(Clone, Copy, Debug, PartialEq, Eq)]
pub enum FieldError {
    /// SOH or the body's end stands before the first `=`.
    NoEquals { at: usize },
    /// The tag is not one to nine digits without a leading zero.
    BadTag { at: usize },
    /// The field is a data field behind its length field, and its value, with as many bytes as the
    /// length field says, is not followed by SOH; or the length field has no number.
    BadDataLength { at: usize },
    /// No SOH closes the value.
    NoEnd { at: usize },
    /// The value has no byte.
    EmptyValue { at: usize },
    OutOfMemory,
}

impl fmt::Display for FieldError {
    ghost output = { λ e. Some (error_text e) };

    fn fmt<W: fmt::Write>(&self, f: &mut fmt::Formatter<W>) -> fmt::Result {
        match self {
            FieldError::NoEquals { at } => write!(f, "no = in the field at {at}"),
            FieldError::BadTag { at } => write!(f, "bad tag in the field at {at}"),
            FieldError::BadDataLength { at } => write!(f, "bad data length in the field at {at}"),
            FieldError::NoEnd { at } => write!(f, "no end of the field at {at}"),
            FieldError::EmptyValue { at } => write!(f, "empty value in the field at {at}"),
            FieldError::OutOfMemory => write!(f, "out of memory"),
        }
    }
}

impl Error for FieldError {}

impl From<AllocError> for FieldError {
    ghost from_gives = { λ _ e. e ≡ OutOfMemory };

    fn from(_e: AllocError) -> FieldError {
        FieldError::OutOfMemory
    }
}

impl<T: Drop> From<AllocFailed<T>> for FieldError {
    ghost from_gives = { λ _ e. e ≡ OutOfMemory };

    fn from(_e: AllocFailed<T>) -> FieldError {
        FieldError::OutOfMemory
    }
}
