//! What can be wrong with a script.

ghost use Rattle.std.specs.Prelude.{◌≡◌, Some};
ghost use Rattle.script_text.specs.declared.kinds.ScriptError.TheVariants.{OutOfMemory};
ghost use Rattle.script_text.specs.Kinds.{kind_text, error_text};

use gate_io::NoMemory;
use std::alloc::{AllocError, AllocFailed};
use std::error::Error;
use std::fmt;

/// What is wrong with a line. Where several things are, the first of this list counts.
#[derive(Clone, Copy, Debug, PartialEq, Eq)]
pub enum ScriptKind {
    /// A byte isn't printable.
    BadByte = 1,
    /// The first word, the second of an `option` line or the third of a `lib` line isn't a word
    /// of the grammar in that place, or it is empty.
    UnknownWord = 2,
    /// A word or a text is missing, a word other than those three is empty, or one is too many. A text
    /// may be empty.
    BadShape = 3,
    /// A number or a timestamp isn't one.
    BadNumber = 4,
    /// A name or an address isn't a name, a `\` of a text has no two lower-case hexadecimal digits
    /// behind it, or the text of a `frame` line isn't a body whose frame has at most `LONGEST_FRAME`
    /// bytes.
    BadText = 5,
    /// A number is outside its range, or names a library or a connection that isn't there; an earlier
    /// session has both names of this one; or a `session`, `dial`, `connect` or `take` line is one too
    /// many.
    OutOfRange = 6,
    /// A line of the configuration stands behind a step, or it is a line of the other command:
    /// `connections`, `dials`, `answer` and `read` are of `serve` alone, and steps other than a
    /// library's are of `replay` alone.
    Misplaced = 7,
    /// The clock would go back.
    Backward = 8,
    /// The whole script is longer than `LONGEST_SCRIPT`.
    TooLong = 9,
}

impl fmt::Display for ScriptKind {
    ghost output = { λ k. Some (kind_text k) };

    fn fmt<W: fmt::Write>(&self, f: &mut fmt::Formatter<W>) -> fmt::Result {
        match self {
            ScriptKind::BadByte => write!(f, "bad byte"),
            ScriptKind::UnknownWord => write!(f, "unknown word"),
            ScriptKind::BadShape => write!(f, "bad shape"),
            ScriptKind::BadNumber => write!(f, "bad number"),
            ScriptKind::BadText => write!(f, "bad text"),
            ScriptKind::OutOfRange => write!(f, "out of range"),
            ScriptKind::Misplaced => write!(f, "misplaced"),
            ScriptKind::Backward => write!(f, "backward"),
            ScriptKind::TooLong => write!(f, "too long"),
        }
    }
}

/// Why a text gives no script.
#[derive(Clone, Copy, Debug, PartialEq, Eq)]
pub enum ScriptError {
    OutOfMemory,
    /// The first line that is outside the grammar, counted from 1, and what is wrong with it. Line
    /// 0 stands for the whole script.
    Fault { line: u32, kind: ScriptKind },
}

impl fmt::Display for ScriptError {
    ghost output = { λ e. Some (error_text e) };

    fn fmt<W: fmt::Write>(&self, f: &mut fmt::Formatter<W>) -> fmt::Result {
        match self {
            ScriptError::OutOfMemory => write!(f, "out of memory"),
            ScriptError::Fault { line, kind } => write!(f, "script line {line}: {kind}"),
        }
    }
}

impl Error for ScriptError {}

impl From<NoMemory> for ScriptError {
    ghost from_gives = { λ _ e. e ≡ OutOfMemory };

    fn from(_e: NoMemory) -> ScriptError {
        ScriptError::OutOfMemory
    }
}

impl From<AllocError> for ScriptError {
    ghost from_gives = { λ _ e. e ≡ OutOfMemory };

    fn from(_e: AllocError) -> ScriptError {
        ScriptError::OutOfMemory
    }
}

impl<T: Drop> From<AllocFailed<T>> for ScriptError {
    ghost from_gives = { λ _ e. e ≡ OutOfMemory };

    fn from(_e: AllocFailed<T>) -> ScriptError {
        ScriptError::OutOfMemory
    }
}
