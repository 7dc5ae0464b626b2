//! How a command ends, and with which status.

ghost use Rattle.std.specs.Prelude.{◌≡◌, Some};
ghost use Rattle.gateway_run.specs.Codes.{code_of, line_of};

use script_text::ScriptKind;
use std::fmt;

/// How a top call ended.
#[derive(Clone, Copy, Debug, PartialEq, Eq)]
pub enum Status {
    /// Every step was carried out, and the report or the summary was written.
    Ok,
    /// Memory was wanting. Nothing was written.
    OutOfMemory,
    /// The words give no command that the call carries out.
    Usage,
    /// A read of the script failed.
    ReadFault,
    /// A write of the report, or of the summary, failed. A beginning of it was written, if anything.
    WriteFault,
    /// The script is outside the grammar: its first faulty line, from 1, and the fault; line 0 where
    /// the script as a whole is too long.
    ScriptFault { line: u32, kind: ScriptKind },
    /// So many turns were spent, and the report was written: by library 0, the engine, while connections or
    /// libraries were still awaited, or else by the first library that gave its plan up.
    TurnsSpent { turns: u64, library: u8 },
    /// The address can't be listened at.
    ListenFault,
}

impl Status {
    /// The program's exit status.
    pub fn code(&self) -> u8
        ensures { result ≡ code_of self.now }
    {
        match self {
            Status::Ok => 0,
            Status::OutOfMemory => 1,
            Status::Usage => 2,
            Status::ScriptFault { .. } => 3,
            Status::ReadFault => 4,
            Status::WriteFault => 5,
            Status::TurnsSpent { .. } => 6,
            Status::ListenFault => 7,
        }
    }
}

/// The line that the program prints to standard error, without its end. There is none for Ok.
impl fmt::Display for Status {
    ghost output = { λ status. Some (line_of status) };

    fn fmt<W: fmt::Write>(&self, f: &mut fmt::Formatter<W>) -> fmt::Result {
        match self {
            Status::Ok => Ok(()),
            Status::OutOfMemory => write!(f, "fixgate: out of memory"),
            Status::Usage => write!(
                f,
                "usage: fixgate replay SCRIPT | drill N | serve SCRIPT ADDRESS TURNS"
            ),
            Status::ReadFault => write!(f, "fixgate: cannot read the script"),
            Status::WriteFault => write!(f, "fixgate: cannot write the report"),
            Status::ScriptFault { line, kind } => write!(f, "fixgate: script line {line}: {kind}"),
            Status::TurnsSpent { turns, library } => {
                write!(f, "fixgate: {turns} turns spent by {library}")
            }
            Status::ListenFault => write!(f, "fixgate: cannot listen"),
        }
    }
}
