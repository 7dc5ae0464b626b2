//! The numbers of connections.

ghost use Rattle.std.specs.Prelude.{◌≡◌, ◌<◌, ◌^◌, true};
ghost use Rattle.script_text.specs.SoFar.{is_made};

use gate_io::FIRST_DIALLED;

/// The numbers that come next: those below them are made, by `connect` lines from 0 on, by `take`
/// lines from gate_io's `FIRST_DIALLED` on.
#[derive(Clone, Copy, Debug)]
pub struct NextNumbers {
    pub connect: u32,
    pub take: u32,
}

impl NextNumbers {
    /// Before the first line.
    pub(crate) fn new() -> NextNumbers
        ensures { result ≡ record { connect = 0; take = FIRST_DIALLED } }
    {
        NextNumbers {
            connect: 0,
            take: FIRST_DIALLED,
        }
    }

    /// Whether the connection of this number is made.
    pub(crate) fn has(self, c: u64) -> bool
        ensures made { result ≡ is_made self c }
        ensures small { result ≡ true → c < 2 ^ 32 }
    {
        if c < FIRST_DIALLED as u64 {
            c < self.connect as u64
        } else {
            c < self.take as u64
        }
    }
}
