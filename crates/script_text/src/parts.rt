//! The parts of a line, each with its own fault, and which of several faults counts.

ghost use Rattle.std.specs.Prelude.{◌≡◌};
ghost use Rattle.script_text.specs.Kinds.{rank, first_fault, demand, both};

use crate::kinds::ScriptKind;

/// A part of a line, or what is wrong with it.
pub(crate) type Part<T> = Result<T, ScriptKind>;

impl ScriptKind {
    /// The place in the order in which faults count.
    fn rank(self) -> u8
        ensures { result ≡ rank self }
    {
        self as u8
    }

    /// The one of two faults that counts.
    pub(crate) fn or_first(self, other: ScriptKind) -> ScriptKind
        ensures { result ≡ first_fault self other }
    {
        if self.rank() <= other.rank() {
            self
        } else {
            other
        }
    }
}

/// The part, of which something is asked besides: this fault where it isn't so, unless another one
/// counts.
pub(crate) fn demand<T: Drop>(holds: bool, fault: ScriptKind, part: Part<T>) -> Part<T>
    ensures { result ≡ demand holds fault part }
{
    if holds {
        return part;
    }
    match part {
        Ok(_) => Err(fault),
        Err(kind) => Err(fault.or_first(kind)),
    }
}

/// Both parts, or of their faults the one that counts.
pub(crate) fn both<A: Drop, B: Drop>(first: Part<A>, second: Part<B>) -> Part<(A, B)>
    ensures { result ≡ both first second }
{
    match (first, second) {
        (Ok(first), Ok(second)) => Ok((first, second)),
        (Err(kind), Err(other)) => Err(kind.or_first(other)),
        (Err(kind), Ok(_)) | (Ok(_), Err(kind)) => Err(kind),
    }
}
