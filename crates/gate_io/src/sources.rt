//! The source: where bytes are read from, some at a time.

ghost use Rattle.std.specs.Prelude.{◌≡◌, ◌<◌, ◌≤◌, ℕ, List, Option, length};
ghost use Rattle.gate_io.specs.Counts.{HasRisen};
ghost use Rattle.gate_io.specs.Source.{GotWithin, GivesFrom};

/// What a read of a source gives.
#[derive(Clone, Copy, Debug, PartialEq, Eq)]
pub enum Got {
    /// This many bytes, which stand at the buffer's front.
    Bytes(usize),
    /// The source is read to its end.
    End,
    /// The read failed, and took nothing.
    Failed,
}

/// What bytes are read from, one piece after another.
pub trait Source {
    /// The bytes that are left to read, where the source tells them.
    ghost left: { Self → Option (List ℕ) };

    /// How many reads failed.
    ghost faults: { Self → ℕ };

    /// How many reads found the end.
    ghost ends: { Self → ℕ };

    /// Reads into a buffer that isn't empty. `Bytes` has put so many bytes, at least one, at the
    /// buffer's front. `End` comes only where the ends rose, and `Failed` only where the faults
    /// did, or where that count stands at the end of its type; neither falls. Where the source
    /// tells which bytes are left, those given are the first of them, the others are left, `End`
    /// comes only with none left, and `Failed` takes none. No clause says what else stands in the
    /// buffer then.
    fn read(&mut self, buf: &mut [u8]) -> Got
        requires { 0 < length buf.old }
        ensures within { GotWithin (length buf.old) result }
        ensures content { GivesFrom (left self.old) result buf.new (left self.new) }
        ensures end_counted { result ≡ Got.End → HasRisen (ends self.old) (ends self.new) }
        ensures fault_counted { result ≡ Got.Failed → HasRisen (faults self.old) (faults self.new) }
        ensures ends_kept { ends self.old ≤ ends self.new }
        ensures faults_kept { faults self.old ≤ faults self.new };
}
