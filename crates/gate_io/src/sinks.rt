//! The sink: where bytes are written to, as much at a time as it takes.

ghost use Rattle.std.specs.Prelude.{◌≡◌, ◌<◌, ◌≤◌, ℕ, List, Option, length};
ghost use Rattle.gate_io.specs.Counts.{HasRisen};
ghost use Rattle.gate_io.specs.Sink.{WroteWithin, TakesFrom};

/// What a write to a sink takes.
#[derive(Clone, Copy, Debug, PartialEq, Eq)]
pub enum Wrote {
    /// This many bytes, the first of the piece.
    Bytes(usize),
    /// The write failed, and took nothing.
    Failed,
}

/// What bytes are written to, one piece after another.
pub trait Sink {
    /// The bytes that were taken so far, where the sink tells them.
    ghost held: { Self → Option (List ℕ) };

    /// How many writes failed.
    ghost faults: { Self → ℕ };

    /// Writes the first bytes of a piece that isn't empty. `Bytes` took so many of them, at least
    /// one. `Failed` took none, and comes only where the faults rose, or stand at the end of their
    /// type; they never fall. Where the sink tells what it holds, the bytes that were taken stand
    /// behind that.
    fn write(&mut self, piece: &[u8]) -> Wrote
        requires { 0 < length piece.now }
        ensures within { WroteWithin (length piece.now) result }
        ensures content { TakesFrom (held self.old) result piece.now (held self.new) }
        ensures fault_counted { result ≡ Wrote.Failed → HasRisen (faults self.old) (faults self.new) }
        ensures faults_kept { faults self.old ≤ faults self.new };
}
