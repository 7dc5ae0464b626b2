//! What a journal is kept on.

ghost use Rattle.std.specs.Prelude.{◌≡◌, ◌+◌, ◌≤◌, ℕ, List, [], Option, length, take, drop, IfOk, OnOk, OnErr, IfSome, IsSome};
ghost use Rattle.std.specs.Option.{option_map};
ghost use Rattle.gate_io.specs.Counts.{HasRisen};
ghost use Rattle.durable_journal.specs.Disk.{Write, Sync, History, bytes_of, after_step, FailsToWrite};

use std::error::Error;
use std::fmt;

/// A call of a disk failed.
#[derive(Clone, Copy, Debug, PartialEq, Eq)]
pub enum DiskFault {
    Failed,
}

impl fmt::Display for DiskFault {
    fn fmt<W: fmt::Write>(&self, f: &mut fmt::Formatter<W>) -> fmt::Result {
        write!(f, "the disk failed")
    }
}

impl Error for DiskFault {}

/// One file of bytes on a disk. Contracts see what was done with it, where the disk tells it, and
/// from this follows what is read and what a crash leaves at each moment: between two syncs each
/// range that was written, and the part past the old end, may hold any bytes; all others stay.
pub trait Disk {
    /// The bytes at first, and the writes and syncs since, where the disk tells them.
    ghost history: { Self → Option History };

    /// How many calls failed.
    ghost faults: { Self → ℕ };

    /// How many bytes the file has.
    fn length(&mut self) -> Result<u64, DiskFault>
        ensures length { IfOk result (λ n. IfSome (history self.old) (λ told. n ≡ length (bytes_of told))) }
        ensures nothing_done { history self.new ≡ history self.old }
        ensures fault_counted { OnErr result (HasRisen (faults self.old) (faults self.new)) }
        ensures faults_kept { faults self.old ≤ faults self.new };

    /// Fills the buffer with the bytes from a place on, all of which lie inside the file.
    fn read_at(&mut self, at: u64, buf: &mut [u8]) -> Result<(), DiskFault>
        requires inside { IfSome (history self.old) (λ told. at + length buf.old ≤ length (bytes_of told)) }
        ensures bytes { OnOk result (IfSome (history self.old) (λ told. buf.new ≡ take (length buf.old) (drop at (bytes_of told)))) }
        ensures nothing_done { history self.new ≡ history self.old }
        ensures fault_counted { OnErr result (HasRisen (faults self.old) (faults self.new)) }
        ensures faults_kept { faults self.old ≤ faults self.new };

    /// Writes the piece over what stands at a place inside the file or at its end.
    fn write_at(&mut self, at: u64, piece: &[u8]) -> Result<(), DiskFault>
        requires inside { IfSome (history self.old) (λ told. at ≤ length (bytes_of told)) }
        ensures written { OnOk result (history self.new ≡ option_map (after_step (Write at (length piece.now) piece.now)) (history self.old)) }
        ensures torn { OnErr result (FailsToWrite at (length piece.now) (history self.old) (history self.new)) }
        ensures fault_counted { OnErr result (HasRisen (faults self.old) (faults self.new)) }
        ensures faults_kept { faults self.old ≤ faults self.new };

    /// Behind it a crash leaves what is read.
    fn sync(&mut self) -> Result<(), DiskFault>
        ensures synced { OnOk result (history self.new ≡ option_map (after_step Sync) (history self.old)) }
        ensures nothing_done { OnErr result (history self.new ≡ history self.old) }
        ensures fault_counted { OnErr result (HasRisen (faults self.old) (faults self.new)) }
        ensures faults_kept { faults self.old ≤ faults self.new };
}
