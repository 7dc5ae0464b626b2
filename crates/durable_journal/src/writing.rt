//! The two writes of a batch.

ghost use Rattle.std.specs.Prelude.{◌≡◌, ◌+◌, ◌^◌, ◌<◌, ◌≤◌, ◌∷◌, [], length, max, OnOk, OnErr, IfSome};
ghost use Rattle.std.specs.Option.{option_map};
ghost use Rattle.std.specs.Vec.{vec_len, vec_capacity};
ghost use Rattle.gate_io.specs.Counts.{HasRisen};
ghost use Rattle.durable_journal.specs.Disk.{with_piece};
ghost use Rattle.durable_journal.specs.Batches.{IsReadyFor, BatchLeaves, BatchStands, after_batch};

use crate::disk::{Disk, DiskFault};

/// The gate byte behind which a batch counts.
pub(crate) const OPEN: u8 = 1;

/// The gate byte that is written behind a batch.
pub(crate) const CLOSED: u8 = 0;

/// Writes a batch with the closed gate behind it, and then, once all that is on the disk, opens the
/// gate before it.
pub(crate) fn write_batch<D: Disk>(disk: &mut D, gate: u64, text: &[u8]) -> Result<(), DiskFault>
    requires ready { IfSome (D.history disk.old) (IsReadyFor gate) }
    requires small { gate + 1 < 2 ^ 64 }
    ensures stands { OnOk result (BatchStands gate text.now (D.history disk.old) (D.history disk.new)) }
    ensures steps { OnOk result (D.history disk.new ≡ option_map (after_batch gate text.now) (D.history disk.old)) }
    ensures any_moment { BatchLeaves gate text.now (D.history disk.old) (D.history disk.new) }
    ensures fault_counted { OnErr result (HasRisen (D.faults disk.old) (D.faults disk.new)) }
    ensures faults_kept { D.faults disk.old ≤ D.faults disk.new }
{
    disk.write_at(gate + 1, text)?;
    disk.sync()?;
    disk.write_at(gate, &[OPEN])?;
    disk.sync()?;
    Ok(())
}

/// Writes a piece over what stands at a place, into the room that the bytes have.
pub(crate) fn write_over(bytes: &mut Vec<u8>, at: usize, piece: &[u8])
    requires inside { at ≤ vec_len bytes.old }
    requires room { at + length piece.now ≤ vec_capacity bytes.old }
    ensures bytes { bytes.new.items ≡ with_piece bytes.old.items at piece.now }
    ensures len { vec_len bytes.new ≡ max (vec_len bytes.old) (at + length piece.now) }
    ensures capacity { vec_capacity bytes.old ≤ vec_capacity bytes.new }
{
    let over = piece.len().min(bytes.len() - at);
    bytes[at..at + over].copy_from_slice(&piece[..over]);
    if over < piece.len() {
        bytes.extend_from_slice(&piece[over..]).unwrap();
    }
}
