//! Reading the batches of a file.

ghost use Rattle.std.specs.Prelude.{ℕ, ◌-◌, ◌≡◌, ◌≤◌, ◌+◌, ◌<◌, ◌^◌, ◌++◌, [], length, drop, true, false, IfOk, OnErr, IfSome, IfNone, IsErrOf};
ghost use Rattle.std.specs.Vec.{vec_len};
ghost use Rattle.gate_io.specs.Counts.{HasRisen};
ghost use Rattle.durable_journal.specs.Disk.{bytes_of};
ghost use Rattle.durable_journal.specs.Recovered.{IsWhole, IsCutShort, TakesBatch, TakesNone};

use crate::disk::Disk;
use crate::errors::RecoverError;
use crate::head::read_u32;
use crate::limits::LONGEST_JOURNAL;
use crate::reading::read_records;
use crate::recovered::Recovered;
use std::alloc::Global;

/// How many bytes tell the length of a batch.
pub(crate) const LENGTH: usize = 4;

/// Reads the batch behind the open gate at a place of a file that ends at `end`, with the gate
/// behind it. False where it isn't whole.
fn read_batch<D: Disk>(
    disk: &mut D,
    gate: u64,
    end: u64,
    text: &mut Vec<u8>,
) -> Result<bool, RecoverError>
    requires inside { gate < end }
    requires short { end ≤ LONGEST_JOURNAL }
    requires told { IfSome (D.history disk.old) (λ told. end ≡ length (bytes_of told)) }
    ensures nothing_done { D.history disk.new ≡ D.history disk.old }
    ensures whole { IfOk result (λ whole. whole ≡ true → IfSome (D.history disk.old) (λ told. IsWhole (drop (gate + 1) (bytes_of told)) text.new.items)) }
    ensures some { IfOk result (λ whole. whole ≡ true → 0 < vec_len text.new) }
    ensures within { IfOk result (λ whole. whole ≡ true → gate + LENGTH + vec_len text.new < end) }
    ensures cut_short { IfOk result (λ whole. whole ≡ false → IfSome (D.history disk.old) (λ told. IsCutShort (drop (gate + 1) (bytes_of told)))) }
    ensures fault_counted { IsErrOf result RecoverError.DiskFault → HasRisen (D.faults disk.old) (D.faults disk.new) }
    ensures faults_kept { D.faults disk.old ≤ D.faults disk.new }
    ensures too_long { (n : ℕ) → IsErrOf result (RecoverError.TooLong n) → ⊥ }
    ensures damaged { (n : ℕ) → IsErrOf result (RecoverError.BadJournal n) → ⊥ }
{
    let behind = end - gate - 1;
    if behind <= LENGTH as u64 {
        return Ok(false);
    }
    let mut told = [0u8; LENGTH];
    disk.read_at(gate + 1, &mut told)?;
    let (size, _) = read_u32(&told);
    if u64::from(size) >= behind - LENGTH as u64 {
        return Ok(false);
    }
    text.clear();
    text.resize(size as usize + 1, 0)?;
    disk.read_at(gate + 1 + LENGTH as u64, text.as_mut_slice())?;
    Ok(true)
}

/// Reads the batch behind the open gate and takes its records. The gate behind it, or None where no
/// whole batch of records stands there that go on from those before.
pub(crate) fn take_batch<D: Disk>(
    alloc: Global,
    disk: &mut D,
    gate: u64,
    end: u64,
    text: &mut Vec<u8>,
    recovered: &mut Recovered,
) -> Result<Option<u8>, RecoverError>
    requires inside { gate < end }
    requires short { end ≤ LONGEST_JOURNAL }
    requires told { IfSome (D.history disk.old) (λ told. end ≡ length (bytes_of told)) }
    ensures nothing_done { D.history disk.new ≡ D.history disk.old }
    ensures taken { IfOk result (λ found. IfSome found (λ next. IfSome (D.history disk.old) (λ told. TakesBatch (drop (gate + 1) (bytes_of told)) next (vec_len text.new - 1) recovered.old recovered.new))) }
    ensures none { IfOk result (λ found. IfNone found (IfSome (D.history disk.old) (λ told. TakesNone (drop (gate + 1) (bytes_of told)) recovered.old))) }
    ensures some { IfOk result (λ found. IfSome found (λ next. 0 < vec_len text.new)) }
    ensures within { IfOk result (λ found. IfSome found (λ next. gate + LENGTH + vec_len text.new < end)) }
    ensures sessions { (recovered.new).sessions ≡ (recovered.old).sessions }
    ensures leases { (recovered.new).leases ≡ (recovered.old).leases }
    ensures fault_counted { IsErrOf result RecoverError.DiskFault → HasRisen (D.faults disk.old) (D.faults disk.new) }
    ensures faults_kept { D.faults disk.old ≤ D.faults disk.new }
    ensures too_long { (n : ℕ) → IsErrOf result (RecoverError.TooLong n) → ⊥ }
    ensures damaged { (n : ℕ) → IsErrOf result (RecoverError.BadJournal n) → ⊥ }
{
    if !read_batch(disk, gate, end, text)? {
        return Ok(None);
    }
    let size = text.len() - 1;
    if !read_records(alloc, &text[..size], recovered)? {
        return Ok(None);
    }
    Ok(Some(text[size]))
}
