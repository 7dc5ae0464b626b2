//! Recovery: the records that a file stands for, and the journal that goes on behind them.

ghost use Rattle.std.specs.Prelude.{◌≡◌, ◌≤◌, ◌+◌, ◌<◌, ℕ, List, [], length, IfOk, IfErr, OnOk, IfSome, IsErrOf};
ghost use Rattle.std.specs.Vec.{vec_len, vec_capacity};
ghost use Rattle.gate_io.specs.Counts.{HasRisen};
ghost use Rattle.durable_journal.specs.Disk.{bytes_of};
ghost use Rattle.durable_journal.specs.Files.{Stands, IsDamaged};
ghost use Rattle.durable_journal.specs.Recovered.{IsReadTo, IsReadToEnd};
ghost use Rattle.durable_journal.specs.Journal.{Keeps, IsDraft, IsFound, LeavesSame, SettlesIn};

use crate::batches::{LENGTH, take_batch};
use crate::disk::Disk;
use crate::errors::RecoverError;
use crate::journal::Journal;
use crate::limits::LONGEST_JOURNAL;
use crate::recovered::Recovered;
use crate::writing::{CLOSED, OPEN};
use lease_core::Record;
use std::alloc::Global;

/// For how many bytes of a batch there is room at first.
const FIRST_ROOM: usize = 4_096;

/// Where a file was read to: the place of the gate that isn't open, the records before it, and the
/// text of a batch that has none yet.
#[derive(Drop)]
struct Found {
    gate: u64,
    records: Vec<Record>,
    draft: Vec<u8>,
}

/// Reads the file back, over which the journal has these numbers of sessions and of leases a
/// session, and gives the journal that goes on behind its records, with all of these. A file of at
/// most one byte is given a closed gate. Whatever bytes the disk has, one of the answers below
/// comes; after an error the disk is handed back, and its bytes are as they were, but that a file of
/// at most one byte may have any one byte then.
pub fn recover<D: Disk>(
    alloc: Global,
    disk: D,
    sessions: u16,
    leases: u32,
) -> Result<(Journal<D>, Vec<Record>), (RecoverError, D)>
    // The records are those for which the file stands, and the journal keeps them.
    ensures stands { IfOk result (λ found. IfSome (D.history disk) (λ told. Stands sessions leases (bytes_of told) found.1.items)) }
    ensures keeps { IfOk result (λ found. IfSome (D.history disk) (λ told. Keeps D.history found.0 found.1.items)) }
    ensures batch { IfOk result (λ found. found.0.batch ≡ []) }
    ensures sessions { IfOk result (λ found. found.0.sessions ≡ sessions) }
    ensures leases { IfOk result (λ found. found.0.leases ≡ leases) }
    // When each error comes.
    ensures fault { IfErr result (λ e. e.0 ≡ RecoverError.DiskFault → HasRisen (D.faults disk) (D.faults e.1)) }
    ensures too_long { IfErr result (λ e. (n : ℕ) → e.0 ≡ RecoverError.TooLong n → IfSome (D.history disk) (λ told. (n ≡ length (bytes_of told)) × (LONGEST_JOURNAL < n))) }
    ensures short { OnOk result (IfSome (D.history disk) (λ told. length (bytes_of told) ≤ LONGEST_JOURNAL)) }
    ensures damaged { IfErr result (λ e. (at : ℕ) → e.0 ≡ RecoverError.BadJournal at → IfSome (D.history disk) (λ told. IsDamaged sessions leases (bytes_of told) at)) }
    ensures damaged_short { IfErr result (λ e. (at : ℕ) → e.0 ≡ RecoverError.BadJournal at → IfSome (D.history disk) (λ told. length (bytes_of told) ≤ LONGEST_JOURNAL)) }
    // Whenever a crash comes, it leaves what could be left before, or a file that stands for the same.
    ensures any_moment { IfOk result (λ found. LeavesSame sessions leases (D.history disk) (D.history found.0.disk)) }
    ensures any_moment_err { IfErr result (λ e. LeavesSame sessions leases (D.history disk) (D.history e.1)) }
    ensures faults_kept { IfOk result (λ found. D.faults disk ≤ D.faults found.0.disk) }
{
    let mut disk = disk;
    match read_back(alloc, &mut disk, sessions, leases) {
        Ok(found) => {
            let journal = Journal {
                disk,
                sessions,
                leases,
                gate: found.gate,
                waiting: Vec::new(alloc),
                text: found.draft,
            };
            Ok((journal, found.records))
        }
        Err(error) => Err((error, disk)),
    }
}

fn read_back<D: Disk>(
    alloc: Global,
    disk: &mut D,
    sessions: u16,
    leases: u32,
) -> Result<Found, RecoverError>
    ensures found { IfOk result (λ found. IfSome (D.history disk.new) (IsFound sessions leases found.gate found.records.items)) }
    ensures stands { IfOk result (λ found. IfSome (D.history disk.old) (λ told. Stands sessions leases (bytes_of told) found.records.items)) }
    ensures draft { IfOk result (λ found. IsDraft [] found.draft.items) }
    ensures room { IfOk result (λ found. vec_len found.draft < vec_capacity found.draft) }
    ensures gate_short { IfOk result (λ found. found.gate ≤ LONGEST_JOURNAL) }
    ensures fault { IsErrOf result RecoverError.DiskFault → HasRisen (D.faults disk.old) (D.faults disk.new) }
    ensures too_long { (n : ℕ) → IsErrOf result (RecoverError.TooLong n) → IfSome (D.history disk.old) (λ told. (n ≡ length (bytes_of told)) × (LONGEST_JOURNAL < n)) }
    ensures short { OnOk result (IfSome (D.history disk.old) (λ told. length (bytes_of told) ≤ LONGEST_JOURNAL)) }
    ensures damaged { (at : ℕ) → IsErrOf result (RecoverError.BadJournal at) → IfSome (D.history disk.old) (λ told. IsDamaged sessions leases (bytes_of told) at) }
    ensures damaged_short { (at : ℕ) → IsErrOf result (RecoverError.BadJournal at) → IfSome (D.history disk.old) (λ told. length (bytes_of told) ≤ LONGEST_JOURNAL) }
    ensures any_moment { LeavesSame sessions leases (D.history disk.old) (D.history disk.new) }
    ensures faults_kept { D.faults disk.old ≤ D.faults disk.new }
{
    let mut draft = Vec::with_capacity(alloc, FIRST_ROOM)?;
    draft.extend_from_slice(&[0; LENGTH])?;
    let end = settle(disk)?;
    if end <= 1 {
        return Ok(Found {
            gate: 0,
            records: Vec::new(alloc),
            draft,
        });
    }
    let (gate, records) = read_batches(alloc, disk, end, sessions, leases)?;
    Ok(Found {
        gate,
        records,
        draft,
    })
}

/// Syncs, gives a file of at most one byte a closed gate, and tells where the file ended.
fn settle<D: Disk>(disk: &mut D) -> Result<u64, RecoverError>
    ensures settles { OnOk result (SettlesIn (D.history disk.old) (D.history disk.new)) }
    ensures end { IfOk result (λ end. IfSome (D.history disk.old) (λ told. end ≡ length (bytes_of told))) }
    ensures short { IfOk result (λ end. end ≤ LONGEST_JOURNAL) }
    ensures fault { IsErrOf result RecoverError.DiskFault → HasRisen (D.faults disk.old) (D.faults disk.new) }
    ensures too_long { (n : ℕ) → IsErrOf result (RecoverError.TooLong n) → IfSome (D.history disk.old) (λ told. (n ≡ length (bytes_of told)) × (LONGEST_JOURNAL < n)) }
    ensures damaged { (n : ℕ) → IsErrOf result (RecoverError.BadJournal n) → ⊥ }
    ensures any_moment { (sessions leases : ℕ) → LeavesSame sessions leases (D.history disk.old) (D.history disk.new) }
    ensures faults_kept { D.faults disk.old ≤ D.faults disk.new }
{
    disk.sync()?;
    let end = disk.length()?;
    if end > LONGEST_JOURNAL {
        return Err(RecoverError::TooLong { length: end });
    }
    if end <= 1 {
        disk.write_at(0, &[CLOSED])?;
        disk.sync()?;
    }
    Ok(end)
}

/// Reads the first gate.
fn read_first<D: Disk>(disk: &mut D) -> Result<u8, RecoverError>
    requires some { IfSome (D.history disk.old) (λ told. 0 < length (bytes_of told)) }
    ensures nothing_done { D.history disk.new ≡ D.history disk.old }
    ensures found { IfOk result (λ first. IfSome (D.history disk.old) (λ told. IsReadTo (bytes_of told) 0 first [])) }
    ensures fault { IsErrOf result RecoverError.DiskFault → HasRisen (D.faults disk.old) (D.faults disk.new) }
    ensures too_long { (n : ℕ) → IsErrOf result (RecoverError.TooLong n) → ⊥ }
    ensures damaged { (n : ℕ) → IsErrOf result (RecoverError.BadJournal n) → ⊥ }
    ensures faults_kept { D.faults disk.old ≤ D.faults disk.new }
{
    let mut byte = [0u8; 1];
    disk.read_at(0, &mut byte)?;
    Ok(byte[0])
}

/// Reads the batches of a file that ends at `end`.
fn read_batches<D: Disk>(
    alloc: Global,
    disk: &mut D,
    end: u64,
    sessions: u16,
    leases: u32,
) -> Result<(u64, Vec<Record>), RecoverError>
    requires long { 1 < end }
    requires short { end ≤ LONGEST_JOURNAL }
    requires told { IfSome (D.history disk.old) (λ told. end ≡ length (bytes_of told)) }
    ensures nothing_done { D.history disk.new ≡ D.history disk.old }
    ensures found { IfOk result (λ found. IfSome (D.history disk.old) (λ told. IsReadToEnd sessions leases (bytes_of told) found.0 found.1.items)) }
    ensures damaged { (at : ℕ) → IsErrOf result (RecoverError.BadJournal at) → IfSome (D.history disk.old) (λ told. IsDamaged sessions leases (bytes_of told) at) }
    ensures within { IfOk result (λ found. found.0 < end) }
    ensures fault { IsErrOf result RecoverError.DiskFault → HasRisen (D.faults disk.old) (D.faults disk.new) }
    ensures too_long { (n : ℕ) → IsErrOf result (RecoverError.TooLong n) → ⊥ }
    ensures faults_kept { D.faults disk.old ≤ D.faults disk.new }
{
    let mut recovered = Recovered::new(alloc, sessions, leases)?;
    let mut text = Vec::new(alloc);
    let mut gate = 0u64;
    let mut first = read_first(disk)?;
    'batch: while first == OPEN {
        recovered.know_runs();
        let Some(next) = take_batch(alloc, disk, gate, end, &mut text, &mut recovered)? else {
            return Err(RecoverError::BadJournal { at: gate });
        };
        gate += (LENGTH + text.len()) as u64;
        first = next;
    }
    recovered.know_runs();
    Ok((gate, recovered.into_records()))
}
