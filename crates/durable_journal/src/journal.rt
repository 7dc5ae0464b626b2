//! The journal: records wait in a batch, and a sync puts the batch on the disk.

ghost use Rattle.std.specs.Prelude.{◌≡◌, ◌≢◌, ◌≤◌, ◌+◌, ◌<◌, ◌↔◌, ◌++◌, ◌∷◌, ℕ, List, [], length, drop, Err, IfOk, IfErr, OnOk, OnErr, IsOk};
ghost use Rattle.std.specs.Int.{to_be_bytes, w32};
ghost use Rattle.std.specs.Option.{option_map};
ghost use Rattle.std.specs.Vec.{vec_len, vec_capacity};
ghost use Rattle.gate_io.specs.Counts.{HasRisen};
ghost use Rattle.lease_core.specs.declared.record.Record.{Record};
ghost use Rattle.durable_journal.specs.Disk.{CrashesLeaveIn};
ghost use Rattle.durable_journal.specs.Records.{IsRecord};
ghost use Rattle.durable_journal.specs.Batches.{after_batch};
ghost use Rattle.durable_journal.specs.Files.{AreRuns, batch_text};
ghost use Rattle.durable_journal.specs.Journal.{Keeps, file_end, IsBeforeOrBehind};

use crate::batches::LENGTH;
use crate::disk::{Disk, DiskFault};
use crate::errors::AppendError;
use crate::head::RECORD_HEAD;
use crate::limits::LONGEST_JOURNAL;
use crate::reading::put_record;
use crate::writing::{CLOSED, write_batch, write_over};
use lease_core::Record;
use std::marker::Model;

/// A journal of all sessions in one file. Contracts see its disk, the numbers of sessions and of
/// leases a session that it is over, the place of the closed gate behind the records that are kept,
/// and the batch that waits.
#[derive(Debug, Drop)]
pub struct Journal<D: Disk> {
    pub(crate) disk: D,
    pub(crate) sessions: u16,
    pub(crate) leases: u32,
    pub(crate) gate: u64,
    pub(crate) waiting: Vec<Record>,
    pub(crate) text: Vec<u8>,
}

impl<D: Disk> Model for Journal<D> {
    ghost use Rattle.std.specs.Prelude.{◌≤◌, ◌<◌, IfSome};
    ghost use Rattle.std.specs.Vec.{vec_len, vec_capacity};
    ghost use Rattle.durable_journal.specs.declared.limits.TheConstants.{LONGEST_JOURNAL};
    ghost use Rattle.durable_journal.specs.Journal.{JournalState, IsAtRest, IsDraft, IsWithin};

    ghost Value = { JournalState D };

    ghost view = { λ a. record { disk = a.disk; sessions = a.sessions; leases = a.leases; gate = a.gate; batch = a.waiting.items } };

    ghost invariant = { λ a. IfSome (D.history a.disk) (IsAtRest a.sessions a.leases a.gate a.waiting.items) × IsDraft a.waiting.items a.text.items × IsWithin a.gate a.waiting.items a.text.items × (a.gate ≤ LONGEST_JOURNAL) × (vec_len a.text < vec_capacity a.text) };
}

impl<D: Disk> Journal<D> {
    /// Takes a record into the waiting batch. It is one of the format's table, and the entries of
    /// its session with it are a run over the journal's numbers of sessions and leases. After an
    /// error nothing is changed.
    pub fn append(&mut self, event: Record) -> Result<(), AppendError>
        requires is_record { IsRecord event }
        requires run { (kept : List Record) → Keeps D.history self.old kept → AreRuns (self.old).sessions (self.old).leases (kept ++ ((self.old).batch ++ event ∷ [])) }
        ensures ok { OnOk result ((self.new).batch ≡ (self.old).batch ++ event ∷ []) }
        ensures err { OnErr result ((self.new).batch ≡ (self.old).batch) }
        ensures disk { (self.new).disk ≡ (self.old).disk }
        ensures sessions { (self.new).sessions ≡ (self.old).sessions }
        ensures leases { (self.new).leases ≡ (self.old).leases }
        ensures gate { (self.new).gate ≡ (self.old).gate }
        ensures full { (n : ℕ) → (result ≡ Err (AppendError.Full n)) ↔ ((n ≡ file_end (self.old).gate ((self.old).batch ++ event ∷ [])) × (LONGEST_JOURNAL < n)) }
    {
        let length = self.length_with(&event);
        if length > LONGEST_JOURNAL {
            return Err(AppendError::Full { length });
        }
        self.waiting.reserve(1)?;
        self.text
            .reserve(RECORD_HEAD + event.body.as_slice().len() + 1)?;
        put_record(&mut self.text, &event);
        self.waiting.push(event).unwrap();
        Ok(())
    }

    /// How many bytes the file would have with one record more in the waiting batch.
    fn length_with(&self, event: &Record) -> u64
        ensures { result ≡ file_end (self.now).gate ((self.now).batch ++ event.now ∷ []) }
    {
        let body = event.body.as_slice().len();
        self.gate + 1 + self.text.len() as u64 + 1 + RECORD_HEAD as u64 + body as u64
    }

    /// Puts the waiting batch on the disk: its bytes behind the closed gate, a sync, the gate
    /// opened in a write of its own, and a sync. Whenever a crash comes, it leaves the records
    /// before, or these and the whole batch. After a fault the file is opened again, by `recover`.
    pub fn sync(self) -> Result<Journal<D>, (DiskFault, D)>
        // The records that were kept, and the batch behind them, are kept now.
        ensures kept { IfOk result (λ journal. (kept : List Record) → Keeps D.history self kept → Keeps D.history journal (kept ++ self.batch)) }
        ensures batch { IfOk result (λ journal. journal.batch ≡ []) }
        ensures sessions { IfOk result (λ journal. journal.sessions ≡ self.sessions) }
        ensures leases { IfOk result (λ journal. journal.leases ≡ self.leases) }
        // An empty batch makes no call of the disk.
        ensures idle { self.batch ≡ [] → IfOk result (λ journal. journal.disk ≡ self.disk) × IsOk result }
        // The batch is written with a closed gate at its end and synced, and so is then the gate.
        ensures steps { IfOk result (λ journal. self.batch ≢ [] → D.history journal.disk ≡ option_map (after_batch self.gate (batch_text self.batch ++ 0 ∷ [])) (D.history self.disk)) }
        ensures any_moment { IfOk result (λ journal. (kept : List Record) → Keeps D.history self kept → CrashesLeaveIn (IsBeforeOrBehind self.sessions self.leases kept self.batch) (D.history self.disk) (D.history journal.disk)) }
        ensures any_moment_err { IfErr result (λ e. (kept : List Record) → Keeps D.history self kept → CrashesLeaveIn (IsBeforeOrBehind self.sessions self.leases kept self.batch) (D.history self.disk) (D.history e.1)) }
        ensures fault_counted { IfErr result (λ e. HasRisen (D.faults self.disk) (D.faults e.1)) }
        ensures faults_kept { IfOk result (λ journal. D.faults self.disk ≤ D.faults journal.disk) }
    {
        if self.waiting.is_empty() {
            return Ok(self);
        }
        let mut disk = self.disk;
        let mut waiting = self.waiting;
        let mut text = self.text;
        seal(&mut text);
        if let Err(fault) = write_batch(&mut disk, self.gate, text.as_slice()) {
            return Err((fault, disk));
        }
        let gate = self.gate + text.len() as u64;
        waiting.clear();
        text.truncate(LENGTH);
        Ok(Journal {
            disk,
            sessions: self.sessions,
            leases: self.leases,
            gate,
            waiting,
            text,
        })
    }

    /// The disk. What waits is dropped.
    pub fn into_disk(self) -> D
        ensures { result ≡ self.disk }
    {
        self.disk
    }
}

/// Tells the length of the batch before it, and closes the gate behind it.
fn seal(text: &mut Vec<u8>)
    requires four { LENGTH ≤ vec_len text.old }
    requires short { vec_len text.old ≤ LONGEST_JOURNAL }
    requires room { vec_len text.old < vec_capacity text.old }
    ensures text { text.new.items ≡ to_be_bytes w32 (length (drop LENGTH text.old.items)) ++ (drop LENGTH text.old.items ++ 0 ∷ []) }
    ensures len { vec_len text.new ≡ vec_len text.old + 1 }
    ensures capacity { vec_capacity text.old ≤ vec_capacity text.new }
{
    let size = (text.len() - LENGTH) as u32;
    write_over(text, 0, &size.to_be_bytes());
    text.push(CLOSED).unwrap();
}
