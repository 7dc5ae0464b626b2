//! A journal on a disk in memory that takes records, some at a time.

ghost use Rattle.std.specs.Prelude.{◌≤◌, length, IfOk, IfSome};
ghost use Rattle.durable_journal.specs.Disk.{bytes_of};
ghost use Rattle.journal_tests.specs.Writer.{AreLawful};

use crate::rows::one_text;
use durable_journal::laws::{beginnings_are_runs, files_hold_records, files_stand_once};
use durable_journal::{Journal, MemDisk, recover};
use gate_io::NoMemory;
use lease_core::Record;
use std::alloc::Global;
use std::marker::Model;
use std::vec::IntoIter;

/// The records whose text this is, if they are any over so many sessions and leases.
pub fn records_of(
    alloc: Global,
    texts: &[u8],
    sessions: u16,
    leases: u32,
) -> Result<Option<Vec<Record>>, NoMemory>
    ensures { IfOk result (λ found. IfSome found (λ records. AreLawful sessions leases records.items)) }
{
    files_hold_records();
    let file = one_text(alloc, texts)?;
    let disk = MemDisk::new(alloc, file, 1, 8, Vec::new(alloc))?;
    match recover(alloc, disk, sessions, leases) {
        Ok((_, records)) => Ok(Some(records)),
        Err(_) => Ok(None),
    }
}

/// A journal, and the records that it is still to take.
#[derive(Drop)]
pub struct Writer {
    journal: Journal<MemDisk>,
    rest: IntoIter<Record>,
}

impl Model for Writer {
    ghost use Rattle.std.specs.Vec.Iter.{into_iter_items};
    ghost use Rattle.durable_journal.specs.Journal.{JournalState};
    ghost use Rattle.durable_journal.specs.Memory.{MemoryState};
    ghost use Rattle.journal_tests.specs.Writer.{IsReady};

    ghost Value = { JournalState MemoryState };

    ghost view = { λ w. w.journal };

    ghost invariant = { λ w. IsReady w.journal (into_iter_items w.rest) };
}

impl Writer {
    /// A journal of no record yet, on a disk whose file has at most one byte. Where the disk fails,
    /// what is left of it.
    pub fn new(
        alloc: Global,
        disk: MemDisk,
        records: Vec<Record>,
        sessions: u16,
        leases: u32,
    ) -> Result<Writer, MemDisk>
        requires short { length (bytes_of disk.history) ≤ 1 }
        requires lawful { AreLawful sessions leases records.items }
    {
        files_stand_once();
        match recover(alloc, disk, sessions, leases) {
            Ok((journal, _)) => Ok(Writer {
                journal,
                rest: records.into_iter(),
            }),
            Err((_, disk)) => Err(disk),
        }
    }

    /// Appends the next record.
    fn append(self) -> Result<Writer, MemDisk> {
        files_stand_once();
        beginnings_are_runs();
        let Writer {
            mut journal,
            mut rest,
        } = self;
        let Some(event) = rest.next() else {
            return Ok(Writer { journal, rest });
        };
        if journal.append(event).is_err() {
            return Err(journal.into_disk());
        }
        Ok(Writer { journal, rest })
    }

    fn sync(self) -> Result<Writer, MemDisk> {
        match self.journal.sync() {
            Ok(journal) => Ok(Writer {
                journal,
                rest: self.rest,
            }),
            Err((_, disk)) => Err(disk),
        }
    }

    /// Appends the next records, so many of them, and syncs. Where the disk fails, what is left of it.
    pub fn write(self, count: usize) -> Result<Writer, MemDisk> {
        let mut writer = self;
        for _ in 0..count {
            writer = writer.append()?;
        }
        writer.sync()
    }

    /// The disk.
    pub fn into_disk(self) -> MemDisk {
        self.journal.into_disk()
    }
}
