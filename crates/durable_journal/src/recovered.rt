//! The records that were read so far, with the entries of each session.

ghost use Rattle.std.specs.Prelude.{◌≡◌, ◌++◌, ◌∷◌, ◌<◌, ◌↔◌, [], length, true, false, IfOk, OnErr, IsTrue};
ghost use Rattle.lease_core.specs.Kept.{Kept};
ghost use Rattle.lease_core.specs.State.{state_of};
ghost use Rattle.lease_core.specs.Runs.{IsNext};
ghost use Rattle.durable_journal.specs.Files.{AreRuns};
ghost use Rattle.durable_journal.specs.Recovered.{ReadSoFar, AreKept, HaveSameEntries, TakesEntry, RefusesEntry};

use gate_io::NoMemory;
use lease_core::laws::entries_decide_one_by_one;
use lease_core::{Entry, Record, Recovery};
use std::alloc::Global;
use std::marker::Model;

/// Contracts see the records, and over how many sessions and leases they are.
#[derive(Debug, Drop)]
pub(crate) struct Recovered {
    records: Vec<Record>,
    recoveries: Vec<Recovery>,
    leases: u32,
}

impl Model for Recovered {
    ghost use Rattle.std.specs.Prelude.{length};
    ghost use Rattle.durable_journal.specs.Recovered.{ReadSoFar, AreKept};

    ghost Value = { ReadSoFar };

    ghost view = { λ a. record { records = a.records.items; sessions = length a.recoveries.items; leases = a.leases } };

    ghost invariant = { λ a. AreKept a.leases a.recoveries.items a.records.items };
}

impl Recovered {
    /// Nothing was read yet.
    pub(crate) fn new(alloc: Global, sessions: u16, leases: u32) -> Result<Recovered, NoMemory>
        ensures { IfOk result (λ recovered. recovered ≡ record { records = []; sessions = sessions; leases = leases }) }
    {
        Ok(Recovered {
            records: Vec::new(alloc),
            recoveries: no_entries(alloc, sessions, leases)?,
            leases,
        })
    }

    /// Takes one more record, if its session is one and its entry follows there.
    #[tactic(auto, using(crate::proofs::Kept::kept_same))]
    pub(crate) fn take(&mut self, event: Record) -> Result<bool, NoMemory>
        ensures taken { IfOk result (λ taken. taken ≡ true → (self.new).records ≡ (self.old).records ++ event ∷ []) }
        ensures refused { IfOk result (λ taken. taken ≡ false → AreRuns (self.old).sessions (self.old).leases ((self.old).records ++ event ∷ []) → ⊥) }
        ensures sessions { (self.new).sessions ≡ (self.old).sessions }
        ensures leases { (self.new).leases ≡ (self.old).leases }
    {
        entries_decide_one_by_one();
        self.records.reserve(1)?;
        if !take_entry(&mut self.recoveries, usize::from(event.s), event.entry)? {
            return Ok(false);
        }
        self.records.push(event).unwrap();
        Ok(true)
    }

    /// The entries of each session are a run.
    pub(crate) fn know_runs(&self)
        ensures { AreRuns (self.now).sessions (self.now).leases (self.now).records }
    {
        let _leases = self.leases;
    }

    pub(crate) fn into_records(self) -> Vec<Record>
        ensures { result.items ≡ self.records }
    {
        self.records
    }
}

/// No entries yet, for each session.
#[tactic(auto, using(crate::proofs::Kept::kept_none, crate::proofs::Kept::each_push))]
fn no_entries(alloc: Global, sessions: u16, leases: u32) -> Result<Vec<Recovery>, NoMemory>
    ensures len { IfOk result (λ recoveries. length recoveries.items ≡ sessions) }
    ensures kept { IfOk result (λ recoveries. AreKept leases recoveries.items []) }
{
    let mut recoveries = Vec::new(alloc);
    for s in 0..sessions {
        recoveries.push(Recovery::new(alloc, leases)?)?;
    }
    Ok(recoveries)
}

/// Takes one more entry of the session, if it is one and the entry follows there.
fn take_entry(recoveries: &mut Vec<Recovery>, s: usize, entry: Entry) -> Result<bool, NoMemory>
    ensures len { length recoveries.new.items ≡ length recoveries.old.items }
    ensures kept { OnErr result (HaveSameEntries recoveries.old.items recoveries.new.items) }
    ensures taken { IfOk result (λ taken. taken ≡ true → TakesEntry recoveries.old.items s entry recoveries.new.items) }
    ensures refused { IfOk result (λ taken. taken ≡ false → HaveSameEntries recoveries.old.items recoveries.new.items × RefusesEntry recoveries.old.items s entry) }
{
    if s >= recoveries.len() {
        return Ok(false);
    }
    recoveries[s].reserve(1)?;
    if !recoveries[s].accepts(&entry) {
        return Ok(false);
    }
    recoveries[s].record(entry);
    Ok(true)
}
