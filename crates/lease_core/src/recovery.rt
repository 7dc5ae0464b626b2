//! A journal as it is read back, record by record, and what closes it.

ghost use Rattle.std.specs.Prelude.{◌≡◌, ◌≤◌, ◌<◌, ◌+◌, ◌++◌, ◌∷◌, [], ◌↔◌, IfOk, OnOk, IsTrue};
ghost use Rattle.lease_core.specs.State.{state_of};
ghost use Rattle.lease_core.specs.Runs.{IsNext, IsRun};

use crate::Entry;
use crate::journal::Journal;
use gate_io::NoMemory;
use std::alloc::Global;
use std::marker::Model;

/// The journal of a session as it is read back, entry by entry. Contracts see of it what they see
/// of a registry. Unlike a registry's it can end in a release whose hold is missing, where a run
/// was cut off. `Registry::resume` goes on behind it.
#[derive(Debug, Drop)]
pub struct Recovery {
    pub(crate) journal: Journal,
}

impl Model for Recovery {
    ghost use Rattle.lease_core.specs.Kept.{Kept};

    ghost Value = { Kept };

    ghost view = { λ a. a.journal };
}

impl Recovery {
    /// Nothing was read yet. The session can be granted `leases` times.
    pub fn new(alloc: Global, leases: u32) -> Result<Recovery, NoMemory>
        ensures entries { IfOk result (λ recovery. recovery.entries ≡ []) }
        ensures leases { IfOk result (λ recovery. recovery.leases ≡ leases) }
    {
        Ok(Recovery {
            journal: Journal::new(alloc, leases)?,
        })
    }

    /// All of a list of entries, each of which follows from those before it, and room for one more.
    pub fn of(alloc: Global, leases: u32, entries: &[Entry]) -> Result<Recovery, NoMemory>
        requires { IsRun leases entries.now }
        ensures entries { IfOk result (λ recovery. recovery.entries ≡ entries.now) }
        ensures leases { IfOk result (λ recovery. recovery.leases ≡ leases) }
        ensures room { IfOk result (λ recovery. 0 < recovery.spare) }
    {
        let mut recovery = Recovery::new(alloc, leases)?;
        for entry in entries {
            recovery.reserve(1)?;
            recovery.record(*entry);
        }
        recovery.reserve(1)?;
        Ok(recovery)
    }

    /// Makes room for n more entries. Many calls together take time in proportion to the entries.
    pub fn reserve(&mut self, n: usize) -> Result<(), NoMemory>
        ensures entries { self.new.entries ≡ self.old.entries }
        ensures leases { self.new.leases ≡ self.old.leases }
        ensures spare { self.old.spare ≤ self.new.spare }
        ensures room { OnOk result (n ≤ self.new.spare) }
    {
        self.journal.reserve(n)
    }

    /// Whether the entry follows from those before it. It looks at no older ones.
    pub fn accepts(&self, entry: &Entry) -> bool
        ensures { IsTrue result ↔ IsNext self.now.leases (state_of self.now.entries) entry.now }
    {
        self.journal.totals().accepts(self.journal.limit(), *entry)
    }

    /// Appends an entry that follows.
    pub fn record(&mut self, entry: Entry)
        requires room { 0 < self.old.spare }
        requires next { IsNext self.old.leases (state_of self.old.entries) entry }
        ensures entries { self.new.entries ≡ self.old.entries ++ entry ∷ [] }
        ensures leases { self.new.leases ≡ self.old.leases }
        ensures spare { self.old.spare ≤ self.new.spare + 1 }
    {
        self.journal.push(entry);
    }

    /// The entries in order. They are a lawful journal: each follows from those before it.
    pub fn entries(&self) -> &[Entry]
        ensures entries { result.now ≡ self.now.entries }
        ensures run { IsRun self.now.leases self.now.entries }
    {
        self.journal.entries()
    }
}
