//! The journal: its entries, and what they come to.

ghost use Rattle.std.specs.Prelude.{◌≡◌, ◌≤◌, ◌<◌, ◌+◌, ◌^◌, ◌++◌, ◌∷◌, [], IfOk, OnOk, OnErr};
ghost use Rattle.std.specs.Vec.{vec_len, vec_capacity};
ghost use Rattle.lease_core.specs.State.{state_of, holdings_after, last_or, engine_from, lease_of, sent_in_series};
ghost use Rattle.lease_core.specs.Runs.{IsNext, IsRun};
ghost use Rattle.lease_core.specs.Holdings.{AreAdjoining};
ghost use Rattle.lease_core.specs.Totals.{totals_of, Counts};

use crate::totals::Totals;
use crate::{Ending, Entry, Holding, Lease};
use gate_io::NoMemory;
use std::alloc::Global;
use std::marker::Model;

/// The entries of a session in order, with the spans of ownership and what else they come to.
#[derive(Debug)]
pub struct Journal {
    entries: Vec<Entry>,
    holdings: Vec<Holding>,
    limit: u32,
    totals: Totals,
}

impl Drop for Journal {
    fn drop(self) {
        let Journal {
            entries: _,
            holdings: _,
            limit: _,
            totals: _,
        } = self;
    }
}

impl Model for Journal {
    ghost use Rattle.std.specs.Prelude.{◌-◌, min};
    ghost use Rattle.std.specs.Vec.{vec_len, vec_capacity};
    ghost use Rattle.lease_core.specs.Kept.{Kept, IsKept};

    ghost Value = { Kept };

    ghost view = { λ a. record { entries = a.entries.items; leases = a.limit; spare = min (vec_capacity a.entries - vec_len a.entries) (vec_capacity a.holdings - vec_len a.holdings) } };

    ghost invariant = { λ a. IsKept a.entries.items a.limit a.holdings.items a.totals };
}

impl Journal {
    pub fn new(alloc: Global, limit: u32) -> Result<Journal, NoMemory>
        ensures entries { IfOk result (λ journal. journal.entries ≡ []) }
        ensures leases { IfOk result (λ journal. journal.leases ≡ limit) }
    {
        let mut holdings = Vec::with_capacity(alloc, 1)?;
        holdings.push(engine_from(0)).unwrap();
        Ok(Journal {
            entries: Vec::new(alloc),
            holdings,
            limit,
            totals: Totals {
                leases: 0,
                lease: Lease::NONE,
                inbound: 0,
                series: 1,
                sent_in_series: 0,
                sent: 0,
                reserved: None,
                bound: None,
                latest: None,
            },
        })
    }

    pub fn reserve(&mut self, n: usize) -> Result<(), NoMemory>
        ensures entries { self.new.entries ≡ self.old.entries }
        ensures leases { self.new.leases ≡ self.old.leases }
        ensures spare { self.old.spare ≤ self.new.spare }
        ensures room { OnOk result (n ≤ self.new.spare) }
    {
        self.entries.reserve(n)?;
        self.holdings.reserve(n)?;
        Ok(())
    }

    pub fn entries(&self) -> &[Entry]
        ensures entries { result.now ≡ self.now.entries }
        ensures run { IsRun self.now.leases self.now.entries }
    {
        self.entries.as_slice()
    }

    pub fn holdings(&self) -> &[Holding]
        ensures holdings { result.now ≡ (state_of self.now.entries).holdings }
        ensures adjoining { AreAdjoining result.now (state_of self.now.entries).inbound }
    {
        self.holdings.as_slice()
    }

    pub fn totals(&self) -> &Totals
        ensures totals { result.now ≡ totals_of (state_of self.now.entries) }
        ensures few { result.now.sent_in_series < 2 ^ 63 }
        ensures series { 0 < result.now.series }
    {
        &self.totals
    }

    pub fn limit(&self) -> u32
        ensures limit { result ≡ self.now.leases }
        ensures few { lease_of (state_of self.now.entries) ≤ self.now.leases }
    {
        self.limit
    }

    /// Appends the entry that follows.
    pub fn push(&mut self, entry: Entry)
        requires room { 0 < self.old.spare }
        requires next { IsNext self.old.leases (state_of self.old.entries) entry }
        ensures entries { self.new.entries ≡ self.old.entries ++ entry ∷ [] }
        ensures leases { self.new.leases ≡ self.old.leases }
        ensures spare { self.old.spare ≤ self.new.spare + 1 }
    {
        record_holding(&mut self.holdings, entry, self.totals.inbound);
        self.totals.add(entry);
        self.entries.push(entry).unwrap();
    }
}

fn engine_from(at: u64) -> Holding
    ensures { result ≡ engine_from at }
{
    Holding {
        library: 0,
        lease: 0,
        from: at,
        start: at,
        end: at,
        sends: 0,
    }
}

fn record_holding(holdings: &mut Vec<Holding>, entry: Entry, inbound: u64)
    requires some { 0 < vec_len holdings.old }
    requires room { vec_len holdings.old < vec_capacity holdings.old }
    requires inbound { inbound + 1 < 2 ^ 64 }
    requires counts { Counts entry (last_or (engine_from 0) holdings.old.items) }
    ensures items { holdings.new.items ≡ holdings_after holdings.old.items inbound entry }
    ensures len { vec_len holdings.new ≤ vec_len holdings.old + 1 }
    ensures capacity { vec_capacity holdings.old ≤ vec_capacity holdings.new }
{
    match entry {
        Entry::Arrive { .. } => {
            let last = holdings.len() - 1;
            holdings[last].end = inbound + 1;
        }
        Entry::Send { ordinal, .. } => {
            let last = holdings.len() - 1;
            holdings[last].sends = ordinal;
        }
        Entry::Granted {
            library,
            lease,
            from,
            start,
            ..
        } => {
            let holding = Holding {
                library,
                lease,
                from,
                start,
                end: start,
                sends: 0,
            };
            holdings.push(holding).unwrap();
        }
        Entry::Release { .. } | Entry::Timeout { .. } => {
            holdings.push(engine_from(inbound)).unwrap();
        }
        _ => {}
    }
}
