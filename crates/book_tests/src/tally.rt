//! How many runs were compared, and how many entries of each kind their journals have.

use lease_core::Entry;

#[derive(Debug, Drop)]
pub struct Tally {
    pub runs: u32,
    pub entries: Entries,
}

/// Entries, by their kinds.
#[derive(Clone, Copy, Debug)]
pub struct Entries {
    arrives: u64,
    admins: u64,
    sends: u64,
    binds: u64,
    leaves: u64,
    resets: u64,
    plans: u64,
    grants: u64,
    refusals: u64,
    releases: u64,
    timeouts: u64,
    holds: u64,
    lapses: u64,
}

impl Tally {
    pub fn new() -> Tally {
        let entries = Entries {
            arrives: 0,
            admins: 0,
            sends: 0,
            binds: 0,
            leaves: 0,
            resets: 0,
            plans: 0,
            grants: 0,
            refusals: 0,
            releases: 0,
            timeouts: 0,
            holds: 0,
            lapses: 0,
        };
        Tally { runs: 0, entries }
    }

    /// Adds a run whose journal has these entries.
    pub fn add(&mut self, entries: &[Entry]) {
        self.runs = self.runs.saturating_add(1);
        for entry in entries {
            self.entries.count(entry);
        }
    }
}

impl Entries {
    fn count(&mut self, entry: &Entry) {
        let count = match entry {
            Entry::Arrive { .. } => &mut self.arrives,
            Entry::Admin { .. } => &mut self.admins,
            Entry::Send { .. } => &mut self.sends,
            Entry::Bind { .. } => &mut self.binds,
            Entry::Leave { .. } => &mut self.leaves,
            Entry::Reset { .. } => &mut self.resets,
            Entry::Plan { .. } => &mut self.plans,
            Entry::Granted { .. } => &mut self.grants,
            Entry::Refused { .. } => &mut self.refusals,
            Entry::Release { .. } => &mut self.releases,
            Entry::Timeout { .. } => &mut self.timeouts,
            Entry::Hold { .. } => &mut self.holds,
            Entry::Lapse { .. } => &mut self.lapses,
        };
        *count = count.saturating_add(1);
    }
}
