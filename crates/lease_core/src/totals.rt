//! What the entries so far come to, as far as the next one depends on it.

ghost use Rattle.std.specs.Prelude.{◌≡◌, ◌+◌, ◌<◌, ◌^◌, None};
ghost use Rattle.lease_core.specs.Totals.{numbers_after, totals_after};
ghost use Rattle.lease_core.specs.State.{owner_in, heir_in, bound_after};
ghost use Rattle.lease_core.specs.Lines.{word_by, line_of};
ghost use Rattle.lease_core.specs.declared.lease.Ending.TheVariants.{Running};

use crate::{Ending, Entry, Lease, Standing, Word};

/// What the entries so far come to, as far as the next one depends on it.
#[derive(Clone, Copy, Debug)]
pub struct Totals {
    pub leases: u32,
    pub lease: Lease,
    pub inbound: u64,
    pub series: u32,
    pub sent_in_series: u64,
    pub sent: u64,
    pub reserved: Option<(u8, u64)>,
    pub bound: Option<u32>,
    pub latest: Option<Entry>,
}

impl Totals {
    /// The library that has the session, or 0 for the engine.
    pub fn owner(&self) -> u8
        ensures { result ≡ owner_in self.now.lease.ending self.now.lease.library }
    {
        match self.lease.ending {
            Ending::Running => self.lease.library,
            Ending::GivenBack { .. } | Ending::TakenBack => 0,
        }
    }

    /// The heir of the last lease, or 0.
    pub fn heir(&self) -> u8
        ensures { result ≡ heir_in self.now.lease.ending }
    {
        match self.lease.ending {
            Ending::GivenBack { heir } => heir,
            Ending::Running | Ending::TakenBack => 0,
        }
    }

    /// The word that the last lease stands for.
    pub fn word(&self) -> Word
        ensures { result ≡ word_by self.now.leases (line_of self.now.lease) }
    {
        let lease = self.lease;
        let (owner, standing) = match lease.ending {
            Ending::Running => (lease.library, Standing::Active),
            Ending::GivenBack { heir: 0 } => (lease.library, Standing::Released),
            Ending::GivenBack { heir } => (heir, Standing::Released),
            Ending::TakenBack => (lease.library, Standing::Revoked),
        };
        Word {
            lease: self.leases,
            owner,
            standing,
            count: lease.sends,
        }
    }

    /// One entry more.
    pub fn add(&mut self, entry: Entry)
        requires inbound { self.old.inbound + 1 < 2 ^ 64 }
        requires sent { self.old.sent + 1 < 2 ^ 64 }
        ensures { self.new ≡ totals_after self.old entry }
    {
        self.add_numbers(entry);
        self.bound = bound_after(self.bound, entry);
        self.latest = Some(entry);
    }

    fn add_numbers(&mut self, entry: Entry)
        requires inbound { self.old.inbound + 1 < 2 ^ 64 }
        requires sent { self.old.sent + 1 < 2 ^ 64 }
        ensures { self.new ≡ numbers_after self.old entry }
    {
        match entry {
            Entry::Arrive { .. } => self.inbound += 1,
            Entry::Admin { number } => self.add_number(number),
            Entry::Reset { series } => {
                self.series = series;
                self.sent_in_series = 0;
            }
            Entry::Granted {
                library,
                lease,
                from,
                start,
                ..
            } => self.begin_lease(lease, library, from, start),
            Entry::Send {
                ordinal,
                number,
                ..
            } => {
                self.lease.sends = ordinal;
                self.add_number(number);
            }
            Entry::Release { heir, .. } => self.lease.ending = Ending::GivenBack { heir },
            Entry::Timeout { .. } => self.lease.ending = Ending::TakenBack,
            Entry::Hold { until, .. } => self.reserved = Some((self.heir(), until)),
            Entry::Lapse { .. } => self.reserved = None,
            Entry::Bind { .. } | Entry::Plan { .. } | Entry::Leave { .. } | Entry::Refused { .. } =>
                {}
        }
    }

    fn begin_lease(&mut self, nr: u32, library: u8, from: u64, start: u64)
        ensures { self.new ≡ record self.old { leases = nr; lease = record { library = library; from = from; start = start; sends = 0; ending = Running }; reserved = None } }
    {
        self.leases = nr;
        self.lease = Lease {
            library,
            from,
            start,
            ..Lease::NONE
        };
        self.reserved = None;
    }

    fn add_number(&mut self, number: u64)
        requires { self.old.sent + 1 < 2 ^ 64 }
        ensures { self.new ≡ record self.old { sent_in_series = number; sent = self.old.sent + 1 } }
    {
        self.sent_in_series = number;
        self.sent += 1;
    }
}

fn bound_after(bound: Option<u32>, entry: Entry) -> Option<u32>
    ensures { result ≡ bound_after bound entry }
{
    match entry {
        Entry::Bind { c } => Some(c),
        Entry::Leave { .. } => None,
        _ => bound,
    }
}
