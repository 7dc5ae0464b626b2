//! Whether an entry that was read may stand next.
ghost use Rattle.std.specs.Prelude.{◌≡◌, ◌+◌, ◌==◌};
ghost use Rattle.lease_core.specs.Runs.{owes_hold, is_hold};
ghost use Rattle.lease_core.specs.Accepts.{is_library, is_open, is_reserved_as, has_lease_for, refuses, is_by_owner, is_step, is_bound_to, fits_connection, accepts};

use crate::totals::Totals;
use crate::{Entry, MOST_LIBRARIES, Why};

impl Totals {
    /// Whether the entry may stand behind those that came to this, where a session can be granted
    /// `limit` times.
    pub fn accepts(&self, limit: u32, entry: Entry) -> bool
        ensures { result ≡ accepts limit self.now entry }
    {
        let fits_hold = if self.owes_hold() {
            is_hold(entry)
        } else {
            !is_hold(entry)
        };
        fits_hold && self.fits_connection(entry) && self.is_step(limit, entry)
    }

    /// Whether a hold has to follow.
    pub fn owes_hold(&self) -> bool
        ensures { result ≡ owes_hold self.now.latest }
    {
        match self.latest {
            Some(Entry::Release { heir, .. }) => 0 < heir,
            _ => false,
        }
    }

    fn fits_connection(&self, entry: Entry) -> bool
        ensures { result ≡ fits_connection self.now entry }
    {
        match entry {
            Entry::Bind { .. } => self.bound.is_none(),
            Entry::Plan { .. } => self.bound.is_some(),
            Entry::Leave { c } => is_bound_to(self.bound, c),
            Entry::Reset { .. } => matches!(self.latest, Some(Entry::Bind { .. })),
            _ => true,
        }
    }

    fn is_step(&self, limit: u32, entry: Entry) -> bool
        ensures { result ≡ is_step limit self.now entry }
    {
        match entry {
            Entry::Arrive { pos } => pos == self.inbound,
            Entry::Admin { number } => is_one_more(number, self.sent_in_series),
            Entry::Bind { .. } | Entry::Plan { .. } | Entry::Leave { .. } => true,
            Entry::Reset { series } => is_one_more(u64::from(series), u64::from(self.series)),
            Entry::Granted {
                library,
                lease,
                from,
                start,
                ..
            } => is_library(library)
                && self.has_lease_for(limit, library)
                && from <= self.inbound
                && is_one_more(u64::from(lease), u64::from(self.leases))
                && start == self.inbound,
            Entry::Refused { library, why, .. } => is_library(library)
                && self.refuses(limit, library, why),
            Entry::Send {
                lease,
                library,
                ordinal,
                number,
            } => self.is_by_owner(lease, library)
                && is_one_more(u64::from(ordinal), u64::from(self.lease.sends))
                && is_one_more(number, self.sent_in_series),
            Entry::Release {
                lease,
                library,
                count,
                heir,
            } => self.is_by_owner(lease, library)
                && count == self.lease.sends
                && heir <= MOST_LIBRARIES
                && heir != library,
            Entry::Timeout {
                lease,
                library,
                count,
            } => self.is_by_owner(lease, library) && count == self.lease.sends,
            Entry::Hold { lease, .. } => lease == self.leases,
            Entry::Lapse { lease } => self.reserved.is_some() && lease == self.leases,
        }
    }

    /// Whether the library can get the session by one lease more.
    fn has_lease_for(&self, limit: u32, library: u8) -> bool
        ensures { result ≡ has_lease_for limit self.now library }
    {
        self.owner() == 0 && is_open(self.reserved, library) && self.leases != limit
    }

    /// Whether this is the first cause for which the library doesn't get the session.
    fn refuses(&self, limit: u32, library: u8, why: Why) -> bool
        ensures { result ≡ refuses limit self.now library why }
    {
        match why {
            Why::UnknownSession { .. } => false,
            Why::OtherOwner { owner, lease } => 0 < self.owner()
                && owner == self.owner()
                && lease == self.leases,
            Why::Reserved { for_library, until } => self.owner() == 0
                && is_reserved_as(self.reserved, for_library, until)
                && for_library != library,
            Why::LeasesSpent { lease } => self.owner() == 0
                && is_open(self.reserved, library)
                && self.leases == limit
                && lease == self.leases,
            Why::MissingMessages { asked, logged } => self.has_lease_for(limit, library)
                && self.inbound < asked
                && logged == self.inbound,
        }
    }

    /// Whether the library has the session by that lease.
    fn is_by_owner(&self, lease: u32, library: u8) -> bool
        ensures { result ≡ is_by_owner self.now lease library }
    {
        0 < self.owner() && lease == self.leases && library == self.lease.library
    }
}

fn is_hold(entry: Entry) -> bool
    ensures { result ≡ is_hold entry }
{
    matches!(entry, Entry::Hold { .. })
}

fn is_one_more(n: u64, m: u64) -> bool
    ensures { result ≡ (n == m + 1) }
{
    0 < n && n - 1 == m
}

fn is_library(library: u8) -> bool
    ensures { result ≡ is_library library }
{
    1 <= library && library <= MOST_LIBRARIES
}

fn is_open(reserved: Option<(u8, u64)>, library: u8) -> bool
    ensures { result ≡ is_open reserved library }
{
    match reserved {
        Some((heir, _)) => heir == library,
        None => true,
    }
}

fn is_reserved_as(reserved: Option<(u8, u64)>, heir: u8, until: u64) -> bool
    ensures { result ≡ is_reserved_as reserved heir until }
{
    match reserved {
        Some(kept) => kept.0 == heir && kept.1 == until,
        None => false,
    }
}

fn is_bound_to(bound: Option<u32>, c: u32) -> bool
    ensures { result ≡ is_bound_to bound c }
{
    match bound {
        Some(bound) => bound == c,
        None => false,
    }
}
