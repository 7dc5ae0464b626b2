//! What each event adds to a journal.

ghost use Rattle.std.specs.Prelude.{◌≡◌, ◌≤◌, ◌<◌, ◌+◌, ◌^◌, ◌⊎◌, false, if◌then◌else◌};
ghost use Rattle.lease_core.specs.State.{state_of, last_lease};
ghost use Rattle.lease_core.specs.Steps.{IsActive, IsLibrary};
ghost use Rattle.lease_core.specs.Runs.{owes_hold};
ghost use Rattle.lease_core.specs.Kept.{IsCurrent};
ghost use Rattle.lease_core.specs.Lines.{entries_after_send, entries_after_sends, entries_after_release, entries_after_standing, heir_named, entries_after_hold, news_count, is_released, entries_after_timeout};

use crate::journal::Journal;
use crate::{Entry, Standing, Word};

impl Journal {
    /// The next send of the last lease.
    fn send(&mut self)
        requires room { 0 < self.old.spare }
        requires active { IsActive (state_of self.old.entries) }
        requires settled { owes_hold (state_of self.old.entries).latest ≡ false }
        requires fits { (last_lease (state_of self.old.entries).leases).sends + 1 < 2 ^ 32 }
        ensures entries { self.new.entries ≡ entries_after_send self.old.entries }
        ensures leases { self.new.leases ≡ self.old.leases }
        ensures spare { self.old.spare ≤ self.new.spare + 1 }
    {
        let totals = *self.totals();
        self.push(Entry::Send {
            lease: totals.leases,
            library: totals.lease.library,
            ordinal: totals.lease.sends + 1,
            number: totals.sent_in_series + 1,
        });
    }

    /// The next n sends of the last lease.
    pub fn send_times(&mut self, n: u32)
        requires room { n ≤ self.old.spare }
        requires active { IsActive (state_of self.old.entries) }
        requires settled { owes_hold (state_of self.old.entries).latest ≡ false }
        requires fits { (last_lease (state_of self.old.entries).leases).sends + n < 2 ^ 32 }
        ensures entries { self.new.entries ≡ entries_after_sends n self.old.entries }
        ensures leases { self.new.leases ≡ self.old.leases }
        ensures spare { self.old.spare ≤ self.new.spare + n }
    {
        for _ in 0..n {
            self.send();
        }
    }

    /// The library gives the session back, to whom the owner of its word says.
    fn release(&mut self, owner: u8)
        requires room { 0 < self.old.spare }
        requires active { IsActive (state_of self.old.entries) }
        requires settled { owes_hold (state_of self.old.entries).latest ≡ false }
        requires owner { (owner ≡ (last_lease (state_of self.old.entries).leases).library) ⊎ IsLibrary owner }
        ensures entries { self.new.entries ≡ entries_after_release owner self.old.entries }
        ensures leases { self.new.leases ≡ self.old.leases }
        ensures spare { self.old.spare ≤ self.new.spare + 1 }
    {
        let totals = *self.totals();
        let library = totals.lease.library;
        let heir = heir_named(owner, library);
        self.push(Entry::Release {
            lease: totals.leases,
            library,
            count: totals.lease.sends,
            heir,
        });
    }

    /// The library gives the session back, and the session waits for the heir, if there is one.
    pub fn give_back(&mut self, owner: u8, until: u64)
        requires room { 2 ≤ self.old.spare }
        requires active { IsActive (state_of self.old.entries) }
        requires settled { owes_hold (state_of self.old.entries).latest ≡ false }
        requires owner { (owner ≡ (last_lease (state_of self.old.entries).leases).library) ⊎ IsLibrary owner }
        ensures entries { self.new.entries ≡ entries_after_hold until (entries_after_release owner self.old.entries) }
        ensures leases { self.new.leases ≡ self.old.leases }
        ensures spare { self.old.spare ≤ self.new.spare + 2 }
        ensures settled { owes_hold (state_of self.new.entries).latest ≡ false }
    {
        self.release(owner);
        self.hold(until);
    }

    /// The hold follows where it is missing.
    pub fn hold(&mut self, until: u64)
        requires room { 0 < self.old.spare }
        ensures entries { self.new.entries ≡ entries_after_hold until self.old.entries }
        ensures leases { self.new.leases ≡ self.old.leases }
        ensures spare { self.old.spare ≤ self.new.spare + 1 }
        ensures settled { owes_hold (state_of self.new.entries).latest ≡ false }
    {
        let totals = *self.totals();
        if totals.owes_hold() {
            self.push(Entry::Hold {
                lease: totals.leases,
                until,
            });
        }
    }

    /// What a word shows of the active lease: its sends, and that the library gave the session
    /// back, if it did. Answers whether it did.
    pub fn record(&mut self, w: Word, until: u64) -> bool
        requires room { news_count self.old.entries w + 2 ≤ self.old.spare }
        requires active { IsActive (state_of self.old.entries) }
        requires settled { owes_hold (state_of self.old.entries).latest ≡ false }
        requires current { IsCurrent (state_of self.old.entries) w }
        ensures entries { self.new.entries ≡ entries_after_hold until (entries_after_standing w.standing w.owner (entries_after_sends (news_count self.old.entries w) self.old.entries)) }
        ensures ended { result ≡ is_released w.standing }
        ensures leases { self.new.leases ≡ self.old.leases }
        ensures spare { self.old.spare ≤ self.new.spare + (news_count self.old.entries w + (if is_released w.standing then 2 else 0)) }
        ensures settled { owes_hold (state_of self.new.entries).latest ≡ false }
    {
        let count = w.count;
        let recorded = self.totals().lease.sends;
        self.send_times(count - recorded);
        match w.standing {
            Standing::Released => {
                self.give_back(w.owner, until);
                true
            }
            Standing::Active | Standing::Revoked => false,
        }
    }

    /// The engine takes the session back.
    pub fn time_out(&mut self)
        requires room { 0 < self.old.spare }
        requires active { IsActive (state_of self.old.entries) }
        requires settled { owes_hold (state_of self.old.entries).latest ≡ false }
        ensures entries { self.new.entries ≡ entries_after_timeout Standing.Active self.old.entries }
        ensures leases { self.new.leases ≡ self.old.leases }
        ensures spare { self.old.spare ≤ self.new.spare + 1 }
        ensures settled { owes_hold (state_of self.new.entries).latest ≡ false }
    {
        let totals = *self.totals();
        self.push(Entry::Timeout {
            lease: totals.leases,
            library: totals.lease.library,
            count: totals.lease.sends,
        });
    }
}

/// Whom a released word's owner names as the heir of that library's lease.
fn heir_named(owner: u8, library: u8) -> u8
    ensures { result ≡ heir_named owner library }
{
    if owner == library { 0 } else { owner }
}
