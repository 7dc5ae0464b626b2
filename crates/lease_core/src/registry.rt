//! The registry: one call for each event of a session.

ghost use Rattle.std.specs.Prelude.{◌≡◌, ◌≢◌, ℕ, ◌≤◌, ◌<◌, ◌+◌, ◌-◌, ◌^◌, ◌++◌, ◌∷◌, [], ◌↔◌, ◌&&◌, IfOk, OnOk, IsSome, IsTrue, IsNone, None, Some, if◌then◌else◌, false};
ghost use Rattle.lease_core.specs.State.{state_of, state_after, SentMore, owner_of, lease_of, series_of, sent_in_series, sent_in_all};
ghost use Rattle.lease_core.specs.declared.event.Event.TheVariants.{Arrives, AdminSent, Binds, Plans, Leaves, Resets, Requests, Lapses};
ghost use Rattle.lease_core.specs.Steps.{step, entries_after, why_refused, entry_with, reply_to, IsLibrary, IsActive, CanTake};
ghost use Rattle.lease_core.specs.Runs.{IsRun, is_bind, owes_hold};
ghost use Rattle.lease_core.specs.Lines.{lines_of, word_of, entries_after_word, entries_after_hold, entries_after_timeout, raises, raised, missing_sends, taken_back, is_released, lines_after_reply};
ghost use Rattle.lease_core.specs.Holdings.{holdings_of, AreAdjoining};
ghost use Rattle.lease_core.specs.Showable.{IsShowable, CanTimeOut};

use crate::journal::Journal;
use crate::{Entry, Holding, Recovery, Reply, Why, Word};
use gate_io::NoMemory;
use std::alloc::Global;
use std::marker::Model;

/// What a word added to a journal: how many sends, the number in the present series that the first
/// of them has or would have, and whether the lease's end was recorded.
#[derive(Clone, Copy, Debug, PartialEq, Eq)]
pub struct Shown {
    pub first: u64,
    pub sends: u32,
    pub ended: bool,
}

/// The journal of a session. Contracts see its entries, how many leases can be given, and for how
/// many more entries it has room. A call for an event appends the one entry that follows from it
/// and from those before it; `show` and `timeout` append what the word adds, a send for each that
/// is missing and at most two entries for the lease's end. `resume` wants room for one entry,
/// whether or not a hold is missing. But for `reserve`, the steps of a call grow with the entries
/// that it appends and not with the journal, and no call but `new` and `reserve` takes memory.
#[derive(Debug, Drop)]
pub struct Registry {
    journal: Journal,
}

impl Model for Registry {
    ghost use Rattle.std.specs.Prelude.{◌≡◌, false};
    ghost use Rattle.lease_core.specs.State.{state_of};
    ghost use Rattle.lease_core.specs.Runs.{owes_hold};
    ghost use Rattle.lease_core.specs.Kept.{Kept};

    ghost Value = { Kept };

    ghost view = { λ a. a.journal };

    ghost invariant = { λ a. owes_hold (state_of a.journal.entries).latest ≡ false };
}

impl Registry {
    /// A journal with no entry. The session can be granted `leases` times.
    pub fn new(alloc: Global, leases: u32) -> Result<Registry, NoMemory>
        ensures entries { IfOk result (λ registry. registry.entries ≡ []) }
        ensures leases { IfOk result (λ registry. registry.leases ≡ leases) }
    {
        Ok(Registry {
            journal: Journal::new(alloc, leases)?,
        })
    }

    /// The registry behind entries that were read back. Where the last of them is a release whose
    /// hold is missing, that follows, and the session waits for the heir until the moment `until`.
    pub fn resume(recovery: Recovery, until: u64) -> Registry
        requires { 0 < recovery.spare }
        ensures entries { result.entries ≡ entries_after_hold until recovery.entries }
        ensures lines { lines_of result.entries ≡ lines_of recovery.entries }
        ensures leases { result.leases ≡ recovery.leases }
        ensures spare { recovery.spare ≤ result.spare + 1 }
    {
        let mut journal = recovery.journal;
        journal.hold(until);
        Registry { journal }
    }

    /// Makes room for n more entries. Many calls together take time in proportion to the entries.
    pub fn reserve(&mut self, n: usize) -> Result<(), NoMemory>
        ensures entries { self.new.entries ≡ self.old.entries }
        ensures leases { self.new.leases ≡ self.old.leases }
        ensures spare { self.old.spare ≤ self.new.spare }
        ensures room { OnOk result (n ≤ self.new.spare) }
    {
        self.journal.reserve(n)
    }

    /// An application message was accepted. Answers its position in the inbound log.
    pub fn arrive(&mut self) -> u64
        requires { 0 < self.old.spare }
        ensures entries { self.new.entries ≡ entries_after self.old.leases self.old.entries Arrives }
        ensures state { let s = state_of self.old.entries in state_of self.new.entries ≡ state_after s (step self.old.leases s Arrives) }
        ensures lines { lines_of self.new.entries ≡ lines_of self.old.entries }
        ensures pos { result ≡ (state_of self.old.entries).inbound }
        ensures leases { self.new.leases ≡ self.old.leases }
        ensures spare { self.old.spare ≤ self.new.spare + 1 }
    {
        let pos = self.journal.totals().inbound;
        self.journal.push(Entry::Arrive { pos });
        pos
    }

    /// A session message was sent. Answers its number in the present series.
    pub fn admin(&mut self) -> u64
        requires { 0 < self.old.spare }
        ensures entries { self.new.entries ≡ entries_after self.old.leases self.old.entries AdminSent }
        ensures state { let s = state_of self.old.entries in state_of self.new.entries ≡ state_after s (step self.old.leases s AdminSent) }
        ensures lines { lines_of self.new.entries ≡ lines_of self.old.entries }
        ensures logs { SentMore 1 (state_of self.old.entries) (state_of self.new.entries) }
        ensures number { result ≡ sent_in_series (state_of self.old.entries) + 1 }
        ensures leases { self.new.leases ≡ self.old.leases }
        ensures spare { self.old.spare ≤ self.new.spare + 1 }
    {
        let number = self.journal.totals().sent_in_series + 1;
        self.journal.push(Entry::Admin { number });
        number
    }

    /// The session is bound to a connection.
    pub fn bind(&mut self, c: u32)
        requires room { 0 < self.old.spare }
        requires free { (state_of self.old.entries).bound ≡ None }
        ensures entries { self.new.entries ≡ entries_after self.old.leases self.old.entries (Binds c) }
        ensures state { let s = state_of self.old.entries in state_of self.new.entries ≡ state_after s (step self.old.leases s (Binds c)) }
        ensures lines { lines_of self.new.entries ≡ lines_of self.old.entries }
        ensures leases { self.new.leases ≡ self.old.leases }
        ensures spare { self.old.spare ≤ self.new.spare + 1 }
    {
        self.journal.push(Entry::Bind { c });
    }

    /// A ResendRequest on the bound connection is answered, at a moment.
    pub fn plan(&mut self, begin: u64, last: u64, at: u64)
        requires room { 0 < self.old.spare }
        requires bound { IsSome (state_of self.old.entries).bound }
        ensures entries { self.new.entries ≡ entries_after self.old.leases self.old.entries (Plans begin last at) }
        ensures state { let s = state_of self.old.entries in state_of self.new.entries ≡ state_after s (step self.old.leases s (Plans begin last at)) }
        ensures lines { lines_of self.new.entries ≡ lines_of self.old.entries }
        ensures leases { self.new.leases ≡ self.old.leases }
        ensures spare { self.old.spare ≤ self.new.spare + 1 }
    {
        self.journal.push(Entry::Plan { begin, last, at });
    }

    /// The bound connection ended.
    pub fn leave(&mut self, c: u32)
        requires room { 0 < self.old.spare }
        requires bound { (state_of self.old.entries).bound ≡ Some c }
        ensures entries { self.new.entries ≡ entries_after self.old.leases self.old.entries (Leaves c) }
        ensures state { let s = state_of self.old.entries in state_of self.new.entries ≡ state_after s (step self.old.leases s (Leaves c)) }
        ensures lines { lines_of self.new.entries ≡ lines_of self.old.entries }
        ensures leases { self.new.leases ≡ self.old.leases }
        ensures spare { self.old.spare ≤ self.new.spare + 1 }
    {
        self.journal.push(Entry::Leave { c });
    }

    /// Both sides' numbers begin again at 1, as the Logon that bound the session asked by
    /// ResetSeqNumFlag (141). Answers the number of the new series.
    pub fn reset(&mut self) -> u32
        requires room { 0 < self.old.spare }
        requires bound { IsTrue (is_bind (state_of self.old.entries).latest) }
        requires left { series_of (state_of self.old.entries) < u32.MAX }
        ensures entries { self.new.entries ≡ entries_after self.old.leases self.old.entries Resets }
        ensures state { let s = state_of self.old.entries in state_of self.new.entries ≡ state_after s (step self.old.leases s Resets) }
        ensures lines { lines_of self.new.entries ≡ lines_of self.old.entries }
        ensures present { series_of (state_of self.new.entries) ≡ result }
        ensures none_sent { sent_in_series (state_of self.new.entries) ≡ 0 }
        ensures all { sent_in_all (state_of self.new.entries) ≡ sent_in_all (state_of self.old.entries) }
        ensures series { result ≡ series_of (state_of self.old.entries) + 1 }
        ensures leases { self.new.leases ≡ self.old.leases }
        ensures spare { self.old.spare ≤ self.new.spare + 1 }
    {
        let series = self.journal.totals().series + 1;
        self.journal.push(Entry::Reset { series });
        series
    }

    /// The heir didn't come: the session waits for it no longer.
    pub fn lapse(&mut self)
        requires room { 0 < self.old.spare }
        requires reserved { IsSome (state_of self.old.entries).reserved }
        ensures entries { self.new.entries ≡ entries_after self.old.leases self.old.entries Lapses }
        ensures state { let s = state_of self.old.entries in state_of self.new.entries ≡ state_after s (step self.old.leases s Lapses) }
        ensures lines { lines_of self.new.entries ≡ lines_of self.old.entries }
        ensures leases { self.new.leases ≡ self.old.leases }
        ensures spare { self.old.spare ≤ self.new.spare + 1 }
    {
        let lease = self.journal.totals().leases;
        self.journal.push(Entry::Lapse { lease });
    }

    /// A library asks for the session, with the inbound log from `from` on replayed to it.
    pub fn request(&mut self, library: u8, nr: u32, from: u64) -> Reply
        requires room { 0 < self.old.spare }
        requires library { IsLibrary library }
        ensures entries { self.new.entries ≡ entries_after self.old.leases self.old.entries (Requests library nr from) }
        ensures state { let s = state_of self.old.entries in state_of self.new.entries ≡ state_after s (step self.old.leases s (Requests library nr from)) }
        ensures lines { lines_of self.new.entries ≡ lines_after_reply (lines_of self.old.entries) library result }
        ensures logs { SentMore 0 (state_of self.old.entries) (state_of self.new.entries) }
        ensures reply { result ≡ reply_to self.old.leases (state_of self.old.entries) library from }
        ensures leases { self.new.leases ≡ self.old.leases }
        ensures spare { self.old.spare ≤ self.new.spare + 1 }

        // When each answer comes.
        ensures granted { let s = state_of self.old.entries in
            (result ≡ Reply.Granted (lease_of s + 1) s.inbound) ↔ (CanTake s library × (lease_of s ≢ self.old.leases) × (from ≤ s.inbound)) }
        ensures other_owner { let s = state_of self.old.entries in
            (result ≡ Reply.Refused (Why.OtherOwner (owner_of s) (lease_of s))) ↔ IsActive s }
        ensures reserved { let s = state_of self.old.entries in (for_library until : ℕ) →
            (result ≡ Reply.Refused (Why.Reserved for_library until)) ↔ ((owner_of s ≡ 0) × (s.reserved ≡ Some (for_library, until)) × (for_library ≢ library)) }
        ensures leases_spent { let s = state_of self.old.entries in
            (result ≡ Reply.Refused (Why.LeasesSpent (lease_of s))) ↔ (CanTake s library × (lease_of s ≡ self.old.leases)) }
        ensures missing { let s = state_of self.old.entries in
            (result ≡ Reply.Refused (Why.MissingMessages from s.inbound)) ↔ (CanTake s library × (lease_of s ≢ self.old.leases) × (s.inbound < from)) }
    {
        let reply = self.reply(library, from);
        self.journal.push(entry_with(library, nr, from, reply));
        reply
    }

    /// Records what a word of the last lease shows: the sends that are missing, and that the
    /// session was given back. Where that was to an heir, the session waits for that one until the
    /// moment `until`. Where the lease has ended already, nothing is recorded.
    pub fn show(&mut self, w: Word, until: u64) -> Shown
        requires room { missing_sends (lines_of self.old.entries) w + 2 ≤ self.old.spare }
        requires showable { IsShowable (lines_of self.old.entries) w }
        ensures entries { self.new.entries ≡ entries_after_hold until (entries_after_word self.old.entries w) }
        ensures lines { lines_of self.new.entries ≡ raised (lines_of self.old.entries) w }
        ensures logs { SentMore result.sends (state_of self.old.entries) (state_of self.new.entries) }
        ensures first { result.first ≡ sent_in_series (state_of self.old.entries) + 1 }
        ensures sends { result.sends ≡ (if raises (lines_of self.old.entries) w then missing_sends (lines_of self.old.entries) w else 0) }
        ensures ended { result.ended ≡ (raises (lines_of self.old.entries) w && is_released w.standing) }
        ensures active { IsActive (state_of self.old.entries) → result.ended ≡ false → IsActive (state_of self.new.entries) }
        ensures leases { self.new.leases ≡ self.old.leases }
        ensures spare { self.old.spare ≤ self.new.spare + (result.sends + (if result.ended then 2 else 0)) }
    {
        let totals = *self.journal.totals();
        let first = totals.sent_in_series + 1;
        if totals.owner() == 0 {
            return Shown {
                first,
                sends: 0,
                ended: false,
            };
        }
        Shown {
            first,
            sends: w.count - totals.lease.sends,
            ended: self.journal.record(w, until),
        }
    }

    /// Records what the old word of the last lease shows, as `show` does, and then that the engine
    /// took the session back, unless the word shows that the library gave it back before.
    pub fn timeout(&mut self, old: Word, until: u64) -> Shown
        requires room { missing_sends (lines_of self.old.entries) old + 2 ≤ self.old.spare }
        requires can_time_out { CanTimeOut (lines_of self.old.entries) old }
        ensures entries { self.new.entries ≡ entries_after_timeout old.standing (entries_after_hold until (entries_after_word self.old.entries old)) }
        ensures lines { lines_of self.new.entries ≡ taken_back old.standing (raised (lines_of self.old.entries) old) }
        ensures logs { SentMore result.sends (state_of self.old.entries) (state_of self.new.entries) }
        ensures first { result.first ≡ sent_in_series (state_of self.old.entries) + 1 }
        ensures sends { result.sends ≡ missing_sends (lines_of self.old.entries) old }
        ensures ended { IsTrue result.ended }
        ensures leases { self.new.leases ≡ self.old.leases }
        ensures spare { self.old.spare ≤ self.new.spare + (result.sends + 2) }
    {
        let shown = self.show(old, until);
        if !shown.ended {
            self.journal.time_out();
        }
        Shown {
            ended: true,
            ..shown
        }
    }

    /// The entries in order. They are a lawful journal: each follows from those before it.
    pub fn entries(&self) -> &[Entry]
        ensures entries { result.now ≡ self.now.entries }
        ensures run { IsRun self.now.leases self.now.entries }

        // They don't end in a release whose hold is missing.
        ensures settled { owes_hold (state_of self.now.entries).latest ≡ false }
    {
        self.journal.entries()
    }

    /// The spans of ownership in order. They are adjoining, and end at the inbound log's length.
    pub fn holdings(&self) -> &[Holding]
        ensures holdings { result.now ≡ holdings_of self.now.entries }
        ensures adjoining { AreAdjoining result.now (state_of self.now.entries).inbound }
    {
        self.journal.holdings()
    }

    /// The library that has the session, or 0 for the engine, and the last lease.
    pub fn owner(&self) -> (u8, u32)
        ensures owner { result.0 ≡ owner_of (state_of self.now.entries) }
        ensures lease { result.1 ≡ lease_of (state_of self.now.entries) }
    {
        let totals = self.journal.totals();
        (totals.owner(), totals.leases)
    }

    /// The length of the inbound log.
    pub fn in_len(&self) -> u64
        ensures { result ≡ (state_of self.now.entries).inbound }
    {
        self.journal.totals().inbound
    }

    /// The length of the outbound log, over all series.
    pub fn out_len(&self) -> u64
        ensures { result ≡ sent_in_all (state_of self.now.entries) }
    {
        self.journal.totals().sent
    }

    /// The present series of the outbound log, from 1, and its length.
    pub fn series(&self) -> (u32, u64)
        ensures series { result.0 ≡ series_of (state_of self.now.entries) }
        ensures len { result.1 ≡ sent_in_series (state_of self.now.entries) }
    {
        let totals = self.journal.totals();
        (totals.series, totals.sent_in_series)
    }

    /// The library for which the session waits, and until when.
    pub fn reserved(&self) -> Option<(u8, u64)>
        ensures { result ≡ (state_of self.now.entries).reserved }
    {
        self.journal.totals().reserved
    }

    /// The connection to which the session is bound.
    pub fn bound(&self) -> Option<u32>
        ensures { result ≡ (state_of self.now.entries).bound }
    {
        self.journal.totals().bound
    }

    /// The word that the journal comes to.
    pub fn word(&self) -> Word
        ensures { result ≡ word_of (lines_of self.now.entries) }
    {
        self.journal.totals().word()
    }

    /// The answer to a request.
    fn reply(&self, library: u8, from: u64) -> Reply
        ensures { result ≡ reply_to self.now.leases (state_of self.now.entries) library from }
    {
        if let Some(why) = self.why_refused(library, from) {
            return Reply::Refused(why);
        }
        let totals = self.journal.totals();
        Reply::Granted {
            lease: totals.leases + 1,
            start: totals.inbound,
        }
    }

    /// The first cause that applies for which the library doesn't get the session.
    #[tactic(auto, unfolding(crate::specs::Steps::why_refused))]
    fn why_refused(&self, library: u8, from: u64) -> Option<Why>
        ensures why { result ≡ why_refused self.now.leases (state_of self.now.entries) library from }
        ensures next { IsNone result → lease_of (state_of self.now.entries) + 1 < 2 ^ 32 }
    {
        let totals = self.journal.totals();
        let owner = totals.owner();
        let lease = totals.leases;
        if owner > 0 {
            return Some(Why::OtherOwner { owner, lease });
        }
        if let Some((for_library, until)) = totals.reserved {
            if for_library != library {
                return Some(Why::Reserved { for_library, until });
            }
        }
        if lease == self.journal.limit() {
            return Some(Why::LeasesSpent { lease });
        }
        if totals.inbound < from {
            return Some(Why::MissingMessages {
                asked: from,
                logged: totals.inbound,
            });
        }
        None
    }
}

/// The entry of a request with its answer.
fn entry_with(library: u8, nr: u32, from: u64, reply: Reply) -> Entry
    ensures { result ≡ entry_with library nr from reply }
{
    match reply {
        Reply::Granted { lease, start } => Entry::Granted {
            library,
            nr,
            lease,
            from,
            start,
        },
        Reply::Refused(why) => Entry::Refused { library, nr, why },
    }
}
