//! What a library loads of a session, and its record of it.
ghost use Rattle.std.specs.Prelude.{◌≡◌, ◌<◌, ◌≤◌, true, if◌then◌else◌};
ghost use Rattle.lease_words.specs.Leases.{held_lease, shows_lease};
ghost use Rattle.library_api.specs.Ends.{belongings};
ghost use Rattle.library_api.specs.Known.{held, holds, session_at, reading_at, with_reading};
ghost use Rattle.library_api.specs.Polls.{saw_word, saw_published, word_seen, published_seen, IsLatest, IsNewLease};

use crate::ends::Links;
use crate::library::{Library, RECORDS};
use crate::reading::Reading;
use lease_core::Word;

impl Library {
    /// The lease of a session that the library holds, or 0.
    pub(crate) fn held(&self, links: &Links, s: u16) -> u32
        requires links { self.now.ends.seat.table ≡ links.now.leases.now }
        ensures lease { result ≡ held self.now s }
        ensures session { 0 < result → s < links.now.leases.now.shape.sessions }
        ensures seated { 0 < result → held_lease (session_at self.now s).leases ≡ result }
    {
        let granted = self.granted(s);
        let seated = links.leases.held(&self.ends.seat, s);
        if granted == seated { granted } else { 0 }
    }

    // The lease of a session by the library's own record, or 0.
    fn granted(&self, s: u16) -> u32
        ensures { result ≡ (reading_at self.now s).lease }
    {
        if (s as usize) < RECORDS {
            self.readings[s as usize].lease
        } else {
            0
        }
    }

    /// Whether the library holds this lease of the session.
    pub(crate) fn holds(&self, links: &Links, s: u16, lease: u32) -> bool
        requires links { self.now.ends.seat.table ≡ links.now.leases.now }
        ensures holds { result ≡ holds self.now s lease }
        ensures session { result ≡ true → s < links.now.leases.now.shape.sessions }
    {
        lease > 0 && self.held(links, s) == lease
    }

    pub(crate) fn set_reading(&mut self, s: u16, reading: Reading)
        ensures { self.new ≡ with_reading self.old s reading }
    {
        if (s as usize) < RECORDS {
            self.readings[s as usize] = reading;
        }
    }

    /// Loads the word of a session.
    pub(crate) fn see(&mut self, links: &Links, s: u16) -> Word
        requires links { self.old.ends.seat.table ≡ links.now.leases.now }
        ensures library { self.new ≡ saw_word self.old s result }
        ensures belongings { belongings self.new.ends ≡ belongings self.old.ends }
        ensures word { word_seen self.new.ends.seat s ≡ result }
        ensures published { published_seen self.new.ends.seat s ≡ published_seen self.old.ends.seat s }
        ensures latest { IsLatest self.old.ends.seat s result }
        ensures lease { IsNewLease self.old.ends.seat s result }
        ensures held { s < links.now.leases.now.shape.sessions → held_lease (session_at self.new s).leases ≡ (if shows_lease self.old.ends.seat.knows.number result then result.lease else 0) }
    {
        links.leases.see(&mut self.ends.seat, s)
    }

    /// Loads the published count of a session.
    pub(crate) fn arrived(&mut self, links: &Links, s: u16) -> u64
        requires links { self.old.ends.seat.table ≡ links.now.leases.now }
        ensures library { self.new ≡ saw_published self.old s result }
        ensures belongings { belongings self.new.ends ≡ belongings self.old.ends }
        ensures published { published_seen self.new.ends.seat s ≡ result }
        ensures later { s < links.now.leases.now.shape.sessions → (session_at self.old s).published ≤ result }
    {
        links.leases.arrived(&mut self.ends.seat, s)
    }
}
