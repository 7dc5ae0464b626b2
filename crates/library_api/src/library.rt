//! The library, and what can be asked of it without a step.
ghost use Rattle.std.specs.Prelude.{◌≡◌};
ghost use Rattle.std.specs.Borrow.{Lends, sem};
ghost use Rattle.library_api.specs.Known.{new_library, with_seat, after_waiting};
ghost use Rattle.library_api.specs.Ends.{seat_after_beat};
ghost use Rattle.library_api.specs.contracts.library.Library.{the_row as library_row};
ghost use Rattle.library_api.specs.contracts.ends.LibraryEnds2.{the_row as ends_row};

use crate::ends::{LibraryEnds2, Links};
use crate::reading::{Message, Reading};
use crate::waited::{WaitKind, Waited};
use lease_words::LibrarySeat;
use std::fmt;
use std::marker::Model;

// Of how many sessions a library keeps a record. Of a session with a greater number it holds no
// lease.
pub(crate) const RECORDS: usize = 64;

/// A library of the gateway, as an application has it.
pub struct Library {
    pub(crate) ends: LibraryEnds2,
    pub(crate) asks: u32,
    pub(crate) asked: u32,
    pub(crate) unanswered: Option<u32>,
    pub(crate) readings: [Reading; RECORDS],
    pub(crate) kept: Option<Message>,
    pub(crate) waited: Waited,
}

impl Drop for Library {
    fn drop(self) {
        let Library {
            ends: _,
            asks: _,
            asked: _,
            unanswered: _,
            readings: _,
            kept: _,
            waited: _,
        } = self;
    }
}

impl Model for Library {
    ghost use Rattle.library_api.specs.Known.{Known};

    ghost Value = { Known };

    ghost use Rattle.std.specs.Prelude.{◌≡◌, ◌≤◌, length};

    ghost view = { λ l. record { asks = l.asks; asked = l.asked; unanswered = l.unanswered; readings = l.readings; kept = l.kept; ends = l.ends; waited = l.waited } };

    ghost invariant = { λ l. (l.asked ≤ l.asks) × (length l.readings ≡ 64) };
}

impl fmt::Debug for Library {
    fn fmt<W: fmt::Write>(&self, f: &mut fmt::Formatter<W>) -> fmt::Result {
        f.pad("Library { .. }")
    }
}

impl Library {
    /// A library that has done nothing, and that may make as many requests as `asks` says.
    pub fn new(ends: LibraryEnds2, asks: u32) -> Library
        ensures { result ≡ new_library ends asks }
    {
        Library {
            ends,
            asks,
            asked: 0,
            unanswered: None,
            readings: [Reading::NONE; RECORDS],
            kept: None,
            waited: Waited::new(),
        }
    }

    /// The number of the request that is unanswered.
    pub fn asking(&self) -> Option<u32>
        ensures { result ≡ self.now.unanswered }
    {
        self.unanswered
    }

    /// Lends the library's own four parts, so that they can meet the engine's.
    pub fn ends(&mut self) -> &mut LibraryEnds2
        ensures* lent { sem 𝓛 (Lends library_row ends_row self.entry result (λ w. record self.old { ends = w })) }
        ensures ends { result.now ≡ self.old.ends }
    {
        &mut self.ends
    }

    /// Gives the library's seat up, to be settled.
    pub fn seat(self) -> LibrarySeat
        ensures { result ≡ self.ends.seat }
    {
        let Library {
            ends,
            asks: _,
            asked: _,
            unanswered: _,
            readings: _,
            kept: _,
            waited: _,
        } = self;
        ends.seat
    }

    /// What the last call waited for, and how many calls in a row. Calls that change nothing, and
    /// `ends`, don't count.
    pub fn waited(&self) -> Waited
        ensures { result ≡ self.now.waited }
    {
        self.waited.copy()
    }

    /// Shows the engine that the library is alive.
    pub fn beat(&mut self, links: &Links)
        requires links { self.old.ends.seat.table ≡ links.now.leases.now }
        ensures { self.new ≡ after_waiting WaitKind.Free (with_seat self.old (seat_after_beat self.old.ends.seat)) }
    {
        links.leases.beat(&mut self.ends.seat);
        self.wait(WaitKind::Free);
    }

    // A call waited for this.
    pub(crate) fn wait(&mut self, kind: WaitKind)
        ensures { self.new ≡ after_waiting kind self.old }
    {
        self.waited.note(kind);
    }
}
