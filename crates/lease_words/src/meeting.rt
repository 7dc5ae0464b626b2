//! How the engine and a library meet, and how a library's seat is settled.
ghost use Rattle.std.specs.Prelude.{◌≡◌, ◌≢◌, ℕ, ◌<◌, ◌≤◌, ◌∷◌};
ghost use Rattle.lease_words.specs.Views.{engine_at, library_at, heard_of};
ghost use Rattle.lease_words.specs.Tells.{HaveMetAll, IsUnderRule, engine_after_meeting, library_after_meeting, engine_session_after_meeting, library_session_after_meeting};

use crate::engine_seat::EngineSeat;
use crate::leases::Leases;
use crate::library_seat::LibrarySeat;
use crate::plays::{LibraryMoves, Meet};

impl Leases {
    /// Tells each side what the other has done, seen and was told of. It changes no lease, lane,
    /// count or beat, and may be called at any time between two other calls.
    pub fn meet(&self, engine: &mut EngineSeat, library: &mut LibrarySeat)
        requires engine { engine.old.table ≡ self.now }
        requires library { library.old.table ≡ self.now }

        // What either side knew is no newer than what the other has done.
        ensures met { HaveMetAll self.now.shape engine.old.knows library.old.knows }
        ensures engine { engine.new ≡ record engine.old { knows = engine_after_meeting engine.old.knows library.old.knows } }
        ensures library { library.new ≡ record library.old { knows = library_after_meeting engine.old.knows library.old.knows } }

        // By session: each side has the words of both, in no order of time.
        ensures engine_session { (s : ℕ) → s < self.now.shape.sessions → engine_at engine.new s ≡ engine_session_after_meeting (engine_at engine.old s) (library_at library.old s) }
        ensures library_session { (s : ℕ) → s < self.now.shape.sessions → library_at library.new s ≡ library_session_after_meeting library.old.knows.number (engine_at engine.old s) (library_at library.old s) }
        ensures heard { heard_of engine.new.knows library.old.knows.number ≡ record (heard_of engine.old.knows library.old.knows.number) { count = library.old.knows.beats } }
        ensures others { (other : ℕ) → 1 ≤ other → other ≢ library.old.knows.number → heard_of engine.new.knows other ≡ heard_of engine.old.knows other }

        // At the meeting's load the table was under its rule, which held all that both knew.
        ensures rule { IsUnderRule self.now.shape engine.old.knows library.old.knows engine.old.settled }
    {
        let shared = &self.table.shared;
        let moving = shared.split_seat::<LibraryMoves>(&mut library.seat);
        shared.join_seat::<LibraryMoves>(&mut engine.seat, moving);
        shared.load::<Meet>(&mut engine.seat, 0);
        library.seat = shared.split_seat::<LibraryMoves>(&mut engine.seat);
    }

    /// Takes a library's seat in. From the engine's next look of a session on it is known how the
    /// library's leases of that session stand in the engine's lines.
    pub fn settle(&self, seat: &mut EngineSeat, library: LibrarySeat)
        requires engine { seat.old.table ≡ self.now }
        requires library { library.table ≡ self.now }
        ensures { seat.new ≡ record seat.old { settled = library.knows ∷ seat.old.settled } }
    {
        self.table
            .shared
            .join_seat::<LibraryMoves>(&mut seat.seat, library.seat);
    }
}
