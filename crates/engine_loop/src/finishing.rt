//! A run ends, and the engine meets a library.

ghost use Rattle.std.specs.Prelude.{◌≡◌, ◌-◌, [], ◌≤◌, ℕ, IfErr, IfOk, IsErr, Some, false, length, slice_get, true};
ghost use Rattle.std.specs.List.{All};
ghost use Rattle.engine_end.specs.Finishing.{Finishes, FinishesShort};
ghost use Rattle.engine_end.specs.Meeting.{RingsMeet, SeatsMeet};
ghost use Rattle.engine_end.specs.Records.{HasLawfulJournal, IsLeftBy};
ghost use Rattle.engine_end.specs.Room.{HasRoomFor};
ghost use Rattle.engine_loop.specs.Engines.{IsAtWork, IsEngine, until_of};
ghost use Rattle.gate_io.specs.Wire.{Door, Link};
ghost use Rattle.lease_words.specs.Views.{LibraryView};

use crate::engine::Engine;
use crate::laws::engines_stay;
use engine_end::{EngineRecord, leave};
use gate_io::NoMemory;
use lease_core::{Command, Notice};
use lease_words::LibrarySeat;
use library_desk::Shared;
use ring_links::{Head, Tail};
use std::alloc::Global;

impl Engine {
    /// Ends the run: takes the libraries' seats in, gathers each session once more with the last turn's
    /// moment, and hands out what the run leaves. What a session sends waits on its connection and isn't
    /// written.
    ///
    /// Without memory in an earlier turn each session and connection is handed out as it stood; without memory
    /// now, as it stood behind none, some or all of these gatherings. Each journal is lawful, sends and releases
    /// that only these gatherings would have shown may be missing, and no record of a new entry is handed out.
    pub fn finish(
        self,
        alloc: Global,
        shared: &Shared,
        seats: Vec<LibrarySeat>,
    ) -> Result<EngineRecord, (NoMemory, EngineRecord)>
        requires work { self.failed ≡ false → IsAtWork shared.now self }
        requires room { HasRoomFor self.sessions.desk.board self.spare }
        requires seats { All (λ (seat : LibraryView). seat.table ≡ shared.now.leases) seats.items }
        ensures finishes { IfOk result (Finishes seats.items self.lines.unkept.items self.accepted self.moment (until_of self) self.sessions) }
        ensures finishes_short { self.failed ≡ false → IfErr result (λ e. FinishesShort seats.items self.accepted self.moment (until_of self) self.sessions e.1) }
        // An engine for which memory was wanting leaves what it has.
        ensures as_it_stood { self.failed ≡ true → IfErr result (λ e. IsLeftBy self.sessions.desk.board self.sessions.strays.items self.accepted [] e.1) }
        ensures stands_still { self.failed ≡ true → IsErr result }
        ensures journals { IfOk result (λ left. All HasLawfulJournal left.sessions) }
        ensures journals_short { IfErr result (λ e. All HasLawfulJournal e.1.sessions) }
    {
        let until = self.until();
        let Engine {
            sessions,
            lines,
            spare,
            accepted,
            moment,
            failed,
            ..
        } = self;
        if failed {
            return Err((
                NoMemory::OutOfMemory,
                leave(alloc, spare, sessions, accepted),
            ));
        }
        let unkept = lines.unkept;
        engine_end::finish(
            alloc, spare, sessions, shared, seats, unkept, accepted, moment, until,
        )
    }

    /// Tells the engine and a library what the other has done: at the lease table, at the ring of the
    /// library's commands and at that of its notices. It changes no lease, lane, count, beat or item. An
    /// engine for which memory was wanting meets nobody.
    pub fn meet(
        &mut self,
        shared: &Shared,
        library: u8,
        seat: &mut LibrarySeat,
        tail: &mut Tail<Command>,
        head: &mut Head<Notice>,
    )
        requires work { self.old.failed ≡ false → IsAtWork shared.now self.old }
        requires library { (1 ≤ library) × (library ≤ length self.old.sessions.ends.items) }
        requires seat { seat.old.table ≡ shared.now.leases }
        requires tail { slice_get shared.now.commands.items (library - 1) ≡ Some tail.old.ring }
        requires head { slice_get shared.now.notices.items (library - 1) ≡ Some head.old.ring }
        ensures seats { self.old.failed ≡ false → SeatsMeet self.old.sessions.desk.seat self.new.sessions.desk.seat seat.old seat.new }
        ensures rings { self.old.failed ≡ false → RingsMeet library self.old.sessions self.new.sessions tail.old tail.new head.old head.new }
        ensures rest { self.new ≡ record self.old { sessions = record (self.old.sessions) { desk = record (self.old.sessions.desk) { seat = self.new.sessions.desk.seat }; ends = self.new.sessions.ends } } }
        ensures work { self.old.failed ≡ false → IsAtWork shared.now self.new }
        ensures engine { (door : Door) (links : ℕ → Link) → IsEngine shared.now self.old door links → IsEngine shared.now self.new door links }
        // Where memory was wanting all stays as it is.
        ensures engine_stays { self.old.failed ≡ true → self.new ≡ self.old }
        ensures seat_stays { self.old.failed ≡ true → seat.new ≡ seat.old }
        ensures tail_stays { self.old.failed ≡ true → tail.new ≡ tail.old }
        ensures head_stays { self.old.failed ≡ true → head.new ≡ head.old }
    {
        engines_stay();
        if !self.failed {
            engine_end::meet(&mut self.sessions, shared, library, seat, tail, head);
        }
    }
}
