//! The second half of a turn, and a whole one.

ghost use Rattle.std.specs.Prelude.{◌≡◌, [], ◌∷◌, ◌≤◌, IfOk, IsErr, OnErr, OnOk, length, true, false};
ghost use Rattle.engine_loop.specs.Stops.{StopsGiving, StopsTurn};
ghost use Rattle.engine_end.specs.Room.{HasRoomFor};
ghost use Rattle.engine_loop.specs.Engines.{IsAtWork, IsEngine, IsOnline};
ghost use Rattle.engine_loop.specs.Turns.{GivesAll, GivesTurn, MakesTurn, WritesAll, at_wire};
ghost use Rattle.gate_io.specs.Clock.{TakesReadings};
ghost use Rattle.gate_io.specs.Counts.{HasRisen};
ghost use Rattle.lease_desk.specs.Desk.{AllAgree};
ghost use Rattle.wire_desk.specs.Places.{open_places};
ghost use Rattle.wire_desk.specs.Steps.{written_so_far};
ghost use Rattle.wire_desk.specs.Stops.{StopsWriting};

use crate::engine::Engine;
use crate::laws::engines_stay;
use crate::records::{Taken, Turn};
use gate_io::{Clock, Dial, NoMemory};
use library_desk::Shared;
use std::alloc::Global;
use wire_desk::laws::places_stay_apart;

impl Engine {
    /// A turn: both halves.
    pub fn turn<W: Dial, C: Clock>(
        &mut self,
        alloc: Global,
        shared: &Shared,
        wire: &mut W,
        clock: &mut C,
    ) -> Result<Turn, NoMemory>
        requires engine { IsEngine shared.now self.old (W.door wire.old) (W.link wire.old) }
        ensures turns { IfOk result (λ turn. MakesTurn (C.last clock.new) (at_wire self.old (W.door wire.old) (W.link wire.old)) (at_wire self.new (W.door wire.new) (W.link wire.new)) turn) }
        ensures clock { OnOk result (HasRisen (C.readings clock.old) (C.readings clock.new)) }
        // The clock was read once.
        ensures reading { OnOk result (C.now_gives clock.old (C.last clock.new) clock.new) }
        ensures readings { OnOk result (TakesReadings C.has_read clock.old (C.last clock.new ∷ []) clock.new) }
        ensures engine { IsEngine shared.now self.new (W.door wire.new) (W.link wire.new) }
        ensures goes_on { OnOk result (self.new.failed ≡ false) }
        ensures failed { OnErr result (self.new.failed ≡ true) }
        // Without memory the steps before one are made, and of that a beginning.
        ensures stops { self.old.failed ≡ false → OnErr result (StopsTurn (C.last clock.new) (at_wire self.old (W.door wire.old) (W.link wire.old)) self.new) }
        // An engine for which memory was wanting does nothing.
        ensures stands_still { self.old.failed ≡ true → IsErr result }
        ensures engine_stays { self.old.failed ≡ true → self.new ≡ self.old }
        ensures wire_stays { self.old.failed ≡ true → wire.new ≡ wire.old }
        ensures clock_stays { self.old.failed ≡ true → clock.new ≡ clock.old }
    {
        let taken = self.take(alloc, shared, wire, clock)?;
        let turn = self.give(shared, wire, taken)?;
        Ok(turn)
    }

    /// The second half of a turn. The length of each session's inbound log is published; each connection
    /// that isn't closed is written to, and is closed if it has ended. A session whose dialled connection ended
    /// in this turn dials no sooner than its wait behind the turn's moment. Without memory what was done stays,
    /// each event whole, and from then on the engine does nothing more.
    pub fn give<W: Dial>(
        &mut self,
        shared: &Shared,
        wire: &mut W,
        taken: Taken,
    ) -> Result<Turn, NoMemory>
        requires engine { IsEngine shared.now self.old (W.door wire.old) (W.link wire.old) }
        ensures gives { IfOk result (λ turn. GivesTurn (at_wire self.old (W.door wire.old) (W.link wire.old)) (at_wire self.new (W.door wire.new) (W.link wire.new)) taken turn) }
        ensures engine { IsEngine shared.now self.new (W.door wire.new) (W.link wire.new) }
        ensures goes_on { OnOk result (self.new.failed ≡ false) }
        ensures failed { OnErr result (self.new.failed ≡ true) }
        // Without memory so many connections are written to.
        ensures stops { self.old.failed ≡ false → OnErr result (StopsGiving (at_wire self.old (W.door wire.old) (W.link wire.old)) self.new) }
        // An engine for which memory was wanting does nothing.
        ensures stands_still { self.old.failed ≡ true → IsErr result }
        ensures engine_stays { self.old.failed ≡ true → self.new ≡ self.old }
        ensures wire_stays { self.old.failed ≡ true → wire.new ≡ wire.old }
    {
        if self.failed {
            return Err(NoMemory::OutOfMemory);
        }
        match self.give_all(shared, wire) {
            Ok(written) => Ok(Turn {
                moment: taken.moment,
                accepted: taken.accepted,
                reads: taken.reads,
                libs: taken.libs,
                written: written as u64,
            }),
            Err(NoMemory::OutOfMemory) => {
                self.failed = true;
                Err(NoMemory::OutOfMemory)
            }
        }
    }

    /// What is published and written in a turn. Answers how many bytes were written.
    fn give_all<W: Dial>(&mut self, shared: &Shared, wire: &mut W) -> Result<usize, NoMemory>
        requires work { IsAtWork shared.now self.old }
        requires online { IsOnline self.old (W.door wire.old) (W.link wire.old) }
        requires room { HasRoomFor self.old.sessions.desk.board self.old.spare }
        ensures stops { OnErr result (StopsGiving (at_wire self.old (W.door wire.old) (W.link wire.old)) self.new) }
        ensures gives { IfOk result (λ bytes. GivesAll (W.link wire.old) (W.link wire.new) self.old self.new bytes) }
        ensures door { W.door wire.new ≡ W.door wire.old }
        ensures work { OnOk result (IsAtWork shared.now self.new) }
        ensures online { OnOk result (IsOnline self.new (W.door wire.new) (W.link wire.new)) }
        ensures agree { AllAgree self.new.sessions.desk.board self.new.sessions.desk.seat }
        ensures room { HasRoomFor self.new.sessions.desk.board self.new.spare }
        ensures failed { self.new.failed ≡ self.old.failed }
    {
        self.publish_all(shared);
        let bytes = self.write_all(shared, wire)?;
        Ok(bytes)
    }

    /// Each connection that isn't closed is written to, and is closed if it has ended.
    fn write_all<W: Dial>(&mut self, shared: &Shared, wire: &mut W) -> Result<usize, NoMemory>
        requires work { IsAtWork shared.now self.old }
        requires online { IsOnline self.old (W.door wire.old) (W.link wire.old) }
        requires room { HasRoomFor self.old.sessions.desk.board self.old.spare }
        ensures stops { OnErr result (StopsWriting (open_places self.old.lines) (written_so_far self.old.sessions.desk self.old.lines.unkept.items (W.link wire.old) 0) self.new.sessions.desk) }
        ensures writes { IfOk result (λ bytes. WritesAll (W.link wire.old) (W.link wire.new) self.old self.new bytes) }
        ensures door { W.door wire.new ≡ W.door wire.old }
        ensures work { OnOk result (IsAtWork shared.now self.new) }
        ensures online { OnOk result (IsOnline self.new (W.door wire.new) (W.link wire.new)) }
        ensures agree { AllAgree self.new.sessions.desk.board self.new.sessions.desk.seat }
        ensures room { HasRoomFor self.new.sessions.desk.board self.new.spare }
        ensures failed { self.new.failed ≡ self.old.failed }
    {
        engines_stay();
        places_stay_apart();
        let desk = &mut self.sessions.desk;
        let dialler = &mut self.dialler;
        self.lines
            .write_all_open(desk, &shared.leases, dialler, wire, self.moment)
    }
}
