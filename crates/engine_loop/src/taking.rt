//! The first half of a turn.

ghost use Rattle.std.specs.Prelude.{◌≡◌, [], ◌∷◌, IfOk, IsErr, OnErr, OnOk, true, false};
ghost use Rattle.engine_loop.specs.Stops.{StopsTaking};
ghost use Rattle.engine_end.specs.Room.{HasRoomFor};
ghost use Rattle.engine_loop.specs.Engines.{IsAtWork, IsEngine, IsOnline};
ghost use Rattle.engine_loop.specs.Turns.{TakesTurn, at_wire, with_moment};
ghost use Rattle.gate_io.specs.Clock.{TakesReadings};
ghost use Rattle.gate_io.specs.Counts.{HasRisen};
ghost use Rattle.lease_desk.specs.Desk.{AllAgree};

use crate::engine::Engine;
use crate::laws::engines_stay;
use crate::records::Taken;
use gate_io::{Clock, Dial, LAST_MOMENT, NoMemory, Rows};
use library_desk::Shared;
use std::alloc::Global;

impl Engine {
    /// The first half of a turn. Its moment is the clock's reading, at most `LAST_MOMENT`, or that of the
    /// turn before, at first that at which the engine began, where that is later. At most one connection is
    /// accepted, each session dials where that is due, each connection that stands is read and what it
    /// brings is handled, each session hears the clock, each library is served, and the new entries are
    /// noted. Without memory what was done stays: the steps before one, and of that a beginning, each act
    /// whole. From then on the engine does nothing more.
    pub fn take<W: Dial, C: Clock>(
        &mut self,
        alloc: Global,
        shared: &Shared,
        wire: &mut W,
        clock: &mut C,
    ) -> Result<Taken, NoMemory>
        requires engine { IsEngine shared.now self.old (W.door wire.old) (W.link wire.old) }
        ensures takes { IfOk result (λ taken. TakesTurn (C.last clock.new) (at_wire self.old (W.door wire.old) (W.link wire.old)) (at_wire self.new (W.door wire.new) (W.link wire.new)) taken) }
        ensures clock { OnOk result (HasRisen (C.readings clock.old) (C.readings clock.new)) }
        // The clock was read once.
        ensures reading { OnOk result (C.now_gives clock.old (C.last clock.new) clock.new) }
        ensures readings { OnOk result (TakesReadings C.has_read clock.old (C.last clock.new ∷ []) clock.new) }
        ensures engine { IsEngine shared.now self.new (W.door wire.new) (W.link wire.new) }
        ensures goes_on { OnOk result (self.new.failed ≡ false) }
        ensures failed { OnErr result (self.new.failed ≡ true) }
        // Without memory the steps before one are made, and of that a beginning.
        ensures stops { self.old.failed ≡ false → OnErr result (StopsTaking (C.last clock.new) (at_wire self.old (W.door wire.old) (W.link wire.old)) self.new) }
        // An engine for which memory was wanting does nothing.
        ensures stands_still { self.old.failed ≡ true → IsErr result }
        ensures engine_stays { self.old.failed ≡ true → self.new ≡ self.old }
        ensures wire_stays { self.old.failed ≡ true → wire.new ≡ wire.old }
        ensures clock_stays { self.old.failed ≡ true → clock.new ≡ clock.old }
    {
        if self.failed {
            return Err(NoMemory::OutOfMemory);
        }
        let reading = clock.now();
        match self.take_at(alloc, shared, wire, reading) {
            Ok(taken) => Ok(taken),
            Err(NoMemory::OutOfMemory) => {
                self.failed = true;
                Err(NoMemory::OutOfMemory)
            }
        }
    }

    /// The first half of a turn at a reading of the clock: at most one connection is accepted, each session
    /// dials where that is due, each connection that stands is read and what it brings is handled, each
    /// session hears the clock, each library is served, and the new entries are noted.
    pub(crate) fn take_at<W: Dial>(
        &mut self,
        alloc: Global,
        shared: &Shared,
        wire: &mut W,
        reading: u64,
    ) -> Result<Taken, NoMemory>
        requires work { IsAtWork shared.now self.old }
        requires online { IsOnline self.old (W.door wire.old) (W.link wire.old) }
        ensures stops { OnErr result (StopsTaking reading (at_wire self.old (W.door wire.old) (W.link wire.old)) self.new) }
        ensures takes { IfOk result (λ taken. TakesTurn reading (at_wire self.old (W.door wire.old) (W.link wire.old)) (at_wire self.new (W.door wire.new) (W.link wire.new)) taken) }
        ensures work { OnOk result (IsAtWork shared.now self.new) }
        ensures online { OnOk result (IsOnline self.new (W.door wire.new) (W.link wire.new)) }
        ensures agree { AllAgree self.new.sessions.desk.board self.new.sessions.desk.seat }
        ensures room { HasRoomFor self.new.sessions.desk.board self.new.spare }
        ensures failed { OnOk result (self.new.failed ≡ self.old.failed) }
    {
        engines_stay();
        self.set_moment(shared, reading);
        let moment = self.moment;
        let accepted = self.accept_next(alloc, shared, wire)?;
        self.dial_all(alloc, shared, wire)?;
        let reads = self.read_all(alloc, shared, wire)?;
        self.tick_all(alloc, shared)?;
        let libs = self.serve_all(alloc, shared)?;
        self.note_all()?;
        Ok(Taken {
            moment,
            accepted,
            reads: Rows::of(reads),
            libs: Rows::of(libs),
        })
    }

    /// The turn's moment is the clock's reading, at most `LAST_MOMENT`, or that of the turn before where
    /// that is later.
    fn set_moment(&mut self, _shared: &Shared, reading: u64)
        requires work { IsAtWork _shared.now self.old }
        ensures moment { self.new ≡ with_moment reading self.old }
        ensures work { IsAtWork _shared.now self.new }
    {
        self.moment = self.moment.max(reading.min(LAST_MOMENT));
    }
}
