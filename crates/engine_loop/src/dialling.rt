//! Each session dials that is due.

ghost use Rattle.std.specs.Prelude.{◌≡◌, ◌<◌, length, OnOk, OnErr};
ghost use Rattle.engine_loop.specs.Engines.{until_of};
ghost use Rattle.engine_loop.specs.Stops.{StopsCallingAll};
ghost use Rattle.engine_end.specs.Room.{HasRoomFor};
ghost use Rattle.engine_loop.specs.Engines.{IsAtWork, IsOnline};
ghost use Rattle.engine_loop.specs.Turns.{DialsSession, at_wire};
ghost use Rattle.lease_desk.specs.Desk.{AllAgree, InTurn};
ghost use Rattle.wire_desk.specs.Stops.{StopsCalling};

use crate::engine::Engine;
use crate::laws::engines_stay;
use gate_io::{Dial, NoMemory};
use library_desk::Shared;
use std::alloc::Global;
use wire_desk::laws::{places_stay_apart, places_stay_in_order};

impl Engine {
    /// Each session dials that is due, in the order of their numbers.
    pub(crate) fn dial_all<W: Dial>(
        &mut self,
        alloc: Global,
        shared: &Shared,
        wire: &mut W,
    ) -> Result<(), NoMemory>
        requires work { IsAtWork shared.now self.old }
        requires online { IsOnline self.old (W.door wire.old) (W.link wire.old) }
        ensures stops { OnErr result (StopsCallingAll (at_wire self.old (W.door wire.old) (W.link wire.old)) self.new) }
        ensures dials { OnOk result (InTurn DialsSession (length self.old.sessions.desk.board.sessions) (at_wire self.old (W.door wire.old) (W.link wire.old)) (at_wire self.new (W.door wire.new) (W.link wire.new))) }
        ensures work { OnOk result (IsAtWork shared.now self.new) }
        ensures failed { self.new.failed ≡ self.old.failed }
        ensures online { OnOk result (IsOnline self.new (W.door wire.new) (W.link wire.new)) }
        ensures agree { AllAgree self.new.sessions.desk.board self.new.sessions.desk.seat }
        ensures room { HasRoomFor self.new.sessions.desk.board self.new.spare }
    {
        for s in 0..self.sessions.desk.board.sessions() {
            self.dial_session(alloc, shared, wire, s as u16)?;
        }
        Ok(())
    }

    /// A session dials, if it is due.
    fn dial_session<W: Dial>(
        &mut self,
        alloc: Global,
        shared: &Shared,
        wire: &mut W,
        s: u16,
    ) -> Result<(), NoMemory>
        requires work { IsAtWork shared.now self.old }
        requires online { IsOnline self.old (W.door wire.old) (W.link wire.old) }
        requires session { s < length self.old.sessions.desk.board.sessions }
        ensures stops { OnErr result (StopsCalling (W.door wire.old).dialled s self.old.moment (until_of self.old) self.old.sessions.desk self.new.sessions.desk) }
        ensures dials { OnOk result (DialsSession s (at_wire self.old (W.door wire.old) (W.link wire.old)) (at_wire self.new (W.door wire.new) (W.link wire.new))) }
        ensures work { OnOk result (IsAtWork shared.now self.new) }
        ensures failed { self.new.failed ≡ self.old.failed }
        ensures online { OnOk result (IsOnline self.new (W.door wire.new) (W.link wire.new)) }
        ensures agree { AllAgree self.new.sessions.desk.board self.new.sessions.desk.seat }
        ensures room { HasRoomFor self.new.sessions.desk.board self.new.spare }
        ensures count { OnOk result (length self.new.sessions.desk.board.sessions ≡ length self.old.sessions.desk.board.sessions) }
    {
        engines_stay();
        places_stay_apart();
        places_stay_in_order();
        let until = self.until();
        let moment = self.moment;
        let desk = &mut self.sessions.desk;
        let leases = &shared.leases;
        let lines = &mut self.lines;
        self.dialler
            .dial(alloc, desk, leases, lines, wire, s, moment, until)?;
        Ok(())
    }
}
