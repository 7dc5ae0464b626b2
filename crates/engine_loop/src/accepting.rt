//! One connection is accepted.

ghost use Rattle.std.specs.Prelude.{◌≡◌, ◌<◌, IfOk, OnOk, OnErr};
ghost use Rattle.engine_loop.specs.Stops.{TellsNothing};
ghost use Rattle.engine_end.specs.Room.{HasRoomFor};
ghost use Rattle.engine_loop.specs.Engines.{IsAtWork, IsOnline};
ghost use Rattle.engine_loop.specs.Turns.{AcceptsNext, AsksForConnection, at_wire};
ghost use Rattle.gate_io.specs.Wire.{Accepts};
ghost use Rattle.lease_desk.specs.Desk.{AllAgree};

use crate::engine::Engine;
use crate::laws::engines_stay;
use gate_io::{Accepted, NoMemory, Wire};
use lease_desk::laws::boards_stay_in_step;
use library_desk::Shared;
use std::alloc::Global;
use switchboard::laws::boards_go_on;
use wire_desk::dialling_goes_on;
use wire_desk::laws::{places_stay_apart, places_stay_in_order};

impl Engine {
    /// Asks the wire for a connection, where fewer were accepted than the run has.
    pub(crate) fn accept_next<W: Wire>(
        &mut self,
        alloc: Global,
        shared: &Shared,
        wire: &mut W,
    ) -> Result<Accepted, NoMemory>
        requires work { IsAtWork shared.now self.old }
        requires online { IsOnline self.old (W.door wire.old) (W.link wire.old) }
        ensures nothing { OnErr result (TellsNothing self.old self.new) }
        ensures accepts { IfOk result (λ answer. AcceptsNext answer (at_wire self.old (W.door wire.old) (W.link wire.old)) (at_wire self.new (W.door wire.new) (W.link wire.new))) }
        ensures work { OnOk result (IsAtWork shared.now self.new) }
        ensures failed { self.new.failed ≡ self.old.failed }
        ensures online { OnOk result (IsOnline self.new (W.door wire.new) (W.link wire.new)) }
        ensures agree { AllAgree self.new.sessions.desk.board self.new.sessions.desk.seat }
        ensures room { HasRoomFor self.new.sessions.desk.board self.new.spare }
    {
        if self.accepted == self.connections {
            return Ok(Accepted::Nothing);
        }
        self.ask_for_connection(alloc, shared, wire)
    }

    /// Asks the wire for a connection.
    fn ask_for_connection<W: Wire>(
        &mut self,
        alloc: Global,
        shared: &Shared,
        wire: &mut W,
    ) -> Result<Accepted, NoMemory>
        requires work { IsAtWork shared.now self.old }
        requires online { IsOnline self.old (W.door wire.old) (W.link wire.old) }
        requires due { self.old.accepted < self.old.connections }
        ensures nothing { OnErr result (TellsNothing self.old self.new) }
        ensures accepts { IfOk result (λ answer. AsksForConnection answer (at_wire self.old (W.door wire.old) (W.link wire.old)) (at_wire self.new (W.door wire.new) (W.link wire.new))) }
        ensures answer { IfOk result (λ answer. Accepts (W.door wire.old) (W.door wire.new) (W.link wire.new) answer) }
        ensures work { OnOk result (IsAtWork shared.now self.new) }
        ensures failed { self.new.failed ≡ self.old.failed }
        ensures online { OnOk result (IsOnline self.new (W.door wire.new) (W.link wire.new)) }
        ensures agree { AllAgree self.new.sessions.desk.board self.new.sessions.desk.seat }
        ensures room { HasRoomFor self.new.sessions.desk.board self.new.spare }
    {
        engines_stay();
        dialling_goes_on();
        places_stay_apart();
        places_stay_in_order();
        boards_go_on();
        boards_stay_in_step();
        let desk = &mut self.sessions.desk;
        let answer = self
            .lines
            .accept(alloc, desk, &shared.leases, wire, self.moment)?;
        if let Accepted::New(_) = answer {
            self.accepted += 1;
        }
        Ok(answer)
    }
}
