//! Each session hears the clock.

ghost use Rattle.std.specs.Prelude.{◌≡◌, ◌<◌, ℕ, length, OnOk, OnErr};
ghost use Rattle.engine_loop.specs.Engines.{until_of};
ghost use Rattle.engine_loop.specs.Stops.{StopsTickingAll};
ghost use Rattle.session_desk.specs.Stops.{StopsTicking};
ghost use Rattle.engine_end.specs.Room.{HasRoomFor};
ghost use Rattle.engine_loop.specs.Engines.{IsAtWork, IsOnline};
ghost use Rattle.engine_loop.specs.Turns.{TicksSession};
ghost use Rattle.gate_io.specs.Wire.{Door, Link};
ghost use Rattle.lease_desk.specs.Desk.{AllAgree, InTurn};

use crate::engine::Engine;
use crate::laws::engines_stay;
use gate_io::NoMemory;
use library_desk::Shared;
use session_desk::laws::none_comes;
use session_desk::tick;
use std::alloc::Global;
use wire_desk::laws::lines_progress;

impl Engine {
    /// Each session is gathered and hears the clock, in the order of their numbers.
    pub(crate) fn tick_all(&mut self, alloc: Global, shared: &Shared) -> Result<(), NoMemory>
        requires work { IsAtWork shared.now self.old }
        requires room { HasRoomFor self.old.sessions.desk.board self.old.spare }
        ensures stops { OnErr result (StopsTickingAll self.old self.new) }
        ensures ticks { OnOk result (InTurn TicksSession (length self.old.sessions.desk.board.sessions) self.old self.new) }
        ensures work { OnOk result (IsAtWork shared.now self.new) }
        ensures failed { self.new.failed ≡ self.old.failed }
        ensures online { OnOk result ((door : Door) (links : ℕ → Link) → IsOnline self.old door links → IsOnline self.new door links) }
        ensures agree { AllAgree self.new.sessions.desk.board self.new.sessions.desk.seat }
        ensures room { HasRoomFor self.new.sessions.desk.board self.new.spare }
        ensures count { OnOk result (length self.new.sessions.desk.board.sessions ≡ length self.old.sessions.desk.board.sessions) }
    {
        for s in 0..self.sessions.desk.board.sessions() {
            self.tick_session(alloc, shared, s as u16)?;
        }
        Ok(())
    }

    /// A session is gathered and hears the clock.
    fn tick_session(&mut self, alloc: Global, shared: &Shared, s: u16) -> Result<(), NoMemory>
        requires work { IsAtWork shared.now self.old }
        requires session { s < length self.old.sessions.desk.board.sessions }
        requires room { HasRoomFor self.old.sessions.desk.board self.old.spare }
        ensures stops { OnErr result (StopsTicking s self.old.moment (until_of self.old) self.old.sessions.desk self.new.sessions.desk) }
        ensures ticks { OnOk result (TicksSession s self.old self.new) }
        ensures work { OnOk result (IsAtWork shared.now self.new) }
        ensures failed { self.new.failed ≡ self.old.failed }
        ensures online { OnOk result ((door : Door) (links : ℕ → Link) → IsOnline self.old door links → IsOnline self.new door links) }
        ensures agree { AllAgree self.new.sessions.desk.board self.new.sessions.desk.seat }
        ensures room { HasRoomFor self.new.sessions.desk.board self.new.spare }
        ensures count { OnOk result (length self.new.sessions.desk.board.sessions ≡ length self.old.sessions.desk.board.sessions) }
    {
        none_comes();
        lines_progress();
        engines_stay();
        let until = self.until();
        let desk = &mut self.sessions.desk;
        tick(alloc, desk, &shared.leases, s, self.moment, until)?;
        Ok(())
    }
}
