//! Each library is served.

ghost use Rattle.std.specs.Prelude.{◌≡◌, ◌≤◌, ◌+◌, ℕ, [], length, IfOk, OnOk, OnErr};
ghost use Rattle.engine_loop.specs.Stops.{StopsServingAll};
ghost use Rattle.library_desk.specs.Owners.{AreOwners};
ghost use Rattle.library_desk.specs.Stops.{StopsServing};
ghost use Rattle.engine_end.specs.Room.{HasRoomFor};
ghost use Rattle.engine_loop.specs.Engines.{IsAtWork, IsOnline, until_of};
ghost use Rattle.engine_loop.specs.Turns.{ServesOne, serving_of};
ghost use Rattle.gate_io.specs.Wire.{Door, Link};
ghost use Rattle.lease_desk.specs.Desk.{AllAgree, InTurn};
ghost use Rattle.library_desk.specs.Serving.{Serves};

use crate::engine::Engine;
use crate::laws::engines_stay;
use gate_io::NoMemory;
use library_desk::laws::serving_happens;
use library_desk::{LibTurn, Owners, Shared};
use std::alloc::Global;
use switchboard::laws::{boards_go_on, boards_stay_ready};
use wire_desk::laws::lines_progress;

impl Engine {
    /// Each library is served, in the order of their numbers. Answers what became of their commands.
    pub(crate) fn serve_all(
        &mut self,
        alloc: Global,
        shared: &Shared,
    ) -> Result<Vec<LibTurn>, NoMemory>
        requires work { IsAtWork shared.now self.old }
        requires room { HasRoomFor self.old.sessions.desk.board self.old.spare }
        ensures stops { OnErr result (StopsServingAll self.old self.new) }
        ensures serves { IfOk result (λ turns. InTurn (λ i. ServesOne (i + 1)) (length self.old.sessions.ends.items) (serving_of self.old []) (serving_of self.new turns.items)) }
        ensures work { OnOk result (IsAtWork shared.now self.new) }
        ensures failed { self.new.failed ≡ self.old.failed }
        ensures online { OnOk result ((door : Door) (links : ℕ → Link) → IsOnline self.old door links → IsOnline self.new door links) }
        ensures agree { AllAgree self.new.sessions.desk.board self.new.sessions.desk.seat }
        ensures room { HasRoomFor self.new.sessions.desk.board self.new.spare }
    {
        let libraries = self.sessions.ends.len();
        let mut turns = Vec::with_capacity(alloc, libraries)?;
        let mut owners = Owners::of(&self.sessions.desk.board);
        for i in 0..libraries {
            let turn = self.serve_library(alloc, shared, &mut owners, i as u8 + 1)?;
            turns.push(turn)?;
        }
        Ok(turns)
    }

    /// A library is served.
    fn serve_library(
        &mut self,
        alloc: Global,
        shared: &Shared,
        owners: &mut Owners,
        library: u8,
    ) -> Result<LibTurn, NoMemory>
        requires work { IsAtWork shared.now self.old }
        requires library { (1 ≤ library) × (library ≤ length self.old.sessions.ends.items) }
        requires owners { AreOwners self.old.sessions.desk.board owners.old }
        requires room { HasRoomFor self.old.sessions.desk.board self.old.spare }
        ensures stops { OnErr result (StopsServing library self.old.moment (until_of self.old) self.old.sessions self.new.sessions) }
        ensures serves { IfOk result (λ turn. Serves library self.old.moment (until_of self.old) self.old.sessions self.new.sessions turn) }
        ensures owners { OnOk result (AreOwners self.new.sessions.desk.board owners.new) }
        ensures rest { self.new ≡ record self.old { sessions = self.new.sessions } }
        ensures work { OnOk result (IsAtWork shared.now self.new) }
        ensures failed { self.new.failed ≡ self.old.failed }
        ensures online { OnOk result ((door : Door) (links : ℕ → Link) → IsOnline self.old door links → IsOnline self.new door links) }
        ensures agree { AllAgree self.new.sessions.desk.board self.new.sessions.desk.seat }
        ensures room { HasRoomFor self.new.sessions.desk.board self.new.spare }
        ensures libraries { length self.new.sessions.ends.items ≡ length self.old.sessions.ends.items }
    {
        serving_happens();
        boards_go_on();
        boards_stay_ready();
        lines_progress();
        engines_stay();
        let until = self.until();
        let turn = self
            .sessions
            .serve(alloc, shared, owners, library, self.moment, until)?;
        Ok(turn)
    }
}
