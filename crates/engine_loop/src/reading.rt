//! Each connection that stands is read.

ghost use Rattle.std.specs.Prelude.{◌≡◌, ◌<◌, [], length, slice_index_or, IfOk, OnOk, OnErr, ◌⊎◌};
ghost use Rattle.engine_loop.specs.Engines.{until_of};
ghost use Rattle.engine_loop.specs.Stops.{StopsReadingAll, TellsNothing};
ghost use Rattle.engine_end.specs.Room.{HasRoomFor};
ghost use Rattle.engine_loop.specs.Engines.{IsAtWork, IsOnline};
ghost use Rattle.engine_loop.specs.Turns.{ReadsAll, ReadsIfStands, reading_of};
ghost use Rattle.lease_desk.specs.Desk.{AllAgree};
ghost use Rattle.wire_desk.specs.Places.{open_places};
ghost use Rattle.wire_desk.specs.Steps.{sessions_of};
ghost use Rattle.wire_desk.specs.Stops.{StopsReading};

use crate::engine::Engine;
use crate::laws::engines_stay;
use gate_io::{NoMemory, Wire, WireGot};
use library_desk::Shared;
use std::alloc::Global;

impl Engine {
    /// Reads each connection that stands once, in the order of their numbers, and handles what it brings.
    /// Answers what the reads gave.
    pub(crate) fn read_all<W: Wire>(
        &mut self,
        alloc: Global,
        shared: &Shared,
        wire: &mut W,
    ) -> Result<Vec<(u32, WireGot)>, NoMemory>
        requires work { IsAtWork shared.now self.old }
        requires online { IsOnline self.old (W.door wire.old) (W.link wire.old) }
        requires room { HasRoomFor self.old.sessions.desk.board self.old.spare }
        ensures stops { OnErr result (StopsReadingAll self.old (W.link wire.old) self.new) }
        ensures reads { IfOk result (λ got. ReadsAll (open_places self.old.lines) (reading_of self.old (W.link wire.old) []) (reading_of self.new (W.link wire.new) got.items)) }
        ensures work { OnOk result (IsAtWork shared.now self.new) }
        ensures failed { self.new.failed ≡ self.old.failed }
        ensures online { OnOk result (IsOnline self.new (W.door wire.new) (W.link wire.new)) }
        ensures agree { AllAgree self.new.sessions.desk.board self.new.sessions.desk.seat }
        ensures room { HasRoomFor self.new.sessions.desk.board self.new.spare }
        ensures door { W.door wire.new ≡ W.door wire.old }
    {
        let count = self.open_count();
        let mut got = Vec::with_capacity(alloc, count)?;
        for i in 0..count {
            let k = self.open_place(i);
            self.read_place(alloc, shared, wire, k, &mut got)?;
        }
        Ok(got)
    }

    /// Reads the connection at a place, if it stands, handles what it brings, and puts what the read gave
    /// behind the others.
    fn read_place<W: Wire>(
        &mut self,
        alloc: Global,
        shared: &Shared,
        wire: &mut W,
        k: usize,
        got: &mut Vec<(u32, WireGot)>,
    ) -> Result<(), NoMemory>
        requires work { IsAtWork shared.now self.old }
        requires online { IsOnline self.old (W.door wire.old) (W.link wire.old) }
        requires connection { k < length self.old.sessions.desk.board.connections }
        requires room { HasRoomFor self.old.sessions.desk.board self.old.spare }
        ensures stops { OnErr result (TellsNothing self.old self.new ⊎ StopsReading self.old.lines.routes k self.old.moment (until_of self.old) (sessions_of self.old.sessions.desk self.old.lines.unkept.items) self.new.sessions.desk) }
        ensures reads { OnOk result (ReadsIfStands k (reading_of self.old (W.link wire.old) got.old.items) (reading_of self.new (W.link wire.new) got.new.items)) }
        ensures work { OnOk result (IsAtWork shared.now self.new) }
        ensures failed { self.new.failed ≡ self.old.failed }
        ensures online { OnOk result (IsOnline self.new (W.door wire.new) (W.link wire.new)) }
        ensures agree { AllAgree self.new.sessions.desk.board self.new.sessions.desk.seat }
        ensures room { HasRoomFor self.new.sessions.desk.board self.new.spare }
        ensures door { W.door wire.new ≡ W.door wire.old }
        ensures places { open_places self.new.lines ≡ open_places self.old.lines }
        ensures connections { OnOk result (length self.new.sessions.desk.board.connections ≡ length self.old.sessions.desk.board.connections) }
    {
        engines_stay();
        let connection = self.sessions.desk.board.connection(k);
        if connection.has_ended() {
            return Ok(());
        }
        let number = connection.number();
        let until = self.until();
        let desk = &mut self.sessions.desk;
        let answer = self
            .lines
            .read(alloc, desk, &shared.leases, wire, k, self.moment, until)?;
        got.push((number, answer))?;
        Ok(())
    }

    /// How many connections aren't closed.
    fn open_count(&self) -> usize
        ensures { result ≡ length (open_places self.now.lines) }
    {
        self.lines.open_count()
    }

    /// The place of the i-th of them.
    fn open_place(&self, i: usize) -> usize
        requires { i < length (open_places self.now.lines) }
        ensures { result ≡ slice_index_or (open_places self.now.lines) i 0 }
    {
        self.lines.open_place(i)
    }
}
