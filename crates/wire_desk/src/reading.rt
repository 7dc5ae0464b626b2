//! A connection is read.

ghost use Rattle.std.specs.Prelude.{◌≡◌, ◌<◌, ◌≤◌, length, take, None, IfOk, IsNone, IsSome, OnOk, OnErr, ◌⊎◌};
ghost use Rattle.connection_core.specs.Connection.{room};
ghost use Rattle.connection_core.specs.declared.limits.TheConstants.{MOST_READ};
ghost use Rattle.gate_io.specs.Wire.{LinkGoesOn, OthersStay, ReadHasCause, ReadsAsPlanned, WireGivesFrom, WireGotWithin};
ghost use Rattle.lease_desk.specs.Desk.{AllAgree};
ghost use Rattle.session_desk.specs.Steps.{IsSteady, parting};
ghost use Rattle.switchboard.specs.Board.{connection_at};
ghost use Rattle.switchboard.specs.Happenings.{Happens, takes};
ghost use Rattle.switchboard.specs.Stops.{NothingIsTold};
ghost use Rattle.wire_desk.specs.Lines.{IsSetUp, IsWired};
ghost use Rattle.wire_desk.specs.Places.{open_places};
ghost use Rattle.wire_desk.specs.Steps.{LeavesIfTardy, Progresses, Reads, ReadsAs, TakesBytes, sessions_of};
ghost use Rattle.wire_desk.specs.Stops.{StopsBehindBytes, StopsReading};

use crate::desk::WireDesk;
use crate::laws::lines_progress;
use gate_io::{LAST_MOMENT, NoMemory, Wire, WireGot};
use lease_desk::LeaseDesk;
use lease_desk::laws::boards_stay_in_step;
use lease_words::Leases;
use session_core::Cause;
use session_desk::laws::sessions_proceed;
use session_desk::part as part_session;
use std::alloc::Global;
use switchboard::laws::{boards_go_on, boards_stay_ready, stops_are_told};

impl WireDesk {
    /// Reads a connection that stands once, and handles what came: bytes are cut and their messages
    /// heard, the end of the input and a fault end it, and so does the moment where no Logon came in time.
    /// A hold that a gathering makes lapses at the moment `until`.
    pub fn read<W: Wire>(
        &mut self,
        alloc: Global,
        desk: &mut LeaseDesk,
        leases: &Leases,
        wire: &mut W,
        k: usize,
        at: u64,
        until: u64,
    ) -> Result<WireGot, NoMemory>
        requires moment { at ≤ LAST_MOMENT }
        requires set_up { IsSetUp leases.now desk.old self.old }
        requires wired { IsWired desk.old.board (open_places self.old) (W.door wire.old) (W.link wire.old) }
        requires connection { k < length desk.old.board.connections }
        requires stands { IsNone (connection_at desk.old.board k).cause }
        ensures stops { OnErr result (StopsReading self.old.routes k at until (sessions_of desk.old self.old.unkept.items) desk.new) }
        ensures reads { IfOk result (λ got. Reads got self.old.routes k self.new.buffer.items at until (sessions_of desk.old self.old.unkept.items) (sessions_of desk.new self.new.unkept.items)) }
        ensures within { IfOk result (λ got. WireGotWithin MOST_READ got) }
        ensures content { IfOk result (λ got. WireGivesFrom (W.link wire.old (connection_at desk.old.board k).number).left got self.new.buffer.items (W.link wire.new (connection_at desk.old.board k).number).left) }
        ensures planned { IfOk result (λ got. ReadsAsPlanned (W.link wire.old (connection_at desk.old.board k).number) MOST_READ got (W.link wire.new (connection_at desk.old.board k).number)) }
        ensures cause { IfOk result (λ got. ReadHasCause (W.link wire.old (connection_at desk.old.board k).number) (W.link wire.new (connection_at desk.old.board k).number) got) }
        ensures goes_on { LinkGoesOn (W.link wire.old (connection_at desk.old.board k).number) (W.link wire.new (connection_at desk.old.board k).number) }
        ensures door { W.door wire.new ≡ W.door wire.old }
        ensures others { OthersStay (W.link wire.old) (W.link wire.new) (connection_at desk.old.board k).number }
        ensures set_up { OnOk result (IsSetUp leases.now desk.new self.new) }
        ensures wired { OnOk result (IsWired desk.new.board (open_places self.new) (W.door wire.new) (W.link wire.new)) }
        ensures progresses { OnOk result (Progresses k desk.old.board desk.new.board) }
        ensures agree { AllAgree desk.new.board desk.new.seat }
        ensures none_comes { length desk.new.board.connections ≡ length desk.old.board.connections }
        ensures sessions_stay { length desk.new.board.sessions ≡ length desk.old.board.sessions }
        ensures exact { IfOk result (λ got. W.read_gives wire.old (connection_at desk.old.board k).number MOST_READ got wire.new) }
        ensures rest { self.new ≡ record self.old { unkept = self.new.unkept; buffer = self.new.buffer } }
    {
        lines_progress();
        let number = desk.board.connection(k).number();
        let got = wire.read(number, self.buffer.as_mut_slice());
        self.follow_read(alloc, desk, leases, k, got, at, until)?;
        self.leave_if_tardy(desk, leases, k, at)?;
        Ok(got)
    }

    /// Does what follows from what a read gave.
    fn follow_read(
        &mut self,
        alloc: Global,
        desk: &mut LeaseDesk,
        leases: &Leases,
        k: usize,
        got: WireGot,
        at: u64,
        until: u64,
    ) -> Result<(), NoMemory>
        requires moment { at ≤ LAST_MOMENT }
        requires set_up { IsSetUp leases.now desk.old self.old }
        requires connection { k < length desk.old.board.connections }
        requires stands { IsNone (connection_at desk.old.board k).cause }
        requires within { WireGotWithin MOST_READ got }
        requires roomy { MOST_READ ≤ room (connection_at desk.old.board k) }
        ensures stops { OnErr result (StopsReading self.old.routes k at until (sessions_of desk.old self.old.unkept.items) desk.new) }
        ensures reads { OnOk result (ReadsAs got self.old.routes k self.old.buffer.items at until (sessions_of desk.old self.old.unkept.items) (sessions_of desk.new self.new.unkept.items)) }
        ensures set_up { OnOk result (IsSetUp leases.now desk.new self.new) }
        ensures progresses { OnOk result (Progresses k desk.old.board desk.new.board) }
        ensures roomy { OnOk result ((connection_at desk.new.board k).cause ≡ None → MOST_READ ≤ room (connection_at desk.new.board k)) }
        ensures agree { AllAgree desk.new.board desk.new.seat }
        ensures none_comes { length desk.new.board.connections ≡ length desk.old.board.connections }
        ensures sessions_stay { length desk.new.board.sessions ≡ length desk.old.board.sessions }
        ensures rest { self.new ≡ record self.old { unkept = self.new.unkept } }
    {
        lines_progress();
        match got {
            WireGot::Bytes(n) => self.take_bytes(alloc, desk, leases, k, n, at, until),
            WireGot::End => part(desk, k, Cause::End),
            WireGot::Failed => part(desk, k, Cause::ReadFault),
            WireGot::Blocked => Ok(()),
        }
    }

    /// Takes the first n bytes of the buffer, and handles their pieces.
    fn take_bytes(
        &mut self,
        alloc: Global,
        desk: &mut LeaseDesk,
        leases: &Leases,
        k: usize,
        n: usize,
        at: u64,
        until: u64,
    ) -> Result<(), NoMemory>
        requires moment { at ≤ LAST_MOMENT }
        requires set_up { IsSetUp leases.now desk.old self.old }
        requires connection { k < length desk.old.board.connections }
        requires stands { IsNone (connection_at desk.old.board k).cause }
        requires within { n ≤ MOST_READ }
        requires roomy { MOST_READ ≤ room (connection_at desk.old.board k) }
        ensures stops { OnErr result (NothingIsTold desk.old.board desk.new.board ⊎ StopsBehindBytes self.old.routes k at until (sessions_of desk.old self.old.unkept.items) desk.new) }
        ensures takes { OnOk result (TakesBytes self.old.routes k (take n self.old.buffer.items) at until (sessions_of desk.old self.old.unkept.items) (sessions_of desk.new self.new.unkept.items)) }
        ensures set_up { OnOk result (IsSetUp leases.now desk.new self.new) }
        ensures progresses { OnOk result (Progresses k desk.old.board desk.new.board) }
        ensures roomy { OnOk result ((connection_at desk.new.board k).cause ≡ None → MOST_READ ≤ room (connection_at desk.new.board k)) }
        ensures agree { AllAgree desk.new.board desk.new.seat }
        ensures none_comes { length desk.new.board.connections ≡ length desk.old.board.connections }
        ensures sessions_stay { length desk.new.board.sessions ≡ length desk.old.board.sessions }
        ensures rest { self.new ≡ record self.old { unkept = self.new.unkept } }
    {
        lines_progress();
        take_in(desk, k, &self.buffer[..n])?;
        self.handle_all(alloc, desk, leases, k, at, until)?;
        Ok(())
    }

    /// A connection ends on which no Logon came in time.
    fn leave_if_tardy(
        &mut self,
        desk: &mut LeaseDesk,
        leases: &Leases,
        k: usize,
        at: u64,
    ) -> Result<(), NoMemory>
        requires set_up { IsSetUp leases.now desk.old self.old }
        requires connection { k < length desk.old.board.connections }
        ensures nothing { OnErr result (NothingIsTold desk.old.board desk.new.board) }
        ensures leaves { OnOk result (LeavesIfTardy k at (sessions_of desk.old self.old.unkept.items) (sessions_of desk.new self.new.unkept.items)) }
        ensures set_up { OnOk result (IsSetUp leases.now desk.new self.new) }
        ensures progresses { OnOk result (Progresses k desk.old.board desk.new.board) }
        ensures held { OnOk result ((connection_at desk.new.board k).cause ≡ None → (connection_at desk.new.board k).held ≡ (connection_at desk.old.board k).held) }
        ensures agree { AllAgree desk.new.board desk.new.seat }
        ensures none_comes { length desk.new.board.connections ≡ length desk.old.board.connections }
        ensures sessions_stay { length desk.new.board.sessions ≡ length desk.old.board.sessions }
        ensures rest { self.new ≡ self.old }
    {
        lines_progress();
        let connection = desk.board.connection(k);
        if connection.has_ended() || !connection.is_late(at) {
            return Ok(());
        }
        let since = connection.since();
        part(desk, k, Cause::Silent { since })
    }
}

/// A connection that stands ends by a cause.
pub(crate) fn part(desk: &mut LeaseDesk, k: usize, cause: Cause) -> Result<(), NoMemory>
    requires steady { IsSteady desk.old.board desk.old.seat }
    requires connection { k < length desk.old.board.connections }
    requires stands { IsNone (connection_at desk.old.board k).cause }
    ensures nothing { OnErr result (NothingIsTold desk.old.board desk.new.board) }
    ensures parts { OnOk result (Happens (parting (connection_at desk.old.board k).session k cause) desk.old.board desk.new.board) }
    ensures ended { OnOk result (IsSome (connection_at desk.new.board k).cause) }
    ensures steady { OnOk result (IsSteady desk.new.board desk.new.seat) }
    ensures progresses { OnOk result (Progresses k desk.old.board desk.new.board) }
    ensures agree { AllAgree desk.new.board desk.new.seat }
    ensures none_comes { length desk.new.board.connections ≡ length desk.old.board.connections }
    ensures sessions_stay { length desk.new.board.sessions ≡ length desk.old.board.sessions }
    ensures seat { desk.new.seat ≡ desk.old.seat }
{
    part_session(desk, k, cause)
}

/// Takes bytes that came on a connection that stands.
fn take_in(desk: &mut LeaseDesk, k: usize, bytes: &[u8]) -> Result<(), NoMemory>
    requires steady { IsSteady desk.old.board desk.old.seat }
    requires connection { k < length desk.old.board.connections }
    requires stands { IsNone (connection_at desk.old.board k).cause }
    requires room { length bytes.now ≤ room (connection_at desk.old.board k) }
    ensures nothing { OnErr result (NothingIsTold desk.old.board desk.new.board) }
    ensures takes { OnOk result (Happens (takes k bytes.now) desk.old.board desk.new.board) }
    ensures steady { IsSteady desk.new.board desk.new.seat }
    ensures progresses { OnOk result (Progresses k desk.old.board desk.new.board) }
    ensures agree { AllAgree desk.new.board desk.new.seat }
    ensures none_comes { length desk.new.board.connections ≡ length desk.old.board.connections }
    ensures sessions_stay { length desk.new.board.sessions ≡ length desk.old.board.sessions }
    ensures seat { desk.new.seat ≡ desk.old.seat }
{
    boards_stay_ready();
    boards_stay_in_step();
    boards_go_on();
    stops_are_told();
    desk.board.take_in(k, bytes)?;
    Ok(())
}
