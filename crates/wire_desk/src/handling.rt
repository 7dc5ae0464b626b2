//! What came on a connection is handled.

ghost use Rattle.std.specs.Prelude.{◌≡◌, ◌<◌, ◌≤◌, length, option_map, true, false, None, IfNone, IfOk, IfSome, IsNone, OnOk, OnErr};
ghost use Rattle.std.specs.Option.{option_to_list};
ghost use Rattle.connection_core.specs.Connection.{room};
ghost use Rattle.connection_core.specs.declared.limits.TheConstants.{MOST_READ};
ghost use Rattle.fix_frame.specs.Owned.{cut_piece};
ghost use Rattle.lease_desk.specs.Desk.{AllAgree};
ghost use Rattle.session_desk.specs.Steps.{IsSteady, Proceeds};
ghost use Rattle.switchboard.specs.Board.{connection_at};
ghost use Rattle.switchboard.specs.Happenings.{Happens, gives, next_pieces};
ghost use Rattle.switchboard.specs.Stops.{NothingIsTold};
ghost use Rattle.wire_desk.specs.Lines.{IsSetUp};
ghost use Rattle.wire_desk.specs.Steps.{HandlesAll, HandlesBody, HandlesOrStops, Progresses, sessions_of};
ghost use Rattle.wire_desk.specs.Stops.{StopsInBody, StopsInPiece, StopsInPieces};

use crate::desk::WireDesk;
use crate::laws::lines_progress;
use connection_core::OwnedPiece;
use gate_io::{LAST_MOMENT, NoMemory};
use lease_desk::LeaseDesk;
use lease_desk::laws::boards_stay_in_step;
use lease_words::Leases;
use session_desk::laws::none_comes;
use session_desk::{greet, hear};
use std::alloc::Global;
use switchboard::laws::{boards_go_on, boards_stay_ready, ready_boards_allow, stops_are_told};

impl WireDesk {
    /// Handles the pieces of what was taken on a connection, one after another, until it ends or there is
    /// no further one.
    pub(crate) fn handle_all(
        &mut self,
        alloc: Global,
        desk: &mut LeaseDesk,
        leases: &Leases,
        k: usize,
        at: u64,
        until: u64,
    ) -> Result<(), NoMemory>
        requires moment { at ≤ LAST_MOMENT }
        requires set_up { IsSetUp leases.now desk.old self.old }
        requires connection { k < length desk.old.board.connections }
        ensures stops { OnErr result (StopsInPieces self.old.routes k at until (sessions_of desk.old self.old.unkept.items) desk.new) }
        ensures handles { OnOk result (HandlesAll self.old.routes k at until (sessions_of desk.old self.old.unkept.items) (sessions_of desk.new self.new.unkept.items)) }
        ensures rest { self.new ≡ record self.old { unkept = self.new.unkept } }
        ensures set_up { OnOk result (IsSetUp leases.now desk.new self.new) }
        ensures progresses { OnOk result (Progresses k desk.old.board desk.new.board) }
        ensures roomy { OnOk result ((connection_at desk.new.board k).cause ≡ None → MOST_READ ≤ room (connection_at desk.new.board k)) }
        ensures agree { AllAgree desk.new.board desk.new.seat }
        ensures none_comes { length desk.new.board.connections ≡ length desk.old.board.connections }
        ensures sessions_stay { length desk.new.board.sessions ≡ length desk.old.board.sessions }
    {
        lines_progress();
        let mut more = true;
        while more {
            more = self.handle_next(alloc, desk, leases, k, at, until)?;
        }
        Ok(())
    }

    /// Handles the next piece of a connection. Says whether there may be another one.
    fn handle_next(
        &mut self,
        alloc: Global,
        desk: &mut LeaseDesk,
        leases: &Leases,
        k: usize,
        at: u64,
        until: u64,
    ) -> Result<bool, NoMemory>
        requires moment { at ≤ LAST_MOMENT }
        requires set_up { IsSetUp leases.now desk.old self.old }
        requires connection { k < length desk.old.board.connections }
        ensures stops { OnErr result (StopsInPiece k at until desk.old desk.new) }
        ensures handles { IfOk result (λ more. HandlesOrStops more self.old.routes k at until (sessions_of desk.old self.old.unkept.items) (sessions_of desk.new self.new.unkept.items)) }
        ensures fewer { IfOk result (λ more. more ≡ true → length (connection_at desk.new.board k).held < length (connection_at desk.old.board k).held) }
        ensures roomy { IfOk result (λ more. more ≡ false → (connection_at desk.new.board k).cause ≡ None → MOST_READ ≤ room (connection_at desk.new.board k)) }
        ensures rest { self.new ≡ record self.old { unkept = self.new.unkept } }
        ensures set_up { OnOk result (IsSetUp leases.now desk.new self.new) }
        ensures progresses { OnOk result (Progresses k desk.old.board desk.new.board) }
        ensures agree { AllAgree desk.new.board desk.new.seat }
        ensures none_comes { length desk.new.board.connections ≡ length desk.old.board.connections }
        ensures sessions_stay { length desk.new.board.sessions ≡ length desk.old.board.sessions }
    {
        lines_progress();
        if desk.board.connection(k).has_ended() {
            return Ok(false);
        }
        match take_piece(alloc, desk, k)? {
            None => Ok(false),
            Some(OwnedPiece::Garbled { .. }) => Ok(true),
            Some(OwnedPiece::Good(body)) => {
                self.handle(alloc, desk, leases, k, body, at, until)?;
                Ok(true)
            }
        }
    }

    /// Handles a message of a connection that stands.
    fn handle(
        &mut self,
        alloc: Global,
        desk: &mut LeaseDesk,
        leases: &Leases,
        k: usize,
        body: Vec<u8>,
        at: u64,
        until: u64,
    ) -> Result<(), NoMemory>
        requires moment { at ≤ LAST_MOMENT }
        requires set_up { IsSetUp leases.now desk.old self.old }
        requires connection { k < length desk.old.board.connections }
        requires stands { IsNone (connection_at desk.old.board k).cause }
        ensures stops { OnErr result (StopsInBody (connection_at desk.old.board k).session k body.items at until desk.old desk.new) }
        ensures handles { OnOk result (HandlesBody (connection_at desk.old.board k).session self.old.routes k body.items at until (sessions_of desk.old self.old.unkept.items) (sessions_of desk.new self.new.unkept.items)) }
        ensures rest { self.new ≡ record self.old { unkept = self.new.unkept } }
        ensures set_up { OnOk result (IsSetUp leases.now desk.new self.new) }
        ensures proceeds { OnOk result (Proceeds desk.old.board desk.new.board) }
        ensures connections { OnOk result (length desk.new.board.connections ≡ length desk.old.board.connections) }
        ensures agree { AllAgree desk.new.board desk.new.seat }
        ensures none_comes { length desk.new.board.connections ≡ length desk.old.board.connections }
        ensures sessions_stay { length desk.new.board.sessions ≡ length desk.old.board.sessions }
    {
        ready_boards_allow();
        lines_progress();
        none_comes();
        let unkept = &mut self.unkept;
        match desk.board.connection(k).session() {
            Some(s) => {
                hear(alloc, desk, leases, unkept, s, k, body, at, until)?;
            }
            None => {
                greet(
                    alloc,
                    desk,
                    leases,
                    unkept,
                    &self.routes,
                    k,
                    body,
                    at,
                    until,
                )?;
            }
        }
        Ok(())
    }
}

/// Hands out the next piece of a connection that stands, if there is one.
fn take_piece(alloc: Global, desk: &mut LeaseDesk, k: usize) -> Result<Option<OwnedPiece>, NoMemory>
    requires connection { k < length desk.old.board.connections }
    requires stands { IsNone (connection_at desk.old.board k).cause }
    requires steady { IsSteady desk.old.board desk.old.seat }
    ensures nothing { OnErr result (NothingIsTold desk.old.board desk.new.board) }
    ensures gives { OnOk result (Happens (gives k) desk.old.board desk.new.board) }
    ensures next { IfOk result (λ given. next_pieces (connection_at desk.old.board k) ≡ option_to_list (option_map cut_piece given)) }
    ensures fewer { IfOk result (λ given. IfSome given (λ piece. length (connection_at desk.new.board k).held < length (connection_at desk.old.board k).held)) }
    ensures roomy { IfOk result (λ given. IfNone given (MOST_READ ≤ room (connection_at desk.new.board k))) }
    ensures stands { OnOk result (IsNone (connection_at desk.new.board k).cause) }
    ensures session { OnOk result ((connection_at desk.new.board k).session ≡ (connection_at desk.old.board k).session) }
    ensures steady { IsSteady desk.new.board desk.new.seat }
    ensures progresses { OnOk result (Progresses k desk.old.board desk.new.board) }
    ensures agree { AllAgree desk.new.board desk.new.seat }
    ensures none_comes { length desk.new.board.connections ≡ length desk.old.board.connections }
    ensures sessions_stay { length desk.new.board.sessions ≡ length desk.old.board.sessions }
    ensures seat { desk.new.seat ≡ desk.old.seat }
{
    boards_stay_ready();
    boards_stay_in_step();
    boards_go_on();
    stops_are_told();
    let piece = desk.board.next(alloc, k)?;
    Ok(piece)
}
