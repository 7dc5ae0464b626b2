//! A connection ends.

ghost use Rattle.std.specs.Prelude.{◌≡◌, ◌<◌, length, IsNone, OnOk, OnErr};
ghost use Rattle.lease_desk.specs.Desk.{AllAgree};
ghost use Rattle.session_desk.specs.Steps.{IsSteady, Proceeds, parting};
ghost use Rattle.switchboard.specs.Board.{connection_at};
ghost use Rattle.switchboard.specs.Happenings.{Happens, ends_unbound};
ghost use Rattle.switchboard.specs.Stops.{NothingIsTold};

use crate::laws::sessions_proceed;
use crate::steps::end;
use gate_io::NoMemory;
use lease_desk::LeaseDesk;
use lease_desk::laws::boards_stay_in_step;
use session_core::Cause;
use switchboard::laws::{boards_stay_ready, ready_boards_allow};

/// A connection that stands ends by a cause. Where a session is bound to it, that leaves it.
pub fn part(desk: &mut LeaseDesk, k: usize, cause: Cause) -> Result<(), NoMemory>
    requires connection { k < length desk.old.board.connections }
    requires stands { IsNone (connection_at desk.old.board k).cause }
    requires steady { IsSteady desk.old.board desk.old.seat }
    ensures nothing { OnErr result (NothingIsTold desk.old.board desk.new.board) }
    ensures parts { OnOk result (Happens (parting (connection_at desk.old.board k).session k cause) desk.old.board desk.new.board) }
    ensures seat { desk.new.seat ≡ desk.old.seat }
    ensures steady { OnOk result (IsSteady desk.new.board desk.new.seat) }
    ensures proceeds { OnOk result (Proceeds desk.old.board desk.new.board) }
    ensures agree { AllAgree desk.new.board desk.new.seat }
    ensures sessions { length desk.new.board.sessions ≡ length desk.old.board.sessions }
    ensures none_comes { length desk.new.board.connections ≡ length desk.old.board.connections }
{
    ready_boards_allow();
    match desk.board.connection(k).session() {
        None => {
            end_alone(desk, k, cause);
            Ok(())
        }
        Some(s) => end(desk, s, k, cause),
    }
}

/// A connection ends to which no session is bound.
pub(crate) fn end_alone(desk: &mut LeaseDesk, k: usize, cause: Cause)
    requires connection { k < length desk.old.board.connections }
    requires unbound { IsNone (connection_at desk.old.board k).session }
    requires steady { IsSteady desk.old.board desk.old.seat }
    ensures happens { Happens (ends_unbound k cause) desk.old.board desk.new.board }
    ensures steady { IsSteady desk.new.board desk.new.seat }
    ensures proceeds { Proceeds desk.old.board desk.new.board }
    ensures seat { desk.new.seat ≡ desk.old.seat }
    ensures sessions { desk.new.board.sessions ≡ desk.old.board.sessions }
    ensures none_comes { length desk.new.board.connections ≡ length desk.old.board.connections }
{
    boards_stay_ready();
    boards_stay_in_step();
    sessions_proceed();
    desk.board.end_unbound(k, cause);
}
