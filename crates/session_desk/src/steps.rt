//! What the steps of a session are made of.

ghost use Rattle.std.specs.Prelude.{◌≡◌, ◌<◌, ◌≤◌, length, Some, OnErr, OnOk};
ghost use Rattle.lease_desk.specs.Desk.{AllAgree, Gathers};
ghost use Rattle.session_book.specs.Book.{IsSameSession};
ghost use Rattle.session_book.specs.Records.{HasNotedAll};
ghost use Rattle.session_desk.specs.Steps.{AreNoted, HaveSameLines, IsSteady, Proceeds, noted, pending_at};
ghost use Rattle.switchboard.specs.Board.{book_at, place_at};
ghost use Rattle.switchboard.specs.Happenings.{Happens, ends_bound};
ghost use Rattle.switchboard.specs.Sound.{bound_of};
ghost use Rattle.switchboard.specs.Stops.{NothingIsTold};

use crate::laws::sessions_proceed;
use gate_io::{LAST_MOMENT, NoMemory};
use lease_desk::LeaseDesk;
use lease_desk::laws::{agreement_stays, boards_stay_in_step, others_stay};
use lease_words::{LANE_SLOTS, Leases};
use session_book::Unkept;
use session_core::Cause;
use std::alloc::Global;
use switchboard::laws::{boards_go_on, boards_stay_ready, ready_boards_allow};

/// Gathers what a session's library did.
pub(crate) fn gather(
    alloc: Global,
    desk: &mut LeaseDesk,
    leases: &Leases,
    s: u16,
    at: u64,
    until: u64,
) -> Result<(), NoMemory>
    requires table { desk.old.seat.table ≡ leases.now }
    requires depth { leases.now.shape.depth ≤ LANE_SLOTS }
    requires moment { at ≤ LAST_MOMENT }
    requires session { s < length desk.old.board.sessions }
    requires seated { s < leases.now.shape.sessions }
    requires steady { IsSteady desk.old.board desk.old.seat }
    ensures nothing { OnErr result (NothingIsTold desk.old.board desk.new.board) }
    ensures gathers { OnOk result (Gathers s at until desk.old desk.new) }
    ensures steady { IsSteady desk.new.board desk.new.seat }
    ensures proceeds { OnOk result (Proceeds desk.old.board desk.new.board) }
    ensures places { desk.new.board.places ≡ desk.old.board.places }
    ensures connections { OnOk result (HaveSameLines desk.old.board desk.new.board) }
    ensures bound { OnOk result (bound_of (book_at desk.new.board s) ≡ bound_of (book_at desk.old.board s)) }
    ensures same { OnOk result (IsSameSession (book_at desk.old.board s) (book_at desk.new.board s)) }
    ensures sessions { length desk.new.board.sessions ≡ length desk.old.board.sessions }
    ensures none_comes { length desk.new.board.connections ≡ length desk.old.board.connections }
    ensures table { desk.new.seat.table ≡ desk.old.seat.table }
{
    boards_stay_ready();
    ready_boards_allow();
    boards_go_on();
    desk.gather(alloc, leases, s, at, until)?;
    Ok(())
}

/// The connection of a session ends by a cause.
pub(crate) fn end(desk: &mut LeaseDesk, s: u16, k: usize, cause: Cause) -> Result<(), NoMemory>
    requires session { s < length desk.old.board.sessions }
    requires placed { place_at desk.old.board s ≡ Some k }
    requires steady { IsSteady desk.old.board desk.old.seat }
    ensures nothing { OnErr result (NothingIsTold desk.old.board desk.new.board) }
    ensures happens { OnOk result (Happens (ends_bound s k cause) desk.old.board desk.new.board) }
    ensures steady { OnOk result (IsSteady desk.new.board desk.new.seat) }
    ensures proceeds { OnOk result (Proceeds desk.old.board desk.new.board) }
    ensures agree { AllAgree desk.new.board desk.new.seat }
    ensures sessions { length desk.new.board.sessions ≡ length desk.old.board.sessions }
    ensures none_comes { length desk.new.board.connections ≡ length desk.old.board.connections }
    ensures seat { desk.new.seat ≡ desk.old.seat }
{
    boards_stay_ready();
    boards_stay_in_step();
    ready_boards_allow();
    agreement_stays();
    others_stay();
    sessions_proceed();
    desk.board.end_bound(s as usize, k, cause)?;
    Ok(())
}

/// Notes the entries of a session that came, with the number that it expects now.
pub(crate) fn note(desk: &LeaseDesk, unkept: &mut Vec<Unkept>, s: u16) -> Result<(), NoMemory>
    requires session { s < length desk.now.board.sessions }
    requires noted { AreNoted unkept.old.items desk.now.board }
    ensures ok { OnOk result (unkept.new.items ≡ noted s desk.now.board unkept.old.items) }
    ensures noted { AreNoted unkept.new.items desk.now.board }
    ensures err { OnErr result (unkept.new.items ≡ unkept.old.items) }
{
    let s = s as usize;
    unkept[s].note(desk.board.session(s))
}
