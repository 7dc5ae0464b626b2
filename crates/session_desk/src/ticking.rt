//! The clock, as a session hears it.

ghost use Rattle.std.specs.Prelude.{◌≡◌, ◌<◌, ◌≤◌, ◌∷◌, [], length, IfOk, OnOk, OnErr};
ghost use Rattle.session_desk.specs.Stops.{StopsTicking};
ghost use Rattle.lease_core.specs.State.{state_of};
ghost use Rattle.lease_desk.specs.Desk.{AllAgree};
ghost use Rattle.session_core.specs.Tick.{tick};
ghost use Rattle.session_desk.specs.Steps.{IsSteady, Proceeds, Ticks, ending, lapsing};
ghost use Rattle.switchboard.specs.Board.{book_at, place_at};
ghost use Rattle.switchboard.specs.Happenings.{Happens, Reaches, ticks};
ghost use Rattle.switchboard.specs.Stops.{NothingIsTold, StopsIn};

use crate::laws::sessions_proceed;
use crate::steps::{end, gather};
use gate_io::{LAST_MOMENT, NoMemory};
use lease_desk::LeaseDesk;
use lease_desk::laws::{agreement_stays, boards_stay_in_step, others_stay};
use lease_words::{LANE_SLOTS, Leases};
use session_book::laws::{leases_stay, sessions_go_on};
use session_core::Cause;
use std::alloc::Global;
use switchboard::laws::{boards_stay_ready, ready_boards_allow, stops_are_told};

/// A session hears the clock, behind what its library did: that is gathered. A reservation lapses whose
/// time is over, and then the session does what is due. Answers the cause by which its connection ended,
/// if it did. A hold that the gathering makes lapses at the moment `until`: in this call where `at` is
/// no earlier.
pub fn tick(
    alloc: Global,
    desk: &mut LeaseDesk,
    leases: &Leases,
    s: u16,
    at: u64,
    until: u64,
) -> Result<Option<Cause>, NoMemory>
    requires table { desk.old.seat.table ≡ leases.now }
    requires depth { leases.now.shape.depth ≤ LANE_SLOTS }
    requires moment { at ≤ LAST_MOMENT }
    requires session { s < length desk.old.board.sessions }
    requires seated { s < leases.now.shape.sessions }
    requires steady { IsSteady desk.old.board desk.old.seat }
    ensures stops { OnErr result (StopsTicking s at until desk.old desk.new) }
    ensures ticks { IfOk result (λ end. Ticks s at until desk.old desk.new end) }
    ensures steady { OnOk result (IsSteady desk.new.board desk.new.seat) }
    ensures proceeds { OnOk result (Proceeds desk.old.board desk.new.board) }
    ensures agree { AllAgree desk.new.board desk.new.seat }
    ensures table { desk.new.seat.table ≡ desk.old.seat.table }
    ensures sessions { length desk.new.board.sessions ≡ length desk.old.board.sessions }
    ensures none_comes { length desk.new.board.connections ≡ length desk.old.board.connections }
{
    sessions_proceed();
    stops_are_told();
    gather(alloc, desk, leases, s, at, until)?;
    lapse(desk, s, at)?;
    let cause = take_tick(alloc, desk, s, at)?;
    end_if_bound(desk, s, cause)?;
    Ok(cause)
}

/// A reservation lapses whose time is over.
fn lapse(desk: &mut LeaseDesk, s: u16, at: u64) -> Result<(), NoMemory>
    requires session { s < length desk.old.board.sessions }
    requires steady { IsSteady desk.old.board desk.old.seat }
    ensures nothing { OnErr result (NothingIsTold desk.old.board desk.new.board) }
    ensures lapses { OnOk result (Reaches (lapsing s (state_of (book_at desk.old.board s).entries).reserved at) desk.old.board desk.new.board) }
    ensures steady { OnOk result (IsSteady desk.new.board desk.new.seat) }
    ensures proceeds { OnOk result (Proceeds desk.old.board desk.new.board) }
    ensures agree { AllAgree desk.new.board desk.new.seat }
    ensures places { desk.new.board.places ≡ desk.old.board.places }
    ensures sessions { length desk.new.board.sessions ≡ length desk.old.board.sessions }
    ensures none_comes { length desk.new.board.connections ≡ length desk.old.board.connections }
    ensures seat { desk.new.seat ≡ desk.old.seat }
{
    boards_stay_ready();
    boards_stay_in_step();
    agreement_stays();
    others_stay();
    sessions_proceed();
    match desk.board.session(s as usize).reserved() {
        Some((_, until)) if until <= at => {
            desk.board.lapse(s as usize)?;
            Ok(())
        }
        _ => Ok(()),
    }
}

/// The session does what is due.
fn take_tick(
    alloc: Global,
    desk: &mut LeaseDesk,
    s: u16,
    at: u64,
) -> Result<Option<Cause>, NoMemory>
    requires moment { at ≤ LAST_MOMENT }
    requires session { s < length desk.old.board.sessions }
    requires steady { IsSteady desk.old.board desk.old.seat }
    ensures end { IfOk result (λ end. end ≡ (tick (book_at desk.old.board s).machine at).end) }
    ensures stops { OnErr result (StopsIn (ticks s at) desk.old.board desk.new.board) }
    ensures happens { OnOk result (Happens (ticks s at) desk.old.board desk.new.board) }
    ensures steady { OnOk result (IsSteady desk.new.board desk.new.seat) }
    ensures proceeds { OnOk result (Proceeds desk.old.board desk.new.board) }
    ensures agree { AllAgree desk.new.board desk.new.seat }
    ensures places { desk.new.board.places ≡ desk.old.board.places }
    ensures sessions { length desk.new.board.sessions ≡ length desk.old.board.sessions }
    ensures none_comes { length desk.new.board.connections ≡ length desk.old.board.connections }
    ensures seat { desk.new.seat ≡ desk.old.seat }
{
    boards_stay_ready();
    boards_stay_in_step();
    ready_boards_allow();
    agreement_stays();
    others_stay();
    leases_stay();
    sessions_go_on();
    sessions_proceed();
    let end = desk.board.tick(alloc, s as usize, at)?;
    Ok(end)
}

/// The connection to which the session is bound ends, where there is a cause.
fn end_if_bound(desk: &mut LeaseDesk, s: u16, cause: Option<Cause>) -> Result<(), NoMemory>
    requires session { s < length desk.old.board.sessions }
    requires steady { IsSteady desk.old.board desk.old.seat }
    ensures nothing { OnErr result (NothingIsTold desk.old.board desk.new.board) }
    ensures follows { OnOk result (Reaches (ending s (place_at desk.old.board s) cause) desk.old.board desk.new.board) }
    ensures steady { OnOk result (IsSteady desk.new.board desk.new.seat) }
    ensures proceeds { OnOk result (Proceeds desk.old.board desk.new.board) }
    ensures agree { AllAgree desk.new.board desk.new.seat }
    ensures sessions { length desk.new.board.sessions ≡ length desk.old.board.sessions }
    ensures none_comes { length desk.new.board.connections ≡ length desk.old.board.connections }
    ensures seat { desk.new.seat ≡ desk.old.seat }
{
    sessions_proceed();
    match (desk.board.place(s as usize), cause) {
        (Some(k), Some(cause)) => end(desk, s, k, cause),
        _ => Ok(()),
    }
}
