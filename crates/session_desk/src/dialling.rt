//! A session dials.

ghost use Rattle.std.specs.Prelude.{◌≡◌, ◌<◌, ◌≤◌, ◌+◌, length, None, IfOk, IsSome, OnOk, OnErr};
ghost use Rattle.session_desk.specs.Stops.{StopsDialling};
ghost use Rattle.lease_desk.specs.Desk.{AllAgree};
ghost use Rattle.session_desk.specs.Steps.{DialsTo, IsSteady, Proceeds};
ghost use Rattle.switchboard.specs.Board.{book_at, place_at};
ghost use Rattle.switchboard.specs.Happenings.{Happens, IsNewNumber, dials};
ghost use Rattle.switchboard.specs.Stops.{StopsIn};

use crate::laws::sessions_proceed;
use crate::steps::gather;
use gate_io::{LAST_MOMENT, NoMemory};
use lease_desk::LeaseDesk;
use lease_desk::laws::{agreement_stays, boards_stay_in_step};
use lease_words::{LANE_SLOTS, Leases};
use session_book::laws::{leases_stay, sessions_go_on};
use std::alloc::Global;
use switchboard::laws::{boards_stay_ready, ready_boards_allow};

/// A session that dials and is bound to no connection is bound to the next one, and asks for a Logon,
/// behind what its library did: that is gathered. Answers the connection's place. A hold that the
/// gathering makes lapses at the moment `until`.
pub fn dial(
    alloc: Global,
    desk: &mut LeaseDesk,
    leases: &Leases,
    s: u16,
    number: u32,
    at: u64,
    until: u64,
) -> Result<usize, NoMemory>
    requires table { desk.old.seat.table ≡ leases.now }
    requires depth { leases.now.shape.depth ≤ LANE_SLOTS }
    requires moment { at ≤ LAST_MOMENT }
    requires session { s < length desk.old.board.sessions }
    requires seated { s < leases.now.shape.sessions }
    requires dials { IsSome (book_at desk.old.board s).machine.dials }
    requires free { place_at desk.old.board s ≡ None }
    requires new_number { IsNewNumber desk.old.board number }
    requires steady { IsSteady desk.old.board desk.old.seat }
    ensures place { IfOk result (λ k. k ≡ length desk.old.board.connections) }
    ensures stops { OnErr result (StopsDialling s number at until desk.old desk.new) }
    ensures dials { OnOk result (DialsTo s number at until desk.old desk.new) }
    ensures steady { OnOk result (IsSteady desk.new.board desk.new.seat) }
    ensures proceeds { OnOk result (Proceeds desk.old.board desk.new.board) }
    ensures agree { AllAgree desk.new.board desk.new.seat }
    ensures table { desk.new.seat.table ≡ desk.old.seat.table }
    ensures sessions { length desk.new.board.sessions ≡ length desk.old.board.sessions }
    ensures one_comes { length desk.new.board.connections ≤ length desk.old.board.connections + 1 }
{
    sessions_proceed();
    gather(alloc, desk, leases, s, at, until)?;
    let k = bind_next(alloc, desk, s, number, at)?;
    Ok(k)
}

/// The session is bound to the next connection.
fn bind_next(
    alloc: Global,
    desk: &mut LeaseDesk,
    s: u16,
    number: u32,
    at: u64,
) -> Result<usize, NoMemory>
    requires moment { at ≤ LAST_MOMENT }
    requires session { s < length desk.old.board.sessions }
    requires dials { IsSome (book_at desk.old.board s).machine.dials }
    requires free { place_at desk.old.board s ≡ None }
    requires new_number { IsNewNumber desk.old.board number }
    requires steady { IsSteady desk.old.board desk.old.seat }
    ensures place { IfOk result (λ k. k ≡ length desk.old.board.connections) }
    ensures stops { OnErr result (StopsIn (dials s number at) desk.old.board desk.new.board) }
    ensures happens { OnOk result (Happens (dials s number at) desk.old.board desk.new.board) }
    ensures steady { OnOk result (IsSteady desk.new.board desk.new.seat) }
    ensures proceeds { OnOk result (Proceeds desk.old.board desk.new.board) }
    ensures agree { AllAgree desk.new.board desk.new.seat }
    ensures sessions { length desk.new.board.sessions ≡ length desk.old.board.sessions }
    ensures one_comes { length desk.new.board.connections ≤ length desk.old.board.connections + 1 }
    ensures seat { desk.new.seat ≡ desk.old.seat }
{
    boards_stay_ready();
    boards_stay_in_step();
    ready_boards_allow();
    agreement_stays();
    leases_stay();
    sessions_go_on();
    sessions_proceed();
    let k = desk.board.dial(alloc, s as usize, number, at)?;
    Ok(k)
}
