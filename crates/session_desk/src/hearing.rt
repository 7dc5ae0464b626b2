//! A message on the connection of a session.

ghost use Rattle.std.specs.Prelude.{◌≡◌, ◌<◌, ◌≤◌, ◌∷◌, ◌++◌, [], length, Some, IfOk, OnOk, OnErr};
ghost use Rattle.session_desk.specs.Stops.{StopsHearing};
ghost use Rattle.lease_desk.specs.Desk.{AllAgree};
ghost use Rattle.session_core.specs.Receive.{receive};
ghost use Rattle.session_desk.specs.Steps.{AreNoted, Hears, IsSteady, Proceeds, answering, ending};
ghost use Rattle.switchboard.specs.Board.{book_at, place_at};
ghost use Rattle.switchboard.specs.Happenings.{Happens, Reaches, answers, ends_bound, receives};
ghost use Rattle.switchboard.specs.Stops.{NothingIsTold, StopsIn};

use crate::laws::sessions_proceed;
use crate::steps::{end as end_connection, gather, note};
use gate_io::{LAST_MOMENT, NoMemory};
use lease_desk::LeaseDesk;
use lease_desk::laws::{agreement_stays, boards_stay_in_step, others_stay};
use lease_words::{LANE_SLOTS, Leases};
use session_book::Unkept;
use session_book::laws::{leases_stay, sessions_go_on};
use session_core::Cause;
use std::alloc::Global;
use switchboard::laws::{boards_stay_ready, ready_boards_allow, stops_are_told};

/// A session hears a message on its connection, behind what its library did: that is gathered. Answers
/// the cause by which the connection ended, if it did. A hold that the gathering makes lapses at the
/// moment `until`.
pub fn hear(
    alloc: Global,
    desk: &mut LeaseDesk,
    leases: &Leases,
    unkept: &mut Vec<Unkept>,
    s: u16,
    k: usize,
    body: Vec<u8>,
    at: u64,
    until: u64,
) -> Result<Option<Cause>, NoMemory>
    requires table { desk.old.seat.table ≡ leases.now }
    requires depth { leases.now.shape.depth ≤ LANE_SLOTS }
    requires moment { at ≤ LAST_MOMENT }
    requires session { s < length desk.old.board.sessions }
    requires seated { s < leases.now.shape.sessions }
    requires placed { place_at desk.old.board s ≡ Some k }
    requires noted { AreNoted unkept.old.items desk.old.board }
    requires steady { IsSteady desk.old.board desk.old.seat }
    ensures stops { OnErr result (StopsHearing s k body.items at until desk.old desk.new) }
    ensures hears { IfOk result (λ end. Hears s k body.items at until desk.old desk.new unkept.old.items unkept.new.items end) }
    ensures steady { OnOk result (IsSteady desk.new.board desk.new.seat) }
    ensures proceeds { OnOk result (Proceeds desk.old.board desk.new.board) }
    ensures noted { OnOk result (AreNoted unkept.new.items desk.new.board) }
    ensures agree { AllAgree desk.new.board desk.new.seat }
    ensures table { desk.new.seat.table ≡ desk.old.seat.table }
    ensures sessions { length desk.new.board.sessions ≡ length desk.old.board.sessions }
    ensures none_comes { length desk.new.board.connections ≡ length desk.old.board.connections }
{
    sessions_proceed();
    stops_are_told();
    gather(alloc, desk, leases, s, at, until)?;
    note(desk, unkept, s)?;
    let end = take_message(alloc, desk, s, k, body, at)?;
    settle(desk, s, k, end)?;
    Ok(end)
}

/// A message comes.
fn take_message(
    alloc: Global,
    desk: &mut LeaseDesk,
    s: u16,
    k: usize,
    body: Vec<u8>,
    at: u64,
) -> Result<Option<Cause>, NoMemory>
    requires moment { at ≤ LAST_MOMENT }
    requires session { s < length desk.old.board.sessions }
    requires placed { place_at desk.old.board s ≡ Some k }
    requires steady { IsSteady desk.old.board desk.old.seat }
    ensures end { IfOk result (λ end. end ≡ (receive (book_at desk.old.board s).machine body.items at).end) }
    ensures stops { OnErr result (StopsIn (receives s k body.items at) desk.old.board desk.new.board) }
    ensures happens { OnOk result (Happens (receives s k body.items at) desk.old.board desk.new.board) }
    ensures steady { OnOk result (IsSteady desk.new.board desk.new.seat) }
    ensures proceeds { OnOk result (Proceeds desk.old.board desk.new.board) }
    ensures agree { AllAgree desk.new.board desk.new.seat }
    ensures places { desk.new.board.places ≡ desk.old.board.places }
    ensures sessions { length desk.new.board.sessions ≡ length desk.old.board.sessions }
    ensures none_comes { length desk.new.board.connections ≡ length desk.old.board.connections }
    ensures seat { desk.new.seat ≡ desk.old.seat }
{
    boards_stay_ready();
    boards_stay_in_step();
    ready_boards_allow();
    agreement_stays();
    others_stay();
    leases_stay();
    sessions_go_on();
    sessions_proceed();
    let end = desk.board.receive(alloc, s as usize, k, body, at)?;
    Ok(end)
}

/// What was heard answers the Logon of a dialled connection, unless another cause than a low number ends
/// that; and a cause ends the connection.
fn settle(desk: &mut LeaseDesk, s: u16, k: usize, end: Option<Cause>) -> Result<(), NoMemory>
    requires session { s < length desk.old.board.sessions }
    requires placed { place_at desk.old.board s ≡ Some k }
    requires steady { IsSteady desk.old.board desk.old.seat }
    ensures nothing { OnErr result (NothingIsTold desk.old.board desk.new.board) }
    ensures follows { OnOk result (Reaches (answering k end ++ ending s (Some k) end) desk.old.board desk.new.board) }
    ensures steady { OnOk result (IsSteady desk.new.board desk.new.seat) }
    ensures proceeds { OnOk result (Proceeds desk.old.board desk.new.board) }
    ensures agree { AllAgree desk.new.board desk.new.seat }
    ensures sessions { length desk.new.board.sessions ≡ length desk.old.board.sessions }
    ensures none_comes { length desk.new.board.connections ≡ length desk.old.board.connections }
    ensures seat { desk.new.seat ≡ desk.old.seat }
{
    boards_stay_ready();
    sessions_proceed();
    stops_are_told();
    answer_unless_refused(desk, s, k, end);
    end_by(desk, s, k, end)
}

/// The Logon of a dialled connection is answered, unless what came ends it by another cause than a low
/// number.
fn answer_unless_refused(desk: &mut LeaseDesk, s: u16, k: usize, end: Option<Cause>)
    requires session { s < length desk.old.board.sessions }
    requires placed { place_at desk.old.board s ≡ Some k }
    requires steady { IsSteady desk.old.board desk.old.seat }
    ensures answers { Reaches (answering k end) desk.old.board desk.new.board }
    ensures steady { IsSteady desk.new.board desk.new.seat }
    ensures proceeds { Proceeds desk.old.board desk.new.board }
    ensures seat { desk.new.seat ≡ desk.old.seat }
    ensures places { desk.new.board.places ≡ desk.old.board.places }
    ensures sessions { desk.new.board.sessions ≡ desk.old.board.sessions }
    ensures none_comes { length desk.new.board.connections ≡ length desk.old.board.connections }
{
    ready_boards_allow();
    boards_stay_ready();
    sessions_proceed();
    if matches!(end, None | Some(Cause::LowNumber { .. })) {
        answer(desk, k);
    }
}

/// The connection ends, where there is a cause.
fn end_by(desk: &mut LeaseDesk, s: u16, k: usize, end: Option<Cause>) -> Result<(), NoMemory>
    requires session { s < length desk.old.board.sessions }
    requires placed { place_at desk.old.board s ≡ Some k }
    requires steady { IsSteady desk.old.board desk.old.seat }
    ensures nothing { OnErr result (NothingIsTold desk.old.board desk.new.board) }
    ensures ends { OnOk result (Reaches (ending s (Some k) end) desk.old.board desk.new.board) }
    ensures steady { OnOk result (IsSteady desk.new.board desk.new.seat) }
    ensures proceeds { OnOk result (Proceeds desk.old.board desk.new.board) }
    ensures agree { AllAgree desk.new.board desk.new.seat }
    ensures sessions { length desk.new.board.sessions ≡ length desk.old.board.sessions }
    ensures none_comes { length desk.new.board.connections ≡ length desk.old.board.connections }
    ensures seat { desk.new.seat ≡ desk.old.seat }
{
    boards_stay_ready();
    sessions_proceed();
    match end {
        Some(cause) => end_connection(desk, s, k, cause),
        None => Ok(()),
    }
}

/// The Logon of a dialled connection is answered.
fn answer(desk: &mut LeaseDesk, k: usize)
    requires connection { k < length desk.old.board.connections }
    requires steady { IsSteady desk.old.board desk.old.seat }
    ensures happens { Happens (answers k) desk.old.board desk.new.board }
    ensures steady { IsSteady desk.new.board desk.new.seat }
    ensures proceeds { Proceeds desk.old.board desk.new.board }
    ensures seat { desk.new.seat ≡ desk.old.seat }
    ensures places { desk.new.board.places ≡ desk.old.board.places }
    ensures sessions { desk.new.board.sessions ≡ desk.old.board.sessions }
    ensures none_comes { length desk.new.board.connections ≡ length desk.old.board.connections }
{
    boards_stay_ready();
    boards_stay_in_step();
    sessions_proceed();
    desk.board.answer(k);
}
