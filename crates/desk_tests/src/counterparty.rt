//! What comes on connections: they are accepted, speak and end. Each leaves the engine's side running.

ghost use Rattle.std.specs.Prelude.{◌≡◌, ◌<◌, ◌≤◌, length, IsNone, IsTrue, OnOk, Some};
ghost use Rattle.desk_tests.specs.Running.{IsRunning};
ghost use Rattle.switchboard.specs.Board.{connection_at};
ghost use Rattle.switchboard.specs.Happenings.{IsNewNumber};

use crate::engine_desk::EngineDesk;
use gate_io::{LAST_MOMENT, NoMemory};
use lease_desk::laws::boards_stay_in_step;
use library_desk::Shared;
use library_desk::laws::cursors_stay;
use session_core::Cause;
use session_desk::laws::sessions_proceed;
use std::alloc::Global;
use switchboard::Switchboard;
use switchboard::laws::{boards_go_on, boards_stay_ready, ready_boards_allow};

/// The next connection is accepted. Its number is its place. Says whether no other has that number.
pub fn connect(
    alloc: Global,
    _shared: &Shared,
    desk: &mut EngineDesk,
    at: u64,
) -> Result<bool, NoMemory>
    requires running { IsRunning _shared.now desk.old }
    ensures running { OnOk result (IsRunning _shared.now desk.new) }
{
    boards_stay_ready();
    boards_stay_in_step();
    boards_go_on();
    sessions_proceed();
    cursors_stay();
    let count = desk.libraries.desk.board.connections();
    let number = u32::try_from(count).unwrap_or(u32::MAX);
    if !is_new(&desk.libraries.desk.board, number) {
        return Ok(false);
    }
    desk.libraries.desk.board.accept(alloc, number, at)?;
    Ok(true)
}

/// Whether no connection has the number.
pub fn is_new(board: &Switchboard, number: u32) -> bool
    ensures { IsTrue result → IsNewNumber board.now number }
{
    for k in 0..board.connections() {
        if board.connection(k).number() == number {
            return false;
        }
    }
    true
}

/// A body comes on a connection: its first message, or a later one of its session. Says whether the
/// connection stood, and then has the cause that was answered.
pub fn hear(
    alloc: Global,
    shared: &Shared,
    desk: &mut EngineDesk,
    k: usize,
    body: Vec<u8>,
    at: u64,
    until: u64,
) -> Result<bool, NoMemory>
    requires running { IsRunning shared.now desk.old }
    requires moment { at ≤ LAST_MOMENT }
    ensures running { OnOk result (IsRunning shared.now desk.new) }
{
    let board = &desk.libraries.desk.board;
    if k >= board.connections() || board.connection(k).has_ended() {
        return Ok(false);
    }
    let end = match board.connection(k).session() {
        None => hear_first(alloc, shared, desk, k, body, at, until)?,
        Some(s) => hear_later(alloc, shared, desk, s, k, body, at, until)?,
    };
    Ok(has_cause(&desk.libraries.desk.board, k, end))
}

// Whether the connection has this cause, or none.
fn has_cause(board: &Switchboard, k: usize, end: Option<Cause>) -> bool {
    k < board.connections() && board.connection(k).cause() == end
}

// The first message of a connection.
fn hear_first(
    alloc: Global,
    shared: &Shared,
    desk: &mut EngineDesk,
    k: usize,
    body: Vec<u8>,
    at: u64,
    until: u64,
) -> Result<Option<Cause>, NoMemory>
    requires running { IsRunning shared.now desk.old }
    requires moment { at ≤ LAST_MOMENT }
    requires connection { k < length desk.old.libraries.desk.board.connections }
    requires stands { IsNone (connection_at desk.old.libraries.desk.board k).cause }
    requires unbound { IsNone (connection_at desk.old.libraries.desk.board k).session }
    ensures running { OnOk result (IsRunning shared.now desk.new) }
{
    sessions_proceed();
    cursors_stay();
    let end = session_desk::greet(
        alloc,
        &mut desk.libraries.desk,
        &shared.leases,
        &mut desk.unkept,
        &desk.routes,
        k,
        body,
        at,
        until,
    )?;
    Ok(end)
}

// A later message, on the connection of a session.
fn hear_later(
    alloc: Global,
    shared: &Shared,
    desk: &mut EngineDesk,
    s: u16,
    k: usize,
    body: Vec<u8>,
    at: u64,
    until: u64,
) -> Result<Option<Cause>, NoMemory>
    requires running { IsRunning shared.now desk.old }
    requires moment { at ≤ LAST_MOMENT }
    requires connection { k < length desk.old.libraries.desk.board.connections }
    requires stands { IsNone (connection_at desk.old.libraries.desk.board k).cause }
    requires named { (connection_at desk.old.libraries.desk.board k).session ≡ Some s }
    ensures running { OnOk result (IsRunning shared.now desk.new) }
{
    ready_boards_allow();
    sessions_proceed();
    cursors_stay();
    let end = session_desk::hear(
        alloc,
        &mut desk.libraries.desk,
        &shared.leases,
        &mut desk.unkept,
        s,
        k,
        body,
        at,
        until,
    )?;
    Ok(end)
}

/// A connection ends. Says whether it stood.
pub fn end(
    _shared: &Shared,
    desk: &mut EngineDesk,
    k: usize,
    cause: Cause,
) -> Result<bool, NoMemory>
    requires running { IsRunning _shared.now desk.old }
    ensures running { OnOk result (IsRunning _shared.now desk.new) }
{
    sessions_proceed();
    cursors_stay();
    let board = &desk.libraries.desk.board;
    if k >= board.connections() || board.connection(k).has_ended() {
        return Ok(false);
    }
    session_desk::part(&mut desk.libraries.desk, k, cause)?;
    Ok(true)
}
