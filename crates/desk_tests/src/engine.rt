//! The engine's calls, where they can be made: each leaves its side running.

ghost use Rattle.std.specs.Prelude.{◌≡◌, ◌<◌, ◌≤◌, length, OnOk};
ghost use Rattle.desk_tests.specs.Outset.{IsOpen};
ghost use Rattle.desk_tests.specs.Running.{IsRunning};
ghost use Rattle.switchboard.specs.Board.{connection_at};

use crate::asks::Ask;
use crate::counterparty::is_new;
use crate::engine_desk::EngineDesk;
use gate_io::{LAST_MOMENT, NoMemory};
use lease_core::laws::lines_tell_the_owner;
use lease_core::{Record, Reply};
use lease_desk::LeaseDesk;
use lease_desk::laws::boards_stay_in_step;
use library_desk::laws::{cursors_stay, serving_happens};
use library_desk::{LibTurn, Owners, Shared};
use session_core::Cause;
use session_desk::laws::sessions_proceed;
use std::alloc::Global;
use switchboard::laws::{boards_go_on, boards_stay_ready, boards_stay_sound, ready_boards_allow};

/// A session is gathered, if it is there.
pub fn gather(
    alloc: Global,
    shared: &Shared,
    desk: &mut EngineDesk,
    s: u16,
    at: u64,
    until: u64,
) -> Result<bool, NoMemory>
    requires running { IsRunning shared.now desk.old }
    requires moment { at ≤ LAST_MOMENT }
    ensures running { OnOk result (IsRunning shared.now desk.new) }
{
    boards_stay_ready();
    boards_stay_sound();
    boards_go_on();
    sessions_proceed();
    cursors_stay();
    if usize::from(s) >= desk.libraries.desk.board.sessions() {
        return Ok(false);
    }
    desk.libraries
        .desk
        .gather(alloc, &shared.leases, s, at, until)?;
    Ok(true)
}

/// A session is taken back, if a library has it.
pub fn take_back(
    alloc: Global,
    shared: &Shared,
    desk: &mut EngineDesk,
    s: u16,
    at: u64,
    until: u64,
) -> Result<bool, NoMemory>
    requires running { IsRunning shared.now desk.old }
    requires moment { at ≤ LAST_MOMENT }
    ensures running { OnOk result (IsRunning shared.now desk.new) }
{
    boards_stay_ready();
    boards_stay_sound();
    boards_go_on();
    sessions_proceed();
    cursors_stay();
    lines_tell_the_owner();
    if usize::from(s) >= desk.libraries.desk.board.sessions() {
        return Ok(false);
    }
    let (owner, _) = desk.libraries.desk.board.session(usize::from(s)).owner();
    if owner == 0 {
        return Ok(false);
    }
    desk.libraries
        .desk
        .take_back(alloc, &shared.leases, s, at, until)?;
    Ok(true)
}

/// The length of a session's log is published, if the session is there.
pub fn publish(shared: &Shared, desk: &mut EngineDesk, s: u16) -> bool
    requires running { IsRunning shared.now desk.old }
    ensures running { IsRunning shared.now desk.new }
{
    if usize::from(s) >= desk.libraries.desk.board.sessions() {
        return false;
    }
    desk.libraries.desk.publish(&shared.leases, s);
    true
}

/// A library is served, if it is there.
pub fn serve(
    alloc: Global,
    shared: &Shared,
    desk: &mut EngineDesk,
    library: u8,
    at: u64,
    until: u64,
) -> Result<Option<LibTurn>, NoMemory>
    requires running { IsRunning shared.now desk.old }
    requires moment { at ≤ LAST_MOMENT }
    ensures running { OnOk result (IsRunning shared.now desk.new) }
{
    serving_happens();
    boards_go_on();
    sessions_proceed();
    cursors_stay();
    if library == 0 || usize::from(library) > desk.libraries.ends.len() {
        return Ok(None);
    }
    let mut owners = Owners::of(&desk.libraries.desk.board);
    let turn = desk
        .libraries
        .serve(alloc, shared, &mut owners, library, at, until)?;
    Ok(Some(turn))
}

/// A session hears the clock, if it is there. Answers why its connection ended, if it did.
pub fn tick(
    alloc: Global,
    shared: &Shared,
    desk: &mut EngineDesk,
    s: u16,
    at: u64,
    until: u64,
) -> Result<Option<Option<Cause>>, NoMemory>
    requires running { IsRunning shared.now desk.old }
    requires moment { at ≤ LAST_MOMENT }
    ensures running { OnOk result (IsRunning shared.now desk.new) }
{
    sessions_proceed();
    cursors_stay();
    if usize::from(s) >= desk.libraries.desk.board.sessions() {
        return Ok(None);
    }
    let cause = session_desk::tick(
        alloc,
        &mut desk.libraries.desk,
        &shared.leases,
        s,
        at,
        until,
    )?;
    Ok(Some(cause))
}

/// The session that dials is bound to the next connection, which has this number. Says whether there is
/// such a session, which is bound to none, and no other connection has the number.
pub fn dial(
    alloc: Global,
    shared: &Shared,
    desk: &mut EngineDesk,
    number: u32,
    at: u64,
    until: u64,
) -> Result<bool, NoMemory>
    requires running { IsRunning shared.now desk.old }
    requires moment { at ≤ LAST_MOMENT }
    ensures running { OnOk result (IsRunning shared.now desk.new) }
{
    sessions_proceed();
    cursors_stay();
    let Some(s) = desk.dialler else {
        return Ok(false);
    };
    let board = &desk.libraries.desk.board;
    if board.place(usize::from(s)).is_some() || !is_new(board, number) {
        return Ok(false);
    }
    session_desk::dial(
        alloc,
        &mut desk.libraries.desk,
        &shared.leases,
        s,
        number,
        at,
        until,
    )?;
    Ok(true)
}

/// All that can be written of a connection is. Says whether a session was ever bound to it.
pub fn write(shared: &Shared, desk: &mut EngineDesk, k: usize) -> Result<bool, NoMemory>
    requires running { IsRunning shared.now desk.old }
    ensures running { OnOk result (IsRunning shared.now desk.new) }
{
    let board = &desk.libraries.desk.board;
    if k >= board.connections() {
        return Ok(false);
    }
    let Some(s) = board.connection(k).session() else {
        return Ok(false);
    };
    if usize::from(s) >= board.sessions() {
        return Ok(false);
    }
    prepare(shared, desk, s, k)?;
    Ok(write_all(shared, desk, k))
}

// Texts are made of what waits on the connection of a session.
fn prepare(_shared: &Shared, desk: &mut EngineDesk, s: u16, k: usize) -> Result<(), NoMemory>
    requires running { IsRunning _shared.now desk.old }
    requires session { s < length desk.old.libraries.desk.board.sessions }
    requires connection { k < length desk.old.libraries.desk.board.connections }
    requires named { (connection_at desk.old.libraries.desk.board k).session ≡ Some s }
    ensures running { OnOk result (IsRunning _shared.now desk.new) }
{
    ready_boards_allow();
    boards_stay_ready();
    boards_stay_in_step();
    boards_go_on();
    sessions_proceed();
    cursors_stay();
    let board = &mut desk.libraries.desk.board;
    board.prepare(s as usize, k, usize::MAX)?;
    Ok(())
}

// The texts of a connection are written, if it is there.
fn write_all(_shared: &Shared, desk: &mut EngineDesk, k: usize) -> bool
    requires running { IsRunning _shared.now desk.old }
    ensures running { IsRunning _shared.now desk.new }
{
    boards_stay_ready();
    boards_stay_in_step();
    boards_go_on();
    sessions_proceed();
    cursors_stay();
    if k >= desk.libraries.desk.board.connections() {
        return false;
    }
    let count = desk
        .libraries
        .desk
        .board
        .connection(k)
        .waiting(usize::MAX)
        .len();
    desk.libraries.desk.board.wrote(k, count);
    true
}

/// The records of the entries that came to a session since the last call, if it is there.
pub fn keep(
    alloc: Global,
    _shared: &Shared,
    desk: &mut EngineDesk,
    s: u16,
) -> Result<Option<Vec<Record>>, NoMemory>
    requires running { IsRunning _shared.now desk.old }
    ensures running { OnOk result (IsRunning _shared.now desk.new) }
{
    let k = usize::from(s);
    let board = &desk.libraries.desk.board;
    if k >= board.sessions() {
        return Ok(None);
    }
    let book = board.session(k);
    desk.unkept[k].note(book)?;
    let records = desk.unkept[k].records(alloc, s, book)?;
    desk.unkept[k].hand_out(book);
    Ok(Some(records))
}

/// A request is answered past the rings, if its session and its library are there.
pub fn ask(shared: &Shared, desk: &mut LeaseDesk, ask: Ask) -> Result<Option<Reply>, NoMemory>
    requires { IsOpen shared.now desk.old }
    ensures { IsOpen shared.now desk.new }
{
    let libraries = shared.leases.libraries();
    if usize::from(ask.s) >= desk.board.sessions() || ask.library == 0 || ask.library > libraries {
        return Ok(None);
    }
    let reply = desk.request(&shared.leases, ask.s, ask.library, ask.nr, ask.from)?;
    Ok(Some(reply))
}
