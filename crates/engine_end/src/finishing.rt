//! A run ends.

ghost use Rattle.std.specs.Prelude.{◌≡◌, ◌<◌, ◌≤◌, ◌⊎◌, ℕ, [], length, IfErr, IfOk, OnErr, OnOk};
ghost use Rattle.std.specs.List.{All};
ghost use Rattle.engine_end.specs.Finishing.{Finishes, FinishesFrom, FinishesShort, FinishesShortFrom, GathersAll, GathersSome, HasAllOf, all_records};
ghost use Rattle.engine_end.specs.Records.{HasLawfulJournal, IsLeftBy};
ghost use Rattle.engine_end.specs.Room.{HasRoomFor};
ghost use Rattle.lease_desk.specs.Desk.{AllAgree};
ghost use Rattle.lease_words.specs.Views.{LibraryView};
ghost use Rattle.library_desk.specs.Serving.{IsLinked};
ghost use Rattle.session_desk.specs.Steps.{AreNoted, IsSteady};

use crate::gathering::gather_all;
use crate::noting::hand_out_all;
use crate::records::{EngineRecord, RecordRoom};
use crate::settling::settle_all;
use gate_io::{LAST_MOMENT, NoMemory};
use lease_core::Record;
use lease_desk::LeaseDesk;
use lease_words::{LANE_SLOTS, Leases, LibrarySeat};
use library_desk::{LibraryDesk, Shared};
use session_book::Unkept;
use session_core::MOST_SESSIONS;
use session_desk::laws::sessions_proceed;
use std::alloc::Global;
use switchboard::Switchboard;

/// Takes the libraries' seats in, gathers each session once more, and hands out what the run leaves.
/// `at` is the moment of the last turn, and a hold that this gathering makes lapses at the moment `until`.
/// What a session sends waits on its connection and isn't written. `unkept` says which entries were handed
/// out before, and `accepted` how many connections were accepted.
///
/// Without memory each session and connection is handed out as it stood behind none, some or all of these
/// gatherings, each journal lawful: sends and releases that only they would have shown may be missing,
/// and no record of a new entry is handed out. Where there is no memory for that either, `spare` has the
/// room for it.
pub fn finish(
    alloc: Global,
    spare: RecordRoom,
    mut desk: LibraryDesk,
    shared: &Shared,
    seats: Vec<LibrarySeat>,
    unkept: Vec<Unkept>,
    accepted: u32,
    at: u64,
    until: u64,
) -> Result<EngineRecord, (NoMemory, EngineRecord)>
    requires linked { IsLinked shared.now desk }
    requires seats { All (λ (seat : LibraryView). seat.table ≡ shared.now.leases) seats.items }
    requires room { HasRoomFor desk.desk.board spare }
    requires moment { at ≤ LAST_MOMENT }
    requires steady { IsSteady desk.desk.board desk.desk.seat }
    requires noted { AreNoted unkept.items desk.desk.board }
    ensures finishes { IfOk result (Finishes seats.items unkept.items accepted at until desk) }
    ensures finishes_short { IfErr result (λ e. FinishesShort seats.items accepted at until desk e.1) }
    ensures journals { IfOk result (λ left. All HasLawfulJournal left.sessions) }
    ensures journals_short { IfErr result (λ e. All HasLawfulJournal e.1.sessions) }
{
    settle_all(&mut desk.desk, &shared.leases, seats);
    match room_for(alloc, &desk.desk.board) {
        Ok(room) => finish_in(alloc, room, desk, shared, unkept, accepted, at, until),
        Err(no_memory) => Err((no_memory, spare.fill_as_it_holds(alloc, desk, accepted))),
    }
}

/// What sessions and connections leave as they stand. Where there is no memory for that, `spare` has the
/// room for it.
pub fn leave(alloc: Global, spare: RecordRoom, desk: LibraryDesk, accepted: u32) -> EngineRecord
    requires room { HasRoomFor desk.desk.board spare }
    ensures left { IsLeftBy desk.desk.board desk.strays.items accepted [] result }
    ensures journals { All HasLawfulJournal result.sessions }
{
    match room_for(alloc, &desk.desk.board) {
        Ok(room) => room.fill_as_it_holds(alloc, desk, accepted),
        Err(NoMemory::OutOfMemory) => spare.fill_as_it_holds(alloc, desk, accepted),
    }
}

/// Room for the records of these sessions and connections.
fn room_for(alloc: Global, board: &Switchboard) -> Result<RecordRoom, NoMemory>
    ensures { IfOk result (HasRoomFor board.now) }
{
    RecordRoom::new(alloc, board.sessions(), board.connections())
}

/// Gathers each session, and hands out what the run leaves, in a room that holds it.
fn finish_in(
    alloc: Global,
    room: RecordRoom,
    mut desk: LibraryDesk,
    shared: &Shared,
    mut unkept: Vec<Unkept>,
    accepted: u32,
    at: u64,
    until: u64,
) -> Result<EngineRecord, (NoMemory, EngineRecord)>
    requires linked { IsLinked shared.now desk }
    requires moment { at ≤ LAST_MOMENT }
    requires steady { IsSteady desk.desk.board desk.desk.seat }
    requires noted { AreNoted unkept.items desk.desk.board }
    requires room { HasRoomFor desk.desk.board room }
    ensures finishes { IfOk result (FinishesFrom unkept.items accepted at until desk) }
    ensures finishes_short { IfErr result (λ e. FinishesShortFrom accepted at until desk e.1) }
    ensures journals { IfOk result (λ left. All HasLawfulJournal left.sessions) }
    ensures journals_short { IfErr result (λ e. All HasLawfulJournal e.1.sessions) }
{
    let gathered = gather_records(
        alloc,
        &mut desk.desk,
        &shared.leases,
        &mut unkept,
        at,
        until,
    );
    match gathered {
        Ok(added) => Ok(room.fill(desk, accepted, added)),
        Err(no_memory) => Err((no_memory, room.fill(desk, accepted, Vec::new(alloc)))),
    }
}

/// Gathers each session, and hands out the records of the entries that came.
fn gather_records(
    alloc: Global,
    desk: &mut LeaseDesk,
    leases: &Leases,
    unkept: &mut Vec<Unkept>,
    at: u64,
    until: u64,
) -> Result<Vec<Record>, NoMemory>
    requires table { desk.old.seat.table ≡ leases.now }
    requires depth { leases.now.shape.depth ≤ LANE_SLOTS }
    requires moment { at ≤ LAST_MOMENT }
    requires seated { length desk.old.board.sessions ≡ leases.now.shape.sessions }
    requires few { leases.now.shape.sessions ≤ MOST_SESSIONS }
    requires steady { IsSteady desk.old.board desk.old.seat }
    requires noted { AreNoted unkept.old.items desk.old.board }
    ensures gathers { OnOk result (GathersAll at until desk.old desk.new) }
    ensures stops { OnErr result (GathersAll at until desk.old desk.new ⊎ GathersSome at until desk.old desk.new) }
    ensures added { IfOk result (λ added. added.items ≡ all_records desk.new.board unkept.old.items) }
    ensures settled { OnOk result ((s : ℕ) → s < length desk.old.board.sessions → HasAllOf desk.new s) }
    ensures agree { AllAgree desk.new.board desk.new.seat }
    ensures sessions { length desk.new.board.sessions ≡ length desk.old.board.sessions }
    ensures connections { length desk.new.board.connections ≡ length desk.old.board.connections }
{
    sessions_proceed();
    gather_all(alloc, desk, leases, at, until)?;
    hand_out_all(alloc, &desk.board, unkept)
}
