//! Each session is gathered once more.

ghost use Rattle.std.specs.Prelude.{◌≡◌, ◌≢◌, ◌<◌, ◌≤◌, ℕ, length, OnErr, OnOk};
ghost use Rattle.engine_end.specs.Finishing.{GathersAll, GathersSome, HasAllOf};
ghost use Rattle.lease_desk.specs.Desk.{Gathers, Rests};
ghost use Rattle.session_desk.specs.Steps.{IsSteady};
ghost use Rattle.switchboard.specs.Going.{GoesOnTo};

use gate_io::{LAST_MOMENT, NoMemory};
use lease_desk::LeaseDesk;
use lease_words::{LANE_SLOTS, Leases};
use session_core::MOST_SESSIONS;
use std::alloc::Global;
use switchboard::laws::{boards_go_on, boards_stay_ready, ready_boards_allow};

/// Gathers what each session's library did, in the order of the sessions' numbers. A hold that this makes lapses at
/// the moment `until`. Without memory the sessions before one are gathered, each event whole.
pub(crate) fn gather_all(
    alloc: Global,
    desk: &mut LeaseDesk,
    leases: &Leases,
    at: u64,
    until: u64,
) -> Result<(), NoMemory>
    requires table { desk.old.seat.table ≡ leases.now }
    requires depth { leases.now.shape.depth ≤ LANE_SLOTS }
    requires moment { at ≤ LAST_MOMENT }
    requires seated { length desk.old.board.sessions ≡ leases.now.shape.sessions }
    requires few { leases.now.shape.sessions ≤ MOST_SESSIONS }
    requires steady { IsSteady desk.old.board desk.old.seat }
    ensures gathers { OnOk result (GathersAll at until desk.old desk.new) }
    ensures stops { OnErr result (GathersSome at until desk.old desk.new) }
    ensures settled { OnOk result ((s : ℕ) → s < length desk.old.board.sessions → HasAllOf desk.new s) }
    ensures steady { IsSteady desk.new.board desk.new.seat }
    ensures goes_on { GoesOnTo desk.old.board desk.new.board }
    ensures connections { length desk.new.board.connections ≡ length desk.old.board.connections }
    ensures table { desk.new.seat.table ≡ desk.old.seat.table }
{
    boards_go_on();
    for s in 0..desk.board.sessions() {
        gather(alloc, desk, leases, s as u16, at, until)?;
    }
    Ok(())
}

/// Gathers what a session's library did.
fn gather(
    alloc: Global,
    desk: &mut LeaseDesk,
    leases: &Leases,
    s: u16,
    at: u64,
    until: u64,
) -> Result<(), NoMemory>
    requires table { desk.old.seat.table ≡ leases.now }
    requires depth { leases.now.shape.depth ≤ LANE_SLOTS }
    requires moment { at ≤ LAST_MOMENT }
    requires session { s < length desk.old.board.sessions }
    requires seated { s < leases.now.shape.sessions }
    requires steady { IsSteady desk.old.board desk.old.seat }
    ensures gathers { OnOk result (Gathers s at until desk.old desk.new) }
    ensures rests { OnErr result (Rests s desk.old desk.new) }
    ensures settled { OnOk result (HasAllOf desk.new s) }
    ensures others { OnOk result ((t : ℕ) → t ≢ s → HasAllOf desk.old t → HasAllOf desk.new t) }
    ensures steady { IsSteady desk.new.board desk.new.seat }
    ensures goes_on { GoesOnTo desk.old.board desk.new.board }
    ensures connections { length desk.new.board.connections ≡ length desk.old.board.connections }
    ensures table { desk.new.seat.table ≡ desk.old.seat.table }
{
    boards_stay_ready();
    ready_boards_allow();
    boards_go_on();
    desk.gather(alloc, leases, s, at, until)?;
    Ok(())
}
