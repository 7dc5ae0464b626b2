//! The engine's side and those of the libraries, around sessions and a table that are made.

ghost use Rattle.std.specs.Prelude.{◌≡◌, ◌≤◌, IfOk, length};
ghost use Rattle.engine_config.specs.Config.{IsConfig};
ghost use Rattle.engine_start.specs.Starts.{HaveRings, IsShapeOf, StartsCursors, StartsDesk, StartsEngine, StartsLibraries};
ghost use Rattle.lease_words.specs.Tokens.{new_engine_seat, new_library_seats};
ghost use Rattle.library_desk.specs.Serving.{IsLinked};

use crate::ends::LibraryEnds;
use crate::sides::{Sides, make_sides};
use catchup_pump::Cursor;
use engine_config::Config;
use gate_io::NoMemory;
use lease_desk::LeaseDesk;
use lease_words::{EngineSeat, Leases, LibrarySeat};
use library_clock::Watch;
use library_desk::{LibraryDesk, Shared};
use std::alloc::Global;
use switchboard::Switchboard;

/// The sessions at their table, with new rings, watch and cursors.
pub(crate) fn assemble(
    alloc: Global,
    config: &Config,
    moment: u64,
    board: Switchboard,
    leases: Leases,
    seat: EngineSeat,
    seats: Vec<LibrarySeat>,
) -> Result<(LibraryDesk, Shared, Vec<LibraryEnds>), NoMemory>
    requires config { IsConfig config.now }
    requires sessions { length board.sessions ≡ length config.now.names }
    requires shape { IsShapeOf config.now leases.shape }
    requires seat { seat ≡ new_engine_seat leases }
    requires seats { seats.items ≡ new_library_seats leases 1 config.now.libraries }
    ensures board { IfOk result (λ made. made.0.desk.board ≡ board) }
    ensures leases { IfOk result (λ made. made.1.leases ≡ leases) }
    ensures linked { IfOk result (λ made. IsLinked made.1 made.0) }
    ensures rings { IfOk result (λ made. HaveRings config.now made.1) }
    ensures desk { IfOk result (λ made. StartsDesk config.now moment made.1 made.0) }
    ensures engine { IfOk result (λ made. StartsEngine config.now made.1 made.0.ends.items) }
    ensures libraries { IfOk result (λ made. StartsLibraries config.now made.1 made.2.items) }
{
    let count = board.sessions() as u16;
    let Sides {
        commands,
        notices,
        engine,
        libraries,
    } = make_sides(alloc, seats)?;
    let desk = LibraryDesk {
        desk: LeaseDesk::new(alloc, board, seat),
        watch: Watch::new(alloc, config.libraries, config.timeout, moment)?,
        ends: engine,
        cursors: cursors(alloc, count)?,
        strays: Vec::new(alloc),
    };
    let shared = Shared {
        leases,
        commands,
        notices,
    };
    Ok((desk, shared, libraries))
}

// The cursors of as many sessions, which nobody has yet.
#[tactic(auto, using(crate::proofs::Outset::cursors_more))]
fn cursors(alloc: Global, sessions: u16) -> Result<Vec<Cursor>, NoMemory>
    ensures { IfOk result (λ made. StartsCursors sessions made.items) }
{
    let mut cursors = Vec::new(alloc);
    for s in 0..sessions {
        cursors.push(Cursor { s, lease: 0, at: 0 })?;
    }
    Ok(cursors)
}
